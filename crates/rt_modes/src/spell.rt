//! The spelling of a mode in an object.

ghost use Rattle.std.specs.Prelude.{◌≡◌, ◌∷◌, ◌++◌, OnOk, OnErr};
ghost use Rattle.rt_words.specs.Spelling.{Grew};
ghost use Rattle.rt_modes.specs.Parts.{Adds, parts_after, part_spelling};
ghost use Rattle.rt_modes.specs.Spelling.{spelling};
ghost use Rattle.rt_words.specs.Bytes.{word_bytes};

use crate::mode::Mode;
use byteorder::{ByteOrder, LittleEndian};
use rt_words::{Boxed, List, Memory, Text};
use std::alloc::Global;

/// A part of a spelling that is still to come.
#[derive(Clone, Copy)]
pub enum Part<'t> {
    Mode(&'t Mode),
    /// Further parameters of PROC, and its result.
    Behind(&'t [Mode], &'t Option<Boxed<Mode>>),
}

/// Appends the spelling of `mode`. The number of parameters of a PROC is spelled by its low byte; where a
/// mode may stand in an object there are at most 32. Where there is no memory `out` has grown by the
/// beginning of the spelling.
pub fn spell_mode(alloc: Global, mode: &Mode, out: &mut Text) -> Result<(), Memory>
    ensures ok { OnOk result (out.new.items ≡ out.old.items ++ spelling mode.now) }
    ensures err { OnErr result (Grew (spelling mode.now) out.old.items out.new.items) }
{
    let mut parts = List::new(alloc, 0)?;
    parts.push(Part::Mode(mode))?;
    while let Some(part) = parts.pop() {
        spell_part(part, &mut parts, out)?;
    }
    Ok(())
}

/// The first fields of a part; what is left of it is put on the parts.
fn spell_part<'t>(part: Part<'t>, parts: &mut List<Part<'t>>, out: &mut Text) -> Result<(), Memory>
    ensures ok { OnOk result (Adds (part_spelling part.entry) parts.old parts.new out.old.items out.new.items) }
    ensures err { OnErr result (out.new.items ≡ out.old.items) }
{
    match part {
        Part::Mode(mode) => spell_head(mode, parts, out),
        Part::Behind(parameters, answer) => spell_behind(parameters, answer, parts, out),
    }
}

/// The fields of a mode itself; the modes inside it are put on the parts.
fn spell_head<'t>(mode: &'t Mode, parts: &mut List<Part<'t>>, out: &mut Text) -> Result<(), Memory>
    ensures ok { OnOk result (Adds (spelling mode.now) parts.old parts.new out.old.items out.new.items) }
    ensures err { OnErr result (out.new.items ≡ out.old.items) }
{
    match mode {
        Mode::Byte => out.push(1)?,
        Mode::Int => out.push(2)?,
        Mode::Frac => out.push(3)?,
        Mode::Ref(of) => {
            parts.push(Part::Mode(of.get()))?;
            out.push(4)?;
        }
        Mode::RefArray(of) => {
            parts.push(Part::Mode(of.get()))?;
            out.push(5)?;
        }
        Mode::Array(length, of) => {
            parts.push(Part::Mode(of.get()))?;
            push_with_word(6, *length, out)?;
        }
        Mode::Record(number) => push_with_word(7, *number, out)?,
        Mode::Label => out.push(8)?,
        Mode::Proc(parameters, answer) => {
            parts.push(Part::Behind(parameters.as_slice(), answer))?;
            out.push_all(&[9, (parameters.len() % 256) as u8])?;
        }
    }
    Ok(())
}

fn spell_behind<'t>(
    parameters: &'t [Mode],
    answer: &'t Option<Boxed<Mode>>,
    parts: &mut List<Part<'t>>,
    out: &mut Text,
) -> Result<(), Memory>
    ensures ok { OnOk result (Adds (parts_after parameters.now answer.now) parts.old parts.new out.old.items out.new.items) }
    ensures err { OnErr result (out.new.items ≡ out.old.items) }
{
    match parameters.split_first() {
        Some((first, rest)) => {
            parts.push(Part::Behind(rest, answer))?;
            spell_head(first, parts, out)?;
        }
        None => match answer {
            Some(mode) => spell_head(mode.get(), parts, out)?,
            None => out.push(0)?,
        },
    }
    Ok(())
}

/// A code and a word, the low byte first.
fn push_with_word(code: u8, word: u16, out: &mut Text) -> Result<(), Memory>
    ensures ok { OnOk result (out.new.items ≡ out.old.items ++ code ∷ word_bytes word) }
    ensures err { OnErr result (out.new.items ≡ out.old.items) }
{
    let mut bytes = [code, 0, 0];
    LittleEndian::write_u16(&mut bytes[1..], word);
    out.push_all(&bytes)
}
