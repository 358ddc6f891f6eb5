//! What an object has of a procedure.

ghost use Rattle.std.specs.Prelude.{◌≡◌, [], length};
ghost use Rattle.rt_words.specs.Reading as formats;
ghost use Rattle.rt_words.specs.Reading.{Gives};
ghost use Rattle.rt_modes.specs.declared.mode.Mode.{Mode};
ghost use Rattle.rt_object.specs.Reading as reads;
ghost use Rattle.rt_object.specs.declared.object.ProcContent.{ProcContent};

use crate::known::Known;
use crate::modes::{read_proc_mode, read_value_mode};
use crate::object::{Call, ProcContent, Relocation, Target};
use crate::relocations::{read_below, read_relocations};
use crate::tag::{Called, read_called};
use rt_modes::Mode;
use rt_words::{Bytes, List, Stop, read_bytes_within, read_word, read_word_within, read_words};
use std::alloc::Global;

/// The words of a code, and one mark for each.
type Code = (List<u16>, Bytes);

/// How many items, words of locals and words of temporaries a procedure has.
type Counts = ((u16, u16), u16);

/// A code and its relocations.
type Body = (Code, List<Relocation>);

/// What a procedure has behind its mode.
type Inside = ((Counts, List<Call>), Body);

#[tactic(auto, unfolding(crate::specs::Reading::proc_reader))]
pub fn read_proc<'b>(
    alloc: Global,
    known: &Known<'_>,
    bytes: &'b [u8],
) -> Result<(ProcContent, &'b [u8]), Stop>
    requires { known.now.count ≡ length known.now.records.now }
    ensures { Gives (λ x. (x.0, x.1.now)) result (reads.proc_reader known.now.records.now known.now.strings known.now.bricks bytes.now) }
{
    let (mode, rest) = read_proc_mode(alloc, known.count, bytes)?;
    proc_of(mode, read_inside(alloc, known, rest))
}

/// A procedure of a mode, where what stands behind the mode was read.
fn proc_of(mode: Mode, inside: Result<(Inside, &[u8]), Stop>) -> Result<(ProcContent, &[u8]), Stop>
    ensures { (read : formats.Outcome ProcContent) → Gives (λ x. (reads.proc_of mode x.0, x.1.now)) inside.entry read → Gives (λ x. (x.0, x.1.now)) result read }
{
    let (inside, rest) = inside?;
    let ((((items, locals), deep), calls), ((words, marks), relocations)) = inside;
    Ok((
        ProcContent {
            mode,
            items,
            locals,
            deep,
            calls,
            words,
            marks,
            relocations,
        },
        rest,
    ))
}

/// What stands behind a mode.
#[tactic(auto, unfolding(crate::specs::Reading::behind_mode))]
fn read_inside<'b>(
    alloc: Global,
    known: &Known<'_>,
    bytes: &'b [u8],
) -> Result<(Inside, &'b [u8]), Stop>
    requires { known.now.count ≡ length known.now.records.now }
    ensures { (mode : Mode) → Gives (λ x. (reads.proc_of mode x.0, x.1.now)) result (reads.behind_mode known.now.records.now known.now.strings known.now.bricks mode bytes.now) }
{
    let (items, rest) = read_word(bytes)?;
    let (locals, rest) = read_word(rest)?;
    let (deep, rest) = read_word(rest)?;
    let (calls, rest) = read_calls(alloc, known, rest)?;
    let (body, rest) = read_body(alloc, known, rest)?;
    Ok((((((items, locals), deep), calls), body), rest))
}

/// The code and its relocations.
#[tactic(auto, unfolding(crate::specs::Reading::body_reader))]
fn read_body<'b>(
    alloc: Global,
    known: &Known<'_>,
    bytes: &'b [u8],
) -> Result<(Body, &'b [u8]), Stop>
    ensures { Gives (λ x. (x.0, x.1.now)) result (reads.body_reader known.now.records.now known.now.strings known.now.bricks bytes.now) }
{
    let (code, rest) = read_code(alloc, bytes)?;
    let (relocations, rest) = read_relocations(alloc, known, 1, code.0.len(), rest)?;
    Ok(((code, relocations), rest))
}

#[tactic(auto, unfolding(crate::specs::Reading::code_reader))]
fn read_code(alloc: Global, bytes: &[u8]) -> Result<(Code, &[u8]), Stop>
    ensures { Gives (λ x. (x.0, x.1.now)) result (reads.code_reader bytes.now) }
{
    let (count, rest) = read_word_within(0, 16383, bytes)?;
    read_code_of(alloc, usize::from(count), rest)
}

/// So many words and their marks.
#[tactic(auto, unfolding(crate::specs::Reading::code_of))]
fn read_code_of(alloc: Global, count: usize, bytes: &[u8]) -> Result<(Code, &[u8]), Stop>
    ensures { Gives (λ x. (x.0, x.1.now)) result (reads.code_of count bytes.now) }
{
    let (words, rest) = read_words(alloc, count, bytes)?;
    let (marks, rest) = read_bytes_within(alloc, count, 0, 2, rest)?;
    Ok(((words, marks), rest))
}

/// Calls behind their number.
#[tactic(auto, unfolding(crate::specs::Reading::calls_reader))]
fn read_calls<'b>(
    alloc: Global,
    known: &Known<'_>,
    bytes: &'b [u8],
) -> Result<(List<Call>, &'b [u8]), Stop>
    requires { known.now.count ≡ length known.now.records.now }
    ensures { Gives (λ x. (x.0, x.1.now)) result (reads.calls_reader known.now.records.now known.now.strings known.now.bricks bytes.now) }
{
    let (count, rest) = read_word(bytes)?;
    read_each_call(alloc, known, usize::from(count), rest)
}

/// So many calls.
#[tactic(auto, unfolding(rt_words::specs::Reading::each))]
fn read_each_call<'b>(
    alloc: Global,
    known: &Known<'_>,
    count: usize,
    bytes: &'b [u8],
) -> Result<(List<Call>, &'b [u8]), Stop>
    requires { known.now.count ≡ length known.now.records.now }
    ensures { Gives (λ x. (x.0, x.1.now)) result (formats.times (reads.call_reader known.now.records.now known.now.strings known.now.bricks) count [] bytes.now) }
{
    let mut found = List::new(alloc, 0)?;
    let mut rest = bytes;
    for _turn in 0..count {
        let (call, after) = read_call(alloc, known, rest)?;
        found.push(call)?;
        rest = after;
    }
    Ok((found, rest))
}

#[tactic(auto, unfolding(crate::specs::Reading::call_reader))]
fn read_call<'b>(
    alloc: Global,
    known: &Known<'_>,
    bytes: &'b [u8],
) -> Result<(Call, &'b [u8]), Stop>
    requires { known.now.count ≡ length known.now.records.now }
    ensures { Gives (λ x. (x.0, x.1.now)) result (reads.call_reader known.now.records.now known.now.strings known.now.bricks bytes.now) }
{
    let (depth, rest) = read_word(bytes)?;
    let (args, rest) = read_word(rest)?;
    let (called, rest) = read_called(rest)?;
    let (target, rest) = read_target(alloc, known, called, rest)?;
    Ok((
        Call {
            depth,
            args,
            target,
        },
        rest,
    ))
}

/// What is called.
#[tactic(auto, unfolding(crate::specs::Reading::called_reader))]
fn read_target<'b>(
    alloc: Global,
    known: &Known<'_>,
    called: Called,
    bytes: &'b [u8],
) -> Result<(Target, &'b [u8]), Stop>
    requires { known.now.count ≡ length known.now.records.now }
    ensures { Gives (λ x. (x.0, x.1.now)) result (reads.called_reader known.now.records.now known.now.strings known.now.bricks called bytes.now) }
{
    match called {
        Called::Brick => {
            let (number, rest) = read_below(known.bricks, bytes)?;
            Ok((Target::Brick(number), rest))
        }
        Called::Mode => {
            let (mode, rest) = read_value_mode(alloc, known.count, bytes)?;
            Ok((Target::Mode(mode), rest))
        }
        Called::Error => Ok((Target::Error, bytes)),
    }
}
