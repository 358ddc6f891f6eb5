//! The bricks of an object, written as their bytes.

ghost use Rattle.std.specs.Prelude.{◌≡◌, ◌∷◌, ◌++◌, OnOk};
ghost use Rattle.rt_words.specs.Spelling.{spell_all};
ghost use Rattle.rt_object.specs.Spelling.{brick_spelling, call_spelling, code_spelling, content_sort, content_spelling, counted_spelling, data_spelling, external_sort, external_spelling, holds_spelling, kind_spelling, proc_spelling, relocated_spelling, relocation_spelling, relocations_spelling, supplied_sort, supplied_spelling, target_spelling};
ghost use Rattle.rt_words.specs.Bytes.{word_bytes};

use crate::object::{
    Brick, BrickKind, Call, Content, DataContent, External, ProcContent, Relocated, Relocation,
    Supplied, Target,
};
use crate::write::{put_block, put_count, put_fields};
use rt_modes::spell_mode;
use rt_words::{Memory, Text, put_name, put_word, put_words};
use std::alloc::Global;

/// Bricks behind their number.
pub fn put_bricks(alloc: Global, bricks: &[Brick], out: &mut Text) -> Result<(), Memory>
    ensures { OnOk result (out.new.items ≡ out.old.items ++ counted_spelling brick_spelling bricks.now) }
{
    put_count(bricks.len(), out)?;
    put_each_brick(alloc, bricks, out)
}

fn put_each_brick(alloc: Global, bricks: &[Brick], out: &mut Text) -> Result<(), Memory>
    ensures { OnOk result (out.new.items ≡ out.old.items ++ spell_all brick_spelling bricks.now) }
{
    for brick in bricks {
        put_brick(alloc, brick, out)?;
    }
    Ok(())
}

fn put_brick(alloc: Global, brick: &Brick, out: &mut Text) -> Result<(), Memory>
    ensures { OnOk result (out.new.items ≡ out.old.items ++ brick_spelling brick.now) }
{
    put_kind(&brick.kind, out)?;
    put_name(&brick.name, out)?;
    put_holds(alloc, &brick.kind, out)
}

/// The kind and the sort of a brick.
fn put_kind(kind: &BrickKind, out: &mut Text) -> Result<(), Memory>
    ensures { OnOk result (out.new.items ≡ out.old.items ++ kind_spelling kind.now) }
{
    match kind {
        BrickKind::Own(content) => out.push_all(&[1, sort_of_content(content)]),
        BrickKind::Ent(content) => out.push_all(&[2, sort_of_content(content)]),
        BrickKind::Ext(external) => out.push_all(&[3, sort_of_external(external)]),
        BrickKind::Svc(supplied) => out.push_all(&[4, sort_of_supplied(supplied)]),
    }
}

fn sort_of_content(content: &Content) -> u8
    ensures { result ≡ content_sort content.now }
{
    match content {
        Content::Proc(_) => 1,
        Content::Data(_) => 2,
        Content::Stack(_) => 3,
    }
}

fn sort_of_external(external: &External) -> u8
    ensures { result ≡ external_sort external.now }
{
    match external {
        External::Proc(_) => 1,
        External::Data(_) => 2,
        External::Stack => 3,
    }
}

fn sort_of_supplied(supplied: &Supplied) -> u8
    ensures { result ≡ supplied_sort supplied.now }
{
    match supplied {
        Supplied::Proc(_) => 1,
        Supplied::Data(_) => 2,
    }
}

fn put_holds(alloc: Global, kind: &BrickKind, out: &mut Text) -> Result<(), Memory>
    ensures { OnOk result (out.new.items ≡ out.old.items ++ holds_spelling kind.now) }
{
    match kind {
        BrickKind::Own(content) | BrickKind::Ent(content) => put_content(alloc, content, out),
        BrickKind::Ext(external) => put_external(alloc, external, out),
        BrickKind::Svc(supplied) => put_supplied(alloc, supplied, out),
    }
}

fn put_content(alloc: Global, content: &Content, out: &mut Text) -> Result<(), Memory>
    ensures { OnOk result (out.new.items ≡ out.old.items ++ content_spelling content.now) }
{
    match content {
        Content::Proc(content) => put_proc(alloc, content, out),
        Content::Data(content) => put_data(alloc, content, out),
        Content::Stack(words) => put_word(*words, out),
    }
}

fn put_external(alloc: Global, external: &External, out: &mut Text) -> Result<(), Memory>
    ensures { OnOk result (out.new.items ≡ out.old.items ++ external_spelling external.now) }
{
    match external {
        External::Proc(mode) => spell_mode(alloc, mode, out),
        External::Data(fields) => put_fields(alloc, fields.as_slice(), out),
        External::Stack => Ok(()),
    }
}

fn put_supplied(alloc: Global, supplied: &Supplied, out: &mut Text) -> Result<(), Memory>
    ensures { OnOk result (out.new.items ≡ out.old.items ++ supplied_spelling supplied.now) }
{
    match supplied {
        Supplied::Proc(mode) => spell_mode(alloc, mode, out),
        Supplied::Data(fields) => put_fields(alloc, fields.as_slice(), out),
    }
}

fn put_data(alloc: Global, content: &DataContent, out: &mut Text) -> Result<(), Memory>
    ensures { OnOk result (out.new.items ≡ out.old.items ++ data_spelling content.now) }
{
    put_fields(alloc, content.fields.as_slice(), out)?;
    put_block(content.bytes.as_slice(), out)?;
    put_relocations(content.relocations.as_slice(), out)
}

fn put_proc(alloc: Global, content: &ProcContent, out: &mut Text) -> Result<(), Memory>
    ensures { OnOk result (out.new.items ≡ out.old.items ++ proc_spelling content.now) }
{
    spell_mode(alloc, &content.mode, out)?;
    put_word(content.items, out)?;
    put_word(content.locals, out)?;
    put_word(content.deep, out)?;
    put_calls(alloc, content.calls.as_slice(), out)?;
    put_code(content.words.as_slice(), content.marks.as_slice(), out)?;
    put_relocations(content.relocations.as_slice(), out)
}

/// Words behind their number, and marks.
fn put_code(words: &[u16], marks: &[u8], out: &mut Text) -> Result<(), Memory>
    ensures { OnOk result (out.new.items ≡ out.old.items ++ code_spelling words.now marks.now) }
{
    put_count(words.len(), out)?;
    put_words(words, out)?;
    out.push_all(marks)
}

/// Calls behind their number.
fn put_calls(alloc: Global, calls: &[Call], out: &mut Text) -> Result<(), Memory>
    ensures { OnOk result (out.new.items ≡ out.old.items ++ counted_spelling call_spelling calls.now) }
{
    put_count(calls.len(), out)?;
    put_each_call(alloc, calls, out)
}

fn put_each_call(alloc: Global, calls: &[Call], out: &mut Text) -> Result<(), Memory>
    ensures { OnOk result (out.new.items ≡ out.old.items ++ spell_all call_spelling calls.now) }
{
    for call in calls {
        put_call(alloc, call, out)?;
    }
    Ok(())
}

fn put_call(alloc: Global, call: &Call, out: &mut Text) -> Result<(), Memory>
    ensures { OnOk result (out.new.items ≡ out.old.items ++ call_spelling call.now) }
{
    put_word(call.depth, out)?;
    put_word(call.args, out)?;
    put_target(alloc, &call.target, out)
}

fn put_target(alloc: Global, target: &Target, out: &mut Text) -> Result<(), Memory>
    ensures { OnOk result (out.new.items ≡ out.old.items ++ target_spelling target.now) }
{
    match target {
        Target::Brick(number) => put_numbered(1, *number, out),
        Target::Mode(mode) => {
            out.push(2)?;
            spell_mode(alloc, mode, out)
        }
        Target::Error => out.push(3),
    }
}

/// A byte and a word.
fn put_numbered(kind: u8, number: u16, out: &mut Text) -> Result<(), Memory>
    ensures { OnOk result (out.new.items ≡ out.old.items ++ kind ∷ word_bytes number) }
{
    out.push(kind)?;
    put_word(number, out)
}

/// Relocations behind their number.
fn put_relocations(relocations: &[Relocation], out: &mut Text) -> Result<(), Memory>
    ensures { OnOk result (out.new.items ≡ out.old.items ++ relocations_spelling relocations.now) }
{
    put_count(relocations.len(), out)?;
    put_each_relocation(relocations, out)
}

fn put_each_relocation(relocations: &[Relocation], out: &mut Text) -> Result<(), Memory>
    ensures { OnOk result (out.new.items ≡ out.old.items ++ spell_all relocation_spelling relocations.now) }
{
    for relocation in relocations {
        put_relocation(relocation, out)?;
    }
    Ok(())
}

fn put_relocation(relocation: &Relocation, out: &mut Text) -> Result<(), Memory>
    ensures { OnOk result (out.new.items ≡ out.old.items ++ relocation_spelling relocation.now) }
{
    put_word(relocation.place, out)?;
    put_relocated(relocation.of, out)?;
    put_word(relocation.offset, out)
}

fn put_relocated(of: Relocated, out: &mut Text) -> Result<(), Memory>
    ensures { OnOk result (out.new.items ≡ out.old.items ++ relocated_spelling of) }
{
    match of {
        Relocated::Brick(number) => put_numbered(1, number, out),
        Relocated::String(number) => put_numbered(2, number, out),
        Relocated::Support(number) => put_numbered(3, number, out),
    }
}
