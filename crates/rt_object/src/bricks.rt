//! The bricks of an object.

ghost use Rattle.std.specs.Prelude.{◌≡◌, [], ◌∷◌, ◌++◌, length, IfOk};
ghost use Rattle.rt_words.specs.Reading as formats;
ghost use Rattle.rt_words.specs.Reading.{Gives};
ghost use Rattle.rt_object.specs.Grammar.{is_rrerr};
ghost use Rattle.rt_object.specs.Known.{Knows};
ghost use Rattle.rt_object.specs.Ranges.{brick_names, table_of};
ghost use Rattle.rt_object.specs.Reading as reads;
ghost use Rattle.rt_object.specs.declared.object.Content.TheVariants as content;
ghost use Rattle.rt_object.specs.declared.object.DataContent.{DataContent};
ghost use Rattle.rt_object.specs.declared.object.ProcContent.{ProcContent};
ghost use Rattle.rt_sizes.specs.Capped.{AreSizes};

use crate::data::{read_data, read_data_fields};
use crate::known::Known;
use crate::modes::read_proc_mode;
use crate::names::{Names, read_new_name};
use crate::object::{Brick, BrickKind, Content, DataContent, External, ProcContent, Supplied};
use crate::procs::read_proc;
use crate::tag::{Kind, Sort, read_kind, read_sort};
use rt_words::{List, Name, Stop, read_word_within};
use std::alloc::Global;
use std::collections::BTreeSet;

/// So many bricks.
#[tactic(auto, unfolding(rt_words::specs::Reading::each))]
pub fn read_each_brick<'b>(
    alloc: Global,
    known: &Known<'_>,
    bytes: &'b [u8],
) -> Result<(List<Brick>, &'b [u8]), Stop>
    requires count { known.now.count ≡ length known.now.records.now }
    requires sizes { AreSizes (table_of known.now.records.now) known.now.sizes.now }
    ensures { Gives (λ x. (x.0, x.1.now)) result (formats.each (reads.brick_reader known.now.records.now known.now.strings known.now.bricks) known.now.bricks [] bytes.now) }
{
    let mut found = List::new(alloc, 0)?;
    let mut names = BTreeSet::new(alloc);
    let mut rest = bytes;
    for _turn in 0..known.bricks {
        let (brick, after) = read_brick(alloc, known, &mut names, found.as_slice(), rest)?;
        found.push(brick)?;
        rest = after;
    }
    Ok((found, rest))
}

/// A brick behind others, whose names are known.
#[tactic(auto, unfolding(crate::specs::Reading::brick_reader))]
fn read_brick<'b>(
    alloc: Global,
    known: &Known<'_>,
    names: &mut Names,
    _before: &[Brick],
    bytes: &'b [u8],
) -> Result<(Brick, &'b [u8]), Stop>
    requires count { known.now.count ≡ length known.now.records.now }
    requires sizes { AreSizes (table_of known.now.records.now) known.now.sizes.now }
    requires names { Knows names.old (brick_names _before.now) }
    ensures brick { Gives (λ x. (x.0, x.1.now)) result (reads.brick_reader known.now.records.now known.now.strings known.now.bricks _before.now bytes.now) }
    ensures known { IfOk result (λ x. Knows names.new (brick_names _before.now ++ x.0.name ∷ [])) }
{
    let (kind, rest) = read_kind(bytes)?;
    let (sort, rest) = read_sort(kind, rest)?;
    let (name, rest) = read_new_name(alloc, names, rest)?;
    let (kind, rest) = read_holds(alloc, known, kind, sort, &name, rest)?;
    Ok((Brick { name, kind }, rest))
}

/// What a brick of some kind and sort holds.
#[tactic(auto, unfolding(crate::specs::Reading::kind_reader))]
fn read_holds<'b>(
    alloc: Global,
    known: &Known<'_>,
    kind: Kind,
    sort: Sort,
    name: &Name,
    bytes: &'b [u8],
) -> Result<(BrickKind, &'b [u8]), Stop>
    requires count { known.now.count ≡ length known.now.records.now }
    requires sizes { AreSizes (table_of known.now.records.now) known.now.sizes.now }
    ensures { Gives (λ x. (x.0, x.1.now)) result (reads.kind_reader known.now.records.now known.now.strings known.now.bricks kind sort name.now bytes.now) }
{
    match kind {
        Kind::Own => {
            let (content, rest) = read_content(alloc, known, sort, bytes)?;
            Ok((BrickKind::Own(content), rest))
        }
        Kind::Ent => {
            let (content, rest) = read_content(alloc, known, sort, bytes)?;
            Ok((BrickKind::Ent(content), rest))
        }
        Kind::Ext => {
            let (external, rest) = read_external(alloc, known, sort, bytes)?;
            Ok((BrickKind::Ext(external), rest))
        }
        Kind::Svc => {
            let (supplied, rest) = read_supplied(alloc, known, sort, name, bytes)?;
            Ok((BrickKind::Svc(supplied), rest))
        }
    }
}

/// What a brick of this module holds.
#[tactic(auto, unfolding(crate::specs::Reading::content_reader))]
fn read_content<'b>(
    alloc: Global,
    known: &Known<'_>,
    sort: Sort,
    bytes: &'b [u8],
) -> Result<(Content, &'b [u8]), Stop>
    requires count { known.now.count ≡ length known.now.records.now }
    requires sizes { AreSizes (table_of known.now.records.now) known.now.sizes.now }
    ensures { Gives (λ x. (x.0, x.1.now)) result (reads.content_reader known.now.records.now known.now.strings known.now.bricks sort bytes.now) }
{
    match sort {
        Sort::Proc => proc_content(read_proc(alloc, known, bytes)),
        Sort::Data => data_content(read_data(alloc, known, bytes)),
        Sort::Stack => {
            let (words, rest) = read_word_within(1, 28672, bytes)?;
            Ok((Content::Stack(words), rest))
        }
    }
}

/// What holds a procedure, where one was read.
fn proc_content(found: Result<(ProcContent, &[u8]), Stop>) -> Result<(Content, &[u8]), Stop>
    ensures { (read : formats.Outcome ProcContent) → Gives (λ x. (x.0, x.1.now)) found.entry read → Gives (λ x. (x.0, x.1.now)) result (formats.and_then read (λ p. formats.nothing (content.Proc p))) }
{
    let (content, rest) = found?;
    Ok((Content::Proc(content), rest))
}

/// What holds data, where they were read.
fn data_content(found: Result<(DataContent, &[u8]), Stop>) -> Result<(Content, &[u8]), Stop>
    ensures { (read : formats.Outcome DataContent) → Gives (λ x. (x.0, x.1.now)) found.entry read → Gives (λ x. (x.0, x.1.now)) result (formats.and_then read (λ d. formats.nothing (content.Data d))) }
{
    let (content, rest) = found?;
    Ok((Content::Data(content), rest))
}

/// What is known of a brick of another module.
#[tactic(auto, unfolding(crate::specs::Reading::external_reader))]
fn read_external<'b>(
    alloc: Global,
    known: &Known<'_>,
    sort: Sort,
    bytes: &'b [u8],
) -> Result<(External, &'b [u8]), Stop>
    requires count { known.now.count ≡ length known.now.records.now }
    requires sizes { AreSizes (table_of known.now.records.now) known.now.sizes.now }
    ensures { Gives (λ x. (x.0, x.1.now)) result (reads.external_reader known.now.records.now known.now.strings known.now.bricks sort bytes.now) }
{
    match sort {
        Sort::Proc => {
            let (mode, rest) = read_proc_mode(alloc, known.count, bytes)?;
            Ok((External::Proc(mode), rest))
        }
        Sort::Data => {
            let (fields, rest) = read_data_fields(alloc, known, false, bytes)?;
            Ok((External::Data(fields), rest))
        }
        Sort::Stack => Ok((External::Stack, bytes)),
    }
}

/// What is known of a brick of the supervisor. A label stands in the data brick RRERR alone.
#[tactic(auto, unfolding(crate::specs::Reading::supplied_reader))]
fn read_supplied<'b>(
    alloc: Global,
    known: &Known<'_>,
    sort: Sort,
    name: &Name,
    bytes: &'b [u8],
) -> Result<(Supplied, &'b [u8]), Stop>
    requires count { known.now.count ≡ length known.now.records.now }
    requires sizes { AreSizes (table_of known.now.records.now) known.now.sizes.now }
    ensures { Gives (λ x. (x.0, x.1.now)) result (reads.supplied_reader known.now.records.now known.now.strings known.now.bricks name.now sort bytes.now) }
{
    match sort {
        Sort::Proc => {
            let (mode, rest) = read_proc_mode(alloc, known.count, bytes)?;
            Ok((Supplied::Proc(mode), rest))
        }
        Sort::Data | Sort::Stack => {
            let (fields, rest) = read_data_fields(alloc, known, is_rrerr(name), bytes)?;
            Ok((Supplied::Data(fields), rest))
        }
    }
}

/// Whether a name is RRERR, that of the data brick where labels stand.
pub fn is_rrerr(name: &Name) -> bool
    ensures { result ≡ is_rrerr name.now }
{
    name.as_slice() == b"RRERR".as_slice()
}
