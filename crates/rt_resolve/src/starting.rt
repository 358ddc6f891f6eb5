//! What the data bricks and strings of a module contain at the start.

ghost use Rattle.std.specs.Prelude.{◌≡◌, ◌∷◌, IfOk, map, slice_get};
ghost use Rattle.std.specs.Option.{option_copied};
ghost use Rattle.rt_modes.specs.declared.mode.Mode.{out-Mode};
ghost use Rattle.rt_work_state.specs.Nodes.{length_in};
ghost use Rattle.rt_resolve.specs.Starting as starting;

use rt_modes::{Field, Mode};
use rt_tree::{
    Brick, BrickSort, Contents, DataStart, Datum, Kind, Location, Origin, Proc, Scope, shared_mode,
};
use rt_words::{Bytes, List, Memory};
use std::alloc::Global;

/// A module of a system: what its data may name, the lengths of its strings, its number, and to what each of its bricks is
/// bound.
#[derive(Clone, Copy)]
pub struct Home<'a> {
    pub scope: Scope<'a>,
    pub texts: &'a [u16],
    pub number: u16,
    pub leads: &'a [Proc],
}

// Where the brick of a number leads.
fn lead(home: &Home<'_>, brick: u16) -> Proc
    ensures { result ≡ starting.lead (starting.home home.now) brick }
{
    match home.leads.get(usize::from(brick)) {
        Some(found) => *found,
        None => Proc {
            module: 0,
            brick: 0,
        },
    }
}

fn text_length(home: &Home<'_>, text: u16) -> u16
    ensures { result ≡ length_in (slice_get home.now.texts.now text) }
{
    match home.texts.get(usize::from(text)) {
        Some(length) => *length,
        None => 0,
    }
}

// The row of a string.
fn text_row(alloc: Global, home: &Home<'_>, text: u16) -> Datum
    ensures { result ≡ starting.text_of (starting.home home.now) text }
{
    let origin = Origin::Text(home.number, text);
    let whole = List::from_vec(Vec::new(alloc));
    Datum::Row(Location::Shared(origin, whole), text_length(home, text))
}

// An item, and the fields and elements behind it.
fn with_path(alloc: Global, item: u16, path: &[u16]) -> Result<List<u16>, Memory>
    ensures { IfOk result (λ xs. xs ≡ item ∷ path.now) }
{
    let mut whole = List::new(alloc, 1)?;
    whole.push(item)?;
    for number in path {
        whole.push(*number)?;
    }
    Ok(whole)
}

fn array_length(found: Option<&Mode>) -> u16
    ensures { result ≡ starting.length_found (option_copied found.entry) }
{
    match found {
        None => 0,
        Some(mode) => match mode {
            Mode::Array(length, _) => *length,
            _ => 0,
        },
    }
}

// The REF or REF ARRAY of a place of data.
fn reference(
    alloc: Global,
    home: &Home<'_>,
    brick: u16,
    item: u16,
    path: &[u16],
    mode: &Mode,
) -> Result<Datum, Memory>
    ensures { IfOk result (λ d. d ≡ starting.place_start (starting.home home.now) brick item path.now mode.now) }
{
    let found = lead(home, brick);
    let whole = with_path(alloc, item, path)?;
    let location = Location::Shared(Origin::Brick(found.module, found.brick), whole);
    Ok(match mode {
        Mode::RefArray(_) => Datum::Row(
            location,
            array_length(shared_mode(&home.scope, brick, item, path)),
        ),
        _ => Datum::Reference(location),
    })
}

// What an item, a field or an element of a mode contains.
#[cycle(starts)]
fn contents(
    alloc: Global,
    home: &Home<'_>,
    start: &DataStart,
    mode: &Mode,
) -> Result<Contents, Memory>
    ensures { IfOk result (λ c. c ≡ starting.starts (starting.home home.now) start.now mode.now) }
{
    match start {
        DataStart::Number(n) => Ok(Contents::Datum(Datum::Word(*n))),
        DataStart::Text(s) => Ok(Contents::Datum(text_row(alloc, home, *s))),
        DataStart::Proc(b) => Ok(Contents::Datum(Datum::Procedure(lead(home, *b)))),
        DataStart::Place(b, j, path) => {
            let datum = reference(alloc, home, *b, *j, path.as_slice(), mode)?;
            Ok(Contents::Datum(datum))
        }
        DataStart::List(starts) => match mode {
            Mode::Array(_, of) => {
                let parts = elements(alloc, home, starts.as_slice(), of.get())?;
                Ok(Contents::Parts(parts))
            }
            Mode::Record(r) => {
                let parts = record(alloc, home, starts.as_slice(), *r)?;
                Ok(Contents::Parts(parts))
            }
            _ => Ok(Contents::Parts(List::new(alloc, 0)?)),
        },
    }
}

#[cycle(starts)]
fn elements(
    alloc: Global,
    home: &Home<'_>,
    starts: &[DataStart],
    mode: &Mode,
) -> Result<List<Contents>, Memory>
    ensures { IfOk result (λ cs. cs ≡ starting.elements (map (starting.starts (starting.home home.now)) starts.now) mode.now) }
{
    let mut made = List::new(alloc, starts.len())?;
    for start in starts {
        made.push(contents(alloc, home, start, mode)?)?;
    }
    Ok(made)
}

#[cycle(starts)]
fn record(
    alloc: Global,
    home: &Home<'_>,
    starts: &[DataStart],
    number: u16,
) -> Result<List<Contents>, Memory>
    ensures { IfOk result (λ cs. cs ≡ starting.record_parts (map (starting.starts (starting.home home.now)) starts.now) (slice_get home.now.scope.records.now number)) }
{
    match home.scope.record(number) {
        None => List::new(alloc, 0),
        Some(found) => parts(alloc, home, starts, found.fields.as_slice()),
    }
}

// The fields of a record, or the items of a data brick.
#[cycle(starts)]
fn parts(
    alloc: Global,
    home: &Home<'_>,
    starts: &[DataStart],
    fields: &[Field],
) -> Result<List<Contents>, Memory>
    ensures { IfOk result (λ cs. cs ≡ starting.parts (map (starting.starts (starting.home home.now)) starts.now) fields.now) }
{
    let mut made = List::new(alloc, starts.len())?;
    let mut left = fields;
    for start in starts {
        match left {
            [field, rest @ ..] => {
                made.push(contents(alloc, home, start, &field.mode)?)?;
                left = rest;
            }
            [] => return Ok(made),
        }
    }
    Ok(made)
}

fn sort_contents(alloc: Global, home: &Home<'_>, sort: &BrickSort) -> Result<List<Contents>, Memory>
    ensures { IfOk result (λ cs. cs ≡ starting.sort_contents (starting.home home.now) sort.now) }
{
    match sort {
        BrickSort::Data(fields, starts) => {
            parts(alloc, home, starts.as_slice(), fields.as_slice())
        }
        _ => List::new(alloc, 0),
    }
}

fn brick_contents(alloc: Global, home: &Home<'_>, brick: &Brick) -> Result<Contents, Memory>
    ensures { IfOk result (λ c. c ≡ starting.brick_contents (starting.home home.now) brick.now) }
{
    if matches!(brick.kind, Kind::Own | Kind::Ent) {
        let items = sort_contents(alloc, home, &brick.sort)?;
        Ok(Contents::Parts(items))
    } else {
        Ok(Contents::Parts(List::new(alloc, 0)?))
    }
}

/// What the bricks of a module contain.
pub fn bricks_contents(
    alloc: Global,
    home: &Home<'_>,
    bricks: &[Brick],
) -> Result<List<Contents>, Memory>
    ensures { IfOk result (λ cs. cs ≡ map (starting.brick_contents (starting.home home.now)) bricks.now) }
{
    let mut made = List::new(alloc, bricks.len())?;
    for brick in bricks {
        made.push(brick_contents(alloc, home, brick)?)?;
    }
    Ok(made)
}

fn text_contents(alloc: Global, bytes: &[u8]) -> Result<Contents, Memory>
    ensures { IfOk result (λ c. c ≡ starting.text_contents bytes.now) }
{
    let mut made = List::new(alloc, bytes.len())?;
    for byte in bytes {
        made.push(Contents::Datum(Datum::Word(u16::from(*byte))))?;
    }
    Ok(Contents::Parts(made))
}

/// What the strings of a module contain.
pub fn texts_contents(alloc: Global, strings: &[Bytes]) -> Result<List<Contents>, Memory>
    ensures { IfOk result (λ cs. cs ≡ map starting.text_contents strings.now) }
{
    let mut made = List::new(alloc, strings.len())?;
    for bytes in strings {
        made.push(text_contents(alloc, bytes.as_slice())?)?;
    }
    Ok(made)
}
