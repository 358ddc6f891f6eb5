//! What the data bricks and strings of a system contain, and what is read and written there.

ghost use Rattle.std.specs.Prelude.{◌≡◌, ◌<◌, IfOk, Some, length, slice_get, slice_set};
ghost use Rattle.std.specs.Option.{option_copied};
ghost use Rattle.rt_tree.specs.Stored as stored;
ghost use Rattle.rt_work_state.specs.Stores as stores;

use crate::copies::copy_datum;
use rt_tree::{Contents, Datum, Location, Origin};
use rt_words::{List, Memory};
use std::alloc::Global;
use std::mem::replace;

/// What the bricks of a module contain, by their numbers, and its strings.
#[derive(Drop)]
pub struct ModuleStore {
    /// A brick that isn't a data brick of its own has no parts.
    pub bricks: List<Contents>,
    pub texts: List<Contents>,
}

// ---- reading

fn module_in(store: &List<ModuleStore>, number: u16) -> Option<&ModuleStore>
    ensures { option_copied result ≡ stores.numbered store.now number }
{
    if number == 0 {
        None
    } else {
        store.get(usize::from(number) - 1)
    }
}

fn origin_in(store: &List<ModuleStore>, origin: Origin) -> Option<&Contents>
    ensures { option_copied result ≡ stores.origin_in store.now origin }
{
    match origin {
        Origin::Brick(module, brick) => match module_in(store, module) {
            Some(found) => found.bricks.get(usize::from(brick)),
            None => None,
        },
        Origin::Text(module, text) => match module_in(store, module) {
            Some(found) => found.texts.get(usize::from(text)),
            None => None,
        },
    }
}

fn part(contents: &Contents, number: u16) -> Option<&Contents>
    ensures { option_copied result ≡ stored.part contents.now number }
{
    match contents {
        Contents::Parts(parts) => parts.get(usize::from(number)),
        Contents::Datum(_) => None,
    }
}

fn datum_at(alloc: Global, contents: &Contents) -> Result<Datum, Memory>
    ensures { IfOk result (λ d. d ≡ stores.datum_of (Some contents.now)) }
{
    match contents {
        Contents::Datum(datum) => copy_datum(alloc, datum),
        Contents::Parts(_) => Ok(Datum::Word(0)),
    }
}

fn read_inside(alloc: Global, contents: &Contents, path: &[u16]) -> Result<Datum, Memory>
    ensures { IfOk result (λ d. d ≡ stores.datum_of (stored.inside (Some contents.now) path.now)) }
{
    match path {
        [] => datum_at(alloc, contents),
        [number, rest @ ..] => match part(contents, *number) {
            Some(found) => read_inside(alloc, found, rest),
            None => Ok(Datum::Word(0)),
        },
    }
}

/// What is read of an item of a task's own supplied data.
pub fn read_own(alloc: Global, own: &List<Datum>, item: u8) -> Result<Datum, Memory>
    ensures { IfOk result (λ d. d ≡ stores.datum_in (slice_get own.now item)) }
{
    match own.get(usize::from(item)) {
        Some(datum) => copy_datum(alloc, datum),
        None => Ok(Datum::Word(0)),
    }
}

/// What is read at a location; 0 where it leads nowhere.
pub fn read(
    alloc: Global,
    store: &List<ModuleStore>,
    own: &List<Datum>,
    location: &Location,
) -> Result<Datum, Memory>
    ensures { IfOk result (λ d. d ≡ stores.read store.now own.now location.now) }
{
    match location {
        Location::Shared(origin, path) => match origin_in(store, *origin) {
            Some(contents) => read_inside(alloc, contents, path.as_slice()),
            None => Ok(Datum::Word(0)),
        },
        Location::Own(item) => read_own(alloc, own, *item),
    }
}

// ---- writing

#[cycle(written)]
fn written(contents: Contents, path: &[u16], datum: Datum) -> Contents
    ensures { result ≡ stored.written path.now datum contents }
{
    match path {
        [] => match contents {
            Contents::Datum(_) => Contents::Datum(datum),
            Contents::Parts(parts) => Contents::Parts(parts),
        },
        [number, rest @ ..] => match contents {
            Contents::Datum(old) => Contents::Datum(old),
            Contents::Parts(parts) => Contents::Parts(part_written(parts, *number, rest, datum)),
        },
    }
}

#[cycle(written)]
fn part_written(parts: List<Contents>, number: u16, path: &[u16], datum: Datum) -> List<Contents>
    ensures { result ≡ stored.changed parts number (λ c. stored.written path.now datum c) }
{
    let at = usize::from(number);
    if at >= parts.len() {
        return parts;
    }
    let (old, mut rest) = taken_out(parts, at, Contents::Datum(Datum::Word(0)));
    let new = written(old, path, datum);
    rest.set(at, new);
    rest
}

// An element of a list, and the list with another in its place.
fn taken_out<T: Drop>(list: List<T>, at: usize, instead: T) -> (T, List<T>)
    requires { at < length list }
    ensures taken { Some result.0 ≡ slice_get list at }
    ensures left { result.1 ≡ slice_set list at instead }
{
    let mut items = list.into_vec();
    let taken = replace(&mut items[at], instead);
    (taken, List::from_vec(items))
}

fn module_written(before: ModuleStore, origin: Origin, path: &[u16], datum: Datum) -> ModuleStore
    ensures { result ≡ stores.module_written origin path.now datum before }
{
    let ModuleStore { bricks, texts } = before;
    match origin {
        Origin::Brick(_, brick) => ModuleStore {
            bricks: part_written(bricks, brick, path, datum),
            texts,
        },
        Origin::Text(_, text) => ModuleStore {
            bricks,
            texts: part_written(texts, text, path, datum),
        },
    }
}

fn module_of(origin: Origin) -> u16
    ensures { result ≡ stores.module_of origin }
{
    match origin {
        Origin::Brick(module, _) | Origin::Text(module, _) => module,
    }
}

fn shared_written(
    alloc: Global,
    store: List<ModuleStore>,
    origin: Origin,
    path: &[u16],
    datum: Datum,
) -> List<ModuleStore>
    ensures { result ≡ stores.changed_number store (stores.module_of origin) (λ m. stores.module_written origin path.now datum m) }
{
    let number = usize::from(module_of(origin));
    if number == 0 || number > store.len() {
        return store;
    }
    let nothing = ModuleStore {
        bricks: List::from_vec(Vec::new(alloc)),
        texts: List::from_vec(Vec::new(alloc)),
    };
    let (old, mut rest) = taken_out(store, number - 1, nothing);
    let new = module_written(old, origin, path, datum);
    rest.set(number - 1, new);
    rest
}

/// The store after a write; it takes no memory.
pub fn write(
    alloc: Global,
    store: List<ModuleStore>,
    location: &Location,
    datum: Datum,
) -> List<ModuleStore>
    ensures { result ≡ stores.write store location.now datum }
{
    match location {
        Location::Shared(origin, path) => {
            shared_written(alloc, store, *origin, path.as_slice(), datum)
        }
        Location::Own(_) => store,
    }
}

/// Writes an item of a task's own supplied data.
pub fn write_own(own: &mut List<Datum>, item: u8, datum: Datum)
    ensures { own.new ≡ slice_set own.old item datum }
{
    if usize::from(item) < own.len() {
        own.set(usize::from(item), datum);
    }
}
