//! The names of a module and what they stand for.

ghost use Rattle.std.specs.Prelude.{◌≡◌, [], IfOk, OnOk, option_map, slice_get};
ghost use Rattle.rt_check_declared.specs.Naming.{plain, plain_entry};
ghost use Rattle.rt_check_module.specs.Levels as spec;
ghost use Rattle.rt_modes.specs.declared.mode.Mode.{out-Mode};
ghost use Rattle.std.specs.Option.{option_copied};

use crate::supplied::{Own, is_service, own_bricks};
use rt_check_declared::{Declared, Given, Heading, ModuleNames, Part, Sort};
use rt_exprs::{Level, Meaning};
use rt_modes::Mode;
use rt_tree_nodes::{Kind, copy_mode};
use rt_words::Memory;
use std::alloc::Global;

/// The names of a module's MODEs, and what they stand for, whether fit or not.
pub fn mode_level<'m>(alloc: Global, names: &ModuleNames<'m>) -> Result<Level<'m>, Memory>
    ensures { IfOk result (λ level. level ≡ spec.mode_names (plain names.now.table.entries)) }
{
    let mut level = Level::new(alloc);
    for number in 0..names.table.len() {
        add_mode_at(names, number, &mut level)?;
    }
    Ok(level)
}

/// A name of a module by its number, and what it declares.
fn name_at<'m>(names: &ModuleNames<'m>, number: usize) -> Option<(&'m [u8], Declared)>
    ensures { option_map plain_entry result ≡ slice_get (plain names.now.table.entries) number }
{
    match names.table.get_index(number) {
        Some((name, declared)) => Some((*name, *declared)),
        None => None,
    }
}

/// Adds the name of a number, where it is that of a MODE.
fn add_mode_at<'m>(
    names: &ModuleNames<'m>,
    number: usize,
    level: &mut Level<'m>,
) -> Result<(), Memory>
    ensures { OnOk result (level.new ≡ spec.if_any spec.with_mode level.old (slice_get (plain names.now.table.entries) number)) }
{
    match name_at(names, number) {
        Some((name, declared)) => add_mode(name, declared, level),
        None => Ok(()),
    }
}

/// Adds a name, where it is that of a MODE.
fn add_mode<'m>(name: &'m [u8], declared: Declared, level: &mut Level<'m>) -> Result<(), Memory>
    ensures { OnOk result (level.new ≡ spec.with_mode level.old (name.now, declared)) }
{
    if let Declared::Record(record) = declared {
        level.declare(name, Meaning::Mode(record))?;
    }
    Ok(())
}

/// All names of a module, and what they stand for, where its bricks are declared so.
pub fn module_level<'m>(
    alloc: Global,
    names: &ModuleNames<'m>,
    bricks: &[Heading],
) -> Result<Level<'m>, Memory>
    ensures { IfOk result (λ level. level ≡ spec.module_names bricks.now (plain names.now.table.entries)) }
{
    let owns = own_bricks(alloc, bricks)?;
    let module = Seen {
        owns: owns.as_slice(),
        bricks,
    };
    let mut level = Level::new(alloc);
    for number in 0..names.table.len() {
        module.add_name_at(alloc, names, number, &mut level)?;
    }
    Ok(level)
}

/// The bricks of a module, and of each which of the task's own data it has.
#[derive(Clone, Copy)]
struct Seen<'s> {
    owns: &'s [Option<Own>],
    bricks: &'s [Heading],
}

impl<'s> Seen<'s> {
    /// Adds the name of a number.
    fn add_name_at<'m>(
        &self,
        alloc: Global,
        names: &ModuleNames<'m>,
        number: usize,
        level: &mut Level<'m>,
    ) -> Result<(), Memory>
        ensures { OnOk result (level.new ≡ spec.if_any (spec.with_one self.now.owns.now self.now.bricks.now) level.old (slice_get (plain names.now.table.entries) number)) }
    {
        match name_at(names, number) {
            Some((name, declared)) => self.add_name(alloc, name, declared, level),
            None => Ok(()),
        }
    }

    /// Adds a name.
    fn add_name<'m>(
        &self,
        alloc: Global,
        name: &'m [u8],
        declared: Declared,
        level: &mut Level<'m>,
    ) -> Result<(), Memory>
        ensures { OnOk result (level.new ≡ spec.with_one self.now.owns.now self.now.bricks.now level.old (name.now, declared)) }
    {
        let meaning = self.meaning(alloc, declared)?;
        level.declare(name, meaning)?;
        Ok(())
    }

    /// What a name stands for.
    fn meaning(&self, alloc: Global, declared: Declared) -> Result<Meaning, Memory>
        ensures { IfOk result (λ m. m ≡ spec.means self.now.owns.now self.now.bricks.now declared) }
    {
        match declared {
            Declared::Record(record) => Ok(Meaning::Mode(record)),
            Declared::Brick(brick) => match self.bricks.get(usize::from(brick)) {
                Some(heading) => brick_by(alloc, brick, &heading.sort),
                None => Ok(Meaning::Stack(brick)),
            },
            Declared::Item(brick, item) => match self.bricks.get(usize::from(brick)) {
                Some(heading) => self.item_of(alloc, brick, item, heading),
                None => Ok(Meaning::Data(brick)),
            },
        }
    }

    /// An item of a brick.
    fn item_of(
        &self,
        alloc: Global,
        brick: u16,
        item: u16,
        heading: &Heading,
    ) -> Result<Meaning, Memory>
        ensures { IfOk result (λ m. m ≡ spec.item_by heading.now.kind (slice_get self.now.owns.now brick) brick item (spec.part_in heading.now.sort item)) }
    {
        match part_in(&heading.sort, item) {
            Some(part) => self.given_as(alloc, heading.kind, brick, item, &part.has),
            None => Ok(Meaning::Data(brick)),
        }
    }

    /// An item that is declared with this.
    fn given_as(
        &self,
        alloc: Global,
        kind: Kind,
        brick: u16,
        item: u16,
        given: &Given,
    ) -> Result<Meaning, Memory>
        ensures { IfOk result (λ m. m ≡ spec.given_as kind (slice_get self.now.owns.now brick) brick item given.now) }
    {
        match given {
            Given::Unknown => Ok(Meaning::Unknown),
            Given::Mode(mode) => {
                let mode = copy_mode(alloc, mode)?;
                Ok(self.item_with(kind, brick, item, mode))
            }
        }
    }

    /// An item of this mode.
    fn item_with(&self, kind: Kind, brick: u16, item: u16, mode: Mode) -> Meaning
        ensures { result ≡ spec.item_with kind (slice_get self.now.owns.now brick) brick item mode }
    {
        match self.owns.get(usize::from(brick)) {
            Some(Some(own)) => Meaning::Svc(own.item(item), mode),
            _ => {
                if is_service(kind) {
                    other_item(brick, item, mode)
                } else {
                    Meaning::Item(brick, item, mode)
                }
            }
        }
    }
}

/// An item of SVC data that isn't as supplied. LABEL is the mode of ERL alone, which is the task's own.
fn other_item(brick: u16, item: u16, mode: Mode) -> Meaning
    ensures { result ≡ spec.other_item brick item mode (out-Mode mode) }
{
    match &mode {
        Mode::Label => Meaning::Svc(0, mode),
        _ => Meaning::SvcItem(brick, item, mode),
    }
}

/// What the name of a brick stands for.
fn brick_by(alloc: Global, brick: u16, sort: &Sort) -> Result<Meaning, Memory>
    ensures { IfOk result (λ m. m ≡ spec.brick_by brick sort.now) }
{
    match sort {
        Sort::Procedure(given) => match given {
            Given::Mode(mode) => Ok(Meaning::Proc(brick, copy_mode(alloc, mode)?)),
            Given::Unknown => Ok(Meaning::UnknownProc),
        },
        Sort::Items(_) => Ok(Meaning::Data(brick)),
        Sort::Stack(_) => Ok(Meaning::Stack(brick)),
    }
}

fn part_in(sort: &Sort, item: u16) -> Option<&Part>
    ensures { option_copied result ≡ spec.part_in sort.now item }
{
    match sort {
        Sort::Items(parts) => parts.get(usize::from(item)),
        _ => None,
    }
}
