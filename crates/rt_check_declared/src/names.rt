//! The names that a module declares.

ghost use Rattle.std.specs.Prelude.{◌≡◌, false, None, [], ◌∷◌, ◌++◌, length, OnOk, IfOk, ◌+◌};
ghost use Rattle.rt_check_declared.specs.Names as spec;
ghost use Rattle.rt_check_declared.specs.Naming.{plain, state, add, add_all, none_yet, behind};
ghost use Rattle.rt_check_declared.specs.Verdicts.{with_faults};

use crate::note;
use indexmap::IndexMap;
use rt_bricks::{DataItem, DataLine, Declaration, Fields};
use rt_check_faults::CheckFault;
use rt_grammar::Ident;
use rt_words::Memory;
use std::alloc::Global;

/// What a name declares.
#[derive(Clone, Copy)]
pub enum Declared {
    /// A MODE, by the number of its record.
    Record(u16),
    /// A brick, by its number.
    Brick(u16),
    /// An item of a data brick, by the numbers of brick and item.
    Item(u16, u16),
}

/// The names of a module, in the order of declaration: the first declaration of a name counts.
#[derive(Drop)]
pub struct ModuleNames<'m> {
    pub table: IndexMap<&'m [u8], Declared>,
    /// The fault that counts of all names that are declared once more.
    pub fault: Option<CheckFault>,
}

/// How many records and bricks are declared so far.
#[derive(Clone, Copy)]
struct Numbers {
    records: u16,
    bricks: u16,
}

/// The names that declarations declare.
pub fn declared_names<'m>(
    alloc: Global,
    declarations: &'m [Declaration],
) -> Result<ModuleNames<'m>, Memory>
    ensures names { IfOk result (λ n. plain n.table.entries ≡ spec.scope declarations.now) }
    ensures fault { IfOk result (λ n. n.fault ≡ with_faults None (spec.name_faults declarations.now)) }
{
    let mut names = ModuleNames {
        table: IndexMap::new(alloc),
        fault: None,
    };
    declare_all(&mut names, declarations)?;
    Ok(names)
}

/// The fault that counts of all fields of a record whose names stand there once more.
pub fn second_fields(alloc: Global, fields: &[Fields]) -> Result<Option<CheckFault>, Memory>
    ensures { IfOk result (λ f. f ≡ with_faults None (spec.second_fields fields.now)) }
{
    let mut names = ModuleNames {
        table: IndexMap::new(alloc),
        fault: None,
    };
    add_fields(&mut names, 0, fields)?;
    Ok(names.fault)
}

#[tactic(auto, using(crate::proofs::Adding::adding))]
fn declare_all<'m>(
    names: &mut ModuleNames<'m>,
    declarations: &'m [Declaration],
) -> Result<(), Memory>
    ensures { OnOk result (state names.new ≡ add_all (state names.old) (spec.names declarations.now)) }
{
    let mut numbers = Numbers {
        records: 0,
        bricks: 0,
    };
    for declaration in declarations {
        numbers = declare(names, numbers, declaration)?;
    }
    Ok(())
}

/// The names of a declaration, before which so many records and bricks are declared.
#[tactic(auto, using(crate::proofs::Adding::adding))]
fn declare<'m>(
    names: &mut ModuleNames<'m>,
    numbers: Numbers,
    declaration: &'m Declaration,
) -> Result<Numbers, Memory>
    ensures names { OnOk result (state names.new ≡ add_all (state names.old) (spec.names_in numbers.records numbers.bricks declaration.now)) }
    ensures numbers { IfOk result (λ n. n ≡ behind numbers declaration.now) }
{
    let Numbers { records, bricks } = numbers;
    match declaration {
        Declaration::Record(record) => {
            add_name(names, &record.name, Declared::Record(records))?;
            Ok(Numbers {
                records: after(records)?,
                bricks,
            })
        }
        Declaration::Data(data) => {
            add_name(names, &data.name, Declared::Brick(bricks))?;
            add_lines(names, bricks, data.lines.as_slice())?;
            one_brick(numbers)
        }
        Declaration::Stack(stack) => {
            add_name(names, &stack.name, Declared::Brick(bricks))?;
            one_brick(numbers)
        }
        Declaration::Procedure(procedure) => {
            add_name(names, &procedure.name, Declared::Brick(bricks))?;
            one_brick(numbers)
        }
        Declaration::ImportedProcedures(procedures) => {
            let bricks = add_bricks(names, bricks, procedures.names.as_slice())?;
            Ok(Numbers { records, bricks })
        }
        Declaration::ImportedData(data) => {
            add_name(names, &data.name, Declared::Brick(bricks))?;
            add_fields(names, bricks, data.lines.as_slice())?;
            one_brick(numbers)
        }
        Declaration::ImportedStacks(stacks) => {
            let bricks = add_bricks(names, bricks, stacks.names.as_slice())?;
            Ok(Numbers { records, bricks })
        }
    }
}

fn one_brick(numbers: Numbers) -> Result<Numbers, Memory>
    ensures { IfOk result (λ n. n ≡ record { records = numbers.records; bricks = numbers.bricks + 1 }) }
{
    Ok(Numbers {
        records: numbers.records,
        bricks: after(numbers.bricks)?,
    })
}

/// The number after another. No module that items derive has so many numbers that there is none; the answer is want of
/// memory then.
fn after(number: u16) -> Result<u16, Memory>
    ensures { IfOk result (λ n. n ≡ number + 1) }
{
    if number == u16::MAX {
        return Err(Memory);
    }
    Ok(number + 1)
}

/// Adds a name, if it isn't there.
fn add_name<'m>(names: &mut ModuleNames<'m>, name: &'m Ident, is: Declared) -> Result<(), Memory>
    ensures { OnOk result (state names.new ≡ add (state names.old) (spec.named name.now is)) }
{
    let bytes = name.name.as_slice();
    if has_name(&names.table, bytes) {
        note(&mut names.fault, CheckFault::DeclaredTwice(name.at));
        return Ok(());
    }
    insert_new(&mut names.table, bytes, is)
}

fn has_name(table: &IndexMap<&[u8], Declared>, name: &[u8]) -> bool
    ensures { result ≡ spec.is_there (spec.find (plain table.now.entries) name.now) }
{
    table.get(name).is_some()
}

/// Adds a name that isn't there.
fn insert_new<'m>(
    table: &mut IndexMap<&'m [u8], Declared>,
    name: &'m [u8],
    is: Declared,
) -> Result<(), Memory>
    requires { spec.is_there (spec.find (plain table.now.entries) name.now) ≡ false }
    ensures { OnOk result (plain table.new.entries ≡ plain table.old.entries ++ (name.now, is) ∷ []) }
{
    match table.insert(name, is) {
        Ok(_) => Ok(()),
        Err(_) => Err(Memory),
    }
}

/// Adds bricks from a number on, and gives the number behind them.
#[tactic(auto, using(crate::proofs::Adding::adding))]
fn add_bricks<'m>(
    names: &mut ModuleNames<'m>,
    first: u16,
    bricks: &'m [Ident],
) -> Result<u16, Memory>
    ensures names { OnOk result (state names.new ≡ add_all (state names.old) (spec.bricks_of first bricks.now)) }
    ensures number { IfOk result (λ n. n ≡ first + length bricks.now) }
{
    let mut number = first;
    for brick in bricks {
        add_name(names, brick, Declared::Brick(number))?;
        number = after(number)?;
    }
    Ok(number)
}

/// Adds items of a brick from a number on, and gives the number behind them.
#[tactic(auto, using(crate::proofs::Adding::adding))]
fn add_items<'m>(
    names: &mut ModuleNames<'m>,
    brick: u16,
    first: u16,
    items: &'m [Ident],
) -> Result<u16, Memory>
    ensures names { OnOk result (state names.new ≡ add_all (state names.old) (spec.items_of brick first items.now)) }
    ensures number { IfOk result (λ n. n ≡ first + length items.now) }
{
    let mut number = first;
    for item in items {
        add_name(names, item, Declared::Item(brick, number))?;
        number = after(number)?;
    }
    Ok(number)
}

/// Adds the items of an imported data brick.
#[tactic(auto, using(crate::proofs::Adding::adding))]
fn add_fields<'m>(
    names: &mut ModuleNames<'m>,
    brick: u16,
    lines: &'m [Fields],
) -> Result<(), Memory>
    ensures { OnOk result (state names.new ≡ add_all (state names.old) (spec.fields_names brick 0 lines.now)) }
{
    let mut number = 0;
    for line in lines {
        number = add_items(names, brick, number, line.names.as_slice())?;
    }
    Ok(())
}

/// Adds items with starts, and gives the number behind them.
#[tactic(auto, using(crate::proofs::Adding::adding))]
fn add_data_items<'m>(
    names: &mut ModuleNames<'m>,
    brick: u16,
    first: u16,
    items: &'m [DataItem],
) -> Result<u16, Memory>
    ensures names { OnOk result (state names.new ≡ add_all (state names.old) (spec.items_of brick first (spec.idents items.now))) }
    ensures number { IfOk result (λ n. n ≡ first + length items.now) }
{
    let mut number = first;
    for item in items {
        add_name(names, &item.name, Declared::Item(brick, number))?;
        number = after(number)?;
    }
    Ok(number)
}

/// Adds the items of a data brick of the module.
#[tactic(auto, using(crate::proofs::Adding::adding))]
fn add_lines<'m>(
    names: &mut ModuleNames<'m>,
    brick: u16,
    lines: &'m [DataLine],
) -> Result<(), Memory>
    ensures { OnOk result (state names.new ≡ add_all (state names.old) (spec.lines_names brick 0 lines.now)) }
{
    let mut number = 0;
    for line in lines {
        number = add_data_items(names, brick, number, line.items.as_slice())?;
    }
    Ok(())
}
