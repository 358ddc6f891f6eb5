//! The records of a module, whose fields are found by their names.

ghost use Rattle.std.specs.Prelude.{◌≡◌, ℕ, IfOk, OnOk, option_map, slice_get};
ghost use Rattle.rt_exprs.specs.Indexed as spec;
ghost use Rattle.rt_exprs.specs.Operands.{first_field};

use indexmap::IndexMap;
use rt_modes::{Field, Mode, ModeTable, RecordDef};
use rt_words::{List, Memory};
use std::alloc::Global;
use std::marker::Model;

/// The number of the first field of each name.
type FieldNumbers = IndexMap<Vec<u8>, usize>;

/// The records of a module, each with a map from the names of its fields to their numbers. Contracts see the records alone.
#[derive(Drop)]
pub struct IndexedRecords {
    table: ModeTable,
    numbers: List<FieldNumbers>,
}

impl Model for IndexedRecords {
    ghost use Rattle.std.specs.Coded.{codes};
    ghost use Rattle.rt_modes.specs.declared.mode.ModeTable.{ModeTable};
    ghost use Rattle.rt_modes.specs.contracts.mode.Mode as modes;
    ghost use Rattle.rt_exprs.specs.Indexed.{FindsAllFields};

    ghost Value = { ModeTable };

    ghost coded = { Prim.hlevel (codes, modes.the_row.coded) };

    ghost view = { λ it. it.table };

    ghost invariant = { λ it. FindsAllFields it.table.records it.numbers };
}

impl IndexedRecords {
    /// The records of a table, whose fields can be found by name. It goes over each field once; where there is no memory
    /// the table is dropped.
    pub fn new(alloc: Global, table: ModeTable) -> Result<IndexedRecords, Memory>
        ensures { IfOk result (λ it. it ≡ table) }
    {
        let numbers = all_numbers(alloc, table.records.as_slice())?;
        Ok(IndexedRecords { table, numbers })
    }

    /// The table of the records.
    pub fn table(&self) -> &ModeTable
        ensures { result.now ≡ self.now }
    {
        &self.table
    }

    /// Takes the table out; it takes no memory.
    pub fn into_table(self) -> ModeTable
        ensures { result ≡ self }
    {
        let IndexedRecords { table, .. } = self;
        table
    }
}

/// The number and the mode of a record's field: one look into the record's map.
pub fn field_named<'a>(
    records: &'a IndexedRecords,
    number: u16,
    name: &[u8],
) -> Option<(usize, &'a Mode)>
    ensures { option_map (λ x. (x.0, x.1.now)) result ≡ first_field records.now.records number name.now }
{
    let record = usize::from(number);
    let definition = records.table.records.get(record)?;
    let field = *records.numbers.get(record)?.get(name)?;
    field_at(definition.fields.as_slice(), field)
}

/// The field of a number.
fn field_at(fields: &[Field], number: usize) -> Option<(usize, &Mode)>
    ensures { option_map (λ x. (x.0, x.1.now)) result ≡ option_map {U = ℕ × Mode} (λ f. (number, f.mode)) (slice_get fields.now number) }
{
    let field = fields.get(number)?;
    Some((number, &field.mode))
}

/// The map of each record.
fn all_numbers(alloc: Global, records: &[RecordDef]) -> Result<List<FieldNumbers>, Memory>
    ensures { IfOk result (λ maps. spec.FindsAllFields records.now maps) }
{
    let mut maps = List::new(alloc, records.len())?;
    for definition in records {
        maps.push(field_numbers(alloc, definition.fields.as_slice())?)?;
    }
    Ok(maps)
}

/// The number of the first field of each name.
fn field_numbers(alloc: Global, fields: &[Field]) -> Result<FieldNumbers, Memory>
    ensures { IfOk result (λ numbers. spec.FindsFields fields.now numbers) }
{
    let mut numbers = IndexMap::new(alloc);
    for (number, field) in fields.iter().enumerate() {
        note_first(alloc, &mut numbers, field.name.as_slice(), number)?;
    }
    Ok(numbers)
}

/// Notes a number for a name, unless the name has one.
fn note_first(
    alloc: Global,
    numbers: &mut FieldNumbers,
    name: &[u8],
    number: usize,
) -> Result<(), Memory>
    ensures { OnOk result (spec.NotesFirst numbers.old numbers.new name.now number) }
{
    if numbers.get(name).is_some() {
        return Ok(());
    }
    let key = match Vec::from_slice(alloc, name) {
        Ok(key) => key,
        Err(_) => return Err(Memory),
    };
    match numbers.insert(key, number) {
        Ok(_) => Ok(()),
        Err(_) => Err(Memory),
    }
}
