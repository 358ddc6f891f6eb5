//! Where the items of data bricks and the fields of records begin, and how many bytes records have.

ghost use Rattle.std.specs.Prelude.{◌≡◌, ◌+◌, ℕ, true, length, replicate, IfOk, slice_get};
ghost use Rattle.std.specs.Option.{option_copied};
ghost use Rattle.rt_sizes.specs.Capped.{AreSizes};
ghost use Rattle.rt_modes.specs.declared.mode.Mode.{out-Mode};
ghost use Rattle.rt_sizes.specs.Sizes.{Table, End, begins};
ghost use Rattle.rt_lower.specs.Layouts.{table_of};
ghost use Rattle.rt_lower.specs.Layouts as layouts;

use rt_modes::{Field, Mode, RecordDef};
use rt_sizes::{Size, data_size, record_sizes};
use rt_tree::{Brick, BrickSort, ModuleParts};
use rt_words::{List, Memory};
use std::alloc::Global;

/// Where data lie, in bytes.
#[derive(Drop)]
pub struct Layouts {
    /// Where each item of each brick begins in it; a brick that has no items has none.
    pub items: List<List<u16>>,
    /// Where each field of each record begins in it.
    pub fields: List<List<u16>>,
    /// How many bytes each record has.
    pub sizes: List<u16>,
}

fn entry(rows: &[List<u16>], j: u16, k: u16) -> u16
    ensures { result ≡ layouts.entry rows.now j k }
{
    match rows.get(usize::from(j)) {
        Some(row) => number(row.as_slice(), k),
        None => 0,
    }
}

fn number(numbers: &[u16], k: u16) -> u16
    ensures { result ≡ layouts.number (slice_get numbers.now k) }
{
    match numbers.get(usize::from(k)) {
        Some(n) => *n,
        None => 0,
    }
}

impl Layouts {
    /// Where item `i` of brick `b` begins.
    pub fn item(&self, b: u16, i: u16) -> u16
        ensures { result ≡ layouts.item_offset self.now b i }
    {
        entry(self.items.as_slice(), b, i)
    }

    /// Where field `k` of record `r` begins.
    pub fn field(&self, r: u16, k: u16) -> u16
        ensures { result ≡ layouts.field_offset self.now r k }
    {
        entry(self.fields.as_slice(), r, k)
    }

    /// How many bytes a value of a mode has. Of an array, which no element is, this isn't told.
    pub fn bytes(&self, mode: &Mode) -> Result<u16, Memory>
        ensures { IfOk result (λ n. n ≡ layouts.bytes self.now mode.now) }
    {
        match mode {
            Mode::Byte => Ok(1),
            Mode::Array(_, _) => Err(Memory),
            Mode::Record(r) => Ok(number(self.sizes.as_slice(), *r)),
            _ => Ok(2),
        }
    }

    /// How the data of a module lie.
    ///
    /// # Errors
    ///
    /// Want of memory; also where a record has no size, or something begins behind more than 57,344 bytes.
    pub fn of(alloc: Global, parts: &ModuleParts) -> Result<Layouts, Memory>
        ensures { IfOk result (λ l. layouts.AreLayouts parts.now l) }
    {
        let records = parts.modes.records.as_slice();
        let known = all_known(alloc, records.len())?;
        let sizes = record_sizes(alloc, records, known.as_slice())?;
        made(alloc, records, parts.bricks.as_slice(), sizes.as_slice())
    }
}

fn all_known(alloc: Global, count: usize) -> Result<Vec<bool>, Memory>
    ensures { IfOk result (λ known. known.items ≡ replicate count true) }
{
    Ok(vec![in alloc; true; count]?)
}

fn made(
    alloc: Global,
    records: &[RecordDef],
    bricks: &[Brick],
    sizes: &[Option<Size>],
) -> Result<Layouts, Memory>
    requires { AreSizes (table_of records.now) sizes.now }
    ensures items { IfOk result (λ l. layouts.AreRows bricks.now l.items (layouts.ItemsBegin (table_of records.now))) }
    ensures fields { IfOk result (λ l. layouts.AreRows records.now l.fields (layouts.FieldsBegin (table_of records.now))) }
    ensures sizes { IfOk result (λ l. layouts.AreRecordSizes records.now l.sizes) }
{
    let items = items(alloc, sizes, bricks)?;
    let fields = fields(alloc, sizes, records)?;
    Ok(Layouts {
        items,
        fields,
        sizes: known_sizes(alloc, sizes)?,
    })
}

fn items(alloc: Global, sizes: &[Option<Size>], bricks: &[Brick]) -> Result<List<List<u16>>, Memory>
    ensures { IfOk result (λ rows. (t : Table) → AreSizes t sizes.now → layouts.AreRows bricks.now rows (layouts.ItemsBegin t)) }
{
    let mut rows = List::new(alloc, bricks.len())?;
    for brick in bricks {
        rows.push(offsets(alloc, sizes, fields_in(&brick.sort))?)?;
    }
    Ok(rows)
}

fn fields_in(sort: &BrickSort) -> &[Field]
    ensures { result.now ≡ layouts.fields_in sort.now }
{
    match sort {
        BrickSort::Data(fields, _) => fields.as_slice(),
        _ => &[],
    }
}

fn fields(
    alloc: Global,
    sizes: &[Option<Size>],
    records: &[RecordDef],
) -> Result<List<List<u16>>, Memory>
    ensures { IfOk result (λ rows. (t : Table) → AreSizes t sizes.now → layouts.AreRows records.now rows (layouts.FieldsBegin t)) }
{
    let mut rows = List::new(alloc, records.len())?;
    for record in records {
        rows.push(offsets(alloc, sizes, record.fields.as_slice())?)?;
    }
    Ok(rows)
}

/// Where fields begin: one walk over them.
fn offsets(alloc: Global, sizes: &[Option<Size>], fields: &[Field]) -> Result<List<u16>, Memory>
    ensures { IfOk result (λ ns. (t : Table) → AreSizes t sizes.now → layouts.AreOffsets t fields.now ns) }
{
    let mut made = List::new(alloc, fields.len())?;
    let mut end = 0;
    for (k, field) in fields.iter().enumerate() {
        made.push(place(&field.mode, end)?)?;
        end = end_behind(sizes, &fields[k..k + 1], &field.mode, end)?;
    }
    Ok(made)
}

/// Where a value of a mode begins that stands behind so many bytes.
fn place(mode: &Mode, before: u16) -> Result<u16, Memory>
    ensures { IfOk result (λ n. n ≡ begins (out-Mode mode.now) before) }
{
    few(Some(Size::Bytes(before).place(mode)))
}

/// Where a field ends, which is the only one of a slice, and stands behind so many bytes.
fn end_behind(
    sizes: &[Option<Size>],
    alone: &[Field],
    mode: &Mode,
    before: u16,
) -> Result<u16, Memory>
    ensures { IfOk result (λ e. (t : Table) → AreSizes t sizes.now → (n : ℕ) × End t alone.now n × (e ≡ begins (out-Mode mode.now) before + n)) }
{
    let size = few(data_size(sizes, alone))?;
    few(Some(Size::Bytes(size).behind(mode, Size::Bytes(before))))
}

/// A number of bytes up to the most that a record may have.
fn few(size: Option<Size>) -> Result<u16, Memory>
    ensures { IfOk result (λ n. size ≡ Some (Size.Bytes n)) }
{
    match size {
        Some(Size::Bytes(bytes)) => Ok(bytes),
        _ => Err(Memory),
    }
}

fn known_sizes(alloc: Global, sizes: &[Option<Size>]) -> Result<List<u16>, Memory>
    ensures each { IfOk result (λ ns. length ns ≡ length sizes.now) }
    ensures same { IfOk result (λ ns. (k n : ℕ) → slice_get ns k ≡ Some n → slice_get sizes.now k ≡ Some (Some (Size.Bytes n))) }
{
    let mut made = List::new(alloc, sizes.len())?;
    for size in sizes {
        made.push(few(*size)?)?;
    }
    Ok(made)
}
