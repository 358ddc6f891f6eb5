//! The size of a value of a mode, where the sizes of records are known.

ghost use Rattle.std.specs.Prelude.{◌≡◌};
ghost use Rattle.rt_sizes.specs.Capped as spec;

use crate::size::Size;
use rt_modes::{Field, Mode};

/// The size of a value of a mode, unless that of a record in it isn't known.
pub fn size_of(sizes: &[Option<Size>], mode: &Mode) -> Option<Size>
    ensures { result ≡ spec.size_of sizes.now mode.now }
{
    match mode {
        Mode::Byte => Some(Size::Bytes(1)),
        Mode::Int | Mode::Frac | Mode::Label => Some(Size::Bytes(2)),
        Mode::Ref(_) | Mode::RefArray(_) | Mode::Proc(_, _) => Some(Size::Bytes(2)),
        Mode::Array(length, of) => {
            let element = size_of(sizes, of.get())?;
            Some(element.elements(*length))
        }
        Mode::Record(number) => size_in(sizes, usize::from(*number)),
    }
}

/// The size of a record, where it is known.
pub fn size_in(sizes: &[Option<Size>], number: usize) -> Option<Size>
    ensures { result ≡ spec.size_in sizes.now number }
{
    match sizes.get(number) {
        Some(size) => *size,
        None => None,
    }
}

/// Where a field ends that stands behind others.
pub fn field_end(sizes: &[Option<Size>], field: &Field, before: Size) -> Option<Size>
    ensures { result ≡ spec.field_end sizes.now field.now before }
{
    let size = size_of(sizes, &field.mode)?;
    Some(size.behind(&field.mode, before))
}

/// Where fields end that stand behind others.
pub fn fields_end(sizes: &[Option<Size>], fields: &[Field], before: Size) -> Option<Size>
    ensures { result ≡ spec.fields_end sizes.now fields.now before }
{
    let mut end = before;
    for field in fields {
        end = field_end(sizes, field, end)?;
    }
    Some(end)
}
