//! The code byte of a mode in an object, and where each code may stand.

ghost use Rattle.std.specs.Prelude.{◌≡◌};
ghost use Rattle.rt_modes.specs.Spelling as spec;

/// What the code byte of a mode says.
#[derive(Clone, Copy, Debug, PartialEq, Eq)]
pub enum Code {
    Byte,
    Int,
    Frac,
    Ref,
    RefArray,
    Array,
    Record,
    Label,
    Proc,
}

/// Where a mode stands.
#[derive(Clone, Copy, PartialEq, Eq)]
pub enum Place {
    /// Not in another mode: the mode of a field or an item.
    Alone,
    /// Behind REF, REF ARRAY or ARRAY.
    Inside,
    /// As a parameter or result of PROC.
    Passed,
}

/// The code that a byte is.
fn code_of(byte: u8) -> Option<Code>
    ensures { result ≡ spec.code_of byte }
{
    match byte {
        1 => Some(Code::Byte),
        2 => Some(Code::Int),
        3 => Some(Code::Frac),
        4 => Some(Code::Ref),
        5 => Some(Code::RefArray),
        6 => Some(Code::Array),
        7 => Some(Code::Record),
        8 => Some(Code::Label),
        9 => Some(Code::Proc),
        _ => None,
    }
}

/// Whether a mode of this code may stand at a place where so many more modes may open, and so many more
/// REF stand in the row.
fn may_stand(code: Code, place: Place, levels: usize, refs: usize) -> bool
    ensures { result ≡ spec.may_stand place levels refs code }
{
    match code {
        Code::Byte | Code::Int | Code::Frac => true,
        Code::Ref | Code::RefArray => levels > 0 && refs > 0,
        Code::Array => place == Place::Alone && levels > 0,
        Code::Record => place != Place::Passed,
        Code::Label => place == Place::Alone,
        Code::Proc => levels > 0,
    }
}

/// The code that a byte is at such a place.
pub fn code_at(byte: u8, place: Place, levels: usize, refs: usize) -> Option<Code>
    ensures { result ≡ spec.code_at place levels refs byte }
{
    match code_of(byte) {
        Some(code) if may_stand(code, place, levels, refs) => Some(code),
        _ => None,
    }
}
