//! What the bytes say that begin a brick, a target or the number of a relocation.

ghost use Rattle.rt_words.specs.Reading as reads;
ghost use Rattle.rt_words.specs.Reading.{Gives};
ghost use Rattle.rt_object.specs.Grammar.{kind_of, sort_in, called_of, named_of};

use rt_words::Stop;

/// Whose a brick is.
#[derive(Clone, Copy)]
pub enum Kind {
    Own,
    Ent,
    Ext,
    Svc,
}

/// What a brick is.
#[derive(Clone, Copy)]
pub enum Sort {
    Proc,
    Data,
    Stack,
}

/// What a call's target is.
#[derive(Clone, Copy)]
pub enum Called {
    Brick,
    Mode,
    Error,
}

/// What a relocation's number counts.
#[derive(Clone, Copy)]
pub enum Named {
    Brick,
    String,
    Support,
}

pub fn read_kind(bytes: &[u8]) -> Result<(Kind, &[u8]), Stop>
    ensures { Gives (λ x. (x.0, x.1.now)) result (reads.byte kind_of bytes.now) }
{
    match bytes.split_first() {
        Some((1, rest)) => Ok((Kind::Own, rest)),
        Some((2, rest)) => Ok((Kind::Ent, rest)),
        Some((3, rest)) => Ok((Kind::Ext, rest)),
        Some((4, rest)) => Ok((Kind::Svc, rest)),
        _ => Err(Stop::Refused(bytes.len())),
    }
}

/// The sort of a brick of some kind: no stack is the supervisor's.
pub fn read_sort(kind: Kind, bytes: &[u8]) -> Result<(Sort, &[u8]), Stop>
    ensures { Gives (λ x. (x.0, x.1.now)) result (reads.byte (sort_in kind) bytes.now) }
{
    match (bytes.split_first(), kind) {
        (Some((1, rest)), _) => Ok((Sort::Proc, rest)),
        (Some((2, rest)), _) => Ok((Sort::Data, rest)),
        (Some((3, rest)), Kind::Own | Kind::Ent | Kind::Ext) => Ok((Sort::Stack, rest)),
        _ => Err(Stop::Refused(bytes.len())),
    }
}

pub fn read_called(bytes: &[u8]) -> Result<(Called, &[u8]), Stop>
    ensures { Gives (λ x. (x.0, x.1.now)) result (reads.byte called_of bytes.now) }
{
    match bytes.split_first() {
        Some((1, rest)) => Ok((Called::Brick, rest)),
        Some((2, rest)) => Ok((Called::Mode, rest)),
        Some((3, rest)) => Ok((Called::Error, rest)),
        _ => Err(Stop::Refused(bytes.len())),
    }
}

pub fn read_named(bytes: &[u8]) -> Result<(Named, &[u8]), Stop>
    ensures { Gives (λ x. (x.0, x.1.now)) result (reads.byte named_of bytes.now) }
{
    match bytes.split_first() {
        Some((1, rest)) => Ok((Named::Brick, rest)),
        Some((2, rest)) => Ok((Named::String, rest)),
        Some((3, rest)) => Ok((Named::Support, rest)),
        _ => Err(Stop::Refused(bytes.len())),
    }
}
