//! Which bricks declare the task's own data as it is supplied.

ghost use Rattle.std.specs.Prelude.{◌≡◌, position};
ghost use Rattle.std.specs.Option.{option_copied};
ghost use Rattle.rt_modes.specs.declared.mode.Mode.{out-Mode};
ghost use Rattle.rt_tree_nodes.specs.Scopes.{face, fields_of, is_errors, is_streams, is_error_data, is_stream_data, passes, takes, gives, is_one, is_byte_layer, is_int_layer, supplied_of};

use crate::brick::{Brick, BrickSort, Kind};
use rt_modes::{Field, Mode};
use rt_words::Boxed;

/// The numbers of the first bricks of a module that declare the task's own error data (RRERR) and its streams (RRSIO) as
/// they are supplied, where there are any.
#[derive(Clone, Copy, Debug)]
pub struct Supplied {
    pub errors: Option<usize>,
    pub streams: Option<usize>,
}

impl Supplied {
    /// Those of a module's bricks. It goes over the bricks once for each of the two.
    pub fn of(bricks: &[Brick]) -> Supplied
        ensures { result ≡ supplied_of bricks.now }
    {
        Supplied {
            errors: first_errors(bricks),
            streams: first_streams(bricks),
        }
    }
}

fn first_errors(bricks: &[Brick]) -> Option<usize>
    ensures { result ≡ position (λ b. is_errors (face b)) bricks.now }
{
    bricks.iter().position(|brick| is_errors(brick))
}

fn first_streams(bricks: &[Brick]) -> Option<usize>
    ensures { result ≡ position (λ b. is_streams (face b)) bricks.now }
{
    bricks.iter().position(|brick| is_streams(brick))
}

pub(crate) fn fields_of(brick: &Brick) -> Option<&[Field]>
    ensures { option_copied result ≡ fields_of (face brick.now) }
{
    match &brick.sort {
        BrickSort::Data(fields, _) => Some(fields.as_slice()),
        _ => None,
    }
}

pub(crate) fn is_errors(brick: &Brick) -> bool
    ensures { result ≡ is_errors (face brick.now) }
{
    matches!(brick.kind, Kind::Svc)
        && brick.name.as_slice() == b"RRERR".as_slice()
        && match fields_of(brick) {
            Some(fields) => is_error_data(fields),
            None => false,
        }
}

pub(crate) fn is_streams(brick: &Brick) -> bool
    ensures { result ≡ is_streams (face brick.now) }
{
    matches!(brick.kind, Kind::Svc)
        && brick.name.as_slice() == b"RRSIO".as_slice()
        && match fields_of(brick) {
            Some(fields) => is_stream_data(fields),
            None => false,
        }
}

/// Whether items are those of RRERR as it is supplied: `LABEL ERL; INT ERN; PROC(INT) ERP`.
pub fn is_error_data(fields: &[Field]) -> bool
    ensures { result ≡ is_error_data fields.now }
{
    match fields {
        [erl, ern, erp] => {
            erl.name.as_slice() == b"ERL".as_slice()
                && matches!(erl.mode, Mode::Label)
                && ern.name.as_slice() == b"ERN".as_slice()
                && matches!(ern.mode, Mode::Int)
                && erp.name.as_slice() == b"ERP".as_slice()
                && takes_int(&erp.mode)
        }
        _ => false,
    }
}

/// Whether items are those of RRSIO as it is supplied: `PROC() BYTE IN; PROC(BYTE) OUT`.
pub fn is_stream_data(fields: &[Field]) -> bool
    ensures { result ≡ is_stream_data fields.now }
{
    match fields {
        [input, output] => {
            input.name.as_slice() == b"IN".as_slice()
                && gives_byte(&input.mode)
                && output.name.as_slice() == b"OUT".as_slice()
                && takes_byte(&output.mode)
        }
        _ => false,
    }
}

/// Whether this is the mode PROC(INT).
fn takes_int(mode: &Mode) -> bool
    ensures { result ≡ takes is_int_layer (out-Mode mode.now) }
{
    match mode {
        Mode::Proc(parameters, answer) => is_one_int(parameters.as_slice()) && answer.is_none(),
        _ => false,
    }
}

fn is_one_int(modes: &[Mode]) -> bool
    ensures { result ≡ is_one is_int_layer modes.now }
{
    match modes {
        [] => false,
        [mode, rest @ ..] => matches!(mode, Mode::Int) && rest.is_empty(),
    }
}

/// Whether this is the mode PROC(BYTE).
fn takes_byte(mode: &Mode) -> bool
    ensures { result ≡ takes is_byte_layer (out-Mode mode.now) }
{
    match mode {
        Mode::Proc(parameters, answer) => is_one_byte(parameters.as_slice()) && answer.is_none(),
        _ => false,
    }
}

fn is_one_byte(modes: &[Mode]) -> bool
    ensures { result ≡ is_one is_byte_layer modes.now }
{
    match modes {
        [] => false,
        [mode, rest @ ..] => matches!(mode, Mode::Byte) && rest.is_empty(),
    }
}

/// Whether this is the mode PROC() BYTE.
fn gives_byte(mode: &Mode) -> bool
    ensures { result ≡ gives is_byte_layer (out-Mode mode.now) }
{
    match mode {
        Mode::Proc(parameters, answer) => parameters.len() == 0 && is_byte(answer),
        _ => false,
    }
}

fn is_byte(answer: &Option<Boxed<Mode>>) -> bool
    ensures { result ≡ passes (λ m. is_byte_layer (out-Mode m)) answer.now }
{
    match answer {
        Some(mode) => matches!(mode.get(), Mode::Byte),
        None => false,
    }
}
