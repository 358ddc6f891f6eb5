//! Modes of the grammar's trees as texts.

use crate::stop::Stop;
use crate::syntax::expressions::{close, leaf, name, open};
use rt_grammar::At;
use rt_syntax_exprs::WrittenMode;
use std::fmt::Write;

/// Writes a mode.
#[cycle(modes)]
pub fn mode(out: &mut String, mode: &WrittenMode) -> Result<(), Stop> {
    match mode {
        WrittenMode::Name(ident) => name(out, ident.name.as_slice(), ident.at),
        WrittenMode::Basic(basic, at) => leaf(out, basic, *at),
        WrittenMode::Array(length, of, at) => {
            array(out, *length, *at)?;
            self::mode(out, of.get())?;
            close(out)
        }
        WrittenMode::Ref(to, at) => {
            open(out, "REF", *at)?;
            self::mode(out, to.get())?;
            close(out)
        }
        WrittenMode::RefArray(of, at) => {
            open(out, "REF ARRAY", *at)?;
            self::mode(out, of.get())?;
            close(out)
        }
        WrittenMode::Proc(parameters, result, at) => {
            open(out, "PROC", *at)?;
            modes(out, parameters.as_slice())?;
            if let Some(given) = result {
                out.push_str(" =>")?;
                self::mode(out, given.get())?;
            }
            close(out)
        }
    }
}

#[cycle(modes)]
fn modes(out: &mut String, all: &[WrittenMode]) -> Result<(), Stop> {
    for one in all {
        mode(out, one)?;
    }
    Ok(())
}

fn array(out: &mut String, length: u16, at: At) -> Result<(), Stop> {
    let item = at.item;
    Ok(write!(out, " (ARRAY {length}@{item}")?)
}
