//! How much bodies and modules have, and the strings of bodies.

use crate::stop::Stop;
use rt_bricks::{Declaration, Module, ProcedureBrick};
use rt_items::Item;
use rt_syntax::{Body, Simple, Text, add_strings, in_expr, parse_body};
use rt_syntax_exprs::Expr;
use rt_words::List;
use std::alloc::Global;
use std::fmt::Write;

/// Writes how many declarations and statements a body has, and the item behind it.
pub fn show_counts(body: &Body, behind: usize, out: &mut String) -> Result<(), Stop> {
    let (locals, statements) = (body.locals.len(), body.statements.len());
    Ok(write!(out, " {locals} {statements} {behind}")?)
}

/// Writes the strings of a body, each by its item and its length, and then those of what it returns at its end.
pub fn show_strings(alloc: Global, body: &Body, out: &mut String) -> Result<(), Stop> {
    show_all(alloc, body, out)?;
    match body.statements.as_slice() {
        [.., last] => show_returned(alloc, &last.simple, out),
        [] => Ok(()),
    }
}

fn show_all(alloc: Global, body: &Body, out: &mut String) -> Result<(), Stop> {
    let mut strings = List::from_vec(Vec::new(alloc));
    add_strings(&mut strings, body)?;
    list_strings(strings.as_slice(), out)
}

fn show_returned(alloc: Global, last: &Option<Simple>, out: &mut String) -> Result<(), Stop> {
    match last {
        Some(Simple::Return(Some(value), _)) => {
            out.push_str("; returns")?;
            show_strings_of(alloc, value, out)
        }
        _ => Ok(()),
    }
}

fn show_strings_of(alloc: Global, value: &Expr, out: &mut String) -> Result<(), Stop> {
    let mut strings = List::from_vec(Vec::new(alloc));
    in_expr(&mut strings, value)?;
    list_strings(strings.as_slice(), out)
}

fn list_strings(strings: &[Text<'_>], out: &mut String) -> Result<(), Stop> {
    for string in strings {
        let (item, length) = (string.item, string.bytes.len());
        write!(out, " {item}:{length}")?;
    }
    Ok(())
}

/// Writes how many declarations a module has, and of how many procedures the body by itself ends at the same item.
pub fn show_sizes(
    alloc: Global,
    all: &[Item],
    module: &Module,
    out: &mut String,
) -> Result<(), Stop> {
    let mut bodies: u32 = 0;
    for declaration in module.declarations.as_slice() {
        if let Declaration::Procedure(brick) = declaration {
            if ends_there(alloc, all, brick) {
                bodies = bodies.saturating_add(1);
            }
        }
    }
    let count = module.declarations.len();
    Ok(write!(out, " {count} {bodies}")?)
}

fn ends_there(alloc: Global, all: &[Item], brick: &ProcedureBrick) -> bool {
    let at = usize::from(brick.body.at.item);
    if at > all.len() {
        return false;
    }
    match parse_body(alloc, all, at) {
        Ok((_, behind)) => behind == usize::from(brick.ends.item),
        Err(_) => false,
    }
}
