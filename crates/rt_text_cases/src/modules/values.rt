//! Values, places and conditions of typed trees as texts.

use crate::stop::Stop;
use rt_tree::{Callee, Place, Test, Value};
use std::fmt::{Debug, Write};

/// Writes a value.
#[cycle(values)]
pub fn show_value(out: &mut String, value: &Value) -> Result<(), Stop> {
    match value {
        Value::Read(place) => show_inner(out, "(", place.get()),
        Value::Reference(place) => show_inner(out, "ref(", place.get()),
        Value::Length(place) => show_inner(out, "length(", place.get()),
        Value::Monadic(op, operand) => {
            open(out, op)?;
            show_value(out, operand.get())?;
            Ok(out.push(')')?)
        }
        Value::Dyadic(op, left, right) => {
            open(out, op)?;
            show_value(out, left.get())?;
            out.push(' ')?;
            show_value(out, right.get())?;
            Ok(out.push(')')?)
        }
        Value::Call(callee, arguments) => {
            out.push_str("call(")?;
            show_callee(out, callee)?;
            show_arguments(out, arguments.as_slice())?;
            Ok(out.push(')')?)
        }
        _ => show_constant(out, value),
    }
}

#[cycle(values)]
fn show_inner(out: &mut String, opening: &str, place: &Place) -> Result<(), Stop> {
    out.push_str(opening)?;
    show_place(out, place)?;
    Ok(out.push(')')?)
}

#[cycle(values)]
fn show_callee(out: &mut String, callee: &Callee) -> Result<(), Stop> {
    match callee {
        Callee::Brick(n) => show_numbered(out, "proc ", *n),
        Callee::Through(value) => show_value(out, value.get()),
    }
}

#[cycle(values)]
fn show_arguments(out: &mut String, arguments: &[Value]) -> Result<(), Stop> {
    for argument in arguments {
        out.push(' ')?;
        show_value(out, argument)?;
    }
    Ok(())
}

/// Writes a place.
#[cycle(values)]
pub fn show_place(out: &mut String, place: &Place) -> Result<(), Stop> {
    match place {
        Place::Field(of, k) => {
            show_field(out, *k)?;
            show_place(out, of.get())
        }
        Place::Element(of, subscript) => {
            out.push_str("element(")?;
            show_place(out, of.get())?;
            out.push(' ')?;
            show_value(out, subscript.get())?;
            Ok(out.push(')')?)
        }
        Place::Through(reference) => {
            out.push_str("at(")?;
            show_value(out, reference.get())?;
            Ok(out.push(')')?)
        }
        _ => show_named(out, place),
    }
}

// A value that holds no other.
fn show_constant(out: &mut String, value: &Value) -> Result<(), Stop> {
    match value {
        Value::Number(n) => show_numbered(out, "", *n),
        Value::Text(n) => show_numbered(out, "text ", *n),
        Value::Proc(n) => show_numbered(out, "proc ", *n),
        _ => Ok(()),
    }
}

// A place that is told by numbers alone.
fn show_named(out: &mut String, place: &Place) -> Result<(), Stop> {
    match place {
        Place::Local(n) => show_numbered(out, "local ", *n),
        Place::Item(brick, item) => Ok(write!(out, "item {brick}.{item}")?),
        Place::Svc(n) => show_numbered(out, "svc ", u16::from(*n)),
        _ => Ok(()),
    }
}

fn show_numbered(out: &mut String, word: &str, number: u16) -> Result<(), Stop> {
    Ok(write!(out, "{word}{number}")?)
}

fn show_field(out: &mut String, number: u16) -> Result<(), Stop> {
    Ok(write!(out, "field {number} ")?)
}

// Opens the node of an operator.
fn open<D: Debug>(out: &mut String, operator: &D) -> Result<(), Stop> {
    Ok(write!(out, "{operator:?}(")?)
}

/// Writes a condition.
#[cycle(tests)]
pub fn show_test(out: &mut String, test: &Test) -> Result<(), Stop> {
    match test {
        Test::Compare(relation, left, right) => {
            open(out, relation)?;
            show_pair(out, left, right)
        }
        Test::And(tests) => {
            out.push_str("and(")?;
            show_tests(out, tests.as_slice())
        }
        Test::Or(tests) => {
            out.push_str("or(")?;
            show_tests(out, tests.as_slice())
        }
    }
}

#[cycle(tests)]
fn show_tests(out: &mut String, tests: &[Test]) -> Result<(), Stop> {
    for test in tests {
        out.push(' ')?;
        show_test(out, test)?;
    }
    Ok(out.push(')')?)
}

// What is compared, and the end of its node.
fn show_pair(out: &mut String, left: &Value, right: &Value) -> Result<(), Stop> {
    show_value(out, left)?;
    out.push(' ')?;
    show_value(out, right)?;
    Ok(out.push(')')?)
}
