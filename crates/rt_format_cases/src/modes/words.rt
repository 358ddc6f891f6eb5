//! The operators on words.

use crate::told::{tell_count, tell_number};
use itoa::Buffer;
use rt_words::{
    Memory, Quotient, Shift, Text, frac_mul, octal6, sdiv, shift, signed, wrap_add, wrap_mul,
    wrap_sub,
};

/// What an operator gives for two words.
pub fn describe_word(text: &str, out: &mut Text) -> Result<(), Memory> {
    match operation(text) {
        Some((left, "/", right)) => tell_quotient(sdiv(left, right), out),
        Some((left, operator, right)) => tell_value(value_of(left, operator, right), out),
        None => out.push_all(b"no operation"),
    }
}

fn operation(text: &str) -> Option<(u16, &str, u16)> {
    let (left, rest) = text.split_once(' ')?;
    let (operator, right) = rest.split_once(' ')?;
    Some((
        left.parse::<u16>().ok()?,
        operator,
        right.parse::<u16>().ok()?,
    ))
}

fn value_of(left: u16, operator: &str, right: u16) -> Option<u16> {
    match operator {
        "+" => Some(wrap_add(left, right)),
        "-" => Some(wrap_sub(left, right)),
        "*" => Some(wrap_mul(left, right)),
        "FRAC*" => Some(frac_mul(left, right)),
        "SLL" => Some(shift(Shift::Sll, left, right)),
        "SRL" => Some(shift(Shift::Srl, left, right)),
        "SLA" => Some(shift(Shift::Sla, left, right)),
        "SRA" => Some(shift(Shift::Sra, left, right)),
        _ => None,
    }
}

fn tell_value(value: Option<u16>, out: &mut Text) -> Result<(), Memory> {
    match value {
        Some(word) => tell_number(u64::from(word), out),
        None => out.push_all(b"no operator"),
    }
}

fn tell_quotient(quotient: Quotient, out: &mut Text) -> Result<(), Memory> {
    match quotient {
        Quotient::Ok(whole, rest) => {
            tell_number(u64::from(whole), out)?;
            tell_count(" and ", u64::from(rest), out)?;
            out.push_all(b" is left")
        }
        Quotient::Zero => out.push_all(b"by zero"),
        Quotient::Wide => out.push_all(b"no word"),
    }
}

/// The number for which a word stands.
pub fn describe_signed(text: &str, out: &mut Text) -> Result<(), Memory> {
    let mut buffer = Buffer::new();
    match text.parse::<u16>() {
        Ok(word) => out.push_all(buffer.format(signed(word)).as_bytes()),
        Err(_) => out.push_all(b"no word"),
    }
}

/// The octal digits of a word.
pub fn describe_octal(text: &str, out: &mut Text) -> Result<(), Memory> {
    match text.parse::<u16>() {
        Ok(word) => out.push_all(&octal6(word)),
        Err(_) => out.push_all(b"no word"),
    }
}
