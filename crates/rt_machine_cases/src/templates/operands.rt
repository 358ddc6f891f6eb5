//! What an intermediate instruction is made of, as it is read: its numbers, its place, and what its words name.

use crate::numbers::first;
use rt_icode::{Alter, Division, Fixed, Merge, OwnItem, Width};
use rt_tree_nodes::Rel;
use rt_words::{List, Memory};
use std::alloc::Global;

/// The first word of a text as a decimal number, and what stands behind it.
pub fn number(text: &str) -> Option<(u16, &str)> {
    let (digits, rest) = first(text);
    Some((digits.parse::<u16>().ok()?, rest))
}

/// The same of the number of an instruction, or of instructions.
pub fn count(text: &str) -> Option<(u32, &str)> {
    let (digits, rest) = first(text);
    Some((digits.parse::<u32>().ok()?, rest))
}

/// A place, as `2.0.1+4`: brick, item, fields, offset.
pub fn place_of(alloc: Global, text: &str) -> Result<Option<Fixed>, Memory> {
    let Some((path, offset)) = text.split_once('+') else {
        return Ok(None);
    };
    let numbers = path_of(alloc, path)?;
    fixed_of(alloc, numbers.as_slice(), offset)
}

fn path_of(alloc: Global, path: &str) -> Result<List<u16>, Memory> {
    let mut numbers = List::new(alloc, 0)?;
    for part in path.split('.') {
        numbers.push(part.parse::<u16>().unwrap_or(0))?;
    }
    Ok(numbers)
}

fn fixed_of(alloc: Global, numbers: &[u16], offset: &str) -> Result<Option<Fixed>, Memory> {
    match numbers {
        [brick, item, fields @ ..] => Ok(Some(Fixed {
            brick: *brick,
            item: *item,
            fields: List::from_slice(alloc, fields)?,
            offset: offset.parse::<u16>().unwrap_or(0),
        })),
        _ => Ok(None),
    }
}

/// A width.
pub fn width_of(text: &str) -> Option<Width> {
    match text {
        "Byte" => Some(Width::Byte),
        "Word" => Some(Width::Word),
        _ => None,
    }
}

/// An item of the task's own.
pub fn item_of(text: &str) -> Option<OwnItem> {
    match text {
        "ERN" => Some(OwnItem::Ern),
        "ERP" => Some(OwnItem::Erp),
        "IN" => Some(OwnItem::In),
        "OUT" => Some(OwnItem::Out),
        _ => None,
    }
}

/// What is done to one value.
pub fn alter_of(text: &str) -> Option<Alter> {
    match text {
        "-" => Some(Alter::Negate),
        "ABS" => Some(Alter::Absolute),
        "NOT" => Some(Alter::Complement),
        "BYTE" => Some(Alter::LowByte),
        _ => None,
    }
}

/// What is done to two values.
pub fn merge_of(text: &str) -> Option<Merge> {
    match text {
        "+" => Some(Merge::Plus),
        "-" => Some(Merge::Minus),
        "*" => Some(Merge::Times),
        "* of FRAC" => Some(Merge::FracTimes),
        "LAND" => Some(Merge::Land),
        "LOR" => Some(Merge::Lor),
        "NEV" => Some(Merge::Nev),
        "SLL" => Some(Merge::Sll),
        "SRL" => Some(Merge::Srl),
        "SLA" => Some(Merge::Sla),
        "SRA" => Some(Merge::Sra),
        _ => None,
    }
}

/// A quotient or a remainder.
pub fn division_of(text: &str) -> Option<Division> {
    match text {
        ":/" => Some(Division::Quotient),
        "MOD" => Some(Division::Remainder),
        _ => None,
    }
}

/// A relation.
pub fn relation_of(text: &str) -> Option<Rel> {
    match text {
        "=" => Some(Rel::Equal),
        "#" => Some(Rel::Unequal),
        "<" => Some(Rel::Less),
        "<=" => Some(Rel::LessOrEqual),
        ">" => Some(Rel::Greater),
        ">=" => Some(Rel::GreaterOrEqual),
        ":=:" => Some(Rel::Same),
        ":#:" => Some(Rel::Different),
        _ => None,
    }
}
