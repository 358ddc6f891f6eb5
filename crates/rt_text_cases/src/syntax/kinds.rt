//! Items as texts.

use crate::expansion::write_bytes;
use crate::stop::Stop;
use rt_items::{Item, ItemKind};
use std::fmt::Write;

/// Writes items, each with its line and its first byte and the one behind it.
pub fn show_items(list: &[Item], out: &mut String) -> Result<(), Stop> {
    for item in list {
        show_kind(&item.kind, out)?;
        let (line, from, to) = (item.line, item.from, item.to);
        write!(out, "@{line}:{from}-{to}")?;
    }
    Ok(())
}

fn show_kind(kind: &ItemKind, out: &mut String) -> Result<(), Stop> {
    match kind {
        ItemKind::Word(word) => Ok(write!(out, " {word:?}")?),
        ItemKind::Mark(mark) => Ok(write!(out, " {mark:?}")?),
        ItemKind::Number(value) => Ok(write!(out, " {value}")?),
        ItemKind::Name(name) => {
            out.push_str(" name ")?;
            write_bytes(out, name.as_slice())
        }
        ItemKind::Text(bytes) => {
            out.push_str(" text <")?;
            write_bytes(out, bytes.as_slice())?;
            Ok(out.push('>')?)
        }
    }
}
