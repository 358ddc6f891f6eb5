//! Intermediate instructions, as their texts are read.

use crate::numbers::first;
use crate::templates::operands::{
    alter_of, count, division_of, item_of, merge_of, number, place_of, relation_of, width_of,
};
use rt_icode::{Fixed, IProc, Ins, Width};
use rt_words::{List, Memory, Name};
use std::alloc::Global;

/// The instruction of a text. None where it has none.
pub fn read_ins(alloc: Global, text: &str) -> Result<Option<Ins>, Memory> {
    let (name, rest) = first(text);
    match name {
        "Load" | "Save" => wide(alloc, name, rest),
        "Reach" | "ReachRow" | "ElementAt" => placed(alloc, name, rest),
        _ => Ok(simple(name, rest)),
    }
}

fn wide(alloc: Global, name: &str, rest: &str) -> Result<Option<Ins>, Memory> {
    let (width, rest) = first(rest);
    let Some(width) = width_of(width) else {
        return Ok(None);
    };
    let (place, _rest) = first(rest);
    match place_of(alloc, place)? {
        Some(place) => Ok(Some(over(name, width, place))),
        None => Ok(None),
    }
}

fn over(name: &str, width: Width, place: Fixed) -> Ins {
    if name == "Load" {
        Ins::Load { width, place }
    } else {
        Ins::Save { width, place }
    }
}

fn placed(alloc: Global, name: &str, rest: &str) -> Result<Option<Ins>, Memory> {
    let (place, rest) = first(rest);
    let Some(row) = place_of(alloc, place)? else {
        return Ok(None);
    };
    Ok(on_row(name, row, rest))
}

fn on_row(name: &str, row: Fixed, rest: &str) -> Option<Ins> {
    if name == "Reach" {
        return Some(Ins::Reach(row));
    }
    let (length, rest) = number(rest)?;
    if name == "ReachRow" {
        return Some(Ins::ReachRow { row, length });
    }
    let (size, _rest) = number(rest)?;
    Some(Ins::ElementAt { row, length, size })
}

fn simple(name: &str, rest: &str) -> Option<Ins> {
    match name {
        "Discard" => Some(Ins::Discard),
        "Length" => Some(Ins::Length),
        "Report" => Some(Ins::Report),
        "GiveUp" => Some(Ins::GiveUp),
        "Leave" => Some(Ins::Leave),
        "Restore" => Some(Ins::Restore),
        "LoadOwn" => Some(Ins::LoadOwn(item_of(rest.trim())?)),
        "SaveOwn" => Some(Ins::SaveOwn(item_of(rest.trim())?)),
        "Fetch" => Some(Ins::Fetch(width_of(rest.trim())?)),
        "Store" => Some(Ins::Store(width_of(rest.trim())?)),
        "Alter" => Some(Ins::Alter(alter_of(rest.trim())?)),
        "Merge" => Some(Ins::Merge(merge_of(rest.trim())?)),
        "Divide" => Some(Ins::Divide(division_of(rest.trim())?)),
        "DivideOr" => Some(Ins::DivideOr(division_of(rest.trim())?)),
        "Test" => test(rest),
        "Skip" | "Go" | "Case" | "Recover" => way(name, rest),
        "CountFor" | "CountTo" | "TurnFor" | "TurnTo" => turns(name, rest),
        _ => numbered(name, rest),
    }
}

fn way(name: &str, rest: &str) -> Option<Ins> {
    let (n, _rest) = count(rest)?;
    match name {
        "Skip" => Some(Ins::Skip { more: n }),
        "Go" => Some(Ins::Go { to: n }),
        "Case" => Some(Ins::Case { to: n }),
        _ => Some(Ins::Recover { to: n }),
    }
}

fn turns(name: &str, rest: &str) -> Option<Ins> {
    let (local, rest) = number(rest)?;
    let (n, _rest) = count(rest)?;
    match name {
        "CountFor" => Some(Ins::CountFor { local, more: n }),
        "CountTo" => Some(Ins::CountTo { local, more: n }),
        "TurnFor" => Some(Ins::TurnFor { local, to: n }),
        _ => Some(Ins::TurnTo { local, to: n }),
    }
}

fn test(rest: &str) -> Option<Ins> {
    let (relation, rest) = first(rest);
    let (when, rest) = first(rest);
    let (more, _rest) = count(rest)?;
    Some(Ins::Test {
        relation: relation_of(relation)?,
        when: when == "true",
        more,
    })
}

fn numbered(name: &str, rest: &str) -> Option<Ins> {
    let (a, rest) = number(rest)?;
    match name {
        "Const" => Some(Ins::Const(a)),
        "Text" => Some(Ins::Text(a)),
        "Routine" => Some(Ins::Routine(a)),
        "LoadLocal" => Some(Ins::LoadLocal(a)),
        "SaveLocal" => Some(Ins::SaveLocal(a)),
        "ClearLocal" => Some(Ins::ClearLocal(a)),
        "ElementRow" => Some(Ins::ElementRow { size: a }),
        "Tell" => Some(Ins::Tell(a)),
        "InvokeBy" => Some(Ins::InvokeBy {
            arguments: a,
            gives: rest.trim() == "kept",
        }),
        _ => with_two(name, a, rest),
    }
}

fn with_two(name: &str, a: u16, rest: &str) -> Option<Ins> {
    let (b, rest) = number(rest)?;
    match name {
        "Into" => Some(Ins::Into {
            field: a,
            offset: b,
        }),
        "Element" => Some(Ins::Element { length: a, size: b }),
        "Invoke" => Some(Ins::Invoke {
            brick: a,
            arguments: b,
            gives: rest.trim() == "kept",
        }),
        _ => with_three(name, a, b, rest),
    }
}

fn with_three(name: &str, a: u16, b: u16, rest: &str) -> Option<Ins> {
    let (c, rest) = number(rest)?;
    match name {
        "IntoRow" => Some(Ins::IntoRow {
            field: a,
            offset: b,
            length: c,
        }),
        "Enter" => Some(Ins::Enter {
            brick: a,
            parameters: b,
            locals: c,
            recovers: rest.trim() == "recovers",
        }),
        _ => None,
    }
}

/// The procedure of these instructions, between which `;` stands. Those that are none are left out.
pub fn read_proc(alloc: Global, text: &str) -> Result<Option<IProc>, Memory> {
    let Some(name) = Name::new(alloc, b"P")? else {
        return Ok(None);
    };
    let code = read_code(alloc, text)?;
    Ok(Some(IProc {
        name,
        items: 0,
        code,
    }))
}

fn read_code(alloc: Global, text: &str) -> Result<List<Ins>, Memory> {
    let mut code = List::new(alloc, 0)?;
    for part in text.split(';') {
        push_read(alloc, part, &mut code)?;
    }
    Ok(code)
}

fn push_read(alloc: Global, text: &str, code: &mut List<Ins>) -> Result<(), Memory> {
    match read_ins(alloc, text)? {
        Some(ins) => code.push(ins),
        None => Ok(()),
    }
}
