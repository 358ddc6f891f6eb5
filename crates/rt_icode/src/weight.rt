//! What instructions weigh on the machine.
ghost use Rattle.std.specs.Prelude.{◌≡◌, ◌≤◌};
ghost use Rattle.rt_icode.specs.Weights.{words_of, unmarked_of, scale_words, alter_words, merge_words, merge_unmarked, load_words, fetch_words, kept_words, recovery_words};

use crate::ins::{Alter, Ins, Merge, Width};

/// The words that a subscript is scaled by.
fn scale(size: u16) -> u32
    ensures value { result ≡ scale_words size }
    ensures few { result ≤ 2 }
{
    match size {
        1 => 0,
        2 => 1,
        _ => 2,
    }
}

fn altered(alter: Alter) -> u32
    ensures value { result ≡ alter_words alter }
    ensures few { result ≤ 3 }
{
    match alter {
        Alter::Negate | Alter::Complement => 1,
        Alter::LowByte => 2,
        Alter::Absolute => 3,
    }
}

fn merged(merge: Merge) -> u32
    ensures value { result ≡ merge_words merge }
    ensures few { result ≤ 8 }
{
    match merge {
        Merge::Plus | Merge::Minus | Merge::Lor => 1,
        Merge::Land | Merge::Nev => 2,
        Merge::Times => 3,
        Merge::FracTimes => 5,
        Merge::Sll | Merge::Sla => 6,
        Merge::Sra => 7,
        Merge::Srl => 8,
    }
}

fn loaded(width: Width) -> u32
    ensures value { result ≡ load_words width }
    ensures few { result ≤ 3 }
{
    match width {
        Width::Byte => 3,
        Width::Word => 2,
    }
}

fn fetched(width: Width) -> u32
    ensures value { result ≡ fetch_words width }
    ensures few { result ≤ 3 }
{
    match width {
        Width::Byte => 3,
        Width::Word => 1,
    }
}

fn kept(gives: bool) -> u32
    ensures value { result ≡ kept_words gives }
    ensures few { result ≤ 1 }
{
    if gives { 1 } else { 0 }
}

fn recovery(recovers: bool) -> u32
    ensures value { result ≡ recovery_words recovers }
    ensures few { result ≤ 5 }
{
    if recovers { 5 } else { 0 }
}

/// How many words of the machine's code an instruction becomes.
pub fn words(i: &Ins) -> u32
    ensures value { result ≡ words_of i.now }
    ensures most { result ≤ 65542 }
{
    match i {
        Ins::Enter {
            locals,
            recovers,
            ..
        } => u32::from(*locals) + (2 + recovery(*recovers)),
        Ins::Discard | Ins::Store(_) | Ins::Length => 1,
        Ins::Load { width, .. } => loaded(*width),
        Ins::Fetch(width) => fetched(*width),
        Ins::ElementAt { size, .. } | Ins::Element { size, .. } | Ins::ElementRow { size } => {
            10 + scale(*size)
        }
        Ins::Alter(alter) => altered(*alter),
        Ins::Merge(merge) => merged(*merge),
        Ins::Divide(_) | Ins::GiveUp => 3,
        Ins::DivideOr(_) | Ins::Test { .. } | Ins::Recover { .. } => 4,
        Ins::Case { .. } => 5,
        Ins::CountFor { .. } => 12,
        Ins::TurnFor { .. } => 10,
        Ins::CountTo { .. } | Ins::TurnTo { .. } => 7,
        Ins::Invoke {
            arguments,
            gives,
            ..
        } => kept(*gives) + if *arguments == 0 { 2 } else { 4 },
        Ins::InvokeBy { gives, .. } => 5 + kept(*gives),
        Ins::Const(_)
        | Ins::Text(_)
        | Ins::Routine(_)
        | Ins::LoadLocal(_)
        | Ins::SaveLocal(_)
        | Ins::ClearLocal(_)
        | Ins::Reach(_)
        | Ins::ReachRow { .. }
        | Ins::Save { .. }
        | Ins::LoadOwn(_)
        | Ins::SaveOwn(_)
        | Ins::Into { .. }
        | Ins::IntoRow { .. }
        | Ins::Tell(_)
        | Ins::Report
        | Ins::Skip { .. }
        | Ins::Go { .. }
        | Ins::Leave
        | Ins::Restore => 2,
    }
}

fn merged_unmarked(merge: Merge) -> u32
    ensures value { result ≡ merge_unmarked merge }
    ensures few { result ≤ 7 }
{
    match merge {
        Merge::Plus | Merge::Minus | Merge::Lor => 1,
        Merge::Land | Merge::Nev => 2,
        Merge::Times => 3,
        Merge::FracTimes | Merge::Sll | Merge::Sla => 5,
        Merge::Sra => 6,
        Merge::Srl => 7,
    }
}

/// How many instructions of the machine without a visible step an instruction makes at the most, those of the support code's
/// routines among them.
pub fn unmarked(i: &Ins) -> u32
    ensures value { result ≡ unmarked_of i.now }
    ensures most { result ≤ 65541 }
{
    match i {
        Ins::Enter {
            locals,
            recovers,
            ..
        } => u32::from(*locals) + if *recovers { 6 } else { 2 },
        Ins::Load { width, .. } => match width {
            Width::Byte => 1,
            Width::Word => 0,
        },
        Ins::Fetch(width) => match width {
            Width::Byte => 2,
            Width::Word => 0,
        },
        Ins::Save { .. }
        | Ins::LoadOwn(_)
        | Ins::SaveOwn(_)
        | Ins::Store(_)
        | Ins::Go { .. }
        | Ins::Restore => 0,
        Ins::ElementAt { .. } | Ins::Element { .. } | Ins::ElementRow { .. } => 12,
        Ins::Alter(alter) => match alter {
            Alter::Absolute => 3,
            _ => 1,
        },
        Ins::Merge(merge) => merged_unmarked(*merge),
        Ins::Divide(_) => 13,
        Ins::DivideOr(_) => 14,
        Ins::Test { .. } | Ins::Case { .. } | Ins::TurnTo { .. } | Ins::Leave => 3,
        Ins::TurnFor { .. } | Ins::GiveUp => 4,
        Ins::CountFor { .. } => 24,
        Ins::CountTo { .. } => 5,
        Ins::Invoke {
            arguments,
            gives,
            ..
        } => kept(*gives) + if *arguments == 0 { 0 } else { 1 },
        Ins::InvokeBy { gives, .. } => 2 + kept(*gives),
        Ins::Const(_)
        | Ins::Text(_)
        | Ins::Routine(_)
        | Ins::LoadLocal(_)
        | Ins::SaveLocal(_)
        | Ins::ClearLocal(_)
        | Ins::Discard
        | Ins::Reach(_)
        | Ins::ReachRow { .. }
        | Ins::Into { .. }
        | Ins::IntoRow { .. }
        | Ins::Tell(_)
        | Ins::Length
        | Ins::Report
        | Ins::Skip { .. }
        | Ins::Recover { .. } => 1,
    }
}
