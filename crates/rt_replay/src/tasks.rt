//! The lines of tasks, and the fault line.

ghost use Rattle.std.specs.Prelude.{◌≡◌, ◌≤◌, length, IfOk, IfSome};
ghost use Rattle.rt_replay.specs.Reading as spec;
ghost use Rattle.rt_replay.specs.Reading.{task_of};
ghost use Rattle.rt_words.specs.Named.{IsNameLength};
ghost use Rattle.rt_system.specs.Reading.{Gives};

use crate::lines::unended;
use crate::numbers::{counted, is_octal, signed_number};
use crate::report::ReportedTask;
use crate::words::{behind, cut, is_name, is_same};
use rt_rules::State;
use rt_words::{Memory, Name};
use std::alloc::Global;

#[tactic(auto, unfolding(crate::specs::Reading::signed_in))]
fn signed(text: &[u8]) -> Option<u16>
    ensures { result ≡ spec.signed_in text.now }
{
    signed_number(unended(behind(b"ERROR ", text)?)?)
}

/// A condition with a number.
#[tactic(auto, unfolding(crate::specs::Reading::numbered))]
fn numbered(text: &[u8]) -> Option<State>
    ensures { result ≡ spec.numbered text.now }
{
    if let Some(n) = counted(b"DELAYED ", 65_535, text) {
        return Some(State::Delayed(n as u16));
    }
    if let Some(n) = counted(b"EVENT ", 255, text) {
        return Some(State::Event(n as u8));
    }
    if let Some(n) = counted(b"FACILITY ", 255, text) {
        return Some(State::Facility(n as u8));
    }
    Some(State::Failed(signed(text)?))
}

/// A condition, up to the line's end.
#[tactic(auto, unfolding(crate::specs::Reading::state_in))]
fn state(text: &[u8]) -> Option<State>
    ensures { result ≡ spec.state_in text.now }
{
    if is_same(text, b"READY\n") {
        return Some(State::Ready);
    }
    if is_same(text, b"ENDED\n") {
        return Some(State::Ended);
    }
    numbered(text)
}

/// The name and the condition in the line of a task.
#[derive(Clone, Copy)]
struct TaskLine<'a> {
    name: &'a [u8],
    state: State,
}

#[tactic(auto, unfolding(crate::specs::Reading::task_in))]
fn task_line(line: &[u8]) -> Option<TaskLine<'_>>
    ensures task { Gives (λ t. task_of t.name.now t.state) result (spec.task_in line.now) }
    ensures named { IfSome result (λ t. IsNameLength (length t.name.now)) }
{
    let (name, text) = cut(behind(b"TASK ", line)?)?;
    if !is_name(name) {
        return None;
    }
    Some(TaskLine {
        name,
        state: state(text)?,
    })
}

fn named(alloc: Global, name: &[u8]) -> Result<Name, Memory>
    requires { IsNameLength (length name.now) }
    ensures { IfOk result (λ n. n ≡ name.now) }
{
    match Name::new(alloc, name)? {
        Some(name) => Ok(name),
        None => unreachable!(),
    }
}

/// The task whose line this is, if it is one's.
pub fn task(alloc: Global, line: &[u8]) -> Result<Option<ReportedTask>, Memory>
    ensures { IfOk result (λ t. t ≡ spec.task_in line.now) }
{
    let Some(words) = task_line(line) else {
        return Ok(None);
    };
    let name = named(alloc, words.name)?;
    Ok(Some(ReportedTask {
        name,
        state: words.state,
    }))
}

/// What stands behind the kind of an instruction's fault.
#[tactic(auto, unfolding(crate::specs::Reading::kind_behind))]
fn kind_behind(text: &[u8]) -> Option<&[u8]>
    ensures { Gives (λ it. it.now) result (spec.kind_behind text.now) }
{
    if let Some(place) = behind(b"ODD ", text) {
        return Some(place);
    }
    if let Some(place) = behind(b"RESERVED ", text) {
        return Some(place);
    }
    if let Some(place) = behind(b"ACCESS ", text) {
        return Some(place);
    }
    behind(b"BADJUMP ", text)
}

/// The digits of the place in the fault line of an instruction.
#[tactic(auto, unfolding(crate::specs::Reading::place_in))]
fn place(line: &[u8]) -> Option<&[u8]>
    ensures { Gives (λ it. it.now) result (spec.place_in line.now) }
{
    let (name, text) = cut(behind(b"FAULT 4 ", line)?)?;
    if !is_name(name) {
        return None;
    }
    unended(kind_behind(text)?)
}

fn is_machine_fault(line: &[u8]) -> bool
    ensures { result ≡ spec.is_place (spec.place_in line.now) }
{
    match place(line) {
        Some(digits) => is_octal(digits),
        None => false,
    }
}

/// Whether the line is the fault line behind a report of this status.
#[tactic(auto, unfolding(crate::specs::Reading::is_fault))]
pub fn is_fault(status: u8, line: &[u8]) -> bool
    ensures { result ≡ spec.is_fault status line.now }
{
    match status {
        4 => is_machine_fault(line),
        20 => is_same(line, b"FAULT 20 INPUT\n"),
        21 => is_same(line, b"FAULT 21 OUTPUT\n"),
        _ => false,
    }
}
