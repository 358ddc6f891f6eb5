//! Reports of runs.

ghost use Rattle.std.specs.Prelude.{◌≡◌, ◌≤◌, ◌+◌, ◌*◌, ◌++◌, ◌∷◌, [], length, decimal, codes, IfOk};
ghost use Rattle.rt_rules.specs.Roster.{IsTask};
ghost use Rattle.rt_report.specs.Faults.{machine_words};
ghost use Rattle.rt_report.specs.Lines.{line, lines, text_of, texts_of};
ghost use Rattle.rt_report.specs.Reports as spec;

use crate::faults::{put_console, put_machine};
use crate::line::put_line;
use crate::word::Word;
use pdp_core::Kind;
use rt_rules::State;
use rt_run::{End, Run};
use rt_words::{Memory, Name, Text};
use std::alloc::Global;

/// An empty text with room for each report of a run of tasks of these names, with at most so many ticks.
///
/// # Errors
///
/// Want of memory alone.
pub fn report_room(alloc: Global, names: &[Name], ticks: u32) -> Result<Text, Memory>
    requires few { length names.now ≤ 32 }
    requires short { ticks ≤ 200000 }
    ensures empty { IfOk result (λ t. t.items ≡ []) }
    ensures room { IfOk result (λ t. spec.room_for names.now ticks ≤ t.spare) }
{
    let mut room = 200 + 27 * ticks as usize;
    for name in names {
        room += 2 * (name.as_slice().len() + 22);
    }
    Text::new(alloc, room)
}

/// Writes a line of words for which there is room.
fn write_line(out: &mut Text, first: Word<'_>, rest: &[Word<'_>])
    requires { length (line (text_of first ∷ texts_of rest.now)) ≤ out.old.spare }
    ensures items { out.new.items ≡ out.old.items ++ line (text_of first.entry ∷ texts_of rest.now) }
    ensures spare { out.old.spare ≤ out.new.spare + length (line (text_of first.entry ∷ texts_of rest.now)) }
{
    put_line(out, first, rest).unwrap()
}

/// Writes a word and a number.
fn write_count(out: &mut Text, word: &str, number: u64)
    requires { length word.now + 22 ≤ out.old.spare }
    ensures items { out.new.items ≡ out.old.items ++ line (spec.counted word.now number) }
    ensures spare { out.old.spare ≤ out.new.spare + (length word.now + 22) }
{
    write_line(out, Word::Text(word.as_bytes()), &[Word::Number(number)]);
}

fn number_word(number: u16) -> Word<'static>
    ensures text { text_of result ≡ decimal number }
    ensures short { length (text_of result) ≤ 6 }
{
    Word::Number(u64::from(number))
}

fn signed_word(number: u16) -> Word<'static>
    ensures text { text_of result ≡ spec.signed_text number }
    ensures short { length (text_of result) ≤ 6 }
{
    if number < 32768 {
        Word::Number(u64::from(number))
    } else {
        Word::Negative(65536 - u64::from(number))
    }
}

fn write_plain<'a>(out: &mut Text, name: &'a [u8], condition: &'a str)
    requires { length name.now + (length condition.now + 8) ≤ out.old.spare }
    ensures items { out.new.items ≡ out.old.items ++ line (codes "TASK" ∷ name.now ∷ condition.now ∷ []) }
    ensures spare { out.old.spare ≤ out.new.spare + (length name.now + (length condition.now + 8)) }
{
    let words = [Word::Text(name), Word::Text(condition.as_bytes())];
    write_line(out, Word::Text(b"TASK"), &words);
}

fn write_numbered<'a>(out: &mut Text, name: &'a [u8], condition: &'a str, number: Word<'a>)
    requires short { length (text_of number) ≤ 6 }
    requires room { length name.now + (length condition.now + 14) ≤ out.old.spare }
    ensures items { out.new.items ≡ out.old.items ++ line (codes "TASK" ∷ name.now ∷ condition.now ∷ text_of number.entry ∷ []) }
    ensures spare { out.old.spare ≤ out.new.spare + (length name.now + (length condition.now + 14)) }
{
    let words = [Word::Text(name), Word::Text(condition.as_bytes()), number];
    write_line(out, Word::Text(b"TASK"), &words);
}

fn write_task(out: &mut Text, name: &[u8], state: State)
    requires { length name.now + 22 ≤ out.old.spare }
    ensures items { out.new.items ≡ out.old.items ++ line (spec.task_words name.now state) }
    ensures spare { out.old.spare ≤ out.new.spare + (length name.now + 22) }
{
    match state {
        State::Ready => write_plain(out, name, "READY"),
        State::Delayed(n) => write_numbered(out, name, "DELAYED", number_word(n)),
        State::Event(n) => write_numbered(out, name, "EVENT", number_word(u16::from(n))),
        State::Facility(n) => write_numbered(out, name, "FACILITY", number_word(u16::from(n))),
        State::Ended => write_plain(out, name, "ENDED"),
        State::Failed(n) => write_numbered(out, name, "ERROR", signed_word(n)),
    }
}

fn write_tasks(run: &Run, names: &[Name], out: &mut Text)
    requires count { length names.now ≡ length run.now.rules.tasks }
    requires few { length names.now ≤ 32 }
    requires room { spec.names_room names.now ≤ out.old.spare }
    ensures items { out.new.items ≡ out.old.items ++ lines (spec.task_lines names.now run.now.rules.tasks) }
    ensures spare { out.old.spare ≤ out.new.spare + spec.names_room names.now }
{
    for at in 0..names.len() {
        write_task(out, names[at].as_slice(), run.state(at as u8 + 1));
    }
}

fn write_counts(run: &Run, status: u8, out: &mut Text)
    requires { 90 ≤ out.old.spare }
    ensures items { out.new.items ≡ out.old.items ++ lines (spec.count_lines status run.now) }
    ensures spare { out.old.spare ≤ out.new.spare + 90 }
{
    write_count(out, "STATUS", u64::from(status));
    write_count(out, "INSTRUCTIONS", run.instructions());
    write_count(out, "STEPS", run.steps());
}

fn write_ticks(placements: &[u64], out: &mut Text)
    requires room { 27 + 27 * length placements.now ≤ out.old.spare }
    ensures items { out.new.items ≡ out.old.items ++ lines (spec.counted (codes "TICKS") (length placements.now) ∷ spec.tick_lines placements.now) }
    ensures spare { out.old.spare ≤ out.new.spare + (27 + 27 * length placements.now) }
{
    write_count(out, "TICKS", placements.len() as u64);
    write_each_tick(placements, out);
}

fn write_each_tick(placements: &[u64], out: &mut Text)
    requires room { 27 * length placements.now ≤ out.old.spare }
    ensures items { out.new.items ≡ out.old.items ++ lines (spec.tick_lines placements.now) }
    ensures spare { out.old.spare ≤ out.new.spare + 27 * length placements.now }
{
    for placement in placements {
        write_count(out, "TICK", *placement);
    }
}

fn name_at(names: &[Name], task: u8) -> &[u8]
    ensures { result.now ≡ spec.name_at names.now task }
{
    match names.get(usize::from(task.saturating_sub(1))) {
        Some(name) => name.as_slice(),
        None => &[],
    }
}

fn write_fault(out: &mut Text, task: &[u8], kind: Kind, at: u16)
    requires { length (line (machine_words task.now kind at)) ≤ out.old.spare }
    ensures { out.new.items ≡ out.old.items ++ line (machine_words task.now kind at) }
{
    put_machine(out, task, kind, at).unwrap()
}

fn write_end(end: &End, names: &[Name], out: &mut Text)
    requires room { 60 + spec.names_room names.now ≤ out.old.spare }
    ensures items { out.new.items ≡ out.old.items ++ lines (spec.end_lines names.now end.now) }
{
    match end {
        End::Fault(task, kind, at) => write_fault(out, name_at(names, *task), *kind, *at),
        End::ReadFault => put_console(out, 20, "INPUT").unwrap(),
        End::WriteFault => put_console(out, 21, "OUTPUT").unwrap(),
        _ => {}
    }
}

fn any_failed(run: &Run, tasks: usize) -> bool
    requires count { tasks ≡ length run.now.rules.tasks }
    requires few { tasks ≤ 32 }
    ensures { result ≡ spec.any_failed run.now.rules.tasks }
{
    for at in 0..tasks {
        if matches!(run.state(at as u8 + 1), State::Failed(_)) {
            return true;
        }
    }
    false
}

fn run_status(run: &Run, end: &End, tasks: usize) -> u8
    requires count { tasks ≡ length run.now.rules.tasks }
    requires few { tasks ≤ 32 }
    ensures { result ≡ spec.run_status end.now run.now.rules.tasks }
{
    match end {
        End::Ended => u8::from(any_failed(run, tasks)),
        End::Limit => 2,
        End::Stalled => 3,
        End::Fault(_, _, _) => 4,
        End::ReadFault => 20,
        End::WriteFault => 21,
    }
}

/// Writes the report of a run that ended so, its fault line included, and answers its status. It takes no memory: the text has
/// room, as one of [`report_room`] for these names and at least as many ticks as were taken.
pub fn report(run: &Run, end: &End, names: &[Name], out: &mut Text) -> u8
    requires count { length names.now ≡ length run.now.rules.tasks }
    requires few { length names.now ≤ 32 }
    requires room { spec.room_for names.now (length run.now.ticking.placements) ≤ out.old.spare }
    ensures items { out.new.items ≡ out.old.items ++ spec.report_text names.now run.now end.now }
    ensures status { result ≡ spec.run_status end.now run.now.rules.tasks }
{
    let status = run_status(run, end, names.len());
    write_counts(run, status, out);
    write_tasks(run, names, out);
    write_ticks(run.placements(), out);
    write_end(end, names, out);
    status
}
