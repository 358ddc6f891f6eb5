//! Fault lines, and the reports of refusals.

ghost use Rattle.std.specs.Prelude.{◌≡◌, ◌≤◌, ◌++◌, ◌∷◌, [], IfOk, OnOk, IsOk, length, codes, decimal, map};
ghost use Rattle.rt_report.specs.Lines.{line, text_of, texts_of};
ghost use Rattle.rt_report.specs.Faults as spec;
ghost use Rattle.rt_report.specs.declared.fault.FaultLine.TheVariants as fault;

use crate::fault::{FaultLine, FileKind, Form, ProcName, TextFault};
use crate::line::put_line;
use crate::word::Word;
use pdp_core::Kind;
use rt_words::{List, Memory, Name, Text, octal6};
use std::alloc::Global;

/// The word that begins a fault line.
const FAULT: Word<'static> = Word::Text(b"FAULT");

fn number_of(fault: TextFault) -> u64
    ensures { result ≡ spec.number_of fault }
{
    match fault {
        TextFault::BadCharacter => 1,
        TextFault::NumberTooLarge => 2,
        TextFault::OpenString => 3,
        TextFault::OpenComment => 4,
        TextFault::BadInsert => 5,
        TextFault::BadLet => 6,
        TextFault::TooManyItems => 7,
        TextFault::LeftOutWord => 8,
        TextFault::Syntax => 10,
        TextFault::UnknownName => 20,
        TextFault::WrongMode => 21,
        TextFault::NotAssignable => 22,
        TextFault::WrongCount => 23,
        TextFault::ReferenceOfLocal => 24,
        TextFault::DeclaredTwice => 26,
        TextFault::BadStart => 27,
        TextFault::UnknownLabel => 28,
        TextFault::NoResult => 29,
    }
}

fn form_number(form: Form) -> u64
    ensures { result ≡ spec.form_number form }
{
    match form {
        Form::Label => 1,
        Form::Recovery => 2,
        Form::Whole => 3,
        Form::Array => 4,
    }
}

fn file_status(kind: FileKind) -> u8
    ensures { result ≡ spec.file_status kind }
{
    match kind {
        FileKind::Module => 11,
        FileKind::Object => 12,
        FileKind::Lines => 13,
        FileKind::Image => 15,
    }
}

/// The name of a kind of machine fault.
pub(crate) fn kind_text(kind: Kind) -> &'static str
    ensures { result.now ≡ spec.kind_text kind }
{
    match kind {
        Kind::Odd => "ODD",
        Kind::Reserved => "RESERVED",
        Kind::Access => "ACCESS",
        Kind::BadJump => "BADJUMP",
    }
}

/// The status that goes with a fault.
pub fn fault_status(fault: &FaultLine) -> u8
    ensures { result ≡ spec.status_of fault.now }
{
    match fault {
        FaultLine::Words => 10,
        FaultLine::Text { .. } | FaultLine::LeftOut { .. } | FaultLine::ProcTooLong { .. } => 11,
        FaultLine::TooLong { kind, .. } => file_status(*kind),
        FaultLine::BadObject { .. } | FaultLine::ObjectVersion { .. } => 12,
        FaultLine::BadLine { .. } | FaultLine::ObjectLine { .. } => 13,
        FaultLine::BadImage { .. } => 15,
        FaultLine::Duplicate { .. }
        | FaultLine::Missing { .. }
        | FaultLine::Mismatch { .. }
        | FaultLine::NotSupplied { .. }
        | FaultLine::Recursion { .. }
        | FaultLine::SmallStack { .. }
        | FaultLine::BadTask { .. }
        | FaultLine::NoRoom { .. } => 14,
        FaultLine::Unread { .. } | FaultLine::Input => 20,
        FaultLine::Output => 21,
        FaultLine::Machine { .. } => 4,
    }
}

/// FAULT, a status, a file, what stands there, a word and a number.
fn put_place<'a>(
    out: &mut Text,
    file: &'a [u8],
    numbers: (u64, u64),
    word: &'a str,
    at: u64,
) -> Result<(), Memory>
    ensures { OnOk result (out.new.items ≡ out.old.items ++ line (codes "FAULT" ∷ decimal numbers.0 ∷ file.now ∷ decimal numbers.1 ∷ word.now ∷ decimal at ∷ [])) }
{
    let words = [
        Word::Number(numbers.0),
        Word::Text(file),
        Word::Number(numbers.1),
        Word::Text(word.as_bytes()),
        Word::Number(at),
    ];
    put_line(out, FAULT, &words)
}

fn name_word(procedure: &ProcName) -> Word<'_>
    ensures { text_of result ≡ spec.name_of procedure.now }
{
    match &procedure.title {
        Some(title) => Word::Dotted(title.as_slice(), procedure.name.as_slice()),
        None => Word::Text(procedure.name.as_slice()),
    }
}

fn put_cycle(alloc: Global, out: &mut Text, cycle: &[ProcName]) -> Result<(), Memory>
    ensures { OnOk result (out.new.items ≡ out.old.items ++ line (codes "FAULT" ∷ decimal 14 ∷ decimal 64 ∷ map spec.name_of cycle.now)) }
{
    let mut words = List::new(alloc, cycle.len())?;
    words.push(Word::Number(14))?;
    words.push(Word::Number(64))?;
    for procedure in cycle {
        words.push(name_word(procedure))?;
    }
    put_line(out, FAULT, words.as_slice())
}

fn put_brick<'a>(out: &mut Text, number: u64, file: &'a [u8], brick: &'a Name) -> Result<(), Memory>
    ensures { OnOk result (out.new.items ≡ out.old.items ++ line (codes "FAULT" ∷ decimal 14 ∷ decimal number ∷ file.now ∷ brick.now ∷ [])) }
{
    let words = [
        Word::Number(14),
        Word::Number(number),
        Word::Text(file),
        Word::Text(brick.as_slice()),
    ];
    put_line(out, FAULT, &words)
}

fn put_counted(out: &mut Text, number: u64, word: &str, count: u64) -> Result<(), Memory>
    ensures { OnOk result (out.new.items ≡ out.old.items ++ line (codes "FAULT" ∷ decimal 14 ∷ decimal number ∷ word.now ∷ decimal count ∷ [])) }
{
    let words = [
        Word::Number(14),
        Word::Number(number),
        Word::Text(word.as_bytes()),
        Word::Number(count),
    ];
    put_line(out, FAULT, &words)
}

/// A fault of the console.
pub(crate) fn put_console(out: &mut Text, status: u64, stream: &str) -> Result<(), Memory>
    ensures items { OnOk result (out.new.items ≡ out.old.items ++ line (spec.console_words status stream.now)) }
    ensures room { length (line (spec.console_words status stream.now)) ≤ out.old.spare → IsOk result }
{
    let words = [Word::Number(status), Word::Text(stream.as_bytes())];
    put_line(out, FAULT, &words)
}

fn put_mismatch<'a>(
    out: &mut Text,
    file: &'a [u8],
    brick: &'a Name,
    wanted: &'a [u8],
    found: &'a [u8],
) -> Result<(), Memory>
    ensures { OnOk result (out.new.items ≡ out.old.items ++ spec.fault_text (fault.Mismatch file.now brick.now wanted.now found.now)) }
{
    let words = [
        Word::Number(14),
        Word::Number(62),
        Word::Text(file),
        Word::Text(brick.as_slice()),
        Word::Text(b"WANTED"),
        Word::Text(wanted),
        Word::Text(b"FOUND"),
        Word::Text(found),
    ];
    put_line(out, FAULT, &words)
}

fn put_small_stack(out: &mut Text, task: &Name, need: u32, has: u16) -> Result<(), Memory>
    ensures { OnOk result (out.new.items ≡ out.old.items ++ spec.fault_text (fault.SmallStack task.now need has)) }
{
    let words = [
        Word::Number(14),
        Word::Number(65),
        Word::Text(task.as_slice()),
        Word::Text(b"NEED"),
        Word::Number(u64::from(need)),
        Word::Text(b"HAS"),
        Word::Number(u64::from(has)),
    ];
    put_line(out, FAULT, &words)
}

fn put_left_out(out: &mut Text, file: &[u8], line: u32, form: Form) -> Result<(), Memory>
    ensures { OnOk result (out.new.items ≡ out.old.items ++ spec.fault_text (fault.LeftOut file.now line form)) }
{
    let words = [
        Word::Number(11),
        Word::Text(file),
        Word::Number(25),
        Word::Text(b"LINE"),
        Word::Number(u64::from(line)),
        Word::Text(b"FORM"),
        Word::Number(form_number(form)),
    ];
    put_line(out, FAULT, &words)
}

fn put_machine_words<'a>(
    out: &mut Text,
    task: &'a [u8],
    kind: &'a str,
    at: &'a [u8],
) -> Result<(), Memory>
    ensures items { OnOk result (out.new.items ≡ out.old.items ++ line (codes "FAULT" ∷ decimal 4 ∷ task.now ∷ kind.now ∷ at.now ∷ [])) }
    ensures room { length (line (codes "FAULT" ∷ decimal 4 ∷ task.now ∷ kind.now ∷ at.now ∷ [])) ≤ out.old.spare → IsOk result }
{
    let words = [
        Word::Number(4),
        Word::Text(task),
        Word::Text(kind.as_bytes()),
        Word::Text(at),
    ];
    put_line(out, FAULT, &words)
}

/// A fault of the machine.
pub(crate) fn put_machine(out: &mut Text, task: &[u8], kind: Kind, at: u16) -> Result<(), Memory>
    ensures items { OnOk result (out.new.items ≡ out.old.items ++ line (spec.machine_words task.now kind at)) }
    ensures room { length (line (spec.machine_words task.now kind at)) ≤ out.old.spare → IsOk result }
{
    let at = octal6(at);
    put_machine_words(out, task, kind_text(kind), &at)
}

/// Writes a fault line.
fn put_fault_line(alloc: Global, out: &mut Text, fault: &FaultLine) -> Result<(), Memory>
    ensures { OnOk result (out.new.items ≡ out.old.items ++ spec.fault_text fault.now) }
{
    match fault {
        FaultLine::Words => put_line(out, FAULT, &[Word::Number(10)]),
        FaultLine::Text { file, fault, line } => put_place(
            out,
            file.as_slice(),
            (11, number_of(*fault)),
            "LINE",
            u64::from(*line),
        ),
        FaultLine::LeftOut { file, line, form } => put_left_out(out, file.as_slice(), *line, *form),
        FaultLine::ProcTooLong { file, procedure } => {
            let words = [
                Word::Number(11),
                Word::Text(file.as_slice()),
                Word::Number(30),
                Word::Text(b"PROC"),
                Word::Text(procedure.as_slice()),
            ];
            put_line(out, FAULT, &words)
        }
        FaultLine::TooLong { kind, file } => {
            let words = [
                Word::Number(u64::from(file_status(*kind))),
                Word::Text(file.as_slice()),
                Word::Number(80),
            ];
            put_line(out, FAULT, &words)
        }
        FaultLine::BadObject { file, at } => {
            put_place(out, file.as_slice(), (12, 40), "AT", *at)
        }
        FaultLine::ObjectVersion { file, found } => {
            put_place(out, file.as_slice(), (12, 41), "FOUND", u64::from(*found))
        }
        FaultLine::BadLine { file, line } => {
            put_place(out, file.as_slice(), (13, 50), "LINE", u64::from(*line))
        }
        FaultLine::ObjectLine { file, line } => {
            put_place(out, file.as_slice(), (13, 51), "LINE", u64::from(*line))
        }
        FaultLine::BadImage { file, at } => { put_place(out, file.as_slice(), (15, 70), "AT", *at) }
        FaultLine::Duplicate { brick } => put_line(
            out,
            FAULT,
            &[
                Word::Number(14),
                Word::Number(60),
                Word::Text(brick.as_slice()),
            ],
        ),
        FaultLine::Missing { file, brick } => put_brick(out, 61, file.as_slice(), brick),
        FaultLine::Mismatch {
            file,
            brick,
            wanted,
            found,
        } => put_mismatch(
            out,
            file.as_slice(),
            brick,
            wanted.as_slice(),
            found.as_slice(),
        ),
        FaultLine::NotSupplied { file, brick } => put_brick(out, 63, file.as_slice(), brick),
        FaultLine::Recursion { cycle } => put_cycle(alloc, out, cycle.as_slice()),
        FaultLine::SmallStack { task, need, has } => put_small_stack(out, task, *need, *has),
        FaultLine::BadTask { line } => put_counted(out, 66, "LINE", u64::from(*line)),
        FaultLine::NoRoom { bytes } => put_counted(out, 67, "BYTES", *bytes),
        FaultLine::Unread { file } => put_line(
            out,
            FAULT,
            &[Word::Number(20), Word::Text(file.as_slice())],
        ),
        FaultLine::Input => put_console(out, 20, "INPUT"),
        FaultLine::Output => put_console(out, 21, "OUTPUT"),
        FaultLine::Machine { task, kind, at } => put_machine(out, task.as_slice(), *kind, *at),
    }
}

/// A fault line, ended.
///
/// # Errors
///
/// Want of memory alone.
pub fn fault_line(alloc: Global, fault: &FaultLine) -> Result<Text, Memory>
    ensures { IfOk result (λ t. t.items ≡ spec.fault_text fault.now) }
{
    let mut out = Text::new(alloc, 0)?;
    put_fault_line(alloc, &mut out, fault)?;
    Ok(out)
}

/// The report of a refusal: the line `STATUS s`, and the fault line.
///
/// # Errors
///
/// Want of memory alone.
pub fn refusal_report(alloc: Global, fault: &FaultLine) -> Result<Text, Memory>
    ensures { IfOk result (λ t. t.items ≡ spec.refusal_text fault.now) }
{
    let status = u64::from(fault_status(fault));
    let mut out = Text::new(alloc, 0)?;
    put_line(&mut out, Word::Text(b"STATUS"), &[Word::Number(status)])?;
    put_fault_line(alloc, &mut out, fault)?;
    Ok(out)
}
