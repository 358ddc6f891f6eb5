//! The fault lines of modules' texts.

ghost use Rattle.std.specs.Prelude.{◌≡◌, Some, option_map};
ghost use Rattle.rt_report.specs.declared.fault.FaultLine.TheVariants as fault;
ghost use Rattle.rt_accept.specs.Faulting as spec;
ghost use Rattle.rt_accept.specs.Faulting.{IsToldBy};

use crate::reading::{Unaccepted, name_of};
use rt_check_faults::CheckFault;
use rt_compile::CompileFault;
use rt_pieces::TextFault as ItemFault;
use rt_report::{FaultLine, Form, TextFault};
use rt_words::Name;
use std::alloc::Global;

/// What a fault line tells of a text's fault, and its line.
#[derive(Clone, Copy)]
pub enum Told {
    Text(TextFault, u32),
    LeftOut(Form, u32),
}

fn items_told(fault: &ItemFault) -> Option<Told>
    ensures { result ≡ spec.items_told fault.now }
{
    let (fault, line) = match fault {
        ItemFault::Memory => return None,
        ItemFault::BadCharacter(line) => (TextFault::BadCharacter, *line),
        ItemFault::NumberTooLarge(line) => (TextFault::NumberTooLarge, *line),
        ItemFault::OpenString(line) => (TextFault::OpenString, *line),
        ItemFault::OpenComment(line) => (TextFault::OpenComment, *line),
        ItemFault::BadInsert(line) => (TextFault::BadInsert, *line),
        ItemFault::BadLet(line) => (TextFault::BadLet, *line),
        ItemFault::TooManyItems(line) => (TextFault::TooManyItems, *line),
        ItemFault::LeftOutWord(line) => (TextFault::LeftOutWord, *line),
    };
    Some(Told::Text(fault, line))
}

/// The form of the language that has this number.
fn form_numbered(number: u8) -> Option<Form>
    ensures { result ≡ spec.form_numbered number }
{
    match number {
        1 => Some(Form::Label),
        2 => Some(Form::Recovery),
        3 => Some(Form::Whole),
        4 => Some(Form::Array),
        _ => None,
    }
}

fn check_told(fault: CheckFault) -> Option<Told>
    ensures { result ≡ spec.check_told fault }
{
    let (fault, at) = match fault {
        CheckFault::Memory | CheckFault::Unknown => return None,
        CheckFault::UnknownName(at) => (TextFault::UnknownName, at),
        CheckFault::WrongMode(at) => (TextFault::WrongMode, at),
        CheckFault::NotAssignable(at) => (TextFault::NotAssignable, at),
        CheckFault::WrongCount(at) => (TextFault::WrongCount, at),
        CheckFault::RefOfLocal(at) => (TextFault::ReferenceOfLocal, at),
        CheckFault::LeftOut { form, at } => {
            return match form_numbered(form) {
                Some(form) => Some(Told::LeftOut(form, at.line)),
                None => None,
            };
        }
        CheckFault::DeclaredTwice(at) => (TextFault::DeclaredTwice, at),
        CheckFault::BadStart(at) => (TextFault::BadStart, at),
        CheckFault::UnknownLabel(at) => (TextFault::UnknownLabel, at),
        CheckFault::NoResult(at) => (TextFault::NoResult, at),
    };
    Some(Told::Text(fault, at.line))
}

fn refused(alloc: Global, name: &str, told: Option<Told>) -> Unaccepted
    ensures { IsToldBy (option_map (spec.told_line name.now) told) result }
{
    let Ok(file) = name_of(alloc, name) else {
        return Unaccepted::Memory;
    };
    match told {
        Some(Told::Text(fault, line)) => {
            Unaccepted::Refused(FaultLine::Text { file, fault, line })
        }
        Some(Told::LeftOut(form, line)) => {
            Unaccepted::Refused(FaultLine::LeftOut { file, line, form })
        }
        None => Unaccepted::Memory,
    }
}

fn too_long(alloc: Global, name: &str, procedure: Name) -> Unaccepted
    ensures { IsToldBy (Some (fault.ProcTooLong name.now procedure)) result }
{
    match name_of(alloc, name) {
        Ok(file) => Unaccepted::Refused(FaultLine::ProcTooLong { file, procedure }),
        Err(_) => Unaccepted::Memory,
    }
}

/// Why the file of a text isn't accepted that has this fault.
pub fn not_compiled(alloc: Global, name: &str, fault: CompileFault) -> Unaccepted
    ensures { IsToldBy (spec.line_of name.now fault) result }
{
    match fault {
        CompileFault::Memory | CompileFault::Beyond => Unaccepted::Memory,
        CompileFault::Text(fault) => refused(alloc, name, items_told(&fault)),
        CompileFault::Syntax { line } => {
            refused(alloc, name, Some(Told::Text(TextFault::Syntax, line)))
        }
        CompileFault::Check(fault) => refused(alloc, name, check_told(fault)),
        CompileFault::ProcTooLong { proc } => too_long(alloc, name, proc),
    }
}
