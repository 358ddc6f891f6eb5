//! The lines of a module's faults.

ghost use Rattle.std.specs.Prelude.{◌≡◌};
ghost use Rattle.rt_check.specs.Texts as spec;

use rt_check_faults::CheckFault;
use rt_grammar::At;
use rt_pieces::Item;

/// The same fault, at the line of its item, of which the number is counted from 0 over these.
pub fn in_lines(items: &[Item], fault: CheckFault) -> CheckFault
    ensures { result ≡ spec.in_lines items.now fault }
{
    match fault {
        CheckFault::Memory => CheckFault::Memory,
        CheckFault::UnknownName(at) => CheckFault::UnknownName(in_line(items, at)),
        CheckFault::WrongMode(at) => CheckFault::WrongMode(in_line(items, at)),
        CheckFault::NotAssignable(at) => CheckFault::NotAssignable(in_line(items, at)),
        CheckFault::WrongCount(at) => CheckFault::WrongCount(in_line(items, at)),
        CheckFault::RefOfLocal(at) => CheckFault::RefOfLocal(in_line(items, at)),
        CheckFault::LeftOut { form, at } => CheckFault::LeftOut {
            form,
            at: in_line(items, at),
        },
        CheckFault::DeclaredTwice(at) => CheckFault::DeclaredTwice(in_line(items, at)),
        CheckFault::BadStart(at) => CheckFault::BadStart(in_line(items, at)),
        CheckFault::UnknownLabel(at) => CheckFault::UnknownLabel(in_line(items, at)),
        CheckFault::NoResult(at) => CheckFault::NoResult(in_line(items, at)),
        CheckFault::Unknown => CheckFault::Unknown,
    }
}

// The same item, at its line.
fn in_line(items: &[Item], at: At) -> At
    ensures { result ≡ spec.in_line items.now at }
{
    match items.get(usize::from(at.item)) {
        Some(item) => At {
            item: at.item,
            line: item.line,
        },
        None => At {
            item: at.item,
            line: 1,
        },
    }
}
