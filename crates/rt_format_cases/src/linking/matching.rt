//! Bindings and faults of matching, as they are told.

ghost use Rattle.std.specs.Prelude.{◌≤◌, length};

use crate::told::{tell_count, tell_number};
use rt_match::{Bindings, Bound, MatchFault, match_all};
use rt_object::Object;
use rt_words::{Memory, Text};
use std::alloc::Global;

/// Tells the bindings of objects, or the fault.
pub fn tell_bindings(alloc: Global, objects: &[Object], out: &mut Text) -> Result<(), Memory>
    requires { length objects.now ≤ 64 }
{
    match match_all(alloc, objects) {
        Ok(bindings) => tell_modules(&bindings, out),
        Err(fault) => tell_fault(&fault, out),
    }
}

fn tell_modules(bindings: &Bindings, out: &mut Text) -> Result<(), Memory> {
    for module in bindings.of.as_slice() {
        tell_bounds(module.as_slice(), out)?;
    }
    Ok(())
}

fn tell_bounds(bounds: &[Bound], out: &mut Text) -> Result<(), Memory> {
    out.push(b'[')?;
    for bound in bounds {
        out.push(b' ')?;
        tell_bound(*bound, out)?;
    }
    out.push_all(b" ]")
}

fn tell_bound(bound: Bound, out: &mut Text) -> Result<(), Memory> {
    match bound {
        Bound::Own => out.push_all(b"own"),
        Bound::Brick(module, brick) => {
            tell_number(u64::from(module), out)?;
            tell_count(".", u64::from(brick), out)
        }
        Bound::Supplied(number) => tell_count("supplied ", u64::from(number), out),
    }
}

/// Tells why objects don't match.
pub fn tell_fault(fault: &MatchFault, out: &mut Text) -> Result<(), Memory> {
    match fault {
        MatchFault::Memory => Err(Memory),
        MatchFault::Duplicate { brick } => {
            out.push_all(b"twice ")?;
            out.push_all(brick.as_slice())
        }
        MatchFault::Missing { module, brick } => {
            tell_brick("missing ", *module, brick.as_slice(), out)
        }
        MatchFault::Mismatch {
            module,
            brick,
            wanted,
            found,
        } => {
            tell_brick("differs ", *module, brick.as_slice(), out)?;
            tell_modes(wanted.as_slice(), found.as_slice(), out)
        }
        MatchFault::NotSupplied { module, brick } => {
            tell_brick("not supplied ", *module, brick.as_slice(), out)
        }
    }
}

fn tell_brick(what: &str, module: u16, brick: &[u8], out: &mut Text) -> Result<(), Memory> {
    tell_count(what, u64::from(module), out)?;
    out.push(b' ')?;
    out.push_all(brick)
}

fn tell_modes(wanted: &[u8], found: &[u8], out: &mut Text) -> Result<(), Memory> {
    out.push_all(b" WANTED ")?;
    out.push_all(wanted)?;
    out.push_all(b" FOUND ")?;
    out.push_all(found)
}
