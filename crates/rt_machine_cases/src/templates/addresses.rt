//! Where things stand in the memory of the cases, and the addresses that words of code wait for.

use pdp_core::{Bus, FlatBus};
use rt_object::{Relocated, Relocation};
use rt_templates::ProcCode;

/// The frame, and the task's block.
pub const FRAME: u16 = 0o20000;

pub const BLOCK: u16 = 0o20100;

/// Where the procedure stands whose instructions are run.
pub const PROCEDURE: u16 = 0o1000;

/// Where the template stands.
pub const TEMPLATE: u16 = PROCEDURE + 0o200;

/// With no values SP stands here: the frame has six locals.
pub const STACK: u16 = FRAME - 0o14;

/// Puts the addresses of bricks, strings and routines into the template's words that wait for them.
pub fn put_addresses(bus: &mut FlatBus, code: &ProcCode, entries: &[u16]) {
    for relocation in code.relocations.as_slice() {
        put_address(bus, *relocation, entries);
    }
}

fn put_address(bus: &mut FlatBus, relocation: Relocation, entries: &[u16]) {
    let at = TEMPLATE.wrapping_add(relocation.place.wrapping_mul(2));
    let address = address(entries, relocation.of).wrapping_add(relocation.offset);
    let _ = bus.write_word(at, address);
}

// The address that a word waits for.
fn address(entries: &[u16], of: Relocated) -> u16 {
    match of {
        Relocated::Brick(1) => PROCEDURE,
        Relocated::Brick(number) => number.wrapping_mul(0o400).wrapping_add(0o4000),
        Relocated::String(number) => number.wrapping_mul(0o20).wrapping_add(0o3000),
        Relocated::Support(number) => {
            let place = usize::from(number.wrapping_sub(1));
            entries.get(place).copied().unwrap_or(0)
        }
    }
}
