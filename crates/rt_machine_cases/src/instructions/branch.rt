//! Branches, for all settings of the flags.

use crate::flat::CLEAR;
use crate::instructions::setting::{memory_of, set_flags};
use pdp_core::{FlatBus, Regs, Stop, step};
use rt_words::{Memory, Text};
use std::alloc::Global;

/// The settings of N, Z, V and C, in octal digits.
const SETTINGS: [u16; 16] = [
    0o0000, 0o0001, 0o0010, 0o0011, 0o0100, 0o0101, 0o0110, 0o0111, 0o1000, 0o1001, 0o1010, 0o1011,
    0o1100, 0o1101, 0o1110, 0o1111,
];

/// For each setting 1 where the branch is taken to 6, 0 where it isn't, and ? where anything else has changed.
pub fn describe_branch(alloc: Global, code: &str, out: &mut Text) -> Result<(), Memory> {
    match memory_of(alloc, code, 0, None)? {
        Some(mut bus) => tell_branch(&mut bus, out),
        None => out.push_all(b"a branch is an octal number"),
    }
}

fn tell_branch(bus: &mut FlatBus, out: &mut Text) -> Result<(), Memory> {
    for nzvc in &SETTINGS {
        out.push(branched(bus, *nzvc))?;
    }
    Ok(())
}

fn branched(bus: &mut FlatBus, nzvc: u16) -> u8 {
    let mut after = CLEAR;
    set_flags(&mut after, nzvc);
    let mut taken = after;
    taken.r[7] = 6;
    let mut passed = after;
    passed.r[7] = 2;
    let stop = step(&mut after, bus);
    if stop != Stop::Went {
        return b'?';
    }
    told(&after, &taken, &passed)
}

fn told(after: &Regs, taken: &Regs, passed: &Regs) -> u8 {
    if same(after, taken) {
        b'1'
    } else if same(after, passed) {
        b'0'
    } else {
        b'?'
    }
}

/// Whether all registers and flags are the same.
fn same(one: &Regs, other: &Regs) -> bool {
    one.r == other.r && one.n == other.n && one.z == other.z && one.v == other.v && one.c == other.c
}
