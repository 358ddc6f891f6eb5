//! The code of an image by single instructions over a flat memory, beside which a run is measured.

use crate::flat::{ALL, CLEAR, put_words};
use crate::numbers::{first, tell_number, tell_octal};
use crate::runs::images::image_of;
use pdp_core::{Bus, FlatBus, Protection, Regs, Stop, step};
use rt_image::{ImageParts, ImageTask};
use rt_words::{Memory, Text};
use std::alloc::Global;

/// So many instructions of the first task of an image, up to one that asks for a service or faults.
pub fn describe_flat(alloc: Global, written: &str, out: &mut Text) -> Result<(), Memory> {
    let (count, text) = first(written);
    let count = count.parse::<u64>().unwrap_or(0);
    match image_of(alloc, text, out)? {
        Some(image) => run(alloc, image.parts(), count, out),
        None => Ok(()),
    }
}

fn run(alloc: Global, parts: &ImageParts, count: u64, out: &mut Text) -> Result<(), Memory> {
    let mut bus = FlatBus::new(alloc, ALL)?;
    run_over(&mut bus, parts, count, out)
}

fn run_over(
    bus: &mut FlatBus,
    parts: &ImageParts,
    count: u64,
    out: &mut Text,
) -> Result<(), Memory> {
    let code_end = put_words(bus, 0, parts.code.as_slice());
    let data_end = put_bytes(bus, code_end, parts.bytes.as_slice());
    let Some(task) = parts.tasks.as_slice().first() else {
        return out.push_all(b"no task");
    };
    let mut regs = begin(bus, code_end, data_end, task);
    let went = steps(&mut regs, bus, count);
    tell_number("", went, out)?;
    out.push_all(b" went; PC ")?;
    tell_octal(regs.r[7], out)
}

/// The registers of a task at the start, and what it may use of the memory.
fn begin(bus: &mut FlatBus, code_end: u16, data_end: u16, task: &ImageTask) -> Regs {
    let brick = put_words(bus, data_end, &task.block);
    let brick_end = brick.wrapping_add(task.stack.wrapping_mul(2));
    bus.protection = Protection {
        code_end,
        data_end,
        block: data_end,
        brick,
        brick_end,
    };
    Regs {
        r: [0, 0, 0, 0, data_end, 0, brick_end, task.entry],
        ..CLEAR
    }
}

/// How many of so many instructions were carried out.
fn steps(regs: &mut Regs, bus: &mut FlatBus, count: u64) -> u64 {
    for n in 0..count {
        match step(regs, bus) {
            Stop::Went => {}
            _ => return n,
        }
    }
    count
}

/// Lays bytes down from an address on, and answers the one behind them.
fn put_bytes(bus: &mut FlatBus, from: u16, bytes: &[u8]) -> u16 {
    let mut at = from;
    for byte in bytes {
        let _ = bus.write_byte(at, *byte);
        at = at.wrapping_add(1);
    }
    at
}
