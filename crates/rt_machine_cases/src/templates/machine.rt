//! The machine of the cases: support code from address 0 on, the template at its address, values on the stack.

use crate::flat::{ALL, CLEAR, put_words};
use crate::numbers::word;
use crate::templates::addresses::{BLOCK, FRAME, STACK, TEMPLATE, put_addresses};
use crate::templates::template::template_of;
use pdp_core::{Bus, FlatBus, Protection, Regs, Stop, step};
use rt_icode::Ins;
use rt_templates::{ProcCode, Support, support};
use rt_words::Memory;
use std::alloc::Global;

/// The memory, the registers, and the marks of all words of the code.
#[derive(Drop)]
pub struct Machine {
    pub bus: FlatBus,
    pub regs: Regs,
    pub support: Support,
    pub code: ProcCode,
    pub steps: u32,
}

/// How a template ends.
pub enum End {
    /// At the words behind it.
    Next,
    /// At an address.
    At(u16),
    Trap(u8),
    Fault,
    /// It didn't end.
    Endless,
}

/// The registers at the start, where the stack has no values.
const START: Regs = Regs {
    r: [0, 0, 0, 0, BLOCK, FRAME, STACK, TEMPLATE],
    ..CLEAR
};

impl Machine {
    /// A machine with the template of an instruction, whose stack has no values.
    pub fn open(alloc: Global, ins: &Ins) -> Result<Machine, Memory> {
        let support = support(alloc)?;
        let code = template_of(alloc, ins)?;
        let mut bus = FlatBus::new(alloc, ALL)?;
        lay_down(&mut bus, &support, &code);
        Ok(Machine {
            bus,
            regs: START,
            support,
            code,
            steps: 0,
        })
    }

    /// Puts a value.
    pub fn push(&mut self, value: u16) {
        self.regs.r[6] = self.regs.r[6].wrapping_sub(2);
        self.set(self.regs.r[6], value);
    }

    /// Puts a word into the memory.
    pub fn set(&mut self, at: u16, value: u16) {
        let _ = self.bus.write_word(at, value);
    }

    /// The word at an address.
    pub fn get(&mut self, at: u16) -> u16 {
        self.bus.read_word(at).unwrap_or(0)
    }

    // The mark of the word at an address; none where no code stands there.
    fn mark(&self, at: u16) -> Option<u8> {
        let place = usize::from(at / 2);
        match self.support.marks.get(place) {
            Some(mark) => Some(*mark),
            None => {
                let place = usize::from(at.wrapping_sub(TEMPLATE) / 2);
                self.code.marks.get(place).copied()
            }
        }
    }

    /// Carries out the template to its end.
    pub fn run(&mut self) -> End {
        self.bus.protection = Protection {
            code_end: 0o2000,
            ..ALL
        };
        for _turn in 0..1000 {
            let at = self.regs.r[7];
            let Some(mark) = self.mark(at) else {
                return self.end_at(at);
            };
            self.steps = self.steps.wrapping_add(u32::from(mark));
            match step(&mut self.regs, &mut self.bus) {
                Stop::Went => {}
                Stop::Trap(number) => return End::Trap(number),
                Stop::Fault(_, _) => return End::Fault,
            }
        }
        End::Endless
    }

    fn end_at(&self, at: u16) -> End {
        let end = TEMPLATE.wrapping_add(word(self.code.words.len()).wrapping_mul(2));
        if at == end { End::Next } else { End::At(at) }
    }
}

fn lay_down(bus: &mut FlatBus, support: &Support, code: &ProcCode) {
    put_words(bus, 0, support.words.as_slice());
    put_words(bus, TEMPLATE, code.words.as_slice());
    put_addresses(bus, code, support.entries.as_slice());
}
