//! A flat memory for one task: all its bytes in one vector, with the parts of it that the task may use.

ghost use Rattle.std.specs.Prelude.{◌≡◌, ℕ, ◌+◌, ◌*◌, ◌%◌, ◌/◌, ◌<◌, ◌^◌, length, slice_index, None, IfOk};
ghost use Rattle.pdp_core.specs.World.{word_at};
ghost use Rattle.pdp_core.specs.Protection.{protected};

use crate::cpu::Refused;
use crate::memory::{Bus, MEMORY_END, Protection};
use rt_words::Memory;
use std::alloc::Global;

/// The bytes from address 0 to 157777 octal, and what the task may use of them.
#[derive(Drop)]
pub struct FlatBus {
    pub bytes: Vec<u8>,
    pub protection: Protection,
    ghost whole: { length bytes.items ≡ 57344 },
}

fn word(bytes: &[u8], at: u16) -> u16
    requires { at + 1 < length bytes.now }
    ensures { result ≡ word_at (λ a. slice_index bytes.now a) at }
{
    let low = bytes[at as usize];
    let high = bytes[at as usize + 1];
    low as u16 + 256 * high as u16
}

fn zeros(alloc: Global, room: usize) -> Result<Vec<u8>, Memory>
    ensures long { IfOk result (λ v. length v.items ≡ room) }
    ensures zeros { IfOk result (λ v. (a : ℕ) → slice_index v.items a ≡ 0) }
{
    Ok(vec![in alloc; 0; room]?)
}

impl FlatBus {
    /// A memory of zeros.
    pub fn new(alloc: Global, protection: Protection) -> Result<FlatBus, Memory>
        ensures protection { IfOk result (λ b. b.protection ≡ protection) }
        ensures zeros { IfOk result (λ b. (a : ℕ) → slice_index b.bytes.items a ≡ 0) }
    {
        let bytes = zeros(alloc, MEMORY_END as usize)?;
        Ok(FlatBus { bytes, protection })
    }
}

impl Bus for FlatBus {
    ghost world = { λ b. protected b.protection (λ a. slice_index b.bytes.items a) };

    ghost accesses = { λ _. None };

    fn fetch(&mut self, at: u16) -> Result<u16, Refused> {
        self.protection.fetch(at)?;
        Ok(word(&self.bytes, at))
    }

    fn read_word(&mut self, at: u16) -> Result<u16, Refused> {
        self.protection.use_word(at)?;
        Ok(word(&self.bytes, at))
    }

    fn read_byte(&mut self, at: u16) -> Result<u8, Refused> {
        self.protection.use_byte(at)?;
        Ok(self.bytes[at as usize])
    }

    fn write_word(&mut self, at: u16, w: u16) -> Result<(), Refused> {
        self.protection.use_word(at)?;
        self.bytes[at as usize] = (w % 256) as u8;
        self.bytes[at as usize + 1] = (w / 256) as u8;
        Ok(())
    }

    fn write_byte(&mut self, at: u16, b: u8) -> Result<(), Refused> {
        self.protection.use_byte(at)?;
        self.bytes[at as usize] = b;
        Ok(())
    }
}
