//! What is written of a data brick, one value behind another.

ghost use Rattle.std.specs.Prelude.{◌≡◌, ◌∷◌, [], IfOk, OnOk};
ghost use Rattle.rt_compile.specs.Data as bytes;

use rt_object::{Relocated, Relocation};
use rt_words::{Bytes, List, Memory};
use std::alloc::Global;

/// The bytes of a data brick, and the words in them that become addresses.
#[derive(Debug, Drop)]
pub struct Data {
    pub bytes: Bytes,
    /// Places count bytes, and are even.
    pub relocations: List<Relocation>,
}

/// A number of at most 16 bits. Any other is answered as want of memory; no data brick of at most 57,344 bytes has one.
pub(crate) fn small(number: usize) -> Result<u16, Memory>
    ensures { IfOk result (λ n. n ≡ number) }
{
    u16::try_from(number).map_err(|_| Memory)
}

impl Data {
    /// Nothing yet; it takes no memory.
    pub(crate) fn nothing(alloc: Global) -> Data
        ensures { result ≡ bytes.nothing }
    {
        Data {
            bytes: List::from_vec(Vec::new(alloc)),
            relocations: List::from_vec(Vec::new(alloc)),
        }
    }

    /// Appends a zero byte where the number of bytes is odd.
    pub(crate) fn put_even(&mut self) -> Result<(), Memory>
        ensures { OnOk result (self.new ≡ bytes.even self.old) }
    {
        if self.bytes.len() % 2 == 1 {
            self.put_byte(0)?;
        }
        Ok(())
    }

    /// Appends a byte.
    pub(crate) fn put_byte(&mut self, byte: u8) -> Result<(), Memory>
        ensures { OnOk result (self.new ≡ bytes.with_bytes (byte ∷ []) self.old) }
    {
        self.bytes.push(byte)
    }

    /// Appends a word, the low byte first, at an even place.
    pub(crate) fn put_word(&mut self, word: u16) -> Result<(), Memory>
        ensures { OnOk result (self.new ≡ bytes.word word self.old) }
    {
        self.put_even()?;
        self.put_byte((word % 256) as u8)?;
        self.put_byte((word / 256) as u8)
    }

    /// Appends two zero bytes that become an address, at an even place.
    pub(crate) fn put_address(&mut self, of: Relocated, offset: u16) -> Result<(), Memory>
        ensures { OnOk result (self.new ≡ bytes.address of offset self.old) }
    {
        self.put_even()?;
        let place = small(self.bytes.len())?;
        self.relocations.push(Relocation { place, of, offset })?;
        self.put_byte(0)?;
        self.put_byte(0)
    }
}
