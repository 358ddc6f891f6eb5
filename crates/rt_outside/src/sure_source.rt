ghost use Rattle.std.specs.Prelude.{◌≡◌, ◌≢◌, ◌≤◌, ◌==◌, length, Some, IsOkAnd};
ghost use Rattle.rt_words.specs.Causes.{Rose};
ghost use Rattle.rt_outside.specs.Streams.{TakesNext, KeepsEnd};

use crate::source::{Next, Source};
use rt_words::{Bytes, Memory};
use std::alloc::Global;
use std::marker::Model;

/// A source in memory that never fails, and tells the bytes that are left.
#[derive(Drop)]
pub struct SureSource {
    bytes: Bytes,
    taken: usize,
}

impl Model for SureSource {
    ghost use Rattle.std.specs.Prelude.{List, ℕ, ◌≤◌, length, drop};

    ghost Value = { List ℕ };

    ghost view = { λ s. drop s.taken s.bytes };

    ghost invariant = { λ s. s.taken ≤ length s.bytes };
}

impl SureSource {
    /// A source that has these bytes left. It takes no memory.
    pub fn new(_alloc: Global, bytes: Bytes) -> Result<SureSource, Memory>
        ensures { IsOkAnd result (λ s. s ≡ bytes) }
    {
        Ok(SureSource { bytes, taken: 0 })
    }

    /// The bytes that are left.
    pub fn left(&self) -> &[u8]
        ensures { result.now ≡ self.now }
    {
        &self.bytes.as_slice()[self.taken..]
    }
}

impl Source for SureSource {
    ghost left = { λ s. Some s };

    ghost ended = { λ s. length s == 0 };

    ghost faults = { λ s. 0 };

    fn next(&mut self) -> Next
        ensures takes { TakesNext (Some self.old) result (Some self.new) }
        ensures never { result ≢ Next.Failed }
    {
        let bytes = self.bytes.as_slice();
        if self.taken == bytes.len() {
            return Next::End;
        }
        let byte = bytes[self.taken];
        self.taken += 1;
        Next::Byte(byte)
    }
}
