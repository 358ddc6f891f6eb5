ghost use Rattle.std.specs.Prelude.{◌≡◌, ◌≤◌, ◌↔◌, ◌==◌, length, Some, IsOkAnd, IsTrue};
ghost use Rattle.rt_words.specs.Causes.{Rose};
ghost use Rattle.rt_outside.specs.Calls.{no_calls, next_fails, after_call};
ghost use Rattle.rt_outside.specs.Streams.{TakesNext, KeepsEnd};

use crate::calls::CallCount;
use crate::source::{Next, Source};
use crate::sure_source::SureSource;
use rt_words::{Bytes, List, Memory};
use std::alloc::Global;
use std::marker::Model;

/// A source in memory, which tells the bytes that are left.
///
/// A call fails exactly where its number, counted from 1, is one of those given.
#[derive(Drop)]
pub struct MemSource {
    source: SureSource,
    calls: CallCount,
}

impl Model for MemSource {
    ghost use Rattle.rt_outside.specs.States.{SourceState};

    ghost Value = { SourceState };

    ghost view = { λ s. record { left = s.source; calls = s.calls } };
}

impl MemSource {
    /// A source that has these bytes left. It takes no memory. `fails` has the numbers of the calls that fail.
    pub fn new(alloc: Global, bytes: Bytes, fails: List<u64>) -> Result<MemSource, Memory>
        ensures { IsOkAnd result (λ s. s ≡ record { left = bytes; calls = no_calls fails }) }
    {
        match SureSource::new(alloc, bytes) {
            Ok(source) => Ok(MemSource {
                source,
                calls: CallCount::new(fails),
            }),
            Err(memory) => Err(memory),
        }
    }

    /// The bytes that are left.
    pub fn left(&self) -> &[u8]
        ensures { result.now ≡ self.now.left }
    {
        self.source.left()
    }

    /// How many calls were made.
    pub fn calls(&self) -> u64
        ensures { result ≡ self.now.calls.made }
    {
        self.calls.made()
    }

    /// How many calls failed.
    pub fn faults(&self) -> u64
        ensures { result ≡ self.now.calls.faults }
    {
        self.calls.faults()
    }
}

impl Source for MemSource {
    ghost left = { λ s. Some s.left };

    ghost ended = { λ s. length s.left == 0 };

    ghost faults = { λ s. s.calls.faults };

    fn next(&mut self) -> Next
        ensures takes { TakesNext (Some self.old.left) result (Some self.new.left) }
        ensures end { KeepsEnd (length self.old.left == 0) result (length self.new.left == 0) }
        ensures failed { result ≡ Next.Failed → Rose self.old.calls.faults self.new.calls.faults }
        ensures later { self.old.calls.faults ≤ self.new.calls.faults }
        ensures fails { (result ≡ Next.Failed) ↔ IsTrue (next_fails self.old.calls) }
        ensures calls { self.new.calls ≡ after_call (next_fails self.old.calls) self.old.calls }
    {
        if self.calls.begin() {
            self.calls.fail();
            return Next::Failed;
        }
        self.source.next()
    }
}
