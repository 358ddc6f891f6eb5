ghost use Rattle.std.specs.Prelude.{◌≡◌, ◌≤◌, [], ◌∷◌, ◌++◌, Some, IfOk, OnOk, OnErr, IsErr};
ghost use Rattle.std.specs.Result.{is_err};
ghost use Rattle.rt_words.specs.Causes.{Rose};
ghost use Rattle.rt_outside.specs.Calls.{no_calls};
ghost use Rattle.rt_outside.specs.Appending.{AppendsStart};
ghost use Rattle.rt_outside.specs.States.{put_fails, after_put, puts_fail, after_puts};

use crate::calls::CallCount;
use crate::sink::{Failed, Sink};
use rt_words::{List, Memory, Text};
use std::alloc::Global;
use std::marker::Model;

/// A sink in memory, which tells the bytes written.
///
/// A put fails exactly where its number, counted from 1, is one of those given, or where no room is left.
#[derive(Drop)]
pub struct MemSink {
    written: Text,
    room: usize,
    calls: CallCount,
}

impl Model for MemSink {
    ghost use Rattle.std.specs.Prelude.{◌≤◌};
    ghost use Rattle.rt_outside.specs.States.{SinkState};

    ghost Value = { SinkState };

    ghost view = { λ s. record { written = s.written.items; room = s.room; calls = s.calls } };

    ghost invariant = { λ s. s.room ≤ s.written.spare };
}

impl MemSink {
    /// A sink with nothing written and room for `room` bytes, which is taken here. `fails` has the numbers
    /// of the puts that fail.
    pub fn new(alloc: Global, room: usize, fails: List<u64>) -> Result<MemSink, Memory>
        ensures { IfOk result (λ s. s ≡ record { written = []; room = room; calls = no_calls fails }) }
    {
        let written = Text::new(alloc, room)?;
        Ok(MemSink {
            written,
            room,
            calls: CallCount::new(fails),
        })
    }

    /// The bytes written.
    pub fn written(&self) -> &[u8]
        ensures { result.now ≡ self.now.written }
    {
        self.written.as_slice()
    }

    /// How many bytes can still be put.
    pub fn room(&self) -> usize
        ensures { result ≡ self.now.room }
    {
        self.room
    }

    /// How many puts were made.
    pub fn calls(&self) -> u64
        ensures { result ≡ self.now.calls.made }
    {
        self.calls.made()
    }

    /// How many puts failed.
    pub fn faults(&self) -> u64
        ensures { result ≡ self.now.calls.faults }
    {
        self.calls.faults()
    }
}

impl MemSink {
    fn put_byte(&mut self, byte: u8) -> Result<(), Failed>
        ensures ok { OnOk result (self.new.written ≡ self.old.written ++ byte ∷ []) }
        ensures err { OnErr result (self.new.written ≡ self.old.written) }
        ensures failed { IsErr result → Rose self.old.calls.faults self.new.calls.faults }
        ensures later { self.old.calls.faults ≤ self.new.calls.faults }
        ensures fails { is_err result ≡ put_fails self.old }
        ensures state { self.new ≡ after_put byte self.old }
    {
        let fails = self.calls.begin();
        if fails || self.room == 0 {
            self.calls.fail();
            return Err(Failed);
        }
        self.written.push(byte).unwrap();
        self.room -= 1;
        Ok(())
    }

    fn put_bytes(&mut self, bytes: &[u8]) -> Result<(), Failed>
        ensures ok { OnOk result (self.new.written ≡ self.old.written ++ bytes.now) }
        ensures err { OnErr result (AppendsStart (Some self.old.written) (Some self.new.written) bytes.now) }
        ensures failed { IsErr result → Rose self.old.calls.faults self.new.calls.faults }
        ensures later { self.old.calls.faults ≤ self.new.calls.faults }
        ensures fails { is_err result ≡ puts_fail bytes.now self.old }
        ensures state { self.new ≡ after_puts bytes.now self.old }
    {
        for byte in bytes {
            match self.put_byte(*byte) {
                Ok(()) => {}
                Err(failed) => return Err(failed),
            }
        }
        Ok(())
    }
}

impl Sink for MemSink {
    ghost written = { λ s. Some s.written };

    ghost faults = { λ s. s.calls.faults };

    fn put(&mut self, byte: u8) -> Result<(), Failed>
        ensures ok { OnOk result (self.new.written ≡ self.old.written ++ byte ∷ []) }
        ensures err { OnErr result (self.new.written ≡ self.old.written) }
        ensures failed { IsErr result → Rose self.old.calls.faults self.new.calls.faults }
        ensures later { self.old.calls.faults ≤ self.new.calls.faults }
        ensures fails { is_err result ≡ put_fails self.old }
        ensures state { self.new ≡ after_put byte self.old }
    {
        self.put_byte(byte)
    }

    fn put_all(&mut self, bytes: &[u8]) -> Result<(), Failed>
        ensures ok { OnOk result (self.new.written ≡ self.old.written ++ bytes.now) }
        ensures err { OnErr result (AppendsStart (Some self.old.written) (Some self.new.written) bytes.now) }
        ensures failed { IsErr result → Rose self.old.calls.faults self.new.calls.faults }
        ensures later { self.old.calls.faults ≤ self.new.calls.faults }
        ensures fails { is_err result ≡ puts_fail bytes.now self.old }
        ensures state { self.new ≡ after_puts bytes.now self.old }
    {
        self.put_bytes(bytes)
    }
}
