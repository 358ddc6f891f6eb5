ghost use Rattle.std.specs.Prelude.{◌≡◌, ◌≤◌, ℕ, [], ◌∷◌, List, Option, OnOk, OnErr, IsErr};
ghost use Rattle.std.specs.Io.KnownBytes.{Keeps, Appends};
ghost use Rattle.rt_words.specs.Causes.{Rose};
ghost use Rattle.rt_outside.specs.Appending.{AppendsStart};

use thiserror::Error;

/// A write or a put failed, and the count of faults rose.
#[derive(Debug, Clone, Copy, Drop, Error)]
#[error("the write failed")]
pub struct Failed;

/// Bytes that go out one by one, or many at once.
///
/// A sink may tell the bytes written. It has a count of faults, which never falls.
pub trait Sink {
    /// The bytes written, where the sink tells them.
    ghost written: { Self → Option (List ℕ) };
    /// How many calls have failed.
    ghost faults: { Self → ℕ };

    /// Puts a byte; where it fails nothing is put.
    fn put(&mut self, byte: u8) -> Result<(), Failed>
        ensures ok { OnOk result (Appends (written self.old) (written self.new) (byte ∷ [])) }
        ensures err { OnErr result (Keeps (written self.old) (written self.new)) }
        ensures failed { IsErr result → Rose (faults self.old) (faults self.new) }
        ensures later { faults self.old ≤ faults self.new };

    /// Puts all the bytes; where that fails a proper start of them was put.
    fn put_all(&mut self, bytes: &[u8]) -> Result<(), Failed>
        ensures ok { OnOk result (Appends (written self.old) (written self.new) bytes.now) }
        ensures err { OnErr result (AppendsStart (written self.old) (written self.new) bytes.now) }
        ensures failed { IsErr result → Rose (faults self.old) (faults self.new) }
        ensures later { faults self.old ≤ faults self.new };
}
