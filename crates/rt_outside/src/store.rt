ghost use Rattle.std.specs.Prelude.{◌≡◌, ◌≤◌, ℕ, List, Option, length, IfOk, OnErr, OnOk, IsErrOf, IsErr};
ghost use Rattle.rt_words.specs.Causes.{Rose};
ghost use Rattle.rt_outside.specs.Files.{Files, WhereTold, IsTold, Has, Lacks, HasTooLong, ChangesOnly, longest};

use crate::sink::Failed;
use std::alloc::Global;
use thiserror::Error;

/// The most bytes that a file may have to be read.
pub const LONGEST_FILE: usize = 4_194_304;

/// Why a file wasn't read.
#[derive(Debug, Clone, Copy, Drop, Error)]
pub enum StoreError {
    /// The store tells its files, and there is none of this name.
    #[error("there is no such file")]
    Missing,
    /// The read failed, and the name's count of read faults rose.
    #[error("the file can't be read")]
    Failed,
    /// The file has more than [`LONGEST_FILE`] bytes.
    #[error("the file is too long")]
    TooLong,
    /// Memory was wanted and isn't there.
    #[error("out of memory")]
    Memory,
}

/// Files by name.
///
/// A store may tell its files; what it holds is then a map from names to bytes. It has two counts of
/// faults for each name, which never fall. A call on one name says nothing of another name's counts but
/// that they don't fall.
pub trait Store {
    /// What the store holds, where it tells it.
    ghost files: { Self → Option Files };
    /// How many reads of a name have failed.
    ghost read_faults: { Self → List ℕ → ℕ };
    /// How many writes of a name have failed.
    ghost write_faults: { Self → List ℕ → ℕ };

    /// Reads the whole file of a name. It changes no file.
    fn read(&mut self, alloc: Global, name: &str) -> Result<Vec<u8>, StoreError>
        ensures bytes { IfOk result (λ v. WhereTold (files self.old) (Has name.now v.items)) }
        ensures short { IfOk result (λ v. length v.items ≤ longest) }
        ensures missing { IsErrOf result StoreError.Missing → IsTold (files self.old) (Lacks name.now) }
        ensures too_long { IsErrOf result StoreError.TooLong → WhereTold (files self.old) (HasTooLong name.now) }
        ensures failed { IsErrOf result StoreError.Failed → Rose (read_faults self.old name.now) (read_faults self.new name.now) }
        ensures unchanged { files self.new ≡ files self.old }
        ensures reads_later { (other : List ℕ) → read_faults self.old other ≤ read_faults self.new other }
        ensures writes_later { (other : List ℕ) → write_faults self.old other ≤ write_faults self.new other };

    /// Makes the file of a name hold just these bytes. Where it fails only that file is unknown.
    fn write(&mut self, name: &str, bytes: &[u8]) -> Result<(), Failed>
        ensures bytes { OnOk result (WhereTold (files self.new) (Has name.now bytes.now)) }
        ensures others { ChangesOnly name.now (files self.old) (files self.new) }
        ensures failed { IsErr result → Rose (write_faults self.old name.now) (write_faults self.new name.now) }
        ensures reads_later { (other : List ℕ) → read_faults self.old other ≤ read_faults self.new other }
        ensures writes_later { (other : List ℕ) → write_faults self.old other ≤ write_faults self.new other };
}
