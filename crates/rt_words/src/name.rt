ghost use Rattle.std.specs.Prelude.{◌≡◌, ◌≤◌, ◌↔◌, length, IfOk, IsSome, IfSome};

use crate::memory::Memory;
use std::alloc::Global;
use std::marker::Model;

/// A text of 1 to 32 bytes, which contracts see as the list of its bytes. It says nothing of which bytes
/// these are.
#[derive(Debug, Drop)]
pub struct Name {
    bytes: Vec<u8>,
}

impl Model for Name {
    ghost use Rattle.std.specs.Prelude.{List, ℕ, length};
    ghost use Rattle.rt_words.specs.Named.{IsNameLength};

    ghost Value = { List ℕ };

    ghost view = { λ name. name.bytes.items };

    ghost invariant = { λ name. IsNameLength (length name.bytes.items) };
}

impl Name {
    /// The name of these bytes, where there are 1 to 32 of them.
    pub fn new(alloc: Global, bytes: &[u8]) -> Result<Option<Name>, Memory>
        ensures value { IfOk result (λ name. IfSome name (λ n. n ≡ bytes.now)) }
        ensures some { IfOk result (λ name. IsSome name ↔ ((1 ≤ length bytes.now) × (length bytes.now ≤ 32))) }
    {
        if bytes.is_empty() || bytes.len() > 32 {
            return Ok(None);
        }
        match Vec::from_slice(alloc, bytes) {
            Ok(bytes) => Ok(Some(Name { bytes })),
            Err(_) => Err(Memory),
        }
    }

    /// A name of the same bytes.
    pub fn copy(&self, alloc: Global) -> Result<Name, Memory>
        ensures { IfOk result (λ n. n ≡ self.now) }
    {
        match Vec::from_slice(alloc, self.bytes.as_slice()) {
            Ok(bytes) => Ok(Name { bytes }),
            Err(_) => Err(Memory),
        }
    }

    /// Lends the 1 to 32 bytes.
    pub fn as_slice(&self) -> &[u8]
        ensures bytes { result.now ≡ self.now }
        ensures some { 1 ≤ length self.now }
        ensures short { length self.now ≤ 32 }
    {
        let bytes = self.bytes.as_slice();
        bytes
    }
}
