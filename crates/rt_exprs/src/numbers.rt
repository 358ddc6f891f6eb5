//! Numbers that are kept in 16 bits.

ghost use Rattle.std.specs.Prelude.{◌≡◌, ◌≤◌, IfOk, OnErr};

use rt_words::Memory;

/// A number in 16 bits; one that has more is answered as want of memory.
pub fn small_number(number: usize) -> Result<u16, Memory>
    ensures number { IfOk result (λ n. n ≡ number) }
    ensures large { OnErr result (65536 ≤ number) }
{
    if number < 65536 {
        Ok(number as u16)
    } else {
        Err(Memory)
    }
}
