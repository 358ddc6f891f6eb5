//! Two values that are made one behind the other.

ghost use Rattle.std.specs.Prelude.{◌≡◌, Ok, IfOk};

use rt_words::Memory;

/// A value, and the one that was made behind it where memory didn't run out; with no other the first is dropped.
pub fn both<A: Drop, B: Drop>(left: A, right: Result<B, Memory>) -> Result<(A, B), Memory>
    ensures left { IfOk result (λ x. x.0 ≡ left) }
    ensures right { IfOk result (λ x. right ≡ Ok x.1) }
{
    let right = right?;
    Ok((left, right))
}
