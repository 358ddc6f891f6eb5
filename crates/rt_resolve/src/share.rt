//! Parts that are shared.

ghost use Rattle.std.specs.Prelude.{◌≡◌, [], ◌∷◌, ◌++◌, Ok, IfOk, IsOk, OnOk};

use rt_words::{List, Memory};
use std::alloc::Global;
use std::rc::Rc;

/// A value that several may hold; it is dropped where there is no memory.
pub fn shared<T: Drop>(alloc: Global, value: T) -> Result<Rc<T>, Memory>
    ensures { IfOk result (λ rc. rc.value ≡ value) }
{
    match Rc::new(alloc, value) {
        Ok(rc) => Ok(rc),
        Err(_) => Err(Memory),
    }
}

/// The same of two values. Both are dropped where there is no memory for either.
pub fn both_shared<A: Drop, B: Drop>(
    alloc: Global,
    left: A,
    right: B,
) -> Result<(Rc<A>, Rc<B>), Memory>
    ensures left { IfOk result (λ x. x.0.value ≡ left) }
    ensures right { IfOk result (λ x. x.1.value ≡ right) }
{
    let left = shared(alloc, left)?;
    let right = shared(alloc, right)?;
    Ok((left, right))
}

/// A value, and the one that was made behind it; with no other the first is dropped.
pub fn both<A: Drop, B: Drop>(left: A, right: Result<B, Memory>) -> Result<(A, B), Memory>
    ensures left { IfOk result (λ x. x.0 ≡ left) }
    ensures right { IfOk result (λ x. right ≡ Ok x.1) }
{
    let right = right?;
    Ok((left, right))
}

/// The same, with the first shared.
pub fn beside_made<A: Drop, B: Drop>(
    alloc: Global,
    left: A,
    right: Result<B, Memory>,
) -> Result<(Rc<A>, B), Memory>
    ensures left { IfOk result (λ x. x.0.value ≡ left) }
    ensures right { IfOk result (λ x. right ≡ Ok x.1) }
{
    let (left, right) = both(left, right)?;
    match shared(alloc, left) {
        Ok(left) => Ok((left, right)),
        Err(memory) => Err(memory),
    }
}

/// The same, with both shared.
pub fn both_made<A: Drop, B: Drop>(
    alloc: Global,
    left: A,
    right: Result<B, Memory>,
) -> Result<(Rc<A>, Rc<B>), Memory>
    ensures left { IfOk result (λ x. x.0.value ≡ left) }
    ensures right { IfOk result (λ x. right ≡ Ok x.1.value) }
{
    let (left, right) = both(left, right)?;
    both_shared(alloc, left, right)
}

/// Appends an element, where it was made.
pub fn push_made<T: Drop>(list: &mut List<T>, made: Result<T, Memory>) -> Result<(), Memory>
    ensures pushed { OnOk result (IfOk made (λ x. list.new ≡ list.old ++ x ∷ [])) }
    ensures made { OnOk result (IsOk made) }
{
    list.push(made?)
}
