//! A stack.

ghost use Rattle.std.specs.Prelude.{◌≡◌, [], ◌∷◌, MatchOption, OnOk, OnErr, slice_get};
ghost use Rattle.std.specs.Option.{option_copied};
ghost use mathlib.Core.List.{reverse};

use rt_words::{List, Memory};
use std::alloc::Global;
use std::marker::Model;

/// Contracts see it as a list, its top in front.
#[derive(Debug, Drop)]
pub struct Stack<T> {
    items: Vec<T>,
}

impl<T> Model for Stack<T> {
    ghost use Rattle.std.specs.Prelude.{List};
    ghost use Rattle.std.specs.Coded.{coded_list};
    ghost use mathlib.Core.List.{reverse};

    ghost Value = { List T };

    ghost coded = { coded_list T.code };

    ghost view = { λ s. reverse s.items.items };
}

impl<T> Stack<T> {
    /// An empty stack; it takes no memory.
    pub fn new(alloc: Global) -> Stack<T>
        ensures { result ≡ [] }
    {
        Stack {
            items: Vec::new(alloc),
        }
    }

    /// The stack of these items, the first of them on the top; it takes no memory.
    pub fn of(items: List<T>) -> Stack<T>
        ensures { result ≡ items }
    {
        let mut items = items.into_vec();
        items.reverse();
        Stack { items }
    }

    /// Lends the items, the top last.
    pub fn bottom_up(&self) -> &[T]
        ensures { reverse result.now ≡ self.now }
    {
        self.items.as_slice()
    }

    /// Lends the top.
    pub fn top(&self) -> Option<&T>
        ensures { option_copied result ≡ slice_get self.now 0 }
    {
        self.items.last()
    }

    /// Takes the top off.
    pub fn pop(&mut self) -> Option<T>
        ensures { MatchOption result ((self.old ≡ []) × (self.new ≡ [])) (λ top. self.old ≡ top ∷ self.new) }
    {
        self.items.pop()
    }
}

impl<T: Drop> Stack<T> {
    /// Puts `item` on the top; where there is no memory the stack stays as it was.
    pub fn push(&mut self, item: T) -> Result<(), Memory>
        ensures ok { OnOk result (self.new ≡ item ∷ self.old) }
        ensures err { OnErr result (self.new ≡ self.old) }
    {
        match self.items.push(item) {
            Ok(()) => Ok(()),
            Err(_) => Err(Memory),
        }
    }
}
