ghost use Rattle.std.specs.Prelude.{◌≡◌, [], ◌∷◌, ◌++◌, ◌<◌, length, slice_get, slice_set, IfOk, OnOk, OnErr, OnSome, MatchOption};
ghost use Rattle.std.specs.Option.{option_copied};

use crate::memory::Memory;
use std::alloc::Global;
use std::marker::Model;
use std::mem;

/// A list of `T` that contracts see as its elements alone, so that two lists of the same elements are
/// equal. It may stand in a type that leads back to itself. Where a promise that a push takes no memory
/// is wanted, build it as a [`crate::ListBuilder`].
#[derive(Debug, Drop)]
pub struct List<T> {
    items: Vec<T>,
}

/// A list of bytes.
pub type Bytes = List<u8>;

impl<T> Model for List<T> {
    ghost use Rattle.std.specs.Prelude.{List};
    ghost use Rattle.std.specs.Coded.{coded_list};

    ghost Value = { List T };

    ghost coded = { coded_list T.code };

    ghost view = { λ it. it.items.items };
}

impl<T> List<T> {
    /// An empty list with room for `room` elements.
    pub fn new(alloc: Global, room: usize) -> Result<List<T>, Memory>
        ensures { IfOk result (λ it. it ≡ []) }
    {
        match Vec::with_capacity(alloc, room) {
            Ok(items) => Ok(List { items }),
            Err(_) => Err(Memory),
        }
    }

    /// The list of a vector's elements; it takes no memory.
    pub fn from_vec(items: Vec<T>) -> List<T>
        ensures { result ≡ items.items }
    {
        List { items }
    }

    /// The vector of the elements; it takes no memory.
    pub fn into_vec(self) -> Vec<T>
        ensures { result.items ≡ self }
    {
        let List { items } = self;
        items
    }

    /// Lends the elements.
    pub fn as_slice(&self) -> &[T]
        ensures { result.now ≡ self.now }
    {
        self.items.as_slice()
    }

    /// The number of elements.
    pub fn len(&self) -> usize
        ensures { result ≡ length self.now }
    {
        self.items.len()
    }

    /// Lends the element at `at`, counted from 0, where there is one.
    pub fn get(&self, at: usize) -> Option<&T>
        ensures value { option_copied result ≡ slice_get self.now at }
        ensures within { OnSome result (at < length self.now) }
    {
        self.items.get(at)
    }

    /// Takes the elements out and leaves an empty list; it takes no memory.
    pub fn take(&mut self) -> List<T>
        ensures taken { result ≡ self.old }
        ensures left { self.new ≡ [] }
    {
        let alloc = *self.items.allocator();
        List {
            items: mem::replace(&mut self.items, Vec::new(alloc)),
        }
    }

    /// Takes the last element off.
    pub fn pop(&mut self) -> Option<T>
        ensures { MatchOption result ((self.old ≡ []) × (self.new ≡ [])) (λ last. self.old ≡ self.new ++ last ∷ []) }
    {
        self.items.pop()
    }
}

impl<T: Drop> List<T> {
    /// Puts `item` in the place of the element at `at`, counted from 0; it takes no memory.
    pub fn set(&mut self, at: usize, item: T)
        requires { at < length self.now }
        ensures { self.new ≡ slice_set self.old at item }
    {
        self.items[at] = item;
    }

    /// Appends an element; where there is no memory the list stays as it was and `item` is dropped.
    pub fn push(&mut self, item: T) -> Result<(), Memory>
        ensures ok { OnOk result (self.new ≡ self.old ++ item ∷ []) }
        ensures err { OnErr result (self.new ≡ self.old) }
    {
        match self.items.push(item) {
            Ok(()) => Ok(()),
            Err(_) => Err(Memory),
        }
    }
}

impl<T: Copy> List<T> {
    /// A list of the elements of a slice.
    pub fn from_slice(alloc: Global, items: &[T]) -> Result<List<T>, Memory>
        ensures { IfOk result (λ it. it ≡ items.now) }
    {
        match Vec::from_slice(alloc, items) {
            Ok(items) => Ok(List { items }),
            Err(_) => Err(Memory),
        }
    }

    /// A list of the same elements.
    pub fn copy(&self, alloc: Global) -> Result<List<T>, Memory>
        ensures { IfOk result (λ it. it ≡ self.now) }
    {
        List::from_slice(alloc, self.items.as_slice())
    }
}
