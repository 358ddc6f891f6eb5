ghost use Rattle.std.specs.Prelude.{◌≡◌, [], ◌∷◌, ◌++◌, ◌+◌, ◌≤◌, ◌<◌, length, IfOk, IsOk, OnOk, OnErr};

use crate::list::List;
use crate::memory::Memory;
use std::alloc::Global;
use std::marker::Model;

/// A list under construction. Contracts see its elements, `items`, and a number, `spare`: so many
/// further elements can be pushed without taking memory.
#[derive(Drop)]
pub struct ListBuilder<T> {
    items: Vec<T>,
}

/// A text under construction: its bytes, and the spare.
pub type Text = ListBuilder<u8>;

impl<T> Model for ListBuilder<T> {
    ghost use Rattle.std.specs.Prelude.{◌-◌, vec_len, vec_capacity};
    ghost use Rattle.rt_words.specs.Built.{Built, coded_built};

    ghost Value = { Built T };

    ghost coded = { coded_built T.code };

    ghost view = { λ b. record { items = b.items.items; spare = vec_capacity b.items - vec_len b.items } };
}

impl<T> ListBuilder<T> {
    /// An empty list whose spare is at least `room`.
    pub fn new(alloc: Global, room: usize) -> Result<ListBuilder<T>, Memory>
        ensures empty { IfOk result (λ b. b.items ≡ []) }
        ensures room { IfOk result (λ b. room ≤ b.spare) }
    {
        match Vec::with_capacity(alloc, room) {
            Ok(items) => Ok(ListBuilder { items }),
            Err(_) => Err(Memory),
        }
    }

    /// The list under construction that begins with a vector's elements; it takes no memory.
    pub fn from_vec(items: Vec<T>) -> ListBuilder<T>
        ensures { result.items ≡ items.items }
    {
        ListBuilder { items }
    }

    /// The vector of the elements; it takes no memory.
    pub fn into_vec(self) -> Vec<T>
        ensures { result.items ≡ self.items }
    {
        let ListBuilder { items } = self;
        items
    }

    /// The finished list; it takes no memory.
    pub fn into_list(self) -> List<T>
        ensures { result ≡ self.items }
    {
        let ListBuilder { items } = self;
        List::from_vec(items)
    }

    /// Lends the elements.
    pub fn as_slice(&self) -> &[T]
        ensures { result.now ≡ self.now.items }
    {
        self.items.as_slice()
    }

    /// The number of elements.
    pub fn len(&self) -> usize
        ensures { result ≡ length self.now.items }
    {
        self.items.len()
    }
}

impl<T: Drop> ListBuilder<T> {
    /// Appends an element. It never answers `Memory` where the spare is above 0; where it does, the list
    /// stays as it was and `item` is dropped.
    pub fn push(&mut self, item: T) -> Result<(), Memory>
        ensures ok { OnOk result (self.new.items ≡ self.old.items ++ item ∷ []) }
        ensures err { OnErr result (self.new.items ≡ self.old.items) }
        ensures spare { self.old.spare ≤ self.new.spare + 1 }
        ensures kept { OnErr result (self.old.spare ≤ self.new.spare) }
        ensures succeeds { 0 < self.old.spare → IsOk result }
    {
        match self.items.push(item) {
            Ok(()) => Ok(()),
            Err(_) => Err(Memory),
        }
    }
}

impl<T: Copy> ListBuilder<T> {
    /// Appends the elements of a slice. It never answers `Memory` where the spare is at least their
    /// number; where it does, the list stays as it was.
    pub fn push_all(&mut self, more: &[T]) -> Result<(), Memory>
        ensures ok { OnOk result (self.new.items ≡ self.old.items ++ more.now) }
        ensures err { OnErr result (self.new.items ≡ self.old.items) }
        ensures spare { self.old.spare ≤ self.new.spare + length more.now }
        ensures kept { OnErr result (self.old.spare ≤ self.new.spare) }
        ensures succeeds { length more.now ≤ self.old.spare → IsOk result }
    {
        match self.items.extend_from_slice(more) {
            Ok(()) => Ok(()),
            Err(_) => Err(Memory),
        }
    }
}
