//! What may be done with a place that was found.

ghost use Rattle.std.specs.Prelude.{◌≡◌, option_map};
ghost use Rattle.std.specs.Option.{option_copied};
ghost use Rattle.rt_modes.specs.declared.mode.Mode.{out-Mode};
ghost use Rattle.rt_tree_nodes.specs.Code as seen;
ghost use Rattle.rt_tree_nodes.specs.Typing as typing;

use crate::lent::{Found, Lent, ValueMode, value_mode};
use crate::scope::Scope;
use rt_modes::Mode;

impl<'a> Found<'a> {
    /// The mode of what is read there.
    pub fn read(&self) -> Option<ValueMode<'a>>
        ensures { seen.mode_found result ≡ typing.read_mode (seen.found self.now) }
    {
        match self {
            Found::Variable(mode) => value_mode(mode),
            Found::Loop => Some(ValueMode::Of(Lent::Int)),
            Found::Shared(mode) => mode.value(),
            Found::Private(mode) => value_mode(mode),
            Found::Row(_) => None,
        }
    }

    /// The mode of what may be assigned there.
    pub fn assigned(&self) -> Option<ValueMode<'a>>
        ensures { seen.mode_found result ≡ typing.assigned_mode (seen.found self.now) }
    {
        match self {
            Found::Loop => None,
            other => other.read(),
        }
    }

    /// The mode of its reference, where that can be taken.
    pub fn reference(&self) -> Option<ValueMode<'a>>
        ensures { seen.mode_found result ≡ typing.reference_mode (seen.found self.now) }
    {
        match self {
            Found::Shared(mode) => mode.reference(),
            _ => None,
        }
    }

    /// The mode of its LENGTH, where it is an array.
    pub fn length(&self) -> Option<ValueMode<'a>>
        ensures { seen.mode_found result ≡ typing.length_mode (seen.found self.now) }
    {
        match self {
            Found::Shared(mode) => mode.length(),
            Found::Private(mode) => Lent::Of(mode).length(),
            Found::Row(_) => Some(ValueMode::Of(Lent::Int)),
            _ => None,
        }
    }

    /// An element of it, where it is an array.
    pub fn element(&self) -> Option<Found<'a>>
        ensures { seen.place_found result ≡ typing.element_found (seen.found self.now) }
    {
        match self {
            Found::Shared(mode) => shared(mode.element()),
            Found::Private(mode) => private(Lent::Of(mode).element()),
            Found::Row(element) => Some(Found::Shared(*element)),
            _ => None,
        }
    }

    /// Field `k` of it, where it is a record that has one.
    pub fn field(&self, scope: &Scope<'a>, k: u16) -> Option<Found<'a>>
        ensures { seen.place_found result ≡ typing.field_found scope.now.records.now k (seen.found self.now) }
    {
        match self {
            Found::Shared(mode) => shared(mode.field(scope, k)),
            Found::Private(mode) => private(Lent::Of(mode).field(scope, k)),
            _ => None,
        }
    }
}

fn shared(mode: Option<&Mode>) -> Option<Found<'_>>
    ensures { seen.place_found result ≡ option_map typing.Shared (option_copied mode.entry) }
{
    match mode {
        Some(mode) => Some(Found::Shared(Lent::Of(mode))),
        None => None,
    }
}

/// A field or an element of an item of which each task has its own.
fn private(mode: Option<&Mode>) -> Option<Found<'_>>
    ensures { seen.place_found result ≡ option_map typing.Private (option_copied mode.entry) }
{
    match mode {
        Some(mode) => Some(Found::Private(mode)),
        None => None,
    }
}

impl<'a> Lent<'a> {
    fn reference(&self) -> Option<ValueMode<'a>>
        ensures { seen.mode_found result ≡ typing.reference_by (out-Mode (seen.lent self.now)) (seen.lent self.now) }
    {
        match self {
            Lent::Of(mode) => match mode {
                Mode::Array(_, element) => Some(ValueMode::Row(Lent::Of(element.get()))),
                Mode::Label => None,
                _ => Some(ValueMode::Reference(*self)),
            },
            _ => Some(ValueMode::Reference(*self)),
        }
    }

    fn length(&self) -> Option<ValueMode<'a>>
        ensures { seen.mode_found result ≡ typing.length_by (out-Mode (seen.lent self.now)) }
    {
        match self.element() {
            Some(_) => Some(ValueMode::Of(Lent::Int)),
            None => None,
        }
    }

    fn field(&self, scope: &Scope<'a>, k: u16) -> Option<&'a Mode>
        ensures { option_copied result ≡ typing.field_by scope.now.records.now k (out-Mode (seen.lent self.now)) }
    {
        match self {
            Lent::Of(mode) => match mode {
                Mode::Record(r) => scope.field_mode(*r, k),
                _ => None,
            },
            _ => None,
        }
    }
}
