//! The names of a level.

ghost use Rattle.std.specs.Prelude.{◌≡◌, false, [], ◌∷◌, ◌++◌, IfOk, OnOk};
ghost use Rattle.std.specs.Str.{bytes_eq};
ghost use Rattle.std.specs.Map.{lookup};
ghost use Rattle.std.specs.Option.{option_copied};
ghost use Rattle.rt_exprs.specs.Sights as spec;

use crate::scope::Meaning;
use indexmap::IndexMap;
use rt_words::Memory;
use std::alloc::Global;
use std::marker::Model;

/// The names of one level, in the order of declaration, and what they stand for. Contracts see the list of them.
#[derive(Drop)]
pub struct Level<'n> {
    names: IndexMap<&'n [u8], Meaning>,
}

impl<'n> Model for Level<'n> {
    ghost use Rattle.std.specs.Coded.{codes};
    ghost use Rattle.rt_modes.specs.contracts.mode.Mode as trees;
    ghost use Rattle.rt_exprs.specs.Sights.{Names};
    ghost use Rattle.rt_exprs.specs.Kept.{names_of};

    ghost Value = { Names };

    ghost coded = { Prim.hlevel (codes, trees.the_row.coded) };

    ghost view = { λ level. names_of level.names };
}

impl<'n> Level<'n> {
    /// A level without names.
    pub fn new(alloc: Global) -> Level<'n>
        ensures { result ≡ [] }
    {
        Level {
            names: IndexMap::new(alloc),
        }
    }

    /// What a name stands for, if it is there.
    pub fn get(&self, name: &[u8]) -> Option<&Meaning>
        ensures { option_copied result ≡ lookup (bytes_eq name.now) self.now }
    {
        self.names.get(name)
    }

    /// One name more: whether it was there already. Of two the first counts.
    pub fn declare(&mut self, name: &'n [u8], meaning: Meaning) -> Result<bool, Memory>
        ensures held { IfOk result (λ held. held ≡ spec.holds self.old name.now) }
        ensures declared { OnOk result (self.new ≡ spec.declared name.now meaning self.old) }
    {
        if self.has(name) {
            return Ok(true);
        }
        self.insert_new(name, meaning)?;
        Ok(false)
    }

    fn has(&self, name: &[u8]) -> bool
        ensures { result ≡ spec.holds self.now name.now }
    {
        self.names.get(name).is_some()
    }

    /// Adds a name that isn't there.
    fn insert_new(&mut self, name: &'n [u8], meaning: Meaning) -> Result<(), Memory>
        requires { spec.holds self.now name.now ≡ false }
        ensures { OnOk result (self.new ≡ self.old ++ (name.now, meaning) ∷ []) }
    {
        match self.names.insert(name, meaning) {
            Ok(earlier) => {
                drop(earlier);
                Ok(())
            }
            Err(_) => Err(Memory),
        }
    }
}
