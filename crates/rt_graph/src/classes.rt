//! Classes of procedures that have one full mode.

ghost use Rattle.std.specs.Prelude.{◌≡◌, ℕ, List, ◌+◌, ◌<◌, ◌≤◌, ◌^◌, Some, if◌then◌else◌, IfOk, OnOk};
ghost use Rattle.std.specs.Str.{bytes_eq};
ghost use Rattle.rt_graph.specs.Classes.{AreApart, AreClasses, IsToldOf, Keeps, class_in};

use rt_words::{Bytes, List, Memory};
use std::alloc::Global;
use std::collections::BTreeMap;

/// The classes by their texts.
pub type ClassMap<'t> = BTreeMap<&'t [u8], usize>;

/// Classes of full modes: by their texts, and of each brick of the row that may be a value.
#[derive(Drop)]
pub struct Classes<'t> {
    pub map: ClassMap<'t>,
    pub of: List<Option<usize>>,
    pub count: usize,
}

impl<'t> Classes<'t> {
    /// The classes of texts.
    pub fn of(alloc: Global, texts: &'t [Option<Bytes>]) -> Result<Classes<'t>, Memory>
        ensures { IfOk result (λ classes. AreClasses texts.now classes.map classes.of classes.count) }
    {
        let mut map = BTreeMap::new(alloc);
        let mut of = List::new(alloc, texts.len())?;
        let mut count = 0;
        for text in texts {
            let class = class_told(&mut map, &mut count, text)?;
            of.push(class)?;
        }
        Ok(Classes { map, of, count })
    }
}

/// The class of a text.
pub fn class_of(map: &ClassMap<'_>, text: &[u8]) -> Option<usize>
    ensures { result ≡ class_in map.now text.now }
{
    map.get(text).copied()
}

/// The class of a text, where there is one.
fn class_told<'t>(
    map: &mut ClassMap<'t>,
    count: &mut usize,
    text: &'t Option<Bytes>,
) -> Result<Option<usize>, Memory>
    requires apart { AreApart map.old count.old }
    requires small { count.old + 1 < 2 ^ 64 }
    ensures apart { OnOk result (AreApart map.new count.new) }
    ensures kept { OnOk result (Keeps map.old map.new) }
    ensures told { IfOk result (IsToldOf map.new text.now) }
    ensures count { OnOk result (count.new ≤ count.old + 1) }
{
    match text {
        Some(text) => Ok(Some(class_for(map, count, text.as_slice())?)),
        None => Ok(None),
    }
}

/// The class of a text, which is a new one where it has none.
fn class_for<'t>(map: &mut ClassMap<'t>, count: &mut usize, text: &'t [u8]) -> Result<usize, Memory>
    requires apart { AreApart map.old count.old }
    requires small { count.old + 1 < 2 ^ 64 }
    ensures apart { OnOk result (AreApart map.new count.new) }
    ensures kept { OnOk result (Keeps map.old map.new) }
    ensures here { IfOk result (λ class. class_in map.new text.now ≡ Some class) }
    ensures count { OnOk result (count.new ≤ count.old + 1) }
{
    match class_of(map, text) {
        Some(class) => Ok(class),
        None => {
            let class = *count;
            note(map, text, class)?;
            *count = class + 1;
            Ok(class)
        }
    }
}

fn note<'t>(map: &mut ClassMap<'t>, text: &'t [u8], class: usize) -> Result<(), Memory>
    ensures { OnOk result ((t : List ℕ) → class_in map.new t ≡ (if bytes_eq text.now t then Some class else class_in map.old t)) }
{
    match map.insert(text, class) {
        Ok(_) => Ok(()),
        Err(_) => Err(Memory),
    }
}
