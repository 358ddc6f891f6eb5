//! The texts of the LET names in force.

ghost use Rattle.std.specs.Prelude.{◌≡◌, [], ◌∷◌, ◌++◌, ◌+◌, ◌≤◌, ◌<◌, ℕ, List, length, IfOk, OnOk, OnErr};
ghost use Rattle.std.specs.Option.{option_map};
ghost use Rattle.rt_items.specs.Lets.{no_lets, with_let, items_at};
ghost use Rattle.rt_items.specs.Ropes.{text_at, Keeps, IsRoot};
ghost use Rattle.rt_items.specs.Ropes as ropes;
ghost use Rattle.rt_items.specs.Table.{lets_of, name_in, with_root, IsNamed, SameLets};

use crate::rope::Texts;
use rt_pieces::{Item, ItemKind, Span};
use rt_words::{List, Memory, Name};
use std::alloc::Global;
use std::collections::BTreeMap;
use std::marker::Model;
use std::mem;

/// The LET names in force, and the text of the LET that is being read: a text, and a run of items behind it.
#[derive(Drop)]
pub struct LetTable {
    names: BTreeMap<Vec<u8>, Option<usize>>,
    texts: Texts,
    before: Option<usize>,
    run: List<ItemKind>,
}

impl Model for LetTable {
    ghost use Rattle.std.specs.Prelude.{◌++◌, ◌≤◌, ℕ, List, length};
    ghost use Rattle.rt_items.specs.Ropes.{text_at, IsRoot};
    ghost use Rattle.rt_items.specs.Table.{Known, IsNamed, name_in};

    ghost Value = { Known };

    ghost view = { λ t. record { names = t.names.entries; texts = t.texts; text = text_at t.texts t.before ++ t.run } };

    ghost invariant = { λ t. ((q : List ℕ) → IsNamed t.texts (name_in t.names.entries q)) × (IsRoot t.texts t.before × (length (text_at t.texts t.before ++ t.run) ≤ 65535)) };
}

pub fn empty_table(alloc: Global) -> LetTable
    ensures { (q : List ℕ) → lets_of result q ≡ no_lets q }
{
    LetTable {
        names: BTreeMap::new(alloc),
        texts: Texts::new(alloc),
        before: None,
        run: List::from_vec(Vec::new(alloc)),
    }
}

/// The text that a name stands for.
pub fn text_of(table: &LetTable, name: &[u8]) -> Option<Option<usize>>
    ensures text { result ≡ name_in table.now.names name.now }
    ensures root { IsNamed table.now.texts result }
{
    table.names.get(name).copied()
}

/// How many items a text has.
pub fn text_len(table: &LetTable, text: Option<usize>) -> usize
    ensures { result ≡ length (text_at table.now.texts text) }
{
    table.texts.len(text)
}

/// The number that a text is, where it is exactly one.
pub fn one_number(table: &LetTable, text: Option<usize>) -> Option<u16>
    ensures { result ≡ ropes.one_number (text_at table.now.texts text) }
{
    table.texts.one_number(text)
}

/// Writes a text out; its items carry the line and the span of the use.
pub fn write_text(
    alloc: Global,
    table: &LetTable,
    text: Option<usize>,
    span: Span,
    out: &mut List<Item>,
) -> Result<(), Memory>
    ensures { OnOk result (out.new ≡ out.old ++ items_at span.line span.from span.to (text_at table.now.texts text)) }
{
    table.texts.write(alloc, text, span, out)
}

/// How many items of the LET that is being read there are.
pub fn open_len(table: &LetTable) -> usize
    ensures { result ≡ length table.now.text }
{
    table.texts.len(table.before) + table.run.len()
}

/// A LET's text begins.
pub fn begin(alloc: Global, table: &mut LetTable)
    ensures open { table.new.text ≡ [] }
    ensures same { SameLets table.old table.new }
{
    table.before = None;
    table.run = List::from_vec(Vec::new(alloc));
}

/// An item goes into the LET's text.
pub fn add_own(table: &mut LetTable, kind: ItemKind) -> Result<(), Memory>
    requires { length table.old.text < 65535 }
    ensures open { OnOk result (table.new.text ≡ table.old.text ++ kind ∷ []) }
    ensures same { SameLets table.old table.new }
{
    table.run.push(kind)
}

/// The run of the LET's text becomes a part of the text before it.
fn close_run(alloc: Global, table: &mut LetTable) -> Result<Option<usize>, Memory>
    ensures text { IfOk result (λ text. text_at table.new.texts text ≡ table.old.text) }
    ensures open { IfOk result (λ text. table.new.text ≡ []) }
    ensures root { IfOk result (λ text. IsRoot table.new.texts text) }
    ensures names { table.new.names ≡ table.old.names }
    ensures keeps { Keeps table.old.texts table.new.texts }
    ensures same { SameLets table.old table.new }
{
    let run = mem::replace(&mut table.run, List::from_vec(Vec::new(alloc)));
    let before = mem::replace(&mut table.before, None);
    let last = table.texts.run(run)?;
    table.texts.joined(before, last)
}

/// A use of a text goes into the LET's text.
pub fn add_use(alloc: Global, table: &mut LetTable, text: Option<usize>) -> Result<(), Memory>
    requires root { IsRoot table.old.texts text }
    requires size { length table.old.text + length (text_at table.old.texts text) ≤ 65535 }
    ensures open { OnOk result (table.new.text ≡ table.old.text ++ text_at table.old.texts text) }
    ensures same { SameLets table.old table.new }
{
    let before = close_run(alloc, table)?;
    table.before = table.texts.joined(before, text)?;
    Ok(())
}

fn insert(
    names: &mut BTreeMap<Vec<u8>, Option<usize>>,
    key: Vec<u8>,
    text: Option<usize>,
) -> Result<(), Memory>
    ensures ok { OnOk result ((q : List ℕ) → name_in names.new.entries q ≡ with_root key.items text names.old.entries q) }
    ensures err { OnErr result (names.new.entries ≡ names.old.entries) }
{
    match names.insert(key, text) {
        Ok(_) => Ok(()),
        Err(_) => Err(Memory),
    }
}

/// From here on the name stands for the LET's text.
pub fn put(alloc: Global, table: &mut LetTable, name: &Name) -> Result<(), Memory>
    ensures { OnOk result ((q : List ℕ) → lets_of table.new q ≡ with_let name.now table.old.text (lets_of table.old) q) }
{
    let text = close_run(alloc, table)?;
    let key = Vec::from_slice(alloc, name.as_slice())?;
    insert(&mut table.names, key, text)?;
    Ok(())
}
