//! The items of a text.

ghost use Rattle.std.specs.Prelude.{◌≡◌, ◌≢◌, ◌⊎◌, ◌≤◌, Ok, Err, length, IfOk, IfErr};
ghost use Rattle.rt_items.specs.Lets.{Items, Reading, HaveOneReading, HaveSomeReading};
ghost use Rattle.rt_items.specs.Reading.{Turns, state_of, turn_meant, reading_of, Answers};
ghost use Rattle.rt_items.specs.Meaning.{meaning_by};
ghost use Rattle.rt_items.specs.Table.{lets_of};

use crate::expand::{State, finish, turn};
use crate::meaning::meaning;
use crate::table::{LetTable, empty_table};
use rt_pieces::{Found, Item, Rest, Seen, TextFault, next_piece};
use rt_words::List;
use std::alloc::Global;

fn add_piece(
    alloc: Global,
    state: State,
    table: &mut LetTable,
    out: &mut List<Item>,
    found: Found,
) -> Result<State, TextFault>
    ensures { Turns (turn_meant (state_of table.old.text state) (lets_of table.old) (length out.old) found.entry.span.line found.entry.span.from found.entry.span.to (meaning_by (lets_of table.old) found.entry.span.line found.entry.text.now found.entry.base)) out.old table.new out.new result }
{
    match meaning(alloc, table, found.span.line, found.base, found.text) {
        Err(fault) => Err(fault),
        Ok(kind) => turn(alloc, state, table, out, kind, found.span),
    }
}

fn read(alloc: Global, bytes: &[u8]) -> Result<List<Item>, TextFault>
    requires { length bytes.now ≤ 4194304 }
    ensures { Answers (reading_of bytes.now) result }
{
    let total = bytes.len();
    let mut table = empty_table(alloc);
    let mut out = List::new(alloc, 0)?;
    let mut state = State::Plain;
    let mut rest = Rest { line: 1, bytes };
    loop {
        match next_piece(total, rest) {
            Seen::End => return finish(state, out),
            Seen::Fault(fault) => return Err(fault),
            Seen::Piece(found, next) => match add_piece(alloc, state, &mut table, &mut out, found) {
                Err(fault) => return Err(fault),
                Ok(after) => {
                    state = after;
                    rest = next;
                }
            },
        }
    }
}

/// The items of a text of at most 4,194,304 bytes (BS 5904, items), or its first fault.
pub fn items(alloc: Global, bytes: &[u8]) -> Result<List<Item>, TextFault>
    requires { length bytes.now ≤ 4194304 }
    // What is answered is what the text has.
    ensures found { IfOk result (λ is. Items bytes.now (Ok is)) }
    // A fault is the text's first, with its line.
    ensures fault { IfErr result (λ f. f ≢ TextFault.Memory → Items bytes.now (Err f)) }
    ensures limit { IfOk result (λ is. length is ≤ 65535) }
    // What the text has is answered, unless memory runs out.
    ensures only { (r : Reading) → Items bytes.now r → (result ≡ Err TextFault.Memory) ⊎ (result ≡ r) }
{
    read(alloc, bytes)
}

/// Each text has one reading: its items, or one fault.
pub fn one_reading()
    ensures one { HaveOneReading }
    ensures some { HaveSomeReading }
{}
