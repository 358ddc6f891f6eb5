//! Writing lines.

ghost use Rattle.std.specs.Prelude.{◌≡◌, ◌++◌, ◌∷◌, ◌+◌, ◌≤◌, length, decimal, codes, OnOk, IsOk};
ghost use Rattle.rt_report.specs.Lines.{behind, line, text_of, texts_of};

use crate::word::Word;
use itoa::Buffer;
use rt_words::{Memory, Text};

fn put_number(out: &mut Text, number: u64) -> Result<(), Memory>
    ensures items { OnOk result (out.new.items ≡ out.old.items ++ decimal number) }
    ensures room { length (decimal number) ≤ out.old.spare → IsOk result }
    ensures spare { out.old.spare ≤ out.new.spare + length (decimal number) }
{
    let mut digits = Buffer::new();
    out.push_all(digits.format(number).as_bytes())
}

fn put_negative(out: &mut Text, number: u64) -> Result<(), Memory>
    ensures items { OnOk result (out.new.items ≡ out.old.items ++ (codes "-" ++ decimal number)) }
    ensures room { 1 + length (decimal number) ≤ out.old.spare → IsOk result }
    ensures spare { out.old.spare ≤ out.new.spare + (1 + length (decimal number)) }
{
    out.push_all(b"-")?;
    put_number(out, number)
}

fn put_dotted(out: &mut Text, first: &[u8], second: &[u8]) -> Result<(), Memory>
    ensures items { OnOk result (out.new.items ≡ out.old.items ++ (first.now ++ (codes "." ++ second.now))) }
    ensures room { length first.now + (1 + length second.now) ≤ out.old.spare → IsOk result }
    ensures spare { out.old.spare ≤ out.new.spare + (length first.now + (1 + length second.now)) }
{
    out.push_all(first)?;
    out.push_all(b".")?;
    out.push_all(second)
}

fn put_word(out: &mut Text, word: Word<'_>) -> Result<(), Memory>
    ensures items { OnOk result (out.new.items ≡ out.old.items ++ text_of word.entry) }
    ensures room { length (text_of word.entry) ≤ out.old.spare → IsOk result }
    ensures spare { out.old.spare ≤ out.new.spare + length (text_of word.entry) }
{
    match word {
        Word::Text(text) => out.push_all(text),
        Word::Number(number) => put_number(out, number),
        Word::Negative(number) => put_negative(out, number),
        Word::Dotted(first, second) => put_dotted(out, first, second),
    }
}

/// Writes a line of words, with one space between them. Where the text has room for it no memory is taken.
pub fn put_line(out: &mut Text, first: Word<'_>, rest: &[Word<'_>]) -> Result<(), Memory>
    ensures items { OnOk result (out.new.items ≡ out.old.items ++ line (text_of first.entry ∷ texts_of rest.now)) }
    ensures room { length (line (text_of first.entry ∷ texts_of rest.now)) ≤ out.old.spare → IsOk result }
    ensures spare { out.old.spare ≤ out.new.spare + length (line (text_of first.entry ∷ texts_of rest.now)) }
{
    put_word(out, first)?;
    for word in rest {
        out.push_all(b" ")?;
        put_word(out, *word)?;
    }
    out.push_all(b"\n")
}
