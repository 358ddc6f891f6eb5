//! The instructions of a procedure.

ghost use Rattle.std.specs.Prelude.{◌≡◌, ℕ, ◌+◌, ◌*◌, ◌<◌, ◌≤◌, List, ◌++◌, length, decimal, codes, IfOk, OnOk};
ghost use Rattle.rt_words.specs.Operators as operators;
ghost use Rattle.pdp_code.specs.Text.{text_of};
ghost use Rattle.rt_report.specs.Listing.{words_text, code_line, ListsFrom};
ghost use Rattle.rt_report.specs.Writing.{Puts, PutsLine};

use itoa::Buffer;
use pdp_code::{Instr, decode, print_instr};
use rt_words::{Memory, Text, octal6};

fn put_words(words: &[u16], out: &mut Text) -> Result<(), Memory>
    ensures { OnOk result (out.new.items ≡ out.old.items ++ words_text words.now) }
{
    for word in words {
        out.push_all(b" ")?;
        out.push_all(&octal6(*word))?;
    }
    Ok(())
}

/// What stands before the text of a line: the offset in bytes, the words, and the mark of the first of them.
fn put_front(offset: u16, words: &[u16], mark: u8, out: &mut Text) -> Result<(), Memory>
    ensures { OnOk result (out.new.items ≡ out.old.items ++ (operators.octal6 offset ++ words_text words.now ++ codes " " ++ decimal mark ++ codes " ")) }
{
    let mut digits = Buffer::new();
    out.push_all(&octal6(offset))?;
    put_words(words, out)?;
    out.push_all(b" ")?;
    out.push_all(digits.format(mark).as_bytes())?;
    out.push_all(b" ")
}

fn put_instruction(
    offset: u16,
    words: &[u16],
    mark: u8,
    instruction: &Instr,
    out: &mut Text,
) -> Result<(), Memory>
    ensures { OnOk result (out.new.items ≡ out.old.items ++ code_line offset words.now mark (text_of instruction.now)) }
{
    put_front(offset, words, mark, out)?;
    print_instr(instruction, out)?;
    out.push_all(b"\n")
}

/// The line of a word that begins no instruction.
fn put_word(offset: u16, word: &[u16], mark: u8, out: &mut Text) -> Result<(), Memory>
    ensures { OnOk result (out.new.items ≡ out.old.items ++ code_line offset word.now mark (codes "WORD")) }
{
    put_front(offset, word, mark, out)?;
    out.push_all(b"WORD\n")
}

/// The line at a word of a code. The answer is the number of the word behind it.
fn put_line(words: &[u16], marks: &[u8], at: usize, out: &mut Text) -> Result<usize, Memory>
    requires short { length words.now ≤ 16383 }
    requires marked { length marks.now ≡ length words.now }
    requires there { at < length words.now }
    ensures { IfOk result (PutsLine words.now marks.now at out.old.items out.new.items) }
{
    let offset = 2 * at as u16;
    match decode(&words[at..]) {
        Some((instruction, count)) => {
            let behind = at + usize::from(count);
            put_instruction(offset, &words[at..behind], marks[at], &instruction, out)?;
            Ok(behind)
        }
        None => {
            put_word(offset, &words[at..at + 1], marks[at], out)?;
            Ok(at + 1)
        }
    }
}

/// The lines of a code.
pub fn put_code(words: &[u16], marks: &[u8], out: &mut Text) -> Result<(), Memory>
    requires short { length words.now ≤ 16383 }
    requires marked { length marks.now ≡ length words.now }
    ensures { OnOk result (Puts (ListsFrom words.now marks.now 0) out.old.items out.new.items) }
{
    let mut at = 0;
    while at < words.len() {
        at = put_line(words, marks, at, out)?;
    }
    Ok(())
}
