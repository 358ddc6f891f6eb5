//! Instructions by their words.

ghost use Rattle.pdp_code.specs.Code.{IsCodable};

use crate::numbers::{octal, tell_number, tell_octal};
use pdp_code::{Instr, decode, encode, print_instr};
use rt_words::{List, Memory, Text};
use std::alloc::Global;

/// The instruction that begins these words.
pub fn describe_words(alloc: Global, text: &str, out: &mut Text) -> Result<(), Memory> {
    match words_of(alloc, text)? {
        Some(words) => tell_decoded(words.as_slice(), out),
        None => out.push_all(b"words are octal numbers"),
    }
}

fn words_of(alloc: Global, text: &str) -> Result<Option<List<u16>>, Memory> {
    let mut words = List::new(alloc, 3)?;
    for digits in text.split_ascii_whitespace() {
        match octal(digits) {
            Some(word) => words.push(word)?,
            None => return Ok(None),
        }
    }
    Ok(Some(words))
}

fn tell_decoded(words: &[u16], out: &mut Text) -> Result<(), Memory> {
    match decode(words) {
        Some((instr, count)) => tell_instr(&instr, count, out),
        None => out.push_all(b"no instruction"),
    }
}

fn tell_instr(instr: &Instr, count: u8, out: &mut Text) -> Result<(), Memory>
    requires { IsCodable instr.now }
{
    print_instr(instr, out)?;
    tell_number(" has ", u64::from(count), out)?;
    out.push(b':')?;
    let (words, length) = encode(instr);
    for word in &words[..length as usize] {
        out.push(b' ')?;
        tell_octal(*word, out)?;
    }
    Ok(())
}
