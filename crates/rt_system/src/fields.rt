//! The fields of a line.

ghost use Rattle.std.specs.Prelude.{◌≡◌, ◌≤◌, length, take, take_while, map, IfOk};
ghost use Rattle.std.specs.List.{list_all};
ghost use Rattle.std.specs.Str.{bytes_eq};
ghost use Rattle.rt_pieces.specs.Bytes as bytes_of;
ghost use Rattle.rt_system.specs.Reading as reading;
ghost use Rattle.rt_system.specs.Reading.{Gives};
ghost use Rattle.rt_system.specs.ReadingSystems as spec;

use crate::lines::is_blank;
use rt_pieces::{is_digit, is_letter, upper, word_of};
use rt_words::{Memory, Name};
use std::alloc::Global;

/// How many bytes a name may have.
const MOST_NAME_BYTES: usize = 32;

fn field_len(line: &[u8]) -> usize
    ensures value { result ≡ length (take_while spec.in_field line.now) }
    ensures within { result ≤ length line.now }
{
    line.iter().take_while(|b| !is_blank(**b)).count()
}

fn blanks_len(text: &[u8]) -> usize
    ensures value { result ≡ length (take_while reading.is_blank text.now) }
    ensures within { result ≤ length text.now }
{
    text.iter().take_while(|b| is_blank(**b)).count()
}

/// The first field of a line, and what stands behind the blanks after it. `None` where no blank follows it.
#[tactic(auto, unfolding(crate::specs::ReadingSystems::next_field))]
pub fn next_field(line: &[u8]) -> Option<(&[u8], &[u8])>
    ensures { Gives (λ x. (x.0.now, x.1.now)) result (spec.next_field line.now) }
{
    let (field, after) = line.split_at(field_len(line));
    let (blanks, rest) = after.split_at(blanks_len(after));
    if blanks.is_empty() {
        return None;
    }
    Some((field, rest))
}

fn is_file_byte(byte: u8) -> bool
    ensures { result ≡ spec.is_file_byte byte }
{
    33 <= byte && byte <= 126
}

fn are_file_bytes(text: &[u8]) -> bool
    ensures { result ≡ list_all spec.is_file_byte text.now }
{
    text.iter().all(|b| is_file_byte(*b))
}

/// Whether the text names a file: one or more bytes from 33 to 126.
pub fn is_file(text: &[u8]) -> bool
    ensures { result ≡ spec.is_file text.now }
{
    !text.is_empty() && are_file_bytes(text)
}

fn are_letters_or_digits(text: &[u8]) -> bool
    ensures { result ≡ list_all bytes_of.is_letter_or_digit text.now }
{
    text.iter().all(|b| is_letter(*b) || is_digit(*b))
}

/// The text in upper case, and zeros behind it.
fn upper_case(text: &[u8]) -> [u8; 32]
    requires { length text.now ≤ 32 }
    ensures { take (length text.now) result ≡ map bytes_of.upper text.now }
{
    let mut upper_case = [0; 32];
    for (i, byte) in text.iter().enumerate() {
        upper_case[i] = upper(*byte);
    }
    upper_case
}

fn same(a: &[u8], b: &[u8]) -> bool
    ensures { result ≡ bytes_eq a.now b.now }
{
    a == b
}

/// Whether the text is this word, which is in upper case, in any mixture of cases.
pub fn is_spelled(word: &[u8], text: &[u8]) -> bool
    requires { length word.now ≤ 32 }
    ensures { result ≡ spec.is_spelled word.now text.now }
{
    if word.len() != text.len() {
        return false;
    }
    same(word, &upper_case(text)[..text.len()])
}

/// Whether the text is a reserved word, in any mixture of cases.
fn is_reserved(text: &[u8]) -> bool
    requires { length text.now ≤ 32 }
    ensures { result ≡ spec.is_reserved text.now }
{
    word_of(&upper_case(text)[..text.len()]).is_some()
}

/// Whether the text is a name, in any mixture of cases: a letter followed by letters or digits, 1 to 32 in all, and
/// no reserved word.
#[tactic(auto, unfolding(crate::specs::ReadingSystems::is_name))]
pub fn is_name(text: &[u8]) -> bool
    ensures { result ≡ spec.is_name text.now }
{
    match text {
        [] => false,
        [first, others @ ..] => {
            is_letter(*first)
                && are_letters_or_digits(others)
                && text.len() <= MOST_NAME_BYTES
                && !is_reserved(text)
        }
    }
}

/// The name that is this text in upper case.
pub fn named(alloc: Global, text: &[u8]) -> Result<Name, Memory>
    requires some { 1 ≤ length text.now }
    requires short { length text.now ≤ 32 }
    ensures { IfOk result (λ name. name ≡ map bytes_of.upper text.now) }
{
    match Name::new(alloc, &upper_case(text)[..text.len()])? {
        Some(name) => Ok(name),
        None => unreachable!(),
    }
}
