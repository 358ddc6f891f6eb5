//! One step of the cut.

ghost use Rattle.std.specs.Prelude.{◌≡◌, ◌+◌, ◌<◌, ◌^◌, length, take_while};
ghost use Rattle.rt_pieces.specs.Bytes as bytes_of;
ghost use Rattle.rt_pieces.specs.Steps as spec;

use crate::bytes::{in_string, is_blank, is_digit, is_letter, is_letter_or_digit, is_printable};
use crate::mark::{mark_of_one, mark_of_three, mark_of_two};

/// What begins a text.
#[derive(Clone, Copy)]
pub enum Step {
    Finish,
    /// So many bytes of layout or a comment, with so many line ends.
    Skip(usize, usize),
    /// A piece of so many bytes.
    Cut(usize),
    /// A comment that the text leaves open.
    Open,
    /// Nothing that can be cut.
    Bad,
}

fn name_len(bytes: &[u8]) -> usize
    ensures { result ≡ length (take_while bytes_of.is_letter_or_digit bytes.now) }
{
    bytes.iter().take_while(|b| is_letter_or_digit(**b)).count()
}

fn digits_len(bytes: &[u8]) -> usize
    ensures { result ≡ length (take_while bytes_of.is_digit bytes.now) }
{
    bytes.iter().take_while(|b| is_digit(**b)).count()
}

fn comment_len(bytes: &[u8]) -> usize
    ensures { result ≡ length (take_while bytes_of.in_comment bytes.now) }
{
    bytes.iter().take_while(|b| **b != 37).count()
}

/// How many bytes there are up to the next quotation mark or line end, or to the end where none comes.
pub fn string_len(bytes: &[u8]) -> usize
    ensures { result ≡ length (take_while bytes_of.in_string bytes.now) }
{
    bytes.iter().take_while(|b| in_string(**b)).count()
}

fn lines_in(bytes: &[u8]) -> usize
    ensures { result ≡ bytes_of.lines_in bytes.now }
{
    bytes.iter().filter(|b| **b == 10).count()
}

fn comment_step(bytes: &[u8]) -> Step
    requires { length bytes.now + 2 < 2 ^ 64 }
    ensures { result ≡ spec.comment_step bytes.now }
{
    let len = comment_len(bytes);
    if len == bytes.len() {
        return Step::Open;
    }
    Step::Skip(len + 2, lines_in(&bytes[..len]))
}

fn character_step(bytes: &[u8]) -> Step
    ensures { result ≡ spec.character_step bytes.now }
{
    match bytes {
        [c, d, ..] => {
            if is_printable(*c) && *d == 39 {
                Step::Cut(3)
            } else {
                Step::Bad
            }
        }
        _ => Step::Bad,
    }
}

fn string_end(len: usize, bytes: &[u8]) -> Step
    requires { len + 2 < 2 ^ 64 }
    ensures { result ≡ spec.string_end len bytes.now }
{
    match bytes {
        [34, ..] => Step::Cut(len + 2),
        _ => Step::Cut(len + 1),
    }
}

fn string_step(bytes: &[u8]) -> Step
    requires { length bytes.now + 2 < 2 ^ 64 }
    ensures { result ≡ spec.string_step bytes.now }
{
    let len = string_len(bytes);
    string_end(len, &bytes[len..])
}

fn one_step(a: u8) -> Step
    ensures { result ≡ spec.one_step a }
{
    if mark_of_one(a).is_some() {
        Step::Cut(1)
    } else {
        Step::Bad
    }
}

fn two_step(a: u8, b: u8) -> Step
    ensures { result ≡ spec.two_step a b }
{
    if mark_of_two(a, b).is_some() {
        Step::Cut(2)
    } else {
        one_step(a)
    }
}

fn mark_step(a: u8, bytes: &[u8]) -> Step
    ensures { result ≡ spec.mark_step a bytes.now }
{
    match bytes {
        [] => one_step(a),
        [b] => two_step(a, *b),
        [b, c, ..] => {
            if mark_of_three(a, *b, *c).is_some() {
                Step::Cut(3)
            } else {
                two_step(a, *b)
            }
        }
    }
}

/// What begins the text.
#[tactic(auto, unfolding(crate::specs::Steps::step_of))]
pub fn step_of(bytes: &[u8]) -> Step
    requires { length bytes.now + 2 < 2 ^ 64 }
    ensures { result ≡ spec.step_of bytes.now }
{
    match bytes {
        [] => Step::Finish,
        [b, rest @ ..] => {
            if is_blank(*b) {
                Step::Skip(1, lines_in(&[*b]))
            } else if *b == 37 {
                comment_step(rest)
            } else if is_letter(*b) {
                Step::Cut(name_len(rest) + 1)
            } else if is_digit(*b) {
                Step::Cut(digits_len(rest) + 1)
            } else if *b == 39 {
                character_step(rest)
            } else if *b == 34 {
                string_step(rest)
            } else {
                mark_step(*b, rest)
            }
        }
    }
}

/// What begins the text where the digits of a base are still to come.
#[tactic(auto, unfolding(crate::specs::Steps::digits_step))]
pub fn digits_step(bytes: &[u8]) -> Step
    requires { length bytes.now + 2 < 2 ^ 64 }
    ensures { result ≡ spec.digits_step bytes.now }
{
    match bytes {
        [] => Step::Cut(0),
        [b, rest @ ..] => {
            if is_blank(*b) {
                Step::Skip(1, lines_in(&[*b]))
            } else if *b == 37 {
                comment_step(rest)
            } else {
                Step::Cut(name_len(bytes))
            }
        }
    }
}
