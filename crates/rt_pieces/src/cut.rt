//! The cut of a text, from piece to piece.

ghost use Rattle.std.specs.Prelude.{◌≡◌, ◌≤◌, length};
ghost use Rattle.rt_pieces.specs.Begins.{BeginsWith, IsInside};
ghost use Rattle.rt_pieces.specs.Cutting.{HaveOneCut, HaveSomeCut};
ghost use Rattle.rt_pieces.specs.Pieces as pieces;
ghost use Rattle.rt_pieces.specs.Steps as spec;
ghost use Rattle.rt_pieces.specs.Steps.{IsWithin, LooksAt};

use crate::bytes::{same, upper};
use crate::fault::TextFault;
use crate::item::Span;
use crate::number::{Base, Opened};
use crate::step::{Step, digits_step, step_of};

/// What is left of a text: the line in which it begins, from 1, and its bytes.
#[derive(Clone, Copy)]
pub struct Rest<'a> {
    pub line: u32,
    pub bytes: &'a [u8],
}

/// A piece of a text: its bytes, its line and its span. The digits behind BIN, OCT or HEX have that base, and
/// begin at that word.
#[derive(Clone, Copy)]
pub struct Found<'a> {
    pub base: Option<Base>,
    pub text: &'a [u8],
    pub span: Span,
}

/// What the cut of what is left begins with.
#[derive(Drop)]
pub enum Seen<'a> {
    /// Nothing: the text ends there, or behind layout and comments.
    End,
    /// A byte with which no piece begins, or a comment that is left open.
    Fault(TextFault),
    /// A piece, and what is left behind it.
    Piece(Found<'a>, Rest<'a>),
}

/// A place in the text: the line, and what is left there; and BIN, OCT or HEX, where its digits are still to come.
#[derive(Clone, Copy)]
pub struct Cursor<'a> {
    pub opened: Option<Opened>,
    pub line: u32,
    pub rest: &'a [u8],
}

/// What stands at a place: something that is passed over, with the place behind it, or what is seen there.
#[derive(Drop)]
pub enum Look<'a> {
    Gap(Cursor<'a>),
    Sees(Seen<'a>),
}

fn base_of(text: &[u8]) -> Option<Base>
    ensures { result ≡ pieces.base_of text.now }
{
    let [a, b, c] = text else {
        return None;
    };
    let word = [upper(*a), upper(*b), upper(*c)];
    if same(&word, b"BIN") {
        Some(Base::Two)
    } else if same(&word, b"OCT") {
        Some(Base::Eight)
    } else if same(&word, b"HEX") {
        Some(Base::Sixteen)
    } else {
        None
    }
}

fn next_step(opened: Option<Opened>, bytes: &[u8]) -> Step
    requires { length bytes.now ≤ 4194304 }
    ensures step { result ≡ spec.next_step opened bytes.now }
    ensures within { IsWithin opened (length bytes.now) result }
{
    match opened {
        None => step_of(bytes),
        Some(_) => digits_step(bytes),
    }
}

fn cut_piece<'a>(total: usize, cursor: Cursor<'a>, len: usize) -> Look<'a>
    requires size { total ≤ 4194304 }
    requires inside { IsInside total cursor.line cursor.rest.now }
    requires step { Step.Cut len ≡ spec.next_step cursor.opened cursor.rest.now }
    requires within { IsWithin cursor.opened (length cursor.rest.now) (Step.Cut len) }
    ensures { LooksAt total cursor.entry.opened cursor.entry.line cursor.entry.rest.now result }
{
    let line = cursor.line;
    let text = &cursor.rest[..len];
    let rest = &cursor.rest[len..];
    let from = (total - cursor.rest.len()) as u32;
    let to = (total - rest.len()) as u32;
    let after = Rest { line, bytes: rest };
    match cursor.opened {
        Some(opened) => {
            let base = Some(opened.base);
            let span = Span {
                line: opened.line,
                from: opened.from,
                to,
            };
            Look::Sees(Seen::Piece(Found { base, text, span }, after))
        }
        None => match base_of(text) {
            Some(base) => Look::Gap(Cursor {
                opened: Some(Opened { base, line, from }),
                line,
                rest,
            }),
            None => {
                let base = None;
                let span = Span { line, from, to };
                Look::Sees(Seen::Piece(Found { base, text, span }, after))
            }
        },
    }
}

fn look_at<'a>(total: usize, cursor: Cursor<'a>) -> Look<'a>
    requires size { total ≤ 4194304 }
    requires inside { IsInside total cursor.line cursor.rest.now }
    ensures { LooksAt total cursor.entry.opened cursor.entry.line cursor.entry.rest.now result }
{
    match next_step(cursor.opened, cursor.rest) {
        Step::Finish => Look::Sees(Seen::End),
        Step::Open => Look::Sees(Seen::Fault(TextFault::OpenComment(cursor.line))),
        Step::Bad => Look::Sees(Seen::Fault(TextFault::BadCharacter(cursor.line))),
        Step::Skip(len, lines) => {
            let line = cursor.line + lines as u32;
            Look::Gap(Cursor {
                opened: cursor.opened,
                line,
                rest: &cursor.rest[len..],
            })
        }
        Step::Cut(len) => cut_piece(total, cursor, len),
    }
}

/// The next piece of a text of at most 4,194,304 bytes, where this is left of it, or how its cut ends (BS 5904, items).
pub fn next_piece<'a>(total: usize, start: Rest<'a>) -> Seen<'a>
    requires size { total ≤ 4194304 }
    requires inside { IsInside total start.line start.bytes.now }
    ensures { BeginsWith total start.entry.line start.entry.bytes.now result }
{
    let mut cursor = Cursor {
        opened: None,
        line: start.line,
        rest: start.bytes,
    };
    loop {
        match look_at(total, cursor) {
            Look::Gap(next) => cursor = next,
            Look::Sees(seen) => return seen,
        }
    }
}

/// Each text has one cut.
pub fn one_cut()
    ensures one { HaveOneCut }
    ensures some { HaveSomeCut }
{}
