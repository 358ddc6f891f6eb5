//! The code where all places and labels are known.

ghost use Rattle.std.specs.Prelude.{◌≡◌, ◌++◌, ◌∷◌, [], IfOk, length, slice_get};
ghost use Rattle.rt_lower.specs.Drafts as drafts;

use crate::draft::{Draft, Piece};
use rt_icode::Ins;
use rt_words::{List, Memory};
use std::alloc::Global;

/// A number of instructions; one of more than 32 bits is answered as want of memory.
pub(crate) fn number(n: usize) -> Result<u32, Memory>
    ensures { IfOk result (λ k. k ≡ n) }
{
    if n > 4_294_967_295 {
        Err(Memory)
    } else {
        Ok(n as u32)
    }
}

/// How many instructions a jump to a place leaves out, if it is instruction `k`.
fn left_out(places: &[usize], k: usize, to: usize) -> Result<u32, Memory>
    ensures { IfOk result (λ n. n ≡ drafts.left_out k (drafts.place_in places.now to)) }
{
    let at = match places.get(to) {
        Some(at) => *at,
        None => 0,
    };
    number(at.saturating_sub(k).saturating_sub(1))
}

fn lead(labels: &[Option<usize>], label: u16) -> Result<u32, Memory>
    ensures { IfOk result (λ n. n ≡ drafts.lead_in labels.now label) }
{
    match labels.get(usize::from(label)) {
        Some(Some(at)) => number(*at),
        _ => Ok(0),
    }
}

/// Instruction `k`.
fn laid(places: &[usize], labels: &[Option<usize>], k: usize, piece: Piece) -> Result<Ins, Memory>
    ensures { IfOk result (λ i. i ≡ drafts.laid (drafts.place_in places.now) (drafts.lead_in labels.now) k piece) }
{
    match piece {
        Piece::Whole(ins) => Ok(ins),
        Piece::Test { relation, when, to } => Ok(Ins::Test {
            relation,
            when,
            more: left_out(places, k, to)?,
        }),
        Piece::Skip { to } => Ok(Ins::Skip {
            more: left_out(places, k, to)?,
        }),
        Piece::CountFor { local, to } => Ok(Ins::CountFor {
            local,
            more: left_out(places, k, to)?,
        }),
        Piece::CountTo { local, to } => Ok(Ins::CountTo {
            local,
            more: left_out(places, k, to)?,
        }),
        Piece::Go { label } => Ok(Ins::Go {
            to: lead(labels, label)?,
        }),
        Piece::Case { label } => Ok(Ins::Case {
            to: lead(labels, label)?,
        }),
    }
}

fn lay(
    alloc: Global,
    places: &[usize],
    labels: &[Option<usize>],
    pieces: Vec<Piece>,
) -> Result<List<Ins>, Memory>
    ensures { IfOk result (λ it. it ≡ drafts.laid_from (drafts.place_in places.now) (drafts.lead_in labels.now) 0 pieces.items) }
{
    let mut made = List::new(alloc, pieces.len())?;
    for piece in pieces {
        let k = made.len();
        made.push(laid(places, labels, k, piece)?)?;
    }
    Ok(made)
}

impl Draft {
    /// The code that is written.
    pub(crate) fn laid_out(self, alloc: Global) -> Result<List<Ins>, Memory>
        ensures { IfOk result (λ it. it ≡ drafts.laid_out self) }
    {
        let Draft {
            code,
            places,
            labels,
        } = self;
        lay(alloc, places.as_slice(), labels.as_slice(), code.into_vec())
    }
}
