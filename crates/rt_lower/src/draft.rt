//! The code of a procedure as it is written.

ghost use Rattle.std.specs.Prelude.{◌≡◌, ◌+◌, ◌<◌, ◌++◌, ◌∷◌, [], length, IfOk, OnOk};
ghost use Rattle.rt_lower.specs.Drafts as drafts;
ghost use Rattle.rt_lower.specs.declared.draft.Piece.TheVariants as piece;

use rt_icode::Ins;
use rt_tree::Rel;
use rt_words::{List, Memory};
use std::alloc::Global;

/// An instruction as it is written: a jump forward leads to a place, by its number, and GOTO and SWITCH to a label.
#[derive(Drop)]
pub(crate) enum Piece {
    Whole(Ins),
    Test {
        relation: Rel,
        when: bool,
        to: usize,
    },
    Skip {
        to: usize,
    },
    CountFor {
        local: u16,
        to: usize,
    },
    CountTo {
        local: u16,
        to: usize,
    },
    Go {
        label: u16,
    },
    Case {
        label: u16,
    },
}

/// The code of a procedure as far as it is written.
#[derive(Drop)]
pub(crate) struct Draft {
    pub(crate) code: List<Piece>,
    /// The number of the instruction at each place, which is 0 as long as it isn't known.
    pub(crate) places: List<usize>,
    /// The number of the instruction to which each label leads, as far as labels are met.
    pub(crate) labels: List<Option<usize>>,
}

impl Draft {
    pub(crate) fn new(alloc: Global) -> Result<Draft, Memory>
        ensures { IfOk result (λ d. d ≡ record { code = []; places = []; labels = [] }) }
    {
        let code = List::new(alloc, 0)?;
        let places = List::new(alloc, 0)?;
        Ok(Draft {
            code,
            places,
            labels: List::new(alloc, 0)?,
        })
    }

    pub(crate) fn put(&mut self, ins: Ins) -> Result<(), Memory>
        ensures { OnOk result (self.new ≡ drafts.put (ins ∷ []) self.old) }
    {
        self.code.push(Piece::Whole(ins))
    }

    pub(crate) fn add(&mut self, piece: Piece) -> Result<(), Memory>
        ensures { OnOk result (self.new ≡ drafts.add (piece ∷ []) self.old) }
    {
        self.code.push(piece)
    }

    /// A place that isn't known yet.
    pub(crate) fn open(&mut self) -> Result<usize, Memory>
        ensures number { IfOk result (λ k. k ≡ length self.old.places) }
        ensures opened { OnOk result (self.new ≡ drafts.opened self.old) }
    {
        let number = self.places.len();
        self.places.push(0)?;
        Ok(number)
    }

    /// The place is where the code ends now.
    pub(crate) fn here(&mut self, place: usize)
        ensures { self.new ≡ drafts.here place self.old }
    {
        if place < self.places.len() {
            self.places.set(place, self.code.len());
        }
    }

    /// A label leads to where the code ends now, unless it was met before.
    pub(crate) fn note(&mut self, label: u16) -> Result<(), Memory>
        ensures { OnOk result (self.new ≡ drafts.note label self.old) }
    {
        note(&mut self.labels, label, self.code.len())
    }
}

fn note(labels: &mut List<Option<usize>>, label: u16, at: usize) -> Result<(), Memory>
    ensures { OnOk result (labels.new ≡ drafts.noted label at labels.old) }
{
    if is_noted(labels, label) {
        return Ok(());
    }
    grow(labels, usize::from(label) + 1)?;
    if usize::from(label) < labels.len() {
        labels.set(usize::from(label), Some(at));
    }
    Ok(())
}

fn is_noted(labels: &List<Option<usize>>, label: u16) -> bool
    ensures { result ≡ drafts.is_there (drafts.label_in labels.now label) }
{
    match labels.get(usize::from(label)) {
        Some(place) => place.is_some(),
        None => false,
    }
}

fn grow(labels: &mut List<Option<usize>>, count: usize) -> Result<(), Memory>
    ensures { OnOk result (labels.new ≡ drafts.grown count labels.old) }
{
    while labels.len() < count {
        labels.push(None)?;
    }
    Ok(())
}
