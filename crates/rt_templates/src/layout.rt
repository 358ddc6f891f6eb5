//! Where the parameters and locals of a procedure lie, and its instructions.
ghost use Rattle.std.specs.Prelude.{◌≡◌, ◌≤◌, ◌*◌, map, sum, IfOk, slice_index};
ghost use Rattle.std.specs.Option.{option_copied};
ghost use Rattle.rt_icode.specs.Weights as weights;
ghost use Rattle.rt_templates.specs.Layouts as layouts;

use crate::line::Hole;
use crate::routine::Routine;
use pdp_code::{Operand, Reg};
use rt_icode::{Fixed, Ins, words};
use rt_object::Relocated;
use rt_words::{List, Memory, wrap_add, wrap_mul, wrap_sub};
use std::alloc::Global;

/// What the templates know of a procedure: its brick, how many parameters and locals it has, and the first byte of the words of each
/// instruction.
#[derive(Drop)]
pub struct Layout {
    pub brick: u16,
    pub parameters: u16,
    pub locals: u16,
    pub starts: List<u16>,
}

// So many words below the frame.
fn below(n: u16) -> u16
    ensures { result ≡ layouts.below n }
{
    wrap_sub(0, wrap_mul(2, n))
}

impl Layout {
    fn distance(&self, local: u16) -> u16
        ensures { result ≡ layouts.distance self.now local }
    {
        if local < self.parameters {
            wrap_add(4, wrap_mul(2, self.parameters - 1 - local))
        } else {
            below(wrap_add(local - self.parameters, 1))
        }
    }

    /// A parameter or local.
    pub(crate) fn local(&self, local: u16) -> Operand
        ensures { result ≡ layouts.local self.now local }
    {
        Operand::Index(Reg::R5, self.distance(local))
    }

    /// What ERL was when the procedure was entered.
    pub(crate) fn former(&self) -> Operand
        ensures { result ≡ layouts.former self.now }
    {
        Operand::Index(Reg::R5, below(wrap_add(self.locals, 4)))
    }

    /// The words of an instruction.
    #[tactic(auto, using(crate::proofs::Behind::index_some, crate::proofs::Behind::index_none))]
    pub(crate) fn way(&self, number: usize) -> Hole
        ensures { result ≡ layouts.way self.now number }
    {
        let offset = match self.starts.get(number) {
            Some(start) => *start,
            None => 0,
        };
        Hole {
            of: Relocated::Brick(self.brick),
            offset,
        }
    }
}

/// A brick's first byte.
pub(crate) fn brick(number: u16) -> Hole
    ensures { result ≡ layouts.brick number }
{
    Hole {
        of: Relocated::Brick(number),
        offset: 0,
    }
}

/// A fixed place.
pub(crate) fn place(place: &Fixed) -> Hole
    ensures { result ≡ layouts.place place.now }
{
    Hole {
        of: Relocated::Brick(place.brick),
        offset: place.offset,
    }
}

/// The first element of a fixed array.
pub(crate) fn elements(row: &Fixed) -> Hole
    ensures { result ≡ layouts.elements row.now }
{
    Hole {
        of: Relocated::Brick(row.brick),
        offset: wrap_add(row.offset, 2),
    }
}

/// A string's length word.
pub(crate) fn text(number: u16) -> Hole
    ensures { result ≡ layouts.text number }
{
    Hole {
        of: Relocated::String(number),
        offset: 0,
    }
}

/// A routine of the support code.
pub(crate) fn support(routine: Routine) -> Hole
    ensures { result ≡ layouts.support routine }
{
    Hole {
        of: Relocated::Support(routine.number()),
        offset: 0,
    }
}

fn starts_of(alloc: Global, code: &[Ins]) -> Result<List<u16>, Memory>
    requires { 2 * sum (map weights.words_of code.now) ≤ 65535 }
    ensures { IfOk result (λ it. it ≡ layouts.starts 0 code.now) }
{
    let mut starts = List::new(alloc, code.len())?;
    let mut at: u16 = 0;
    for i in code {
        starts.push(at)?;
        at += 2 * words(i) as u16;
    }
    Ok(starts)
}

// The brick, the parameters and the locals of the frame that an instruction makes.
fn frame(i: Option<&Ins>) -> (u16, u16, u16)
    ensures { result ≡ layouts.frame (option_copied i.entry) }
{
    match i {
        Some(
            Ins::Enter {
                brick,
                parameters,
                locals,
                ..
            },
        ) => (*brick, *parameters, *locals),
        _ => (0, 0, 0),
    }
}

/// The layout of a procedure whose code this is.
pub(crate) fn layout_of(alloc: Global, code: &[Ins]) -> Result<Layout, Memory>
    requires { 2 * sum (map weights.words_of code.now) ≤ 65535 }
    ensures { IfOk result (λ it. it ≡ layouts.layout_of code.now) }
{
    let starts = starts_of(alloc, code)?;
    let (brick, parameters, locals) = frame(code.first());
    Ok(Layout {
        brick,
        parameters,
        locals,
        starts,
    })
}
