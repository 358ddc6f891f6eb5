//! Tick texts.

ghost use Rattle.std.specs.Prelude.{◌≡◌, ◌++◌, ◌≤◌, ◌⊎◌, Ok, Err, List, ℕ, length, take_while, replicate, IfOk, IfErr, OnOk};
ghost use Rattle.rt_system.specs.Reading as reading;
ghost use Rattle.rt_system.specs.ReadingTicks as spec;
ghost use Rattle.rt_system.specs.ReadingTicks.{Adds, Refuses};
ghost use Rattle.rt_system.specs.Ticks.{ticks_of, IsTicks, IsBadTickLine, RefusesTicks};
ghost use Rattle.rt_system.specs.declared.fault.LineFault.TheVariants as fault;

use crate::fault::LineFault;
use crate::lines::{first_line, is_blank_line};
use crate::numbers::{MOST_NUMBER, number, plain_number};
use rt_words::{List, Memory};
use std::alloc::Global;
use std::marker::Model;

/// How many ticks a text may have.
const MOST_TICKS: usize = 200_000;

/// How often a line may repeat a gap.
const MOST_COUNT: u32 = 200_000;

/// How many digits a gap may have.
const MOST_GAP_DIGITS: usize = 10;

/// The gaps of a tick text: at most 200,000 of them, each at most 4,000,000,000. Contracts see them as a
/// list.
#[derive(Drop)]
pub struct Ticks {
    gaps: List<u32>,
}

impl Model for Ticks {
    ghost use Rattle.std.specs.Prelude.{List, ℕ};
    ghost use Rattle.rt_system.specs.TickRanges.{HasTickRanges};

    ghost Value = { List ℕ };

    ghost view = { λ ticks. ticks.gaps };

    ghost invariant = { λ ticks. HasTickRanges ticks.gaps };
}

impl Ticks {
    ghost use Rattle.rt_system.specs.TickRanges.{HasTickRanges};

    /// Lends the gaps.
    pub fn gaps(&self) -> &[u32]
        ensures gaps { result.now ≡ self.now }
        ensures ranges { HasTickRanges self.now }
    {
        self.gaps.as_slice()
    }
}

/// What a line of a tick text says.
#[derive(Clone, Copy)]
pub enum TickLine {
    Blank,
    /// One tick after a gap.
    Gap(u32),
    /// As many ticks as the second number says, each after the gap.
    Gaps(u32, u32),
}

fn is_no_star(byte: u8) -> bool
    ensures { result ≡ spec.is_no_star byte }
{
    byte != b'*'
}

fn star_at(line: &[u8]) -> usize
    ensures value { result ≡ length (take_while spec.is_no_star line.now) }
    ensures within { result ≤ length line.now }
{
    line.iter().take_while(|b| is_no_star(**b)).count()
}

#[tactic(auto, unfolding(crate::specs::ReadingTicks::gap))]
fn gap(text: &[u8]) -> Option<u32>
    ensures { result ≡ spec.gap text.now }
{
    if text.len() > MOST_GAP_DIGITS {
        return None;
    }
    number(MOST_NUMBER, text)
}

/// `gap*count`, with the star at `star`.
#[tactic(auto, unfolding(crate::specs::ReadingTicks::repeated))]
fn repeated(star: usize, line: &[u8]) -> Option<TickLine>
    requires { star ≤ length line.now }
    ensures { result ≡ spec.repeated star line.now }
{
    if star == line.len() {
        return None;
    }
    let gap = gap(&line[..star])?;
    let count = plain_number(MOST_COUNT, &line[star + 1..])?;
    Some(TickLine::Gaps(gap, count))
}

#[tactic(auto, unfolding(crate::specs::ReadingTicks::tick_line))]
fn tick_line(line: &[u8]) -> Option<TickLine>
    ensures { result ≡ spec.tick_line line.now }
{
    if is_blank_line(line) {
        return Some(TickLine::Blank);
    }
    match gap(line) {
        Some(gap) => Some(TickLine::Gap(gap)),
        None => repeated(star_at(line), line),
    }
}

fn push_gaps(gaps: &mut List<u32>, gap: u32, count: u32) -> Result<(), Memory>
    ensures { OnOk result (gaps.new ≡ gaps.old ++ replicate count gap) }
{
    for _turn in 0..count {
        gaps.push(gap)?;
    }
    Ok(())
}

impl TickLine {
    /// The number of its ticks.
    fn count(self) -> usize
        ensures { result ≡ length (ticks_of self) }
    {
        match self {
            TickLine::Blank => 0,
            TickLine::Gap(_) => 1,
            TickLine::Gaps(_, count) => count as usize,
        }
    }

    fn push_to(self, gaps: &mut List<u32>) -> Result<(), Memory>
        ensures { OnOk result (gaps.new ≡ gaps.old ++ ticks_of self) }
    {
        match self {
            TickLine::Blank => Ok(()),
            TickLine::Gap(gap) => gaps.push(gap),
            TickLine::Gaps(gap, count) => push_gaps(gaps, gap, count),
        }
    }
}

/// Adds the ticks of a line to those of the lines before it.
fn add_line(gaps: &mut List<u32>, line: &[u8], number: u32) -> Result<(), LineFault>
    requires { length gaps.old ≤ 200000 }
    ensures ok { OnOk result (Adds gaps.old line.now gaps.new) }
    ensures bad { IfErr result (λ f. Refuses gaps.old line.now number f) }
{
    let Some(kind) = tick_line(line) else {
        return Err(LineFault::BadLine { line: number });
    };
    if kind.count() > MOST_TICKS - gaps.len() {
        return Err(LineFault::BadLine { line: number });
    }
    kind.push_to(gaps)?;
    Ok(())
}

/// Reads a tick text: lines `gap` or `gap*count`, and blank lines. A gap has 1 to 10 digits and a value up to
/// 4,000,000,000; a count is 1 to 200,000, without a leading zero. There are at most 200,000 ticks in all.
pub fn read_ticks(alloc: Global, bytes: &[u8]) -> Result<Ticks, LineFault>
    requires { length bytes.now ≤ 4194304 }
    // What is answered are the ticks of the text.
    ensures ticks { IfOk result (λ ticks. IsTicks bytes.now ticks) }
    // A tick text isn't refused.
    ensures only { (gaps : List ℕ) → IsTicks bytes.now gaps → (result ≡ Ok gaps) ⊎ (result ≡ Err fault.Memory) }
    // The line refused is the first that breaks a rule.
    ensures refused { IfErr result (RefusesTicks bytes.now) }
    // A text with such a line is refused by it.
    ensures line { (n : ℕ) → IsBadTickLine bytes.now n → (result ≡ Err (fault.BadLine n)) ⊎ (result ≡ Err fault.Memory) }
{
    let mut gaps = List::new(alloc, 0)?;
    let mut rest = bytes;
    let mut number: u32 = 0;
    while !rest.is_empty() {
        let (line, after) = first_line(rest);
        number += 1;
        add_line(&mut gaps, line, number)?;
        rest = after;
    }
    Ok(Ticks { gaps })
}
