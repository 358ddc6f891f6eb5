//! Depths, in words of the stack, and sums of them, which saturate: 65,535 stands for each greater one.

ghost use Rattle.std.specs.Prelude.{◌≡◌, ◌+◌};
ghost use Rattle.rt_frames.specs.Measures as spec;
ghost use Rattle.rt_frames.specs.Saturated.{saturated};
ghost use Rattle.rt_tree.specs.Depth as depths;

use rt_tree::{Found, ValueMode};

/// What is known of a value that was walked.
#[derive(Clone, Copy)]
pub(crate) struct Measured<'a> {
    /// Its mode, where it fits.
    pub(crate) mode: Option<ValueMode<'a>>,
    /// Which number it is, if it is one.
    pub(crate) number: Option<u16>,
    pub(crate) depth: u16,
}

/// How a place is come to.
#[derive(Clone, Copy)]
pub(crate) enum Address {
    /// It is a local.
    Local,
    /// By an address that takes so many words; that of a brick's item takes none.
    Path(u16),
    /// It is the array behind a REF ARRAY of this depth.
    Row(u16),
}

/// What is known of a place that was walked.
#[derive(Clone, Copy)]
pub(crate) struct Reached<'a> {
    /// What the place is, where it fits.
    pub(crate) found: Option<Found<'a>>,
    pub(crate) address: Address,
}

impl Address {
    /// The words that wait below what stands behind the place: one where its address takes any.
    pub(crate) fn words(self) -> u16
        ensures { result ≡ spec.words self }
    {
        match self {
            Address::Local => 0,
            Address::Path(depth) => u16::from(depth > 0),
            Address::Row(_) => 1,
        }
    }

    /// The words of its address.
    pub(crate) fn depth(self) -> u16
        ensures { result ≡ spec.depth_of self }
    {
        match self {
            Address::Local => 0,
            Address::Path(depth) => depth,
            Address::Row(depth) => depth,
        }
    }
}

/// A number in 16 bits.
pub(crate) fn word(number: usize) -> u16
    ensures { result ≡ saturated number }
{
    if number > 65535 { 65535 } else { number as u16 }
}

/// The sum of two numbers of words.
pub(crate) fn plus(a: u16, b: u16) -> u16
    ensures { result ≡ saturated (a + b) }
{
    a.saturating_add(b)
}

pub(crate) fn greater(a: u16, b: u16) -> u16
    ensures { result ≡ spec.greater a b }
{
    if a < b { b } else { a }
}

/// The depth of a second operand above the word of the first.
pub(crate) fn above(first: u16, second: u16) -> u16
    ensures { result ≡ saturated (depths.above first second) }
{
    greater(first, plus(second, 1))
}

/// The depth of a value behind a place whose address takes so many words.
pub(crate) fn behind(address: u16, value: u16) -> u16
    ensures { result ≡ saturated (depths.behind address value) }
{
    if address == 0 {
        value
    } else {
        above(address, value)
    }
}
