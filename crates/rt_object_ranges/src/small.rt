//! What the types of numbers and names say by themselves.

ghost use Rattle.rt_object.specs.Ranges.{IsByte, IsName, IsWord};
ghost use Rattle.std.specs.List.{AllByRecursion};

use rt_words::Name;

/// How many of a kind are counted by one word.
pub const COUNTED: usize = 65535;

/// Bytes are below 256.
pub fn bytes_are_small(_bytes: &[u8])
    ensures { AllByRecursion IsByte _bytes.now }
{}

/// Words are below 65,536.
pub fn words_are_small(_words: &[u16])
    ensures { AllByRecursion IsWord _words.now }
{}

/// A word is below 65,536.
pub fn word_is_small(_word: u16)
    ensures { IsWord _word }
{}

/// A name has 1 to 32 bytes.
pub fn name_is_short(name: &Name)
    ensures { IsName name.now }
{
    bytes_are_small(name.as_slice());
}
