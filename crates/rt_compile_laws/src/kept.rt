//! The laws of what objects keep of their ranges, as the contracts of functions that do nothing.

ghost use Rattle.rt_compile_laws.specs.Kept.{DataAreLow, ProceduresAreLow, StacksAreLow, StringsAreLow};

use rt_compile::{places_are_named, places_are_within};
use rt_templates_laws::{addresses_are_filled, code_is_within, marks_are_small};
use rt_text_laws::trees_promise;

/// Each procedure in the object of a text has at most 16,383 words, a mark for each, and addresses in place; its numbers of items,
/// locals and depth are words.
pub fn procedures_are_low()
    ensures { ProceduresAreLow }
{
    code_is_within();
    marks_are_small();
    addresses_are_filled();
    trees_promise();
}

/// The addresses in each data brick there are in place, and name strings and bricks of the object.
pub fn data_are_low()
    ensures { DataAreLow }
{
    places_are_within();
    places_are_named();
    trees_promise();
}

/// Its own and ENT stacks have 1 to 28,672 words.
pub fn stacks_are_low()
    ensures { StacksAreLow }
{
    trees_promise();
}

/// Its strings have at most 8,191 bytes.
pub fn strings_are_low()
    ensures { StringsAreLow }
{
    trees_promise();
}
