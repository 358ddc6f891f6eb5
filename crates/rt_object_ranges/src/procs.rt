//! Whether what an object has of a procedure keeps its ranges.

ghost use Rattle.std.specs.Prelude.{◌↔◌, ◌≤◌, All, IsTrue};
ghost use Rattle.rt_object.specs.Ranges.{HasCallRanges, HasProcRanges, IsTarget};

use crate::modes::{may_be_proc, may_be_value};
use crate::relocations::are_relocations;
use crate::small::{COUNTED, word_is_small, words_are_small};
use rt_object::{Call, Known, ProcContent, Target};

/// How many words of code a procedure may have.
const WORDS: usize = 16383;

pub fn is_proc_content(known: &Known<'_>, content: &ProcContent) -> bool
    ensures { IsTrue result ↔ HasProcRanges known.now.records.now known.now.strings known.now.bricks content.now }
{
    let words = content.words.as_slice();
    let marks = content.marks.as_slice();
    let calls = content.calls.as_slice();
    words_are_small(words);
    word_is_small(content.items);
    word_is_small(content.locals);
    word_is_small(content.deep);
    if words.len() > WORDS || marks.len() != words.len() || !are_marks(marks) {
        return false;
    }
    if !may_be_proc(known.records.len(), &content.mode) {
        return false;
    }
    if calls.len() > COUNTED || !is_each_call(known, calls) {
        return false;
    }
    are_relocations(known, 1, words.len(), content.relocations.as_slice())
}

fn are_marks(marks: &[u8]) -> bool
    ensures { IsTrue result ↔ All (λ m. m ≤ 2) marks.now }
{
    marks.iter().all(|mark| *mark <= 2)
}

fn is_each_call(known: &Known<'_>, calls: &[Call]) -> bool
    ensures { IsTrue result ↔ All (HasCallRanges known.now.records.now known.now.strings known.now.bricks) calls.now }
{
    for call in calls {
        if !is_call(known, call) {
            return false;
        }
    }
    true
}

fn is_call(known: &Known<'_>, call: &Call) -> bool
    ensures { IsTrue result ↔ HasCallRanges known.now.records.now known.now.strings known.now.bricks call.now }
{
    word_is_small(call.depth);
    word_is_small(call.args);
    is_target(known, &call.target)
}

fn is_target(known: &Known<'_>, target: &Target) -> bool
    ensures { IsTrue result ↔ IsTarget known.now.records.now known.now.strings known.now.bricks target.now }
{
    match target {
        Target::Brick(number) => *number < known.bricks,
        Target::Mode(mode) => may_be_value(known.records.len(), mode),
        Target::Error => true,
    }
}
