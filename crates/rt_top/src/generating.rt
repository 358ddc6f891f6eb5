//! `gen`: the three texts of a generated system are written, and the system is carried out as `go` does.

ghost use Rattle.std.specs.Prelude.{◌≡◌, ◌≤◌, ℕ, Option, Some, IfOk};
ghost use Rattle.rt_outside.specs.Files.{Files};
ghost use Rattle.rt_accept.specs.Calls.{the_call, moved, stock, sunk, fed};
ghost use Rattle.rt_generated.specs.Stores.{AreTexts, files_in};
ghost use Rattle.rt_headline.specs.Carrying.{IsCarriedOut};
ghost use Rattle.rt_headline.specs.Generating.{GenEnds, asked_of};
ghost use Rattle.rt_top.specs.Generating.{IsReadyFor, IsMade, IsAllOut};
ghost use Rattle.rt_top.specs.Going.{asked_go};
ghost use Rattle.rt_top.specs.Running.{Begins};

use crate::accepting::accept;
use crate::carrying::{Prepared, carry_out, prepare_all};
use crate::reporting::{NO_MEMORY, UNWRITTEN, tell};
use rt_commands::TimedWords;
use rt_generated::{TextStore, Texts, begin_line, end_line, make_texts, write_texts};
use rt_outside::{Sink, Source, Store};
use rt_words::{Memory, Text};
use std::alloc::Global;

/// The limit under which a generated system runs.
const LIMIT: u64 = 4_000_000_000;

/// What stands ready before the first write: the run, and the front of the line that is put behind it.
#[derive(Drop)]
pub struct Made {
    pub prepared: Prepared,
    pub line: Text,
}

/// The words of the `go` that is done with the texts.
fn words_of<'t>(texts: &'t Texts, name: &'t str) -> TimedWords<'t>
    ensures words { (n : ℕ) → AreTexts n name.now texts.now → asked_go result ≡ asked_of name.now }
    ensures limit { result.limit ≤ 4000000000 }
{
    TimedWords {
        first: texts.system.name.as_str(),
        second: texts.ticks.name.as_str(),
        limit: LIMIT,
        last: name,
    }
}

/// Compiles and links the system of the texts. They break no rule; a refusal, of which none is known, is answered like want of memory.
fn make(alloc: Global, words: &TimedWords<'_>, texts: &Texts) -> Result<Prepared, Memory>
    ensures { IfOk result (λ p. IsReadyFor (Some (files_in texts.now)) (asked_go words.now) p) }
{
    let mut files = TextStore { texts, faults: 0 };
    match accept(alloc, &mut files, words) {
        Ok(accepted) => prepare_all(alloc, words, accepted),
        Err(_) => Err(Memory),
    }
}

/// Takes all memory.
fn make_all(alloc: Global, n: u16, words: &TimedWords<'_>, texts: &Texts) -> Result<Made, Memory>
    ensures { IfOk result (λ m. IsMade (Some (files_in texts.now)) (asked_go words.now) n m) }
{
    let prepared = make(alloc, words, texts)?;
    let line = begin_line(alloc, n)?;
    Ok(Made { prepared, line })
}

/// Carries a system out, and puts the line behind what answers less than 20. It takes no memory.
fn carry_all<S: Store, I: Source, O: Sink>(
    made: Made,
    words: &TimedWords<'_>,
    store: &mut S,
    input: &mut I,
    output: &mut O,
) -> u8
    requires begins { Begins made.prepared.ready }
    requires limit { words.now.limit ≤ 4000000000 }
    requires room { 41 ≤ made.line.spare }
    ensures { (files : Option Files) (n : ℕ) → IsMade files (asked_go words.now) n made →
        IsAllOut files (asked_go words.now) n (the_call
        (moved (stock S.files S.read_faults S.write_faults) store.old store.new)
        (moved (sunk O.written O.faults) output.old output.new)
        (moved (fed I.left I.ended I.faults) input.old input.new)) result }
{
    let Made { prepared, mut line } = made;
    let status = carry_out(prepared, words, store, input, output);
    if status >= 20 {
        return status;
    }
    end_line(&mut line, status);
    tell(output, line.as_slice(), status)
}

/// Writes the texts, and carries their system out.
fn carry_texts<S: Store, I: Source, O: Sink>(
    made: Made,
    words: &TimedWords<'_>,
    texts: &Texts,
    store: &mut S,
    input: &mut I,
    output: &mut O,
) -> u8
    requires begins { Begins made.prepared.ready }
    requires limit { words.now.limit ≤ 4000000000 }
    requires room { 41 ≤ made.line.spare }
    ensures { (n : ℕ) (name : _) → AreTexts n name texts.now → asked_go words.now ≡ asked_of name → IsMade (Some (files_in texts.now)) (asked_go words.now) n made →
        GenEnds IsCarriedOut (the_call
        (moved (stock S.files S.read_faults S.write_faults) store.old store.new)
        (moved (sunk O.written O.faults) output.old output.new)
        (moved (fed I.left I.ended I.faults) input.old input.new)) n name result }
{
    if write_texts(texts, store) {
        carry_all(made, words, store, input, output)
    } else {
        UNWRITTEN
    }
}

/// Does `gen`, and answers its status.
pub fn generate<S: Store, I: Source, O: Sink>(
    alloc: Global,
    n: u16,
    name: &str,
    store: &mut S,
    input: &mut I,
    output: &mut O,
) -> u8
    ensures { GenEnds IsCarriedOut (the_call
        (moved (stock S.files S.read_faults S.write_faults) store.old store.new)
        (moved (sunk O.written O.faults) output.old output.new)
        (moved (fed I.left I.ended I.faults) input.old input.new)) n name.now result }
{
    match make_texts(alloc, n, name) {
        Ok(texts) => {
            let words = words_of(&texts, name);
            match make_all(alloc, n, &words, &texts) {
                Ok(made) => carry_texts(made, &words, &texts, store, input, output),
                Err(_) => NO_MEMORY,
            }
        }
        Err(_) => NO_MEMORY,
    }
}
