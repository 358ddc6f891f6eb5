//! The code of procedures as words, marks and relocations.
ghost use Rattle.std.specs.Prelude.{◌≡◌, ◌+◌, ◌≤◌, ◌++◌, ◌∷◌, [], length, map, IfOk, OnOk};
ghost use Rattle.std.specs.List.{AllByRecursion};
ghost use Rattle.pdp_code.specs.Code.{words_of, IsCodable};
ghost use Rattle.rt_templates.specs.Lines.{after, none, hole_at, words as words_in, AreCodable};
ghost use Rattle.rt_templates.specs.Expanded.{most};

use crate::line::{Hole, Line};
use pdp_code::encode;
use rt_object::Relocation;
use rt_words::{Bytes, List, Memory};
use std::alloc::Global;

/// The code of a procedure: its words, a mark for each of them, and the words that become addresses, whose places count words.
#[derive(Debug, Drop)]
pub struct ProcCode {
    pub words: List<u16>,
    pub marks: Bytes,
    pub relocations: List<Relocation>,
}

/// The code of the procedures of a module, in their order.
#[derive(Debug, Drop)]
pub struct Code {
    pub procs: List<ProcCode>,
}

/// The support code, as it stands from address 0 on: its words, a mark for each, and the addresses at which the routines begin, by
/// their numbers from 1 on.
#[derive(Debug, Drop)]
pub struct Support {
    pub words: List<u16>,
    pub marks: Bytes,
    pub entries: List<u16>,
}

impl ProcCode {
    /// No code.
    pub fn new(alloc: Global) -> Result<ProcCode, Memory>
        ensures { IfOk result (λ c. c ≡ none) }
    {
        let words = List::new(alloc, 0)?;
        let marks = List::new(alloc, 0)?;
        Ok(ProcCode {
            words,
            marks,
            relocations: List::new(alloc, 0)?,
        })
    }

    fn put_word(&mut self, word: u16, mark: u8) -> Result<(), Memory>
        ensures { OnOk result (self.new ≡ record self.old { words = self.old.words ++ word ∷ []; marks = self.old.marks ++ mark ∷ [] }) }
    {
        self.words.push(word)?;
        self.marks.push(mark)
    }

    // The words behind the first one.
    fn put_words(&mut self, words: &[u16]) -> Result<(), Memory>
        ensures { OnOk result (self.new ≡ record self.old { words = self.old.words ++ words.now; marks = self.old.marks ++ map (λ _. 0) words.now }) }
    {
        for word in words {
            self.put_word(*word, 0)?;
        }
        Ok(())
    }

    // Behind the first word of an instruction.
    fn put_hole(&mut self, hole: Option<Hole>) -> Result<(), Memory>
        requires { length self.old.words ≤ most }
        ensures { OnOk result (self.new ≡ record self.old { relocations = self.old.relocations ++ hole_at (length self.old.words) hole }) }
    {
        match hole {
            Some(hole) => {
                let place = self.words.len() as u16 + 1;
                self.relocations.push(Relocation {
                    place,
                    of: hole.of,
                    offset: hole.offset,
                })
            }
            None => Ok(()),
        }
    }

    fn put_line(&mut self, line: &Line) -> Result<(), Memory>
        requires room { length self.old.words ≤ most }
        requires codable { IsCodable line.now.instr }
        ensures { OnOk result (self.new ≡ after self.old (line.now ∷ [])) }
    {
        let (words, count) = encode(&line.instr);
        let Some((first, more)) = words[..usize::from(count)].split_first() else {
            return Ok(());
        };
        self.put_hole(line.hole)?;
        self.put_word(*first, line.mark)?;
        self.put_words(more)
    }

    /// Appends lines.
    pub(crate) fn put(&mut self, lines: &[Line]) -> Result<(), Memory>
        requires room { length self.old.words + length (words_in lines.now) ≤ most }
        requires codable { AreCodable lines.now }
        ensures { OnOk result (self.new ≡ after self.old lines.now) }
    {
        for line in lines {
            self.put_line(line)?;
        }
        Ok(())
    }
}
