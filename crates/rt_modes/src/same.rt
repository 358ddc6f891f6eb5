//! Whether two full modes are the same.

ghost use Rattle.std.specs.Prelude.{◌≡◌, ◌↔◌, [], ◌∷◌, IfOk, IsTrue, MatchOption};
ghost use Rattle.rt_modes.specs.FullMode.{FullMode, FullData};
ghost use Rattle.rt_modes.specs.Left.{rest_of, text_of};

use crate::mode::{Field, Mode, ModeTable};
use crate::pieces::{Pieces, Todo};
use rt_words::Memory;
use std::alloc::Global;

/// Whether two modes, each with the records of its own table, have the same full mode: whether the two
/// texts are equal. Neither is written: they are compared byte by byte as they come.
pub fn same_full_mode(
    alloc: Global,
    left_table: &ModeTable,
    left: &Mode,
    right_table: &ModeTable,
    right: &Mode,
) -> Result<bool, Memory>
    ensures { IfOk result (λ same. IsTrue same ↔ (FullMode left_table.now left.now ≡ FullMode right_table.now right.now)) }
{
    let left = Pieces::of(alloc, left_table, Todo::Mode(left))?;
    let right = Pieces::of(alloc, right_table, Todo::Mode(right))?;
    same_text(
        &mut Reader::new(alloc, left),
        &mut Reader::new(alloc, right),
    )
}

/// Whether two data bricks have the same full mode, as `same_full_mode` says it of modes.
pub fn same_data_mode(
    alloc: Global,
    left_table: &ModeTable,
    left: &[Field],
    right_table: &ModeTable,
    right: &[Field],
) -> Result<bool, Memory>
    ensures { IfOk result (λ same. IsTrue same ↔ (FullData left_table.now left.now ≡ FullData right_table.now right.now)) }
{
    let left = Pieces::of(alloc, left_table, Todo::Data(left))?;
    let right = Pieces::of(alloc, right_table, Todo::Data(right))?;
    same_text(
        &mut Reader::new(alloc, left),
        &mut Reader::new(alloc, right),
    )
}

fn same_text(left: &mut Reader<'_>, right: &mut Reader<'_>) -> Result<bool, Memory>
    ensures { IfOk result (λ same. IsTrue same ↔ (rest_of left.old ≡ rest_of right.old)) }
{
    loop {
        let byte = left.next()?;
        if byte != right.next()? {
            return Ok(false);
        }
        if byte.is_none() {
            return Ok(true);
        }
    }
}

/// A text that is read byte by byte.
#[derive(Drop)]
pub struct Reader<'t> {
    pieces: Pieces<'t>,
    /// The piece that is being read.
    piece: Vec<u8>,
    /// How many bytes of it have been read.
    place: usize,
}

impl<'t> Reader<'t> {
    fn new(alloc: Global, pieces: Pieces<'t>) -> Reader<'t>
        ensures { rest_of result ≡ text_of pieces.entry }
    {
        Reader {
            pieces,
            piece: Vec::new(alloc),
            place: 0,
        }
    }

    /// The next byte, or none at the end.
    fn next(&mut self) -> Result<Option<u8>, Memory>
        ensures { IfOk result (λ byte. MatchOption byte (rest_of self.old ≡ []) (λ b. rest_of self.old ≡ b ∷ rest_of self.new)) }
    {
        while self.place >= self.piece.len() {
            self.piece.clear();
            self.place = 0;
            if !self.pieces.next(&mut self.piece)? {
                return Ok(None);
            }
        }
        let byte = self.piece[self.place];
        self.place += 1;
        Ok(Some(byte))
    }
}
