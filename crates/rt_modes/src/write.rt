//! The text of a full mode.

ghost use Rattle.std.specs.Prelude.{◌≡◌, ◌++◌, OnOk, OnErr};
ghost use Rattle.rt_modes.specs.FullMode.{FullMode, FullData};
ghost use Rattle.rt_modes.specs.Left.{text_of};
ghost use Rattle.rt_words.specs.Spelling.{Grew};

use crate::mode::{Field, Mode, ModeTable};
use crate::pieces::{Pieces, Todo};
use rt_words::{Memory, Text};
use std::alloc::Global;

/// Appends the full mode of `mode`: its text, and behind WHERE the definitions of the records of `table`
/// that it reaches, in the order of first mention. Where there is no memory `out` has grown by the
/// beginning of that text.
pub fn write_mode(
    alloc: Global,
    table: &ModeTable,
    mode: &Mode,
    out: &mut Text,
) -> Result<(), Memory>
    ensures ok { OnOk result (out.new.items ≡ out.old.items ++ FullMode table.now mode.now) }
    ensures err { OnErr result (Grew (FullMode table.now mode.now) out.old.items out.new.items) }
{
    let mut pieces = Pieces::of(alloc, table, Todo::Mode(mode))?;
    write_pieces(alloc, &mut pieces, out)
}

/// Appends the full mode of a data brick, `DATA(fields)`, as `write_mode` does.
pub fn write_data_mode(
    alloc: Global,
    table: &ModeTable,
    fields: &[Field],
    out: &mut Text,
) -> Result<(), Memory>
    ensures ok { OnOk result (out.new.items ≡ out.old.items ++ FullData table.now fields.now) }
    ensures err { OnErr result (Grew (FullData table.now fields.now) out.old.items out.new.items) }
{
    let mut pieces = Pieces::of(alloc, table, Todo::Data(fields))?;
    write_pieces(alloc, &mut pieces, out)
}

fn write_pieces(alloc: Global, pieces: &mut Pieces<'_>, out: &mut Text) -> Result<(), Memory>
    ensures ok { OnOk result (out.new.items ≡ out.old.items ++ text_of pieces.old) }
    ensures err { OnErr result (Grew (text_of pieces.old) out.old.items out.new.items) }
{
    let mut piece = Vec::new(alloc);
    while pieces.next(&mut piece)? {
        out.push_all(&piece)?;
        piece.clear();
    }
    Ok(())
}
