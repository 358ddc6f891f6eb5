//! The strings of a module.

ghost use Rattle.std.specs.Prelude.{◌≡◌, [], map, IfOk, OnOk};
ghost use Rattle.std.specs.Option.{option_copied};
ghost use Rattle.rt_syntax.specs.Strings.{text_of};
ghost use Rattle.rt_check_module.specs.Tree as spec;

use crate::walk::{behind, first, items_in};
use rt_bricks::Declaration;
use rt_check_declared::Heading;
use rt_check_module::add_brick_strings;
use rt_modes::ModeTable;
use rt_syntax::{Text, add_strings};
use rt_words::{List, Memory};
use std::alloc::Global;

/// The strings of a module whose bricks are declared so, in the order of their items. One that starts an ARRAY BYTE is none
/// of them.
pub fn read_texts<'m>(
    alloc: Global,
    declarations: &'m [Declaration],
    modes: &ModeTable,
    bricks: &[Heading],
) -> Result<List<Text<'m>>, Memory>
    ensures { IfOk result (λ ts. map text_of ts ≡ spec.texts_from modes.now.records [] bricks.now declarations.now) }
{
    let mut found = List::new(alloc, 0)?;
    let mut left = bricks;
    for declaration in declarations {
        add_texts(alloc, &mut found, modes, first(left), declaration)?;
        left = behind(left, declaration);
    }
    Ok(found)
}

/// Appends the strings of a declaration.
fn add_texts<'m>(
    alloc: Global,
    found: &mut List<Text<'m>>,
    modes: &ModeTable,
    brick: Option<&Heading>,
    declaration: &'m Declaration,
) -> Result<(), Memory>
    ensures { OnOk result (map text_of found.new ≡ spec.texts_in modes.now.records (option_copied brick.entry) declaration.now (map text_of found.old)) }
{
    match declaration {
        Declaration::Data(brick_data) => add_brick_strings(
            alloc,
            found,
            modes,
            brick_data.lines.as_slice(),
            items_in(brick),
        ),
        Declaration::Procedure(procedure) => add_strings(found, &procedure.body),
        _ => Ok(()),
    }
}
