//! The module that a whole list of items is.

ghost use Rattle.std.specs.Prelude.{◌≡◌, List, IfOk, IfErr};
ghost use Rattle.rt_pieces.specs.declared.item.Item.{Item};
ghost use Rattle.rt_syntax.specs.Derives.{IsOrMemory, Refuses};
ghost use Rattle.rt_bricks.specs.declared.tree.Module.{Module as Tree};
ghost use Rattle.rt_bricks.specs.Modules as line;
ghost use Rattle.rt_bricks.specs.Derives.{Derives};

use crate::modules::module_of;
use crate::tree::Module;
use rt_grammar::Stop;
use rt_pieces::Item;
use rt_syntax::{Context, LIMITS, SyntaxFault, line_left};
use std::alloc::Global;

/// The module that the items are (BS 5904, modules). Items are counted from 0. The module is dropped
/// where memory runs out.
pub fn parse_module(alloc: Global, items: &[Item]) -> Result<Module, SyntaxFault>
    // What is answered is derived.
    ensures found { IfOk result (Derives items.now) }
    // What is derived is answered, unless memory runs out.
    ensures only { (it : Tree) → Derives items.now it → IsOrMemory it result }
    // A fault has the number and the line of the first item that is unfit; where none is, how many items there are, and
    // the line of the last one, or 1.
    ensures refused { IfErr result (Refuses line.module_of items.now 0) }
{
    let context = Context {
        total: items.len(),
        limits: LIMITS,
    };
    match module_of(alloc, context, items) {
        Ok((found, [])) => Ok(found),
        Ok((_, rest)) => Err(SyntaxFault::Syntax {
            item: items.len() - rest.len(),
            line: line_left(items, rest.len()),
        }),
        Err(Stop::Memory) => Err(SyntaxFault::Memory),
        Err(Stop::Unfit(left)) => Err(SyntaxFault::Syntax {
            item: items.len() - left,
            line: line_left(items, left),
        }),
    }
}

/// A list of items derives one module at most.
pub fn one_module()
    ensures { (items : List Item) → (a b : Tree) → Derives items a → Derives items b → a ≡ b }
{}
