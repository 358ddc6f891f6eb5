//! A text, read and checked.

ghost use Rattle.std.specs.Prelude.{ℕ, ◌≤◌, length, IfOk, IfErr};
ghost use Rattle.std.specs.List.{AllByRecursion};
ghost use Rattle.rt_tree_nodes.specs.declared.brick.ModuleParts.{ModuleParts};
ghost use Rattle.rt_items.specs.Ranges.{IsByte};
ghost use Rattle.rt_tree.specs.Within.{Within};
ghost use Rattle.rt_check.specs.Faults.{IsAnswered};
ghost use Rattle.rt_check.specs.Texts.{IsTree, IsFaultOf, IsTold};
ghost use Rattle.rt_check.specs.Derived.{IsDerived};
ghost use Rattle.rt_check_faults.specs.declared.fault.CheckFault.{CheckFault as Fault};
ghost use Rattle.rt_check_faults.specs.Outcomes.{IsAnswered as IsOneAnswer, UnlessMemory};
ghost use Rattle.rt_check_module.specs.Faults.{Stands};
ghost use Rattle.rt_check_module.specs.Tree.{tree as module_tree};
ghost use Rattle.rt_check_module.specs.Typed.{IsTyped};

use crate::check_module;
use crate::fault::ModuleFault;
use crate::lines::in_lines;
use rt_bricks::{Module, parse_module};
use rt_check_faults::CheckFault;
use rt_items::items;
use rt_pieces::Item;
use rt_tree::TypedModule;
use std::alloc::Global;

/// The typed module of a text of at most 4,194,304 bytes.
///
/// # Errors
///
/// The first fault of the text's items; where it has items, the line of the first one that is unfit for the grammar; where these
/// are a module, the fault that counts of all that stand in it; or want of memory.
pub fn typed_module(alloc: Global, text: &[u8]) -> Result<TypedModule, ModuleFault>
    requires { length text.now ≤ 4194304 }
    // What is answered is the typed tree of the text, and its procedures stay within what the code of a procedure may take.
    ensures tree { AllByRecursion IsByte text.now → IfOk result (IsTree text.now) }
    ensures within { AllByRecursion IsByte text.now → IfOk result Within }
    // Where the text has a typed tree it is answered, unless memory runs out.
    ensures only { (tree : ModuleParts) → AllByRecursion IsByte text.now → IsTree text.now tree → IsAnswered tree result }
    // A fault is the text's, at the first of the three that refuses it.
    ensures fault { AllByRecursion IsByte text.now → IfErr result (IsFaultOf text.now) }
{
    let read = items(alloc, text)?;
    let list = read.as_slice();
    let source = parse_module(alloc, list)?;
    Ok(checked(alloc, list, &source)?)
}

// The typed module of a module that these items are.
fn checked(alloc: Global, items: &[Item], source: &Module) -> Result<TypedModule, CheckFault>
    ensures tree { IsDerived source.now → IfOk result (IsTyped source.now) }
    ensures within { IsDerived source.now → IfOk result Within }
    ensures only { IsDerived source.now → ((g : Fault) → Stands source.now.declarations g → ⊥) → IsOneAnswer (module_tree source.now) result }
    ensures fault { IsDerived source.now → IfErr result (λ g. UnlessMemory g (IsTold items.now source.now g)) }
{
    match check_module(alloc, source) {
        Ok(typed) => Ok(typed),
        Err(fault) => Err(in_lines(items, fault)),
    }
}
