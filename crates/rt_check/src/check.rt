//! A module, checked.

ghost use Rattle.std.specs.Prelude.{IfOk, IfErr};
ghost use Rattle.rt_check_faults.specs.declared.fault.CheckFault.{CheckFault};
ghost use Rattle.rt_check_faults.specs.Outcomes.{IsAnswered, UnlessMemory};
ghost use Rattle.rt_tree.specs.Within.{Within};
ghost use Rattle.rt_check_module.specs.Tree.{tree};
ghost use Rattle.rt_check_module.specs.Typed.{IsTyped};
ghost use Rattle.rt_check_module.specs.Faults.{Stands};
ghost use Rattle.rt_check.specs.Whole.{Refuses};
ghost use Rattle.rt_check.specs.Derived.{IsDerived};

use crate::read_module;
use rt_bricks::Module;
use rt_check_faults::CheckFault;
use rt_tree::TypedModule;
use std::alloc::Global;

/// The typed module of a module that the grammar derives.
///
/// # Errors
///
/// The fault of the least item, and of those of that item the one of least number, of all that stand in the module; or want of
/// memory.
pub fn check_module(alloc: Global, source: &Module) -> Result<TypedModule, CheckFault>
    // What is answered is the typed tree, and no fault stands.
    ensures tree { IsDerived source.now → IfOk result (IsTyped source.now) }
    // Its procedures stay within what the code of a procedure may take.
    ensures within { IsDerived source.now → IfOk result Within }
    // Where no fault stands it is answered, unless memory runs out.
    ensures only { IsDerived source.now → ((g : CheckFault) → Stands source.now.declarations g → ⊥) → IsAnswered (tree source.now) result }
    // A fault stands, and counts of all that stand.
    ensures fault { IsDerived source.now → IfErr result (λ g. UnlessMemory g (Refuses source.now.declarations g)) }
{
    match read_module(alloc, source) {
        Ok(parts) => match TypedModule::new(parts) {
            Some(typed) => Ok(typed),
            // (Not met: where no fault stands every node fits.)
            None => Err(CheckFault::Memory),
        },
        Err(fault) => Err(fault),
    }
}
