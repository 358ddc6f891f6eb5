//! A text, compiled.

ghost use Rattle.std.specs.Prelude.{ℕ, List, ◌≤◌, length, IfOk, IfErr};
ghost use Rattle.std.specs.List.{AllByRecursion};
ghost use Rattle.rt_tree_nodes.specs.declared.brick.ModuleParts.{ModuleParts};
ghost use Rattle.rt_items.specs.Ranges.{IsByte};
ghost use Rattle.rt_check.specs.Texts.{IsTree};
ghost use Rattle.rt_object.specs.declared.object.ObjectParts.{ObjectParts};
ghost use Rattle.rt_object.specs.Ranges.{HasObjectRanges};
ghost use Rattle.rt_compile.specs.Texts.{IsObjectOfText, HasLongCode, IsFault, IsOfCode, IsAnswered, IsRefused};

use crate::fault::CompileFault;
use crate::laws::one_object;
use crate::parts::parts_of;
use rt_check::typed_module;
use rt_object::{Object, ObjectParts};
use rt_object_ranges::object_within;
use std::alloc::Global;

/// The object of the module of a text of at most 4,194,304 bytes.
///
/// # Errors
///
/// The first fault of the text: of its items, else of the grammar, else the one that counts for the checker, else the first procedure
/// whose code is too long; that the object doesn't keep the ranges of objects; or want of memory.
pub fn compile(alloc: Global, text: &[u8]) -> Result<Object, CompileFault>
    requires { length text.now ≤ 4194304 }
    // What is answered is the object of the typed tree of the text.
    ensures object { AllByRecursion IsByte text.now → IfOk result (IsObjectOfText text.now) }
    // A fault is the text's, at the first stage that refuses it.
    ensures fault { AllByRecursion IsByte text.now → IfErr result (IsFault text.now) }
    // Where the text has a typed tree, neither items nor grammar nor checker refuse it.
    ensures only { (tree : ModuleParts) → AllByRecursion IsByte text.now → IsTree text.now tree → IfErr result IsOfCode }
    // Where its object keeps the ranges of objects that is answered, unless memory runs out.
    ensures answered { (o : ObjectParts) → AllByRecursion IsByte text.now → IsObjectOfText text.now o → HasObjectRanges o → IsAnswered o result }
    // Where the code of a procedure is too long the first such is told, unless memory runs out.
    ensures long { (name : List ℕ) → AllByRecursion IsByte text.now → HasLongCode text.now name → IsRefused name result }
{
    one_object();
    object_of(alloc, text)
}

/// The same, without what follows by the laws.
fn object_of(alloc: Global, text: &[u8]) -> Result<Object, CompileFault>
    requires { length text.now ≤ 4194304 }
    ensures object { AllByRecursion IsByte text.now → IfOk result (IsObjectOfText text.now) }
    ensures fault { AllByRecursion IsByte text.now → IfErr result (IsFault text.now) }
    ensures only { (tree : ModuleParts) → AllByRecursion IsByte text.now → IsTree text.now tree → IfErr result IsOfCode }
{
    let parts = object_parts(alloc, text)?;
    match object_within(alloc, parts)? {
        Some(object) => Ok(object),
        None => Err(CompileFault::Beyond),
    }
}

/// The parts of the object of a text.
fn object_parts(alloc: Global, text: &[u8]) -> Result<ObjectParts, CompileFault>
    requires { length text.now ≤ 4194304 }
    ensures object { AllByRecursion IsByte text.now → IfOk result (IsObjectOfText text.now) }
    ensures fault { AllByRecursion IsByte text.now → IfErr result (IsFault text.now) }
    ensures only { (tree : ModuleParts) → AllByRecursion IsByte text.now → IsTree text.now tree → IfErr result IsOfCode }
{
    bytes_are_small(text);
    let module = typed_module(alloc, text)?;
    parts_of(alloc, &module)
}

/// Bytes are below 256, as their type says.
fn bytes_are_small(_bytes: &[u8])
    ensures { AllByRecursion IsByte _bytes.now }
{}
