//! The tree of a whole module.

ghost use Rattle.std.specs.Prelude.{◌≡◌, ℕ, true, [], map, None, IfOk, IfErr};
ghost use Rattle.rt_check_faults.specs.declared.fault.CheckFault.{CheckFault};
ghost use Rattle.rt_check_faults.specs.Outcomes.{IsAnswered, UnlessMemory};
ghost use Rattle.rt_syntax.specs.Strings.{text_of};
ghost use Rattle.rt_check_module.specs.Tree as spec;
ghost use Rattle.rt_check_module.specs.Tree.{tree};
ghost use Rattle.rt_check_module.specs.Faults.{Inside as InBrick};
ghost use Rattle.rt_check_declared.specs.Records.{Counts};
ghost use Rattle.rt_sizes.specs.Capped.{AreSizes};
ghost use Rattle.rt_sizes.specs.Sizes.{Table};
ghost use Rattle.rt_check_module.specs.Typed.{IsTyped};
ghost use Rattle.rt_check_module.specs.Faults.{Stands};
ghost use Rattle.rt_check.specs.Whole.{Refuses, Rise, StringsRise, TextsRise, sight_of};

use crate::bricks::fill;
use crate::contents::{Contents, read_contents};
use crate::strings::read_texts;
use indexmap::IndexSet;
use rt_bricks::{Declaration, Module};
use rt_check_bodies::Names;
use rt_check_declared::{Heading, either};
use rt_check_faults::CheckFault;
use rt_check_module::{Filling, Scene, read_scene};
use rt_exprs::{IndexedRecords, Level};
use rt_sizes::Size;
use rt_syntax::Text;
use rt_tree_nodes::ModuleParts;
use rt_words::{Bytes, List, Memory, Name};
use std::alloc::Global;

/// The parts of the typed module of a module whose strings stand each behind the one before it, as those of a text do.
///
/// # Errors
///
/// The fault of the least item, and of those of that item the one of least number, of all that stand in the module; or want of
/// memory.
pub fn read_module(alloc: Global, source: &Module) -> Result<ModuleParts, CheckFault>
    // What is answered is the typed tree, and no fault stands.
    ensures tree { StringsRise source.now.declarations → IfOk result (IsTyped source.now) }
    // Where none stands it is answered, unless memory runs out.
    ensures only { StringsRise source.now.declarations → ((g : CheckFault) → Stands source.now.declarations g → ⊥) → IsAnswered (tree source.now) result }
    // A fault stands, and counts of all that stand.
    ensures fault { StringsRise source.now.declarations → IfErr result (λ g. UnlessMemory g (Refuses source.now.declarations g)) }
{
    let declarations = source.declarations.as_slice();
    let scene = read_scene(alloc, declarations)?;
    let Scene {
        modes,
        sizes,
        bricks,
        level,
        fault,
    } = scene;
    let inside = read_inside(
        alloc,
        declarations,
        &modes,
        sizes.as_slice(),
        bricks.as_slice(),
        level,
        fault.is_none(),
    )?;
    match either(fault, inside.fault) {
        Some(fault) => Err(fault),
        None => {
            let parts = joined(alloc, &source.title, modes, bricks, inside)?;
            Ok(parts)
        }
    }
}

/// What stands inside the bricks of a module.
#[derive(Drop)]
struct Inside {
    /// What each brick holds, where no fault stands.
    fillings: List<Filling>,
    fault: Option<CheckFault>,
    /// The bytes of the module's strings.
    strings: List<Bytes>,
}

/// What stands inside the bricks of a module that are declared so, where names stand for this; `is_fit` says that no fault stands
/// outside of them.
fn read_inside<'m>(
    alloc: Global,
    declarations: &'m [Declaration],
    modes: &IndexedRecords,
    sizes: &[Option<Size>],
    bricks: &[Heading],
    level: Level<'m>,
    is_fit: bool,
) -> Result<Inside, Memory>
    ensures strings { IfOk result (λ h. h.strings ≡ map (λ t. t.1) (spec.texts_from modes.now.records [] bricks.now declarations.now)) }
    ensures fillings { (t : Table) → AreSizes t sizes.now → TextsRise modes.now.records bricks.now declarations.now → is_fit ≡ true → IfOk result (λ h. h.fault ≡ None → h.fillings ≡ spec.gathered (spec.fillings_in (sight_of modes.now.records bricks.now declarations.now level.entry)) bricks.now declarations.now) }
    ensures fault { (t : Table) → AreSizes t sizes.now → TextsRise modes.now.records bricks.now declarations.now → IfOk result (λ h. Counts (λ g. spec.Somewhere (InBrick (sight_of modes.now.records bricks.now declarations.now level.entry) t g) bricks.now declarations.now) h.fault) }
{
    let texts = read_texts(alloc, declarations, modes.table(), bricks)?;
    let items = string_items(alloc, texts.as_slice())?;
    let strings = copy_texts(alloc, texts.as_slice())?;
    drop(texts);
    let mut names = Names::new(alloc, modes, &items, level)?;
    let Contents { fillings, fault } = read_contents(
        alloc,
        &mut names,
        sizes,
        declarations,
        bricks,
        is_fit,
    )?;
    Ok(Inside {
        fillings,
        fault,
        strings,
    })
}

/// The parts of a module.
fn joined(
    alloc: Global,
    title: &Name,
    modes: IndexedRecords,
    headings: List<Heading>,
    inside: Inside,
) -> Result<ModuleParts, Memory>
    ensures { IfOk result (λ p. p ≡ record { title = title.now; modes = modes; bricks = spec.filled headings inside.fillings; strings = inside.strings }) }
{
    let Inside {
        fillings,
        strings,
        ..
    } = inside;
    let bricks = fill(alloc, headings, fillings)?;
    let title = title.copy(alloc)?;
    Ok(ModuleParts {
        title,
        modes: modes.into_table(),
        bricks,
        strings,
    })
}

/// The items of strings.
fn string_items(alloc: Global, texts: &[Text<'_>]) -> Result<IndexSet<u16>, Memory>
    ensures { (low : ℕ) → Rise low (map text_of texts.now) → IfOk result (λ set. set.keys ≡ map (λ t. t.0) (map text_of texts.now)) }
{
    let mut items = IndexSet::new(alloc);
    for text in texts {
        let Ok(_) = items.insert(text.item) else {
            return Err(Memory);
        };
    }
    Ok(items)
}

/// The bytes of strings.
fn copy_texts(alloc: Global, texts: &[Text<'_>]) -> Result<List<Bytes>, Memory>
    ensures { IfOk result (λ strings. strings ≡ map (λ t. t.1) (map text_of texts.now)) }
{
    let mut strings = List::new(alloc, texts.len())?;
    for text in texts {
        strings.push(text.bytes.copy(alloc)?)?;
    }
    Ok(strings)
}
