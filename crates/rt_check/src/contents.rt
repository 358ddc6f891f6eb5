//! What bricks hold.

ghost use Rattle.std.specs.Prelude.{◌≡◌, true, ◌++◌, List, [], ◌∷◌, Option, Some, None, replicate, IfOk, IfErr, OnOk};
ghost use Rattle.std.specs.Option.{option_copied};
ghost use Rattle.rt_check_declared.specs.Totals.{LargeFault};
ghost use Rattle.rt_check_faults.specs.declared.fault.CheckFault.{CheckFault};
ghost use Rattle.rt_check_faults.specs.Outcomes.{IsLeast, UnlessMemory};
ghost use Rattle.rt_check_declared.specs.Records.{Counts};
ghost use Rattle.rt_sizes.specs.Capped.{AreSizes};
ghost use Rattle.rt_sizes.specs.Sizes.{Table};
ghost use Rattle.rt_check_module.specs.Bricks.{BrickFault};
ghost use Rattle.rt_check_module.specs.Items.{brick_starts};
ghost use Rattle.rt_check_bodies.specs.Procedures as statements;
ghost use Rattle.rt_check_declared.specs.Names as known;
ghost use Rattle.rt_check_module.specs.Tree as spec;
ghost use Rattle.rt_check_module.specs.Faults as stands;
ghost use Rattle.rt_check.specs.Walks as walks;

use crate::walk::{behind, bricks_in, first, items_in};
use rt_bricks::{DataLine, Declaration, ProcedureBrick};
use rt_check_bodies::{Names, judge_procedure};
use rt_check_declared::{Heading, Part, large_item, note};
use rt_check_faults::CheckFault;
use rt_check_module::{Filling, read_starts};
use rt_sizes::Size;
use rt_words::{List, Memory};
use std::alloc::Global;

/// What the bricks of a module hold, and the fault that counts of those that stand in them.
#[derive(Drop)]
pub struct Contents {
    /// What each brick holds, where no fault stands.
    pub fillings: List<Filling>,
    pub fault: Option<CheckFault>,
}

impl Contents {
    /// Adds what the bricks of a declaration hold, `count` of them, or notes the fault that stands there.
    fn add(
        &mut self,
        alloc: Global,
        count: usize,
        found: Result<Option<Filling>, CheckFault>,
    ) -> Result<(), Memory>
        ensures added { OnOk result (self.new ≡ walks.added count self.old found) }
        ensures judged { OnOk result (walks.IsJudged found) }
    {
        match found {
            Ok(held) => match held {
                Some(filling) => self.fillings.push(filling),
                None => self.add_nothing(alloc, count),
            },
            Err(fault) => match fault {
                CheckFault::Memory => Err(Memory),
                _ => {
                    note(&mut self.fault, fault);
                    Ok(())
                }
            },
        }
    }

    /// Adds bricks that hold nothing.
    fn add_nothing(&mut self, alloc: Global, count: usize) -> Result<(), Memory>
        ensures { OnOk result (self.new ≡ record { fillings = self.old.fillings ++ replicate count spec.nothing; fault = self.old.fault }) }
    {
        for _ in 0..count {
            let starts = List::new(alloc, 0)?;
            self.fillings.push(Filling { body: None, starts })?;
        }
        Ok(())
    }
}

/// What the bricks of a module hold that are declared so. `is_fit` says that no fault stands outside of what bricks hold: where
/// one does they are judged, and no starts are made.
pub fn read_contents<'m>(
    alloc: Global,
    names: &mut Names<'m>,
    sizes: &[Option<Size>],
    declarations: &'m [Declaration],
    bricks: &[Heading],
    is_fit: bool,
) -> Result<Contents, Memory>
    ensures fillings { (t : Table) → AreSizes t sizes.now → is_fit ≡ true → IfOk result (λ c. c.fault ≡ None → c.fillings ≡ spec.gathered (spec.fillings_in names.old) bricks.now declarations.now) }
    // The fault that counts; there is none only where none stands.
    ensures fault { (t : Table) → AreSizes t sizes.now → IfOk result (λ c. Counts (λ g. spec.Somewhere (stands.Inside names.old t g) bricks.now declarations.now) c.fault) }
{
    let mut contents = Contents {
        fillings: List::new(alloc, bricks.len())?,
        fault: None,
    };
    let mut left = bricks;
    for declaration in declarations {
        let found = filling_of(alloc, names, sizes, first(left), declaration, is_fit);
        contents.add(alloc, bricks_in(declaration), found)?;
        left = behind(left, declaration);
    }
    Ok(contents)
}

/// What the brick of a declaration holds, or `None` where it holds nothing; or the fault that counts of those that stand in it.
fn filling_of<'m>(
    alloc: Global,
    names: &mut Names<'m>,
    sizes: &[Option<Size>],
    brick: Option<&Heading>,
    declaration: &'m Declaration,
    is_fit: bool,
) -> Result<Option<Filling>, CheckFault>
    ensures held { (t : Table) → AreSizes t sizes.now → is_fit ≡ true → IfOk result (λ f. walks.fillings_by (known.bricks_in declaration.now) f ≡ spec.fillings_in names.old (option_copied brick.entry) declaration.now) }
    ensures fit { (t : Table) → AreSizes t sizes.now → IfOk result (λ _. (g : CheckFault) → stands.Inside names.old t g (option_copied brick.entry) declaration.now → ⊥) }
    ensures fault { (t : Table) → AreSizes t sizes.now → IfErr result (λ f. UnlessMemory f (IsLeast (λ g. stands.Inside names.old t g (option_copied brick.entry) declaration.now) f)) }
    ensures kept { IfErr result (λ g. UnlessMemory g (names.new ≡ names.old)) }
    ensures kept_ok { OnOk result (names.new ≡ names.old) }
{
    match declaration {
        Declaration::Data(brick_data) => {
            data_filling(
                alloc,
                names,
                sizes,
                brick_data.lines.as_slice(),
                items_in(brick),
                is_fit,
            )
        }
        Declaration::Procedure(procedure) => procedure_filling(alloc, names, procedure),
        Declaration::ImportedData(_) => imported_filling(alloc, sizes, items_in(brick)),
        _ => Ok(None),
    }
}

/// The starts of a data brick.
fn data_filling(
    alloc: Global,
    names: &Names<'_>,
    sizes: &[Option<Size>],
    lines: &[DataLine],
    parts: &[Part],
    is_fit: bool,
) -> Result<Option<Filling>, CheckFault>
    ensures held { (t : Table) → AreSizes t sizes.now → is_fit ≡ true → IfOk result (λ f. f ≡ Some (record { body = None; starts = brick_starts names.now lines.now parts.now })) }
    ensures fit { (t : Table) → AreSizes t sizes.now → IfOk result (λ _. (g : CheckFault) → BrickFault t names.now lines.now parts.now g → ⊥) }
    ensures fault { (t : Table) → AreSizes t sizes.now → IfErr result (λ g. UnlessMemory g (IsLeast (BrickFault t names.now lines.now parts.now) g)) }
{
    match read_starts(alloc, &names.scope(), lines, parts, sizes, is_fit) {
        Ok(starts) => Ok(Some(Filling { body: None, starts })),
        Err(fault) => Err(fault),
    }
}

/// The body of a procedure.
fn procedure_filling<'m>(
    alloc: Global,
    names: &mut Names<'m>,
    procedure: &'m ProcedureBrick,
) -> Result<Option<Filling>, CheckFault>
    ensures held { IfOk result (λ f. f ≡ Some (record { body = Some (statements.procedure names.old procedure.now); starts = [] })) }
    ensures fit { IfOk result (λ _. (g : CheckFault) → statements.Stands names.old procedure.now g → ⊥) }
    ensures fault { IfErr result (λ g. UnlessMemory g (IsLeast (statements.Stands names.old procedure.now) g)) }
    ensures kept { IfErr result (λ g. UnlessMemory g (names.new ≡ names.old)) }
    ensures kept_ok { OnOk result (names.new ≡ names.old) }
{
    let body = judge_procedure(alloc, names, procedure)?;
    let starts = List::new(alloc, 0)?;
    Ok(Some(Filling {
        body: Some(body),
        starts,
    }))
}

/// Data of another module, of which only the size is judged.
fn imported_filling(
    alloc: Global,
    sizes: &[Option<Size>],
    parts: &[Part],
) -> Result<Option<Filling>, CheckFault>
    ensures held { IfOk result (λ f. f ≡ None) }
    ensures fit { (t : Table) → AreSizes t sizes.now → IfOk result (λ _. (g : CheckFault) → LargeFault t parts.now g → ⊥) }
    ensures fault { (t : Table) → AreSizes t sizes.now → IfErr result (λ g. UnlessMemory g (IsLeast (LargeFault t parts.now) g)) }
{
    match large_item(alloc, parts, sizes)? {
        Some(fault) => Err(fault),
        None => Ok(None),
    }
}
