//! The bricks of an object, in the order of the module's.

ghost use Rattle.std.specs.Prelude.{◌≡◌, ◌++◌, ◌∷◌, [], map, Some, IfOk, OnOk};
ghost use Rattle.rt_tree.specs.Within.{Within};
ghost use Rattle.rt_compile.specs.Objects as object;
ghost use Rattle.rt_compile.specs.Walks as walks;

use crate::contents::{content, external, supplied};
use rt_lower::Layouts;
use rt_object::{Brick, BrickKind};
use rt_templates::ProcCode;
use rt_tree::{BrickSort, Kind, TypedModule};
use rt_words::{List, Memory};
use std::alloc::Global;
use std::vec::IntoIter;

/// The bricks of the object of a module, by the code of its procedures in their order: one pass over the bricks, which moves the code.
pub(crate) fn compiled(
    alloc: Global,
    layouts: &Layouts,
    module: &TypedModule,
    code: List<ProcCode>,
) -> Result<List<Brick>, Memory>
    requires { Within «module».now }
    ensures { IfOk result (λ bs. map (λ b. Some b) bs ≡ walks.compiled layouts.now «module».now 0 «module».now.bricks code) }
{
    let mut bricks = List::new(alloc, module.bricks().len())?;
    let mut left = code.into_vec().into_iter();
    for (number, brick) in module.bricks().as_slice().iter().enumerate() {
        add(
            alloc,
            layouts,
            module,
            number,
            brick,
            &mut left,
            &mut bricks,
        )?;
    }
    Ok(bricks)
}

/// Adds a brick of the object, by the code that is left.
fn add(
    alloc: Global,
    layouts: &Layouts,
    module: &TypedModule,
    number: usize,
    brick: &rt_tree::Brick,
    left: &mut IntoIter<ProcCode>,
    bricks: &mut List<Brick>,
) -> Result<(), Memory>
    requires { Within «module».now }
    ensures added { OnOk result (map (λ b. Some b) bricks.new ≡ map (λ b. Some b) bricks.old ++ object.brick_by layouts.now «module».now number brick.now (walks.first brick.now.sort left.old.rest.items) ∷ []) }
    ensures left { OnOk result (left.new.rest.items ≡ walks.behind brick.now.sort left.old.rest.items) }
{
    let code = next_code(&brick.sort, left);
    bricks.push(brick_by(alloc, layouts, module, number, brick, code)?)
}

/// The code of a brick, where it is an own or ENT procedure: the first that is left.
fn next_code(sort: &BrickSort, left: &mut IntoIter<ProcCode>) -> Option<ProcCode>
    ensures code { result ≡ walks.first sort.now left.old.rest.items }
    ensures left { left.new.rest.items ≡ walks.behind sort.now left.old.rest.items }
{
    match sort {
        BrickSort::Proc(_, Some(_)) => left.next(),
        _ => None,
    }
}

/// A brick of the object, of which the code is given where it is a procedure.
fn brick_by(
    alloc: Global,
    layouts: &Layouts,
    module: &TypedModule,
    number: usize,
    brick: &rt_tree::Brick,
    code: Option<ProcCode>,
) -> Result<Brick, Memory>
    requires { Within «module».now }
    ensures { IfOk result (λ b. object.brick_by layouts.now «module».now number brick.now code ≡ Some b) }
{
    let kind = kind_by(alloc, layouts, module, number, brick, code)?;
    let name = brick.name.copy(alloc)?;
    Ok(Brick { name, kind })
}

fn kind_by(
    alloc: Global,
    layouts: &Layouts,
    module: &TypedModule,
    number: usize,
    brick: &rt_tree::Brick,
    code: Option<ProcCode>,
) -> Result<BrickKind, Memory>
    requires { Within «module».now }
    ensures { IfOk result (λ k. object.kind_by layouts.now «module».now number brick.now.kind brick.now.sort code ≡ Some k) }
{
    let sort = &brick.sort;
    match brick.kind {
        Kind::Own => Ok(BrickKind::Own(content(alloc, layouts, module, number, sort, code)?)),
        Kind::Ent => Ok(BrickKind::Ent(content(alloc, layouts, module, number, sort, code)?)),
        Kind::Ext => Ok(BrickKind::Ext(external(alloc, sort)?)),
        Kind::Svc => Ok(BrickKind::Svc(supplied(alloc, sort)?)),
    }
}
