//! The bricks of a system in one row.

ghost use Rattle.std.specs.Prelude.{◌≡◌, ℕ, ◌+◌, ◌<◌, ◌≤◌, ◌++◌, length, Some, slice_get, true, IfOk, OnOk};
ghost use Rattle.rt_graph.specs.Numbers as numbers;
ghost use Rattle.rt_graph.specs.Rows.{IsRow, AreFirsts};

use crate::places::is_procedure;
use rt_object::Object;
use rt_tree_nodes::Proc;
use rt_words::{List, Memory};
use std::alloc::Global;

/// How many numbers module 0 has.
const SUPPLIED_NUMBERS: u16 = 11;

/// The bricks of a system, by module and declaration, and of each module the number of its first brick.
#[derive(Drop)]
pub struct Row {
    pub bricks: List<Proc>,
    pub firsts: List<usize>,
}

impl Row {
    /// The row of a system.
    pub fn of(alloc: Global, objects: &[Object]) -> Result<Row, Memory>
        requires { length objects.now ≤ 64 }
        ensures { IfOk result (IsRow objects.now) }
    {
        Ok(Row {
            bricks: all_bricks(alloc, objects)?,
            firsts: all_firsts(alloc, objects)?,
        })
    }

    /// The number of a procedure.
    pub fn number(&self, objects: &[Object], of: Proc) -> Option<usize>
        requires row { IsRow objects.now self.now }
        requires few { length objects.now ≤ 64 }
        ensures { result ≡ numbers.number_of objects.now of }
    {
        if is_procedure(objects, of) {
            Some(self.place(objects, of))
        } else {
            None
        }
    }

    fn place(&self, objects: &[Object], of: Proc) -> usize
        requires row { IsRow objects.now self.now }
        requires there { numbers.is_procedure objects.now of ≡ true }
        ensures { result ≡ numbers.place objects.now of }
    {
        if of.module == 0 {
            return usize::from(of.brick);
        }
        match self.firsts.get(usize::from(of.module) - 1) {
            Some(first) => *first + usize::from(of.brick),
            None => 0,
        }
    }
}

fn all_bricks(alloc: Global, objects: &[Object]) -> Result<List<Proc>, Memory>
    requires { length objects.now ≤ 64 }
    ensures { IfOk result (λ row. row ≡ numbers.all_bricks objects.now) }
{
    let mut row = List::new(alloc, 0)?;
    push_bricks(&mut row, 0, SUPPLIED_NUMBERS)?;
    for at in 0..objects.len() {
        let count = objects[at].parts().bricks.len();
        push_bricks(&mut row, at as u16 + 1, count as u16)?;
    }
    Ok(row)
}

/// Puts so many bricks of a module behind those of a row.
fn push_bricks(row: &mut List<Proc>, module: u16, count: u16) -> Result<(), Memory>
    ensures { OnOk result (row.new ≡ row.old ++ numbers.bricks_from «module» 0 count) }
{
    for brick in 0..count {
        row.push(Proc { module, brick })?;
    }
    Ok(())
}

fn all_firsts(alloc: Global, objects: &[Object]) -> Result<List<usize>, Memory>
    requires { length objects.now ≤ 64 }
    ensures { IfOk result (AreFirsts objects.now) }
{
    let mut firsts = List::new(alloc, 0)?;
    let mut first = usize::from(SUPPLIED_NUMBERS);
    for at in 0..objects.len() {
        firsts.push(first)?;
        first += objects[at].parts().bricks.len();
    }
    Ok(firsts)
}
