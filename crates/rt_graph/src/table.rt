//! The bricks of a system in a row, with the classes of those that may be values.

ghost use Rattle.std.specs.Prelude.{◌≡◌, ◌≤◌, length, IfOk};
ghost use Rattle.rt_graph.specs.Classes as classes;
ghost use Rattle.rt_graph.specs.Nodes as spec;
ghost use Rattle.rt_graph.specs.Nodes.{IsTable};
ghost use Rattle.rt_graph.specs.Rows.{IsRow};

use crate::classes::{Classes, class_of};
use crate::row::Row;
use rt_match::Bindings;
use rt_object::Object;
use rt_words::{Bytes, Memory};
use std::alloc::Global;

/// The row of a system, and the classes of its procedures that may be values.
#[derive(Drop)]
pub struct Table<'t> {
    pub row: Row,
    pub classes: Classes<'t>,
}

/// Objects, to what their bricks are bound, and their table.
#[derive(Clone, Copy)]
pub struct Linked<'l, 't> {
    pub objects: &'l [Object],
    pub bindings: &'l Bindings,
    pub table: &'l Table<'t>,
}

impl<'t> Table<'t> {
    /// The table of a system, whose row and texts these are.
    pub fn of(
        alloc: Global,
        objects: &[Object],
        bindings: &Bindings,
        row: Row,
        texts: &'t [Option<Bytes>],
    ) -> Result<Table<'t>, Memory>
        requires few { length objects.now ≤ 64 }
        requires row { IsRow objects.now row }
        requires texts { texts.now ≡ classes.taken_texts objects.now bindings.now.of }
        ensures { IfOk result (IsTable objects.now bindings.now.of) }
    {
        let classes = Classes::of(alloc, texts)?;
        Ok(Table { row, classes })
    }

    /// The node of a full mode, where some procedure may be a value of it.
    pub fn class_node(&self, text: &[u8]) -> Option<usize>
        requires { spec.HasSmallNodes self.now }
        ensures { result ≡ spec.class_node self.now text.now }
    {
        match class_of(&self.classes.map, text) {
            Some(class) => Some(self.row.bricks.len() + class),
            None => None,
        }
    }
}
