//! The procedures that may be values.

ghost use Rattle.std.specs.Prelude.{◌≡◌, ◌≤◌, ◌+◌, ◌<◌, suc, false, length, replicate, drop, IfOk};
ghost use Rattle.rt_digraph.specs.Alone.{is_marked};
ghost use Rattle.rt_graph.specs.Calls as calls;
ghost use Rattle.rt_graph.specs.Classes as spec;
ghost use Rattle.rt_graph.specs.Numbers as numbers;
ghost use Rattle.rt_graph.specs.Rows.{IsRow};

use crate::places::{full_mode, stands_for};
use crate::row::Row;
use rt_match::Bindings;
use rt_object::Object;
use rt_tree_nodes::Proc;
use rt_words::{Bytes, List, Memory};
use std::alloc::Global;

/// The full mode of each procedure that may be a value, by its number.
pub fn taken_texts(
    alloc: Global,
    objects: &[Object],
    bindings: &Bindings,
    row: &Row,
) -> Result<List<Option<Bytes>>, Memory>
    requires row { IsRow objects.now row.now }
    requires few { length objects.now ≤ 64 }
    ensures { IfOk result (λ texts. texts ≡ spec.taken_texts objects.now bindings.now.of) }
{
    let marks = all_marks(alloc, objects, bindings, row)?;
    texts_of(alloc, objects, marks.as_slice(), row.bricks.as_slice())
}

fn all_marks(
    alloc: Global,
    objects: &[Object],
    bindings: &Bindings,
    row: &Row,
) -> Result<Vec<bool>, Memory>
    requires row { IsRow objects.now row.now }
    requires few { length objects.now ≤ 64 }
    ensures { IfOk result (λ marks. marks.items ≡ spec.mark_all objects.now bindings.now.of (replicate (length row.now.bricks) false)) }
{
    let mut marks = vec![in alloc; false; row.bricks.len()]?;
    mark_all(objects, bindings, row, marks.as_mut_slice());
    Ok(marks)
}

/// Marks all procedures that may be values.
fn mark_all(objects: &[Object], bindings: &Bindings, row: &Row, marks: &mut [bool])
    requires row { IsRow objects.now row.now }
    requires few { length objects.now ≤ 64 }
    ensures { marks.new ≡ spec.mark_all objects.now bindings.now.of marks.old }
{
    mark(marks, Some(1));
    mark(marks, Some(2));
    mark(marks, Some(10));
    for at in 0..objects.len() {
        let taken = objects[at].parts().taken.as_slice();
        mark_taken(objects, bindings, row, at as u16 + 1, taken, marks);
    }
}

/// Marks those whose names stand in a module.
fn mark_taken(
    objects: &[Object],
    bindings: &Bindings,
    row: &Row,
    module: u16,
    taken: &[u16],
    marks: &mut [bool],
)
    requires row { IsRow objects.now row.now }
    requires few { length objects.now ≤ 64 }
    ensures { marks.new ≡ spec.mark_taken objects.now bindings.now.of «module» taken.now marks.old }
{
    for brick in taken {
        mark(marks, number_taken(objects, bindings, row, module, *brick));
    }
}

/// The number of the procedure for which a brick stands.
pub fn number_taken(
    objects: &[Object],
    bindings: &Bindings,
    row: &Row,
    module: u16,
    brick: u16,
) -> Option<usize>
    requires row { IsRow objects.now row.now }
    requires few { length objects.now ≤ 64 }
    ensures { result ≡ numbers.and_then (calls.stands_for bindings.now.of «module» brick) (numbers.number_of objects.now) }
{
    match stands_for(bindings, module, brick) {
        Some(of) => row.number(objects, of),
        None => None,
    }
}

fn mark(marks: &mut [bool], number: Option<usize>)
    ensures { marks.new ≡ spec.mark number marks.old }
{
    if let Some(number) = number {
        if number < marks.len() {
            marks[number] = true;
        }
    }
}

fn is_marked(marks: &[bool], number: usize) -> bool
    ensures { result ≡ is_marked marks.now number }
{
    match marks.get(number) {
        Some(mark) => *mark,
        None => false,
    }
}

fn texts_of(
    alloc: Global,
    objects: &[Object],
    marks: &[bool],
    row: &[Proc],
) -> Result<List<Option<Bytes>>, Memory>
    ensures { IfOk result (λ texts. texts ≡ spec.texts_of objects.now marks.now 0 row.now) }
{
    let mut texts = List::new(alloc, row.len())?;
    for number in 0..row.len() {
        let text = text_of(alloc, objects, marks, number, row[number])?;
        texts.push(text)?;
    }
    Ok(texts)
}

/// The full mode of a procedure that is marked.
fn text_of(
    alloc: Global,
    objects: &[Object],
    marks: &[bool],
    number: usize,
    of: Proc,
) -> Result<Option<Bytes>, Memory>
    ensures { IfOk result (λ text. text ≡ spec.text_of objects.now marks.now number of) }
{
    if is_marked(marks, number) {
        full_mode(alloc, objects, of)
    } else {
        Ok(None)
    }
}
