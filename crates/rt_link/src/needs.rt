//! The needs of the roots of tasks.

ghost use Rattle.std.specs.Prelude.{◌≡◌, IfOk};
ghost use Rattle.rt_graph.specs.Scans as scans;
ghost use Rattle.rt_link.specs.Needs as spec;

use crate::judged::Judged;
use rt_graph::told_need;
use rt_tree_nodes::Proc;
use rt_words::{List, Memory};
use std::alloc::Global;

/// Of each root the need that is told with the order, as a word.
pub fn root_words(alloc: Global, judged: &Judged) -> Result<List<u16>, Memory>
    ensures { IfOk result (λ words. words ≡ spec.root_words judged.now.order.procs judged.now.needs judged.now.roots) }
{
    let mut words = List::new(alloc, judged.roots.len())?;
    for root in judged.roots.as_slice() {
        words.push(root_word(judged, *root))?;
    }
    Ok(words)
}

fn root_word(judged: &Judged, root: Proc) -> u16
    ensures { result ≡ spec.word (scans.told_need judged.now.order.procs judged.now.needs root) }
{
    match told_need(judged.order.procs.as_slice(), judged.needs.as_slice(), root) {
        Some(need) => u16::try_from(need).unwrap_or(u16::MAX),
        None => 0,
    }
}
