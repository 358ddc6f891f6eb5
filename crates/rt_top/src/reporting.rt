//! What a command leaves: a file or a text, and the status.

ghost use Rattle.std.specs.Prelude.{◌≡◌, ◌≤◌, ◌⊎◌, ℕ, List, [], ◌∷◌, Option};
ghost use Rattle.rt_outside.specs.Files.{Files};
ghost use Rattle.rt_report.specs.Faults.{status_of, refusal_text};
ghost use Rattle.rt_outside.specs.Deeds.{Writes};
ghost use Rattle.rt_accept.specs.Calls.{outside, IsKept, Does, DoesAll, Reports, Tells};
ghost use Rattle.rt_accept.specs.FileEnds.{Complains, Declines};

use crate::linking::Made;
use rt_accept::Unaccepted;
use rt_outside::{Deed, Sink, Store, perform};
use rt_report::{FaultLine, fault_line, fault_status, refusal_report};
use rt_words::{Bytes, Text};
use std::alloc::Global;

/// The status where a file or the output can't be written.
pub const UNWRITTEN: u8 = 21;

/// The status where memory is wanted.
pub const NO_MEMORY: u8 = 30;

/// The status where all was done.
pub const DONE: u8 = 0;

/// Writes a file, and answers this status where that succeeds.
pub fn write_file<S: Store, O: Sink>(
    store: &mut S,
    output: &mut O,
    name: &str,
    bytes: Bytes,
    status: u8,
) -> u8
    ensures written { Does (Writes name.now bytes) status (outside (S.files store.old) (S.write_faults store.old) (O.written output.old) (O.faults output.old)) (outside (S.files store.new) (S.write_faults store.new) (O.written output.new) (O.faults output.new)) result }
    ensures reads_later { (other : List ℕ) → S.read_faults store.old other ≤ S.read_faults store.new other }
{
    let deeds = [Deed::Write { name, bytes }];
    match perform(store, output, &deeds) {
        Ok(()) => status,
        Err(_) => UNWRITTEN,
    }
}

/// Writes an image and then its map, and answers 0 where both succeed.
pub fn write_both<'n, S: Store, O: Sink>(
    store: &mut S,
    output: &mut O,
    image: &'n str,
    map: &'n str,
    made: Made,
) -> u8
    ensures written { DoesAll (Writes image.now made.image ∷ Writes map.now made.map ∷ []) 0 (outside (S.files store.old) (S.write_faults store.old) (O.written output.old) (O.faults output.old)) (outside (S.files store.new) (S.write_faults store.new) (O.written output.new) (O.faults output.new)) result }
    ensures reads_later { (other : List ℕ) → S.read_faults store.old other ≤ S.read_faults store.new other }
{
    let deeds = [
        Deed::Write {
            name: image,
            bytes: made.image,
        },
        Deed::Write {
            name: map,
            bytes: made.map,
        },
    ];
    match perform(store, output, &deeds) {
        Ok(()) => DONE,
        Err(_) => UNWRITTEN,
    }
}

/// Writes a report, and answers this status where that succeeds.
pub fn write_report<S: Store, O: Sink>(
    store: &mut S,
    output: &mut O,
    name: &str,
    text: Text,
    status: u8,
) -> u8
    ensures reports { Reports name.now text.items status (outside (S.files store.old) (S.write_faults store.old) (O.written output.old) (O.faults output.old)) (outside (S.files store.new) (S.write_faults store.new) (O.written output.new) (O.faults output.new)) result }
    ensures reads_later { (other : List ℕ) → S.read_faults store.old other ≤ S.read_faults store.new other }
{
    write_file(store, output, name, text.into_list(), status)
}

/// Puts a text, and answers this status where that succeeds.
pub fn tell<O: Sink>(output: &mut O, text: &[u8], status: u8) -> u8
    ensures { (files : Option Files) (writes : List ℕ → ℕ) → Tells text.now status (outside files writes (O.written output.old) (O.faults output.old)) (outside files writes (O.written output.new) (O.faults output.new)) result }
{
    match output.put_all(text) {
        Ok(()) => status,
        Err(_) => UNWRITTEN,
    }
}

/// Writes the report of a refusal.
pub fn refuse<S: Store, O: Sink>(
    alloc: Global,
    store: &mut S,
    output: &mut O,
    name: &str,
    fault: &FaultLine,
) -> u8
    ensures refused { ((result ≡ 30) × IsKept (outside (S.files store.old) (S.write_faults store.old) (O.written output.old) (O.faults output.old)) (outside (S.files store.new) (S.write_faults store.new) (O.written output.new) (O.faults output.new)))
        ⊎ Reports name.now (refusal_text fault.now) (status_of fault.now) (outside (S.files store.old) (S.write_faults store.old) (O.written output.old) (O.faults output.old)) (outside (S.files store.new) (S.write_faults store.new) (O.written output.new) (O.faults output.new)) result }
    ensures reads_later { (other : List ℕ) → S.read_faults store.old other ≤ S.read_faults store.new other }
{
    match refusal_report(alloc, fault) {
        Ok(text) => write_report(store, output, name, text, fault_status(fault)),
        Err(_) => NO_MEMORY,
    }
}

/// Puts a fault line, and answers its status.
fn complain<O: Sink>(alloc: Global, output: &mut O, fault: &FaultLine) -> u8
    ensures { (files : Option Files) (writes : List ℕ → ℕ) → Complains fault.now (outside files writes (O.written output.old) (O.faults output.old)) (outside files writes (O.written output.new) (O.faults output.new)) result }
{
    match fault_line(alloc, fault) {
        Ok(text) => tell(output, text.as_slice(), fault_status(fault)),
        Err(_) => NO_MEMORY,
    }
}

/// Puts the fault line of a file that isn't accepted, and answers its status.
pub fn decline<O: Sink>(alloc: Global, output: &mut O, why: &Unaccepted) -> u8
    ensures { (files : Option Files) (writes : List ℕ → ℕ) → Declines why.now (outside files writes (O.written output.old) (O.faults output.old)) (outside files writes (O.written output.new) (O.faults output.new)) result }
{
    match why {
        Unaccepted::Memory => NO_MEMORY,
        Unaccepted::Refused(fault) | Unaccepted::Failed(fault) => complain(alloc, output, fault),
    }
}
