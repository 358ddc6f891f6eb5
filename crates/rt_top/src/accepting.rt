//! The files of `go` in their turn, and the verdict.

ghost use Rattle.std.specs.Prelude.{◌≡◌, ◌≤◌, ℕ, false, List, length, IfOk, IfErr};
ghost use Rattle.std.specs.List.{AllByRecursion};
ghost use Rattle.rt_object.specs.Ranges.{HasObjectRanges};
ghost use Rattle.rt_system.specs.SystemRanges.{HasSystemRanges};
ghost use Rattle.rt_accept.specs.Reading.{HasSystem, HasTicks, IsDeclined};
ghost use Rattle.rt_accept.specs.Systems.{HaveEntries, RefusesEntries, IsReadAmong};
ghost use Rattle.rt_top.specs.Going.{asked_go, IsAccepted, IsRefused, IsLinkedTo};
ghost use Rattle.rt_top.specs.Linking.{IsUnlinked};

use crate::running::Accepted;
use rt_accept::{
    Modules, Unaccepted, accept_entries, accept_system, accept_ticks, not_linked,
    objects_have_their_places,
};
use rt_commands::TimedWords;
use rt_headline::systems_have_tasks_and_trees;
use rt_image::Image;
use rt_link::link;
use rt_object::Object;
use rt_outside::Store;
use rt_system::{System, Ticks};
use rt_words::List;
use std::alloc::Global;

/// Reads the files in their turn, and links the system.
pub fn accept<S: Store>(
    alloc: Global,
    store: &mut S,
    words: &TimedWords<'_>,
) -> Result<Accepted, Unaccepted>
    ensures ok { IfOk result (IsAccepted (S.files store.old) (asked_go words.now)) }
    ensures err { IfErr result (IsRefused (S.files store.old) (S.read_faults store.old) (S.read_faults store.new) (asked_go words.now)) }
    ensures unchanged { S.files store.new ≡ S.files store.old }
    ensures reads_later { (other : List ℕ) → S.read_faults store.old other ≤ S.read_faults store.new other }
    ensures writes_later { (other : List ℕ) → S.write_faults store.old other ≤ S.write_faults store.new other }
{
    match accept_system(alloc, store, words.first, false) {
        Ok(system) => accept_others(alloc, store, words, system),
        Err(why) => Err(why),
    }
}

/// The files behind the text of the system.
fn accept_others<S: Store>(
    alloc: Global,
    store: &mut S,
    words: &TimedWords<'_>,
    system: System,
) -> Result<Accepted, Unaccepted>
    requires { HasSystem (S.files store.old) false words.now.first.now system }
    ensures ok { IfOk result (IsAccepted (S.files store.old) (asked_go words.now)) }
    ensures err { IfErr result (IsRefused (S.files store.old) (S.read_faults store.old) (S.read_faults store.new) (asked_go words.now)) }
    ensures unchanged { S.files store.new ≡ S.files store.old }
    ensures reads_later { (other : List ℕ) → S.read_faults store.old other ≤ S.read_faults store.new other }
    ensures writes_later { (other : List ℕ) → S.write_faults store.old other ≤ S.write_faults store.new other }
{
    match accept_ticks(alloc, store, words.second) {
        Ok(ticks) => accept_lines(alloc, store, words, system, ticks),
        Err(why) => Err(why),
    }
}

/// The modules, each in its turn, and the verdict on all of them.
fn accept_lines<S: Store>(
    alloc: Global,
    store: &mut S,
    words: &TimedWords<'_>,
    system: System,
    ticks: Ticks,
) -> Result<Accepted, Unaccepted>
    requires system { HasSystem (S.files store.old) false words.now.first.now system }
    requires ticks { HasTicks (S.files store.old) words.now.second.now ticks }
    ensures ok { IfOk result (IsAccepted (S.files store.old) (asked_go words.now)) }
    ensures err { IfErr result (IsRefused (S.files store.old) (S.read_faults store.old) (S.read_faults store.new) (asked_go words.now)) }
    ensures unchanged { S.files store.new ≡ S.files store.old }
    ensures reads_later { (other : List ℕ) → S.read_faults store.old other ≤ S.read_faults store.new other }
    ensures writes_later { (other : List ℕ) → S.write_faults store.old other ≤ S.write_faults store.new other }
{
    systems_have_tasks_and_trees();
    match accept_objects(alloc, store, &system) {
        Ok(objects) => {
            let modules = Modules { system, objects };
            match linked(alloc, &modules) {
                Ok(image) => Ok(Accepted { image, ticks }),
                Err(why) => Err(why),
            }
        }
        Err(why) => Err(why),
    }
}

/// The objects of a system's lines, in their ranges.
fn accept_objects<S: Store>(
    alloc: Global,
    store: &mut S,
    system: &System,
) -> Result<List<Object>, Unaccepted>
    ensures ok { IfOk result (λ os. HaveEntries (S.files store.old) system.now.entries os) }
    ensures ranges { IfOk result (λ os. AllByRecursion HasObjectRanges os) }
    ensures few { IfOk result (λ os. length os ≤ 64) }
    ensures system { HasSystemRanges system.now }
    ensures err { IfErr result (IsDeclined (IsReadAmong (S.files store.old) system.now.entries) (RefusesEntries (S.files store.old) system.now.entries) (S.read_faults store.old) (S.read_faults store.new)) }
    ensures unchanged { S.files store.new ≡ S.files store.old }
    ensures reads_later { (other : List ℕ) → S.read_faults store.old other ≤ S.read_faults store.new other }
    ensures writes_later { (other : List ℕ) → S.write_faults store.old other ≤ S.write_faults store.new other }
{
    objects_have_their_places();
    match accept_entries(alloc, store, system.entries()) {
        Ok(objects) => {
            objects_are_in_range(objects.as_slice());
            Ok(objects)
        }
        Err(why) => Err(why),
    }
}

/// Objects are in their ranges, as their type says.
fn objects_are_in_range(objects: &[Object])
    ensures { AllByRecursion HasObjectRanges objects.now }
{
    for object in objects {
        let _parts = object.parts();
    }
}

/// The image of modules, where they are linked.
fn linked(alloc: Global, modules: &Modules) -> Result<Image, Unaccepted>
    requires { length modules.now.objects ≤ 64 }
    ensures ok { IfOk result (IsLinkedTo modules.now) }
    ensures err { IfErr result (IsUnlinked modules.now.system modules.now.objects) }
{
    match link(alloc, modules.objects.as_slice(), &modules.system) {
        Ok((image, _map)) => Ok(image),
        Err(fault) => Err(not_linked(alloc, modules, fault)),
    }
}
