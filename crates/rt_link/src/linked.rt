//! A system, linked.

ghost use Rattle.std.specs.Prelude.{◌≡◌, ◌≤◌, length, IfOk, IfErr};
ghost use Rattle.rt_link.specs.Linked.{IsLinked};
ghost use Rattle.rt_link.specs.Needs.{root_words};
ghost use Rattle.rt_link.specs.Imaged.{AreStackBricks, image_of};
ghost use Rattle.rt_link.specs.Mapped.{map_of};
ghost use Rattle.rt_link.specs.Ready.{AreReady};
ghost use Rattle.rt_link.specs.Verdict.{IsJudged, IsFault};

use crate::fault::LinkFault;
use crate::judged::{Judged, judge};
use crate::needs::root_words;
use crate::verdict_laws::each_has_a_stack;
use crate::{Layout, Linking, entries_are_stacks, image, image_map};
use rt_image::{Image, Map};
use rt_object::Object;
use rt_system::System;
use rt_templates::support;
use rt_words::Memory;
use std::alloc::Global;

/// Links a system of objects: its image and the map of it, where it passes all tests; else the first test that it fails.
pub fn link(alloc: Global, objects: &[Object], system: &System) -> Result<(Image, Map), LinkFault>
    requires { length objects.now ≤ 64 }
    ensures linked { IfOk result (λ made. IsLinked objects.now system.now.tasks made.0 made.1) }
    ensures fault { IfErr result (IsFault objects.now system.now.tasks) }
{
    each_has_a_stack();
    let judged = judge(alloc, objects, system)?;
    let made = make(alloc, objects, system, &judged)?;
    Ok(made)
}

/// The image of a system that passes all tests, and its map.
fn make(
    alloc: Global,
    objects: &[Object],
    system: &System,
    judged: &Judged,
) -> Result<(Image, Map), Memory>
    requires few { length objects.now ≤ 64 }
    requires judged { IsJudged objects.now system.now.tasks judged.now }
    ensures image { IfOk result (λ made. made.0 ≡ image_of objects.now judged.now.bindings.of system.now.tasks judged.now.roots judged.now.stacks) }
    ensures map { IfOk result (λ made. made.1 ≡ map_of objects.now judged.now.stacks system.now.tasks (root_words judged.now.order.procs judged.now.needs judged.now.roots)) }
{
    bricks_are_there(objects, system, judged);
    let stacks = judged.stacks.as_slice();
    let layout = Layout::of(alloc, objects, stacks)?;
    let support = support(alloc)?;
    let linking = Linking {
        objects,
        stacks,
        bindings: &judged.bindings,
        layout: &layout,
        support: &support,
    };
    make_by(alloc, linking, system, judged)
}

/// The image and the map of a system, by what is known of it.
fn make_by(
    alloc: Global,
    linking: Linking<'_>,
    system: &System,
    judged: &Judged,
) -> Result<(Image, Map), Memory>
    requires few { length linking.objects.now ≤ 64 }
    requires ready { AreReady linking.objects.now linking.stacks.now linking.layout.now linking.support.now }
    requires judged { IsJudged linking.objects.now system.now.tasks judged.now }
    requires stacks { linking.stacks.now ≡ judged.now.stacks }
    ensures image { IfOk result (λ made. made.0 ≡ image_of linking.entry.objects.now linking.entry.bindings.now.of system.now.tasks judged.now.roots linking.entry.stacks.now) }
    ensures map { IfOk result (λ made. made.1 ≡ map_of linking.entry.objects.now linking.entry.stacks.now system.now.tasks (root_words judged.now.order.procs judged.now.needs judged.now.roots)) }
{
    bricks_are_there(linking.objects, system, judged);
    let image = image(alloc, linking, system, judged.roots.as_slice())?;
    let map = map_by(alloc, linking, system, judged)?;
    Ok((image, map))
}

/// The map of a system, by what is known of it.
fn map_by(
    alloc: Global,
    linking: Linking<'_>,
    system: &System,
    judged: &Judged,
) -> Result<Map, Memory>
    requires few { length linking.objects.now ≤ 64 }
    requires ready { AreReady linking.objects.now linking.stacks.now linking.layout.now linking.support.now }
    requires stacks { length linking.stacks.now ≡ length system.now.tasks }
    requires roots { length judged.now.roots ≡ length system.now.tasks }
    ensures { IfOk result (λ map. map ≡ map_of linking.entry.objects.now linking.entry.stacks.now system.now.tasks (root_words judged.now.order.procs judged.now.needs judged.now.roots)) }
{
    let words = root_words(alloc, judged)?;
    image_map(alloc, linking, system.tasks(), words.as_slice())
}

/// Each task of a system that passes all tests has a root, and a stack brick.
fn bricks_are_there(_objects: &[Object], system: &System, _judged: &Judged)
    requires { IsJudged _objects.now system.now.tasks _judged.now }
    ensures few { length _judged.now.stacks ≤ 32 }
    ensures stacks { length _judged.now.stacks ≡ length system.now.tasks }
    ensures roots { length _judged.now.roots ≡ length system.now.tasks }
    ensures bricks { AreStackBricks _objects.now _judged.now.stacks }
{
    let _tasks = system.tasks();
    each_has_a_stack();
    entries_are_stacks();
}
