//! `run`: an image is run under ticks, and the report of the run is written.

ghost use Rattle.std.specs.Prelude.{◌≡◌, ◌≤◌, [], length, ℕ, List, IfOk, IfErr};
ghost use Rattle.rt_image.specs.declared.image.ImageParts.{ImageParts};
ghost use Rattle.rt_report.specs.Reports.{room_for};
ghost use Rattle.rt_run.specs.Boundaries.{start};
ghost use Rattle.rt_run.specs.Picture.{Shows};
ghost use Rattle.rt_accept.specs.Calls.{the_call, moved, stock, sunk, fed, outside};
ghost use Rattle.rt_accept.specs.Reading.{HasImage, HasTicks};
ghost use Rattle.rt_headline.specs.Carrying.{names_of, IsCarried};
ghost use Rattle.rt_top.specs.Running.{asked, IsRefused, IsReady, Begins, RunEnds};

use crate::reporting::{NO_MEMORY, refuse, write_report};
use rt_accept::{Unaccepted, accept_image, accept_ticks};
use rt_commands::TimedWords;
use rt_image::{Image, ImageTask};
use rt_outside::{Sink, Source, Store};
use rt_report::{report, report_room};
use rt_run::{Run, boundaries_are_counted};
use rt_system::Ticks;
use rt_words::{List, Memory, Name, Text};
use std::alloc::Global;

/// What is run.
#[derive(Drop)]
pub struct Accepted {
    pub image: Image,
    pub ticks: Ticks,
}

/// A run before its first instruction, and all that its report takes.
#[derive(Drop)]
pub struct Ready {
    pub names: List<Name>,
    pub run: Run,
    /// Empty, with room for the report.
    pub report: Text,
}

/// Reads the files in their turn.
fn accept<S: Store>(
    alloc: Global,
    store: &mut S,
    words: &TimedWords<'_>,
) -> Result<Accepted, Unaccepted>
    ensures image { IfOk result (λ a. HasImage (S.files store.old) words.now.first.now a.image) }
    ensures ticks { IfOk result (λ a. HasTicks (S.files store.old) words.now.second.now a.ticks) }
    ensures err { IfErr result (IsRefused (S.files store.old) (S.read_faults store.old) (S.read_faults store.new) (asked words.now)) }
    ensures unchanged { S.files store.new ≡ S.files store.old }
    ensures writes_later { (other : List ℕ) → S.write_faults store.old other ≤ S.write_faults store.new other }
{
    match accept_image(alloc, store, words.first) {
        Ok(image) => match accept_ticks(alloc, store, words.second) {
            Ok(ticks) => Ok(Accepted { image, ticks }),
            Err(why) => Err(why),
        },
        Err(why) => Err(why),
    }
}

fn copy_names(alloc: Global, tasks: &[ImageTask]) -> Result<List<Name>, Memory>
    ensures { IfOk result (λ ns. ns ≡ names_of tasks.now) }
{
    let mut names = List::new(alloc, tasks.len())?;
    for task in tasks {
        names.push(task.name.copy(alloc)?)?;
    }
    Ok(names)
}

/// Takes all memory that the run and its report take.
pub fn prepare(alloc: Global, accepted: Accepted) -> Result<Ready, Memory>
    ensures { IfOk result (IsReady accepted.image accepted.ticks) }
{
    let Accepted { image, ticks } = accepted;
    let names = copy_names(alloc, image.parts().tasks.as_slice())?;
    let report = report_room(alloc, names.as_slice(), ticks.gaps().len() as u32)?;
    let run = Run::open(alloc, image, ticks)?;
    Ok(Ready { names, run, report })
}

/// Runs, and writes the report.
pub fn finish<S: Store, I: Source, O: Sink>(
    ready: Ready,
    limit: u64,
    name: &str,
    store: &mut S,
    input: &mut I,
    output: &mut O,
) -> u8
    requires begins { Begins ready }
    requires limit { limit ≤ 4000000000 }
    ensures { (image : ImageParts) (gaps : List ℕ) → IsReady image gaps ready →
        IsCarried (the_call
        (moved (stock S.files S.read_faults S.write_faults) store.old store.new)
        (moved (sunk O.written O.faults) output.old output.new)
        (moved (fed I.left I.ended I.faults) input.old input.new)) (outside (S.files store.old) (S.write_faults store.old) (O.written output.old) (O.faults output.old)) limit name.now image gaps result }
{
    boundaries_are_counted();
    let Ready {
        names,
        mut run,
        report: mut text,
    } = ready;
    let end = run.go(input, output, limit);
    let status = report(&run, &end, names.as_slice(), &mut text);
    write_report(store, output, name, text, status)
}

/// Does `run`, and answers its status.
pub fn run<S: Store, I: Source, O: Sink>(
    alloc: Global,
    words: &TimedWords<'_>,
    store: &mut S,
    input: &mut I,
    output: &mut O,
) -> u8
    requires { words.now.limit ≤ 4000000000 }
    ensures { RunEnds (the_call
        (moved (stock S.files S.read_faults S.write_faults) store.old store.new)
        (moved (sunk O.written O.faults) output.old output.new)
        (moved (fed I.left I.ended I.faults) input.old input.new)) (asked words.now) result }
{
    match accept(alloc, store, words) {
        Ok(accepted) => match prepare(alloc, accepted) {
            Ok(ready) => finish(ready, words.limit, words.last, store, input, output),
            Err(_) => NO_MEMORY,
        },
        Err(Unaccepted::Memory) => NO_MEMORY,
        Err(Unaccepted::Refused(fault)) => refuse(alloc, store, output, words.last, &fault),
        Err(Unaccepted::Failed(fault)) => refuse(alloc, store, output, words.last, &fault),
    }
}
