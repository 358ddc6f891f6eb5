//! An accepted system is carried out: its image is written, run, and the run reported; or a refusal is reported.

ghost use Rattle.std.specs.Prelude.{◌≡◌, ◌≤◌, ◌⊎◌, ◌++◌, ℕ, List, codes, string_bytes, IfOk};
ghost use Rattle.rt_report.specs.Faults.{status_of, refusal_text};
ghost use Rattle.rt_accept.specs.Calls.{the_call, moved, stock, sunk, fed, outside, IsKept, Reports};
ghost use Rattle.rt_top.specs.declared.running.Accepted.{Accepted};
ghost use Rattle.rt_top.specs.Going.{asked_go, IsPrepared, IsCarriedOn, IsGivenUp};
ghost use Rattle.rt_top.specs.Running.{Begins};

use crate::reporting::{NO_MEMORY, UNWRITTEN, refuse};
use crate::running::{Accepted, Ready, finish, prepare};
use rt_accept::Unaccepted;
use rt_commands::TimedWords;
use rt_image::write_image;
use rt_outside::{Sink, Source, Store};
use rt_report::FaultLine;
use rt_words::{Bytes, Memory};
use std::alloc::Global;

/// The names of the files that are written.
#[derive(Drop)]
pub struct Names {
    pub image: String,
    pub report: String,
}

/// What stands ready before the first write: the bytes of the image, the names of the two files, and the run.
#[derive(Drop)]
pub struct Prepared {
    pub bytes: Bytes,
    pub names: Names,
    pub ready: Ready,
}

/// A name and an ending.
fn named(alloc: Global, name: &str, ending: &str) -> Result<String, Memory>
    ensures { IfOk result (λ text. string_bytes text ≡ name.now ++ ending.now) }
{
    let mut text = String::new(alloc);
    text.push_str(name)?;
    text.push_str(ending)?;
    Ok(text)
}

fn names_of(alloc: Global, name: &str) -> Result<Names, Memory>
    ensures image { IfOk result (λ names. string_bytes names.image ≡ name.now ++ codes ".IMG") }
    ensures report { IfOk result (λ names. string_bytes names.report ≡ name.now ++ codes ".RPT") }
{
    let image = named(alloc, name, ".IMG")?;
    let report = named(alloc, name, ".RPT")?;
    Ok(Names { image, report })
}

/// Takes all memory that is taken from here on.
pub fn prepare_all(
    alloc: Global,
    words: &TimedWords<'_>,
    accepted: Accepted,
) -> Result<Prepared, Memory>
    ensures { IfOk result (IsPrepared (asked_go words.now) accepted) }
{
    let names = names_of(alloc, words.last)?;
    let bytes = write_image(alloc, &accepted.image)?;
    let ready = prepare(alloc, accepted)?;
    Ok(Prepared {
        bytes,
        names,
        ready,
    })
}

/// Writes the image, runs it, and writes the report. It takes no memory.
pub fn carry_out<S: Store, I: Source, O: Sink>(
    prepared: Prepared,
    words: &TimedWords<'_>,
    store: &mut S,
    input: &mut I,
    output: &mut O,
) -> u8
    requires begins { Begins prepared.ready }
    requires limit { words.now.limit ≤ 4000000000 }
    ensures { (x : Accepted) → IsPrepared (asked_go words.now) x prepared →
        IsCarriedOn (the_call
        (moved (stock S.files S.read_faults S.write_faults) store.old store.new)
        (moved (sunk O.written O.faults) output.old output.new)
        (moved (fed I.left I.ended I.faults) input.old input.new)) (asked_go words.now) x.image x.ticks result }
{
    let Prepared {
        bytes,
        names,
        ready,
    } = prepared;
    let report = names.report.as_str();
    match store.write(names.image.as_str(), bytes.as_slice()) {
        Ok(()) => finish(ready, words.limit, report, store, input, output),
        Err(_) => UNWRITTEN,
    }
}

/// Writes the report of a refusal under the command's last word.
fn report_refusal<S: Store, O: Sink>(
    alloc: Global,
    name: &str,
    fault: &FaultLine,
    store: &mut S,
    output: &mut O,
) -> u8
    ensures refused { ((result ≡ 30) × IsKept (outside (S.files store.old) (S.write_faults store.old) (O.written output.old) (O.faults output.old)) (outside (S.files store.new) (S.write_faults store.new) (O.written output.new) (O.faults output.new)))
        ⊎ Reports (name.now ++ codes ".RPT") (refusal_text fault.now) (status_of fault.now) (outside (S.files store.old) (S.write_faults store.old) (O.written output.old) (O.faults output.old)) (outside (S.files store.new) (S.write_faults store.new) (O.written output.new) (O.faults output.new)) result }
    ensures reads_later { (other : List ℕ) → S.read_faults store.old other ≤ S.read_faults store.new other }
{
    match named(alloc, name, ".RPT") {
        Ok(report) => refuse(alloc, store, output, report.as_str(), fault),
        Err(_) => NO_MEMORY,
    }
}

/// Reports why the files aren't accepted.
pub fn give_up<S: Store, O: Sink>(
    alloc: Global,
    words: &TimedWords<'_>,
    why: &Unaccepted,
    store: &mut S,
    output: &mut O,
) -> u8
    ensures given_up { IsGivenUp (asked_go words.now) why.now (outside (S.files store.old) (S.write_faults store.old) (O.written output.old) (O.faults output.old)) (outside (S.files store.new) (S.write_faults store.new) (O.written output.new) (O.faults output.new)) result }
    ensures reads_later { (other : List ℕ) → S.read_faults store.old other ≤ S.read_faults store.new other }
{
    match why {
        Unaccepted::Memory => NO_MEMORY,
        Unaccepted::Refused(fault) | Unaccepted::Failed(fault) => {
            report_refusal(alloc, words.last, fault, store, output)
        }
    }
}
