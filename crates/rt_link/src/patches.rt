//! Words and bytes with their relocations applied.

ghost use Rattle.std.specs.Prelude.{◌≡◌, ◌+◌, ◌<◌, length, IfOk};
ghost use Rattle.std.specs.List.{AllByRecursion};
ghost use Rattle.rt_link.specs.Named.{relocated_word};
ghost use Rattle.rt_link.specs.Ready.{AreReady};
ghost use Rattle.rt_link.specs.Relocated as spec;

use crate::address::relocated_word;
use crate::linking::Linking;
use rt_object::Relocation;
use rt_words::{Bytes, List, Memory};
use std::alloc::Global;

/// The words of a module's procedure with its relocations applied.
pub fn patched(
    alloc: Global,
    linking: Linking<'_>,
    module: u16,
    words: &[u16],
    relocations: &[Relocation],
) -> Result<List<u16>, Memory>
    requires ready { AreReady linking.objects.now linking.stacks.now linking.layout.now linking.support.now }
    requires inside { AllByRecursion (λ r. r.place < length words.now) relocations.now }
    ensures { IfOk result (λ made. made ≡ spec.patched (relocated_word linking.entry.objects.now linking.entry.stacks.now linking.entry.bindings.now.of «module») relocations.now words.now) }
{
    let mut made = List::from_slice(alloc, words)?;
    for relocation in relocations {
        let word = relocated_word(linking, module, *relocation);
        made.set(usize::from(relocation.place), word);
    }
    Ok(made)
}

/// Bytes, rounded up to an even number of them.
pub fn padded(alloc: Global, bytes: &[u8]) -> Result<Bytes, Memory>
    ensures { IfOk result (λ made. made ≡ spec.padded bytes.now) }
{
    let mut made = List::from_slice(alloc, bytes)?;
    if bytes.len() % 2 != 0 {
        made.push(0)?;
    }
    Ok(made)
}

/// The bytes of a module's data brick, rounded up to an even number, with its relocations applied.
pub fn patched_bytes(
    alloc: Global,
    linking: Linking<'_>,
    module: u16,
    bytes: &[u8],
    relocations: &[Relocation],
) -> Result<Bytes, Memory>
    requires ready { AreReady linking.objects.now linking.stacks.now linking.layout.now linking.support.now }
    requires inside { AllByRecursion (λ r. r.place + 1 < length (spec.padded bytes.now)) relocations.now }
    ensures { IfOk result (λ made. made ≡ spec.patched_bytes (relocated_word linking.entry.objects.now linking.entry.stacks.now linking.entry.bindings.now.of «module») relocations.now (spec.padded bytes.now)) }
{
    let mut made = padded(alloc, bytes)?;
    for relocation in relocations {
        let word = relocated_word(linking, module, *relocation);
        let place = usize::from(relocation.place);
        made.set(place, (word % 256) as u8);
        made.set(place + 1, (word / 256) as u8);
    }
    Ok(made)
}
