//! The addresses of what relocations name.

ghost use Rattle.std.specs.Prelude.{◌≡◌};
ghost use Rattle.rt_templates.specs.Supported.{IsSupport};
ghost use Rattle.rt_link.specs.Named as spec;
ghost use Rattle.rt_link.specs.Ready.{AreReady};

use crate::linking::Linking;
use rt_graph::{Proc, bound_at};
use rt_match::Bound;
use rt_object::{Relocated, Relocation};
use rt_templates::Support;
use rt_words::wrap_add;

/// Where a routine of the support code begins, by its number; 0 where there is none.
pub fn routine_address(support: &Support, number: u16) -> u16
    requires { IsSupport support.now }
    ensures { result ≡ spec.routine_address number }
{
    if number == 0 {
        return 0;
    }
    match support.entries.get(usize::from(number) - 1) {
        Some(address) => *address,
        None => 0,
    }
}

fn supplied_address(support: &Support, number: u8) -> u16
    requires { IsSupport support.now }
    ensures { result ≡ spec.supplied_address number }
{
    if number <= 10 {
        routine_address(support, u16::from(number))
    } else {
        0
    }
}

fn bound_address(linking: Linking<'_>, module: u16, brick: u16, bound: Option<Bound>) -> u16
    requires { AreReady linking.objects.now linking.stacks.now linking.layout.now linking.support.now }
    ensures { result ≡ spec.bound_address linking.entry.objects.now linking.entry.stacks.now linking.entry.bindings.now.of «module» brick bound }
{
    match bound {
        None => 0,
        Some(Bound::Own) => linking.layout.brick(Proc { module, brick }),
        Some(Bound::Brick(module, brick)) => linking.layout.brick(Proc { module, brick }),
        Some(Bound::Supplied(number)) => supplied_address(linking.support, number),
    }
}

/// The address of what a relocation of a module names; 0 where it has none.
pub fn named_address(linking: Linking<'_>, module: u16, of: Relocated) -> u16
    requires { AreReady linking.objects.now linking.stacks.now linking.layout.now linking.support.now }
    ensures { result ≡ spec.named_address linking.entry.objects.now linking.entry.stacks.now linking.entry.bindings.now.of «module» of }
{
    match of {
        Relocated::Brick(brick) => {
            let bound = bound_at(linking.bindings, module, brick);
            bound_address(linking, module, brick, bound)
        }
        Relocated::String(number) => linking.layout.string(module, number),
        Relocated::Support(number) => routine_address(linking.support, number),
    }
}

/// The word of a relocation of a module.
pub fn relocated_word(linking: Linking<'_>, module: u16, relocation: Relocation) -> u16
    requires { AreReady linking.objects.now linking.stacks.now linking.layout.now linking.support.now }
    ensures { result ≡ spec.relocated_word linking.entry.objects.now linking.entry.stacks.now linking.entry.bindings.now.of «module» relocation }
{
    wrap_add(
        named_address(linking, module, relocation.of),
        relocation.offset,
    )
}
