//! Doing deeds.

ghost use Rattle.std.specs.Prelude.{◌≡◌, ◌≤◌, ℕ, List, is_ok};
ghost use Rattle.rt_outside.specs.Deeds.{deed_of, deeds_of, IsDone, HasFailed, Performed};
ghost use Rattle.std.specs.Prelude.{OnOk, OnErr};

use crate::deed::Deed;
use crate::sink::{Failed, Sink};
use crate::store::Store;

fn perform_one<S: Store, O: Sink>(
    store: &mut S,
    output: &mut O,
    deed: &Deed<'_>,
) -> Result<(), Failed>
    ensures done { OnOk result (IsDone (deed_of deed.now)
        (record { files = S.files store.old; writes = S.write_faults store.old; written = O.written output.old; faults = O.faults output.old })
        (record { files = S.files store.new; writes = S.write_faults store.new; written = O.written output.new; faults = O.faults output.new })) }
    ensures failed { OnErr result (HasFailed (deed_of deed.now)
        (record { files = S.files store.old; writes = S.write_faults store.old; written = O.written output.old; faults = O.faults output.old })
        (record { files = S.files store.new; writes = S.write_faults store.new; written = O.written output.new; faults = O.faults output.new })) }
    ensures reads_later { (name : List ℕ) → S.read_faults store.old name ≤ S.read_faults store.new name }
{
    match deed {
        Deed::Write { name, bytes } => store.write(name, bytes.as_slice()),
        Deed::Put(bytes) => output.put_all(bytes.as_slice()),
    }
}

/// Does deeds in their order, up to the first that fails; none behind it is begun. It takes no memory.
///
/// # Errors
///
/// A deed failed, and the count of faults of its very object rose.
pub fn perform<S: Store, O: Sink>(
    store: &mut S,
    output: &mut O,
    deeds: &[Deed<'_>],
) -> Result<(), Failed>
    ensures performed { Performed (deeds_of deeds.now)
        (record { files = S.files store.old; writes = S.write_faults store.old; written = O.written output.old; faults = O.faults output.old })
        (record { files = S.files store.new; writes = S.write_faults store.new; written = O.written output.new; faults = O.faults output.new })
        (is_ok result) }
    ensures reads_later { (name : List ℕ) → S.read_faults store.old name ≤ S.read_faults store.new name }
{
    for deed in deeds {
        match perform_one(store, output, deed) {
            Ok(()) => {}
            Err(failed) => return Err(failed),
        }
    }
    Ok(())
}
