//! The texts are written.

ghost use Rattle.std.specs.Prelude.{◌≡◌, ◌≤◌, ℕ, List, Option, string_bytes};
ghost use Rattle.rt_outside.specs.Deeds.{Writes, Performed};
ghost use Rattle.rt_generated.specs.Stores.{AreTexts, IsTried};
ghost use Rattle.rt_generated.specs.Texts.{writes_of};

use crate::store::{NamedText, Texts};
use rt_outside::Store;

fn write_one<S: Store>(text: &NamedText, store: &mut S) -> bool
    ensures tried { (written : Option (List ℕ)) (faults : ℕ) → IsTried (Writes (string_bytes text.now.name) text.now.text)
        (record { files = S.files store.old; writes = S.write_faults store.old; written = written; faults = faults })
        (record { files = S.files store.new; writes = S.write_faults store.new; written = written; faults = faults }) result }
    ensures reads_later { (other : List ℕ) → S.read_faults store.old other ≤ S.read_faults store.new other }
{
    store
        .write(text.name.as_str(), text.text.as_slice())
        .is_ok()
}

/// Writes the three texts one after another, up to the first whose write fails. It takes no memory.
pub fn write_texts<S: Store>(texts: &Texts, store: &mut S) -> bool
    ensures written { (n : ℕ) (name : List ℕ) (written : Option (List ℕ)) (faults : ℕ) → AreTexts n name texts.now → Performed (writes_of n name)
        (record { files = S.files store.old; writes = S.write_faults store.old; written = written; faults = faults })
        (record { files = S.files store.new; writes = S.write_faults store.new; written = written; faults = faults }) result }
    ensures reads_later { (other : List ℕ) → S.read_faults store.old other ≤ S.read_faults store.new other }
{
    if !write_one(&texts.module, store) {
        return false;
    }
    if !write_one(&texts.system, store) {
        return false;
    }
    write_one(&texts.ticks, store)
}
