//! An object, read from its bytes.

ghost use Rattle.std.specs.Prelude.{◌≡◌, ◌⊎◌, ◌≤◌, ◌<◌, ◌^◌, ℕ, [], length, IfOk, IfErr, IfSome, IfNone, OnOk, Ok, Err};
ghost use Rattle.rt_words.specs.Format.{whole};
ghost use Rattle.rt_words.specs.Reading as formats;
ghost use Rattle.rt_words.specs.Reading.{Gives};
ghost use Rattle.rt_object.specs.Grammar.{IsNoObject, IsObject, IsOfVersion, Faults, object_format};
ghost use Rattle.rt_object.specs.Known.{Meets};
ghost use Rattle.rt_object.specs.Ranges.{table_of};
ghost use Rattle.rt_object.specs.Reading as reads;
ghost use Rattle.rt_object.specs.declared.fault.ObjectFault.TheVariants as fault;
ghost use Rattle.rt_object.specs.declared.object.ObjectParts.{ObjectParts};

use crate::bad::sizes_of;
use crate::bricks::read_each_brick;
use crate::fault::ObjectFault;
use crate::known::Known;
use crate::object::{Brick, Object, ObjectParts};
use crate::records::read_records;
use crate::strings::read_strings;
use crate::taken::read_taken;
use rt_modes::{ModeTable, RecordDef};
use rt_words::{Bytes, List, Name, Stop, read_end, read_name, read_tag, read_word};
use std::alloc::Global;

/// The parts of an object behind its records: strings, bricks, and the numbers of the procedures that stand
/// as values.
type Tail = ((List<Bytes>, List<Brick>), List<u16>);

/// Reads the object that the bytes are, all of them. Where they are none, the fault has the version that they
/// name, where it is another; else the place of the first field that is cut or out of range, or of the first
/// byte behind the last field.
pub fn read_object(alloc: Global, bytes: &[u8]) -> Result<Object, ObjectFault>
    ensures found { IfOk result (λ o. IsObject bytes.now o) }
    ensures only { (o : ObjectParts) → IsObject bytes.now o → (result ≡ Ok o) ⊎ (result ≡ Err fault.Memory) }
    ensures refused { IfErr result (Faults bytes.now) }
    ensures place { (p : _) → IsNoObject bytes.now p → (result ≡ Err (fault.BadObject p)) ⊎ (result ≡ Err fault.Memory) }
    ensures version { (v : _) → IsOfVersion bytes.now v → result ≡ Err (fault.Version v) }
{
    if let Some(found) = other_version(bytes) {
        return Err(ObjectFault::Version { found });
    }
    match read_parts(alloc, bytes) {
        Ok(parts) => Ok(Object::new(parts)),
        Err(Stop::Refused(left)) => Err(ObjectFault::BadObject {
            at: bytes.len() - left,
        }),
        Err(Stop::Memory) => Err(ObjectFault::Memory),
    }
}

/// The version that the bytes name, where they begin as an object of another version does.
fn other_version(bytes: &[u8]) -> Option<u8>
    ensures some { IfSome result (IsOfVersion bytes.now) }
    ensures none { IfNone result ((v : ℕ) → IsOfVersion bytes.now v → ⊥) }
{
    match bytes.get(3) {
        Some(version) if bytes.starts_with(b"RTO") && *version != 1 => Some(*version),
        _ => None,
    }
}

/// The parts that all of the bytes are.
fn read_parts(alloc: Global, bytes: &[u8]) -> Result<ObjectParts, Stop>
    ensures { Meets (λ x. (x, [])) result (whole object_format) bytes.now }
{
    let (parts, rest) = read_front(alloc, bytes)?;
    read_end(rest)?;
    Ok(parts)
}

/// The parts in front of the bytes.
fn read_front(alloc: Global, bytes: &[u8]) -> Result<(ObjectParts, &[u8]), Stop>
    ensures { Meets (λ x. (x.0, x.1.now)) result object_format bytes.now }
{
    let rest = read_tag(b"RTO\x01", bytes)?;
    let (title, rest) = read_name(alloc, rest)?;
    let (records, rest) = read_records(alloc, rest)?;
    let (tail, rest) = read_tail(alloc, records.as_slice(), rest)?;
    Ok((parts_of(title, records, tail), rest))
}

fn parts_of(title: Name, records: List<RecordDef>, tail: Tail) -> ObjectParts
    ensures { result ≡ reads.parts title records tail }
{
    let ((strings, bricks), taken) = tail;
    ObjectParts {
        title,
        records: ModeTable { records },
        strings,
        bricks,
        taken,
    }
}

/// What stands behind the records.
#[tactic(auto, unfolding(crate::specs::Reading::tail))]
fn read_tail<'b>(
    alloc: Global,
    records: &[RecordDef],
    bytes: &'b [u8],
) -> Result<(Tail, &'b [u8]), Stop>
    requires { length records.now < 2 ^ 16 }
    ensures { Gives (λ x. (x.0, x.1.now)) result (reads.tail records.now bytes.now) }
{
    let (strings, rest) = read_strings(alloc, bytes)?;
    let (bricks, rest) = read_bricks(alloc, records, strings.len(), rest)?;
    let (taken, rest) = read_taken(alloc, bricks.as_slice(), rest)?;
    Ok((((strings, bricks), taken), rest))
}

/// Bricks behind their number, where there are these records and so many strings.
#[tactic(auto, unfolding(crate::specs::Reading::bricks_reader))]
fn read_bricks<'b>(
    alloc: Global,
    records: &[RecordDef],
    strings: usize,
    bytes: &'b [u8],
) -> Result<(List<Brick>, &'b [u8]), Stop>
    requires records { length records.now < 2 ^ 16 }
    requires strings { strings < 2 ^ 16 }
    ensures { Gives (λ x. (x.0, x.1.now)) result (reads.bricks_reader records.now strings bytes.now) }
{
    let (bricks, rest) = read_word(bytes)?;
    let sizes = sizes_of(alloc, records)?;
    let known = Known {
        records,
        count: records.len() as u16,
        sizes: sizes.as_slice(),
        strings: strings as u16,
        bricks,
    };
    read_each_brick(alloc, &known, rest)
}
