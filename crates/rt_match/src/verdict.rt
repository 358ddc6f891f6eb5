//! The verdict on a system of objects.

ghost use Rattle.std.specs.Prelude.{◌≤◌, length, IfOk, IfErr};
ghost use Rattle.rt_match.specs.Matching.{Match, AreBound, Fails};
ghost use Rattle.rt_match.specs.Signatures.{system_of};

use crate::alike::check_alike;
use crate::bind::bind_all;
use crate::bindings::Bindings;
use crate::entries::note_all;
use crate::fault::MatchFault;
use crate::missing::check_found;
use rt_object::Object;
use std::alloc::Global;

/// Binds each brick of each object, where the objects match. A fault is the first case of the first test that has one: two ENT
/// bricks of one name; an EXT brick that is nowhere; a brick that differs from that for which it asks; an SVC brick that isn't
/// supplied.
pub fn match_all(alloc: Global, objects: &[Object]) -> Result<Bindings, MatchFault>
    requires { length objects.now ≤ 64 }
    ensures matched { IfOk result (λ bindings. Match (system_of objects.now)) }
    ensures bound { IfOk result (λ bindings. AreBound (system_of objects.now) bindings.of) }
    ensures refused { IfErr result (Fails (system_of objects.now)) }
{
    let entries = note_all(alloc, objects)?;
    check_found(alloc, &entries, objects)?;
    check_alike(alloc, &entries, objects)?;
    bind_all(alloc, &entries, objects)
}
