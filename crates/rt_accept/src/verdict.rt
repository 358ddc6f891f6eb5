//! The fault lines of systems that aren't linked.

ghost use Rattle.std.specs.Prelude.{◌≡◌};
ghost use Rattle.rt_accept.specs.Faulting.{IsToldBy};
ghost use Rattle.rt_accept.specs.Verdicts as spec;

use crate::modules::Modules;
use crate::naming::{file_at, proc_names};
use crate::reading::Unaccepted;
use rt_graph::GraphFault;
use rt_link::LinkFault;
use rt_match::MatchFault;
use rt_object::Object;
use rt_report::FaultLine;
use rt_system::Entry;
use rt_words::Bytes;
use std::alloc::Global;

/// The module in which objects don't match, where the fault line tells one.
fn module_in(fault: &MatchFault) -> Option<u16>
    ensures { result ≡ spec.module_in fault.now }
{
    match fault {
        MatchFault::Memory | MatchFault::Duplicate { .. } => None,
        MatchFault::Missing { module, .. }
        | MatchFault::Mismatch { module, .. }
        | MatchFault::NotSupplied { module, .. } => Some(*module),
    }
}

/// Why objects that don't match aren't accepted, by the file of the module.
fn unmatched_in(file: Bytes, fault: MatchFault) -> Unaccepted
    ensures { IsToldBy (spec.match_line file fault) result }
{
    match fault {
        MatchFault::Memory => Unaccepted::Memory,
        MatchFault::Duplicate { brick } => Unaccepted::Refused(FaultLine::Duplicate { brick }),
        MatchFault::Missing { brick, .. } => Unaccepted::Refused(FaultLine::Missing {
            file,
            brick,
        }),
        MatchFault::Mismatch {
            brick,
            wanted,
            found,
            ..
        } => Unaccepted::Refused(FaultLine::Mismatch {
            file,
            brick,
            wanted,
            found,
        }),
        MatchFault::NotSupplied { brick, .. } => {
            Unaccepted::Refused(FaultLine::NotSupplied { file, brick })
        }
    }
}

/// Why objects that don't match aren't accepted.
fn unmatched(alloc: Global, entries: &[Entry], fault: MatchFault) -> Unaccepted
    ensures { IsToldBy (spec.match_line (spec.file_at entries.now (spec.module_in fault)) fault) result }
{
    match file_at(alloc, entries, module_in(&fault)) {
        Ok(file) => unmatched_in(file, fault),
        Err(_) => Unaccepted::Memory,
    }
}

/// Why a system isn't accepted whose calls or tasks have this fault.
fn refused(alloc: Global, objects: &[Object], fault: GraphFault) -> Unaccepted
    ensures { IsToldBy (spec.graph_line objects.now fault) result }
{
    match fault {
        GraphFault::Memory => Unaccepted::Memory,
        GraphFault::Recursion { cycle } => match proc_names(alloc, objects, cycle.as_slice()) {
            Ok(cycle) => Unaccepted::Refused(FaultLine::Recursion { cycle }),
            Err(_) => Unaccepted::Memory,
        },
        GraphFault::SmallStack { task, need, has } => {
            Unaccepted::Refused(FaultLine::SmallStack { task, need, has })
        }
        GraphFault::BadTask { line } => Unaccepted::Refused(FaultLine::BadTask { line }),
    }
}

/// Why a system that was read isn't accepted: by the fault line of its verdict, unless memory was wanted.
pub fn not_linked(alloc: Global, modules: &Modules, fault: LinkFault) -> Unaccepted
    ensures { IsToldBy (spec.line_of modules.now.objects modules.now.system.entries fault) result }
{
    match fault {
        LinkFault::Memory => Unaccepted::Memory,
        LinkFault::Unmatched(fault) => unmatched(alloc, modules.system.entries(), fault),
        LinkFault::Refused(fault) => refused(alloc, modules.objects.as_slice(), fault),
        LinkFault::NoRoom { bytes } => Unaccepted::Refused(FaultLine::NoRoom { bytes }),
    }
}
