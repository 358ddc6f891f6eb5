//! The laws.
ghost use Rattle.rt_lower_laws.specs.Laws as laws;

/// The code of the procedures of a module that is within: the frame is made first, and there alone; each way ends in its procedure;
/// behind a division that may fail stand the read of ERP and the report; words and unmarked instructions stay within what the items
/// of a procedure allow. No procedure recovers.
pub fn code_is_within()
    ensures within { laws.CodeIsWithin }
    ensures recovers { laws.NoneRecovers }
{}

/// The locals of a procedure that fits are no more than the nodes that declare them give room for.
pub fn locals_have_room()
    ensures { laws.LocalsHaveRoom }
{}

/// A label leads to an instruction between the frame and the end.
pub fn labels_lead_inside()
    ensures { laws.LabelsLeadInside }
{}

/// Procedures of one body have one code behind their frames.
pub fn frames_alone_differ()
    ensures { laws.FramesAloneDiffer }
{}
