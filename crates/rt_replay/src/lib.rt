//! The report of a run, read back.
//!
//! `specs/Reports.antt` has what bytes are the report of a run, and which line of other bytes is the first that isn't in its place. The
//! lines are those that `rt_report` writes; `specs/Laws.antt` says so.
//!
//! What a report is read for: `specs/Trace.antt` has the trace of a run of the source meaning, and `specs/Replays.antt` what the replay
//! of a report answers.
#![tactic(auto)]

mod draft;
mod fault;
mod laws;
mod lines;
mod numbers;
mod read;
mod report;
mod tasks;
mod words;

pub use fault::ReportFault;
pub use laws::{
    replays_have_one_answer, system_names_are_report_names, texts_have_one_reading,
    written_reports_are_read,
};
pub use read::read_report;
pub use report::{Report, ReportedTask};
