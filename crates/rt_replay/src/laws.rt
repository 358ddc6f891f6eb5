//! The laws of reports. Each is a function that does nothing, whose contract is the law.

ghost use Rattle.rt_replay.specs.Laws.{HaveOneAnswer, HaveOneReading, HaveSomeAnswer, HaveSomeReading, SystemNamesAreReportNames, WrittenReportsAreRead};

/// A text has just one reading as a report: what the report says, or the line where it is refused.
pub fn texts_have_one_reading()
    ensures one { HaveOneReading }
    ensures some { HaveSomeReading }
{}

/// What is written as the report of a run is a report, and says what the run came to.
pub fn written_reports_are_read()
    ensures { WrittenReportsAreRead }
{}

/// The names of the tasks of a system are names as reports have them.
pub fn system_names_are_report_names()
    ensures { SystemNamesAreReportNames }
{}

/// The replay of a report has just one answer.
pub fn replays_have_one_answer()
    ensures one { HaveOneAnswer }
    ensures some { HaveSomeAnswer }
{}
