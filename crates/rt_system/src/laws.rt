//! The laws of the texts. Each is a function that does nothing, whose contract is the law.

ghost use Rattle.rt_system.specs.Laws.{HaveOneReading, HaveSomeReading, HaveOneTickReading, HaveSomeTickReading};

/// A text has just one reading as a system text: a system, or a line where it is refused.
pub fn texts_have_one_reading()
    ensures one { HaveOneReading }
    ensures some { HaveSomeReading }
{}

/// A text has just one reading as a tick text: its ticks, or the line where it is refused.
pub fn tick_texts_have_one_reading()
    ensures one { HaveOneTickReading }
    ensures some { HaveSomeTickReading }
{}
