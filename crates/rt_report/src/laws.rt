//! Laws of the table.

ghost use Rattle.rt_report.specs.Laws.{EachTaskIsTold};

/// The line of each task has the need of its root and the words of its stack.
pub fn each_task_is_told()
    ensures { EachTaskIsTold }
{}
