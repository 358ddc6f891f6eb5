// The laws of the parts. Each is a function that does nothing, whose contract is the law.
ghost use Rattle.rt_tasks.specs.Laws.{ParkUndoesDispatch, LieSideBySide};

/// A task that is dispatched and parked, with no instruction between, is as it was, and so is what all tasks share. At the start
/// the parts of a task, what all share and the bytes of the other tasks make up the one memory of the image.
pub fn parts_make_one_memory()
    ensures parked { ParkUndoesDispatch }
    ensures side_by_side { LieSideBySide }
{}
