// The laws of the queues. Each is a function that does nothing, whose contract is the law.
ghost use Rattle.rt_run.specs.SuperLaws.{OneQueue, RunsAtHead, HeadRuns, ServiceMoves, TickMoves};

/// A priority has one queue; the running task stands at the head of its own, which is the first that isn't empty.
pub fn running_stands_first()
    ensures one { OneQueue }
    ensures at_head { RunsAtHead }
    ensures runs { HeadRuns }
{}

/// Who takes a stamp comes to the end of its queue. A service may take the running task from the head of its queue; a
/// tick takes it to the end, and the tasks that it wakes stand behind it, in the order of their numbers. No other task moves.
pub fn others_keep_their_places()
    ensures service { ServiceMoves }
    ensures tick { TickMoves }
{}
