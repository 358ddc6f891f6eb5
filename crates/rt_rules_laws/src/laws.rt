//! The laws.

ghost use Rattle.rt_rules_laws.specs.Laws.{RunsAlive, TicksKeepEnded, ServicesKeepEnded, EndsEnd};

/// Who runs hasn't ended. Who hasn't ended after a tick, or after a service of the running task, hadn't ended before; and a task
/// that a service ends has ended.
pub fn ended_tasks_stay_ended()
    ensures runs { RunsAlive }
    ensures tick { TicksKeepEnded }
    ensures service { ServicesKeepEnded }
    ensures end { EndsEnd }
{}
