// The laws above the rules. Each is a function that does nothing, whose contract is the law.
ghost use Rattle.rt_rules.specs.declared.service.Svc.TheVariants.{Signal, Release};
ghost use Rattle.rt_rules.specs.Laws.{StartInRanges, StayInRanges, FindsFirst, FindsNone, OneFirst, DelayBegins, DelayGoesOn, DelayIsOver, KeepsRow, TickEndsTurn, TickRaises, ServiceRaises, StaysLow, WaitersAlwaysWait, TickKeeps, OwnerChanges};

/// The ranges that the type keeps hold at the start, and stand after a tick and after each service.
pub fn ranges_stand()
    ensures start { StartInRanges }
    ensures stay { StayInRanges }
{}

/// The task that is found is the one of its kind with the least pair of priority and stamp: the running task
/// among those that are ready, and the first waiter of an event or a facility.
pub fn first_is_least()
    ensures found { FindsFirst }
    ensures none { FindsNone }
    ensures one { OneFirst }
{}

/// A task that is delayed by n ticks is ready after the n-th tick from then, whatever other tasks do meanwhile.
pub fn delay_is_over()
    ensures begins { DelayBegins }
    ensures goes_on { DelayGoesOn }
    ensures over { DelayIsOver }
{}

/// SIGNAL and RELEASE don't make the running task arrive anew.
pub fn services_keep_turn()
    ensures signal { KeepsRow Signal }
    ensures release { KeepsRow Release }
{}

/// After a tick the other ready tasks of its priority come before the task that ran.
pub fn tick_ends_turn()
    ensures { TickEndsTurn }
{}

/// How far a tick and a service raise the clock and the next stamp, so that the conditions of both hold all through a run of
/// 200,000 ticks and 4,000,000,000 services.
pub fn clock_and_stamp_stay_low()
    ensures tick { TickRaises }
    ensures service { ServiceRaises }
    ensures run { StaysLow }
{}

/// A facility that a task waits for has an owner, and that is another task.
pub fn waiters_wait_for_owners()
    ensures { WaitersAlwaysWait }
{}

/// A tick changes no flag and no owner. Nothing but a service of the owner that releases the facility, or the
/// owner's end, takes a facility from its owner; a free facility gets an owner only where a task secures it.
pub fn owners_keep_facilities()
    ensures tick { TickKeeps }
    ensures service { OwnerChanges }
{}
