//! The laws.

ghost use Rattle.rt_guards_laws.specs.Owning.{TicksKeep, ServicesKeepOthers, SecureAdds, ReleaseTakes, OthersLeave, TicksKeepLower, ServicesKeepLower};
ghost use Rattle.rt_guards_laws.specs.Rings.{RingsAreRefused};
ghost use Rattle.rt_guards_laws.specs.Ways.{EntriesFollow, LabelsFollow};
ghost use Rattle.rt_guards_laws.specs.Moves.{ComesToPoints, HeldDrops, MayGrows};
ghost use Rattle.rt_guards_laws.specs.Steps.{ActsStayOn};
ghost use Rattle.rt_guards_laws.specs.Invariant.{StandsBySame, StandsForFewer, AccessFollows, OrderFollows};
ghost use Rattle.rt_guards_laws.specs.Whole.{StartsAllStand, RunsStand, RunsHaveNoRing};
ghost use Rattle.rt_guards_laws.specs.Keeping.{StartsStand, RootsKeep, RootsReturn, GoingOnKeeps, CallsKeep, ReturnsKeep, SuppliedCalls, SecuresKeep, ReleasesKeep, OthersKeep, ServicesReturn, HandlersKeep, HandlersReturn};

/// What a task has, owned or waited for, is changed by its own services alone: SECURE adds its number, whatever comes of it, RELEASE takes
/// its number away, and the others that come back leave all.
pub fn services_alone_change_what_a_task_has()
    ensures ticks { TicksKeep }
    ensures others { ServicesKeepOthers }
    ensures secures { SecureAdds }
    ensures releases { ReleaseTakes }
    ensures leaves { OthersLeave }
{}

/// Where each SECURE(n) is called by a task that owns facilities below n alone, who waits owns lower facilities alone; and where that is so,
/// no tasks wait for one another in a ring.
pub fn lower_facilities_make_no_ring()
    ensures ticks { TicksKeepLower }
    ensures services { ServicesKeepLower }
    ensures rings { RingsAreRefused }
{}

/// From the entry of a procedure, and from each of its labels, each visible step comes along a way of control of its points.
pub fn activations_follow_points()
    ensures entries { EntriesFollow }
    ensures labels { LabelsFollow }
{}

/// Control comes to points alone; where it comes without a step, Held doesn't grow and May loses nothing; and so it is past each step of an
/// activation that stands at a point.
pub fn families_bound_ways()
    ensures points { ComesToPoints }
    ensures held { HeldDrops }
    ensures may { MayGrows }
    ensures acts { ActsStayOn }
{}

/// The invariant of a task: each of its activations stands at a point, and what the task has lies between Held and May. It holds at the
/// start, ticks and other tasks' steps keep it, and so do the task's own steps, each kind by a clause of its own.
pub fn tasks_stand_at_points()
    ensures starts { StartsStand }
    ensures same { StandsBySame }
    ensures fewer { StandsForFewer }
    ensures roots { RootsKeep }
    ensures rooted { RootsReturn }
    ensures goes_on { GoingOnKeeps }
    ensures calls { CallsKeep }
    ensures returned { ReturnsKeep }
    ensures supplied { SuppliedCalls }
    ensures secures { SecuresKeep }
    ensures releases { ReleasesKeep }
    ensures others { OthersKeep }
    ensures services { ServicesReturn }
    ensures handlers { HandlersKeep }
    ensures handled { HandlersReturn }
{}

/// Where the accesses of a brick are guarded, a running task that comes to one owns the facility; and where facilities are taken in order, a
/// task that asks for one owns lower ones alone.
pub fn tests_bound_steps()
    ensures access { AccessFollows }
    ensures order { OrderFollows }
{}

/// Whatever ticks and steps come: where each task stands after its own steps, each stands in each state of a run; and where facilities are
/// asked for in order, no state has a ring.
pub fn runs_keep_what_steps_keep()
    ensures starts { StartsAllStand }
    ensures stand { RunsStand }
    ensures rings { RunsHaveNoRing }
{}
