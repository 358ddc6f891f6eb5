//! Laws of candidates, orders and needs, as the contracts of functions that do nothing.

ghost use Rattle.rt_graph.specs.Laws.{AlwaysCandidates, PointsAreReached, ErrorsAreReached, CalleesComeFirst, OneNeed, NeedsSome, PointsFit, BarePointsFit, DepthsFit, ServicesFit, StacksAreExact};

/// RRIN, RROUT and RRGEL are candidates in every system.
pub fn some_are_always_candidates()
    ensures { AlwaysCandidates }
{}

/// What a reached procedure may call is reached, and stands before it in an order.
pub fn reached_is_closed()
    ensures points { PointsAreReached }
    ensures errors { ErrorsAreReached }
    ensures order { CalleesComeFirst }
{}

/// A procedure has one need, of at least 1, and all that its points put on the stack is within it, whatever may be called there.
pub fn needs_are_exact()
    ensures one { OneNeed }
    ensures some { NeedsSome }
    ensures points { PointsFit }
    ensures bare { BarePointsFit }
    ensures depths { DepthsFit }
    ensures services { ServicesFit }
{}

/// A stack is enough for a task exactly from the need of its root on.
pub fn stacks_are_exact()
    ensures { StacksAreExact }
{}
