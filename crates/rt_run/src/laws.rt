// Laws of calls that run a machine.
ghost use Rattle.rt_run.specs.Laws.{BoundariesAreCounted, EndsStay, TwoCallsAreOne, ToldBytesAreRunOver};

/// A call of `go` and a further one are one call up to the limit of the second, over the bytes that the input gave in both.
pub fn two_calls_are_one()
    ensures { TwoCallsAreOne }
{}

/// Where the input tells its bytes, a call of `go` is the run over these, and what was taken is left out of what it tells then.
pub fn told_bytes_are_run_over()
    ensures { ToldBytesAreRunOver }
{}

/// A run that is at its end, by a fault too, is at the same end with each greater limit.
pub fn ends_stay()
    ensures { EndsStay }
{}

/// At each boundary of a run the rules have as many tasks as the image, and each tick of the list is taken or left.
pub fn boundaries_are_counted()
    ensures { BoundariesAreCounted }
{}
