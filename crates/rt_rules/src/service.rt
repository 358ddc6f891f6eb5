/// A service that the running task asks for. A number is the 16-bit argument as it was passed.
#[derive(Debug, Clone, Copy, PartialEq, Eq)]
pub enum Svc {
    /// Waits so many ticks; a number below 1, as a signed one, lets others of the priority go first.
    Delay(u16),
    /// Clears the flag of an event that is set, else waits for the event.
    Wait(u16),
    /// Wakes the first waiter of an event, else sets its flag.
    Signal(u16),
    /// Takes a free facility, else waits for it.
    Secure(u16),
    /// Hands a facility to its first waiter, else frees it.
    Release(u16),
    /// Asks how many ticks were taken.
    Clock,
    /// Asks for the task's own number.
    TaskNo,
    /// Ends the task with an error.
    Gel(u16),
    /// Ends the task.
    End,
}

/// What a service comes to.
#[derive(Clone, Copy)]
pub enum Outcome {
    /// The task goes on, with the answer of [`Svc::Clock`] or [`Svc::TaskNo`], and with 0 after any other service.
    Go(u16),
    /// The task waits.
    Waits,
    /// Nothing was done: 4 where the task secures a facility that it owns, or releases one that it doesn't own, 5
    /// where an event or facility has no number from 1 to 32.
    Error(u16),
    /// The task has ended.
    Ends,
}
