/// The condition of a task.
#[derive(Debug, Clone, Copy)]
pub enum State {
    /// It may run.
    Ready,
    /// It waits for so many more ticks.
    Delayed(u16),
    /// It waits for the event of this number, 1 to 32.
    Event(u8),
    /// It waits for the facility of this number, 1 to 32.
    Facility(u8),
    /// It has ended.
    Ended,
    /// It has ended with this error.
    Failed(u16),
}

/// A task: its condition, its priority, and the stamp that it took when it last arrived or began to wait.
#[derive(Clone, Copy)]
pub struct TaskRow {
    pub state: State,
    pub priority: u8,
    pub stamp: u64,
}
