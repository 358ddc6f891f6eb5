//! The visible steps of a task.

/// A kind of visible step. An error is one that ends the task, with its number.
#[derive(Clone, Copy)]
pub enum Step {
    Read,
    Write,
    Call,
    Return,
    Service,
    Jump,
    Error(u16),
}
