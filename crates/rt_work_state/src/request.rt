//! What a visible step asks of the supervisor and of the console.

use rt_rules::Svc;

/// What a step asks for.
#[derive(Clone, Copy)]
pub enum Request {
    /// The step is no service.
    Nothing,
    /// The next byte of the console.
    Takes,
    /// A byte for the console.
    Puts(u8),
    /// A service of the supervisor.
    Rules(Svc),
}
