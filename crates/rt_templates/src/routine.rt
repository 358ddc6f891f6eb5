//! The routines of the support code.
ghost use Rattle.std.specs.Prelude.{◌≡◌};
ghost use Rattle.rt_templates.specs.Layouts.{routine_number};

/// A routine of the support code.
#[derive(Clone, Copy)]
pub enum Routine {
    Rrin,
    Rrout,
    Delay,
    Wait,
    Signal,
    Secure,
    Release,
    Clock,
    TaskNo,
    Rrgel,
    /// A subscript isn't one of its array's.
    SubscriptError,
    /// The end of a procedure.
    Exit,
    /// `:/`.
    Quotient,
    /// MOD.
    Remainder,
    /// How many turns a FOR makes.
    Turns,
    /// More activations than a bound allows.
    BoundError,
    /// The end of a procedure with a bound.
    BoundedExit,
}

impl Routine {
    /// Its number; the supplied procedures have those of their TRAPs.
    pub fn number(self) -> u16
        ensures { result ≡ routine_number self }
    {
        match self {
            Routine::Rrin => 1,
            Routine::Rrout => 2,
            Routine::Delay => 3,
            Routine::Wait => 4,
            Routine::Signal => 5,
            Routine::Secure => 6,
            Routine::Release => 7,
            Routine::Clock => 8,
            Routine::TaskNo => 9,
            Routine::Rrgel => 10,
            Routine::SubscriptError => 11,
            Routine::Exit => 12,
            Routine::Quotient => 13,
            Routine::Remainder => 14,
            Routine::Turns => 15,
            Routine::BoundError => 16,
            Routine::BoundedExit => 17,
        }
    }
}
