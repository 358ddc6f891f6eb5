//! One variant for each supplied brick.

ghost use Rattle.std.specs.Prelude.{◌≡◌, ◌≤◌, ◌↔◌, IsTrue};
ghost use Rattle.rt_modes.specs.Bricks as bricks;

/// A supplied brick.
#[derive(Clone, Copy, Debug)]
pub enum Supplied {
    /// The next byte of the console.
    Rrin,
    /// Puts a byte on the console.
    Rrout,
    /// Waits for some ticks.
    Delay,
    /// Waits for an event.
    Wait,
    /// Signals an event.
    Signal,
    /// Takes a facility.
    Secure,
    /// Gives a facility back.
    Release,
    /// The ticks taken so far.
    Clock,
    /// The number of the task.
    Taskno,
    /// Ends the task with an error.
    Rrgel,
    /// A task's own data for errors.
    Rrerr,
    /// A task's own streams.
    Rrsio,
}

/// Each supplied brick once, in the order of the numbers.
pub const SUPPLIED: [Supplied; 12] = [
    Supplied::Rrin,
    Supplied::Rrout,
    Supplied::Delay,
    Supplied::Wait,
    Supplied::Signal,
    Supplied::Secure,
    Supplied::Release,
    Supplied::Clock,
    Supplied::Taskno,
    Supplied::Rrgel,
    Supplied::Rrerr,
    Supplied::Rrsio,
];

impl Supplied {
    /// The number: of a procedure that of its trap, 1 to 10, and behind them those of the data bricks, 11 and 12.
    pub fn number(self) -> u8
        ensures { result ≡ bricks.number_of self }
    {
        match self {
            Supplied::Rrin => 1,
            Supplied::Rrout => 2,
            Supplied::Delay => 3,
            Supplied::Wait => 4,
            Supplied::Signal => 5,
            Supplied::Secure => 6,
            Supplied::Release => 7,
            Supplied::Clock => 8,
            Supplied::Taskno => 9,
            Supplied::Rrgel => 10,
            Supplied::Rrerr => 11,
            Supplied::Rrsio => 12,
        }
    }

    /// The name, in upper case.
    pub fn name(self) -> &'static str
        ensures { result.now ≡ bricks.name_of self }
    {
        match self {
            Supplied::Rrin => "RRIN",
            Supplied::Rrout => "RROUT",
            Supplied::Delay => "DELAY",
            Supplied::Wait => "WAIT",
            Supplied::Signal => "SIGNAL",
            Supplied::Secure => "SECURE",
            Supplied::Release => "RELEASE",
            Supplied::Clock => "CLOCK",
            Supplied::Taskno => "TASKNO",
            Supplied::Rrgel => "RRGEL",
            Supplied::Rrerr => "RRERR",
            Supplied::Rrsio => "RRSIO",
        }
    }

    /// The full mode, as a text.
    pub fn text(self) -> &'static str
        ensures { result.now ≡ bricks.text_of self }
    {
        match self {
            Supplied::Rrin => "PROC() BYTE",
            Supplied::Rrout => "PROC(BYTE)",
            Supplied::Delay
            | Supplied::Wait
            | Supplied::Signal
            | Supplied::Secure
            | Supplied::Release
            | Supplied::Rrgel => "PROC(INT)",
            Supplied::Clock | Supplied::Taskno => "PROC() INT",
            Supplied::Rrerr => "DATA(LABEL ERL,INT ERN,PROC(INT) ERP)",
            Supplied::Rrsio => "DATA(PROC() BYTE IN,PROC(BYTE) OUT)",
        }
    }

    /// Whether the brick is a procedure; the others are data bricks.
    pub fn is_procedure(self) -> bool
        ensures { IsTrue result ↔ (bricks.number_of self ≤ 10) }
    {
        self.number() <= 10
    }

    /// The brick of this name, where one is supplied.
    pub fn named(name: &[u8]) -> Option<Supplied>
        ensures { result ≡ bricks.supplied_by name.now }
    {
        SUPPLIED
            .iter()
            .copied()
            .find(|brick| brick.name().as_bytes() == name)
    }
}
