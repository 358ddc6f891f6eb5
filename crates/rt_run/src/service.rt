// The requests of TRAPs, and what their task gets.
ghost use Rattle.std.specs.Prelude.{◌≡◌};
ghost use Rattle.rt_run.specs.Services.{service, answer_to, answered};

use rt_rules::{Outcome, Svc};
use rt_tasks::Running;

/// What an instruction asks for.
#[derive(Clone, Copy)]
pub enum Request {
    Nothing,
    /// The next byte of the console.
    Reads,
    /// A byte on the console.
    Puts(u8),
    /// A service of the supervisor.
    Calls(Svc),
}

/// What a task gets of a service.
#[derive(Clone, Copy)]
pub enum Answer {
    /// Nothing.
    Silence,
    /// A number, in R0.
    Value(u16),
    /// An error number, or 0, in R1.
    Number(u16),
}

/// The service of a TRAP with a number from 3 to 11 and an argument.
pub fn service_of(number: u8, argument: u16) -> Svc
    ensures { result ≡ service number argument }
{
    match number {
        3 => Svc::Delay(argument),
        4 => Svc::Wait(argument),
        5 => Svc::Signal(argument),
        6 => Svc::Secure(argument),
        7 => Svc::Release(argument),
        8 => Svc::Clock,
        9 => Svc::TaskNo,
        10 => Svc::Gel(argument),
        _ => Svc::End,
    }
}

/// The answer of a service with this outcome.
pub fn answer_of(svc: Svc, outcome: Outcome) -> Answer
    ensures { result ≡ answer_to svc outcome }
{
    match svc {
        Svc::Wait(_) | Svc::Signal(_) | Svc::Secure(_) | Svc::Release(_) => match outcome {
            Outcome::Error(number) => Answer::Number(number),
            _ => Answer::Number(0),
        },
        Svc::Clock | Svc::TaskNo => match outcome {
            Outcome::Go(number) => Answer::Value(number),
            _ => Answer::Value(0),
        },
        Svc::Delay(_) | Svc::Gel(_) | Svc::End => Answer::Silence,
    }
}

/// Gives the running task an answer.
pub fn give(running: &mut Running, answer: Answer)
    ensures regs { running.new.regs ≡ answered running.old.regs answer }
    ensures shared { running.new.shared.now ≡ running.old.shared.now }
    ensures same_reference { running.new.shared.ghost_name ≡ running.old.shared.ghost_name }
{
    match answer {
        Answer::Silence => {}
        Answer::Value(number) => running.answer(number),
        Answer::Number(number) => running.set_error(number),
    }
}
