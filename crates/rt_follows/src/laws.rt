//! The laws.
ghost use Rattle.rt_follows.specs.Laws as laws;

/// Each task of a linked image follows its task of the source, for any number of instructions.
pub fn tasks_follow()
    ensures { laws.TasksFollow }
{}

/// A call from compiled code goes through: with arguments, which the procedure may change, and with a result.
pub fn calls_go_through()
    ensures { laws.CallsGoThrough }
{}

/// So does one whose argument is a number that is pushed first.
pub fn numbers_are_passed()
    ensures { laws.NumbersArePassed }
{}

/// A procedure that assigns to its parameter runs, from its entry to its return.
pub fn parameters_may_change()
    ensures { laws.ParametersMayChange }
{}
