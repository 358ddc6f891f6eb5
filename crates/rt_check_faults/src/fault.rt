//! What can be wrong with an expression, and with the module that holds it.

ghost use Rattle.std.specs.Prelude.{◌≡◌, List};
ghost use Rattle.rt_check_faults.specs.Outcomes as spec;
ghost use Rattle.rt_check_faults.specs.Outcomes.{Outcome, Gives};

use rt_grammar::At;
use rt_words::{List, Memory};
use thiserror::Error;

/// The first fault of an expression or of a module: where it stands, and what it is. Expressions have the faults 20 to 25
/// alone, and those of the declarations that they name.
#[derive(Clone, Copy, Debug, Drop, Error)]
pub enum CheckFault {
    #[error("out of memory")]
    Memory,
    /// A name, or a field's name, that nothing declares.
    #[error("line {}: unknown name", .0.line)]
    UnknownName(At),
    /// An operand or a link that doesn't fit.
    #[error("line {}: wrong mode", .0.line)]
    WrongMode(At),
    /// A place that can't be assigned: a FOR variable, a brick, a record or an array.
    #[error("line {}: not assignable", .0.line)]
    NotAssignable(At),
    /// A call with too few or too many arguments.
    #[error("line {}: wrong number of arguments", .0.line)]
    WrongCount(At),
    /// A reference to a place in a local, a parameter or SVC data.
    #[error("line {}: reference of a local", .0.line)]
    RefOfLocal(At),
    /// A part of the language that is left out, by the number of its form.
    #[error("line {}: left out, form {form}", at.line)]
    LeftOut { form: u8, at: At },
    /// The second name of one scope, or a record that contains itself.
    #[error("line {}: declared twice", .0.line)]
    DeclaredTwice(At),
    /// A start that is wrong or missing, a length out of range, or too large a record or data brick.
    #[error("line {}: bad start", .0.line)]
    BadStart(At),
    /// A name in GOTO or SWITCH that is no label there.
    #[error("line {}: unknown label", .0.line)]
    UnknownLabel(At),
    /// A result that is missing: at ENDPROC, or at RETURN.
    #[error("line {}: no result", .0.line)]
    NoResult(At),
    /// What can't be known, since a declaration is unfit. It is no fault of its own: each fault goes before it.
    #[error("not known")]
    Unknown,
}

impl From<Memory> for CheckFault {
    ghost use Rattle.std.specs.Prelude.{◌≡◌};
    ghost use Rattle.rt_check_faults.specs.declared.fault.CheckFault.TheVariants as fault;

    ghost from_gives = { λ _ e. e ≡ fault.Memory };

    fn from(_error: Memory) -> CheckFault {
        CheckFault::Memory
    }
}

impl CheckFault {
    /// The number of the fault, 20 to 29; 0 for want of memory, and for what can't be known.
    pub fn number(self) -> u8
        ensures { result ≡ spec.number_of self }
    {
        match self {
            CheckFault::Memory | CheckFault::Unknown => 0,
            CheckFault::UnknownName(_) => 20,
            CheckFault::WrongMode(_) => 21,
            CheckFault::NotAssignable(_) => 22,
            CheckFault::WrongCount(_) => 23,
            CheckFault::RefOfLocal(_) => 24,
            CheckFault::LeftOut { .. } => 25,
            CheckFault::DeclaredTwice(_) => 26,
            CheckFault::BadStart(_) => 27,
            CheckFault::UnknownLabel(_) => 28,
            CheckFault::NoResult(_) => 29,
        }
    }

    /// Where the fault stands; `None` for want of memory, and for what can't be known.
    pub fn at(self) -> Option<At>
        ensures { result ≡ spec.at_of self }
    {
        match self {
            CheckFault::Memory | CheckFault::Unknown => None,
            CheckFault::UnknownName(at)
            | CheckFault::WrongMode(at)
            | CheckFault::NotAssignable(at)
            | CheckFault::WrongCount(at)
            | CheckFault::RefOfLocal(at)
            | CheckFault::LeftOut { at, .. }
            | CheckFault::DeclaredTwice(at)
            | CheckFault::BadStart(at)
            | CheckFault::UnknownLabel(at)
            | CheckFault::NoResult(at) => Some(at),
        }
    }

    /// The number of the item where the fault stands; 0 for want of memory, and for what can't be known.
    pub fn item(self) -> u16
        ensures { result ≡ spec.item_of self }
    {
        match self.at() {
            Some(at) => at.item,
            None => 0,
        }
    }

    /// Whether it is what can't be known.
    pub fn is_unknown(self) -> bool
        ensures { result ≡ spec.is_unknown self }
    {
        match self {
            CheckFault::Unknown => true,
            _ => false,
        }
    }

    fn stands_before(self, other: CheckFault) -> bool
        ensures { result ≡ spec.stands_before self other }
    {
        self.item() < other.item()
            || (self.item() == other.item() && self.number() <= other.number())
    }

    fn is_before(self, other: CheckFault) -> bool
        ensures { result ≡ spec.is_before self other }
    {
        other.is_unknown() || (!self.is_unknown() && self.stands_before(other))
    }

    /// The one of two faults that counts: the one at the earlier item, and at one item that of the
    /// lesser number. Want of memory goes before every fault, and what can't be known behind every fault.
    pub fn sooner(self, other: CheckFault) -> CheckFault
        ensures { result ≡ spec.sooner self other }
    {
        if self.is_before(other) { self } else { other }
    }
}

/// Two values that are judged apart, or the fault that counts.
pub fn both<T: Drop, U: Drop>(
    left: Result<T, CheckFault>,
    right: Result<U, CheckFault>,
) -> Result<(T, U), CheckFault>
    ensures joined { result ≡ spec.both left right }
    ensures gives { (l : Outcome T) → (r : Outcome U) → Gives (λ v. v) left l → Gives (λ v. v) right r → Gives (λ x. x) result (spec.both l r) }
{
    match left {
        Ok(x) => match right {
            Ok(y) => Ok((x, y)),
            Err(fault) => Err(fault),
        },
        Err(fault) => Err(earlier(fault, right)),
    }
}

/// The fault that counts of a fault and what is judged apart from it.
fn earlier<T: Drop>(fault: CheckFault, next: Result<T, CheckFault>) -> CheckFault
    ensures { result ≡ spec.earlier fault next }
{
    match next {
        Ok(_) => fault,
        Err(other) => fault.sooner(other),
    }
}

/// One more, judged apart from those before it, or the fault that counts.
pub fn after<T: Drop>(
    so_far: Result<List<T>, CheckFault>,
    next: Result<T, CheckFault>,
) -> Result<List<T>, CheckFault>
    ensures joined { Gives (λ x. x) result (spec.after so_far next) }
    ensures gives { (xs : Outcome (List T)) → (x : Outcome T) → Gives (λ x. x) so_far xs → Gives (λ x. x) next x → Gives (λ x. x) result (spec.after xs x) }
{
    match so_far {
        Ok(mut found) => match next {
            Ok(x) => {
                found.push(x)?;
                Ok(found)
            }
            Err(fault) => Err(fault),
        },
        Err(fault) => Err(earlier(fault, next)),
    }
}

/// A value, and whether it is known: where it can't be known, another stands for it.
pub fn or_other<T: Drop>(
    value: Result<T, CheckFault>,
    other: T,
    known: bool,
) -> Result<(T, bool), CheckFault>
    ensures joined { result ≡ spec.or_other other known value }
    ensures gives { (t : Outcome T) → Gives (λ x. x) value t → Gives (λ x. x) result (spec.or_other other known t) }
{
    match value {
        Ok(value) => Ok((value, known)),
        Err(CheckFault::Unknown) => Ok((other, false)),
        Err(fault) => Err(fault),
    }
}
