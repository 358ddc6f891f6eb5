//! Modes as they are lent while the nodes of a tree are judged.

ghost use Rattle.std.specs.Prelude.{◌≡◌, Some, option_map};
ghost use Rattle.std.specs.Option.{option_copied};
ghost use Rattle.rt_modes.specs.declared.mode.Mode.{out-Mode};
ghost use Rattle.rt_modes.specs.declared.mode.Mode.TheVariants as variant;
ghost use Rattle.rt_tree_nodes.specs.Code as seen;
ghost use Rattle.rt_tree_nodes.specs.Scopes.{same};
ghost use Rattle.rt_tree_nodes.specs.Typing.{references_compare, numbers_compare};
ghost use Rattle.rt_tree_nodes.specs.Typing as typing;

use crate::modes::same_mode;
use rt_modes::Mode;
use rt_words::Boxed;

/// A mode of the module, or one that no brick has.
#[derive(Clone, Copy)]
pub enum Lent<'a> {
    Of(&'a Mode),
    Byte,
    Int,
    Frac,
}

/// The mode of a value: one that is lent, REF one, or REF ARRAY one.
#[derive(Clone, Copy)]
pub enum ValueMode<'a> {
    Of(Lent<'a>),
    Reference(Lent<'a>),
    Row(Lent<'a>),
}

/// The modes of the parameters of a procedure, and that of its result, if it has one.
#[derive(Clone, Copy)]
pub struct Signature<'a> {
    pub parameters: &'a [Mode],
    pub answer: Option<ValueMode<'a>>,
}

/// What a place is.
#[derive(Clone, Copy)]
pub enum Found<'a> {
    /// A parameter or local.
    Variable(&'a Mode),
    /// One of a loop's own locals.
    Loop,
    /// An item, a field or an element that all tasks share, or where a REF leads.
    Shared(Lent<'a>),
    /// An item of SVC data, of which each task has its own, or a field or element of one.
    Private(&'a Mode),
    /// The array of elements of this mode to which a REF ARRAY leads.
    Row(Lent<'a>),
}

impl<'a> Lent<'a> {
    /// Whether this is the mode `wanted`.
    fn is(&self, wanted: &Mode) -> bool
        ensures { result ≡ same wanted.now (seen.lent self.now) }
    {
        match self {
            Lent::Of(mode) => same_mode(wanted, mode),
            Lent::Byte => matches!(wanted, Mode::Byte),
            Lent::Int => matches!(wanted, Mode::Int),
            Lent::Frac => matches!(wanted, Mode::Frac),
        }
    }

    /// Whether this is the mode `other`.
    fn same(&self, other: &Lent<'_>) -> bool
        ensures { result ≡ same (seen.lent self.now) (seen.lent other.now) }
    {
        match self {
            Lent::Of(mode) => other.is(mode),
            Lent::Byte => other.is_byte(),
            Lent::Int => other.is_int(),
            Lent::Frac => other.is_frac(),
        }
    }

    fn is_byte(&self) -> bool
        ensures { result ≡ typing.is_byte (seen.lent self.now) }
    {
        match self {
            Lent::Of(mode) => matches!(mode, Mode::Byte),
            Lent::Byte => true,
            _ => false,
        }
    }

    fn is_int(&self) -> bool
        ensures { result ≡ typing.is_int (seen.lent self.now) }
    {
        match self {
            Lent::Of(mode) => matches!(mode, Mode::Int),
            Lent::Int => true,
            _ => false,
        }
    }

    fn is_frac(&self) -> bool
        ensures { result ≡ typing.is_frac (seen.lent self.now) }
    {
        match self {
            Lent::Of(mode) => matches!(mode, Mode::Frac),
            Lent::Frac => true,
            _ => false,
        }
    }

    /// The mode of what is read or written at a place of this mode.
    pub fn value(&self) -> Option<ValueMode<'a>>
        ensures { seen.mode_found result ≡ typing.value_mode (seen.lent self.now) }
    {
        match self {
            Lent::Of(mode) => value_mode(mode),
            other => Some(ValueMode::Of(*other)),
        }
    }

    /// The mode of an element, where this is the mode of an array.
    pub fn element(&self) -> Option<&'a Mode>
        ensures { option_copied result ≡ typing.element_by (out-Mode (seen.lent self.now)) }
    {
        match self {
            Lent::Of(mode) => match mode {
                Mode::Array(_, element) => Some(element.get()),
                _ => None,
            },
            _ => None,
        }
    }
}

impl<'a> ValueMode<'a> {
    /// Whether this is the mode `wanted`.
    pub fn is(&self, wanted: &Mode) -> bool
        ensures { result ≡ same wanted.now (seen.value_mode self.now) }
    {
        match self {
            ValueMode::Of(mode) => mode.is(wanted),
            ValueMode::Reference(target) => target.is_target_of(wanted),
            ValueMode::Row(element) => element.is_element_of(wanted),
        }
    }

    pub fn is_byte(&self) -> bool
        ensures { result ≡ typing.is_byte (seen.value_mode self.now) }
    {
        match self {
            ValueMode::Of(mode) => mode.is_byte(),
            _ => false,
        }
    }

    pub fn is_int(&self) -> bool
        ensures { result ≡ typing.is_int (seen.value_mode self.now) }
    {
        match self {
            ValueMode::Of(mode) => mode.is_int(),
            _ => false,
        }
    }

    pub fn is_frac(&self) -> bool
        ensures { result ≡ typing.is_frac (seen.value_mode self.now) }
    {
        match self {
            ValueMode::Of(mode) => mode.is_frac(),
            _ => false,
        }
    }

    /// The modes of the parameters of a procedure, and that of its result.
    pub fn procedure(&self) -> Option<Signature<'a>>
        ensures { seen.signature result ≡ typing.signature_by (out-Mode (seen.value_mode self.now)) }
    {
        match self {
            ValueMode::Of(mode) => mode.procedure(),
            _ => None,
        }
    }

    /// Whether two values are numbers of one mode, both INT or both FRAC.
    pub fn compares(&self, other: &ValueMode<'a>) -> bool
        ensures { result ≡ numbers_compare (seen.value_mode self.now) (seen.value_mode other.now) }
    {
        (self.is_int() && other.is_int()) || (self.is_frac() && other.is_frac())
    }

    /// Whether two values are references of one mode.
    pub fn leads_as(&self, other: &ValueMode<'a>) -> bool
        ensures { result ≡ references_compare (seen.value_mode self.now) (seen.value_mode other.now) }
    {
        match self {
            ValueMode::Of(mode) => mode.leads_as(other),
            ValueMode::Reference(target) => other.is_reference_to(target),
            ValueMode::Row(element) => other.is_row_of(element),
        }
    }

    /// Whether this is the mode `other`.
    pub fn same(&self, other: &ValueMode<'_>) -> bool
        ensures { result ≡ same (seen.value_mode self.now) (seen.value_mode other.now) }
    {
        match self {
            ValueMode::Of(mode) => mode.same_value(other),
            ValueMode::Reference(target) => other.is_reference_to(target),
            ValueMode::Row(element) => other.is_row_of(element),
        }
    }

    fn is_reference_to(&self, target: &Lent<'_>) -> bool
        ensures { result ≡ same (variant.Ref (seen.lent target.now)) (seen.value_mode self.now) }
    {
        match self {
            ValueMode::Of(mode) => mode.is_reference_to(target),
            ValueMode::Reference(mode) => target.same(mode),
            ValueMode::Row(_) => false,
        }
    }

    fn is_row_of(&self, element: &Lent<'_>) -> bool
        ensures { result ≡ same (variant.RefArray (seen.lent element.now)) (seen.value_mode self.now) }
    {
        match self {
            ValueMode::Of(mode) => mode.is_row_of(element),
            ValueMode::Reference(_) => false,
            ValueMode::Row(mode) => element.same(mode),
        }
    }

    /// What the place is to which a reference of this mode leads.
    pub fn leads(&self) -> Option<Found<'a>>
        ensures { seen.place_found result ≡ typing.led (seen.value_mode self.now) }
    {
        match self {
            ValueMode::Of(mode) => mode.leads(),
            ValueMode::Reference(target) => Some(Found::Shared(*target)),
            ValueMode::Row(element) => Some(Found::Row(*element)),
        }
    }
}

impl<'a> Lent<'a> {
    /// Whether a mode is REF this one.
    fn is_target_of(&self, mode: &Mode) -> bool
        ensures { result ≡ same mode.now (variant.Ref (seen.lent self.now)) }
    {
        match mode {
            Mode::Ref(target) => self.is(target.get()),
            _ => false,
        }
    }

    /// Whether a mode is REF ARRAY this one.
    fn is_element_of(&self, mode: &Mode) -> bool
        ensures { result ≡ same mode.now (variant.RefArray (seen.lent self.now)) }
    {
        match mode {
            Mode::RefArray(element) => self.is(element.get()),
            _ => false,
        }
    }

    fn is_reference_to(&self, target: &Lent<'_>) -> bool
        ensures { result ≡ same (variant.Ref (seen.lent target.now)) (seen.lent self.now) }
    {
        match self {
            Lent::Of(mode) => leads_to(mode, target),
            _ => false,
        }
    }

    fn is_row_of(&self, element: &Lent<'_>) -> bool
        ensures { result ≡ same (variant.RefArray (seen.lent element.now)) (seen.lent self.now) }
    {
        match self {
            Lent::Of(mode) => leads_to_row(mode, element),
            _ => false,
        }
    }

    fn same_value(&self, other: &ValueMode<'_>) -> bool
        ensures { result ≡ same (seen.lent self.now) (seen.value_mode other.now) }
    {
        match self {
            Lent::Of(mode) => other.is(mode),
            Lent::Byte => other.is_byte(),
            Lent::Int => other.is_int(),
            Lent::Frac => other.is_frac(),
        }
    }

    fn leads_as(&self, other: &ValueMode<'a>) -> bool
        ensures { result ≡ references_compare (seen.lent self.now) (seen.value_mode other.now) }
    {
        match self {
            Lent::Of(mode) => is_reference(mode) && other.is(mode),
            _ => false,
        }
    }

    pub fn procedure(&self) -> Option<Signature<'a>>
        ensures { seen.signature result ≡ typing.signature_by (out-Mode (seen.lent self.now)) }
    {
        match self {
            Lent::Of(mode) => match mode {
                Mode::Proc(parameters, answer) => Some(Signature {
                    parameters: parameters.as_slice(),
                    answer: answer_of(answer),
                }),
                _ => None,
            },
            _ => None,
        }
    }

    fn leads(&self) -> Option<Found<'a>>
        ensures { seen.place_found result ≡ typing.led (seen.lent self.now) }
    {
        match self {
            Lent::Of(mode) => match mode {
                Mode::Ref(target) => Some(Found::Shared(Lent::Of(target.get()))),
                Mode::RefArray(element) => Some(Found::Row(Lent::Of(element.get()))),
                _ => None,
            },
            _ => None,
        }
    }
}

/// The mode of what is read or written at a place of a mode.
pub fn value_mode(mode: &Mode) -> Option<ValueMode<'_>>
    ensures { seen.mode_found result ≡ typing.value_mode mode.now }
{
    match mode {
        Mode::Record(_) | Mode::Array(_, _) | Mode::Label => None,
        Mode::Ref(target) => Some(ValueMode::Reference(Lent::Of(target.get()))),
        Mode::RefArray(element) => Some(ValueMode::Row(Lent::Of(element.get()))),
        _ => Some(ValueMode::Of(Lent::Of(mode))),
    }
}

fn leads_to(mode: &Mode, target: &Lent<'_>) -> bool
    ensures { result ≡ same (variant.Ref (seen.lent target.now)) mode.now }
{
    match mode {
        Mode::Ref(to) => target.same(&Lent::Of(to.get())),
        _ => false,
    }
}

fn leads_to_row(mode: &Mode, element: &Lent<'_>) -> bool
    ensures { result ≡ same (variant.RefArray (seen.lent element.now)) mode.now }
{
    match mode {
        Mode::RefArray(of) => element.same(&Lent::Of(of.get())),
        _ => false,
    }
}

fn is_reference(mode: &Mode) -> bool
    ensures { result ≡ typing.is_reference (out-Mode mode.now) }
{
    matches!(mode, Mode::Ref(_) | Mode::RefArray(_))
}

fn answer_of(answer: &Option<Boxed<Mode>>) -> Option<ValueMode<'_>>
    ensures { seen.mode_found result ≡ answer.now }
{
    match answer {
        None => None,
        Some(mode) => Some(ValueMode::Of(Lent::Of(mode.get()))),
    }
}
