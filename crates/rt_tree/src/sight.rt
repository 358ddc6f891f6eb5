//! What a statement sees, and the numbers that come next.

ghost use Rattle.std.specs.Prelude.{◌≡◌};
ghost use Rattle.rt_tree_nodes.specs.Code as seen;
ghost use Rattle.rt_tree.specs.Sights as sights;
ghost use Rattle.rt_tree.specs.Statements as statements;

use rt_tree_nodes::ValueMode;

/// The labels of a sequence: from `first` to before `end`.
#[derive(Clone, Copy)]
pub(crate) struct Labels {
    pub(crate) first: u32,
    pub(crate) end: u32,
}

/// The labels of the sequences that hold a statement, the innermost first.
#[derive(Clone, Copy)]
pub(crate) enum Seen<'a> {
    Nothing,
    Sequence(Labels, &'a Seen<'a>),
}

/// What a statement sees: labels, how many labels the body's outermost sequence has, and the mode of the procedure's
/// result, if it has one.
#[derive(Clone, Copy)]
pub(crate) struct Sight<'a> {
    pub(crate) seen: &'a Seen<'a>,
    pub(crate) outermost: u32,
    pub(crate) answer: Option<ValueMode<'a>>,
}

/// The numbers of the next label and of the next local.
#[derive(Clone, Copy)]
pub(crate) struct Next {
    pub(crate) label: u32,
    pub(crate) local: usize,
}

impl<'a> Seen<'a> {
    /// Whether label `l` is seen.
    pub(crate) fn sees(&self, l: u16) -> bool
        ensures { result ≡ statements.sees (sights.labels self.now) l }
    {
        match self {
            Seen::Nothing => false,
            Seen::Sequence(labels, outer) => {
                (labels.first <= u32::from(l) && u32::from(l) < labels.end) || outer.sees(l)
            }
        }
    }
}
