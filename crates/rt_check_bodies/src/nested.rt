//! Statements that hold statements, by what is made of these where memory doesn't run out.

ghost use Rattle.std.specs.Prelude.{◌≡◌, Some, IfOk, OnOk, IsOk};
ghost use Rattle.rt_tree_nodes.specs.declared.statement.Stat.TheVariants as stats;
ghost use Rattle.rt_check_bodies.specs.declared.tally.Tally.{Tally};
ghost use Rattle.rt_check_bodies.specs.Parts.{Gave};
ghost use Rattle.rt_exprs.specs.Sights.{outside};
ghost use Rattle.rt_check_bodies.specs.Statements as spec;

use crate::Names;
use crate::pairs::both;
use crate::plain::Bounds;
use rt_tree_nodes::{Branch, Labelled, Stat, Test, Value};
use rt_words::{List, Memory};

/// IF with what stands behind ELSE.
pub fn if_else(
    tests: List<Branch>,
    otherwise: Result<List<Labelled>, Memory>,
) -> Result<Stat, Memory>
    ensures made { (t : Tally) (p : spec.Lines) → IfOk otherwise (λ xs. Gave xs t p) → IfOk result (λ x. Gave x t (stats.If tests (Some p.0), p.1)) }
    ensures only { OnOk result (IsOk otherwise) }
{
    let (tests, otherwise) = both(tests, otherwise)?;
    Ok(Stat::If(tests, Some(otherwise)))
}

/// TO, by the number of turns and the first of the locals of the loop.
pub fn to_loop(head: (Value, u16), repeated: Result<List<Labelled>, Memory>) -> Result<Stat, Memory>
    ensures made { (t : Tally) (p : spec.Lines) → IfOk repeated (λ xs. Gave xs t p) → IfOk result (λ x. Gave x t (stats.To head.1 head.0 p.0, p.1)) }
    ensures only { OnOk result (IsOk repeated) }
{
    let (head, repeated) = both(head, repeated)?;
    let (count, first) = head;
    Ok(Stat::To(first, count, repeated))
}

/// FOR, by its bounds and the first of the locals of the loop, whose level is closed.
pub fn for_loop(
    names: &mut Names<'_>,
    head: (Bounds, u16),
    repeated: Result<List<Labelled>, Memory>,
) -> Result<Stat, Memory>
    ensures made { (t : Tally) (p : spec.Lines) → IfOk repeated (λ xs. Gave xs t p) → IfOk result (λ x. Gave x t (spec.for_stat head.1 head.0 p.0, p.1)) }
    ensures only { OnOk result (IsOk repeated) }
    ensures left { OnOk result (names.new ≡ outside names.old) }
{
    let (head, repeated) = both(head, repeated)?;
    names.leave();
    Ok(for_stat(head, repeated))
}

fn for_stat(head: (Bounds, u16), repeated: List<Labelled>) -> Stat
    ensures { result ≡ spec.for_stat head.1 head.0 repeated }
{
    let (bounds, first) = head;
    let Bounds { start, step, end } = bounds;
    Stat::For(first, start, step, end, repeated)
}

/// WHILE.
pub fn while_loop(test: Test, repeated: Result<List<Labelled>, Memory>) -> Result<Stat, Memory>
    ensures made { (t : Tally) (p : spec.Lines) → IfOk repeated (λ xs. Gave xs t p) → IfOk result (λ x. Gave x t (stats.While test p.0, p.1)) }
    ensures only { OnOk result (IsOk repeated) }
{
    let (test, repeated) = both(test, repeated)?;
    Ok(Stat::While(test, repeated))
}
