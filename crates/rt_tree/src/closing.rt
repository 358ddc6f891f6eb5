//! Which bodies are closed: control never comes to their end.

ghost use Rattle.std.specs.Prelude.{◌≡◌, map};
ghost use Rattle.rt_tree.specs.Statements as statements;

use rt_tree_nodes::{Body, Branch, Labelled, Stat};

/// Whether a body is closed: control never comes to its end.
#[cycle(closing)]
pub fn is_closed(body: &Body) -> bool
    ensures { result ≡ statements.closed body.now }
{
    sequence_closes(body.statements.as_slice())
}

#[cycle(closing)]
fn sequence_closes(lines: &[Labelled]) -> bool
    ensures { result ≡ statements.closed_sequence (map statements.labelled_closed lines.now) }
{
    let mut closed = false;
    for line in lines {
        match &line.stat {
            Some(stat) => closed = closes(stat),
            None => closed = closed && line.labels.len() == 0,
        }
    }
    closed
}

/// Whether control never comes to the end of a statement.
#[cycle(closing)]
fn closes(stat: &Stat) -> bool
    ensures { result ≡ statements.stat_closed stat.now }
{
    match stat {
        Stat::Return(_) | Stat::Goto(_) => true,
        Stat::Block(body) => is_closed(body),
        Stat::If(branches, otherwise) => match otherwise {
            None => false,
            Some(lines) => branches_close(branches.as_slice()) && sequence_closes(lines.as_slice()),
        },
        _ => false,
    }
}

#[cycle(closing)]
fn branches_close(branches: &[Branch]) -> bool
    ensures { result ≡ statements.all_closed (map statements.branch_closed branches.now) }
{
    for branch in branches {
        if !sequence_closes(branch.taken.as_slice()) {
            return false;
        }
    }
    true
}
