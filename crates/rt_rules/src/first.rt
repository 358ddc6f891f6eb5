// The search for the first of some tasks.
ghost use Rattle.std.specs.Prelude.{◌≡◌, ◌≤◌, ◌+◌, length};
ghost use Rattle.rt_rules.specs.Rules as spec;
ghost use Rattle.rt_rules.specs.Code.{kind_of};

use crate::task::{State, TaskRow};

// What tasks are looked for.
#[derive(Clone, Copy)]
pub enum Sought {
    Ready,
    Event(u8),
    Facility(u8),
}

fn suits(sought: Sought, state: State) -> bool
    ensures { result ≡ kind_of sought state }
{
    match (sought, state) {
        (Sought::Ready, State::Ready) => true,
        (Sought::Event(n), State::Event(m)) | (Sought::Facility(n), State::Facility(m)) => m == n,
        _ => false,
    }
}

fn is_before(task: TaskRow, other: TaskRow) -> bool
    ensures { result ≡ spec.is_before task other }
{
    task.priority < other.priority || (task.priority == other.priority && task.stamp < other.stamp)
}

// The first of the tasks sought, where the rows are those of task `number` and the next ones.
pub fn first_from(sought: Sought, rows: &[TaskRow], number: u8) -> Option<(u8, TaskRow)>
    requires { number + length rows.now ≤ 33 }
    ensures { result ≡ spec.first_from (kind_of sought) number rows.now }
{
    match rows {
        [] => None,
        [row, rest @ ..] => {
            let best = first_from(sought, rest, number + 1);
            if suits(sought, row.state) {
                better(number, *row, best)
            } else {
                best
            }
        }
    }
}

fn better(number: u8, row: TaskRow, best: Option<(u8, TaskRow)>) -> Option<(u8, TaskRow)>
    ensures { result ≡ spec.better number row best }
{
    match best {
        Some((_, other)) if !is_before(row, other) => best,
        _ => Some((number, row)),
    }
}
