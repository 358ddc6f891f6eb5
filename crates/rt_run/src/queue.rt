ghost use Rattle.std.specs.Prelude.{◌≡◌, ◌<◌, ◌≤◌, [], ◌∷◌, ◌++◌, length, drop};

use std::marker::Model;

// The numbers of up to 32 tasks in a row. Contracts see it as their list.
#[derive(Drop)]
pub struct Queue {
    tasks: [u8; 32],
    count: u8,
}

impl Model for Queue {
    ghost use Rattle.std.specs.Prelude.{ℕ, ◌≤◌, List, take};

    ghost Value = { List ℕ };

    ghost view = { λ q. take q.count q.tasks };

    ghost invariant = { λ q. q.count ≤ 32 };
}

impl Queue {
    pub fn new() -> Queue
        ensures { result ≡ [] }
    {
        Queue {
            tasks: [0; 32],
            count: 0,
        }
    }

    // Lends the numbers, in their order.
    pub fn tasks(&self) -> &[u8]
        ensures tasks { result.now ≡ self.now }
        ensures few { length self.now ≤ 32 }
    {
        &self.tasks[..usize::from(self.count)]
    }

    // Puts a task at the end.
    pub fn push(&mut self, task: u8)
        requires { length self.old < 32 }
        ensures { self.new ≡ self.old ++ task ∷ [] }
    {
        self.tasks[usize::from(self.count)] = task;
        self.count += 1;
    }

    // Takes the task at the head away; the others move up.
    pub fn pop(&mut self)
        requires { 0 < length self.old }
        ensures { self.new ≡ drop 1 self.old }
    {
        self.tasks.copy_within(1..usize::from(self.count), 0);
        self.count -= 1;
    }
}
