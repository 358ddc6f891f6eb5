ghost use Rattle.std.specs.Prelude.{◌≡◌, ◌<◌, ◌≤◌, [], ◌∷◌, ◌++◌, length, drop, replicate, slice_set, IfOk, MatchOption};
ghost use Rattle.rt_run.specs.Queues.{queue_of, IsHead, AreEmpty};

use crate::marks::Marks;
use crate::queue::Queue;
use rt_words::Memory;
use std::alloc::Global;
use std::marker::Model;

// A queue of task numbers for each priority from 0 to 255. Contracts see it as the list of the queues.
#[derive(Drop)]
pub struct Queues {
    queues: Vec<Queue>,
    taken: Marks,
}

impl Model for Queues {
    ghost use Rattle.std.specs.Prelude.{ℕ, List};
    ghost use Rattle.rt_run.specs.Queues.{AreMarked};

    ghost Value = { List (List ℕ) };

    ghost view = { λ q. q.queues.items };

    ghost invariant = { λ q. AreMarked q.taken.words q.queues.items };
}

impl Queues {
    // Empty queues.
    pub fn new(alloc: Global) -> Result<Queues, Memory>
        ensures { IfOk result (λ qs. qs ≡ replicate 256 []) }
    {
        let mut queues = Vec::with_capacity(alloc, 256)?;
        while queues.len() < 256 {
            if queues.push(Queue::new()).is_err() {
                return Err(Memory);
            }
        }
        Ok(Queues {
            queues,
            taken: Marks::new(),
        })
    }

    // Lends the tasks of a priority, in the order of their queue.
    pub fn tasks(&self, priority: u8) -> &[u8]
        ensures { result.now ≡ queue_of self.now priority }
    {
        self.queues[usize::from(priority)].tasks()
    }

    // The head of the first queue that isn't empty.
    pub fn head(&self) -> Option<u8>
        ensures { MatchOption result (AreEmpty self.now) (IsHead self.now) }
    {
        match self.taken.least() {
            Some(priority) => Some(self.tasks(priority)[0]),
            None => None,
        }
    }

    // Puts a task at the end of a priority's queue.
    pub fn push(&mut self, priority: u8, task: u8)
        requires { length (queue_of self.old priority) < 32 }
        ensures { self.new ≡ slice_set self.old priority (queue_of self.old priority ++ task ∷ []) }
    {
        let queue = &mut self.queues[usize::from(priority)];
        queue.push(task);
        self.taken.set(priority);
    }

    // Takes the task at the head of a priority's queue away.
    pub fn pop(&mut self, priority: u8)
        requires { 0 < length (queue_of self.old priority) }
        ensures { self.new ≡ slice_set self.old priority (drop 1 (queue_of self.old priority)) }
    {
        let queue = &mut self.queues[usize::from(priority)];
        queue.pop();
        if queue.tasks().is_empty() {
            self.taken.clear(priority);
        }
    }
}
