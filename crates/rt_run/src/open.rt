// A machine at the start of an image.
ghost use Rattle.std.specs.Prelude.{◌≡◌, ◌≤◌, ◌<◌, ◌+◌, ◌++◌, ◌∷◌, [], ℕ, All, Some, length, map, slice_get, IfOk};
ghost use Rattle.rt_image.specs.Ranges.{HasImageRanges};
ghost use Rattle.rt_rules.specs.Roster.{InRanges};
ghost use Rattle.rt_rules.specs.Rules as rules;
ghost use Rattle.rt_run.specs.Boundaries.{priority_of};
ghost use Rattle.rt_run.specs.Picture.{HaveStarted};

use crate::supervisor::Supervisor;
use rt_image::Image;
use rt_tasks::Parked;
use rt_words::{ListBuilder, Memory};
use std::alloc::Global;

/// The supervisor of the tasks of an image.
pub fn open_supervisor(alloc: Global, image: &Image) -> Result<Supervisor, Memory>
    ensures start { IfOk result (λ s. s ≡ rules.start (map priority_of image.now.tasks)) }
    ensures ranges { IfOk result InRanges }
{
    let parts = image.parts();
    let priorities: Vec<u8> = parts
        .tasks
        .as_slice()
        .iter()
        .map(|task| task.priority)
        .collect(alloc)?;
    Supervisor::open(alloc, &priorities)
}

/// The tasks of an image, each in its place.
pub fn open_tasks(alloc: Global, image: &Image) -> Result<Vec<Option<Parked>>, Memory>
    ensures { IfOk result (λ v. HaveStarted image.now (length image.now.tasks) v.items) }
{
    let count = image.parts().tasks.len() as u8;
    let mut tasks = ListBuilder::new(alloc, usize::from(count))?;
    for n in 0..count {
        let task = Parked::open(alloc, image, n + 1)?;
        tasks.push(Some(task))?;
    }
    Ok(tasks.into_vec())
}
