ghost use Rattle.std.specs.Prelude.{◌≡◌, IfOk};
ghost use Rattle.rt_tasks.specs.Start.{start_sharing};

use crate::memory::TaskMemory;
use crate::start::{data_words, marked_words};
use rt_image::Image;
use rt_words::Memory;
use std::alloc::Global;
use std::marker::Model;

/// What all tasks share: the code with its marks, and the data. It is lent to the task that runs, whose block and brick then stand
/// beside it.
#[derive(Drop)]
pub struct Shared {
    pub(crate) memory: TaskMemory,
}

impl Model for Shared {
    ghost use Rattle.rt_image.specs.Memory.{words_bytes};
    ghost use Rattle.rt_tasks.specs.Parts.{Sharing};
    ghost use Rattle.rt_tasks.specs.Words.{code_words, code_marks};

    ghost Value = { Sharing };

    ghost view = { λ s. record { code = code_words s.memory.code.items; marks = code_marks s.memory.code.items; bytes = words_bytes s.memory.data_words.items; own = words_bytes s.memory.own.words.items; places = s.memory.places } };
}

impl Shared {
    /// The code, the marks and the data of an image, while no task runs.
    pub fn open(alloc: Global, image: &Image) -> Result<Shared, Memory>
        ensures { IfOk result (λ s. s ≡ start_sharing image.now) }
    {
        let parts = image.parts();
        let code = marked_words(alloc, parts.code.as_slice(), parts.marks.as_slice())?;
        let words = data_words(alloc, parts.bytes.as_slice())?;
        let memory = TaskMemory::new(alloc, code, words);
        Ok(Shared { memory })
    }
}
