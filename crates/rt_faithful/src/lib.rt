//! A linked image is faithful to its modules: at each boundary of each run of the machine, for every list of ticks, every input and every
//! number of instructions, the run of the modules' meaning is the same (`specs/Faithful.antt`), where the linker has established what it
//! has to (`specs/Imaged.antt`). There is no code here but functions that do nothing, whose contracts are the laws; `specs/Laws.antt` has
//! their statements.
#![tactic(auto)]

mod laws;

pub use laws::{
    ends_are_faithful, linked_images_are_faithful, runs_go_side_by_side,
    services_are_of_the_source, tasks_own_their_parts, what_comes_may_come,
};
