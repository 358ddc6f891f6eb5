//! Linked images are imaged: the image of a system of texts that `link` accepts is that of its modules and tasks, each procedure of which runs as
//! the modules mean it. So it is faithful (`rt_faithful`). There is no code here but a function that does nothing, whose contract is the law.
#![tactic(auto)]

mod laws;

pub use laws::linked_images_are_imaged;
