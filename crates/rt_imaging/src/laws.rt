//! The law of tasks.
ghost use Rattle.rt_imaging.specs.Imaging.{TasksAreThose};

/// The tasks of a system's lines are those of the roots that the verdict has found.
pub fn tasks_are_those()
    ensures { TasksAreThose }
{}
