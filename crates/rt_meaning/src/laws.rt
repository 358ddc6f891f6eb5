// Laws of the visible steps. Each function does nothing: its contract is the law.
ghost use Rattle.rt_meaning.specs.Laws as law;

/// What comes of a service has no effect where the step is no service.
pub fn answers_serve()
    ensures { law.AnswersServe }
{}

/// A step looks at one location of the store and changes none, or changes one and looks at none.
pub fn steps_access_one_location()
    ensures { law.StepsAccessOne }
{}

/// A step reads at the location that it is said to touch and changes none, or puts one datum there and looks at none, or touches
/// none: in the store and in the task's own data together.
pub fn steps_touch_one_location()
    ensures { law.StepsTouchOne }
{}

/// A step of one task changes no control, activation or supplied data of another, and a tick none at all.
pub fn steps_leave_other_tasks()
    ensures steps { law.StepsLeaveOthers }
    ensures ticks { law.TicksLeaveAll }
{}
