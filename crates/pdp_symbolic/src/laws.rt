//! The laws.
ghost use Rattle.pdp_symbolic.specs.Laws as laws;

/// An instruction does to a task what its act says, in every memory that holds the task.
pub fn acts_are_done()
    ensures { laws.ActsAreDone }
{}

/// The template that pushes a number does so, whatever other tasks do before it.
pub fn numbers_are_pushed()
    ensures { laws.NumbersArePushed }
{}

/// The template that pushes an item of the task's own data takes it from the block.
pub fn items_are_pushed()
    ensures { laws.ItemsArePushed }
{}

/// The template that fetches a word through an address reads it once, and leaves what it read in the address's place.
pub fn words_are_fetched()
    ensures { laws.WordsAreFetched }
{}

/// The routine by which procedures end comes back to the caller, with the caller's frame and the stack below the procedure's.
pub fn procedures_end()
    ensures { laws.ProceduresEnd }
{}
