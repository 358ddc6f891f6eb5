// Laws of frames. Each function does nothing: its contract is the law.

ghost use Rattle.rt_frames.specs.Small as law;

/// Every number of the frame of an own or ENT procedure is below 65,536, where the module is `Within`.
pub fn numbers_are_small()
    ensures { law.NumbersAreSmall }
{}
