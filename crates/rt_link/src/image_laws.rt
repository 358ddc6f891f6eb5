//! Laws of images of systems, as the contracts of functions that do nothing.

ghost use Rattle.rt_link.specs.ImageLaws.{EntriesAreStacks, ImagesLieAsLaid};

/// The code, the data, the blocks and the stack bricks of an image lie in the machine's memory where the layout has them, and so where
/// the map says.
pub fn images_lie_as_laid()
    ensures { ImagesLieAsLaid }
{}

/// The first ENT bricks of names, where they are stacks, are stack bricks, as an image asks for them.
pub fn entries_are_stacks()
    ensures { EntriesAreStacks }
{}
