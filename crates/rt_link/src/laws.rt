//! Laws of systems that are linked, as the contracts of functions that do nothing.

ghost use Rattle.rt_link.specs.Laws.{TasksAreThoseOfTheLines, EachIsLinked, NeverBoth, HaveOneImage};

use crate::verdict_laws::each_has_a_stack;

/// The tasks of the image of a system and of its map are those of the TASK lines, in their order: they have the names and the
/// priorities of the lines, the words of the stacks that the lines name, and just the needs of the roots.
pub fn tasks_are_those_of_the_lines()
    ensures { TasksAreThoseOfTheLines }
{
    each_has_a_stack();
}

/// A system that passes all tests is linked to an image, and one that is linked fails no test.
pub fn one_verdict()
    ensures linked { EachIsLinked }
    ensures apart { NeverBoth }
{
    each_has_a_stack();
}

/// A system has one image and one map.
pub fn one_image()
    ensures { HaveOneImage }
{}
