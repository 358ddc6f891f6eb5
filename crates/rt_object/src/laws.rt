//! Laws of objects, which the definitions alone give.

ghost use Rattle.rt_object.specs.Laws.{AreInRange, AreOneOfThree, HaveASpelling, HaveOneSpelling, NoImageIsObject, NoneBegins, NeverBoth, HaveOnePlace, HaveOneVersion};

/// Bytes are an object, or are refused at one place, or name another version, and never two of these. No
/// bytes that are an object begin others that are.
pub fn objects_are_told()
    ensures either { AreOneOfThree }
    ensures none_begins { NoneBegins }
    ensures apart { NeverBoth }
    ensures place { HaveOnePlace }
    ensures version { HaveOneVersion }
{}

/// What bytes are is in the ranges, and what is in the ranges has one spelling.
pub fn objects_are_spelled()
    ensures in_range { AreInRange }
    ensures some { HaveASpelling }
    ensures one { HaveOneSpelling }
{}

/// No bytes are both an image and an object.
pub fn no_image_is_an_object()
    ensures { NoImageIsObject }
{}
