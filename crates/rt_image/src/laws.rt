//! Laws of images, which the definitions alone give.

ghost use Rattle.rt_image.specs.declared.image.ImageParts.{ImageParts};
ghost use Rattle.rt_image.specs.Laws.{AreInRange, HaveASpelling, HaveOneSpelling, NoneBegins, AreOrAreNot, NeverBoth, HaveOnePlace, LieInOrder, LieInMemory};
ghost use Rattle.rt_image.specs.Ranges.{HasImageRanges};

/// What bytes spell is in the ranges, and each image has one spelling, which begins no other. Bytes that
/// are no image are refused at one place.
pub fn images_are_spelled()
    ensures in_range { AreInRange }
    ensures some { HaveASpelling }
    ensures one { HaveOneSpelling }
    ensures none_begins { NoneBegins }
    ensures either { AreOrAreNot }
    ensures apart { NeverBoth }
    ensures place { HaveOnePlace }
{}

/// The parts of an image lie one behind another below 160000 octal, each at an even address.
pub fn images_lie_in_memory()
    ensures order { (i : ImageParts) → HasImageRanges i → LieInOrder i }
    ensures memory { (i : ImageParts) → HasImageRanges i → LieInMemory i }
{}
