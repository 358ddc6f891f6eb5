//! Images and their tasks.

ghost use Rattle.std.specs.Prelude.{◌≡◌, ◌↔◌, IsSome, IfSome};
ghost use Rattle.rt_image.specs.Ranges.{HasImageRanges};

use crate::ranges::are_in_range;
use rt_words::{Bytes, List, Name};
use std::marker::Model;

/// A task of an image.
#[derive(Drop)]
pub struct ImageTask {
    pub name: Name,
    /// 1 to 255; a smaller one is more urgent.
    pub priority: u8,
    /// The address of its first instruction.
    pub entry: u16,
    /// The words of its block at the start: ERL 4, ERN, ERP, IN, OUT.
    pub block: [u16; 8],
    /// The length of its stack brick in words.
    pub stack: u16,
}

/// The parts of an image. The code lies in the memory from address 0, the data behind it, then the block and the brick of
/// each task.
#[derive(Drop)]
pub struct ImageParts {
    /// The words of the code.
    pub code: List<u16>,
    /// One mark for each word of the code: how many visible steps the instruction completes that begins there.
    pub marks: List<u8>,
    /// The data part.
    pub bytes: Bytes,
    pub tasks: List<ImageTask>,
}

/// An image, whose parts keep their ranges at every moment. Contracts see its parts.
#[derive(Drop)]
pub struct Image {
    parts: ImageParts,
}

impl Model for Image {
    ghost use Rattle.rt_image.specs.declared.image.ImageParts.{ImageParts};
    ghost use Rattle.rt_image.specs.Ranges.{HasImageRanges};

    ghost Value = { ImageParts };

    ghost view = { λ i. i.parts };

    ghost invariant = { λ i. HasImageRanges i.parts };
}

impl Image {
    /// The image of these parts; None exactly where they aren't in the ranges of an image.
    pub fn new(parts: ImageParts) -> Option<Image>
        ensures parts { IfSome result (λ i. i ≡ parts) }
        ensures ranges { IsSome result ↔ HasImageRanges parts }
    {
        if are_in_range(&parts) {
            Some(Image { parts })
        } else {
            None
        }
    }

    /// The image of parts that are known to be in range.
    pub(crate) fn of(parts: ImageParts) -> Image
        requires { HasImageRanges parts }
        ensures { result ≡ parts }
    {
        Image { parts }
    }

    /// Lends the parts.
    pub fn parts(&self) -> &ImageParts
        ensures parts { result.now ≡ self.now }
        ensures ranges { HasImageRanges self.now }
    {
        &self.parts
    }
}
