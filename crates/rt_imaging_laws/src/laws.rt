//! The law.
ghost use Rattle.rt_imaging.specs.Imaging.{LinkedImagesAreImaged};

use rt_image::images_are_spelled;
use rt_owed::linked_are_imaged;
use rt_text_laws::{lists_have_texts, texts_promise};

/// For the typed trees of texts, their objects and the tasks of a system that `link` accepts, the image is that of the trees and the tasks; and no
/// task makes more than 24 unmarked instructions for each item of the longest procedure one after the other.
pub fn linked_images_are_imaged()
    ensures { LinkedImagesAreImaged }
{
    images_are_spelled();
    lists_have_texts();
    texts_promise();
    linked_are_imaged();
}
