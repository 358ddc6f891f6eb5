//! An image, read from its bytes.

ghost use Rattle.std.specs.Prelude.{◌≡◌, ◌⊎◌, ◌≤◌, ◌+◌, ◌*◌, [], length, IfOk, IfErr, Ok, Err};
ghost use Rattle.rt_words.specs.Reading as formats;
ghost use Rattle.rt_words.specs.Reading.{Gives};
ghost use Rattle.rt_image.specs.Grammar.{data_count, IsImage, IsNoImage, Faults};
ghost use Rattle.rt_image.specs.Reading as reads;
ghost use Rattle.rt_image.specs.declared.fault.ImageFault.TheVariants as fault;
ghost use Rattle.rt_image.specs.declared.image.ImageParts.{ImageParts};

use crate::fault::ImageFault;
use crate::image::{Image, ImageParts};
use crate::ranges::MEMORY;
use crate::tasks::read_tasks;
use rt_words::{
    Bytes, List, Stop, front_word, read_block, read_bytes_within, read_end, read_tag,
    read_word_within, read_words,
};
use std::alloc::Global;

/// Reads the image that the bytes are, all of them. Where they are none, the fault has the place of the
/// first field that is cut or out of range, or of the first byte behind the last task.
pub fn read_image(alloc: Global, bytes: &[u8]) -> Result<Image, ImageFault>
    ensures found { IfOk result (λ i. IsImage bytes.now i) }
    ensures only { (i : ImageParts) → IsImage bytes.now i → (result ≡ Ok i) ⊎ (result ≡ Err fault.Memory) }
    ensures refused { IfErr result (Faults bytes.now) }
    ensures place { (p : _) → IsNoImage bytes.now p → (result ≡ Err (fault.BadImage p)) ⊎ (result ≡ Err fault.Memory) }
{
    match read_parts(alloc, bytes) {
        Ok(parts) => Ok(Image::of(parts)),
        Err(Stop::Refused(left)) => Err(ImageFault::BadImage {
            at: bytes.len() - left,
        }),
        Err(Stop::Memory) => Err(ImageFault::Memory),
    }
}

/// The parts that all of the bytes are.
fn read_parts(alloc: Global, bytes: &[u8]) -> Result<ImageParts, Stop>
    ensures { Gives (λ x. (x, [])) result (formats.whole reads.image bytes.now) }
{
    let (parts, rest) = read_front(alloc, bytes)?;
    read_end(rest)?;
    Ok(parts)
}

/// The parts in front of the bytes.
#[tactic(auto, unfolding(crate::specs::Reading::image))]
fn read_front(alloc: Global, bytes: &[u8]) -> Result<(ImageParts, &[u8]), Stop>
    ensures { Gives (λ x. (x.0, x.1.now)) result (reads.image bytes.now) }
{
    let rest = read_tag(b"RTI\x01", bytes)?;
    let (count, rest) = read_word_within(1, 28672, rest)?;
    let code_end = 2 * usize::from(count);
    let ((code, marks), rest) = read_code(alloc, usize::from(count), rest)?;
    let (data, rest) = read_data(alloc, code_end, rest)?;
    let (tasks, rest) = read_tasks(alloc, code_end, code_end + data.len(), rest)?;
    Ok((
        ImageParts {
            code,
            marks,
            bytes: data,
            tasks,
        },
        rest,
    ))
}

/// So many words of code and their marks.
#[tactic(auto, unfolding(crate::specs::Reading::code))]
fn read_code(alloc: Global, count: usize, bytes: &[u8]) -> Result<((List<u16>, Bytes), &[u8]), Stop>
    ensures { Gives (λ x. (x.0, x.1.now)) result (reads.code count bytes.now) }
{
    let (words, rest) = read_words(alloc, count, bytes)?;
    let (marks, rest) = read_bytes_within(alloc, count, 0, 2, rest)?;
    Ok(((words, marks), rest))
}

/// The data behind code that ends at an address.
#[tactic(auto, unfolding(crate::specs::Reading::data_part))]
fn read_data(alloc: Global, code_end: usize, bytes: &[u8]) -> Result<(Bytes, &[u8]), Stop>
    requires { code_end ≤ 57344 }
    ensures bytes { Gives (λ x. (x.0, x.1.now)) result (reads.data_part code_end bytes.now) }
    ensures size { IfOk result (λ x. length x.0 ≤ 57344) }
{
    let (count, rest) = read_data_count(code_end, bytes)?;
    let (data, rest) = read_block(usize::from(count), rest)?;
    Ok((Bytes::from_slice(alloc, data)?, rest))
}

/// The number of bytes of the data.
fn read_data_count(code_end: usize, bytes: &[u8]) -> Result<(u16, &[u8]), Stop>
    requires { code_end ≤ 57344 }
    ensures count { Gives (λ x. (x.0, x.1.now)) result (formats.word (data_count code_end) bytes.now) }
    ensures size { IfOk result (λ x. code_end + x.0 ≤ 57344) }
{
    match front_word(bytes) {
        Some((count, rest)) if count % 2 == 0 && code_end + usize::from(count) <= MEMORY => {
            Ok((count, rest))
        }
        _ => Err(Stop::Refused(bytes.len())),
    }
}
