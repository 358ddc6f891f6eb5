//! An image, written as its bytes.

ghost use Rattle.std.specs.Prelude.{◌≡◌, ◌++◌, ◌∷◌, IfOk, OnOk};
ghost use Rattle.rt_words.specs.Spelling.{spell_all};
ghost use Rattle.rt_image.specs.Grammar.{IsImage};
ghost use Rattle.rt_image.specs.Ranges.{HasImageRanges};
ghost use Rattle.rt_image.specs.Spelling.{code_spelling, data_spelling, task_spelling, tasks_spelling, image_spelling};

use crate::image::{Image, ImageParts, ImageTask};
use rt_words::{Bytes, Memory, Text, put_name, put_word, put_words};
use std::alloc::Global;

/// The one spelling of an image.
pub fn write_image(alloc: Global, image: &Image) -> Result<Bytes, Memory>
    ensures { IfOk result (λ b. IsImage b image.now) }
{
    let mut out = Text::new(alloc, 0)?;
    put_image(image.parts(), &mut out)?;
    Ok(out.into_list())
}

fn put_image(parts: &ImageParts, out: &mut Text) -> Result<(), Memory>
    requires { HasImageRanges parts.now }
    ensures { OnOk result (out.new.items ≡ out.old.items ++ image_spelling parts.now) }
{
    out.push_all(b"RTI\x01")?;
    put_code(parts, out)?;
    put_data(parts, out)?;
    put_tasks(parts, out)
}

fn put_code(parts: &ImageParts, out: &mut Text) -> Result<(), Memory>
    requires { HasImageRanges parts.now }
    ensures { OnOk result (out.new.items ≡ out.old.items ++ code_spelling parts.now) }
{
    put_word(parts.code.len() as u16, out)?;
    put_words(parts.code.as_slice(), out)?;
    out.push_all(parts.marks.as_slice())
}

fn put_data(parts: &ImageParts, out: &mut Text) -> Result<(), Memory>
    requires { HasImageRanges parts.now }
    ensures { OnOk result (out.new.items ≡ out.old.items ++ data_spelling parts.now) }
{
    put_word(parts.bytes.len() as u16, out)?;
    out.push_all(parts.bytes.as_slice())
}

fn put_tasks(parts: &ImageParts, out: &mut Text) -> Result<(), Memory>
    requires { HasImageRanges parts.now }
    ensures { OnOk result (out.new.items ≡ out.old.items ++ tasks_spelling parts.now) }
{
    out.push(parts.tasks.len() as u8)?;
    put_each_task(parts.tasks.as_slice(), out)
}

fn put_each_task(tasks: &[ImageTask], out: &mut Text) -> Result<(), Memory>
    ensures { OnOk result (out.new.items ≡ out.old.items ++ spell_all task_spelling tasks.now) }
{
    for task in tasks {
        put_task(task, out)?;
    }
    Ok(())
}

fn put_task(task: &ImageTask, out: &mut Text) -> Result<(), Memory>
    ensures { OnOk result (out.new.items ≡ out.old.items ++ task_spelling task.now) }
{
    put_name(&task.name, out)?;
    out.push(task.priority)?;
    put_word(task.entry, out)?;
    put_words(&task.block, out)?;
    put_word(task.stack, out)
}
