//! Images and runs of them.

use crate::numbers::tell_number;
use crate::runs::session::Session;
use crate::runs::texts::hex_of;
use crate::runs::told::{tell_bytes, tell_end, tell_run};
use rt_image::{Image, ImageFault, read_image};
use rt_outside::{MemSink, MemSource};
use rt_run::Run;
use rt_system::{Ticks, read_ticks};
use rt_words::{Memory, Text};
use std::alloc::Global;

/// Begins a run of the image of these bytes.
pub fn describe_image(
    alloc: Global,
    text: &str,
    session: &mut Session,
    out: &mut Text,
) -> Result<(), Memory> {
    match image_of(alloc, text, out)? {
        Some(image) => open_image(alloc, image, session, out),
        None => Ok(()),
    }
}

/// The image of these bytes. Where they are none, None, and the place is told.
pub fn image_of(alloc: Global, text: &str, out: &mut Text) -> Result<Option<Image>, Memory> {
    let bytes = hex_of(alloc, text)?;
    match read_image(alloc, bytes.as_slice()) {
        Ok(image) => Ok(Some(image)),
        Err(ImageFault::BadImage { at }) => {
            tell_number("no image at ", at as u64, out)?;
            Ok(None)
        }
        Err(ImageFault::Memory) => Err(Memory),
    }
}

fn open_image(
    alloc: Global,
    image: Image,
    session: &mut Session,
    out: &mut Text,
) -> Result<(), Memory> {
    match ticks_of(alloc, session.ticks.as_slice()) {
        Some(ticks) => open_run(alloc, image, ticks, session, out),
        None => out.push_all(b"no ticks"),
    }
}

fn ticks_of(alloc: Global, text: &[u8]) -> Option<Ticks> {
    if text.len() > 4194304 {
        return None;
    }
    read_ticks(alloc, text).ok()
}

fn open_run(
    alloc: Global,
    image: Image,
    ticks: Ticks,
    session: &mut Session,
    out: &mut Text,
) -> Result<(), Memory> {
    let run = Run::open(alloc, image, ticks)?;
    let told = tell_run(&run, out);
    session.run = Some(run);
    told
}

/// Runs up to a limit.
pub fn describe_go(limit: &str, session: &mut Session, out: &mut Text) -> Result<(), Memory> {
    let limit = limit.trim().parse::<u64>().unwrap_or(0);
    let Session {
        input,
        output,
        run,
        ..
    } = session;
    match (run, input, output) {
        (Some(run), Some(input), Some(output)) => go_on(run, input, output, limit, out),
        _ => out.push_all(b"no image, input or output"),
    }
}

fn go_on(
    run: &mut Run,
    input: &mut MemSource,
    output: &mut MemSink,
    limit: u64,
    out: &mut Text,
) -> Result<(), Memory> {
    if limit > 4_000_000_000 || limit < run.instructions() {
        return out.push_all(b"no limit");
    }
    let end = run.go(input, output, limit);
    tell_end(end, out)?;
    tell_run(run, out)?;
    out.push_all(b"; <")?;
    tell_bytes(output.written(), out)?;
    out.push(b'>')
}
