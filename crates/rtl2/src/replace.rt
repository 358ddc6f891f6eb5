//! A file is replaced: its bytes go into a fresh file beside it, which takes its name once they are all out.

ghost use Rattle.std.specs.Io.KnownBytes.{Appends};
ghost use Rattle.std.specs.Prelude.{◌≡◌, ◌≤◌, ◌++◌, codes, IfOk, IfSome, IsErr};
ghost use Rattle.rt_words.specs.Causes.{Rose};

use crate::errors::ErrorCount;
use crate::files::write_opened;
use arrayvec::ArrayString;
use rt_outside::Failed;
use std::fs::{File, OpenFile};
use std::io::{ErrorKind, Write};
use std::rt::Files;

/// What the name of a fresh file has behind that of the file.
const ENDING: &str = ".rtl2-new";

/// The name of a fresh file, in as many bytes as the system takes for one.
type FreshName = ArrayString<4096>;

/// Makes the file of a name hold just these bytes.
///
/// A regular file, or one that isn't there, is replaced as a whole: where the bytes can't be written it stays as it was. Anything
/// else that has the name (a device, a pipe, a link) is written in place, and so is a file beside which no fresh one can be made
/// or take its name.
pub fn write_file<R: Files>(
    rt: &R,
    name: &str,
    bytes: &[u8],
    count: &mut ErrorCount,
) -> Result<(), Failed>
    ensures failed { IsErr result → Rose count.old.errors count.new.errors }
    ensures later { count.old.errors ≤ count.new.errors }
{
    match fresh_name(name) {
        Some(fresh) if is_replaceable(rt, name) => {
            replace(rt, fresh.as_str(), name, bytes, count)
        }
        _ => write_in_place(rt, name, bytes, count),
    }
}

/// The name of the fresh file beside the file of a name; none where it is longer than the system takes.
fn fresh_name(name: &str) -> Option<FreshName>
    ensures { IfSome result (λ fresh. fresh.bytes ≡ name.now ++ codes ".rtl2-new") }
{
    let mut fresh = FreshName::new();
    if fresh.try_push_str(name).is_err() {
        return None;
    }
    if fresh.try_push_str(ENDING).is_err() {
        return None;
    }
    Some(fresh)
}

/// Whether a name is that of a regular file, or of nothing.
fn is_replaceable<R: Files>(rt: &R, name: &str) -> bool {
    match rt.symlink_metadata(name) {
        Ok(found) => found.is_file(),
        Err(error) => error.kind() == ErrorKind::NotFound,
    }
}

// Cuts the file of a name to these bytes, whatever it was.
fn write_in_place<R: Files>(
    rt: &R,
    name: &str,
    bytes: &[u8],
    count: &mut ErrorCount,
) -> Result<(), Failed>
    ensures failed { IsErr result → Rose count.old.errors count.new.errors }
    ensures later { count.old.errors ≤ count.new.errors }
{
    match write_opened(File::create(rt, name), bytes, count) {
        Ok(_) => Ok(()),
        Err(failed) => Err(failed),
    }
}

// Writes a fresh file, and gives it the name. A file that was there before under the fresh name isn't touched.
fn replace<R: Files>(
    rt: &R,
    fresh: &str,
    name: &str,
    bytes: &[u8],
    count: &mut ErrorCount,
) -> Result<(), Failed>
    ensures failed { IsErr result → Rose count.old.errors count.new.errors }
    ensures later { count.old.errors ≤ count.new.errors }
{
    let Ok(file) = File::create_new(rt, fresh) else {
        return write_in_place(rt, name, bytes, count);
    };
    if let Err(failed) = written_out(file, bytes, count) {
        let _ = rt.remove_file(fresh);
        return Err(failed);
    }
    keep_permissions(rt, name, fresh);
    if rt.rename(fresh, name).is_ok() {
        return Ok(());
    }
    let _ = rt.remove_file(fresh);
    write_in_place(rt, name, bytes, count)
}

/// Writes all of these bytes into an opened file, down to the device, and answers the file.
pub fn written_out<F: Write + OpenFile + Drop>(
    file: F,
    bytes: &[u8],
    count: &mut ErrorCount,
) -> Result<F, Failed>
    ensures bytes { IfOk result (λ written. Appends (F.contents file) (F.contents written) bytes.now) }
    ensures failed { IsErr result → Rose count.old.errors count.new.errors }
    ensures later { count.old.errors ≤ count.new.errors }
{
    match write_opened(Ok(file), bytes, count) {
        Ok(written) if written.sync_all().is_ok() => Ok(written),
        Ok(_) => {
            count.rise();
            Err(Failed)
        }
        Err(failed) => Err(failed),
    }
}

// The fresh file may be read and written by whom the file of the name may be, where it is there.
fn keep_permissions<R: Files>(rt: &R, name: &str, fresh: &str) {
    if let Ok(found) = rt.symlink_metadata(name) {
        let _ = rt.set_permissions(fresh, found.permissions());
    }
}
