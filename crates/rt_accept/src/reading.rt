//! Reading the files that a command names.

ghost use Rattle.std.specs.Prelude.{◌≡◌, ◌≤◌, ℕ, List, IfOk, IfErr};
ghost use Rattle.std.specs.List.{AllByRecursion};
ghost use Rattle.rt_items.specs.Ranges.{IsByte};
ghost use Rattle.rt_report.specs.declared.fault.FaultLine.TheVariants as fault;
ghost use Rattle.rt_accept.specs.Reading.{IsFile, IsNoFile, HasImage, RefusesImage, HasObject, RefusesObject, HasModule, RefusesModule, HasSystem, RefusesSystem, HasTicks, RefusesTicks, IsUnaccepted, IsRefusedBy, IsUnread};

use crate::faulting::not_compiled;
use rt_compile::compile;
use rt_image::{Image, ImageFault, read_image};
use rt_object::{Object, ObjectFault, read_object};
use rt_outside::{Store, StoreError};
use rt_report::{FaultLine, FileKind};
use rt_system::{LineFault, System, Ticks, read_system, read_ticks};
use rt_words::{Bytes, Memory};
use std::alloc::Global;

/// Why a file isn't accepted.
#[derive(Drop)]
pub enum Unaccepted {
    Memory,
    /// The file is refused, by this fault.
    Refused(FaultLine),
    /// The read of the file failed, which this fault tells.
    Failed(FaultLine),
}

/// A copy of a file's name.
pub fn name_of(alloc: Global, name: &str) -> Result<Bytes, Memory>
    ensures { IfOk result (λ b. b ≡ name.now) }
{
    Bytes::from_slice(alloc, name.as_bytes())
}

/// Why a file wasn't read.
fn unread(alloc: Global, name: &str, kind: FileKind, why: StoreError) -> Unaccepted
    ensures { IsUnread kind name.now why result }
{
    let Ok(file) = name_of(alloc, name) else {
        return Unaccepted::Memory;
    };
    match why {
        StoreError::Missing => Unaccepted::Refused(FaultLine::Unread { file }),
        StoreError::Failed => Unaccepted::Failed(FaultLine::Unread { file }),
        StoreError::TooLong => Unaccepted::Refused(FaultLine::TooLong { kind, file }),
        StoreError::Memory => Unaccepted::Memory,
    }
}

/// The bytes of a file.
fn read_file<S: Store>(
    alloc: Global,
    store: &mut S,
    name: &str,
    kind: FileKind,
) -> Result<Vec<u8>, Unaccepted>
    ensures ok { IfOk result (λ v. IsFile (S.files store.old) name.now v.items) }
    ensures err { IfErr result (IsUnaccepted (IsNoFile (S.files store.old) kind name.now) name.now (S.read_faults store.old) (S.read_faults store.new)) }
    ensures unchanged { S.files store.new ≡ S.files store.old }
    ensures reads_later { (other : List ℕ) → S.read_faults store.old other ≤ S.read_faults store.new other }
    ensures writes_later { (other : List ℕ) → S.write_faults store.old other ≤ S.write_faults store.new other }
{
    match store.read(alloc, name) {
        Ok(bytes) => Ok(bytes),
        Err(why) => Err(unread(alloc, name, kind, why)),
    }
}

fn bad_image(alloc: Global, name: &str, at: usize) -> Unaccepted
    ensures { IsRefusedBy (fault.BadImage name.now at) result }
{
    match name_of(alloc, name) {
        Ok(file) => Unaccepted::Refused(FaultLine::BadImage {
            file,
            at: at as u64,
        }),
        Err(_) => Unaccepted::Memory,
    }
}

fn bad_line(alloc: Global, name: &str, line: u32) -> Unaccepted
    ensures { IsRefusedBy (fault.BadLine name.now line) result }
{
    match name_of(alloc, name) {
        Ok(file) => Unaccepted::Refused(FaultLine::BadLine { file, line }),
        Err(_) => Unaccepted::Memory,
    }
}

fn object_line(alloc: Global, name: &str, line: u32) -> Unaccepted
    ensures { IsRefusedBy (fault.ObjectLine name.now line) result }
{
    match name_of(alloc, name) {
        Ok(file) => Unaccepted::Refused(FaultLine::ObjectLine { file, line }),
        Err(_) => Unaccepted::Memory,
    }
}

/// Reads the image of a file.
pub fn accept_image<S: Store>(alloc: Global, store: &mut S, name: &str) -> Result<Image, Unaccepted>
    ensures ok { IfOk result (λ i. HasImage (S.files store.old) name.now i) }
    ensures err { IfErr result (IsUnaccepted (RefusesImage (S.files store.old) name.now) name.now (S.read_faults store.old) (S.read_faults store.new)) }
    ensures unchanged { S.files store.new ≡ S.files store.old }
    ensures reads_later { (other : List ℕ) → S.read_faults store.old other ≤ S.read_faults store.new other }
    ensures writes_later { (other : List ℕ) → S.write_faults store.old other ≤ S.write_faults store.new other }
{
    match read_file(alloc, store, name, FileKind::Image) {
        Ok(bytes) => match read_image(alloc, &bytes) {
            Ok(image) => Ok(image),
            Err(ImageFault::BadImage { at }) => Err(bad_image(alloc, name, at)),
            Err(ImageFault::Memory) => Err(Unaccepted::Memory),
        },
        Err(why) => Err(why),
    }
}

fn bad_object(alloc: Global, name: &str, at: usize) -> Unaccepted
    ensures { IsRefusedBy (fault.BadObject name.now at) result }
{
    match name_of(alloc, name) {
        Ok(file) => Unaccepted::Refused(FaultLine::BadObject {
            file,
            at: at as u64,
        }),
        Err(_) => Unaccepted::Memory,
    }
}

fn other_version(alloc: Global, name: &str, found: u8) -> Unaccepted
    ensures { IsRefusedBy (fault.ObjectVersion name.now found) result }
{
    match name_of(alloc, name) {
        Ok(file) => Unaccepted::Refused(FaultLine::ObjectVersion { file, found }),
        Err(_) => Unaccepted::Memory,
    }
}

/// Reads the object of a file.
pub fn accept_object<S: Store>(
    alloc: Global,
    store: &mut S,
    name: &str,
) -> Result<Object, Unaccepted>
    ensures ok { IfOk result (λ o. HasObject (S.files store.old) name.now o) }
    ensures err { IfErr result (IsUnaccepted (RefusesObject (S.files store.old) name.now) name.now (S.read_faults store.old) (S.read_faults store.new)) }
    ensures unchanged { S.files store.new ≡ S.files store.old }
    ensures reads_later { (other : List ℕ) → S.read_faults store.old other ≤ S.read_faults store.new other }
    ensures writes_later { (other : List ℕ) → S.write_faults store.old other ≤ S.write_faults store.new other }
{
    match read_file(alloc, store, name, FileKind::Object) {
        Ok(bytes) => match read_object(alloc, &bytes) {
            Ok(object) => Ok(object),
            Err(ObjectFault::BadObject { at }) => Err(bad_object(alloc, name, at)),
            Err(ObjectFault::Version { found }) => Err(other_version(alloc, name, found)),
            Err(ObjectFault::Memory) => Err(Unaccepted::Memory),
        },
        Err(why) => Err(why),
    }
}

/// Reads and compiles the text of a module.
pub fn accept_module<S: Store>(
    alloc: Global,
    store: &mut S,
    name: &str,
) -> Result<Object, Unaccepted>
    ensures ok { IfOk result (λ o. HasModule (S.files store.old) name.now o) }
    ensures err { IfErr result (IsUnaccepted (RefusesModule (S.files store.old) name.now) name.now (S.read_faults store.old) (S.read_faults store.new)) }
    ensures unchanged { S.files store.new ≡ S.files store.old }
    ensures reads_later { (other : List ℕ) → S.read_faults store.old other ≤ S.read_faults store.new other }
    ensures writes_later { (other : List ℕ) → S.write_faults store.old other ≤ S.write_faults store.new other }
{
    match read_file(alloc, store, name, FileKind::Module) {
        Ok(bytes) => {
            bytes_are_small(&bytes);
            match compile(alloc, &bytes) {
                Ok(object) => Ok(object),
                Err(fault) => Err(not_compiled(alloc, name, fault)),
            }
        }
        Err(why) => Err(why),
    }
}

/// Bytes are below 256, as their type says.
fn bytes_are_small(_bytes: &[u8])
    ensures { AllByRecursion IsByte _bytes.now }
{}

/// Reads the system of a file, in which OBJECT lines are taken or refused.
pub fn accept_system<S: Store>(
    alloc: Global,
    store: &mut S,
    name: &str,
    objects: bool,
) -> Result<System, Unaccepted>
    ensures ok { IfOk result (λ s. HasSystem (S.files store.old) objects name.now s) }
    ensures err { IfErr result (IsUnaccepted (RefusesSystem (S.files store.old) objects name.now) name.now (S.read_faults store.old) (S.read_faults store.new)) }
    ensures unchanged { S.files store.new ≡ S.files store.old }
    ensures reads_later { (other : List ℕ) → S.read_faults store.old other ≤ S.read_faults store.new other }
    ensures writes_later { (other : List ℕ) → S.write_faults store.old other ≤ S.write_faults store.new other }
{
    match read_file(alloc, store, name, FileKind::Lines) {
        Ok(bytes) => match read_system(alloc, &bytes, objects) {
            Ok(system) => Ok(system),
            Err(LineFault::BadLine { line }) => Err(bad_line(alloc, name, line)),
            Err(LineFault::ObjectLine { line }) => Err(object_line(alloc, name, line)),
            Err(LineFault::Memory) => Err(Unaccepted::Memory),
        },
        Err(why) => Err(why),
    }
}

/// Reads the ticks of a file.
pub fn accept_ticks<S: Store>(alloc: Global, store: &mut S, name: &str) -> Result<Ticks, Unaccepted>
    ensures ok { IfOk result (λ t. HasTicks (S.files store.old) name.now t) }
    ensures err { IfErr result (IsUnaccepted (RefusesTicks (S.files store.old) name.now) name.now (S.read_faults store.old) (S.read_faults store.new)) }
    ensures unchanged { S.files store.new ≡ S.files store.old }
    ensures reads_later { (other : List ℕ) → S.read_faults store.old other ≤ S.read_faults store.new other }
    ensures writes_later { (other : List ℕ) → S.write_faults store.old other ≤ S.write_faults store.new other }
{
    match read_file(alloc, store, name, FileKind::Lines) {
        Ok(bytes) => match read_ticks(alloc, &bytes) {
            Ok(ticks) => Ok(ticks),
            Err(LineFault::BadLine { line }) => Err(bad_line(alloc, name, line)),
            Err(_) => Err(Unaccepted::Memory),
        },
        Err(why) => Err(why),
    }
}
