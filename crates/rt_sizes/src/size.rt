//! Numbers of bytes up to the most that a record may have.

ghost use Rattle.std.specs.Prelude.{◌≡◌, ◌+◌, ◌<◌};
ghost use Rattle.rt_modes.specs.declared.mode.Mode.{out-Mode};
ghost use Rattle.rt_sizes.specs.Capped as spec;
ghost use Rattle.rt_sizes.specs.Sizes as sizes;

use rt_modes::Mode;

/// How many bytes a value has.
#[derive(Clone, Copy, PartialEq, Eq)]
pub enum Size {
    Bytes(u16),
    /// More than the 57,344 bytes that a record may have.
    TooLarge,
}

impl Size {
    /// So many elements of this size, behind the word of their number.
    pub fn elements(self, count: u16) -> Size
        ensures { result ≡ spec.elements count self }
    {
        match self {
            Size::Bytes(bytes) => counted(even(2 + u32::from(count) * u32::from(bytes))),
            Size::TooLarge if count == 0 => Size::Bytes(2),
            Size::TooLarge => Size::TooLarge,
        }
    }

    /// A value of a mode and of this size, behind others.
    pub fn behind(self, mode: &Mode, others: Size) -> Size
        ensures { result ≡ spec.behind (out-Mode mode.now) others self }
    {
        match others {
            Size::Bytes(before) => match self {
                Size::Bytes(bytes) => counted(begins(mode, before) + u32::from(bytes)),
                Size::TooLarge => Size::TooLarge,
            },
            Size::TooLarge => Size::TooLarge,
        }
    }

    /// Where a value of a mode begins that stands behind so many bytes.
    pub fn place(self, mode: &Mode) -> Size
        ensures { result ≡ spec.place (out-Mode mode.now) self }
    {
        match self {
            Size::Bytes(before) => counted(begins(mode, before)),
            Size::TooLarge => Size::TooLarge,
        }
    }

    /// The same rounded up to an even number.
    pub fn rounded(self) -> Size
        ensures { result ≡ spec.rounded self }
    {
        match self {
            Size::Bytes(bytes) => counted(even(u32::from(bytes))),
            Size::TooLarge => Size::TooLarge,
        }
    }

    pub fn is_within(self) -> bool
        ensures { result ≡ spec.is_within self }
    {
        match self {
            Size::Bytes(_) => true,
            Size::TooLarge => false,
        }
    }
}

/// Where a value of a mode begins that stands behind so many bytes.
fn begins(mode: &Mode, before: u16) -> u32
    ensures place { result ≡ sizes.begins (out-Mode mode.now) before }
    ensures bound { result < before + 2 }
{
    match mode {
        Mode::Byte => u32::from(before),
        _ => even(u32::from(before)),
    }
}

fn even(bytes: u32) -> u32
    requires { bytes < 4294967295 }
    ensures number { result ≡ sizes.even bytes }
    ensures bound { result < bytes + 2 }
{
    bytes + bytes % 2
}

fn counted(bytes: u32) -> Size
    ensures { result ≡ spec.counted bytes }
{
    if bytes <= 57_344 {
        Size::Bytes(bytes as u16)
    } else {
        Size::TooLarge
    }
}
