//! The classes of bytes.

ghost use Rattle.std.specs.Prelude.{◌≡◌};
ghost use Rattle.std.specs.Str.{bytes_eq};
ghost use Rattle.rt_pieces.specs.Bytes as spec;

/// Layout: tab, line end, carriage return or space.
pub fn is_blank(b: u8) -> bool
    ensures { result ≡ spec.is_blank b }
{
    b == 9 || b == 10 || b == 13 || b == 32
}

/// A letter from A to Z.
pub fn is_capital(b: u8) -> bool
    ensures { result ≡ spec.is_capital b }
{
    65 <= b && b <= 90
}

/// A letter from a to z.
pub fn is_small(b: u8) -> bool
    ensures { result ≡ spec.is_small b }
{
    97 <= b && b <= 122
}

/// A letter in either case.
pub fn is_letter(b: u8) -> bool
    ensures { result ≡ spec.is_letter b }
{
    is_capital(b) || is_small(b)
}

/// A decimal digit.
pub fn is_digit(b: u8) -> bool
    ensures { result ≡ spec.is_digit b }
{
    48 <= b && b <= 57
}

/// A letter or a decimal digit.
pub fn is_letter_or_digit(b: u8) -> bool
    ensures { result ≡ spec.is_letter_or_digit b }
{
    is_letter(b) || is_digit(b)
}

/// A byte that may stand in a string, the quotation mark apart: 32 to 126.
pub fn is_printable(b: u8) -> bool
    ensures { result ≡ spec.is_printable b }
{
    32 <= b && b <= 126
}

/// A byte that ends no string: neither a quotation mark nor a line end.
pub fn in_string(b: u8) -> bool
    ensures { result ≡ spec.in_string b }
{
    !(b == 34 || b == 10)
}

/// A letter in upper case; any other byte as it is.
pub fn upper(b: u8) -> u8
    ensures { result ≡ spec.upper b }
{
    if is_small(b) { b - 32 } else { b }
}

/// Whether two texts have the same bytes.
pub fn same(a: &[u8], b: &[u8]) -> bool
    ensures { result ≡ bytes_eq a.now b.now }
{
    a == b
}
