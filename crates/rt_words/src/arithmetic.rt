ghost use Rattle.std.specs.Prelude.{◌≡◌};
ghost use Rattle.rt_words.specs.Word as word;

/// The low 16 bits of the sum of two words.
pub fn wrap_add(a: u16, b: u16) -> u16
    ensures { result ≡ word.wrap_add a b }
{
    a.wrapping_add(b)
}

/// The low 16 bits of the difference of two words.
pub fn wrap_sub(a: u16, b: u16) -> u16
    ensures { result ≡ word.wrap_sub a b }
{
    a.wrapping_sub(b)
}

/// The number for which a word stands, in two's complement: -32,768 to 32,767.
pub fn signed(a: u16) -> i32
    ensures { result ≡ word.signed_of a }
{
    if a < 32768 {
        a as i32
    } else {
        a as i32 - 65536
    }
}

/// The low 16 bits of a number.
pub fn low_word(number: i32) -> u16
    ensures { result ≡ word.word_of number }
{
    number.rem_euclid(65536) as u16
}
