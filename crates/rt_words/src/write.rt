//! Fields at the end of what is written.

ghost use Rattle.std.specs.Prelude.{◌≡◌, ◌++◌, OnOk, OnErr};
ghost use Rattle.rt_words.specs.Bytes.{word_bytes};
ghost use Rattle.rt_words.specs.Spelling.{words_bytes, name_bytes, Grew};

use crate::{Memory, Name, Text};
use byteorder::{ByteOrder, LittleEndian};

/// Appends a word, the low byte first. Where there is no memory `out` stays as it was.
pub fn put_word(word: u16, out: &mut Text) -> Result<(), Memory>
    ensures ok { OnOk result (out.new.items ≡ out.old.items ++ word_bytes word) }
    ensures err { OnErr result (out.new.items ≡ out.old.items) }
{
    let mut two = [0; 2];
    LittleEndian::write_u16(&mut two, word);
    out.push_all(&two)
}

/// Appends words. Where there is no memory `out` has grown by the beginning of their bytes.
pub fn put_words(words: &[u16], out: &mut Text) -> Result<(), Memory>
    ensures ok { OnOk result (out.new.items ≡ out.old.items ++ words_bytes words.now) }
    ensures err { OnErr result (Grew (words_bytes words.now) out.old.items out.new.items) }
{
    for word in words {
        put_word(*word, out)?;
    }
    Ok(())
}

/// Appends a name behind its length. Where there is no memory `out` has grown by the beginning of that.
pub fn put_name(name: &Name, out: &mut Text) -> Result<(), Memory>
    ensures ok { OnOk result (out.new.items ≡ out.old.items ++ name_bytes name.now) }
    ensures err { OnErr result (Grew (name_bytes name.now) out.old.items out.new.items) }
{
    let bytes = name.as_slice();
    out.push(bytes.len() as u8)?;
    out.push_all(bytes)
}
