//! The words of a line.

ghost use Rattle.std.specs.Prelude.{◌≡◌, ◌≤◌, true, length, take_while};
ghost use Rattle.rt_words.specs.Named.{IsNameLength};
ghost use Rattle.std.specs.List.{list_all};
ghost use Rattle.std.specs.Str.{bytes_eq};
ghost use Rattle.rt_replay.specs.Reading as spec;
ghost use Rattle.rt_system.specs.Reading.{Gives};

/// How many bytes a name may have.
const MOST_NAME_BYTES: usize = 32;

fn is_in_word(byte: u8) -> bool
    ensures { result ≡ spec.is_in_word byte }
{
    byte != b' '
}

fn word_len(text: &[u8]) -> usize
    ensures value { result ≡ length (take_while spec.is_in_word text.now) }
    ensures within { result ≤ length text.now }
{
    text.iter().take_while(|b| is_in_word(**b)).count()
}

/// The first word of a text, and what stands behind the space after it. `None` where no space follows it.
#[tactic(auto, unfolding(crate::specs::Reading::cut))]
pub fn cut(text: &[u8]) -> Option<(&[u8], &[u8])>
    ensures { Gives (λ x. (x.0.now, x.1.now)) result (spec.cut text.now) }
{
    let end = word_len(text);
    if end == text.len() {
        return None;
    }
    Some((&text[..end], &text[end + 1..]))
}

/// What stands behind these bytes, with which the text begins.
#[tactic(auto, unfolding(crate::specs::Reading::behind))]
pub fn behind<'a>(front: &[u8], text: &'a [u8]) -> Option<&'a [u8]>
    ensures { Gives (λ it. it.now) result (spec.behind front.now text.now) }
{
    if text.starts_with(front) {
        Some(&text[front.len()..])
    } else {
        None
    }
}

/// Whether two texts are the same.
pub fn is_same(text: &[u8], other: &[u8]) -> bool
    ensures { result ≡ bytes_eq text.now other.now }
{
    text == other
}

fn is_inside_name(byte: u8) -> bool
    ensures { result ≡ spec.is_inside_name byte }
{
    byte != b' ' && byte != b'\n'
}

fn are_inside_name(text: &[u8]) -> bool
    ensures { result ≡ list_all spec.is_inside_name text.now }
{
    text.iter().all(|b| is_inside_name(*b))
}

/// Whether the text is a name as reports have it: 1 to 32 bytes, none of them a space or a line feed.
#[tactic(auto, unfolding(crate::specs::Reading::is_name))]
pub fn is_name(text: &[u8]) -> bool
    ensures value { result ≡ spec.is_name text.now }
    ensures short { result ≡ true → IsNameLength (length text.now) }
{
    1 <= text.len() && text.len() <= MOST_NAME_BYTES && are_inside_name(text)
}
