//! The lines of a text.

ghost use Rattle.std.specs.Prelude.{◌≡◌, ◌<◌, ◌≤◌, length, take_while};
ghost use Rattle.rt_replay.specs.Reading as spec;
ghost use Rattle.rt_system.specs.Reading.{Gives, is_inside, inside, after_line};

fn is_inside_line(byte: u8) -> bool
    ensures { result ≡ is_inside byte }
{
    byte != b'\n'
}

fn line_feed_at(text: &[u8]) -> usize
    ensures value { result ≡ inside text.now }
    ensures within { result ≤ length text.now }
{
    text.iter().take_while(|b| is_inside_line(**b)).count()
}

/// The first line of a text, with its line feed where it has one, and the text after it.
#[tactic(auto, unfolding(crate::specs::Reading::first_line, rt_system::specs::Reading::after_line))]
pub fn first_line(text: &[u8]) -> (&[u8], &[u8])
    requires { 1 ≤ length text.now }
    ensures line { result.0.now ≡ spec.first_line text.now }
    ensures rest { result.1.now ≡ after_line text.now }
    ensures shorter { length result.1.now < length text.now }
{
    let end = line_feed_at(text);
    if end == text.len() {
        return (text, &text[end..]);
    }
    (&text[..end + 1], &text[end + 1..])
}

/// The text before the line feed with which a line ends.
#[tactic(auto, unfolding(crate::specs::Reading::unended))]
pub fn unended(line: &[u8]) -> Option<&[u8]>
    ensures { Gives (λ it. it.now) result (spec.unended line.now) }
{
    if line.is_empty() {
        return None;
    }
    let last = line.len() - 1;
    if line[last] != b'\n' {
        return None;
    }
    Some(&line[..last])
}
