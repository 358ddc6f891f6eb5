//! The lines of a text.

ghost use Rattle.std.specs.Prelude.{◌≡◌, ◌<◌, ◌≤◌, length, take_while};
ghost use Rattle.std.specs.List.{list_all};
ghost use Rattle.rt_system.specs.Reading as spec;

fn is_inside(byte: u8) -> bool
    ensures { result ≡ spec.is_inside byte }
{
    byte != b'\n'
}

/// A space or a tab.
pub fn is_blank(byte: u8) -> bool
    ensures { result ≡ spec.is_blank byte }
{
    byte == b' ' || byte == b'\t'
}

/// Whether a line has blanks alone.
pub fn is_blank_line(line: &[u8]) -> bool
    ensures { result ≡ list_all spec.is_blank line.now }
{
    line.iter().all(|b| is_blank(*b))
}

fn line_feed_at(bytes: &[u8]) -> usize
    ensures value { result ≡ length (take_while spec.is_inside bytes.now) }
    ensures within { result ≤ length bytes.now }
{
    bytes.iter().take_while(|b| is_inside(**b)).count()
}

/// A line without the CR that belongs to its end.
fn without_return(line: &[u8]) -> &[u8]
    ensures { result.now ≡ spec.without_return line.now }
{
    if line.is_empty() {
        return line;
    }
    let last = line.len() - 1;
    if line[last] == b'\r' {
        &line[..last]
    } else {
        line
    }
}

/// The first line of a text, without its end, and the text after it.
#[tactic(auto, unfolding(crate::specs::Reading::first_line, crate::specs::Reading::after_line))]
pub fn first_line(bytes: &[u8]) -> (&[u8], &[u8])
    requires { 1 ≤ length bytes.now }
    ensures line { result.0.now ≡ spec.first_line bytes.now }
    ensures rest { result.1.now ≡ spec.after_line bytes.now }
    ensures shorter { length result.1.now < length bytes.now }
{
    let end = line_feed_at(bytes);
    if end == bytes.len() {
        return (bytes, &bytes[end..]);
    }
    (without_return(&bytes[..end]), &bytes[end + 1..])
}
