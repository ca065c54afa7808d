//! Bytes cut into lines, byte by byte, and which of them are text. Nothing here holds more than one line.

ghost use Rattle.std.specs.Prelude.{◌≡◌, ℕ, ◌+◌, ◌<◌, ◌≤◌, true, ◌∷◌, length, take, drop, slice_index};
ghost use Rattle.std.specs.List.{list_all};
ghost use Rattle.script_reader.specs.Cutting.{lines_of, text_of, without_end};
ghost use Rattle.script_reader.specs.Judged.{is_text_byte};

/// The first line with its line end, what follows it, and whether the line without its end is text. A line of text
/// that ends with LF alone is walked once.
pub(crate) fn first_line(bytes: &[u8]) -> (&[u8], &[u8], bool)
    requires { 0 < length bytes.now }
    ensures first { lines_of bytes.now ≡ result.0.now ∷ lines_of result.1.now }
    ensures shorter { length result.1.now < length bytes.now }
    ensures all { length result.0.now + length result.1.now ≡ length bytes.now }
    ensures text { result.2 ≡ list_all is_text_byte (text_of result.0.now) }
{
    let len = text_len(bytes);
    if len < bytes.len() && bytes[len] == b'\n' {
        let (line, after) = bytes.split_at(len + 1);
        (line, after, true)
    } else {
        other_line(bytes)
    }
}

/// How many bytes of text the bytes begin with.
fn text_len(bytes: &[u8]) -> usize
    ensures within { result ≤ length bytes.now }
    ensures text { (k : ℕ) → k < result → is_text_byte (slice_index bytes.now k) ≡ true }
{
    for (at, byte) in bytes.iter().enumerate() {
        if *byte < b' ' || b'~' < *byte {
            if *byte != b'\t' {
                return at;
            }
        }
    }
    bytes.len()
}

/// The first line as above, whatever stands in it.
fn other_line(bytes: &[u8]) -> (&[u8], &[u8], bool)
    requires { 0 < length bytes.now }
    ensures first { lines_of bytes.now ≡ result.0.now ∷ lines_of result.1.now }
    ensures shorter { length result.1.now < length bytes.now }
    ensures all { length result.0.now + length result.1.now ≡ length bytes.now }
    ensures text { result.2 ≡ list_all is_text_byte (text_of result.0.now) }
{
    let (line, after) = bytes.split_at(line_len(bytes));
    let text = text_in(line);
    (line, after, is_text(text))
}

fn is_text(text: &[u8]) -> bool
    ensures { result ≡ list_all is_text_byte text.now }
{
    text.iter()
        .all(|byte| *byte == b'\t' || (b' ' <= *byte && *byte <= b'~'))
}

/// How many bytes the first line takes, its line end included.
fn line_len(bytes: &[u8]) -> usize
    requires { 0 < length bytes.now }
    ensures first { lines_of bytes.now ≡ take result bytes.now ∷ lines_of (drop result bytes.now) }
    ensures some { 0 < result }
    ensures within { result ≤ length bytes.now }
{
    for (at, byte) in bytes.iter().enumerate() {
        if *byte == b'\n' {
            return at + 1;
        }
    }
    bytes.len()
}

/// A line without its line end.
pub(crate) fn text_in(line: &[u8]) -> &[u8]
    ensures { result.now ≡ text_of line.now }
{
    match line {
        [front @ .., b'\n'] => before_end(b'\r', front),
        _ => line,
    }
}

fn before_end(byte: u8, bytes: &[u8]) -> &[u8]
    ensures { result.now ≡ without_end byte bytes.now }
{
    match bytes {
        [front @ .., last] if *last == byte => front,
        _ => bytes,
    }
}
