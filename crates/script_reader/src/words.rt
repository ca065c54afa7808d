//! The words of a line, one after another.

ghost use Rattle.std.specs.Prelude.{◌≡◌, ℕ, ◌<◌, ◌≤◌, List, [], ◌∷◌, length, take, drop, IfSome, MatchOption, false, slice_index};
ghost use Rattle.script_reader.specs.Cutting.{words_of, is_blank};

/// The first word, and what follows it; own. None where no word is left.
pub fn next_word(text: &[u8]) -> Option<(&[u8], &[u8])>
    ensures cases { MatchOption result (words_of text.now ≡ [])
        (λ p. words_of text.now ≡ p.0.now ∷ words_of p.1.now) }
    ensures shorter { IfSome result (λ p. length p.1.now < length text.now) }
{
    let (_, rest) = text.split_at(blanks_len(text));
    if rest.is_empty() {
        return None;
    }
    Some(rest.split_at(word_len(rest)))
}

fn is_blank_byte(byte: u8) -> bool
    ensures { result ≡ is_blank byte }
{
    byte == b' ' || byte == b'\t'
}

/// How many blanks the text begins with.
fn blanks_len(text: &[u8]) -> usize
    ensures within { result ≤ length text.now }
    ensures same { words_of text.now ≡ words_of (drop result text.now) }
    ensures word { result < length text.now → is_blank (slice_index text.now result) ≡ false }
{
    for (at, byte) in text.iter().enumerate() {
        if !is_blank_byte(*byte) {
            return at;
        }
    }
    text.len()
}

/// How many bytes the word takes with which the text begins.
fn word_len(text: &[u8]) -> usize
    requires some { 0 < length text.now }
    requires word { is_blank (slice_index text.now 0) ≡ false }
    ensures within { result ≤ length text.now }
    ensures some { 0 < result }
    ensures first { words_of text.now ≡ take result text.now ∷ words_of (drop result text.now) }
{
    for (at, byte) in text.iter().enumerate() {
        if is_blank_byte(*byte) {
            return at;
        }
    }
    text.len()
}

/// How many words are left.
pub(crate) fn count_words(text: &[u8]) -> usize
    ensures { result ≡ length (words_of text.now) }
{
    let mut count = 0;
    let mut rest = text;
    while let Some((_, after)) = next_word(rest) {
        count += 1;
        rest = after;
    }
    count
}
