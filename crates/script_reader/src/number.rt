//! Words as numbers. Whether a number is in its range is asked in `line.rt` and `body.rt`.

ghost use Rattle.std.specs.Prelude.{◌≡◌, ℕ, ◌+◌, ◌-◌, ◌*◌, ◌^◌, ◌<◌, ◌≤◌, pos, neg_ℤ, int_le, ◌&&◌, length, Some, None, if◌then◌else◌, IfSome, IsTrue};
ghost use Rattle.std.specs.Option.{option_map};
ghost use Rattle.std.specs.List.{list_all};
ghost use Rattle.std.specs.Char.{is_ascii_digit, is_ascii_hexdigit};
ghost use Rattle.script_reader.specs.Number.{decimal_of, hexadecimal_of, hex_digit, decimal_value, hexadecimal_value, number_of, argument_of};
ghost use Rattle.gl_words.specs.Names.{number_named};

use gl_words::number_of_enum;
use std::str::from_utf8;

/// The number that 1 to 10 decimal digits spell; own. None exactly where a word isn't so many digits. It takes no memory.
#[tactic(auto, unfolding(crate::specs::Number::decimal_of))]
pub fn decimal_from(word: &[u8]) -> Option<u64>
    ensures gives { result ≡ decimal_of word.now }
    ensures small { IfSome result (λ number. number < 10 ^ 10) }
{
    if !word.is_empty() && word.len() <= 10 {
        decimal_number(word)
    } else {
        None
    }
}

/// The number that digits spell, at most ten of them. None where a byte is no digit. Each byte is looked at once.
fn decimal_number(word: &[u8]) -> Option<u64>
    requires { length word.now ≤ 10 }
    ensures gives { result ≡ if list_all is_ascii_digit word.now
        then Some (decimal_value word.now) else None }
    ensures small { IfSome result (λ number. number < 10 ^ 10) }
{
    let mut number = 0;
    for digit in word {
        if !digit.is_ascii_digit() {
            return None;
        }
        number = 10 * number + u64::from(*digit - b'0');
    }
    Some(number)
}

/// The number that hexadecimal digits of either case spell, at most eight of them.
#[tactic(auto, unfolding(crate::specs::Number::hexadecimal_of))]
fn hexadecimal_from(word: &[u8]) -> Option<u64>
    ensures gives { result ≡ hexadecimal_of word.now }
    ensures small { IfSome result (λ number. number < 16 ^ 8) }
{
    if !word.is_empty() && word.len() <= 8 && all_hexadecimal(word) {
        Some(hexadecimal_number(word))
    } else {
        None
    }
}

pub(crate) fn all_hexadecimal(word: &[u8]) -> bool
    ensures { result ≡ list_all is_ascii_hexdigit word.now }
{
    word.iter().all(|digit| digit.is_ascii_hexdigit())
}

fn hexadecimal_number(word: &[u8]) -> u64
    requires few { length word.now ≤ 8 }
    requires digits { IsTrue (list_all is_ascii_hexdigit word.now) }
    ensures gives { result ≡ hexadecimal_value word.now }
    ensures small { result < 16 ^ 8 }
{
    let mut number = 0;
    for digit in word {
        number = 16 * number + u64::from(digit_value(*digit));
    }
    number
}

/// What a hexadecimal digit stands for.
pub(crate) fn digit_value(digit: u8) -> u8
    requires { IsTrue (is_ascii_hexdigit digit) }
    ensures gives { result ≡ hex_digit digit }
    ensures small { result < 16 }
{
    match digit {
        b'0'..=b'9' => digit - b'0',
        b'a'..=b'f' => digit - b'a' + 10,
        _ => digit - b'A' + 10,
    }
}

/// The number that a word spells: decimal, behind a minus too, or hexadecimal behind `0x`; own. None exactly where it spells none.
#[tactic(auto, unfolding(crate::specs::Number::number_of))]
pub fn number_from(word: &[u8]) -> Option<i64>
    ensures { result ≡ number_of word.now }
{
    match word {
        [] => None,
        [b'-', digits @ ..] => negated(decimal_from(digits)),
        [b'0', b'x', digits @ ..] => widened(hexadecimal_from(digits)),
        _ => widened(decimal_from(word)),
    }
}

fn widened(number: Option<u64>) -> Option<i64>
    requires { IfSome number (λ n. n < 2 ^ 63) }
    ensures { result ≡ option_map pos number }
{
    match number {
        Some(number) => Some(number as i64),
        None => None,
    }
}

fn negated(number: Option<u64>) -> Option<i64>
    requires { IfSome number (λ n. n < 2 ^ 63) }
    ensures { result ≡ option_map (λ n. neg_ℤ (pos n)) number }
{
    match number {
        Some(number) => Some(-(number as i64)),
        None => None,
    }
}

/// The number that an argument of a call spells: one spelled out, or a name's; own. None exactly where it spells none.
#[tactic(auto, unfolding(crate::specs::Number::argument_of))]
pub fn argument_from(word: &[u8]) -> Option<i64>
    ensures { result ≡ argument_of word.now }
{
    match number_from(word) {
        Some(number) => Some(number),
        None => widened(named(word)),
    }
}

fn named(word: &[u8]) -> Option<u64>
    ensures gives { result ≡ number_named word.now }
    ensures small { IfSome result (λ number. number < 2 ^ 63) }
{
    match from_utf8(word) {
        Ok(name) => Some(u64::from(number_of_enum(name)?)),
        Err(_) => None,
    }
}

/// Whether a number lies between two others, or is one of them.
pub(crate) fn is_between(low: i64, high: i64, number: i64) -> bool
    ensures { result ≡ (int_le low number && int_le number high) }
{
    low <= number && number <= high
}
