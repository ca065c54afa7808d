//! Words as bytes, two hexadecimal digits a byte.

ghost use Rattle.std.specs.Prelude.{◌≡◌, IfOk, IsTrue};
ghost use Rattle.script_reader.specs.Hex.{are_pairs, paired, in_their_room};

use crate::number::{all_hexadecimal, digit_value};
use gl_memory::Octets;
use std::alloc::{AllocError, Global};

/// Whether a word is one or more pairs of hexadecimal digits; own.
pub fn is_hex(word: &[u8]) -> bool
    ensures { result ≡ are_pairs word.now }
{
    !word.is_empty() && word.len() % 2 == 0 && all_hexadecimal(word)
}

/// The bytes that pairs of digits spell. It takes memory for just so many.
pub(crate) fn octets_from(alloc: Global, digits: &[u8]) -> Result<Octets, AllocError>
    requires { IsTrue (are_pairs digits.now) }
    ensures { IfOk result (λ octets. octets ≡ in_their_room (paired digits.now)) }
{
    let mut octets = Octets::new(alloc, (digits.len() / 2) as u64)?;
    let mut rest = digits;
    while let [high, low, after @ ..] = rest {
        octets.push(16 * digit_value(*high) + digit_value(*low));
        rest = after;
    }
    Ok(octets)
}
