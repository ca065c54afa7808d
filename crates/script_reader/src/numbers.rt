//! The numbers of one line.

ghost use Rattle.std.specs.Prelude.{◌≡◌, ℕ, ◌<◌, ◌≤◌, List, [], ◌∷◌, ◌++◌, ℤ, length, take};
ghost use Rattle.script_reader.specs.Cutting.{words_of};
ghost use Rattle.script_reader.specs.Judged.{numbers_of};

use crate::number::number_from;
use crate::words::next_word;
use std::marker::Model;

/// The most arguments that a call has.
pub(crate) const MOST_NUMBERS: usize = 9;

/// The numbers of one line, at most nine, in order.
#[derive(Drop)]
pub(crate) struct Numbers {
    items: [i64; 9],
    count: usize,
}

impl Model for Numbers {
    ghost Value = { List ℤ };

    ghost view = { λ a. take a.count a.items };

    ghost invariant = { λ a. a.count ≤ 9 };
}

impl Numbers {
    pub(crate) fn new() -> Numbers
        ensures { result ≡ [] }
    {
        Numbers {
            items: [0; 9],
            count: 0,
        }
    }

    pub(crate) fn push(&mut self, number: i64)
        requires { length self.old < 9 }
        ensures { self.new ≡ self.old ++ number ∷ [] }
    {
        self.items[self.count] = number;
        self.count += 1;
    }

    pub(crate) fn as_slice(&self) -> &[i64]
        ensures { result.now ≡ self.now }
    {
        &self.items[..self.count]
    }
}

/// The numbers that words spell, if each spells one.
pub(crate) fn numbers_from(text: &[u8]) -> Option<Numbers>
    requires { length (words_of text.now) ≤ 9 }
    ensures { result ≡ numbers_of (words_of text.now) }
{
    let mut numbers = Numbers::new();
    let mut rest = text;
    while let Some((word, after)) = next_word(rest) {
        let Some(number) = number_from(word) else {
            return None;
        };
        numbers.push(number);
        rest = after;
    }
    Some(numbers)
}
