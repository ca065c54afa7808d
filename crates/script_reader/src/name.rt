//! The names of images.

ghost use Rattle.std.specs.Prelude.{◌≡◌, ◌↔◌, IsSome, IfSome, IsTrue};
ghost use Rattle.std.specs.List.{list_all};
ghost use Rattle.script_reader.specs.Name.{is_name, is_name_byte};

use arrayvec::ArrayVec;
use std::marker::Model;

/// 1 to 32 letters, digits, `-` and `_`; own. Contracts see the list of its bytes.
#[derive(Drop, Debug)]
pub struct Name {
    bytes: ArrayVec<u8, 32>,
}

impl Model for Name {
    ghost use Rattle.std.specs.Prelude.{List, ℕ, IsTrue};
    ghost use Rattle.script_reader.specs.Name.{is_name};

    ghost Value = { List ℕ };

    ghost view = { λ name. name.bytes.items };

    ghost invariant = { λ name. IsTrue (is_name name.bytes.items) };
}

impl Name {
    /// The name that a word spells. None exactly where it spells none. It takes no memory.
    pub fn from_word(word: &[u8]) -> Option<Name>
        ensures only { IsSome result ↔ IsTrue (is_name word.now) }
        ensures found { IfSome result (λ name. name ≡ word.now) }
    {
        if !is_name(word) {
            return None;
        }
        let mut bytes = ArrayVec::new();
        match bytes.try_extend_from_slice(word) {
            Ok(()) => Some(Name { bytes }),
            Err(_) => None,
        }
    }

    /// Its bytes, 1 to 32 of them.
    pub fn as_bytes(&self) -> &[u8]
        ensures bytes { result.now ≡ self.now }
        ensures name { IsTrue (is_name result.now) }
    {
        self.bytes.as_slice()
    }
}

fn is_name(word: &[u8]) -> bool
    ensures { result ≡ is_name word.now }
{
    !word.is_empty() && word.len() <= 32 && has_name_bytes(word)
}

fn has_name_bytes(word: &[u8]) -> bool
    ensures { result ≡ list_all is_name_byte word.now }
{
    word.iter().all(|byte| byte.is_ascii_alphanumeric() || *byte == b'-' || *byte == b'_')
}
