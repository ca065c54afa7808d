//! Reading the calls back that slots spell. A reader holds slots that are known to be spellings.

ghost use Rattle.std.specs.Prelude.{◌≡◌, List, ◌∷◌, [], IfOk, IsErr, Ok, MatchOption, IfNone, IfSome};
ghost use Rattle.batch_pack.specs.Spelling.{Spelled, spellings_of, HasSpelling, HaveSpellings, AreSpellings};
ghost use Rattle.batch_pack.specs.Decoding.{calls_in};
ghost use Rattle.batch_pack.specs.Holding.{AreReadable};

use crate::decoder::first_packed;
use crate::fault::BadSlots;
use crate::packed::Packed;
use std::marker::Model;

/// Gives the calls that slots spell with their segments, in order; own. Contracts see those that are still to come.
#[derive(Drop)]
pub struct Reader<'a> {
    slots: &'a [u64],
}

impl<'a> Model for Reader<'a> {
    ghost use Rattle.std.specs.Prelude.{List};
    ghost use Rattle.batch_pack.specs.Spelling.{Spelled};
    ghost use Rattle.batch_pack.specs.Decoding.{calls_in};
    ghost use Rattle.batch_pack.specs.Holding.{AreReadable};

    ghost Value = { List Spelled };

    ghost view = { λ r. calls_in r.slots.now };

    ghost invariant = { λ r. AreReadable r.slots.now };
}

impl<'a> Reader<'a> {
    /// The next call with its segments, which is then no longer to come. None exactly at the end.
    pub fn next(&mut self) -> Option<Packed<'a>>
        ensures next { MatchOption result (self.old ≡ [])
            (λ packed. self.old
            ≡ record { call = packed.call; segments = packed.memory } ∷ self.new) }
        ensures spelling { IfSome result
            (λ packed. HasSpelling (record { call = packed.call; segments = packed.memory })) }
        ensures end { IfNone result (self.new ≡ self.old) }
    {
        let (packed, left) = first_packed(self.slots)?;
        self.slots = left;
        Some(packed)
    }
}

/// A reader of these slots. Refused exactly where they are no list of spellings.
pub fn parse(slots: &[u64]) -> Result<Reader<'_>, BadSlots>
    ensures found { IfOk result
        (λ calls. HaveSpellings calls × (slots.now ≡ spellings_of calls)) }
    ensures only { (calls : List Spelled) → HaveSpellings calls → slots.now ≡ spellings_of calls
        → result ≡ Ok calls }
    ensures bad { IsErr result → ¬ AreSpellings slots.now }
{
    let mut rest = slots;
    'calls: while !rest.is_empty() {
        match first_packed(rest) {
            Some((_, left)) => rest = left,
            None => return Err(BadSlots),
        }
    }
    Ok(Reader { slots })
}

/// A reader of slots that are known to be spellings.
pub(crate) fn reader_of(slots: &[u64]) -> Reader<'_>
    requires { AreReadable slots.now }
    ensures { result ≡ calls_in slots.now }
{
    Reader { slots }
}
