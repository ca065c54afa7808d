// A source in memory that never fails. It gives no byte back.
ghost use Rattle.std.specs.Prelude.{◌≡◌, ◌<◌, ◌≤◌, ◌++◌, [], take, length, min, IfOk};
ghost use Rattle.gl_outside.specs.Moved.{Takes};

use crate::{Failed, Source};
use std::marker::Model;

/// A source in memory whose reads never fail, seen as the bytes that are left.
#[derive(Drop)]
pub struct SureSource {
    content: Vec<u8>,
    at: usize,
}

impl Model for SureSource {
    ghost use Rattle.std.specs.Prelude.{ℕ, List, ◌≤◌, drop, length};

    ghost Value = { List ℕ };

    ghost view = { λ s. drop s.at s.content.items };

    ghost invariant = { λ s. s.at ≤ length s.content.items };
}

impl SureSource {
    /// Nothing of this content was read.
    pub fn new(content: Vec<u8>) -> Self
        ensures { result ≡ content.items }
    {
        SureSource { content, at: 0 }
    }

    /// The bytes that are left.
    pub fn rest(&self) -> &[u8]
        ensures { result.now ≡ self.now }
    {
        self.content.split_at(self.at).1
    }

    /// Moves as many bytes as there are and as fit to the front of `buf`, and says how many.
    pub(crate) fn fill(&mut self, buf: &mut [u8]) -> usize
        ensures moved { self.old ≡ take result buf.new ++ self.new }
        ensures count { result ≡ min (length buf.old) (length self.old) }
    {
        let rest = self.content.split_at(self.at).1;
        let n = buf.len().min(rest.len());
        buf[..n].copy_from_slice(rest.split_at(n).0);
        self.at += n;
        n
    }
}

#[tactic(auto, unfolding(crate::specs::Moved::Takes))]
impl Source for SureSource {
    ghost use Rattle.std.specs.Prelude.{Some};

    ghost left = { λ s. Some s };

    ghost faults = { λ _. 0 };

    fn read(&mut self, buf: &mut [u8]) -> Result<usize, Failed>
        requires { 0 < length buf.old }
        ensures ok { IfOk result (λ n. Takes (Some self.old) (Some self.new) (take n buf.new)) }
        ensures within { IfOk result (λ n. n ≤ length buf.old) }
        ensures end { IfOk result (λ n. n ≡ 0 → self.new ≡ []) }

        // What this form does beyond what a source owes.
        ensures sure { result ≡ Ok (min (length buf.old) (length self.old)) }
    {
        Ok(self.fill(buf))
    }
}
