// The real standard input. What it gives no clause says: this file is trusted, with its one test.
ghost use Rattle.std.specs.Prelude.{◌≡◌, ℕ, ◌≤◌, ◌<◌, ◌^◌, length, take, IfOk, OnOk, OnErr};
ghost use Rattle.gl_outside.specs.Faults.{Rose, one_more};
ghost use Rattle.gl_outside.specs.Moved.{Takes, IsAtEnd, untold};

use crate::{Failed, Source};
use std::io::{self, ErrorKind, Read};
use std::marker::Model;

/// The standard input of a runtime, seen as its count of faults. It tells nothing of what is left.
#[derive(Drop)]
pub struct StdinSource<R: Input> {
    reader: R::Reader,
    faults: u64,
}

impl<R: Input> Model for StdinSource<R> {
    ghost use Rattle.std.specs.Prelude.{ℕ, ◌<◌, ◌^◌};

    ghost Value = { ℕ };

    ghost view = { λ s. s.faults };

    ghost invariant = { λ s. s.faults < 2 ^ 64 };
}

impl<R: Input> StdinSource<R> {
    /// No read failed yet.
    pub fn new(rt: &R) -> Self
        ensures { result ≡ 0 }
    {
        StdinSource {
            reader: rt.reader(),
            faults: 0,
        }
    }
}

#[tactic(auto, unfolding(crate::specs::Moved::Takes))]
impl<R: Input> Source for StdinSource<R> {
    ghost left = { λ _. untold };

    ghost faults = { λ s. s };

    fn read(&mut self, buf: &mut [u8]) -> Result<usize, Failed>
        requires { 0 < length buf.old }
        ensures ok { IfOk result (λ n. Takes {X = ℕ} untold untold (take n buf.new)) }
        ensures within { IfOk result (λ n. n ≤ length buf.old) }
        ensures end { IfOk result (λ n. n ≡ 0 → IsAtEnd {X = ℕ} untold) }
        ensures kept { OnOk result (self.new ≡ self.old) }
        ensures failed { OnErr result (Rose self.old self.new) }
        ensures err { OnErr result (untold {X = ℕ} ≡ untold) }
        ensures count { self.old ≤ self.new }
        ensures range { self.new < 2 ^ 64 }

        // What this form does beyond what a source owes: what failed is counted once.
        ensures counted { OnErr result (self.new ≡ one_more self.old) }
    {
        match read_uninterrupted(&mut self.reader, buf) {
            Ok(n) => Ok(n),
            Err(_) => {
                self.faults = self.faults.saturating_add(1);
                Err(Failed)
            }
        }
    }
}

/// Reads once, and again where a signal came between.
fn read_uninterrupted<T: Read>(reader: &mut T, buf: &mut [u8]) -> io::Result<usize>
    ensures { IfOk result (λ n. n ≤ length buf.old) }
{
    for _ in 0..u64::MAX {
        match reader.read(buf) {
            Err(error) if error.kind() == ErrorKind::Interrupted => {}
            answer => return answer,
        }
    }
    Err(io::Error::from(ErrorKind::Interrupted))
}
