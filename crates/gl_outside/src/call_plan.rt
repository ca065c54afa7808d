// Which calls of an object in memory fail. It knows nothing of what the calls move.
ghost use Rattle.std.specs.Prelude.{◌≡◌, ◌<◌, ◌^◌};
ghost use Rattle.gl_outside.specs.Memory.{fails_next, after_call};

use std::marker::Model;

/// The calls of one object: which fail, how many were made and how many failed.
#[derive(Drop)]
pub(crate) struct CallPlan {
    fails: Vec<u64>,
    made: u64,
    faults: u64,
}

impl Model for CallPlan {
    ghost use Rattle.std.specs.Prelude.{◌<◌, ◌^◌};
    ghost use Rattle.gl_outside.specs.Memory.{Plan};

    ghost Value = { Plan };

    ghost view = { λ p. record { fails = p.fails.items; made = p.made; faults = p.faults } };

    ghost invariant = { λ p. p.faults < 2 ^ 64 };
}

impl CallPlan {
    /// The calls with these numbers, from 0, are to fail, and none was made.
    pub(crate) fn new(fails: Vec<u64>) -> Self
        ensures { result ≡ record { fails = fails.items; made = 0; faults = 0 } }
    {
        CallPlan {
            fails,
            made: 0,
            faults: 0,
        }
    }

    /// Makes the next call, and says whether it fails.
    pub(crate) fn call_fails(&mut self) -> bool
        ensures in_range { self.old.faults < 2 ^ 64 }
        ensures fails { result ≡ fails_next self.old }
        ensures plan { self.new ≡ after_call self.old }
    {
        let fails = self.fails.contains(&self.made);
        self.made = self.made.saturating_add(1);
        if fails {
            self.faults = self.faults.saturating_add(1);
        }
        fails
    }

    /// How many calls failed. The count stands still at 2^64 - 1.
    pub(crate) fn faults(&self) -> u64
        ensures { result ≡ self.now.faults }
    {
        self.faults
    }
}
