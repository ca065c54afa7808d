//! The fragments of a row whose depth and first values are carried. No column is looked for, since each that is left has a
//! fragment, and the loop over values has a known end, so that what goes along stays in registers.

ghost use Rattle.std.specs.Prelude.{◌≡◌, IfSome};
ghost use Rattle.triangle_raster.specs.Held.{walk_seen, IsWalk};
ghost use Rattle.triangle_raster.specs.Row.{first, rest};

use crate::fragment::Fragment;
use crate::walk::Walk;
use std::marker::Model;

/// What is left of a row where depth and the first N values are carried: 4 are most triangles' colours, 6 and 7 are those with the
/// coordinates of unit 0, and 10 are all. A contract sees it as the list of the fragments that are still to come, as it does a
/// `Row`. Own.
#[derive(Drop)]
pub struct Shaded<const N: usize> {
    walk: Walk,
}

impl<const N: usize> Model for Shaded<N> {
    ghost use Rattle.std.specs.Prelude.{List};
    ghost use Rattle.triangle_raster.specs.declared.fragment.Fragment.{Fragment};

    ghost Value = { List Fragment };

    ghost use Rattle.triangle_raster.specs.Held.{walk_seen};
    ghost use Rattle.triangle_raster.specs.InsideShaded.{IsShaded};

    ghost view = { λ s. walk_seen s.walk };

    ghost invariant = { λ s. IsShaded N s.walk };
}

impl<const N: usize> Shaded<N> {
    /// What a walk has left, where depth and N values are carried.
    #[inline(always)]
    pub(crate) fn of_walk(walk: &Walk) -> Option<Shaded<N>>
        requires { IsWalk walk.now }
        ensures { IfSome result (λ shaded. shaded ≡ walk_seen walk.now) }
    {
        if walk.rates.carried && walk.rates.moving == N {
            Some(Shaded { walk: *walk })
        } else {
            None
        }
    }

    /// The next fragment, in rising x; None where none is left. Its depth is that before DepthRange. Section 3.5.1 of OpenGL ES
    /// 1.1.12, the order own.
    #[inline(always)]
    pub fn next(&mut self) -> Option<Fragment>
        ensures next { result ≡ first self.old }
        ensures left { self.new ≡ rest self.old }
    {
        if self.walk.left == 0 {
            return None;
        }
        let fragment = self.walk.carried();
        self.walk.step_first(N);
        Some(fragment)
    }
}
