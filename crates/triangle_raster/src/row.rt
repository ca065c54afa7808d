//! The fragments of one row of a triangle, one after the other.

ghost use Rattle.std.specs.Prelude.{◌≡◌, ◌+ℤ◌, ◌≤ℤ◌, pos, IfSome};
ghost use Rattle.triangle_raster.specs.Vertex.{IsFromTo};
ghost use Rattle.triangle_raster.specs.Held.{AreRates, IsShape};
ghost use Rattle.triangle_raster.specs.Row.{first, first_spot, numbers_from, pixels_at, rest, run_of};

use crate::fragment::{Fragment, Spot};
use crate::rates::Rates;
use crate::run::Run;
use crate::shaded::Shaded;
use crate::shape::Shape;
use crate::walk::Walk;
use std::marker::Model;

/// A row of a triangle. A contract sees it as the list of the fragments that are still to come. Own.
#[derive(Drop)]
pub struct Row {
    walk: Walk,
}

impl Model for Row {
    ghost use Rattle.std.specs.Prelude.{List};
    ghost use Rattle.triangle_raster.specs.declared.fragment.Fragment.{Fragment};

    ghost Value = { List Fragment };

    ghost use Rattle.triangle_raster.specs.Inside.{row_seen, IsRow};

    ghost view = { row_seen };

    ghost invariant = { IsRow };
}

impl Row {
    /// The row from column x on, of so many columns.
    pub(crate) fn from_column(shape: &Shape, rates: &Rates, y: i32, x: i32, count: u32) -> Row
        requires shape { IsShape shape.now }
        requires rates { AreRates shape.now rates.now }
        requires y { IsFromTo (pos 0) (pos 256) y }
        requires x { pos 0 ≤ℤ x }
        requires count { (x +ℤ pos count) ≤ℤ pos 256 }
        ensures { result ≡ pixels_at shape.now.corners shape.now.view y (numbers_from x count) }
    {
        Row {
            walk: Walk::from_column(shape, rates, y, x, count),
        }
    }

    /// Where the next fragment lies and its depth, before DepthRange; None where none is left. The fragment stays, and its
    /// values aren't made. Own.
    pub fn look(&mut self) -> Option<Spot>
        ensures next { result ≡ first_spot self.old }
        ensures same { self.new ≡ self.old }
    {
        let found = self.walk.seek();
        self.walk.spot(found)
    }

    /// Leaves out the next fragment, if one is left. Its values aren't made. Own.
    pub fn skip(&mut self)
        ensures left { self.new ≡ rest self.old }
    {
        if self.walk.seek().is_some() {
            self.walk.step();
        }
    }

    /// The next fragment, in rising x; None where none is left. Its depth is that before DepthRange. Section 3.5.1 of OpenGL ES
    /// 1.1.12, the order own.
    #[inline(always)]
    pub fn next(&mut self) -> Option<Fragment>
        ensures next { result ≡ first self.old }
        ensures left { self.new ≡ rest self.old }
    {
        match self.walk.seek() {
            Some(depth) => {
                let fragment = self.walk.fragment(depth);
                self.walk.step();
                Some(fragment)
            }
            None => None,
        }
    }

    /// The fragments that are left, one after the other without a search for each, where depth and the first N values are
    /// carried; None where they aren't, or where it isn't N that are. Own.
    #[inline(always)]
    pub fn shaded<const N: usize>(&self) -> Option<Shaded<N>>
        ensures { IfSome result (λ shaded. shaded ≡ self.now) }
    {
        Shaded::of_walk(&self.walk)
    }

    /// All fragments that are left, where depth and values are known to be the same in every column; None where that isn't
    /// known. Own.
    pub fn run(&self) -> Option<Run>
        ensures { IfSome result (λ run. self.now ≡ run_of run.first run.count) }
    {
        self.walk.run()
    }

    /// Whether values are carried from column to column, so that leaving a fragment out costs as much as making it. It says
    /// nothing of what the fragments are. Own.
    pub fn is_carried(&self) -> bool {
        self.walk.rates.carried
    }
}
