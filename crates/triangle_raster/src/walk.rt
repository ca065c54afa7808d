//! A walk along the covered columns of a row.

ghost use Rattle.std.specs.Prelude.{◌≡◌, ◌<◌, ◌+ℤ◌, ◌≤ℤ◌, pos, [], ◌∷◌, false, true, Some, IsNone, IfSome};
ghost use Rattle.std.specs.List.{cons_option};
ghost use Rattle.triangle_raster.specs.Vertex.{IsFromTo};
ghost use Rattle.triangle_raster.specs.Held.{alike_at, depth_at, spot_at, walk_seen, weights_here, AreColumns, AreNearSums, AreRates, AreSumsAt, IsReadied, IsShape, IsWalk};
ghost use Rattle.triangle_raster.specs.Pixel.{pixel_of};
ghost use Rattle.triangle_raster.specs.Row.{numbers_from, pixels_at, run_of};
ghost use Rattle.triangle_raster.specs.Shaded.{CarriesFirst};

use crate::carry::{Carries, LongCarry};
use crate::columns::Columns;
use crate::fragment::{Fragment, Spot, depth_at, kept_at};
use crate::rates::Rates;
use crate::run::Run;
use crate::shape::Shape;
use crate::sums::Sums;

/// The column that is next, how many are left with it, and the depth there. Where depth and values are carried, their
/// quotients there; and else the sums.
#[derive(Clone, Copy)]
pub struct Walk {
    pub shape: Shape,
    pub rates: Rates,
    pub y: i32,
    pub x: i32,
    pub left: u32,
    pub sums: Sums,
    pub carries: Carries,
    pub depth: LongCarry,
    pub found: Option<u16>,
}

impl Walk {
    /// The walk from column x on, of so many columns. Those that aren't covered are left out, and the sums in the first
    /// are found by multiplication.
    pub fn from_column(shape: &Shape, rates: &Rates, y: i32, x: i32, count: u32) -> Walk
        requires shape { IsShape shape.now }
        requires rates { AreRates shape.now rates.now }
        requires y { IsFromTo (pos 0) (pos 256) y }
        requires x { pos 0 ≤ℤ x }
        requires count { (x +ℤ pos count) ≤ℤ pos 256 }
        ensures holds { IsWalk result }
        ensures seen { walk_seen result
            ≡ pixels_at shape.now.corners shape.now.view y (numbers_from x count) }
    {
        let columns = Columns::covered(shape, y, x, count);
        let sums = shape.sums_at(columns.x, y);
        match Walk::carrying(shape, rates, y, columns, &sums) {
            Some(walk) => walk,
            None => Walk::finding(shape, rates, y, columns, &sums),
        }
    }

    /// The walk over these columns, by sums.
    fn finding(shape: &Shape, rates: &Rates, y: i32, columns: Columns, sums: &Sums) -> Walk
        requires shape { IsShape shape.now }
        requires rates { AreRates shape.now rates.now }
        requires y { IsFromTo (pos 0) (pos 256) y }
        requires columns { AreColumns shape.now y columns }
        requires sums { AreSumsAt shape.now columns.x y sums.now }
        requires near { AreNearSums sums.now }
        ensures holds { IsWalk result }
        ensures seen { walk_seen result
            ≡ pixels_at shape.now.corners shape.now.view y (numbers_from columns.x columns.left) }
    {
        Walk {
            shape: *shape,
            rates: Rates {
                level: rates.level,
                moving: rates.moving,
                carried: false,
                steps: rates.steps,
            },
            y,
            x: columns.x,
            left: columns.left,
            sums: *sums,
            carries: Carries::none(),
            depth: LongCarry {
                quotient: 0,
                remainder: 0,
            },
            found: depth_at(&shape.corners, sums),
        }
    }

    /// The walk over these columns, if depth and values are carried there.
    fn carrying(shape: &Shape, rates: &Rates, y: i32, columns: Columns, sums: &Sums) -> Option<Walk>
        requires shape { IsShape shape.now }
        requires rates { AreRates shape.now rates.now }
        requires y { IsFromTo (pos 0) (pos 256) y }
        requires columns { AreColumns shape.now y columns }
        requires sums { AreSumsAt shape.now columns.x y sums.now }
        requires near { AreNearSums sums.now }
        ensures holds { IfSome result IsWalk }
        ensures seen { IfSome result (λ walk. walk_seen walk
            ≡ pixels_at shape.now.corners shape.now.view y (numbers_from columns.x columns.left)) }
    {
        if !rates.carried || columns.left == 0 {
            return None;
        }
        let corners = &shape.corners;
        let z = sums.weighted(corners[0].z, corners[1].z, corners[2].z);
        let w = sums.weighted(corners[0].w, corners[1].w, corners[2].w);
        let carries = Carries::of_sums(corners, sums, rates.moving, rates.steps.whole)?;
        let depth = LongCarry::of_depth(z, w, rates.steps.divisor)?;
        Some(Walk {
            shape: *shape,
            rates: *rates,
            y,
            x: columns.x,
            left: columns.left,
            sums: *sums,
            carries,
            depth,
            found: Some(depth.quotient as u16),
        })
    }

    /// Finds depth and sums in the column after the next one.
    #[inline(never)]
    fn find(&mut self)
        requires holds { IsWalk self.old }
        requires more { 1 < self.old.left }
        requires sums { self.old.rates.carried ≡ false }
        ensures { IsReadied self.old self.new }
    {
        self.sums = self.shape.next_sums(&self.sums);
        self.found = self
            .shape
            .next_depth(self.rates.level, self.found, &self.sums);
    }

    /// Carries depth and so many values, all that move, to the column after the next one.
    #[inline(always)]
    fn carry(&mut self, moving: usize)
        requires holds { IsWalk self.old }
        requires more { 1 < self.old.left }
        requires carried { self.old.rates.carried ≡ true }
        requires moving { moving ≡ self.old.rates.moving }
        ensures { IsReadied self.old self.new }
    {
        self.carries
            .step(&self.rates.steps.values, moving, self.rates.steps.whole);
        self.depth = self
            .depth
            .stepped(self.rates.steps.depth, self.rates.steps.divisor);
        self.found = Some(self.depth.quotient as u16);
    }

    /// Makes it ready for the column after the next one, if there is one.
    #[inline(always)]
    fn ready(&mut self)
        requires holds { IsWalk self.old }
        requires some { 0 < self.old.left }
        ensures { IsReadied self.old self.new }
    {
        if self.left > 1 {
            if self.rates.carried {
                self.carry(self.rates.moving);
            } else {
                self.find();
            }
        }
    }

    /// Leaves the next column behind.
    #[inline(always)]
    pub fn step(&mut self)
        requires holds { IsWalk self.old }
        requires some { 0 < self.old.left }
        ensures holds { IsWalk self.new }
        ensures left { self.new.left < self.old.left }
        ensures seen { walk_seen self.old ≡ cons_option
            (pixel_of self.old.shape.corners self.old.shape.view self.old.x self.old.y)
            (walk_seen self.new) }
    {
        self.ready();
        self.x += 1;
        self.left -= 1;
    }

    /// Makes it ready for the column after the next one, if there is one, where depth and so many values are carried.
    #[inline(always)]
    fn ready_first(&mut self, moving: usize)
        requires holds { IsWalk self.old }
        requires some { 0 < self.old.left }
        requires first { CarriesFirst moving self.old.rates }
        ensures { IsReadied self.old self.new }
    {
        if self.left > 1 {
            self.carry(moving);
        }
    }

    /// Leaves the next column behind, where depth and so many values are carried.
    #[inline(always)]
    pub fn step_first(&mut self, moving: usize)
        requires holds { IsWalk self.old }
        requires some { 0 < self.old.left }
        requires first { CarriesFirst moving self.old.rates }
        ensures holds { IsWalk self.new }
        ensures first { CarriesFirst moving self.new.rates }
        ensures seen { walk_seen self.old ≡ cons_option
            (pixel_of self.old.shape.corners self.old.shape.view self.old.x self.old.y)
            (walk_seen self.new) }
    {
        self.ready_first(moving);
        self.x += 1;
        self.left -= 1;
    }

    /// The same of a column with no fragment, which are few.
    #[cold]
    #[inline(never)]
    fn pass(&mut self)
        requires holds { IsWalk self.old }
        requires some { 0 < self.old.left }
        ensures holds { IsWalk self.new }
        ensures left { self.new.left < self.old.left }
        ensures seen { walk_seen self.old ≡ cons_option
            (pixel_of self.old.shape.corners self.old.shape.view self.old.x self.old.y)
            (walk_seen self.new) }
    {
        self.step();
    }

    /// Goes to the next column with a fragment, and gives its depth; None where none is left.
    #[inline(always)]
    pub fn seek(&mut self) -> Option<u16>
        requires holds { IsWalk self.old }
        ensures holds { IsWalk self.new }
        ensures seen { walk_seen self.new ≡ walk_seen self.old }
        ensures none { IsNone result → walk_seen self.new ≡ [] }
        ensures some { IfSome result (λ depth. (0 < self.new.left)
            × (depth_at self.new.shape.corners (weights_here self.new) ≡ Some depth)) }
    {
        while self.left > 0 {
            if self.found.is_some() {
                return self.found;
            }
            self.pass();
        }
        None
    }

    /// The place of the next column with this depth, if one was found there.
    pub fn spot(&self, found: Option<u16>) -> Option<Spot>
        ensures { result ≡ spot_at self.now.x self.now.y found }
    {
        match found {
            Some(depth) => Some(Spot {
                x: self.x,
                y: self.y,
                depth,
            }),
            None => None,
        }
    }

    /// The fragment in the next column, which is kept at this depth.
    #[inline(always)]
    pub fn fragment(&self, depth: u16) -> Fragment
        requires holds { IsWalk self.now }
        requires some { 0 < self.now.left }
        requires kept { depth_at self.now.shape.corners (weights_here self.now) ≡ Some depth }
        ensures { Some result
            ≡ pixel_of self.now.shape.corners self.now.shape.view self.now.x self.now.y }
    {
        if self.rates.carried {
            let x = self.x;
            let y = self.y;
            Fragment {
                x,
                y,
                depth,
                values: self.carries.values,
            }
        } else {
            kept_at(&self.shape.corners, &self.sums, self.x, self.y, depth)
        }
    }

    /// The fragment in the next column, where depth and values are carried: there is one in each.
    #[inline(always)]
    pub fn carried(&self) -> Fragment
        requires holds { IsWalk self.now }
        requires some { 0 < self.now.left }
        requires carried { self.now.rates.carried ≡ true }
        ensures kept { depth_at self.now.shape.corners (weights_here self.now)
            ≡ Some result.depth }
        ensures pixel { Some result
            ≡ pixel_of self.now.shape.corners self.now.shape.view self.now.x self.now.y }
    {
        let x = self.x;
        let y = self.y;
        Fragment {
            x,
            y,
            depth: self.depth.quotient as u16,
            values: self.carries.values,
        }
    }

    /// A run from the next column on, of so many fragments with this depth and the values of the first corner.
    fn alike(&self, depth: u16, count: u32) -> Run
        requires holds { IsWalk self.now }
        ensures first { result.first ≡ alike_at self.now depth }
        ensures count { result.count ≡ count }
    {
        let x = self.x;
        let y = self.y;
        Run {
            first: Fragment {
                x,
                y,
                depth,
                values: self.shape.corners[0].values,
            },
            count,
        }
    }

    /// The fragments that are left, where depth and values are known to be the same in every column.
    pub fn run(&self) -> Option<Run>
        requires holds { IsWalk self.now }
        ensures { IfSome result (λ run. walk_seen self.now ≡ run_of run.first run.count) }
    {
        if !self.rates.level || self.rates.moving > 0 {
            return None;
        }
        match self.found {
            Some(depth) => Some(self.alike(depth, self.left)),
            None => Some(self.alike(0, 0)),
        }
    }
}
