//! The colour of a fragment after the texture units, and the fragments of a row where units take part.

ghost use Rattle.std.specs.Prelude.{◌≡◌, All, false};
ghost use Rattle.fragment_ops.specs.Frame.{frame_changed};
ghost use Rattle.fragment_ops.specs.State.{AreWithinOne};
ghost use Rattle.triangle_draw.specs.Drawing.{IsDrawing};
ghost use Rattle.triangle_draw.specs.Fragments.{cell_after_all, cell_after_one, IsPlain, MultipliesAlone};
ghost use Rattle.triangle_draw.specs.Triangle.{textured_colour};

use crate::drawing::Drawing;
use crate::fragments::{colour_of, depth_between};
use crate::unit::{Unit, colour_after_unit};
use fragment_ops::{FragmentState, Frame};
use triangle_raster::{Fragment, Row, Shaded};

impl<'a> Drawing<'a> {
    /// Whether a texture unit takes part.
    pub(crate) fn has_units(&self) -> bool
        ensures { result ≡ false → IsPlain self.now }
    {
        self.first_unit.is_some() || self.second_unit.is_some()
    }

    /// The colour of a fragment after unit 0, whose coordinates are its values from 4 on, and then after unit 1, whose
    /// coordinates are those from 7 on.
    #[inline(always)]
    #[tactic(auto, unfolding(crate::specs::Triangle::textured_colour))]
    pub(crate) fn textured_colour(&self, fragment: &Fragment) -> [u8; 4]
        requires shades { AreWithinOne fragment.now.values }
        ensures { result ≡ textured_colour self.now fragment.now }
    {
        let plain = colour_of(fragment);
        let first = colour_after_unit(&self.first_unit, fragment, 4, plain);
        colour_after_unit(&self.second_unit, fragment, 7, first)
    }

    /// Puts a fragment with its colour after the units, or leaves it out where the depth test fails it: then no texel is read.
    #[inline(always)]
    fn put_visible(
        &self,
        range: [i32; 2],
        state: &FragmentState,
        fragment: &Fragment,
        frame: &mut Frame,
    )
        requires drawing { IsDrawing self.now }
        requires range { range ≡ self.now.depth_range }
        requires state { state.now ≡ self.now.fragments }
        requires shades { AreWithinOne fragment.now.values }
        ensures { frame.new ≡ frame_changed (cell_after_one self.now fragment.now) frame.old }
    {
        let depth = depth_between(range, fragment.depth);
        if frame.hides(state, fragment.x, fragment.y, depth) {
            return;
        }
        let colour = self.textured_colour(fragment);
        frame.put(state, fragment.x, fragment.y, depth, colour);
    }

    /// The same colour, where unit 0 takes part alone, and multiplies.
    #[inline(always)]
    fn multiplied_colour(&self, unit: &Unit, fragment: &Fragment) -> [u8; 4]
        requires alone { MultipliesAlone self.now unit.now }
        requires shades { AreWithinOne fragment.now.values }
        ensures { result ≡ textured_colour self.now fragment.now }
    {
        let plain = colour_of(fragment);
        unit.multiplied(fragment, plain)
    }

    /// The same of a fragment, where unit 0 takes part alone, and multiplies.
    #[inline(always)]
    fn put_multiplied(
        &self,
        unit: &Unit,
        range: [i32; 2],
        state: &FragmentState,
        fragment: &Fragment,
        frame: &mut Frame,
    )
        requires drawing { IsDrawing self.now }
        requires alone { MultipliesAlone self.now unit.now }
        requires range { range ≡ self.now.depth_range }
        requires state { state.now ≡ self.now.fragments }
        requires shades { AreWithinOne fragment.now.values }
        ensures { frame.new ≡ frame_changed (cell_after_one self.now fragment.now) frame.old }
    {
        let depth = depth_between(range, fragment.depth);
        if frame.hides(state, fragment.x, fragment.y, depth) {
            return;
        }
        let colour = self.multiplied_colour(unit, fragment);
        frame.put(state, fragment.x, fragment.y, depth, colour);
    }

    /// Puts the fragments of a row whose depth and first N values are carried, one after the other, where unit 0 takes part alone,
    /// and multiplies: there is nothing to choose in each.
    #[inline(never)]
    fn put_each_multiplied<const N: usize>(&self, unit: &Unit, row: Shaded<N>, frame: &mut Frame)
        requires drawing { IsDrawing self.now }
        requires alone { MultipliesAlone self.now unit.now }
        requires shades { All (λ f. AreWithinOne f.values) row }
        ensures { frame.new ≡ frame_changed (cell_after_all self.now row.entry)
            frame.old }
    {
        let range = self.depth_range;
        let state = self.fragments;
        let mut left = row;
        while let Some(fragment) = left.next() {
            self.put_multiplied(unit, range, &state, &fragment, frame);
        }
    }

    /// Puts the fragments of a row whose depth and first N values are carried: which loop they take is asked once.
    fn put_shaded_by_units<const N: usize>(&self, row: Shaded<N>, frame: &mut Frame)
        requires drawing { IsDrawing self.now }
        requires shades { All (λ f. AreWithinOne f.values) row }
        ensures { frame.new ≡ frame_changed (cell_after_all self.now row.entry)
            frame.old }
    {
        if self.second_unit.is_some() {
            return self.put_mapped(row, frame);
        }
        match &self.first_unit {
            Some(unit) => {
                if unit.is_multiplier() {
                    self.put_each_multiplied(unit, row, frame)
                } else {
                    self.put_mapped(row, frame)
                }
            }
            None => self.put_mapped(row, frame),
        }
    }

    /// Puts the fragments of a row whose depth and first N values are carried, one after the other, each with its colour after the
    /// units. What stays the same in each is taken out of memory once.
    #[inline(never)]
    fn put_mapped<const N: usize>(&self, row: Shaded<N>, frame: &mut Frame)
        requires drawing { IsDrawing self.now }
        requires shades { All (λ f. AreWithinOne f.values) row }
        ensures { frame.new ≡ frame_changed (cell_after_all self.now row.entry)
            frame.old }
    {
        let range = self.depth_range;
        let state = self.fragments;
        let mut left = row;
        while let Some(fragment) = left.next() {
            self.put_visible(range, &state, &fragment, frame);
        }
    }

    /// Puts the fragments of a row whose values are carried, one after the other, each with its colour after the units.
    #[inline(never)]
    fn put_sampled(&self, row: Row, frame: &mut Frame)
        requires drawing { IsDrawing self.now }
        requires shades { All (λ f. AreWithinOne f.values) row }
        ensures { frame.new ≡ frame_changed (cell_after_all self.now row) frame.old }
    {
        let mut left = row;
        while let Some(fragment) = left.next() {
            self.put_visible(self.depth_range, &self.fragments, &fragment, frame);
        }
    }

    /// Puts the fragments of a row whose values are carried: by coordinates of unit 0 alone without a q of their own, with one,
    /// by those of both units, and else by whatever moves.
    fn put_carried(&self, row: Row, frame: &mut Frame)
        requires drawing { IsDrawing self.now }
        requires shades { All (λ f. AreWithinOne f.values) row }
        ensures { frame.new ≡ frame_changed (cell_after_all self.now row) frame.old }
    {
        if let Some(mapped) = row.shaded::<6>() {
            return self.put_shaded_by_units(mapped, frame);
        }
        if let Some(mapped) = row.shaded::<7>() {
            return self.put_shaded_by_units(mapped, frame);
        }
        match row.shaded::<10>() {
            Some(mapped) => self.put_shaded_by_units(mapped, frame),
            None => self.put_sampled(row, frame),
        }
    }

    /// Puts the fragments of a row where units take part: each where a look would cost as much as its values, and else those
    /// that the depth test doesn't fail.
    pub(crate) fn put_textured(&self, row: Row, frame: &mut Frame)
        requires drawing { IsDrawing self.now }
        requires shades { All (λ f. AreWithinOne f.values) row }
        ensures { frame.new ≡ frame_changed (cell_after_all self.now row) frame.old }
    {
        if row.is_carried() {
            self.put_carried(row, frame)
        } else {
            self.put_seen(row, frame)
        }
    }
}
