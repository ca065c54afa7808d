//! What a fragment brings to its place, and the fragments of a row. What texture units make of a colour isn't told here.

ghost use Rattle.std.specs.Prelude.{◌≡◌, Some, All};
ghost use Rattle.triangle_raster.specs.declared.fragment.Fragment.{Fragment};
ghost use Rattle.triangle_raster.specs.Row.{first_spot, fragments_of, rest, run_of};
ghost use Rattle.fragment_ops.specs.Frame.{frame_changed};
ghost use Rattle.fragment_ops.specs.State.{number_at, AreWithinOne, IsWithinOne};
ghost use Rattle.triangle_draw.specs.Drawing.{IsDrawing};
ghost use Rattle.triangle_draw.specs.Fragments.{cell_after_all, cell_after_one, IsPlain};
ghost use Rattle.triangle_draw.specs.Triangle.{colour_of, depth_between};

use crate::drawing::Drawing;
use fragment_ops::{Frame, byte};
use triangle_raster::{Fragment, Row, Run, Setup, Shaded, Spot};

/// A depth between those of the near and the far plane: 0 becomes that of the near one, 65535 that of the far one.
#[inline(always)]
#[tactic(auto, unfolding(crate::specs::Triangle::depth_between))]
pub(crate) fn depth_between(range: [i32; 2], depth: u16) -> u16
    requires near { IsWithinOne (number_at range 0) }
    requires far { IsWithinOne (number_at range 1) }
    ensures { result ≡ depth_between range depth }
{
    let near = u64::from(range[0].unsigned_abs());
    let far = u64::from(range[1].unsigned_abs());
    let depth = u64::from(depth);
    ((near * (65535 - depth) + far * depth) / 65536) as u16
}

/// The colour of a fragment before the texture units, in bytes: its first four values.
#[inline(always)]
#[tactic(auto, unfolding(crate::specs::Triangle::colour_of))]
pub(crate) fn colour_of(fragment: &Fragment) -> [u8; 4]
    requires shades { AreWithinOne fragment.now.values }
    ensures { result ≡ colour_of fragment.now }
{
    let values = &fragment.values;
    [
        byte(values[0]),
        byte(values[1]),
        byte(values[2]),
        byte(values[3]),
    ]
}

impl<'a> Drawing<'a> {
    /// Puts the first fragment of a row, which lies at a spot, or leaves it out where the depth test fails it: then its
    /// values aren't made.
    fn put_first(&self, spot: Spot, row: &mut Row, frame: &mut Frame)
        requires drawing { IsDrawing self.now }
        requires spot { Some spot ≡ first_spot row.old }
        requires shades { All (λ f. AreWithinOne f.values) row.old }
        ensures row { row.new ≡ rest row.old }
        ensures frame { frame_changed (cell_after_all self.now row.new) frame.new
            ≡ frame_changed (cell_after_all self.now row.old) frame.old }
    {
        let depth = depth_between(self.depth_range, spot.depth);
        if frame.hides(&self.fragments, spot.x, spot.y, depth) {
            row.skip();
            return;
        }
        if let Some(fragment) = row.next() {
            let colour = self.textured_colour(&fragment);
            frame.put(&self.fragments, spot.x, spot.y, depth, colour);
        }
    }

    /// Puts the fragments of a run: depth and colour are made once.
    fn put_run(&self, run: &Run, frame: &mut Frame)
        requires drawing { IsDrawing self.now }
        requires shades { All (λ f. AreWithinOne f.values) (run_of run.now.first run.now.count) }
        ensures { frame.new ≡ frame_changed (cell_after_all self.now
            (run_of run.now.first run.now.count)) frame.old }
    {
        if run.count == 0 {
            return;
        }
        let first = &run.first;
        let depth = depth_between(self.depth_range, first.depth);
        let colour = self.textured_colour(first);
        frame.put_run(&self.fragments, first.x, first.y, run.count, depth, colour);
    }

    /// Puts the fragments of a row, one after the other, and leaves out those that the depth test fails.
    #[inline(never)]
    pub(crate) fn put_seen(&self, row: Row, frame: &mut Frame)
        requires drawing { IsDrawing self.now }
        requires shades { All (λ f. AreWithinOne f.values) row }
        ensures { frame.new ≡ frame_changed (cell_after_all self.now row) frame.old }
    {
        let mut left = row;
        while let Some(spot) = left.look() {
            self.put_first(spot, &mut left, frame);
        }
    }

    /// Puts a fragment, where no unit takes part.
    #[inline(always)]
    fn put_one(&self, fragment: &Fragment, frame: &mut Frame)
        requires drawing { IsDrawing self.now }
        requires plain { IsPlain self.now }
        requires shades { AreWithinOne fragment.now.values }
        ensures { frame.new ≡ frame_changed (cell_after_one self.now fragment.now) frame.old }
    {
        let depth = depth_between(self.depth_range, fragment.depth);
        let colour = colour_of(fragment);
        frame.put(&self.fragments, fragment.x, fragment.y, depth, colour);
    }

    /// Puts the fragments of a row, one after the other, each with its values, where no unit takes part.
    #[inline(never)]
    fn put_each(&self, row: Row, frame: &mut Frame)
        requires drawing { IsDrawing self.now }
        requires plain { IsPlain self.now }
        requires shades { All (λ f. AreWithinOne f.values) row }
        ensures { frame.new ≡ frame_changed (cell_after_all self.now row) frame.old }
    {
        let mut left = row;
        while let Some(fragment) = left.next() {
            self.put_one(&fragment, frame);
        }
    }

    /// Puts the fragments of a row whose depth and colours are carried, where no unit takes part. What stays the same in each is
    /// taken out of memory once.
    #[inline(never)]
    fn put_shaded(&self, row: Shaded<4>, frame: &mut Frame)
        requires drawing { IsDrawing self.now }
        requires plain { IsPlain self.now }
        requires shades { All (λ f. AreWithinOne f.values) row }
        ensures { frame.new ≡ frame_changed (cell_after_all self.now row) frame.old }
    {
        let range = self.depth_range;
        let fragments = self.fragments;
        let mut left = row;
        while let Some(fragment) = left.next() {
            let depth = depth_between(range, fragment.depth);
            let colour = colour_of(&fragment);
            frame.put(&fragments, fragment.x, fragment.y, depth, colour);
        }
    }

    /// Puts the fragments of row y: at once where they are alike, each where a look would cost as much as its values, and else
    /// those that the depth test doesn't fail.
    pub(crate) fn put_row(&self, setup: &Setup, y: i32, frame: &mut Frame)
        requires drawing { IsDrawing self.now }
        requires shades { All (λ f. AreWithinOne f.values) (fragments_of setup.now y) }
        ensures { frame.new ≡ frame_changed (cell_after_all self.now (fragments_of setup.now y))
            frame.old }
    {
        match setup.run(y) {
            Some(run) => self.put_run(&run, frame),
            None => self.put_apart(setup.row(y), frame),
        }
    }

    /// Puts the fragments of a row that aren't known to be alike.
    fn put_apart(&self, row: Row, frame: &mut Frame)
        requires drawing { IsDrawing self.now }
        requires shades { All (λ f. AreWithinOne f.values) row }
        ensures { frame.new ≡ frame_changed (cell_after_all self.now row) frame.old }
    {
        if self.has_units() {
            self.put_textured(row, frame)
        } else {
            self.put_plain(row, frame)
        }
    }

    /// Puts the fragments of a row that aren't known to be alike, where no unit takes part.
    fn put_plain(&self, row: Row, frame: &mut Frame)
        requires drawing { IsDrawing self.now }
        requires plain { IsPlain self.now }
        requires shades { All (λ f. AreWithinOne f.values) row }
        ensures { frame.new ≡ frame_changed (cell_after_all self.now row) frame.old }
    {
        match row.shaded() {
            Some(shaded) => self.put_shaded(shaded, frame),
            None => self.put_sought(row, frame),
        }
    }

    /// Puts the fragments of a row that are looked for one after the other, where no unit takes part.
    fn put_sought(&self, row: Row, frame: &mut Frame)
        requires drawing { IsDrawing self.now }
        requires plain { IsPlain self.now }
        requires shades { All (λ f. AreWithinOne f.values) row }
        ensures { frame.new ≡ frame_changed (cell_after_all self.now row) frame.old }
    {
        if row.is_carried() {
            self.put_each(row, frame)
        } else {
            self.put_seen(row, frame)
        }
    }
}
