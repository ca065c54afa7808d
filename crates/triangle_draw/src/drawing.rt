//! What a draw goes by besides memory, and which faces it culls.

ghost use Rattle.std.specs.Prelude.{◌≡◌, ℤ, pos, int_lt, not};
ghost use Rattle.triangle_draw.specs.Drawing.{is_culled, shows_front};

use crate::unit::Unit;
use fragment_ops::FragmentState;
use triangle_raster::View;
use vertex_stage::Stage;

/// What a draw goes by besides memory. The calls that take one have as their condition that its arrays have elements of
/// numbers that there are, that its viewport is within its bounds, that depths are 0 to 1, and that its fragments have a
/// state. Chapters 2 to 4, that it is one value own.
#[derive(Drop)]
pub struct Drawing<'a> {
    /// What vertices are made from: arrays, current values and matrices, 16.16 fixed (sections 2.7, 2.8, 2.10 and 2.12).
    pub stage: Stage,
    /// The viewport, in pixels from the lower left corner of the frame (section 2.10.1).
    pub view: View,
    /// The depths of the near and the far plane, 0 to 65536, 16.16 fixed (section 2.10.1).
    pub depth_range: [i32; 2],
    /// Whether faces are culled (section 3.5.1).
    pub culls: bool,
    /// Which ones by its number: FRONT 0x404, BACK 0x405 or FRONT_AND_BACK 0x408 (section 3.5.1).
    pub cull_face: u32,
    /// The winding of front faces by its number: CW 0x900 or CCW 0x901 (section 2.12.1).
    pub front_face: u32,
    /// Texture unit 0, if it takes part (section 3.7.12).
    pub first_unit: Option<Unit<'a>>,
    /// Texture unit 1, if it takes part (section 3.7.12).
    pub second_unit: Option<Unit<'a>>,
    /// What becomes of fragments (chapter 4).
    pub fragments: FragmentState,
}

/// CCW: counter-clockwise.
const CCW: u32 = 0x901;

impl<'a> Drawing<'a> {
    /// Whether a triangle shows its front, by whether its corners run counter-clockwise and not clockwise.
    #[tactic(auto, unfolding(crate::specs::Drawing::shows_front))]
    fn shows_front(&self, counter_clockwise: bool) -> bool
        ensures { (delta : ℤ) → counter_clockwise ≡ int_lt (pos 0) delta
            → not counter_clockwise ≡ int_lt delta (pos 0)
            → result ≡ shows_front self.now.front_face delta }
    {
        if self.front_face == CCW {
            counter_clockwise
        } else {
            !counter_clockwise
        }
    }

    /// Whether culling leaves out a triangle, by whether its corners run counter-clockwise and not clockwise.
    #[tactic(auto, unfolding(crate::specs::Drawing::is_culled))]
    pub(crate) fn is_culled(&self, counter_clockwise: bool) -> bool
        ensures { (delta : ℤ) → counter_clockwise ≡ int_lt (pos 0) delta
            → not counter_clockwise ≡ int_lt delta (pos 0)
            → result ≡ is_culled self.now delta }
    {
        if !self.culls {
            return false;
        }
        match self.cull_face {
            0x404 => self.shows_front(counter_clockwise),
            0x405 => !self.shows_front(counter_clockwise),
            _ => true,
        }
    }
}
