//! Laws over the definitions: functions that do nothing, whose contracts are the laws.

ghost use Rattle.std.specs.Prelude.{ℕ, ◌<◌, ◌≤◌, Bool, slice_index};
ghost use Rattle.fragment_ops.specs.declared.cell.Cell.{Cell};
ghost use Rattle.fragment_ops.specs.declared.place.Place.{Place};
ghost use Rattle.fragment_ops.specs.Cell.{Fragment};
ghost use Rattle.fragment_ops.specs.Frame.{frame_changed, IsFrame};
ghost use Rattle.fragment_ops.specs.Laws.{BlendsAtEnds, ClearKeeps, FragmentKeeps, IsChangedBy};

use crate::frame::Frame;
use crate::state::FragmentState;

/// A frame after a change has at each place what the change makes of the place and of the cell that was there; own.
pub fn frame_law(frame: &Frame)
    ensures { (change : Place → Cell → Cell)
        → IsChangedBy change frame.now (frame_changed change frame.now) }
{
    let _cells = frame.cells();
}

/// What a fragment and Clear leave of a cell: all outside the scissor, what is masked, and what isn't asked for or tested.
/// Sections 4.1.2, 4.1.6, 4.2.2 and 4.2.3 of OpenGL ES 1.1.12.
pub fn keeping_law(state: &FragmentState)
    ensures fragment { (place : Place) (fragment : Fragment) (old : Cell)
        → FragmentKeeps state.now place fragment old }
    ensures clear { (place : Place) (colour depth : Bool) (old : Cell)
        → ClearKeeps state.now place colour depth old }
{}

/// Blending by ONE and ZERO leaves the source, and by ZERO and ONE the destination, whatever the other is. Section 4.1.7 of
/// OpenGL ES 1.1.12.
pub fn blend_law(source: [u8; 4], dest: [u8; 4])
    ensures { (part : ℕ) → part < 4 → slice_index source part ≤ 255 → slice_index dest part ≤ 255
        → BlendsAtEnds source dest part }
{}
