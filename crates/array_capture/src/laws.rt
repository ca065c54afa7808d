//! Laws of captures: functions with an empty body, whose contract is the law.

ghost use Rattle.std.specs.Prelude.{ℕ, ℤ, [], ◌∷◌};
ghost use Rattle.array_capture.specs.Law.{Serve};
ghost use Rattle.array_capture.specs.Pieces.{pieces_of_bytes, pieces_of_colour, pieces_of_data, pieces_of_draw, pieces_of_elements, pieces_of_image, pieces_of_matrix, pieces_of_names, pieces_of_subimage};
ghost use Rattle.gl_tracked.specs.Ranges.{range_of_bytes, range_of_colour, range_of_image, range_of_matrix, range_of_names, ranges_of_data, ranges_of_draw, ranges_of_elements, ranges_of_image};

use gl_memory::Memory;
use gl_tracked::Tracked;

/// The pieces for a draw serve for all that it reads of a memory, whatever tracked state and arguments are (section 2.8).
pub fn draw_law<M: Memory>(tracked: &Tracked, memory: &M)
    ensures { (first count : ℤ)
        → Serve (pieces_of_draw tracked.now first count (M.segments memory.now))
        (M.segments memory.now) (ranges_of_draw tracked.now first count) }
{}

/// The pieces for a matrix serve for all of it (section 2.10.2).
pub fn matrix_law<M: Memory>(memory: &M)
    ensures { (pointer : ℕ)
        → Serve (pieces_of_matrix pointer (M.segments memory.now)) (M.segments memory.now)
        (range_of_matrix pointer ∷ []) }
{}

/// The pieces for a draw by indices serve for all that it reads of a memory, the indices too, whatever tracked state and
/// arguments are, where its indices lie in that memory; where they lie in a buffer, this speaks of no range (sections 2.8
/// and 2.9).
pub fn elements_law<M: Memory>(tracked: &Tracked, memory: &M)
    ensures { (count : ℤ) (kind indices : ℕ)
        → Serve (pieces_of_elements tracked.now count kind indices (M.segments memory.now))
        (M.segments memory.now)
        (ranges_of_elements tracked.now count kind indices (M.segments memory.now)) }
{}

/// The pieces for bytes serve for all of them (section 2.9).
pub fn bytes_law<M: Memory>(memory: &M)
    ensures data { (place : ℕ) (size : ℤ) → Serve (pieces_of_data place size (M.segments memory.now))
        (M.segments memory.now) (ranges_of_data place size) }
    ensures part { (place : ℕ) (size : ℤ) → Serve (pieces_of_bytes place size (M.segments memory.now))
        (M.segments memory.now) (range_of_bytes place size ∷ []) }
{}

/// The pieces for names serve for all of them (sections 2.9 and 3.7.11).
pub fn names_law<M: Memory>(memory: &M)
    ensures { (place : ℕ) (count : ℤ)
        → Serve (pieces_of_names place count (M.segments memory.now)) (M.segments memory.now)
        (range_of_names place count ∷ []) }
{}

/// The pieces for an image serve for all of it, whatever its format, its sides and the alignment of its rows are (sections 3.6.2,
/// 3.7.1 and 3.7.2).
pub fn images_law<M: Memory>(tracked: &Tracked, memory: &M)
    ensures image { (format : ℕ) (width height : ℤ) (place : ℕ)
        → Serve (pieces_of_image tracked.now format width height place (M.segments memory.now))
        (M.segments memory.now) (ranges_of_image tracked.now format width height place) }
    ensures part { (format : ℕ) (width height : ℤ) (place : ℕ)
        → Serve (pieces_of_subimage tracked.now format width height place (M.segments memory.now))
        (M.segments memory.now) (range_of_image tracked.now format width height place ∷ []) }
{}

/// The pieces for a colour serve for all of it (section 3.7.12).
pub fn colour_law<M: Memory>(memory: &M)
    ensures { (pointer : ℕ)
        → Serve (pieces_of_colour pointer (M.segments memory.now)) (M.segments memory.now)
        (range_of_colour pointer ∷ []) }
{}
