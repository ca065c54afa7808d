//! What calls read of memory, as tracked state shows it.

ghost use Rattle.gl_tracked.specs.Tracked.{IsSound};

use crate::calls::{call_spelled, takes};
use gl_memory::{ClientMemory, Piece};
use gl_tracked::*;
use gl_words::Call;
use std::test::Fail;

/// Tracked state of which an array was set by the call that words spell.
fn with_array(spelling: &str, memory: &ClientMemory) -> Tracked
    ensures { IsSound result }
{
    let mut tracked = Tracked::first();
    if let Some(call) = call_spelled(spelling) {
        takes(&mut tracked, &call, memory);
    }
    tracked
}

// Worked by hand: numbers of SHORT have two bytes, of BYTE one, of FIXED four.
#[test]
fn an_element_lies_some_steps_behind_the_pointer(rt: HostRuntime) -> Result<(), Fail> {
    let memory = ClientMemory::new(rt.alloc(), 0)?;
    let rows = [
        ("VertexPointer 2 SHORT 0 100", 3, 112, 4),
        ("VertexPointer 3 BYTE 8 5", 2, 21, 3),
        ("VertexPointer 3 BYTE 1 5", 0, 5, 3),
        (
            "VertexPointer 4 FIXED 0 4294967295",
            4294967295,
            73014444015,
            16,
        ),
    ];
    for (spelling, place, start, len) in rows {
        let tracked = with_array(spelling, &memory);
        assert_eq!(rt; tracked.vertex.element(place), Piece { start, len });
    }
    Ok(())
}

// Worked by hand: UNSIGNED_BYTE is 0x1401, of one byte, and UNSIGNED_SHORT 0x1403, of two, the lowest first. Behind the end of
// memory there are zeros.
#[test]
fn indices_and_names_are_read_one_behind_another(rt: HostRuntime) -> Result<(), Fail> {
    let mut memory = ClientMemory::new(rt.alloc(), 9)?;
    memory.write(0, &[1, 2, 3, 4, 5, 6, 7, 8, 9]);
    let indices = [
        (0x1401, 1, 0, 2),
        (0x1401, 3, 4, 8),
        (0x1401, 9, 0, 0),
        (0x1403, 1, 0, 0x0302),
        (0x1403, 1, 1, 0x0504),
        (0x1403, 0, 4, 9),
        (0x1400, 1, 0, 0),
    ];
    for (kind, place, number, index) in indices {
        assert_eq!(rt; index_numbered(&memory, kind, place, number), index);
    }
    assert_eq!(rt; (index_bytes(0x1401), index_bytes(0x1403)), (1, 2));
    let names = [
        (1, 0, 0x0504_0302),
        (1, 1, 0x0908_0706),
        (0, 2, 9),
        (4294967295, 0, 0),
    ];
    for (place, number, name) in names {
        assert_eq!(rt; name_at(&memory, place, number), name);
    }
    Ok(())
}

// The edges of what a draw may draw and a call may name.
#[test]
fn counts_with_an_error_are_none(rt: HostRuntime) {
    let drawn = [(-1, 0), (0, 0), (65536, 65536), (65537, 0)];
    for (count, drawn) in drawn {
        assert_eq!(rt; count_drawn(count), drawn);
    }
    assert_eq!(rt; (count_of(-1), count_of(2147483647)), (0, 2147483647));
    assert_eq!(rt; (binding_after(5, 5), binding_after(5, 6)), (0, 6));
}

// A draw by indices in a buffer may read all of client memory where an array that it reads lies there.
#[test]
fn a_draw_by_indices_reads_all_beside_indices_in_a_buffer(rt: HostRuntime) {
    let draw = Call::DrawElements {
        mode: 4,
        count: 1,
        kind: 0x1401,
        indices: 0,
    };
    let nothing = Call::DrawElements {
        mode: 4,
        count: 0,
        kind: 0x1401,
        indices: 0,
    };
    let rows = [
        (true, 0, false, 7, true, false),
        (true, 9, false, 7, false, false),
        (true, 9, true, 7, true, false),
        (false, 0, true, 7, false, false),
        (true, 0, true, 0, false, true),
        (false, 0, true, 0, false, false),
    ];
    for (vertices, buffer, normals, elements, all, takes) in rows {
        let mut tracked = Tracked::first();
        tracked.vertex.enabled = vertices;
        tracked.vertex.buffer = buffer;
        tracked.normal.enabled = normals;
        tracked.element_buffer = elements;
        assert_eq!(rt; tracked.reads_all(&draw), all);
        assert!(rt; !tracked.reads_all(&nothing));
        assert_eq!(rt; tracked.takes_indices(), takes);
        assert_eq!(rt; tracked.normal.is_client(), normals);
        assert_eq!(rt; tracked.bound_buffer(0x8893), elements);
    }
}

// The lengths are those of another program's spellings; RGB is 0x1907, of three bytes, LUMINANCE_ALPHA 0x190A, of two.
#[test]
fn an_image_takes_whole_pitches_but_for_its_last_row(rt: HostRuntime) {
    let rows = [
        (4, 0x1907, 2, 2, 8, 14),
        (1, 0x1907, 2, 2, 6, 12),
        (4, 0x1907, 3, 3, 12, 33),
        (8, 0x1906, 1, 5, 8, 33),
        (8, 0x190A, 3, 2, 8, 14),
        (2, 0x1907, 1, 4, 4, 15),
        (8, 0x1908, 0, 9, 0, 0),
        (8, 0x1909, 9, 0, 16, 0),
    ];
    for (alignment, format, width, height, pitch, length) in rows {
        let texel = texel_size(format);
        assert_eq!(rt; pitch_of(alignment, width * texel), pitch);
        assert_eq!(rt; image_length(alignment, texel, width, height), length);
    }
    assert_eq!(rt; texel_size(0x1905), 0);
    let sides = [(-1, 0), (0, 0), (256, 256), (257, 0)];
    for (side, texels) in sides {
        assert_eq!(rt; side_of(side), texels);
    }
}
