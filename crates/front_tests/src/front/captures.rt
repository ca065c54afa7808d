//! Calls that read client memory, which is written over before the batch with them runs.

use super::{front_of_sixteen, put_off};
use batch_rail::{InlineMaker, RailMaker};
use gl_words::Call;
use std::test::Fail;

const POINTER: Call = Call::VertexPointer {
    size: 2,
    kind: 0x1400,
    stride: 0,
    pointer: 4,
};

const VERTICES: Call = Call::EnableClientState { array: 0x8074 };

const NUMBERS: [u8; 16] = [1, 2, 3, 4, 5, 6, 7, 8, 9, 10, 11, 12, 13, 14, 15, 16];

/// DrawArrays of this mode.
fn draw(mode: u32, first: i32, count: i32) -> Call {
    Call::DrawArrays { mode, first, count }
}

/// DrawElements of triangles, by indices of this type at this place.
fn elements(count: i32, kind: u32, indices: u32) -> Call {
    Call::DrawElements {
        mode: 4,
        count,
        kind,
        indices,
    }
}

/// TexEnvxv of this name, of a colour at this place.
fn colour(pname: u32, params: u32) -> Call {
    Call::TexEnvxv {
        target: 0x2300,
        pname,
        params,
    }
}

/// TexSubImage2D of RGB with these sides, of texels at this place.
fn texels(width: i32, height: i32, pixels: u32) -> Call {
    Call::TexSubImage2D {
        target: 0x0DE1,
        level: 0,
        xoffset: 0,
        yoffset: 0,
        width,
        height,
        format: 0x1907,
        kind: 0x1401,
        pixels,
    }
}

// Worked by hand: the place of a byte is one below its number, vertices have two bytes from the place 4 on, and what isn't
// captured is 0. By the indices 1 and 2 the bytes from 7 on are read. A texel has three bytes, and a row begins every four. The
// last six have an error.
#[test]
fn a_driver_is_handed_the_bytes_that_a_call_was_issued_on(rt: HostRuntime) -> Result<(), Fail> {
    let rows = [
        (
            draw(4, 0, 3),
            [0, 0, 0, 0, 5, 6, 7, 8, 9, 10, 0, 0, 0, 0, 0, 0],
        ),
        (
            draw(0, 2, 1),
            [0, 0, 0, 0, 0, 0, 0, 0, 9, 10, 0, 0, 0, 0, 0, 0],
        ),
        (
            draw(5, 5, 9),
            [0, 0, 0, 0, 0, 0, 0, 0, 0, 0, 0, 0, 0, 0, 15, 16],
        ),
        (
            Call::LoadMatrixx { matrix: 0 },
            [1, 2, 3, 4, 5, 6, 7, 8, 9, 10, 11, 12, 13, 14, 15, 16],
        ),
        (
            Call::MultMatrixx { matrix: 9 },
            [0, 0, 0, 0, 0, 0, 0, 0, 0, 10, 11, 12, 13, 14, 15, 16],
        ),
        (Call::LoadMatrixx { matrix: 16 }, [0; 16]),
        (
            elements(2, 0x1401, 0),
            [1, 2, 0, 0, 0, 0, 7, 8, 9, 10, 0, 0, 0, 0, 0, 0],
        ),
        (
            elements(1, 0x1403, 15),
            [0, 0, 0, 0, 0, 0, 0, 0, 0, 0, 0, 0, 0, 0, 0, 16],
        ),
        (
            Call::DeleteTextures { n: 2, names: 6 },
            [0, 0, 0, 0, 0, 0, 7, 8, 9, 10, 11, 12, 13, 14, 0, 0],
        ),
        (
            Call::DeleteBuffers { n: 1, names: 14 },
            [0, 0, 0, 0, 0, 0, 0, 0, 0, 0, 0, 0, 0, 0, 15, 16],
        ),
        (
            colour(0x2201, 8),
            [0, 0, 0, 0, 0, 0, 0, 0, 9, 10, 11, 12, 13, 14, 15, 16],
        ),
        (
            texels(1, 2, 3),
            [0, 0, 0, 4, 5, 6, 7, 8, 9, 10, 0, 0, 0, 0, 0, 0],
        ),
        (draw(4, 0, 0), [0; 16]),
        (draw(4, -1, 3), [0; 16]),
        (draw(7, 0, 3), [0; 16]),
        (elements(-1, 0x1401, 0), [0; 16]),
        (Call::DeleteBuffers { n: 257, names: 0 }, [0; 16]),
        (colour(0x2200, 8), [0; 16]),
        (texels(-1, 2, 3), [0; 16]),
    ];
    for (call, seen) in rows {
        let mut maker = InlineMaker::new();
        let mut front = front_of_sixteen(rt.alloc(), &mut maker, 100)?;
        front.write_memory(0, &NUMBERS);
        assert!(rt; put_off(&rt, &mut front, &POINTER));
        assert!(rt; put_off(&rt, &mut front, &VERTICES));
        assert!(rt; put_off(&rt, &mut front, &call));
        front.write_memory(0, &[255; 16]);
        assert!(rt; front.finish(&rt).is_ok());
        let (rail, _memory) = front.into_parts();
        let closed = maker.close(0, rail).ok();
        let driver = closed.expect(&rt, "the rail failed");
        assert_eq!(rt;
            driver.recorder.calls(),
            [POINTER, VERTICES, call].as_slice()
        );
        assert_eq!(rt; driver.seen, seen);
    }
    Ok(())
}
