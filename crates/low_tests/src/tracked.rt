//! What calls set of tracked state, at values of another program.

use crate::calls::{call_spelled, number, takes};
use gl_memory::ClientMemory;
use gl_tracked::{Finding, Tracked};
use gl_words::{Call, GlError};
use std::test::Fail;

/// The number that was found of a call, if one was.
fn number_found(finding: &Finding) -> Option<i64> {
    match finding {
        Finding::Number(number) => Some(*number),
        Finding::Fault(_) => None,
    }
}

/// Calls one after another, and what another program answers to those that ask for tracked state. Before any call that
/// sets something it is what tables 6.5 to 6.18 have, with FIXED in the place of floats. Some calls have an error, and set
/// nothing. The names that are deleted lie in the last 16 bytes of memory: 5, 7, 6 and 4294967295.
const ANSWERS: &str = "\
Clear 1 : none
GetIntegerv ACTIVE_TEXTURE 0 : TEXTURE0
GetIntegerv MATRIX_MODE 0 : MODELVIEW
GetIntegerv TEXTURE_STACK_DEPTH 0 : 1
GetIntegerv TEXTURE_COORD_ARRAY_TYPE 0 : FIXED
GetIntegerv UNPACK_ALIGNMENT 0 : 4
GetPointerv VERTEX_ARRAY_POINTER 0 : 0
VertexPointer 3 SHORT 12 100 : none
VertexPointer 2 BYTE -1 8 : none
VertexPointer 2 UNSIGNED_BYTE 0 8 : none
GetIntegerv VERTEX_ARRAY_SIZE 0 : 3
GetIntegerv VERTEX_ARRAY_TYPE 0 : SHORT
GetIntegerv VERTEX_ARRAY_STRIDE 0 : 12
GetPointerv VERTEX_ARRAY_POINTER 0 : 100
GetIntegerv VERTEX_ARRAY_BUFFER_BINDING 0 : 0
NormalPointer BYTE 5 4294967295 : none
GetIntegerv NORMAL_ARRAY_TYPE 0 : BYTE
GetIntegerv NORMAL_ARRAY_STRIDE 0 : 5
GetPointerv NORMAL_ARRAY_POINTER 0 : 4294967295
ColorPointer 4 UNSIGNED_BYTE 8 77 : none
ColorPointer 3 UNSIGNED_BYTE 0 8 : none
ColorPointer 4 BYTE 0 8 : none
GetIntegerv COLOR_ARRAY_SIZE 0 : 4
GetIntegerv COLOR_ARRAY_TYPE 0 : UNSIGNED_BYTE
GetIntegerv COLOR_ARRAY_STRIDE 0 : 8
GetPointerv COLOR_ARRAY_POINTER 0 : 77
TexCoordPointer 2 BYTE 6 10 : none
ClientActiveTexture TEXTURE1 : none
GetIntegerv CLIENT_ACTIVE_TEXTURE 0 : TEXTURE1
GetIntegerv TEXTURE_COORD_ARRAY_SIZE 0 : 4
TexCoordPointer 3 SHORT 7 20 : none
EnableClientState TEXTURE_COORD_ARRAY : none
GetIntegerv TEXTURE_COORD_ARRAY_SIZE 0 : 3
GetIntegerv TEXTURE_COORD_ARRAY_TYPE 0 : SHORT
GetIntegerv TEXTURE_COORD_ARRAY_STRIDE 0 : 7
GetPointerv TEXTURE_COORD_ARRAY_POINTER 0 : 20
IsEnabled TEXTURE_COORD_ARRAY : 1
ClientActiveTexture TEXTURE0 : none
GetIntegerv TEXTURE_COORD_ARRAY_SIZE 0 : 2
GetIntegerv TEXTURE_COORD_ARRAY_TYPE 0 : BYTE
GetIntegerv TEXTURE_COORD_ARRAY_STRIDE 0 : 6
GetPointerv TEXTURE_COORD_ARRAY_POINTER 0 : 10
IsEnabled TEXTURE_COORD_ARRAY : 0
EnableClientState VERTEX_ARRAY : none
IsEnabled VERTEX_ARRAY : 1
IsEnabled NORMAL_ARRAY : 0
IsEnabled COLOR_ARRAY : 0
DisableClientState VERTEX_ARRAY : none
IsEnabled VERTEX_ARRAY : 0
PixelStorei UNPACK_ALIGNMENT 1 : none
PixelStorei PACK_ALIGNMENT 8 : none
GetIntegerv UNPACK_ALIGNMENT 0 : 1
GetIntegerv PACK_ALIGNMENT 0 : 8
MatrixMode TEXTURE : none
ActiveTexture TEXTURE1 : none
PushMatrix : none
GetIntegerv MATRIX_MODE 0 : TEXTURE
GetIntegerv ACTIVE_TEXTURE 0 : TEXTURE1
GetIntegerv TEXTURE_STACK_DEPTH 0 : 2
ActiveTexture TEXTURE0 : none
GetIntegerv TEXTURE_STACK_DEPTH 0 : 1
GetIntegerv MODELVIEW_STACK_DEPTH 0 : 1
GetIntegerv PROJECTION_STACK_DEPTH 0 : 1
MatrixMode 5891 : none
GetIntegerv MATRIX_MODE 0 : TEXTURE
BindBuffer ARRAY_BUFFER 5 : none
BindBuffer ELEMENT_ARRAY_BUFFER 7 : none
BindBuffer 34961 9 : none
BindTexture TEXTURE_2D 9 : none
GetIntegerv ARRAY_BUFFER_BINDING 0 : 5
GetIntegerv ELEMENT_ARRAY_BUFFER_BINDING 0 : 7
GetIntegerv VERTEX_ARRAY_BUFFER_BINDING 0 : 0
VertexPointer 2 BYTE 0 4 : none
TexCoordPointer 2 BYTE 0 0 : none
BindBuffer ARRAY_BUFFER 6 : none
NormalPointer BYTE 0 0 : none
ColorPointer 4 FIXED 0 0 : none
ClientActiveTexture TEXTURE1 : none
TexCoordPointer 2 BYTE 0 0 : none
GetIntegerv TEXTURE_COORD_ARRAY_BUFFER_BINDING 0 : 6
GetIntegerv VERTEX_ARRAY_BUFFER_BINDING 0 : 5
GetIntegerv NORMAL_ARRAY_BUFFER_BINDING 0 : 6
GetIntegerv COLOR_ARRAY_BUFFER_BINDING 0 : 6
DeleteBuffers 257 16 : none
DeleteBuffers 0 16 : none
DeleteTextures 3 16 : none
GetIntegerv ARRAY_BUFFER_BINDING 0 : 6
GetIntegerv ELEMENT_ARRAY_BUFFER_BINDING 0 : 7
DeleteBuffers 2 16 : none
GetIntegerv ARRAY_BUFFER_BINDING 0 : 6
GetIntegerv ELEMENT_ARRAY_BUFFER_BINDING 0 : 0
GetIntegerv VERTEX_ARRAY_BUFFER_BINDING 0 : 0
GetIntegerv VERTEX_ARRAY_SIZE 0 : 2
GetPointerv VERTEX_ARRAY_POINTER 0 : 4
GetIntegerv NORMAL_ARRAY_BUFFER_BINDING 0 : 6
GetIntegerv COLOR_ARRAY_BUFFER_BINDING 0 : 6
GetIntegerv TEXTURE_COORD_ARRAY_BUFFER_BINDING 0 : 6
ClientActiveTexture TEXTURE0 : none
GetIntegerv TEXTURE_COORD_ARRAY_BUFFER_BINDING 0 : 0
BindBuffer ELEMENT_ARRAY_BUFFER 6 : none
DeleteBuffers 1 27 : none
GetIntegerv ELEMENT_ARRAY_BUFFER_BINDING 0 : 6
DeleteBuffers 1 24 : none
GetIntegerv ARRAY_BUFFER_BINDING 0 : 0
GetIntegerv ELEMENT_ARRAY_BUFFER_BINDING 0 : 0
GetIntegerv NORMAL_ARRAY_BUFFER_BINDING 0 : 0
GetIntegerv COLOR_ARRAY_BUFFER_BINDING 0 : 0
ClientActiveTexture TEXTURE1 : none
GetIntegerv TEXTURE_COORD_ARRAY_BUFFER_BINDING 0 : 0
BindBuffer ARRAY_BUFFER 255 : none
DeleteBuffers 2 31 : none
GetIntegerv ARRAY_BUFFER_BINDING 0 : 0
BindBuffer ARRAY_BUFFER 0 : none
BindBuffer ELEMENT_ARRAY_BUFFER 4294967295 : none
DeleteBuffers 256 28 : none
GetIntegerv ELEMENT_ARRAY_BUFFER_BINDING 0 : 0
";

#[test]
fn what_calls_set_is_read_back(rt: HostRuntime) -> Result<(), Fail> {
    let mut memory = ClientMemory::new(rt.alloc(), 32)?;
    memory.write(
        16,
        &[5, 0, 0, 0, 7, 0, 0, 0, 6, 0, 0, 0, 255, 255, 255, 255],
    );
    let mut tracked = Tracked::first();
    for line in ANSWERS.lines() {
        let Some((spelling, answer)) = line.split_once(" : ") else {
            return Err(Fail::new("no answer"));
        };
        let Some(call) = call_spelled(spelling) else {
            return Err(Fail::new("no such call"));
        };
        assert_eq!(rt; tracked.asked(&call), number(answer));
        assert_eq!(rt; number_found(&tracked.finding(&call)), number(answer));
        takes(&mut tracked, &call, &memory);
    }
    Ok(())
}

// The depths are those of the stacks: 16 of model-view, and 2 of projection and of each unit's texture stack.
#[test]
fn a_stack_is_pushed_until_it_is_full_and_popped_to_one(rt: HostRuntime) -> Result<(), Fail> {
    let memory = ClientMemory::new(rt.alloc(), 0)?;
    let rows: [(u32, u32, u32, [u32; 4]); 5] = [
        (0x1700, 0x84C0, 16, [16, 1, 1, 1]),
        (0x1700, 0x84C1, 16, [16, 1, 1, 1]),
        (0x1701, 0x84C0, 2, [1, 2, 1, 1]),
        (0x1702, 0x84C0, 2, [1, 1, 2, 1]),
        (0x1702, 0x84C1, 2, [1, 1, 1, 2]),
    ];
    for (mode, active, most, full) in rows {
        let mut tracked = Tracked::first();
        tracked.active = active;
        takes(&mut tracked, &Call::MatrixMode { mode }, &memory);
        assert_eq!(rt; tracked.matrix_mode, mode);
        let empty = tracked;
        for _depth in 1..most {
            assert_eq!(rt; tracked.fault(&Call::PushMatrix), None);
            takes(&mut tracked, &Call::PushMatrix, &memory);
        }
        assert_eq!(rt; tracked.depths, full);
        assert_eq!(rt;
            tracked.fault(&Call::PushMatrix),
            Some(GlError::StackOverflow)
        );
        takes(&mut tracked, &Call::PushMatrix, &memory);
        assert_eq!(rt; tracked.depths, full);
        for _depth in 1..most {
            assert_eq!(rt; tracked.fault(&Call::PopMatrix), None);
            takes(&mut tracked, &Call::PopMatrix, &memory);
        }
        assert_eq!(rt; tracked, empty);
        assert_eq!(rt;
            tracked.fault(&Call::PopMatrix),
            Some(GlError::StackUnderflow)
        );
        takes(&mut tracked, &Call::PopMatrix, &memory);
        takes(&mut tracked, &Call::MatrixMode { mode: 0x1703 }, &memory);
        assert_eq!(rt; tracked, empty);
    }
    Ok(())
}
