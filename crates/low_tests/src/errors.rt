//! The errors of calls that tracked state shows, at values of another program.

use crate::calls::{call_spelled, number};
use gl_tracked::Tracked;
use std::process::Abort;

/// Calls, and the error that another program finds in each of them on a new context. Some fail two tests.
const ERRORS: &str = "\
ActiveTexture TEXTURE1 : none
ActiveTexture 33986 : 1280
ClientActiveTexture TEXTURE1 : none
ClientActiveTexture 33983 : 1280
Clear 0 : none
Clear 17664 : none
Clear 1 : 1281
Clear 17665 : 1281
Clear 2147483648 : 1281
ColorPointer 4 UNSIGNED_BYTE 0 0 : none
ColorPointer 3 BYTE -1 0 : 1281
ColorPointer 4 BYTE -1 0 : 1280
ColorPointer 4 FIXED -1 0 : 1281
DisableClientState TEXTURE_COORD_ARRAY : none
DisableClientState 32887 : 1280
EnableClientState VERTEX_ARRAY : none
EnableClientState 32889 : 1280
Finish : none
Frustumx 0 1 0 1 0 1 : 1281
Frustumx 0 1 0 1 -1 1 : 1281
Frustumx 0 1 0 1 1 0 : 1281
Frustumx 0 1 0 1 1 -2147483648 : 1281
Frustumx 1 1 0 1 1 2 : 1281
Frustumx 0 1 5 5 1 2 : 1281
Frustumx 0 1 0 1 2 2 : 1281
Frustumx 1 0 1 0 2 1 : none
GetError : none
GetFixedv MODELVIEW_MATRIX 0 : none
GetFixedv MATRIX_MODE 0 : 1280
GetIntegerv MATRIX_MODE 0 : none
GetIntegerv MAX_TEXTURE_SIZE 0 : none
GetIntegerv MODELVIEW_MATRIX 0 : 1280
GetPointerv TEXTURE_COORD_ARRAY_POINTER 0 : none
GetPointerv 32913 0 : 1280
IsEnabled CULL_FACE : none
IsEnabled TEXTURE_COORD_ARRAY : none
IsEnabled MATRIX_MODE : 1280
LoadIdentity : none
MatrixMode 5887 : 1280
MatrixMode TEXTURE : none
MatrixMode 5891 : 1280
NormalPointer SHORT 12 0 : none
NormalPointer UNSIGNED_BYTE -1 0 : 1280
NormalPointer FIXED -1 0 : 1281
Orthox -1 -1 0 1 0 1 : 1281
Orthox 0 1 7 7 0 1 : 1281
Orthox 0 1 0 1 0 0 : 1281
Orthox 1 0 1 0 0 -1 : none
PixelStorei UNPACK_ALIGNMENT 8 : none
PixelStorei 3316 3 : 1280
PixelStorei PACK_ALIGNMENT 3 : 1281
PixelStorei PACK_ALIGNMENT 16 : 1281
PopMatrix : 1284
PushMatrix : none
Rotatex 1 0 0 0 : none
Scalex 0 0 0 : none
Translatex -1 -1 -1 : none
ReadPixels 0 0 512 0 RGBA UNSIGNED_BYTE 0 : none
ReadPixels 0 0 -1 1 RGB UNSIGNED_BYTE 0 : 1280
ReadPixels 0 0 1 -1 RGBA BYTE 0 : 1280
ReadPixels 0 0 -1 1 RGBA UNSIGNED_BYTE 0 : 1281
ReadPixels 0 0 1 513 RGBA UNSIGNED_BYTE 0 : 1281
TexCoordPointer 2 SHORT 0 0 : none
TexCoordPointer 1 UNSIGNED_BYTE -1 0 : 1281
TexCoordPointer 4 UNSIGNED_BYTE -1 0 : 1280
TexCoordPointer 4 FIXED -1 0 : 1281
VertexPointer 3 BYTE 2147483647 0 : none
VertexPointer 5 UNSIGNED_BYTE -1 0 : 1281
VertexPointer 2 UNSIGNED_BYTE -1 0 : 1280
VertexPointer 2 BYTE -2147483648 0 : 1281
Viewport -5 -5 -1 0 : 1281
Viewport -5 -5 0 -2147483648 : 1281
Viewport -5 -5 0 0 : none
AlphaFuncx NEVER 0 : none
AlphaFuncx 511 0 : 1280
AlphaFuncx 520 0 : 1280
BlendFunc ZERO ONE_MINUS_DST_ALPHA : none
BlendFunc SRC_ALPHA_SATURATE ONE : none
BlendFunc DST_COLOR SRC_COLOR : none
BlendFunc ONE_MINUS_DST_COLOR ONE_MINUS_SRC_COLOR : none
BlendFunc SRC_COLOR ZERO : 1280
BlendFunc ONE_MINUS_SRC_COLOR ZERO : 1280
BlendFunc ONE DST_COLOR : 1280
BlendFunc ONE ONE_MINUS_DST_COLOR : 1280
BlendFunc ONE SRC_ALPHA_SATURATE : 1280
BlendFunc 2 ZERO : 1280
ClearDepthx -2147483648 : none
Color4x -1 2147483647 0 65537 : none
ColorMask 0 1 0 1 : none
CullFace FRONT : none
CullFace FRONT_AND_BACK : none
CullFace CW : 1280
CullFace 1030 : 1280
DepthFunc LEQUAL : none
DepthFunc 512 : none
DepthFunc 520 : 1280
DepthFunc 0 : 1280
DepthMask 1 : none
DepthRangex 65537 -1 : none
Disable TEXTURE_2D : none
Disable VERTEX_ARRAY : 1280
Disable 3008 : none
Enable CULL_FACE : none
Enable SCISSOR_TEST : none
Enable 2960 : 1280
Enable TEXTURE_COORD_ARRAY : 1280
FrontFace CW : none
FrontFace FRONT : 1280
FrontFace 2306 : 1280
MultiTexCoord4x TEXTURE1 1 2 3 4 : none
MultiTexCoord4x 33986 1 2 3 4 : 1280
MultiTexCoord4x 33983 1 2 3 4 : 1280
Normal3x -1 0 1 : none
Scissor -5 -5 0 0 : none
Scissor -2147483648 2147483647 2147483647 2147483647 : none
Scissor 0 0 -1 0 : 1281
Scissor 0 0 0 -2147483648 : 1281
ShadeModel FLAT : none
ShadeModel 7423 : 1280
ShadeModel 7426 : 1280
DrawArrays POINTS 0 0 : none
DrawArrays TRIANGLES 0 65536 : none
DrawArrays TRIANGLE_FAN 2147483647 65536 : none
DrawArrays 7 0 0 : 1280
DrawArrays 7 -1 -1 : 1280
DrawArrays 4294967295 0 3 : 1280
DrawArrays TRIANGLES -1 0 : 1281
DrawArrays TRIANGLES -2147483648 3 : 1281
DrawArrays TRIANGLES 0 -1 : 1281
DrawArrays TRIANGLES 0 65537 : 1281
DrawArrays TRIANGLES 0 2147483647 : 1281
LoadMatrixx 4294967295 : none
MultMatrixx 4294967295 : none
BindBuffer ARRAY_BUFFER 5 : none
BindBuffer ELEMENT_ARRAY_BUFFER 4294967295 : none
BindBuffer 34961 5 : 1280
BindBuffer 34964 0 : 1280
BindBuffer TEXTURE_2D 5 : 1280
BindTexture TEXTURE_2D 5 : none
BindTexture TEXTURE_2D 0 : none
BindTexture 3552 5 : 1280
BindTexture ARRAY_BUFFER 5 : 1280
BufferData ARRAY_BUFFER 4 0 STATIC_DRAW : 1282
BufferData ELEMENT_ARRAY_BUFFER 67108865 0 DYNAMIC_DRAW : 1282
BufferData ARRAY_BUFFER -1 0 STATIC_DRAW : 1281
BufferData ARRAY_BUFFER -1 0 35045 : 1280
BufferData 34961 -1 0 35045 : 1280
BufferSubData ARRAY_BUFFER 0 4 0 : 1282
BufferSubData ELEMENT_ARRAY_BUFFER -1 67108865 0 : 1281
BufferSubData ARRAY_BUFFER 0 -1 0 : 1281
BufferSubData 34964 -1 -1 0 : 1280
DeleteBuffers 0 0 : none
DeleteBuffers 256 0 : none
DeleteBuffers 257 0 : 1281
DeleteBuffers -1 0 : 1281
DeleteTextures 256 0 : none
DeleteTextures 257 0 : 1281
DeleteTextures -2147483648 0 : 1281
DrawElements POINTS 0 UNSIGNED_BYTE 0 : none
DrawElements TRIANGLE_FAN 65536 UNSIGNED_SHORT 4294967295 : none
DrawElements 7 -1 UNSIGNED_BYTE 0 : 1280
DrawElements TRIANGLES -1 BYTE 0 : 1280
DrawElements TRIANGLES 3 SHORT 0 : 1280
DrawElements TRIANGLES 3 FIXED 0 : 1280
DrawElements TRIANGLES -1 UNSIGNED_SHORT 0 : 1281
DrawElements TRIANGLES 65537 UNSIGNED_BYTE 0 : 1281
GenBuffers 0 0 : none
GenBuffers 256 0 : none
GenBuffers 257 0 : 1281
GenBuffers -1 0 : 1281
GenTextures 256 0 : none
GenTextures 257 0 : 1281
GenTextures -1 0 : 1281
IsBuffer 0 : none
IsBuffer 4294967295 : none
IsTexture 7 : none
TexEnvi TEXTURE_ENV TEXTURE_ENV_MODE ADD : none
TexEnvi TEXTURE_ENV TEXTURE_ENV_MODE BLEND : none
TexEnvi TEXTURE_ENV TEXTURE_ENV_MODE DECAL : none
TexEnvi TEXTURE_ENV TEXTURE_ENV_MODE MODULATE : none
TexEnvi TEXTURE_ENV TEXTURE_ENV_MODE REPLACE : none
TexEnvi TEXTURE_2D TEXTURE_ENV_MODE ADD : 1280
TexEnvi TEXTURE_ENV TEXTURE_ENV_COLOR ADD : 1280
TexEnvi TEXTURE_ENV TEXTURE_ENV_MODE 8450 : 1280
TexEnvi TEXTURE_ENV TEXTURE_ENV_MODE -1 : 1280
TexEnvxv TEXTURE_ENV TEXTURE_ENV_COLOR 0 : none
TexEnvxv TEXTURE_ENV TEXTURE_ENV_MODE 0 : 1280
TexEnvxv TEXTURE TEXTURE_ENV_COLOR 0 : 1280
TexImage2D TEXTURE_2D 0 RGB 256 1 0 RGB UNSIGNED_BYTE 0 : none
TexImage2D TEXTURE_2D 0 LUMINANCE_ALPHA 64 128 0 LUMINANCE_ALPHA UNSIGNED_BYTE 8 : none
TexImage2D TEXTURE 1 RGB 1 1 0 RGB UNSIGNED_BYTE 0 : 1280
TexImage2D TEXTURE_2D 1 RGB 1 1 0 6411 UNSIGNED_BYTE 0 : 1280
TexImage2D TEXTURE_2D 1 RGB 1 1 0 RGB BYTE 0 : 1280
TexImage2D TEXTURE_2D 1 RGB 1 1 0 RGBA UNSIGNED_BYTE 0 : 1281
TexImage2D TEXTURE_2D -1 RGB 1 1 0 RGB UNSIGNED_BYTE 0 : 1281
TexImage2D TEXTURE_2D 0 4 1 1 0 RGBA UNSIGNED_BYTE 0 : 1281
TexImage2D TEXTURE_2D 0 RGBA 0 1 0 RGB UNSIGNED_BYTE 0 : 1281
TexImage2D TEXTURE_2D 0 RGBA 1 3 0 RGB UNSIGNED_BYTE 0 : 1281
TexImage2D TEXTURE_2D 0 RGBA 512 1 0 RGB UNSIGNED_BYTE 0 : 1281
TexImage2D TEXTURE_2D 0 RGBA 1 -2 0 RGB UNSIGNED_BYTE 0 : 1281
TexImage2D TEXTURE_2D 0 RGBA 1 1 1 RGB UNSIGNED_BYTE 0 : 1281
TexImage2D TEXTURE_2D 0 RGBA 1 1 0 RGB UNSIGNED_BYTE 0 : 1282
TexImage2D TEXTURE_2D 0 ALPHA 2 2 0 LUMINANCE UNSIGNED_BYTE 0 : 1282
TexParameteri TEXTURE_2D TEXTURE_MAG_FILTER LINEAR : none
TexParameteri TEXTURE_2D TEXTURE_MAG_FILTER NEAREST_MIPMAP_NEAREST : 1280
TexParameteri TEXTURE_2D TEXTURE_MIN_FILTER LINEAR_MIPMAP_LINEAR : none
TexParameteri TEXTURE_2D TEXTURE_MIN_FILTER NEAREST : none
TexParameteri TEXTURE_2D TEXTURE_MIN_FILTER REPEAT : 1280
TexParameteri TEXTURE_2D TEXTURE_WRAP_S REPEAT : none
TexParameteri TEXTURE_2D TEXTURE_WRAP_T CLAMP_TO_EDGE : none
TexParameteri TEXTURE_2D TEXTURE_WRAP_T LINEAR : 1280
TexParameteri TEXTURE_2D TEXTURE_WRAP_S -1 : 1280
TexParameteri TEXTURE_2D 10244 REPEAT : 1280
TexParameteri TEXTURE TEXTURE_WRAP_S REPEAT : 1280
TexSubImage2D TEXTURE_2D 0 0 0 0 0 RGB UNSIGNED_BYTE 0 : none
TexSubImage2D TEXTURE_2D 0 2147483647 0 256 256 RGBA UNSIGNED_BYTE 0 : none
TexSubImage2D 0 0 -1 0 1 1 RGB UNSIGNED_BYTE 0 : 1280
TexSubImage2D TEXTURE_2D 0 -1 0 1 1 6411 UNSIGNED_BYTE 0 : 1280
TexSubImage2D TEXTURE_2D 0 -1 0 1 1 RGB SHORT 0 : 1280
TexSubImage2D TEXTURE_2D 1 0 0 1 1 RGB UNSIGNED_BYTE 0 : 1281
TexSubImage2D TEXTURE_2D 0 -1 0 1 1 RGB UNSIGNED_BYTE 0 : 1281
TexSubImage2D TEXTURE_2D 0 0 -1 1 1 RGB UNSIGNED_BYTE 0 : 1281
TexSubImage2D TEXTURE_2D 0 0 0 257 1 RGB UNSIGNED_BYTE 0 : 1281
TexSubImage2D TEXTURE_2D 0 0 0 1 -1 RGB UNSIGNED_BYTE 0 : 1281
";

/// The same, with a buffer bound to ARRAY_BUFFER.
const BOUND_ERRORS: &str = "\
BufferData ARRAY_BUFFER 0 0 STATIC_DRAW : none
BufferData ARRAY_BUFFER 67108864 0 DYNAMIC_DRAW : none
BufferData ARRAY_BUFFER 67108865 0 STATIC_DRAW : 1285
BufferData ARRAY_BUFFER 2147483647 0 STATIC_DRAW : 1285
BufferData ARRAY_BUFFER -1 0 STATIC_DRAW : 1281
BufferData ELEMENT_ARRAY_BUFFER 67108865 0 STATIC_DRAW : 1282
BufferSubData ARRAY_BUFFER 0 0 0 : none
BufferSubData ARRAY_BUFFER 0 67108865 0 : 1281
BufferSubData ARRAY_BUFFER -1 67108865 0 : 1281
BufferSubData ELEMENT_ARRAY_BUFFER 0 67108865 0 : 1282
";

/// Each of these calls has its error on this tracked state.
fn errors_are_found(rt: &impl Abort, tracked: &Tracked, table: &str) {
    for line in table.lines() {
        let found = line.split_once(" : ").and_then(|(spelling, error)| {
            let fault = tracked.fault(&call_spelled(spelling)?);
            Some(fault.map(|fault| i64::from(fault.code())) == number(error))
        });
        assert_eq!(rt; found, Some(true));
    }
}

// INVALID_ENUM is 1280, INVALID_VALUE 1281, INVALID_OPERATION 1282, STACK_UNDERFLOW 1284, OUT_OF_MEMORY 1285. The bits of
// depth, stencil and colour are 256, 1024 and 16384.
#[test]
fn each_error_is_found(rt: HostRuntime) {
    errors_are_found(&rt, &Tracked::first(), ERRORS);
}

#[test]
fn each_error_beside_a_bound_buffer_is_found(rt: HostRuntime) {
    let mut tracked = Tracked::first();
    tracked.array_buffer = 5;
    errors_are_found(&rt, &tracked, BOUND_ERRORS);
}
