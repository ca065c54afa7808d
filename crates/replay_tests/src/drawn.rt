//! Scripts that draw, and what they leave, as data. Each stands behind an `@`: its counts with batches of 16 slots, of 77 and
//! of 1024, and then the script, the report and the files as in `told.rt`. A `$` stands where a report has its line of
//! counts. A `\` ends a line that goes on. Each row of a frame has a line of its own, the uppermost first.

/// First draws whose pictures follow from FORMATS.md and PROFILE.md by hand: memory that is written over behind a draw; a draw
/// with 16 slots, and one with 17, which waits where a batch has 16; arrays that end behind memory, and that lie far behind
/// it; an edge through the middles of pixels that two triangles share; a corner behind the eye, and corners of no area.
///
/// Then two matrices of several factors each, read from memory that is written over, under which the picture is another one
/// where the factors or the two matrices change places. Then the face that is culled and the winding of the front, each with
/// each, in a quarter of the frame each, with ranges of depths of their own, and a yellow triangle between these depths; it is
/// seen in those columns and rows that the scissor rectangle leaves. At last a fan that is as long as 25 slots, a draw that is
/// put off, and one more behind the read of the frame: the memory of each is written over.
pub(crate) const DRAWN: &str = "\
@0 3 1 0 1~0 3 1 0 1~0 3 1 0 1~
glscript 1
context 0 4 4 32
0 mem 16 FFFF01FFFF01
0 EnableClientState VERTEX_ARRAY
0 VertexPointer 2 BYTE 0 16
0 DrawArrays TRIANGLES 0 3
0 mem 16 000000000000
0 Finish
end
~
glreport 1
$images 1
end
~frame-0.ppm 50360a3420340a3235350a\
000000000000000000000000\
ffffff000000000000000000\
ffffffffffff000000000000\
ffffffffffffffffff000000
@0 3 0 0 2~0 3 0 0 1~0 3 0 0 1~
glscript 1
context 0 1 1 128
0 EnableClientState VERTEX_ARRAY
0 VertexPointer 4 FIXED 32 0
0 DrawArrays TRIANGLES 0 3
end
~
glreport 1
$images 1
end
~frame-0.ppm 50360a3120310a3235350a000000
@0 2 1 0 1~0 3 0 0 1~0 3 0 0 1~
glscript 1
context 0 1 1 128
0 EnableClientState VERTEX_ARRAY
0 VertexPointer 4 FIXED 33 0
0 DrawArrays TRIANGLES 0 3
end
~
glreport 1
$images 1
end
~frame-0.ppm 50360a3120310a3235350a000000
@0 3 1 0 1~0 3 1 0 1~0 3 1 0 1~
glscript 1
context 0 4 4 32
0 mem 28 FFFF01FF
0 EnableClientState VERTEX_ARRAY
0 VertexPointer 2 BYTE 0 28
0 DrawArrays TRIANGLES 0 3
0 Finish
end
~
glreport 1
$images 1
end
~frame-0.ppm 50360a3420340a3235350a\
000000000000000000000000\
000000000000000000000000\
000000ffffff000000000000\
ffffffffffffffffff000000
@0 3 1 0 1~0 3 1 0 1~0 3 1 0 1~
glscript 1
context 0 4 4 32
0 mem 28 FFFF01FF
0 EnableClientState VERTEX_ARRAY
0 VertexPointer 2 BYTE 2147483647 28
0 DrawArrays TRIANGLES 65533 3
0 GetError
end
~
glreport 1
7 0 GetError 0
$images 1
end
~frame-0.ppm 50360a3420340a3235350a\
000000000000000000000000\
000000000000000000000000\
000000000000000000000000\
000000000000000000000000
@0 6 0 0 2~0 6 0 0 1~0 6 0 0 1~
glscript 1
context 0 4 4 32
0 mem 16 FFFF01FFFF010101
0 EnableClientState VERTEX_ARRAY
0 VertexPointer 2 BYTE 0 16
0 Enable BLEND
0 BlendFunc ONE ONE
0 Color4x 16384 16384 16384 16384
0 DrawArrays TRIANGLE_STRIP 0 4
end
~
glreport 1
$images 1
end
~frame-0.ppm 50360a3420340a3235350a\
404040404040404040404040\
404040404040404040404040\
404040404040404040404040\
404040404040404040404040
@0 3 0 0 2~0 3 0 0 1~0 3 0 0 1~
glscript 1
context 0 4 4 48
0 mem 0 0000FFFF0000FFFF0000000000000100
0 mem 16 000000000000FFFF0000000000000100
0 mem 32 0000000000000300000000000000FFFF
0 EnableClientState VERTEX_ARRAY
0 VertexPointer 4 FIXED 0 0
0 DrawArrays TRIANGLES 0 3
end
~
glreport 1
$images 1
end
~frame-0.ppm 50360a3420340a3235350a\
ffffffffffff000000000000\
ffffffffffff000000000000\
ffffffffffff000000000000\
ffffffffffff000000000000
@0 3 0 0 2~0 3 0 0 1~0 3 0 0 1~
glscript 1
context 0 4 4 48
0 mem 0 0000FFFF0000FFFF0000000000000100
0 mem 16 000000000000FFFF0000000000000100
0 mem 32 0000FFFF0000FFFF0000000000000100
0 EnableClientState VERTEX_ARRAY
0 VertexPointer 4 FIXED 0 0
0 DrawArrays TRIANGLES 0 3
end
~
glreport 1
$images 1
end
~frame-0.ppm 50360a3420340a3235350a\
000000000000000000000000\
000000000000000000000000\
000000000000000000000000\
000000000000000000000000
@0 12 2 0 6~0 12 2 0 2~0 12 2 0 1~
glscript 1
context 0 8 6 280
0 mem 0 \
0000010000000000000000000000000000000000000001000000000000000000\
0040000000000000000001000080000000000000000000000000000000800100
0 mem 64 \
0080000000000000000000000000000000400000000001000000000000000000\
0000000000000000000001000000000000400000000000000000000000000100
0 mem 128 \
00c000000040000000800000000000000000000000c000000000000000000000\
0000000000000000000001000000000000000000000000000000000000000100
0 mem 192 \
0000010000000000000000000000000000000000008000000000010000000000\
0000000000000000000001000000000000000000008000000000000000000100
0 mem 256 fcfd04fefe040000
0 mem 264 ff0000ff00ff00ff0000ffff
0 MatrixMode PROJECTION
0 LoadMatrixx 0
0 mem 0 55555555555555555555555555555555
0 MultMatrixx 64
0 MatrixMode MODELVIEW
0 LoadMatrixx 128
0 Translatex 16384 -32768 8192
0 MultMatrixx 192
0 mem 128 AAAAAAAAAAAAAAAAAAAAAAAAAAAAAAAA
0 EnableClientState VERTEX_ARRAY
0 VertexPointer 2 BYTE 0 256
0 EnableClientState COLOR_ARRAY
0 ColorPointer 4 UNSIGNED_BYTE 0 264
0 DrawArrays TRIANGLES 0 3
0 GetFixedv PROJECTION_MATRIX 0
0 GetFixedv MODELVIEW_MATRIX 64
end
~
glreport 1
23 0 GetFixedv 32768 0 0 0 16384 65536 0 0 16384 0 65536 32768 16384 0 0 98304
24 0 GetFixedv 49152 16384 32768 0 0 24576 65536 0 0 0 65536 0 12288 4096 16384 65536
$images 1
end
~frame-0.ppm 50360a3820360a3235350a\
000000000000000000000000000000000000000000000000\
000000000000000000000000000000000000000000000000\
0000000000000000000000002f2fa2236a73189c4a0fc927\
00000000000062207d57485f4e6d44458f2c3dad1535c901\
7c186b723755000000000000000000000000000000000000\
000000000000000000000000000000000000000000000000
@0 38 1 0 14~0 38 1 0 3~0 38 1 0 1~
glscript 1
context 0 8 8 64
0 mem 0 fcfcfd02fc03fc030104040204fefdfd0400
0 mem 18 ff4000ffff4000ffff4000ff20c0ffff20c0ffff20c0ffff
0 EnableClientState VERTEX_ARRAY
0 VertexPointer 3 BYTE 0 0
0 EnableClientState COLOR_ARRAY
0 ColorPointer 4 UNSIGNED_BYTE 0 18
0 Scalex 16384 16384 16384
0 Enable CULL_FACE
0 Enable DEPTH_TEST
0 Enable SCISSOR_TEST
0 Scissor 1 0 6 7
0 Viewport 0 0 4 4
0 CullFace BACK
0 FrontFace CCW
0 DepthRangex 0 32768
0 DrawArrays TRIANGLES 0 6
0 Viewport 4 0 4 4
0 FrontFace CW
0 DepthRangex 16384 65536
0 DrawArrays TRIANGLES 0 6
0 Viewport 0 4 4 4
0 CullFace FRONT
0 FrontFace CCW
0 DepthRangex 65536 0
0 DrawArrays TRIANGLES 0 6
0 Viewport 4 4 4 4
0 FrontFace CW
0 DepthRangex 0 16384
0 DrawArrays TRIANGLES 0 6
0 CullFace FRONT_AND_BACK
0 DepthRangex 0 0
0 Viewport 0 0 8 8
0 DrawArrays TRIANGLES 0 6
0 Disable CULL_FACE
0 DisableClientState COLOR_ARRAY
0 Color4x 65536 65536 0 65536
0 DepthRangex 16384 57344
0 Viewport -2 -3 26 20
0 Scissor 0 1 7 5
0 DrawArrays TRIANGLES 0 6
0 GetError
end
~
glreport 1
43 0 GetError 0
$images 1
end
~frame-0.ppm 50360a3820380a3235350a\
000000000000000000000000000000000000000000000000\
00000000000020c0ff20c0ffff4000000000000000000000\
ffff00ffff00ffff00ffff00ff4000ff4000ffff00000000\
ffff00ffff00ffff00ffff00ff4000ff4000ff4000000000\
ffff00ffff00ffff00ffff00ffff0020c0ffffff00000000\
ffff00ffff00ffff00ffff00ffff00ffff0020c0ff000000\
ffff00ff4000ffff00ffff00ffff00ffff00ffff00000000\
000000ff4000ff4000000000000000000000000000000000
@0 10 3 0 4~0 11 2 0 2~0 11 2 0 2~
glscript 1
context 0 5 4 160
0 mem 0 \
0000ffff0000ffffff0000ff00c000000000ffff00ff00ff\
0000010000c0ffff0000ffff0080000000800000ffff00ff\
0000000000c0000000ffffff0080ffff00c00000ff00ffff
0 mem 72 010100010100
0 EnableClientState VERTEX_ARRAY
0 EnableClientState COLOR_ARRAY
0 VertexPointer 2 FIXED 12 0
0 ColorPointer 4 UNSIGNED_BYTE 12 8
0 DrawArrays TRIANGLE_FAN 0 6
0 mem 0 \
000000000000000000000000000000000000000000000000\
000000000000000000000000000000000000000000000000\
000000000000000000000000000000000000000000000000
0 DisableClientState COLOR_ARRAY
0 VertexPointer 2 BYTE 0 72
0 Color4x 65536 65536 65536 65536
0 DrawArrays TRIANGLES 0 3
0 mem 72 FFFFFFFFFFFF
0 Finish
0 ReadPixels 0 0 5 4 RGBA UNSIGNED_BYTE 80
0 image read 5 4 80
0 mem 80 00000000
0 Color4x 0 0 0 65536
0 mem 72 0000FF000001
0 DrawArrays TRIANGLES 0 3
0 mem 72 FFFFFFFFFFFF
end
~
glreport 1
17 0 ReadPixels 80
$images 2
end
~image-read.ppm 50360a3520340a3235350a\
000000000000000000ffffffffffff\
000000837cb6aac655e0c51fffffff\
000000cc7733cc66337a3d852914d6\
ee2811b807477931553f6b5505a555
~frame-0.ppm 50360a3520340a3235350a\
000000000000000000ffffffffffff\
000000000000aac655e0c51fffffff\
000000cc7733cc66337a3d852914d6\
ee2811b807477931553f6b5505a555
";
