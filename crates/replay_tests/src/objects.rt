//! Scripts of buffers, of names of textures, and of draws by indices, and what they leave, as data in the form of `drawn.rt`.

/// First an element with the least index, from which on vertices are captured; the same indices in a buffer, beside vertices in
/// client memory, for which the draw waits; an array whose buffer is deleted, so that its offset is an address; names that are
/// given, bound, asked for and deleted; and a buffer that is too large. Then draws whose arrays and indices all lie in buffers, of
/// which parts and whole stores become others between the draws, also shorter ones, behind whose ends nothing of the old bytes
/// is left. Then buffers of arrays and of indices that are deleted while they are bound, by names that are written over behind
/// the call; and names of buffers and of textures in both units that are deleted while they are bound, and asked for. Then each
/// error of these calls, the first of several, and what a store refuses. At last elements far apart whose indices end with memory
/// and past it, uploads and names that are longer than a batch of 16 slots, a draw by indices in client memory of vertices in a
/// buffer, and one by indices of a buffer that has no store.
pub(crate) const OBJECTS: &str = "\
@0 3 0 0 2~0 3 0 0 1~0 3 0 0 1~
glscript 1
context 0 4 4 32
0 mem 8 050304
0 mem 22 FFFF01FFFF01
0 EnableClientState VERTEX_ARRAY
0 VertexPointer 2 BYTE 0 16
0 DrawElements TRIANGLES 3 UNSIGNED_BYTE 8
end
~
glreport 1
$images 1
end
~frame-0.ppm 50360a3420340a3235350a\
000000000000000000000000\
ffffff000000000000000000\
ffffffffffff000000000000\
ffffffffffffffffff000000
@0 4 1 0 2~0 4 1 0 1~0 4 1 0 1~
glscript 1
context 0 4 4 32
0 mem 8 050304
0 mem 22 FFFF01FFFF01
0 EnableClientState VERTEX_ARRAY
0 VertexPointer 2 BYTE 0 16
0 BindBuffer ELEMENT_ARRAY_BUFFER 1
0 BufferData ELEMENT_ARRAY_BUFFER 3 8 STATIC_DRAW
0 DrawElements TRIANGLES 3 UNSIGNED_BYTE 0
end
~
glreport 1
$images 1
end
~frame-0.ppm 50360a3420340a3235350a\
000000000000000000000000\
ffffff000000000000000000\
ffffffffffff000000000000\
ffffffffffffffffff000000
@0 6 0 1 2~0 6 0 1 1~0 6 0 1 1~
glscript 1
context 0 4 4 32
0 mem 4 01000000
0 BindBuffer ARRAY_BUFFER 1
0 BufferData ARRAY_BUFFER 64 0 STATIC_DRAW
0 VertexPointer 2 BYTE 0 22
0 EnableClientState VERTEX_ARRAY
0 DeleteBuffers 1 4
0 mem 22 FFFF01FFFF01
0 DrawArrays TRIANGLES 0 3
0 GetIntegerv VERTEX_ARRAY_BUFFER_BINDING 0
end
~
glreport 1
11 0 GetIntegerv 0
$images 1
end
~frame-0.ppm 50360a3420340a3235350a\
000000000000000000000000\
ffffff000000000000000000\
ffffffffffff000000000000\
ffffffffffffffffff000000
@0 2 5 0 2~0 2 5 0 2~0 2 5 0 2~
glscript 1
context 0 1 1 16
0 GenBuffers 2 0
0 IsBuffer 1
0 BindBuffer ARRAY_BUFFER 1
0 IsBuffer 1
0 GenBuffers 1 8
0 DeleteBuffers 1 0
0 GenBuffers 1 8
end
~
glreport 1
3 0 GenBuffers 1 2
4 0 IsBuffer 0
6 0 IsBuffer 1
7 0 GenBuffers 3
9 0 GenBuffers 1
$images 1
end
~frame-0.ppm 50360a3120310a3235350a000000
@0 5 3 0 3~0 5 3 0 3~0 5 3 0 3~
glscript 1
context 0 2 1 128
0 ClearColorx 0 65536 0 65536
0 Clear 0x4000
0 ReadPixels 0 0 2 1 RGBA UNSIGNED_BYTE 0
0 image shot 2 1 0
0 Rotatex 5898240 0 0 65536
0 GetFixedv MODELVIEW_MATRIX 64
0 BindBuffer ARRAY_BUFFER 3
0 BufferData ARRAY_BUFFER 67108865 0 STATIC_DRAW
0 GetError
end
~
glreport 1
5 0 ReadPixels 8
8 0 GetFixedv 0 65536 0 0 -65536 0 0 0 0 0 65536 0 0 0 0 65536
11 0 GetError 1285
$images 2
end
~image-shot.ppm 50360a3220310a3235350a00ff0000ff00
~frame-0.ppm 50360a3220310a3235350a00ff0000ff00
@0 21 1 0 9~0 21 1 0 2~0 21 1 0 1~
glscript 1
context 0 6 5 64
0 mem 4 FEFE02FE00020202
0 mem 16 FF0000FF00FF00FF0000FFFFFFFFFFFF
0 mem 32 030001000200010000000200
0 BindBuffer ARRAY_BUFFER 7
0 BufferData ARRAY_BUFFER 8 4 STATIC_DRAW
0 VertexPointer 2 BYTE 0 0
0 BindBuffer ARRAY_BUFFER 4
0 BufferData ARRAY_BUFFER 40 0 DYNAMIC_DRAW
0 BufferSubData ARRAY_BUFFER 24 16 16
0 ColorPointer 4 UNSIGNED_BYTE 0 24
0 BindBuffer ELEMENT_ARRAY_BUFFER 9
0 BufferData ELEMENT_ARRAY_BUFFER 12 32 STATIC_DRAW
0 mem 4 5555555555555555555555555555555555555555555555555555555555555555
0 EnableClientState VERTEX_ARRAY
0 EnableClientState COLOR_ARRAY
0 Scalex 21845 21845 21845
0 DrawElements TRIANGLES 3 UNSIGNED_SHORT 6
0 mem 8 FFC0
0 BindBuffer ARRAY_BUFFER 4
0 BufferSubData ARRAY_BUFFER 36 2 8
0 mem 32 000102030303
0 BufferSubData ELEMENT_ARRAY_BUFFER 2 3 33
0 DrawElements TRIANGLE_STRIP 3 UNSIGNED_BYTE 2
0 mem 48 FF00FFFFFF00
0 BufferData ARRAY_BUFFER 30 24 STATIC_DRAW
0 BufferData ELEMENT_ARRAY_BUFFER 4 32 STATIC_DRAW
0 Scalex 32768 32768 32768
0 DrawElements TRIANGLES 6 UNSIGNED_BYTE 0
0 GetError
end
~
glreport 1
31 0 GetError 0
$images 1
end
~frame-0.ppm 50360a3620350a3235350a\
000000000000000000000000000000000000\
0000000000000000000d3dcc8c9dcc000000\
00000000000060208020608040af80000000\
000000c6063386463346863306c633000000\
000000000000000000000000000000000000
@0 13 5 4 6~0 13 5 4 2~0 13 5 4 2~
glscript 1
context 0 4 4 64
0 mem 0 0500000006000000
0 mem 8 000102
0 mem 16 FFFF01FFFF01
0 mem 32 00FF00FF00FF00FF00FF00FF
0 BindBuffer ARRAY_BUFFER 5
0 BufferData ARRAY_BUFFER 6 16 STATIC_DRAW
0 VertexPointer 2 BYTE 0 16
0 BindBuffer ELEMENT_ARRAY_BUFFER 6
0 BufferData ELEMENT_ARRAY_BUFFER 3 8 STATIC_DRAW
0 BindBuffer ARRAY_BUFFER 8
0 ColorPointer 4 UNSIGNED_BYTE 0 32
0 EnableClientState VERTEX_ARRAY
0 EnableClientState COLOR_ARRAY
0 DeleteBuffers 2 0
0 mem 0 0800000000000000
0 DrawElements TRIANGLES 3 UNSIGNED_BYTE 8
0 GetIntegerv VERTEX_ARRAY_BUFFER_BINDING 40
0 GetIntegerv ELEMENT_ARRAY_BUFFER_BINDING 40
0 GetIntegerv COLOR_ARRAY_BUFFER_BINDING 40
0 GetIntegerv ARRAY_BUFFER_BINDING 40
0 ReadPixels 0 0 4 4 RGBA UNSIGNED_BYTE 0
0 image black 4 4 0
0 mem 0 0800000000000000
0 mem 8 000102
0 mem 16 FFFF01FFFF01
0 mem 32 00FF00FF00FF00FF00FF00FF
0 DeleteBuffers 2 0
0 mem 0 1111111100000000
0 DrawElements TRIANGLES 3 UNSIGNED_BYTE 8
0 IsBuffer 5
0 IsBuffer 6
0 IsBuffer 8
0 GetError
end
~
glreport 1
19 0 GetIntegerv 0
20 0 GetIntegerv 0
21 0 GetIntegerv 8
22 0 GetIntegerv 8
23 0 ReadPixels 64
32 0 IsBuffer 0
33 0 IsBuffer 0
34 0 IsBuffer 0
35 0 GetError 0
$images 2
end
~image-black.ppm 50360a3420340a3235350a\
000000000000000000000000\
000000000000000000000000\
000000000000000000000000\
000000000000000000000000
~frame-0.ppm 50360a3420340a3235350a\
000000000000000000000000\
00ff00000000000000000000\
00ff0000ff00000000000000\
00ff0000ff0000ff00000000
@0 12 23 4 6~0 12 23 4 5~0 12 23 4 5~
glscript 1
context 0 1 1 64
0 GenBuffers 3 0
0 GenTextures 2 16
0 BindBuffer ARRAY_BUFFER 2
0 BindBuffer ELEMENT_ARRAY_BUFFER 2
0 NormalPointer BYTE 0 0
0 BindBuffer ARRAY_BUFFER 1
0 TexCoordPointer 2 BYTE 0 0
0 IsBuffer 1
0 IsBuffer 2
0 IsBuffer 3
0 IsBuffer 0
0 BindTexture TEXTURE_2D 2
0 ActiveTexture TEXTURE1
0 BindTexture TEXTURE_2D 9
0 IsTexture 1
0 IsTexture 2
0 IsTexture 9
0 IsTexture 0
0 GetIntegerv TEXTURE_BINDING_2D 60
0 mem 20 02000000000000000900000003000000
0 DeleteBuffers 4 20
0 DeleteTextures 3 20
0 mem 20 FFFFFFFFFFFFFFFFFFFFFFFFFFFFFFFF
0 GetIntegerv ARRAY_BUFFER_BINDING 60
0 GetIntegerv ELEMENT_ARRAY_BUFFER_BINDING 60
0 GetIntegerv NORMAL_ARRAY_BUFFER_BINDING 60
0 GetIntegerv TEXTURE_COORD_ARRAY_BUFFER_BINDING 60
0 GetIntegerv TEXTURE_BINDING_2D 60
0 ActiveTexture TEXTURE0
0 GetIntegerv TEXTURE_BINDING_2D 60
0 IsBuffer 1
0 IsBuffer 2
0 IsBuffer 3
0 IsTexture 1
0 IsTexture 2
0 IsTexture 9
0 GenBuffers 3 0
0 GenTextures 3 16
0 BindBuffer ARRAY_BUFFER 2
0 IsBuffer 2
0 GetError
0 image names 3 1 0
0 image textures 3 1 16
end
~
glreport 1
3 0 GenBuffers 1 2 3
4 0 GenTextures 1 2
10 0 IsBuffer 1
11 0 IsBuffer 1
12 0 IsBuffer 0
13 0 IsBuffer 0
17 0 IsTexture 0
18 0 IsTexture 1
19 0 IsTexture 1
20 0 IsTexture 0
21 0 GetIntegerv 9
26 0 GetIntegerv 1
27 0 GetIntegerv 0
28 0 GetIntegerv 0
29 0 GetIntegerv 1
30 0 GetIntegerv 0
32 0 GetIntegerv 0
33 0 IsBuffer 1
34 0 IsBuffer 0
35 0 IsBuffer 0
36 0 IsTexture 0
37 0 IsTexture 0
38 0 IsTexture 0
39 0 GenBuffers 2 3 4
40 0 GenTextures 2 3 4
42 0 IsBuffer 1
43 0 GetError 0
$images 3
end
~image-names.ppm 50360a3320310a3235350a020000030000040000
~image-textures.ppm 50360a3320310a3235350a020000030000040000
~frame-0.ppm 50360a3120310a3235350a000000
@0 27 34 0 24~0 27 34 0 23~0 27 34 0 23~
glscript 1
context 0 1 1 16
0 BindBuffer 0x8894 1
0 GetError
0 BindTexture 0x0DE0 1
0 GetError
0 BufferData 0x8894 -1 0 0x88E6
0 GetError
0 BufferData ARRAY_BUFFER -1 0 0x88E6
0 GetError
0 BufferData ARRAY_BUFFER -1 0 STATIC_DRAW
0 GetError
0 BufferData ARRAY_BUFFER 4 0 STATIC_DRAW
0 GetError
0 BufferSubData 0x8894 -1 0 0
0 GetError
0 BufferSubData ARRAY_BUFFER -1 0 0
0 GetError
0 BufferSubData ARRAY_BUFFER 0 -1 0
0 GetError
0 BufferSubData ARRAY_BUFFER 0 4 0
0 GetError
0 DeleteBuffers -1 0
0 GetError
0 DeleteBuffers 257 0
0 GetError
0 DeleteTextures -1 0
0 GetError
0 DeleteTextures 257 0
0 GetError
0 GenBuffers -1 0
0 GetError
0 GenBuffers 257 0
0 GetError
0 GenTextures -1 0
0 GetError
0 GenTextures 257 0
0 GetError
0 DrawElements 7 -1 0x1400 0
0 GetError
0 DrawElements TRIANGLES -1 0x1402 0
0 GetError
0 DrawElements TRIANGLES -1 UNSIGNED_BYTE 0
0 GetError
0 DrawElements TRIANGLES 65537 UNSIGNED_SHORT 0
0 GetError
0 BindBuffer ELEMENT_ARRAY_BUFFER 3
0 BufferSubData ELEMENT_ARRAY_BUFFER 0 1 0
0 PopMatrix
0 GetError
0 GetError
0 BufferData ELEMENT_ARRAY_BUFFER 4 0 DYNAMIC_DRAW
0 BufferSubData ELEMENT_ARRAY_BUFFER 1 3 0
0 BufferSubData ELEMENT_ARRAY_BUFFER 4 0 0
0 GetError
0 BufferSubData ELEMENT_ARRAY_BUFFER 2 3 0
0 GetError
0 BufferSubData ELEMENT_ARRAY_BUFFER 0 67108865 0
0 GetError
0 DeleteBuffers 0 0
0 GenTextures 0 0
0 IsTexture 4294967295
0 GetError
end
~
glreport 1
4 0 GetError 1280
6 0 GetError 1280
8 0 GetError 1280
10 0 GetError 1280
12 0 GetError 1281
14 0 GetError 1282
16 0 GetError 1280
18 0 GetError 1281
20 0 GetError 1281
22 0 GetError 1282
24 0 GetError 1281
26 0 GetError 1281
28 0 GetError 1281
30 0 GetError 1281
31 0 GenBuffers
32 0 GetError 1281
33 0 GenBuffers
34 0 GetError 1281
35 0 GenTextures
36 0 GetError 1281
37 0 GenTextures
38 0 GetError 1281
40 0 GetError 1280
42 0 GetError 1280
44 0 GetError 1281
46 0 GetError 1281
50 0 GetError 1281
51 0 GetError 0
55 0 GetError 0
57 0 GetError 1281
59 0 GetError 1281
61 0 GenTextures
62 0 IsTexture 0
63 0 GetError 0
$images 1
end
~frame-0.ppm 50360a3120310a3235350a000000
@0 19 5 0 9~0 21 3 0 4~0 21 3 0 3~
glscript 1
context 0 5 5 96
0 mem 40 FEFE
0 mem 55 02FE
0 mem 70 0002
0 mem 74 01
0 mem 90 020000000100
0 EnableClientState VERTEX_ARRAY
0 VertexPointer 2 BYTE 15 40
0 Scalex 21845 21845 21845
0 Color4x 65536 32768 0 65536
0 DrawElements TRIANGLES 3 UNSIGNED_SHORT 90
0 mem 90 000000000000
0 Finish
0 VertexPointer 2 BYTE 30 40
0 mem 93 000102
0 Color4x 0 0 65536 65536
0 DrawElements TRIANGLES 3 UNSIGNED_BYTE 93
0 mem 93 000000
0 Color4x 0 65536 0 65536
0 BindBuffer ARRAY_BUFFER 1
0 BufferData ARRAY_BUFFER 88 1 STATIC_DRAW
0 VertexPointer 2 BYTE 15 39
0 BufferSubData ARRAY_BUFFER 70 2 74
0 mem 0 0500000004000000030000000200000001000000
0 BindBuffer ARRAY_BUFFER 0
0 BindTexture TEXTURE_2D 3
0 DeleteTextures 20 0
0 IsTexture 3
0 mem 0 00010200010200010200
0 DrawElements TRIANGLE_FAN 10 UNSIGNED_BYTE 0
0 mem 0 55555555555555555555
0 BindBuffer ELEMENT_ARRAY_BUFFER 8
0 DrawElements TRIANGLES 3 UNSIGNED_BYTE 0
0 BindBuffer ELEMENT_ARRAY_BUFFER 0
0 DrawElements TRIANGLES 0 UNSIGNED_BYTE 0
0 GetError
end
~
glreport 1
29 0 IsTexture 0
37 0 GetError 0
$images 1
end
~frame-0.ppm 50360a3520350a3235350a\
000000000000000000000000000000\
000000000000ff8000000000000000\
00000000000000ff00000000000000\
00000000ff0000ff0000ff00000000\
000000000000000000000000000000
";
