//! Scripts and what they leave, as data for the tests over whole runs. Each run stands behind an `@`: the words, how it ends,
//! the script, the report, and each file as its name and its bytes in hexadecimal, with a `~` between each two. The words
//! name no rail. In a script and in a file `^` stands around a number and a text that is repeated so many times; in a report
//! around the number of bytes that no one looks at.

/// Whole runs. They begin with the smallest, errors and stacks, and a get beside a pending error. Then come batches of 16
/// slots, which have room for three calls of five slots each; pixels that were read and are an image; each call once at
/// least, without an error; a read whose upper row lies above the frame, where the bytes between rows stay; numbers and
/// images at the end of memory; and `direct`.
pub(crate) const RUNS: &str = "\
@run~done~
glscript 1
context 0 4 4 0
0 ClearColorx 65536 0 0 65536
0 Clear COLOR_BUFFER_BIT
end
~
glreport 1
counts 0 2 0 0 1
images 1
end
~frame-0.ppm 50360a3420340a3235350aff0000ff0000ff0000ff0000ff0000ff0000ff0000ff0000ff0000ff0000ff0000ff0000ff0000ff0000ff0000ff0000
@run~done~
glscript 1
context 0 1 1 0
end
~
glreport 1
counts 0 0 0 0 0
images 1
end
~frame-0.ppm 50360a3120310a3235350a000000
@run~done~
glscript 1
context 0 1 1 0
0 Clear 1
0 GetError
0 GetError
end
~
glreport 1
4 0 GetError 1281
5 0 GetError 0
counts 0 1 2 0 1
images 1
end
~frame-0.ppm 50360a3120310a3235350a000000
@run~done~
glscript 1
context 0 1 1 0
0 PopMatrix
0 MatrixMode PROJECTION
0 PushMatrix
0 PushMatrix
0 GetError
0 GetError
end
~
glreport 1
7 0 GetError 1284
8 0 GetError 0
counts 0 4 2 0 1
images 1
end
~frame-0.ppm 50360a3120310a3235350a000000
@run~done~
glscript 1
context 0 1 1 16
0 MatrixMode 0x9999
0 GetIntegerv MATRIX_MODE 0
0 GetError
0 GetError
end
~
glreport 1
4 0 GetIntegerv 5888
5 0 GetError 1280
6 0 GetError 0
counts 0 1 2 1 1
images 1
end
~frame-0.ppm 50360a3120310a3235350a000000
@run~done~
glscript 1
context 0 1 1 16
0 MatrixMode 0x9999
0 PopMatrix
0 GetError
0 GetError
end
~
glreport 1
5 0 GetError 1280
6 0 GetError 0
counts 0 2 2 0 1
images 1
end
~frame-0.ppm 50360a3120310a3235350a000000
@run~done~
glscript 1
context 0 1 1 8
0 MatrixMode PROJECTION
0 PushMatrix
0 PushMatrix
0 GetError
0 GetIntegerv PROJECTION_STACK_DEPTH 0
0 PopMatrix
0 PopMatrix
0 GetError
0 GetIntegerv PROJECTION_STACK_DEPTH 0
end
~
glreport 1
6 0 GetError 1283
7 0 GetIntegerv 2
10 0 GetError 1284
11 0 GetIntegerv 1
counts 0 5 2 2 2
images 1
end
~frame-0.ppm 50360a3120310a3235350a000000
@direct~done~
glscript 1
context 0 1 1 0
0 Clear 1
0 GetError
end
~
glreport 1
4 0 GetError 1281
images 1
end
~frame-0.ppm 50360a3120310a3235350a000000
@run --ring 1 --batch 16~done~
glscript 1
context 0 1 1 64
0 ClearColorx 0 0 0 0
0 ClearColorx 0 0 0 0
0 ClearColorx 0 0 0 0
0 ClearColorx 0 0 0 0
end
~
glreport 1
counts 0 4 0 0 2
images 1
end
~frame-0.ppm 50360a3120310a3235350a000000
@run --ring 1 --batch 8192~done~
glscript 1
context 0 1 1 64
0 ClearColorx 0 0 0 0
0 ClearColorx 0 0 0 0
0 ClearColorx 0 0 0 0
0 ClearColorx 0 0 0 0
end
~
glreport 1
counts 0 4 0 0 1
images 1
end
~frame-0.ppm 50360a3120310a3235350a000000
@run~done~
glscript 1
context 0 2 1 128
0 ClearColorx 0 65536 0 65536
0 Clear 0x4000
0 ReadPixels 0 0 2 1 RGBA UNSIGNED_BYTE 0
0 image shot 2 1 0
end
~
glreport 1
5 0 ReadPixels 8
counts 0 2 1 0 1
images 2
end
~image-shot.ppm 50360a3220310a3235350a00ff0000ff00
~frame-0.ppm 50360a3220310a3235350a00ff0000ff00
@direct~done~
glscript 1
context 0 2 1 128
0 ClearColorx 0 65536 0 65536
0 Clear 0x4000
0 ReadPixels 0 0 2 1 RGBA UNSIGNED_BYTE 0
0 image shot 2 1 0
end
~
glreport 1
5 0 ReadPixels 8
images 2
end
~image-shot.ppm 50360a3220310a3235350a00ff0000ff00
~frame-0.ppm 50360a3220310a3235350a00ff0000ff00
@run --batch 16~done~
glscript 1
context 0 2 2 64
0 ActiveTexture TEXTURE1
0 ClientActiveTexture TEXTURE1
0 TexCoordPointer 2 SHORT 4 8
0 EnableClientState TEXTURE_COORD_ARRAY
0 VertexPointer 3 FIXED 12 16
0 NormalPointer BYTE 3 24
0 ColorPointer 4 UNSIGNED_BYTE 4 32
0 EnableClientState VERTEX_ARRAY
0 DisableClientState VERTEX_ARRAY
0 PixelStorei PACK_ALIGNMENT 1
0 Viewport 1 0 1 2
0 MatrixMode PROJECTION
0 LoadIdentity
0 PushMatrix
0 Frustumx -65536 65536 -65536 65536 65536 131072
0 PopMatrix
0 Orthox 0 131072 0 131072 -65536 65536
0 Translatex 65536 0 0
0 Scalex 131072 65536 65536
0 Rotatex 5898240 0 0 65536
0 ClearColorx 65536 32768 0 65536
0 Clear COLOR_BUFFER_BIT
0 GetFixedv PROJECTION_MATRIX 0
0 GetFixedv DEPTH_CLEAR_VALUE 0
0 GetIntegerv VIEWPORT 0
0 GetIntegerv TEXTURE_STACK_DEPTH 0
0 GetIntegerv TEXTURE_COORD_ARRAY_TYPE 0
0 GetPointerv TEXTURE_COORD_ARRAY_POINTER 0
0 IsEnabled DITHER
0 IsEnabled VERTEX_ARRAY
0 ReadPixels 1 1 2 1 RGBA UNSIGNED_BYTE 8
0 Flush
0 Finish
0 GetError
0 image seen 4 1 0
end
~
glreport 1
25 0 GetFixedv 0 65536 0 0 -131072 0 0 0 0 0 -65536 0 0 -65536 0 65536
26 0 GetFixedv 65536
27 0 GetIntegerv 1 0 1 2
28 0 GetIntegerv 1
29 0 GetIntegerv 5122
30 0 GetPointerv 8
31 0 IsEnabled 1
32 0 IsEnabled 0
33 0 ReadPixels 8
36 0 GetError 0
counts 0 23 7 4 6
images 2
end
~image-seen.ppm 50360a3420310a3235350a080000000000ff8000000000
~frame-0.ppm 50360a3220320a3235350aff8000ff8000ff8000ff8000
@run --batch 1024~done~
glscript 1
context 0 2 2 64
0 ActiveTexture TEXTURE1
0 ClientActiveTexture TEXTURE1
0 TexCoordPointer 2 SHORT 4 8
0 EnableClientState TEXTURE_COORD_ARRAY
0 VertexPointer 3 FIXED 12 16
0 NormalPointer BYTE 3 24
0 ColorPointer 4 UNSIGNED_BYTE 4 32
0 EnableClientState VERTEX_ARRAY
0 DisableClientState VERTEX_ARRAY
0 PixelStorei PACK_ALIGNMENT 1
0 Viewport 1 0 1 2
0 MatrixMode PROJECTION
0 LoadIdentity
0 PushMatrix
0 Frustumx -65536 65536 -65536 65536 65536 131072
0 PopMatrix
0 Orthox 0 131072 0 131072 -65536 65536
0 Translatex 65536 0 0
0 Scalex 131072 65536 65536
0 Rotatex 5898240 0 0 65536
0 ClearColorx 65536 32768 0 65536
0 Clear COLOR_BUFFER_BIT
0 GetFixedv PROJECTION_MATRIX 0
0 GetFixedv DEPTH_CLEAR_VALUE 0
0 GetIntegerv VIEWPORT 0
0 GetIntegerv TEXTURE_STACK_DEPTH 0
0 GetIntegerv TEXTURE_COORD_ARRAY_TYPE 0
0 GetPointerv TEXTURE_COORD_ARRAY_POINTER 0
0 IsEnabled DITHER
0 IsEnabled VERTEX_ARRAY
0 ReadPixels 1 1 2 1 RGBA UNSIGNED_BYTE 8
0 Flush
0 Finish
0 GetError
0 image seen 4 1 0
end
~
glreport 1
25 0 GetFixedv 0 65536 0 0 -131072 0 0 0 0 0 -65536 0 0 -65536 0 65536
26 0 GetFixedv 65536
27 0 GetIntegerv 1 0 1 2
28 0 GetIntegerv 1
29 0 GetIntegerv 5122
30 0 GetPointerv 8
31 0 IsEnabled 1
32 0 IsEnabled 0
33 0 ReadPixels 8
36 0 GetError 0
counts 0 23 7 4 2
images 2
end
~image-seen.ppm 50360a3420310a3235350a080000000000ff8000000000
~frame-0.ppm 50360a3220320a3235350aff8000ff8000ff8000ff8000
@run~done~
glscript 1
context 0 1 2 20
0 mem 0 EEEEEEEEEEEEEEEEEEEEEEEEEEEEEEEEEEEEEEEE
0 PixelStorei PACK_ALIGNMENT 8
0 ClearColorx 65536 0 0 65536
0 Clear 0x4000
0 ReadPixels 0 1 1 2 RGBA UNSIGNED_BYTE 4
0 image all 5 1 0
end
~
glreport 1
7 0 ReadPixels 8
counts 0 3 1 0 1
images 2
end
~image-all.ppm 50360a3520310a3235350aeeeeeeff0000eeeeee000000eeeeee
~frame-0.ppm 50360a3120320a3235350aff0000ff0000
@run~done~
glscript 1
context 0 1 1 8
0 mem 0 1122334455667788
0 GetIntegerv MATRIX_MODE 5
0 GetIntegerv MATRIX_MODE 100
0 image all 1 2 0
end
~
glreport 1
4 0 GetIntegerv 5888
5 0 GetIntegerv 5888
counts 0 0 0 2 0
images 2
end
~image-all.ppm 50360a3120320a3235350a550017112233
~frame-0.ppm 50360a3120310a3235350a000000
@direct~done~
glscript 1
context 0 4 4 0
0 ClearColorx 65536 0 0 65536
0 Clear COLOR_BUFFER_BIT
end
~
glreport 1
images 1
end
~frame-0.ppm 50360a3420340a3235350aff0000ff0000ff0000ff0000ff0000ff0000ff0000ff0000ff0000ff0000ff0000ff0000ff0000ff0000ff0000ff0000
@direct~done~
glscript 1
context 0 1 1 0
end
~
glreport 1
images 1
end
~frame-0.ppm 50360a3120310a3235350a000000
@direct~done~
glscript 1
context 0 2 3 0
0 Clear 1
0 Clear 0x4000
0 GetError
0 ClearColorx -5 32768 70000 65535
0 Clear 0x4000
0 Clear 0x100
0 Flush
0 GetError
0 Finish
0 Clear 0xC000
0 Clear 0x7FFFFFFF
0 GetError
0 GetError
end
~
glreport 1
5 0 GetError 1281
10 0 GetError 0
14 0 GetError 1281
15 0 GetError 0
images 1
end
~frame-0.ppm 50360a3220330a3235350a0080ff0080ff0080ff0080ff0080ff0080ff
@direct~done~
glscript 1
context 0 1 1 0
0 ClearColorx 65536 0 0 0
0 ClearColorx 65536 0 0 0
0 ClearColorx 65536 0 0 0
0 Flush
0 Flush
0 ClearColorx 65536 0 0 0
0 Finish
0 ClearColorx 65536 0 0 0
0 ClearColorx 65536 0 0 0
0 ClearColorx 65536 0 0 0
0 Clear 0x4000
end
~
glreport 1
images 1
end
~frame-0.ppm 50360a3120310a3235350aff0000
";

/// Words that are refused, and scripts with a fault in each line that may have one.
pub(crate) const REFUSED: &str = "\
@run --ring 65~bad words~
glscript 1
context 0 4 4 0
0 ClearColorx 65536 0 0 65536
0 Clear COLOR_BUFFER_BIT
end
~
@run~line 1: NoEnd~
~
@run~line 1: BadHeader~
glscript 9
context 0 4 4 0
0 ClearColorx 65536 0 0 65536
0 Clear COLOR_BUFFER_BIT
end
~
@run~line 2: OutOfRange~
glscript 1
context 0 4 257 0
0 ClearColorx 65536 0 0 65536
0 Clear COLOR_BUFFER_BIT
end
~
@run~line 3: UnknownWord~
glscript 1
context 0 4 4 0
0 clear 1
0 Clear COLOR_BUFFER_BIT
end
~
@run~line 3: OutOfRange~
glscript 1
context 0 4 4 0
0 ClearColorx 2147483648 0 0 0
0 Clear COLOR_BUFFER_BIT
end
~
@run~line 4: BadNumber~
glscript 1
context 0 4 4 0
0 ClearColorx 65536 0 0 65536
0 Clear 5x
end
~
@run~line 4: NotText~
glscript 1
context 0 4 4 0
0 ClearColorx 65536 0 0 65536
0 Clear COLOR_BUFFER_BIT\u{80}
end
~
@run~line 5: NoEnd~
glscript 1
context 0 4 4 0
0 ClearColorx 65536 0 0 65536
0 Clear COLOR_BUFFER_BIT
~
@run~line 5: WrongCount~
glscript 1
context 0 4 4 0
0 ClearColorx 65536 0 0 65536
0 Clear COLOR_BUFFER_BIT
0 Clear
end
~
@run~line 5: NoSuchContext~
glscript 1
context 0 4 4 0
0 ClearColorx 65536 0 0 65536
0 Clear COLOR_BUFFER_BIT
1 Flush
end
~
@run~line 6: AfterEnd~
glscript 1
context 0 4 4 0
0 ClearColorx 65536 0 0 65536
0 Clear COLOR_BUFFER_BIT
end
0 Flush
~
";
