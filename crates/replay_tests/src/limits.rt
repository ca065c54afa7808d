//! Scripts at the limits of what a script may have, and past them, and what they leave, in the form of `told.rt`.

/// A byte behind the last line that a script may have, and a last line that goes on past the last byte.
pub(crate) const PAST_LIMITS: &str = "\
@run~line 262145: TooMany Lines~
glscript 1
context 0 4 4 0
0 ClearColorx 65536 0 0 65536
0 Clear COLOR_BUFFER_BIT
end
^262139 
^#~
@run~line 3: TooMany SourceBytes~
glscript 1
context 0 4 4 0
#^8388581 x^#~
";

/// The largest frame, client memory, image and read, a long line and full batches. The words are left out here, and a `$`
/// stands for the number of batches.
pub(crate) const LARGE: &str = "\
done~
glscript 1
context 0 256 256 1048576
0 mem 1 ^4096 5A^
0 image large 256 256 0
^1000 0 ClearColorx 65536 0 0 65536
^0 Clear COLOR_BUFFER_BIT
0 ReadPixels 0 0 512 512 RGBA UNSIGNED_BYTE 0
end
~
glreport 1
1006 0 ReadPixels 1048576
counts 0 1001 1 0 $
images 2
end
~image-large.ppm 50360a323536203235360a3235350a^192768 00^5a^767 00^^2304 5a^00^767 5a^
~frame-0.ppm 50360a323536203235360a3235350a^65536 ff0000^
";

/// The same of a small frame, with calls of 18 slots, of which the last draws by indices.
pub(crate) const SMALL: &str = "\
done~
glscript 1
context 0 4 4 32
0 mem 8 050304
0 mem 22 FFFF01FFFF01
0 EnableClientState VERTEX_ARRAY
0 VertexPointer 2 BYTE 0 16
0 DrawElements TRIANGLES 3 UNSIGNED_BYTE 8
end
~
glreport 1
counts 0 3 0 0 $
images 1
end
~frame-0.ppm 50360a3420340a3235350a\
000000000000000000000000\
ffffff000000000000000000\
ffffffffffff000000000000\
ffffffffffffffffff000000
";

/// As many lines as a script may have, over the longest ring.
pub(crate) const MOST_LINES: &str = "\
@run --ring 64 --batch 16~done~
glscript 1
context 0 1 1 0
^262141 0 Clear 0x4000
^end
~
glreport 1
counts 0 262141 0 0 32768
images 1
end
~frame-0.ppm 50360a3120310a3235350a000000
@run --batch 8192~done~
glscript 1
context 0 1 1 0
^262141 0 Clear 0x4000
^end
~
glreport 1
counts 0 262141 0 0 64
images 1
end
~frame-0.ppm 50360a3120310a3235350a000000
@run~done~
glscript 1
context 0 1 1 0
^262141 0 GetError
^end
~
glreport 1
^5131725^counts 0 0 262141 0 0
images 1
end
~frame-0.ppm 50360a3120310a3235350a000000
";

/// As many batches as a run may have.
pub(crate) const MOST_BATCHES: &str = "\
@run --ring 64 --batch 4096~done~
glscript 1
context 0 1 1 0
^262141 0 Flush
^end
~
glreport 1
counts 0 262141 0 0 262141
images 1
end
~frame-0.ppm 50360a3120310a3235350a000000
";
