//! What no clause says: that scripts are read at all, how a refusal is printed, and that the definitions
//! agree with another program.
//!
//! In a table a row is an answer and, behind ` : `, the script that has it. There `;` stands for LF, `^` for CR, `~` for the
//! byte 0x7F, and `$` for two lines, the head and a context of 4 by 4 pixels without memory.

use script_reader::{Act, Line, Name, ReadRefusal, read};
use std::alloc::{AllocError, Global};
use std::process::Abort;
use std::str::from_utf8;
use std::test::Fail;

const RED: &str = "$0 ClearColorx 65536 0 0 65536;0 Clear COLOR_BUFFER_BIT;end;";

// A script, and what a comment, blanks, line ends and other spellings of the numbers leave of it. Then digits of
// either case, and numbers in several spellings; the values are those of the rules in FORMATS.md.
const READ: &str = "\
4 4 0, 3: 0 ClearColorx 65536 0 0 65536, 4: 0 Clear 16384 : $0 ClearColorx 65536 0 0 65536;0 Clear COLOR_BUFFER_BIT;end;
4 4 0, 5: 0 ClearColorx 65536 0 0 65536, 6: 0 Clear 16384 : # red^;^;glscript 1^;context 0 0x4 4 -0^;00 ClearColorx 0x10000 ZERO 0 65536^;0 Clear 16384^;end
4 4 0, 4: 0 ClearColorx 65536 0 0 65536, 5: 0 Clear 16384 :  glscript\t1;\t#;context  0 4 0000000004 0;0 ClearColorx 65536 0 0 0x00010000 ;0\tClear 0x4000;end;#;
4 4 0, 3: 0 ColorMask 0 1 1 1, 4: 0 DepthMask 0 : $0 ColorMask 0 1 255 0x7F;0 DepthMask -0;end;
4 4 0, 3: 0 BindBuffer 34962 4294967295, 4: 0 BufferData 34963 -1 8 35044 : $0 BindBuffer ARRAY_BUFFER 4294967295;0 BufferData ELEMENT_ARRAY_BUFFER -1 8 STATIC_DRAW;end;
4 4 0, 3: 0 BufferSubData 34962 -5 2147483647 16, 4: 0 DrawElements 4 3 5123 0 : $0 BufferSubData ARRAY_BUFFER -5 2147483647 0x10;0 DrawElements TRIANGLES 3 UNSIGNED_SHORT 0;end;
4 4 0, 3: 0 TexEnvi 8960 8704 3042, 4: 0 TexEnvxv 8960 8705 4294967295 : $0 TexEnvi TEXTURE_ENV TEXTURE_ENV_MODE BLEND;0 TexEnvxv TEXTURE_ENV TEXTURE_ENV_COLOR 0xFFFFFFFF;end;
4 4 0, 3: 0 TexImage2D 3553 -1 6408 0 257 -2147483648 6409 5121 64 : $0 TexImage2D TEXTURE_2D -1 RGBA 0 257 -2147483648 LUMINANCE UNSIGNED_BYTE 64;end;
4 4 0, 3: 0 TexParameteri 3553 10240 9729, 4: 0 TexSubImage2D 3553 0 -3 2147483647 1 2 6406 5121 0 : $0 TexParameteri TEXTURE_2D TEXTURE_MAG_FILTER LINEAR;0 TexSubImage2D TEXTURE_2D 0 -3 2147483647 1 2 ALPHA UNSIGNED_BYTE 0;end;
4 4 0, 3: 0 mem 0: 9 : $0 mem 0 09;end;
4 4 0, 3: 0 mem 16: 160 191 : $00 mem 0x10 a0Bf\t;end;
4 4 0, 3: 0 mem 4294967295: 255 255 0 : $0 mem 4294967295 FFff00;end;
4 4 0, 3: 0 image 0: 1 2 a : $0 image a 1 0x2 -0;end;
4 4 0, 3: 0 image 8: 256 256 -Z_09 : $0 image -Z_09 256 0256 8;end;
";

#[test]
fn a_script_is_read_as_its_lines_say(rt: HostRuntime) -> Result<(), Fail> {
    for row in READ.lines() {
        let (wanted, script) = row.split_once(" : ").ok_or("no row")?;
        let script = script_in(rt.alloc(), script)?;
        assert_eq!(rt; told(rt.alloc(), script.as_slice())?.as_str(), wanted);
    }
    Ok(())
}

// The refusals are those of another program, and of the table in FORMATS.md.
const REFUSED: &str = "\
line 1: NoEnd :\x20
line 1: BadHeader : glscript 9;
line 2: BadHeader : glscript 1;end;
line 2: OutOfRange : glscript 1;context 0 4 257 0;
line 2: BadNumber : glscript 1;context 0 POINTS 4 0;
line 2: NoSuchContext : glscript 1;0 Flush;
line 3: UnknownWord : $0 clear 1;
line 3: BadNumber : $0 Clear 5x;
line 3: BadNumber : $0 Clear 00000000001;
line 3: BadNumber : $0 Clear TRUE;
line 3: WrongCount : $0 Clear 5x 5;
line 3: WrongCount : $0 Clear;end;
line 3: WrongCount : $0;
line 3: WrongCount : $0 MatrixMode;
line 3: BadNumber : $0 MatrixMode MODELVIEWS;
line 3: UnknownWord : $0 Rotate 0 0 0 0;
line 3: OutOfRange : $0 ClearColorx 2147483648 0 0 0;
line 3: OutOfRange : $0 GenBuffers 1 -1;
line 3: OutOfRange : $0 BindBuffer ARRAY_BUFFER 4294967296;
line 3: OutOfRange : $0 BufferSubData ARRAY_BUFFER 2147483648 0 0;
line 3: UnknownWord : $0 BindBuffers 1 1;
line 3: UnknownWord : $0 TexImage 1 1;
line 3: OutOfRange : $0 TexEnvi 1 4294967296 1;
line 3: OutOfRange : $0 TexSubImage2D 1 2147483648 0 0 0 0 1 1 0;
line 3: OutOfRange : $0 TexImage2D 1 0 0 0 0 0 -1 1 0;
line 3: NoSuchContext : $1 Flush;end;
line 3: UnknownWord : $0 Mem 0 ab;
line 3: UnknownWord : $0 images a 1 1 0;
line 3: UnknownWord : $mem 0 ab;
line 3: WrongCount : $0 mem 0x;
line 3: WrongCount : $1 mem 0x ab ab;
line 3: WrongCount : $0 image a. 257 1;
line 3: WrongCount : $0 image a. 257 1 0 0;
line 3: BadNumber : $1 mem -1 abc;
line 3: BadNumber : $1 image a. 257 1 0;
line 3: OutOfRange : $1 mem -1 ab;
line 3: OutOfRange : $1 image a 257 1 0;
line 3: NoSuchContext : $1 mem 0 ab;
line 3: NoSuchContext : $1 image a 1 1 0;
line 4: BadHeader : $0 mem 0 ab;context 1 4 4 0;
line 4: AfterEnd : $end;0 mem 0 ab;
line 3: NotText : $0 Flush ~;
line 4: BadHeader : $0 Flush;context 1 4 4 0;
line 3: TooMany Contexts : $context 1 4 4 0;
line 4: NoEnd : $# no more;
line 5: AfterEnd : $end;;clear;
line 4: NotText : $end;#~;
line 3: NotText : $end^
";

#[test]
fn a_refusal_names_the_line_and_its_first_fault(rt: HostRuntime) -> Result<(), Fail> {
    are_answered(&rt, rt.alloc(), REFUSED)
}

// Each number at its last accepted and its first refused value, and the most digits.
const EDGES: &str = "\
read : glscript 1;context 0 256 256 1048576;0 Flush;end;
line 2: OutOfRange : glscript 1;context 0 257 1 0;0 Flush;end;
line 2: OutOfRange : glscript 1;context 0 1 257 0;0 Flush;end;
line 2: OutOfRange : glscript 1;context 0 0 1 0;0 Flush;end;
line 2: OutOfRange : glscript 1;context 0 1 0 0;0 Flush;end;
line 2: OutOfRange : glscript 1;context 0 1 1 1048577;0 Flush;end;
line 2: OutOfRange : glscript 1;context 0 1 1 -1;0 Flush;end;
line 2: OutOfRange : glscript 1;context 1 1 1 0;0 Flush;end;
read : glscript 1;context 0 1 1 0;0 Clear 4294967295;end;
line 3: OutOfRange : glscript 1;context 0 1 1 0;0 Clear 4294967296;end;
line 3: OutOfRange : glscript 1;context 0 1 1 0;0 Clear -1;end;
read : glscript 1;context 0 1 1 0;0 ClearColorx 2147483647 -2147483648 0 0;end;
line 3: OutOfRange : glscript 1;context 0 1 1 0;0 ClearColorx 2147483648 0 0 0;end;
line 3: OutOfRange : glscript 1;context 0 1 1 0;0 ClearColorx 0 0 0 -2147483649;end;
read : glscript 1;context 0 1 1 0;0 MatrixMode MODELVIEW;end;
read : glscript 1;context 0 1 1 0;0 MatrixMode 4294967295;end;
line 3: OutOfRange : glscript 1;context 0 1 1 0;0 MatrixMode 4294967296;end;
line 3: OutOfRange : glscript 1;context 0 1 1 0;0 MatrixMode -1;end;
read : glscript 1;context 0 1 1 0;0 Viewport 2147483647 -2147483648 0 0;end;
line 3: OutOfRange : glscript 1;context 0 1 1 0;0 Viewport 2147483648 0 0 0;end;
line 3: OutOfRange : glscript 1;context 0 1 1 0;0 Viewport 0 0 0 -2147483649;end;
read : glscript 1;context 0 1 1 0;0 Clear 0xFFFFFFFF;end;
read : glscript 1;context 0 1 1 0;0 Clear 0x00000001;end;
line 3: BadNumber : glscript 1;context 0 1 1 0;0 Clear 0x000000001;end;
line 3: BadNumber : glscript 1;context 0 1 1 0;0 Clear 0x;end;
read : glscript 1;context 0 1 1 0;0 Clear 0000000001;end;
line 3: BadNumber : glscript 1;context 0 1 1 0;0 Clear 00000000001;end;
read : glscript 1;context 0 1 1 0;0000000000 Flush;end;
line 3: UnknownWord : glscript 1;context 0 1 1 0;00000000000 Flush;end;
line 3: NoSuchContext : glscript 1;context 0 1 1 0;1 Flush;end;
read : glscript 1;context 0 1 1 0;0 mem -0 00;end;
line 3: OutOfRange : glscript 1;context 0 1 1 0;0 mem -1 00;end;
read : glscript 1;context 0 1 1 0;0 mem 4294967295 00;end;
line 3: OutOfRange : glscript 1;context 0 1 1 0;0 mem 4294967296 00;end;
line 3: BadNumber : glscript 1;context 0 1 1 0;0 mem 0x100000000 00;end;
line 3: BadNumber : glscript 1;context 0 1 1 0;0 mem ZERO 00;end;
line 3: BadNumber : glscript 1;context 0 1 1 0;0 mem 0 0;end;
line 3: BadNumber : glscript 1;context 0 1 1 0;0 mem 0 000;end;
line 3: BadNumber : glscript 1;context 0 1 1 0;0 mem 0 0x00;end;
line 3: BadNumber : glscript 1;context 0 1 1 0;0 mem 0 0g;end;
line 3: BadNumber : glscript 1;context 0 1 1 0;0 mem 0 @0;end;
read : glscript 1;context 0 1 1 0;0 image a 256 256 4294967295;end;
read : glscript 1;context 0 1 1 0;0 ColorMask 0 1 255 0x7F;end;
line 3: OutOfRange : glscript 1;context 0 1 1 0;0 ColorMask 0 1 256 0;end;
line 3: OutOfRange : glscript 1;context 0 1 1 0;0 DepthMask -1;end;
line 3: OutOfRange : glscript 1;context 0 1 1 0;0 image a 257 1 0;end;
line 3: OutOfRange : glscript 1;context 0 1 1 0;0 image a 1 257 0;end;
line 3: OutOfRange : glscript 1;context 0 1 1 0;0 image a 0 1 0;end;
line 3: OutOfRange : glscript 1;context 0 1 1 0;0 image a 1 0 0;end;
line 3: OutOfRange : glscript 1;context 0 1 1 0;0 image a 1 1 4294967296;end;
line 3: OutOfRange : glscript 1;context 0 1 1 0;0 image a 1 1 -1;end;
line 3: BadNumber : glscript 1;context 0 1 1 0;0 image a ONE 1 0;end;
read : glscript 1;context 0 1 1 0;0 image ABCDEFGHIJKLMNOPQRSTUVWXYZ012345 1 1 0;end;
line 3: BadNumber : glscript 1;context 0 1 1 0;0 image ABCDEFGHIJKLMNOPQRSTUVWXYZ0123456 1 1 0;end;
";

#[test]
fn numbers_hold_at_their_edges(rt: HostRuntime) -> Result<(), Fail> {
    are_answered(&rt, rt.alloc(), EDGES)
}

// The numbers of arguments are those of the header `GLES/gl.h`.
const ARGUMENTS: &str = "\
ActiveTexture 1
AlphaFuncx 2
BindBuffer 2
BindTexture 2
BlendFunc 2
BufferData 4
BufferSubData 4
Clear 1
ClearColorx 4
ClearDepthx 1
ClientActiveTexture 1
Color4x 4
ColorMask 4
ColorPointer 4
CullFace 1
DeleteBuffers 2
DeleteTextures 2
DepthFunc 1
DepthMask 1
DepthRangex 2
Disable 1
DisableClientState 1
DrawArrays 3
DrawElements 4
Enable 1
EnableClientState 1
Finish 0
Flush 0
FrontFace 1
Frustumx 6
GenBuffers 2
GenTextures 2
GetError 0
GetFixedv 2
GetIntegerv 2
GetPointerv 2
IsBuffer 1
IsEnabled 1
IsTexture 1
LoadIdentity 0
LoadMatrixx 1
MatrixMode 1
MultMatrixx 1
MultiTexCoord4x 5
Normal3x 3
NormalPointer 3
Orthox 6
PixelStorei 2
PopMatrix 0
PushMatrix 0
ReadPixels 7
Rotatex 4
Scalex 3
Scissor 4
ShadeModel 1
TexCoordPointer 4
TexEnvi 3
TexEnvxv 3
TexImage2D 9
TexParameteri 3
TexSubImage2D 9
Translatex 3
VertexPointer 4
Viewport 4
";

#[test]
fn each_call_takes_its_number_of_arguments(rt: HostRuntime) -> Result<(), Fail> {
    for row in ARGUMENTS.lines() {
        let (name, wanted) = row.split_once(' ').ok_or("no row")?;
        let wanted = wanted.parse::<usize>()?;
        for given in 0..10 {
            let mut script = script_in(rt.alloc(), "$0 ")?;
            script.extend_from_slice(name.as_bytes())?;
            for _ in 0..given {
                script.extend_from_slice(b" 1".as_slice())?;
            }
            script.extend_from_slice(b"\nend\n".as_slice())?;
            let outcome = if given == wanted {
                "read"
            } else {
                "line 3: WrongCount"
            };
            assert_eq!(rt;
                answer(rt.alloc(), script.as_slice())?.as_str(),
                outcome,
                "at {row}"
            );
        }
    }
    Ok(())
}

// The shortest name, the longest and each kind of byte; and words next to them.
const NAMES: &str = "\
a
-Z_09
ABCDEFGHIJKLMNOPQRSTUVWXYZ012345
";

const OTHERS: &str = "
a.b
a b
ABCDEFGHIJKLMNOPQRSTUVWXYZ0123456
@
[
`
{
/
:
";

#[test]
fn a_name_is_at_most_32_letters_digits_hyphens_and_underscores(
    rt: HostRuntime,
) -> Result<(), Fail> {
    for name in NAMES.lines() {
        let made = Name::from_word(name.as_bytes()).ok_or("no name")?;
        assert_eq!(rt; made.as_bytes(), name.as_bytes());
    }
    for other in OTHERS.lines() {
        assert!(rt;
            Name::from_word(other.as_bytes()).is_none(),
            "{other} is none"
        );
    }
    Ok(())
}

// So many images of 256 by 256 pixels stand before the other lines. 340 images and the context leave 21,845 pixels. The
// first two rows were worked by hand.
const IMAGES: &str = "\
340 read : end;
341 line 343: TooMany ImageBytes : end;
340 read : 0 image b 255 85 0;0 image b 170 1 0;end;
340 line 345: TooMany ImageBytes : 0 image b 255 85 0;#;0 image b 171 1 0;end;
340 line 343: NoSuchContext : 1 image b 256 256 0;end;
";

#[test]
fn images_take_at_most_67108864_bytes(rt: HostRuntime) -> Result<(), Fail> {
    are_answered_behind(
        &rt,
        rt.alloc(),
        "glscript 1;context 0 256 256 0;",
        "0 image a 256 256 0;",
        IMAGES,
    )
}

// So many uploads of 67,108,864 bytes stand before the other lines; four reach the limit. The answers are those of another
// program.
const UPLOADS: &str = "\
4 read : end;
5 line 7: TooMany UploadBytes : end;
4 read : 0 BufferData ARRAY_BUFFER -1 0 STATIC_DRAW;0 BufferSubData ARRAY_BUFFER 0 67108865 0;0 BufferSubData ARRAY_BUFFER 0 -2147483648 0;end;
4 read : 0 TexImage2D TEXTURE_2D 0 RGBA 0 1 0 RGBA UNSIGNED_BYTE 0;0 TexImage2D TEXTURE_2D 0 RGBA 1 257 0 RGBA UNSIGNED_BYTE 0;0 TexImage2D TEXTURE_2D 0 RGBA -1 -1 0 RGBA UNSIGNED_BYTE 0;0 TexSubImage2D TEXTURE_2D 0 0 0 257 256 RGBA UNSIGNED_BYTE 0;0 TexSubImage2D TEXTURE_2D 0 0 0 1 0 RGBA UNSIGNED_BYTE 0;end;
4 line 7: TooMany UploadBytes : 0 BufferData ARRAY_BUFFER 1 0 STATIC_DRAW;end;
4 line 7: TooMany UploadBytes : 0 BufferSubData ARRAY_BUFFER 0 1 0;end;
4 line 7: TooMany UploadBytes : 0 TexImage2D TEXTURE_2D 0 RGBA 1 1 0 RGBA UNSIGNED_BYTE 0;end;
4 line 7: TooMany UploadBytes : 0 TexSubImage2D TEXTURE_2D 0 0 0 1 1 RGBA UNSIGNED_BYTE 0;end;
4 line 7: TooMany UploadBytes : 0 BufferData 1 1 0 2;end;
4 line 7: TooMany UploadBytes : 0 TexImage2D 1 2 3 1 1 4 5 6 7;end;
4 line 7: NoSuchContext : 1 BufferData ARRAY_BUFFER 1 0 STATIC_DRAW;end;
3 read : 0 BufferSubData ARRAY_BUFFER 0 66846720 0;0 TexImage2D TEXTURE_2D 0 RGBA 256 256 0 RGBA UNSIGNED_BYTE 0;end;
3 line 7: TooMany UploadBytes : 0 BufferSubData ARRAY_BUFFER 0 66846721 0;0 TexImage2D TEXTURE_2D 0 RGBA 256 256 0 RGBA UNSIGNED_BYTE 0;end;
3 read : 0 BufferSubData ARRAY_BUFFER 0 67108860 0;#;0 TexSubImage2D TEXTURE_2D 0 0 0 1 1 RGBA UNSIGNED_BYTE 0;0 BufferData ARRAY_BUFFER 0 0 STATIC_DRAW;end;
3 line 8: TooMany UploadBytes : 0 BufferSubData ARRAY_BUFFER 0 67108861 0;#;0 TexSubImage2D TEXTURE_2D 0 0 0 1 1 RGBA UNSIGNED_BYTE 0;0 BufferData ARRAY_BUFFER 0 0 STATIC_DRAW;end;
3 read : 0 BufferSubData ARRAY_BUFFER 0 66847744 0;0 TexSubImage2D TEXTURE_2D 0 0 0 255 255 RGBA UNSIGNED_BYTE 0;0 TexSubImage2D TEXTURE_2D 0 0 0 1 127 RGBA UNSIGNED_BYTE 0;0 TexSubImage2D TEXTURE_2D 0 0 0 1 1 RGBA UNSIGNED_BYTE 0;0 TexImage2D TEXTURE_2D 0 RGBA 127 1 0 RGBA UNSIGNED_BYTE 0;end;
3 line 10: TooMany UploadBytes : 0 BufferSubData ARRAY_BUFFER 0 66847745 0;0 TexSubImage2D TEXTURE_2D 0 0 0 255 255 RGBA UNSIGNED_BYTE 0;0 TexSubImage2D TEXTURE_2D 0 0 0 1 127 RGBA UNSIGNED_BYTE 0;0 TexSubImage2D TEXTURE_2D 0 0 0 1 1 RGBA UNSIGNED_BYTE 0;0 TexImage2D TEXTURE_2D 0 RGBA 127 1 0 RGBA UNSIGNED_BYTE 0;end;
";

#[test]
fn uploads_declare_at_most_268435456_bytes(rt: HostRuntime) -> Result<(), Fail> {
    are_answered_behind(
        &rt,
        rt.alloc(),
        "glscript 1;context 0 1 1 0;",
        "0 BufferData ARRAY_BUFFER 67108864 0 STATIC_DRAW;",
        UPLOADS,
    )
}

// Each limit of size at its last accepted and its first refused value: behind a script stand so many empty lines,
// then a comment up to so many bytes.
const LIMITS: &str = "\
262139 0 read :\x20
262139 0 line 262145: TooMany Lines : #
0 8388607 read : ;
0 8388608 line 6: TooMany SourceBytes : ;
0 8388607 line 7: TooMany SourceBytes : ;#
";

#[test]
fn the_limits_hold_at_their_edges(rt: HostRuntime) -> Result<(), Fail> {
    for row in LIMITS.lines() {
        let (lines, row) = row.split_once(' ').ok_or("no row")?;
        let (bytes, row) = row.split_once(' ').ok_or("no row")?;
        let (outcome, rest) = row.split_once(" : ").ok_or("no row")?;
        let mut script = script_in(rt.alloc(), RED)?;
        for _ in 0..lines.parse::<u32>()? {
            script.push(b'\n')?;
        }
        let bytes = bytes.parse::<usize>()?;
        if script.len() < bytes {
            script.push(b'#')?;
        }
        for _ in script.len()..bytes {
            script.push(b'x')?;
        }
        script.extend_from_slice(script_in(rt.alloc(), rest)?.as_slice())?;
        assert_eq!(rt; answer(rt.alloc(), script.as_slice())?.as_str(), outcome);
    }
    Ok(())
}

/// Each row has the number of lines that stand between a head and its own lines.
fn are_answered_behind(
    rt: &impl Abort,
    alloc: Global,
    head: &str,
    line: &str,
    rows: &str,
) -> Result<(), Fail> {
    for row in rows.lines() {
        let (count, row) = row.split_once(' ').ok_or("no row")?;
        let (outcome, rest) = row.split_once(" : ").ok_or("no row")?;
        let mut script = script_in(alloc, head)?;
        for _ in 0..count.parse::<u32>()? {
            script.extend_from_slice(script_in(alloc, line)?.as_slice())?;
        }
        script.extend_from_slice(script_in(alloc, rest)?.as_slice())?;
        assert_eq!(rt;
            answer(alloc, script.as_slice())?.as_str(),
            outcome,
            "at {rest}"
        );
    }
    Ok(())
}

fn are_answered(rt: &impl Abort, alloc: Global, rows: &str) -> Result<(), Fail> {
    for row in rows.lines() {
        let (outcome, script) = row.split_once(" : ").ok_or("no row")?;
        let script = script_in(alloc, script)?;
        assert_eq!(rt;
            answer(alloc, script.as_slice())?.as_str(),
            outcome,
            "at {row}"
        );
    }
    Ok(())
}

/// The script of a row.
fn script_in(alloc: Global, spelling: &str) -> Result<Vec<u8>, AllocError> {
    let mut script = Vec::new(alloc);
    for byte in spelling.as_bytes() {
        match byte {
            b'$' => {
                script.extend_from_slice(b"glscript 1\ncontext 0 4 4 0\n".as_slice())?;
            }
            b';' => script.push(b'\n')?,
            b'^' => script.push(b'\r')?,
            b'~' => script.push(0x7F)?,
            _ => script.push(*byte)?,
        }
    }
    Ok(script)
}

/// The answer to a script that isn't looked into.
fn answer(alloc: Global, bytes: &[u8]) -> Result<String, AllocError> {
    match read(alloc, bytes) {
        Ok(_) => String::from_str(alloc, "read"),
        Err(ReadRefusal::Bad(error)) => error.to_string(alloc),
        Err(ReadRefusal::NoMemory) => Err(AllocError),
    }
}

/// The contexts of a script and its lines, each with its number.
fn told(alloc: Global, bytes: &[u8]) -> Result<String, Fail> {
    let script = read(alloc, bytes)?;
    let mut text = String::new(alloc);
    for context in script.contexts.as_slice() {
        text = format!(in alloc;
            "{text}{} {} {}",
            context.width, context.height, context.memory
        )?;
    }
    for line in script.lines.as_slice() {
        text = format!(in alloc;
            "{text}, {}: {} {}",
            line.number,
            line.context,
            spelled(alloc, line)?
        )?;
    }
    Ok(text)
}

fn spelled(alloc: Global, line: &Line) -> Result<String, AllocError> {
    match &line.act {
        Act::Mem { at, bytes } => {
            let mut text = format!(in alloc; "mem {at}:")?;
            for place in 0..bytes.len() {
                text = format!(in alloc; "{text} {}", bytes.at(place))?;
            }
            Ok(text)
        }
        Act::Image {
            name,
            width,
            height,
            at,
        } => {
            let name = from_utf8(name.as_bytes()).unwrap_or("");
            format!(in alloc; "image {at}: {width} {height} {name}")
        }
        Act::Gl(call) => format!(in alloc; "{call:?}"),
    }
}
