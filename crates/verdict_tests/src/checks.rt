//! What is told of scripts that are read: each fault, and each hint. The places were counted, and the words are those of the
//! texts, by hand.

use script_verdict::{Verdict, VerdictText, explain};
use std::alloc::{AllocError as NoMemory, Global};
use std::process::Abort;
use std::test::Fail;

/// A script, and what is told of it.
static ROWS: [(&str, &str); 56] = [
    (
        "$0 Clear 16384\n# no more\nend\n",
        "accepted: 5 lines, 1 context, 1 call",
    ),
    ("$end", "accepted: 3 lines, 1 context, 0 calls"),
    (
        "$0 Clear GL_COLOR_BUFFER_BIT\nend\n",
        "a.gls:3:9: BadNumber: 'GL_COLOR_BUFFER_BIT' is no number and no known name\n  |\n3 | 0 Clear GL_COLOR_BUFFER_BIT\n  |         ^^^^^^^^^^^^^^^^^^^ expected argument 1 of Clear, an unsigned number, from 0 to 4294967295\n  = hint: names stand without GL_: COLOR_BUFFER_BIT",
    ),
    (
        "$0 glClear 1\nend\n",
        "a.gls:3:3: UnknownWord: 'glClear' is no call, and neither mem nor image\n  |\n3 | 0 glClear 1\n  |   ^^^^^^^ expected mem, image, or the name of a call\n  = hint: names stand without gl: Clear",
    ),
    (
        "$0 glClear(GL_COLOR_BUFFER_BIT);\nend\n",
        "a.gls:3:3: UnknownWord: 'glClear(GL_COLOR_BUFFER_BIT);' is no call, and neither mem nor image\n  |\n3 | 0 glClear(GL_COLOR_BUFFER_BIT);\n  |   ^^^^^^^^^^^^^^^^^^^^^^^^^^^^^ expected mem, image, or the name of a call\n  = hint: names stand without gl: Clear\n  = hint: words stand without brackets, commas, semicolons and letters of C",
    ),
    (
        "$0 Clear COLOR_BUFFER_BIT|GL_DEPTH_BUFFER_BIT\nend\n",
        "a.gls:3:9: BadNumber: 'COLOR_BUFFER_BIT|GL_DEPTH_BUFFER_BIT' is no number and no known name\n  |\n3 | 0 Clear COLOR_BUFFER_BIT|GL_DEPTH_BUFFER_BIT\n  |         ^^^^^^^^^^^^^^^^^^^^^^^^^^^^^^^^^^^^ expected argument 1 of Clear, an unsigned number, from 0 to 4294967295\n  = hint: bits are written as one number, here 0x4100",
    ),
    (
        "$0 Clear COLOR_BUFFER_BIT | DEPTH_BUFFER_BIT\nend\n",
        "a.gls:3:26: WrongCount: Clear takes 1 argument, and 3 stand here\n  |\n3 | 0 Clear COLOR_BUFFER_BIT | DEPTH_BUFFER_BIT\n  |                          ^ expected the end of the line\n  = hint: bits are written as one number, here 0x4100",
    ),
    (
        "$0 Clear COLOR_BUFFER_BIT|ACCUM_BUFFER_BIT\nend\n",
        "a.gls:3:9: BadNumber: 'COLOR_BUFFER_BIT|ACCUM_BUFFER_BIT' is no number and no known name\n  |\n3 | 0 Clear COLOR_BUFFER_BIT|ACCUM_BUFFER_BIT\n  |         ^^^^^^^^^^^^^^^^^^^^^^^^^^^^^^^^^ expected argument 1 of Clear, an unsigned number, from 0 to 4294967295\n  = hint: bits are written as one number, their sum",
    ),
    (
        "$0 ClearColorx 0 0.5 0 65536\nend\n",
        "a.gls:3:17: BadNumber: '0.5' is no number and no known name\n  |\n3 | 0 ClearColorx 0 0.5 0 65536\n  |                 ^^^ expected argument 2 of ClearColorx, a 16.16 fixed number, from -2147483648 to 2147483647\n  = hint: 1.0 is 65536 in 16.16 fixed numbers, and this is 32768",
    ),
    (
        "$0 Translatex -1.25f 0 0\nend\n",
        "a.gls:3:14: BadNumber: '-1.25f' is no number and no known name\n  |\n3 | 0 Translatex -1.25f 0 0\n  |              ^^^^^^ expected argument 1 of Translatex, a 16.16 fixed number, from -2147483648 to 2147483647\n  = hint: 1.0 is 65536 in 16.16 fixed numbers, and this is -81920",
    ),
    (
        "$0 Viewport 0 0 4.0 4\nend\n",
        "a.gls:3:16: BadNumber: '4.0' is no number and no known name\n  |\n3 | 0 Viewport 0 0 4.0 4\n  |                ^^^ expected argument 3 of Viewport, a signed number, from -2147483648 to 2147483647\n  = hint: numbers have no fraction; in 16.16 fixed numbers 1.0 is 65536",
    ),
    (
        "\u{FEFF}glscript 1\n",
        "a.gls:1:1: NotText: the byte 0xEF is no text\n  |\n1 | ???glscript 1\n  | ^ expected a tab or one of the bytes 0x20 to 0x7E\n  = hint: the file begins with a byte order mark; save it as UTF-8 without one",
    ),
    (
        "$# début\n",
        "a.gls:3:4: NotText: the byte 0xC3 is no text\n  |\n3 | # d??but\n  |    ^ expected a tab or one of the bytes 0x20 to 0x7E\n  = hint: only ASCII is text here, in comments too",
    ),
    (
        "glscript 1\rcontext 0 4 4 64\r",
        "a.gls:1:11: NotText: the byte 0x0D is no text\n  |\n1 | glscript 1?context 0 4 4 64?\n  |           ^ expected a tab or one of the bytes 0x20 to 0x7E\n  = hint: lines end with LF, or with CR and LF",
    ),
    (
        "$0 Flush \x07\nend\n",
        "a.gls:3:9: NotText: the byte 0x07 is no text\n  |\n3 | 0 Flush ?\n  |         ^ expected a tab or one of the bytes 0x20 to 0x7E",
    ),
    (
        "$0 Clear 16384 # red\nend\n",
        "a.gls:3:15: WrongCount: Clear takes 1 argument, and 3 stand here\n  |\n3 | 0 Clear 16384 # red\n  |               ^ expected the end of the line\n  = hint: a comment has a line of its own, which begins with #",
    ),
    (
        "$0 Flush // now\nend\n",
        "a.gls:3:9: WrongCount: Flush takes 0 arguments, and 2 stand here\n  |\n3 | 0 Flush // now\n  |         ^^ expected the end of the line\n  = hint: a comment has a line of its own, which begins with #",
    ),
    (
        "$// clear\nend\n",
        "a.gls:3:1: UnknownWord: '//' begins no line\n  |\n3 | // clear\n  | ^^ expected context, end, or the number of a context\n  = hint: a comment has a line of its own, which begins with #",
    ),
    (
        "$0 mem 0 abc\nend\n",
        "a.gls:3:9: BadNumber: 'abc' is no pairs of hexadecimal digits\n  |\n3 | 0 mem 0 abc\n  |         ^^^ expected HEX, pairs of hexadecimal digits\n  = hint: two digits spell a byte, and 3 stand here",
    ),
    (
        "$0 mem 0 0xab\nend\n",
        "a.gls:3:9: BadNumber: '0xab' is no pairs of hexadecimal digits\n  |\n3 | 0 mem 0 0xab\n  |         ^^^^ expected HEX, pairs of hexadecimal digits\n  = hint: bytes are spelled without 0x",
    ),
    (
        "$0 MatrixMode MODELVEIW\nend\n",
        "a.gls:3:14: BadNumber: 'MODELVEIW' is no number and no known name\n  |\n3 | 0 MatrixMode MODELVEIW\n  |              ^^^^^^^^^ expected argument 1 of MatrixMode, an enumerant: a name, or a number from 0 to 4294967295\n  = hint: MODELVIEW is near",
    ),
    (
        "$0 Enable blend\nend\n",
        "a.gls:3:10: BadNumber: 'blend' is no number and no known name\n  |\n3 | 0 Enable blend\n  |          ^^^^^ expected argument 1 of Enable, an enumerant: a name, or a number from 0 to 4294967295\n  = hint: BLEND is near",
    ),
    (
        "$0 Enable STENCIL_TEST\nend\n",
        "a.gls:3:10: BadNumber: 'STENCIL_TEST' is no number and no known name\n  |\n3 | 0 Enable STENCIL_TEST\n  |          ^^^^^^^^^^^^ expected argument 1 of Enable, an enumerant: a name, or a number from 0 to 4294967295\n  = hint: an enumerant without a name here is written as its number in the header GLES/gl.h",
    ),
    (
        "$0 ClaerColorx 0 0 0 0\nend\n",
        "a.gls:3:3: UnknownWord: 'ClaerColorx' is no call, and neither mem nor image\n  |\n3 | 0 ClaerColorx 0 0 0 0\n  |   ^^^^^^^^^^^ expected mem, image, or the name of a call\n  = hint: ClearColorx is near",
    ),
    (
        "$0 clear 16384\nend\n",
        "a.gls:3:3: UnknownWord: 'clear' is no call, and neither mem nor image\n  |\n3 | 0 clear 16384\n  |   ^^^^^ expected mem, image, or the name of a call\n  = hint: Clear is near",
    ),
    (
        "$0 ClearColor 1.0 0.0 0.0 1.0\nend\n",
        "a.gls:3:3: UnknownWord: 'ClearColor' is no call, and neither mem nor image\n  |\n3 | 0 ClearColor 1.0 0.0 0.0 1.0\n  |   ^^^^^^^^^^ expected mem, image, or the name of a call\n  = hint: floats are left out; ClearColorx takes 16.16 fixed numbers",
    ),
    (
        "$0 glRotatef 90 0 0 1\nend\n",
        "a.gls:3:3: UnknownWord: 'glRotatef' is no call, and neither mem nor image\n  |\n3 | 0 glRotatef 90 0 0 1\n  |   ^^^^^^^^^ expected mem, image, or the name of a call\n  = hint: floats are left out; Rotatex takes 16.16 fixed numbers",
    ),
    (
        "$0 StencilOp 0 0 0\nend\n",
        "a.gls:3:3: UnknownWord: 'StencilOp' is no call, and neither mem nor image\n  |\n3 | 0 StencilOp 0 0 0\n  |   ^^^^^^^^^ expected mem, image, or the name of a call\n  = hint: a call of OpenGL ES that this profile leaves out",
    ),
    (
        "$0 TexParameterx 3553 10241 9728\nend\n",
        "a.gls:3:3: UnknownWord: 'TexParameterx' is no call, and neither mem nor image\n  |\n3 | 0 TexParameterx 3553 10241 9728\n  |   ^^^^^^^^^^^^^ expected mem, image, or the name of a call\n  = hint: a call of OpenGL ES that this profile leaves out\n  = hint: TexParameteri is near",
    ),
    (
        "$0 Clear 4294967296\nend\n",
        "a.gls:3:9: OutOfRange: '4294967296' is outside its range\n  |\n3 | 0 Clear 4294967296\n  |         ^^^^^^^^^^ expected argument 1 of Clear, an unsigned number, from 0 to 4294967295",
    ),
    (
        "$0 Viewport 0 0 0xFFFFFFFF 4\nend\n",
        "a.gls:3:16: OutOfRange: '0xFFFFFFFF' is outside its range\n  |\n3 | 0 Viewport 0 0 0xFFFFFFFF 4\n  |                ^^^^^^^^^^ expected argument 3 of Viewport, a signed number, from -2147483648 to 2147483647\n  = hint: as a signed number of 32 bits this is -1",
    ),
    (
        "$0 DepthMask 256\nend\n",
        "a.gls:3:13: OutOfRange: '256' is outside its range\n  |\n3 | 0 DepthMask 256\n  |             ^^^ expected argument 1 of DepthMask, a truth value: 0, or 1 to 255",
    ),
    (
        "$0 DepthMask GL_TRUE\nend\n",
        "a.gls:3:13: BadNumber: 'GL_TRUE' is no number and no known name\n  |\n3 | 0 DepthMask GL_TRUE\n  |             ^^^^^^^ expected argument 1 of DepthMask, a truth value: 0, or 1 to 255\n  = hint: true is written as 1",
    ),
    (
        "$0 Clear 12345678901\nend\n",
        "a.gls:3:9: BadNumber: '12345678901' is no number and no known name\n  |\n3 | 0 Clear 12345678901\n  |         ^^^^^^^^^^^ expected argument 1 of Clear, an unsigned number, from 0 to 4294967295\n  = hint: a number has at most 10 decimal digits, or 8 hexadecimal ones behind 0x",
    ),
    (
        "$0 Clear 0X10\nend\n",
        "a.gls:3:9: BadNumber: '0X10' is no number and no known name\n  |\n3 | 0 Clear 0X10\n  |         ^^^^ expected argument 1 of Clear, an unsigned number, from 0 to 4294967295\n  = hint: only a minus stands before decimal digits, and 0x is written small",
    ),
    (
        "$0 BlendFunc ONE, ZERO\nend\n",
        "a.gls:3:13: BadNumber: 'ONE,' is no number and no known name\n  |\n3 | 0 BlendFunc ONE, ZERO\n  |             ^^^^ expected argument 1 of BlendFunc, an enumerant: a name, or a number from 0 to 4294967295\n  = hint: words stand without brackets, commas, semicolons and letters of C",
    ),
    (
        "$0 Viewport 0 0 4\nend\n",
        "a.gls:3:17: WrongCount: Viewport takes 4 arguments, and 3 stand here\n  |\n3 | 0 Viewport 0 0 4\n  |                 ^ expected argument 4 of Viewport, a signed number, from -2147483648 to 2147483647",
    ),
    (
        "$0\nend\n",
        "a.gls:3:2: WrongCount: a line of a context has at least 2 words, and 1 stands here\n  |\n3 | 0\n  |  ^ expected mem, image, or the name of a call",
    ),
    (
        "$Flush\nend\n",
        "a.gls:3:1: UnknownWord: 'Flush' begins no line\n  |\n3 | Flush\n  | ^^^^^ expected context, end, or the number of a context\n  = hint: a line of a context begins with its number, 0",
    ),
    (
        "$1 Flush\nend\n",
        "a.gls:3:1: NoSuchContext: there is no context '1'\n  |\n3 | 1 Flush\n  | ^ expected the number of a context, of which there is one: 0",
    ),
    (
        "$0 image a.b 4 4 0\nend\n",
        "a.gls:3:9: BadNumber: 'a.b' is no name of an image\n  |\n3 | 0 image a.b 4 4 0\n  |         ^^^ expected NAME, 1 to 32 letters, digits, - and _",
    ),
    (
        "$0 image aaaaaaaaaaaaaaaaaaaaaaaaaaaaaaaaa 4 4 0\nend\n",
        "a.gls:3:9: BadNumber: 'aaaaaaaaaaaaaaaaaaaaaaaaaaaaaaaaa' is no name of an image\n  |\n3 | 0 image aaaaaaaaaaaaaaaaaaaaaaaaaaaaaaaaa 4 4 0\n  |         ^^^^^^^^^^^^^^^^^^^^^^^^^^^^^^^^^ expected NAME, 1 to 32 letters, digits, - and _\n  = hint: it has 33 bytes, and may have 32",
    ),
    (
        "$0 image a 4 257 0\nend\n",
        "a.gls:3:13: OutOfRange: '257' is outside its range\n  |\n3 | 0 image a 4 257 0\n  |             ^^^ expected H, a number from 1 to 256",
    ),
    (
        "$0 mem ZERO ab\nend\n",
        "a.gls:3:7: BadNumber: 'ZERO' is no number\n  |\n3 | 0 mem ZERO ab\n  |       ^^^^ expected ADDR, a number from 0 to 4294967295\n  = hint: only an argument of a call may be a name",
    ),
    (
        "context 0 4 4 64\nend\n",
        "a.gls:1:1: BadHeader: the script doesn't begin with 'glscript 1'\n  |\n1 | context 0 4 4 64\n  | ^^^^^^^ expected the first line that counts: glscript 1",
    ),
    (
        "glscript 2\n",
        "a.gls:1:10: BadHeader: the script doesn't begin with 'glscript 1'\n  |\n1 | glscript 2\n  |          ^ expected the first line that counts: glscript 1",
    ),
    (
        "glscirpt 1\n",
        "a.gls:1:1: BadHeader: the script doesn't begin with 'glscript 1'\n  |\n1 | glscirpt 1\n  | ^^^^^^^^ expected the first line that counts: glscript 1\n  = hint: glscript is near",
    ),
    (
        "glscript 1\nend\n",
        "a.gls:2:1: BadHeader: 'end' stands before any context line\n  |\n2 | end\n  | ^^^ expected a context line first, as: context 0 64 64 1024",
    ),
    (
        "$0 Flush\ncontext 1 4 4 0\nend\n",
        "a.gls:4:1: BadHeader: a context line stands behind a line of a context\n  |\n4 | context 1 4 4 0\n  | ^^^^^^^ expected a line of a context, or end",
    ),
    (
        "glscript 1\ncontext 0 0 4 0\nend\n",
        "a.gls:2:11: OutOfRange: '0' is outside its range\n  |\n2 | context 0 0 4 0\n  |           ^ expected W, a number from 1 to 256",
    ),
    (
        "glscript 1\ncontext 1 4 4 0\nend\n",
        "a.gls:2:9: OutOfRange: '1' is outside its range\n  |\n2 | context 1 4 4 0\n  |         ^ expected K, the number of contexts so far",
    ),
    (
        "glscript 1\ncontext 0 4 4\nend\n",
        "a.gls:2:14: WrongCount: a context line has 5 words, and 4 stand here\n  |\n2 | context 0 4 4\n  |              ^ expected context 0 W H MEM",
    ),
    (
        "$context 1 4 4 0\nend\n",
        "a.gls:3:1: TooMany Contexts: a script has one context\n  |\n3 | context 1 4 4 0\n  | ^^^^^^^",
    ),
    (
        "$0 Flush\n",
        "a.gls:4:1: NoEnd: the script has no line 'end'\n  = hint: add a last line: end",
    ),
    (
        "$end\n0 Flush\n",
        "a.gls:4:1: AfterEnd: a line stands behind 'end'\n  |\n4 | 0 Flush\n  | ^",
    ),
    (
        "$end now\n",
        "a.gls:3:5: WrongCount: the end has 1 word, and 2 stand here\n  |\n3 | end now\n  |     ^^^ expected the end of the line",
    ),
];

/// The same of words of C, tabs, and a line of which a part is shown.
static MORE_ROWS: [(&str, &str); 4] = [
    (
        "$0 DepthMask FALSE\nend\n",
        "a.gls:3:13: BadNumber: 'FALSE' is no number and no known name\n  |\n3 | 0 DepthMask FALSE\n  |             ^^^^^ expected argument 1 of DepthMask, a truth value: 0, or 1 to 255\n  = hint: false is written as 0",
    ),
    (
        "$0 VertexPointer 3 FIXED 0 NULL\nend\n",
        "a.gls:3:27: BadNumber: 'NULL' is no number and no known name\n  |\n3 | 0 VertexPointer 3 FIXED 0 NULL\n  |                           ^^^^ expected argument 4 of VertexPointer, an address in client memory, from 0 to 4294967295\n  = hint: no address is written as 0",
    ),
    (
        "$0\tClear\t\tGL_X\nend\n",
        "a.gls:3:10: BadNumber: 'GL_X' is no number and no known name\n  |\n3 | 0 Clear  GL_X\n  |          ^^^^ expected argument 1 of Clear, an unsigned number, from 0 to 4294967295\n  = hint: an enumerant without a name here is written as its number in the header GLES/gl.h",
    ),
    (
        "$0 mem 0 abababababababababababababababababababababababababababababababababababababababababababababababababababababababababababab x\nend\n",
        "a.gls:3:130: WrongCount: a mem line has 4 words, and 5 stand here\n  |\n3 | ...bababababababababababababababababababababababababababababababababababababababab x\n  |                                                                                    ^ expected 0 mem ADDR HEX",
    ),
];

/// The two lines for which `$` stands.
const HEAD: &str = "glscript 1\ncontext 0 4 4 64\n";

/// What is told of the script that bytes spell.
fn told_of(alloc: Global, bytes: &[u8]) -> Result<String, NoMemory> {
    let verdict = explain(alloc, bytes)?;
    text_of(alloc, &verdict)
}

/// What is told of a verdict.
fn text_of(alloc: Global, verdict: &Verdict<'_>) -> Result<String, NoMemory> {
    let text = VerdictText {
        file: "a.gls",
        verdict,
    };
    format!(in alloc; "{text}")
}

/// Compares what is told of each script with its text.
fn are_told(rt: &impl Abort, alloc: Global, rows: &[(&str, &str)]) -> Result<(), Fail> {
    for pair in rows.iter() {
        let (row, wanted) = *pair;
        let mut script = String::new(alloc);
        match row.strip_prefix("$") {
            Some(rest) => {
                script.push_str(HEAD)?;
                script.push_str(rest)?;
            }
            None => script.push_str(row)?,
        }
        let told = told_of(alloc, script.as_bytes())?;
        assert!(rt; told.as_str() == wanted, "{told}\nand not\n{wanted}");
    }
    Ok(())
}

#[test]
fn each_verdict_is_told_with_its_place_and_its_hints(rt: HostRuntime) -> Result<(), Fail> {
    are_told(&rt, rt.alloc(), ROWS.as_slice())?;
    are_told(&rt, rt.alloc(), MORE_ROWS.as_slice())
}

#[test]
fn a_script_in_utf_16_is_told_to_be_so(rt: HostRuntime) -> Result<(), Fail> {
    let script = [0xFFu8, 0xFE, b'g', 0, b'l', 0];
    let told = told_of(rt.alloc(), script.as_slice())?;
    assert!(rt; told.as_str().contains("NotText") && told.as_str().ends_with("without a mark"));
    Ok(())
}

/// A line, how often it stands behind the head, and what is told then.
static LIMITS: [(&str, u64, &str); 4] = [
    (
        "\n",
        262_143,
        "a.gls:262145:1: TooMany Lines: a script has at most 262144 lines\n       |\n262145 | \n       | ^",
    ),
    (
        "0 image a 256 256 0\n",
        342,
        "a.gls:344:3: TooMany ImageBytes: the images of a script take at most 67108864 bytes, three for each pixel\n    |\n344 | 0 image a 256 256 0\n    |   ^^^^^",
    ),
    (
        "0 BufferData ARRAY_BUFFER 67108864 0 STATIC_DRAW\n",
        5,
        "a.gls:7:3: TooMany UploadBytes: the uploads of a script take at most 268435456 bytes\n  |\n7 | 0 BufferData ARRAY_BUFFER 67108864 0 STATIC_DRAW\n  |   ^^^^^^^^^^",
    ),
    (
        "# 0123456789012345678901234567890123456789012345678901234567890\n",
        131_072,
        "a.gls:131074:1: TooMany SourceBytes: a script has at most 8388608 bytes\n       |\n131074 | # 0123456789012345678901234567890123456789012345678901234567890\n       | ^",
    ),
];

#[test]
fn each_limit_is_told(rt: HostRuntime) -> Result<(), Fail> {
    for row in LIMITS.iter() {
        let (line, count, wanted) = *row;
        let mut script = String::new(rt.alloc());
        script.push_str(HEAD)?;
        for _ in 0..count {
            script.push_str(line)?;
        }
        let told = told_of(rt.alloc(), script.as_bytes())?;
        assert!(rt; told.as_str() == wanted, "{told}\nand not\n{wanted}");
    }
    Ok(())
}
