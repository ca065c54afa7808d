//! Traces of scripts, line by line: each cause of a wait, each reason of a batch's end, and errors, also one that only objects
//! show. Replies, counts and the slots of spellings are those of another program.

use script_reader::read;
use script_trace::{EndLine, EntryLine, NumberNames, SumsText, Trace, sums_of};
use std::alloc::Global;
use std::fmt::Write;
use std::test::Fail;
use std::thread::Threads;

/// A script, its trace with batches of 16 slots, and its sums.
static ROWS: [(&str, &str, &str); 6] = [
    (
        "glscript 1
context 0 4 4 64
0 Clear 0x4100
0 ClearColorx 65536 0 0 65536
0 BlendFunc 1 0
0 Scissor 0 0 2 2
0 Flush
0 Enable 5
0 GetIntegerv MATRIX_MODE 0
0 Clear 1
0 GetError
0 GetError
0 Finish
0 Flush
0 PopMatrix
end
",
        "3 0 Clear DEPTH_BUFFER_BIT|COLOR_BUFFER_BIT: put off into batch 1 (slots 2 of 16)
4 0 ClearColorx 65536 0 0 65536: put off into batch 1 (slots 7 of 16)
5 0 BlendFunc ONE ZERO: put off into batch 1 (slots 10 of 16)
6 0 Scissor 0 0 2 2: put off into batch 1 (slots 15 of 16)
7 0 Flush: put off into batch 1 (slots 16 of 16)
  batch 1 ends by a Flush: 5 calls, 16 of 16 slots
8 0 Enable 0x0005: INVALID_ENUM; put off into batch 2 (slots 2 of 16)
9 0 GetIntegerv MATRIX_MODE 0: replied 5888; answered by the shadow
10 0 Clear 0x1: INVALID_VALUE, but INVALID_ENUM is recorded already; put off into batch 2 (slots 4 of 16)
  batch 2 ends by a call that waits: 2 calls, 4 of 16 slots
11 0 GetError: replied INVALID_ENUM; waits because its answer is the driver's
12 0 GetError: replied NO_ERROR; waits because its answer is the driver's
13 0 Finish: waits because all calls before it are to be carried out
14 0 Flush: put off into batch 3 (slots 1 of 16)
  batch 3 ends by a Flush: 1 call, 1 of 16 slots
15 0 PopMatrix: STACK_UNDERFLOW; put off into batch 4 (slots 1 of 16)
  batch 4 ends at the end of the script: 1 call, 1 of 16 slots
",
        "13 calls: 9 put off, 3 waited, 1 answered by the shadow
4 batches of 16 slots
ended by a Flush: 2
ended by a call that waits: 1
ended at the end of the script: 1
used up to a quarter: 3
used all: 1
waited: GetError, 2: its answer is the driver's
waited: Finish, 1: all calls before it are to be carried out
error: Enable, 1: INVALID_ENUM, 1 of them recorded
error: Clear, 1: INVALID_VALUE, 0 of them recorded
error: PopMatrix, 1: STACK_UNDERFLOW, 1 of them recorded",
    ),
    (
        "glscript 1
context 0 4 4 64
0 ClearColorx 1 0 0 0
0 ClearColorx 2 0 0 0
0 mem 0 ff
0 ClearColorx 3 0 0 0
0 MatrixMode PROJECTION
end
",
        "3 0 ClearColorx 1 0 0 0: put off into batch 1 (slots 5 of 16)
4 0 ClearColorx 2 0 0 0: put off into batch 1 (slots 10 of 16)
6 0 ClearColorx 3 0 0 0: put off into batch 1 (slots 15 of 16)
  batch 1 ends full: 3 calls, 15 of 16 slots
7 0 MatrixMode PROJECTION: put off into batch 2 (slots 2 of 16)
  batch 2 ends at the end of the script: 1 call, 2 of 16 slots
",
        "4 calls: 4 put off, 0 waited, 0 answered by the shadow
2 batches of 16 slots
ended full: 1
ended at the end of the script: 1
used up to a quarter: 1
used more than three quarters: 1",
    ),
    (
        "glscript 1
context 0 4 4 1024
0 EnableClientState VERTEX_ARRAY
0 VertexPointer 2 BYTE 0 0
0 DrawArrays TRIANGLES 0 48
0 DrawArrays POINTS 0 3
0 ReadPixels 0 0 1 1 RGBA UNSIGNED_BYTE 0
0 GetFixedv CURRENT_COLOR 0
end
",
        "3 0 EnableClientState VERTEX_ARRAY: put off into batch 1 (slots 2 of 16)
4 0 VertexPointer 2 BYTE 0 0: put off into batch 1 (slots 7 of 16)
  batch 1 ends by a call that waits: 2 calls, 7 of 16 slots
5 0 DrawArrays TRIANGLES 0 48: waits because it is longer than a batch (18 slots)
6 0 DrawArrays POINTS 0 3: put off into batch 2 (slots 7 of 16)
  batch 2 ends by a call that waits: 1 call, 7 of 16 slots
7 0 ReadPixels 0 0 1 1 RGBA UNSIGNED_BYTE 0: replied 4 bytes; waits because its answer is the driver's
8 0 GetFixedv CURRENT_COLOR 0: replied 65536 65536 65536 65536; waits because its answer is the driver's
",
        "6 calls: 3 put off, 3 waited, 0 answered by the shadow
2 batches of 16 slots
ended by a call that waits: 2
used more than a quarter: 2
waited: DrawArrays, 1: it is longer than a batch
waited: ReadPixels, 1: its answer is the driver's
waited: GetFixedv, 1: its answer is the driver's",
    ),
    (
        "glscript 1
context 0 4 4 1024
0 BindBuffer ARRAY_BUFFER 1
0 BufferData ARRAY_BUFFER 4 0 STATIC_DRAW
0 BufferSubData ARRAY_BUFFER 2 4 0
0 BufferSubData ARRAY_BUFFER 3 2 0
0 BindBuffer ARRAY_BUFFER 0
0 BindBuffer ELEMENT_ARRAY_BUFFER 2
0 EnableClientState VERTEX_ARRAY
0 VertexPointer 2 BYTE 0 0
0 DrawElements TRIANGLES 3 UNSIGNED_BYTE 0
0 GetError
end
",
        "3 0 BindBuffer ARRAY_BUFFER 1: put off into batch 1 (slots 3 of 16)
4 0 BufferData ARRAY_BUFFER 4 0 STATIC_DRAW: put off into batch 1 (slots 8 of 16)
5 0 BufferSubData ARRAY_BUFFER 2 4 0: INVALID_VALUE; put off into batch 1 (slots 16 of 16)
  batch 1 ends full: 3 calls, 16 of 16 slots
6 0 BufferSubData ARRAY_BUFFER 3 2 0: INVALID_VALUE, but INVALID_VALUE is recorded already; put off into batch 2 (slots 8 of 16)
7 0 BindBuffer ARRAY_BUFFER 0: put off into batch 2 (slots 11 of 16)
8 0 BindBuffer ELEMENT_ARRAY_BUFFER 2: put off into batch 2 (slots 14 of 16)
9 0 EnableClientState VERTEX_ARRAY: put off into batch 2 (slots 16 of 16)
  batch 2 ends full: 4 calls, 16 of 16 slots
10 0 VertexPointer 2 BYTE 0 0: put off into batch 3 (slots 5 of 16)
  batch 3 ends by a call that waits: 1 call, 5 of 16 slots
11 0 DrawElements TRIANGLES 3 UNSIGNED_BYTE 0: waits because it reads all of client memory
12 0 GetError: replied INVALID_VALUE; waits because its answer is the driver's
",
        "10 calls: 8 put off, 2 waited, 0 answered by the shadow
3 batches of 16 slots
ended full: 2
ended by a call that waits: 1
used more than a quarter: 1
used all: 2
waited: DrawElements, 1: it reads all of client memory
waited: GetError, 1: its answer is the driver's
error: BufferSubData, 2: INVALID_VALUE, 1 of them recorded",
    ),
    (
        "glscript 1
context 0 4 4 1024
0 TexEnvi TEXTURE_ENV TEXTURE_ENV_MODE MODULATE
0 TexEnvxv TEXTURE_ENV TEXTURE_ENV_COLOR 0
0 TexImage2D TEXTURE_2D 0 RGB 2 2 0 RGB UNSIGNED_BYTE 4
0 TexImage2D TEXTURE_2D 0 RGBA 8 4 0 RGBA UNSIGNED_BYTE 4
0 TexParameteri TEXTURE_2D TEXTURE_MIN_FILTER 9728
0 TexParameteri TEXTURE_2D TEXTURE_WRAP_S 2
0 TexSubImage2D TEXTURE_2D 0 7 0 2 1 RGBA UNSIGNED_BYTE 0
0 TexSubImage2D TEXTURE_2D 0 0 0 1 1 ALPHA UNSIGNED_BYTE 0
end
",
        "3 0 TexEnvi TEXTURE_ENV TEXTURE_ENV_MODE MODULATE: put off into batch 1 (slots 4 of 16)
4 0 TexEnvxv TEXTURE_ENV TEXTURE_ENV_COLOR 0: put off into batch 1 (slots 12 of 16)
  batch 1 ends full: 2 calls, 12 of 16 slots
5 0 TexImage2D TEXTURE_2D 0 RGB 2 2 0 RGB UNSIGNED_BYTE 4: put off into batch 2 (slots 14 of 16)
  batch 2 ends by a call that waits: 1 call, 14 of 16 slots
6 0 TexImage2D TEXTURE_2D 0 RGBA 8 4 0 RGBA UNSIGNED_BYTE 4: waits because it is longer than a batch (28 slots)
7 0 TexParameteri TEXTURE_2D TEXTURE_MIN_FILTER NEAREST: put off into batch 3 (slots 4 of 16)
8 0 TexParameteri TEXTURE_2D TEXTURE_WRAP_S 2: INVALID_ENUM; put off into batch 3 (slots 8 of 16)
  batch 3 ends full: 2 calls, 8 of 16 slots
9 0 TexSubImage2D TEXTURE_2D 0 7 0 2 1 RGBA UNSIGNED_BYTE 0: INVALID_VALUE, but INVALID_ENUM is recorded already; put off into batch 4 (slots 13 of 16)
  batch 4 ends full: 1 call, 13 of 16 slots
10 0 TexSubImage2D TEXTURE_2D 0 0 0 1 1 ALPHA UNSIGNED_BYTE 0: INVALID_OPERATION, but INVALID_ENUM is recorded already; put off into batch 5 (slots 13 of 16)
  batch 5 ends at the end of the script: 1 call, 13 of 16 slots
",
        "8 calls: 7 put off, 1 waited, 0 answered by the shadow
5 batches of 16 slots
ended full: 3
ended by a call that waits: 1
ended at the end of the script: 1
used more than a quarter: 1
used more than half: 1
used more than three quarters: 3
waited: TexImage2D, 1: it is longer than a batch
error: TexParameteri, 1: INVALID_ENUM, 1 of them recorded
error: TexSubImage2D, 1: INVALID_VALUE, 0 of them recorded
error: TexSubImage2D, 1: INVALID_OPERATION, 0 of them recorded",
    ),
    (
        "glscript 1
context 0 1 1 0
end
",
        "",
        "0 calls: 0 put off, 0 waited, 0 answered by the shadow
0 batches of 16 slots",
    ),
];

/// The size of batches in these rows.
const SIZE: u32 = 16;

/// The trace of a script as it is printed.
fn trace_text<T: Threads + Sync>(rt: &T, alloc: Global, script: &str) -> Result<String, Fail> {
    let script = read(alloc, script.as_bytes())?;
    let [spec, ..] = script.contexts.as_slice() else {
        return Ok(String::new(alloc));
    };
    let names = NumberNames::new(alloc)?;
    let mut trace = Trace::new(alloc, SIZE, 0, *spec, script.lines.as_slice())?;
    let mut text = String::new(alloc);
    for _ in 0..u64::MAX {
        let Some(entry) = trace.next(rt)? else {
            break;
        };
        if let Some(end) = entry.ended {
            let line = EndLine { end, size: SIZE };
            writeln!(text, "{line}")?;
        }
        let line = EntryLine {
            entry: &entry,
            names: &names,
            size: SIZE,
        };
        line.append_to(&mut text)?;
        text.push_str("\n")?;
        if let Some(end) = entry.sent {
            let line = EndLine { end, size: SIZE };
            writeln!(text, "{line}")?;
        }
    }
    if let Some(end) = trace.end() {
        let line = EndLine { end, size: SIZE };
        writeln!(text, "{line}")?;
    }
    Ok(text)
}

/// The sums of a script as they are printed.
fn sums_text<T: Threads + Sync>(rt: &T, alloc: Global, script: &str) -> Result<String, Fail> {
    let script = read(alloc, script.as_bytes())?;
    let [spec, ..] = script.contexts.as_slice() else {
        return Ok(String::new(alloc));
    };
    let sums = sums_of(rt, alloc, SIZE, 0, *spec, script.lines.as_slice())?;
    let text = SumsText {
        sums: &sums,
        size: SIZE,
    };
    Ok(format!(in alloc; "{text}")?)
}

#[test]
fn each_cause_and_each_end_of_a_batch_is_told(rt: HostRuntime) -> Result<(), Fail> {
    for row in ROWS.iter() {
        let (script, wanted, _) = *row;
        let told = trace_text(&rt, rt.alloc(), script)?;
        assert!(rt; told.as_str() == wanted, "{told}\nand not\n{wanted}");
    }
    Ok(())
}

#[test]
fn the_calls_of_a_script_are_summed_up(rt: HostRuntime) -> Result<(), Fail> {
    for row in ROWS.iter() {
        let (script, _, wanted) = *row;
        let told = sums_text(&rt, rt.alloc(), script)?;
        assert!(rt; told.as_str() == wanted, "{told}\nand not\n{wanted}");
    }
    Ok(())
}
