//! Lines run over a driver other than the renderer.

ghost use Rattle.std.specs.Prelude.{◌≡◌, ◌<◌, ◌≤◌, [], length, IfOk};
ghost use Rattle.std.specs.List.{All};
ghost use Rattle.gl_tracked.specs.Tracked.{first_tracked};
ghost use Rattle.batch_rail.specs.Maker.{IsLaunched};
ghost use Rattle.driver_trait.specs.Recorder.{RecorderView};
ghost use Rattle.gl_front.specs.Front.{no_counts};
ghost use Rattle.replay_lines.specs.Limits.{IsSmall};

use batch_rail::{InlineMaker, RailMaker, WaitMaker, WaitPart};
use driver_trait::{Recorder, Reply};
use gl_front::{Front, WaitFront};
use gl_memory::{ClientMemory, Numbers, Octets};
use gl_words::{Call, is_answering};
use replay_lines::{Done, Printed, Results, What, run_lines, wait_run_lines};
use script_reader::{Act, Line, Name};
use std::alloc::{AllocError, AllocError as NoMemory, Global};
use std::process::Abort;
use std::sync::Wait;
use std::test::Fail;
use std::thread::Threads;

/// A rail of batches of 16 slots for context 1, over a recorder.
fn rail_of_one<M: RailMaker<Recorder>>(alloc: Global, maker: &mut M) -> Result<M::Made, NoMemory>
    ensures launched { IfOk result (λ rail. IsLaunched (λ (st : RecorderView). st.tracked)
        (M.Made.stands rail) (M.Made.failed rail) (M.Made.home rail) (M.Made.size rail)
        first_tracked) }
    ensures sent { IfOk result (λ rail. M.Made.sent rail ≡ 0) }
{
    let Ok(rail) = maker.launch(alloc, 1, Recorder::new(alloc), 16, 1) else {
        return Err(AllocError);
    };
    Ok(rail)
}

/// A front over such a rail, with this many bytes of client memory.
fn front_of_one<M: RailMaker<Recorder>>(
    alloc: Global,
    maker: &mut M,
    size: u32,
) -> Result<Front<Recorder, M::Made>, NoMemory>
    requires size { size ≤ 1048576 }
    ensures { IfOk result (λ front.
        (front.calls ≡ []) × (front.counts ≡ no_counts) × (M.Made.sent front.rail ≡ 0)) }
{
    let rail = rail_of_one(alloc, maker)?;
    let memory = ClientMemory::new(alloc, size)?;
    let Ok(front) = Front::new(alloc, rail, memory) else {
        return Err(AllocError);
    };
    Ok(front)
}

/// Runs the lines of context 1 through a front that may wait, with four bytes of client memory, over a recorder. Gives what
/// they told and the recorder.
fn ran_waiting<T: Threads + Sync, W: Wait, M: WaitMaker<Recorder>>(
    rt: &T,
    wait: &W,
    alloc: Global,
    maker: &mut M,
    lines: &[Line],
) -> Result<(Results, Recorder), NoMemory>
    requires few { length lines.now ≤ 262144 }
    requires small { All IsSmall lines.now }
{
    let mut part = maker.split(1);
    let Ok(rail) = part.launch(rt, wait, alloc, Recorder::new(alloc), 16, 1) else {
        return Err(AllocError);
    };
    let memory = ClientMemory::new(alloc, 4)?;
    let Ok(mut front) = WaitFront::new(alloc, rail, memory) else {
        return Err(AllocError);
    };
    let mut results = Results::new(alloc);
    wait_run_lines(rt, wait, alloc, &mut front, 1, lines, &mut results)?;
    front.flush(rt, wait);
    let (rail, _memory) = front.into_parts();
    let driver = part.close(rt, wait, rail)?;
    Ok((results, driver))
}

/// A line that makes a call.
fn line(number: u32, context: u32, call: Call) -> Line
    ensures { IsSmall result }
{
    Line {
        number,
        context,
        act: Act::Gl(call),
    }
}

/// A line of context 1 that writes bytes at the beginning of client memory.
fn mem_line(alloc: Global, number: u32, bytes: [u8; 8]) -> Result<Line, NoMemory>
    ensures { IfOk result (λ line. IsSmall line) }
{
    Ok(Line {
        number,
        context: 1,
        act: Act::Mem {
            at: 0,
            bytes: octets(alloc, bytes)?,
        },
    })
}

fn octets(alloc: Global, bytes: [u8; 8]) -> Result<Octets, NoMemory> {
    let [a, b, c, d, e, f, g, h] = bytes;
    let mut octets = Octets::new(alloc, 8)?;
    octets.push(a);
    octets.push(b);
    octets.push(c);
    octets.push(d);
    octets.push(e);
    octets.push(f);
    octets.push(g);
    octets.push(h);
    Ok(octets)
}

/// A line of context 1 that takes an image of one column and two rows from the beginning of client memory.
fn image_line(number: u32, name: Name) -> Line
    ensures { IsSmall result }
{
    Line {
        number,
        context: 1,
        act: Act::Image {
            name,
            width: 1,
            height: 2,
            at: 0,
        },
    }
}

/// A result is an answer of this line of context 1, with these numbers.
fn is_answer(rt: &impl Abort, done: &Done, number: u32, call: Call, answer: &[i64]) {
    assert_eq!(rt; done.number, number);
    assert_eq!(rt; done.context, 1);
    let What::Answer {
        call: answered,
        numbers,
    } = &done.what
    else {
        panic!(rt; "no answer is told")
    };
    assert_eq!(rt; *answered, call);
    match numbers {
        Printed::Nothing => assert!(rt; answer.is_empty()),
        Printed::One(number) => assert_eq!(rt; [*number].as_slice(), answer),
        Printed::Many(numbers) => assert_eq!(rt; numbers.as_slice(), answer),
    }
}

// The recorder keeps the calls of context 1 that aren't gets of tracked state, and answers nothing else. Worked by hand.
#[test]
fn lines_of_a_context_run_over_another_driver(rt: HostRuntime) -> Result<(), Fail> {
    let alloc = rt.alloc();
    let mut maker = InlineMaker::new();
    let mut front = front_of_one(alloc, &mut maker, 4)?;
    let projection = Call::MatrixMode { mode: 0x1701 };
    let mode = Call::GetIntegerv {
        pname: 0x0BA0,
        params: 0,
    };
    let lines = [
        line(3, 1, projection),
        line(4, 0, Call::LoadIdentity),
        line(5, 1, mode),
        line(6, 1, Call::GetError),
        line(7, 2, mode),
    ];
    let mut results = Results::new(alloc);
    run_lines(&rt, alloc, &mut front, 1, lines.as_slice(), &mut results)?;
    assert_eq!(rt; results.len(), 2);
    let rows: [(usize, u32, Call, &[i64]); 2] = [
        (0, 5, mode, &[5889]),
        (1, 6, Call::GetError, &[]),
    ];
    for (at, number, call, answer) in &rows {
        if *at >= results.len() {
            panic!(rt; "a line told nothing")
        }
        is_answer(&rt, results.at(*at), *number, *call, answer);
    }
    assert_eq!(rt; front.memory().bytes(), [1, 0x17, 0, 0].as_slice());
    front.flush(&rt);
    let (rail, _memory) = front.into_parts();
    let Ok(driver) = maker.close(1, rail) else {
        panic!(rt; "a batch failed")
    };
    assert_eq!(rt; driver.calls(), [projection, Call::GetError].as_slice());
    Ok(())
}

// As the test above, with a line that sends its batch; worked by hand.
#[test]
fn lines_of_a_context_run_through_a_front_that_may_wait(rt: HostRuntime) -> Result<(), Fail> {
    let mut maker = InlineMaker::new();
    let projection = Call::MatrixMode { mode: 0x1701 };
    let mode = Call::GetIntegerv {
        pname: 0x0BA0,
        params: 0,
    };
    let lines = [
        line(3, 1, projection),
        line(4, 0, Call::LoadIdentity),
        line(5, 1, Call::Flush),
        line(6, 1, mode),
        line(7, 1, Call::GetError),
    ];
    let (results, driver) = ran_waiting(&rt, &rt, rt.alloc(), &mut maker, lines.as_slice())?;
    if results.len() != 2 {
        panic!(rt; "two lines tell something")
    }
    is_answer(&rt, results.at(0), 6, mode, [5889].as_slice());
    is_answer(&rt, results.at(1), 7, Call::GetError, &[]);
    assert_eq!(rt;
        driver.calls(),
        [projection, Call::Flush, Call::GetError].as_slice()
    );
    Ok(())
}

// Of the four bytes of a number those in memory are written, and the number is told all the same. An image has its lowest
// row first. The bytes were worked by hand, and another program gives the same.
#[test]
fn bytes_past_the_end_of_memory_are_dropped(rt: HostRuntime) -> Result<(), Fail> {
    let alloc = rt.alloc();
    let mut maker = InlineMaker::new();
    let mut front = front_of_one(alloc, &mut maker, 8)?;
    let Some(name) = Name::from_word(b"all".as_slice()) else {
        panic!(rt; "no name")
    };
    let mode = |params: u32| Call::GetIntegerv {
        pname: 0x0BA0,
        params,
    };
    let lines = [
        mem_line(alloc, 3, [0x11, 0x22, 0x33, 0x44, 0x55, 0x66, 0x77, 0x88])?,
        line(4, 1, mode(5)),
        line(5, 1, mode(100)),
        image_line(6, name),
    ];
    let mut results = Results::new(alloc);
    run_lines(&rt, alloc, &mut front, 1, lines.as_slice(), &mut results)?;
    assert_eq!(rt; results.len(), 3);
    is_answer(&rt, results.at(0), 4, mode(5), [5888].as_slice());
    is_answer(&rt, results.at(1), 5, mode(100), [5888].as_slice());
    let done = results.at(2);
    assert_eq!(rt; (done.number, done.context), (6, 1));
    let What::Image {
        name,
        width,
        height,
        bytes,
    } = &done.what
    else {
        panic!(rt; "no image is told")
    };
    assert_eq!(rt; name.as_bytes(), b"all".as_slice());
    assert_eq!(rt; (*width, *height), (1, 2));
    assert_eq!(rt;
        bytes.as_slice(),
        b"\x11\x22\x33\x44\x55\0\x17\0".as_slice()
    );
    Ok(())
}

/// Adds what a call of context 1 told that asks for something.
fn answer(results: &mut Results, number: u32, call: &Call, reply: Reply) -> Result<(), NoMemory> {
    if is_answering(call) {
        results.answer(number, 1, call, reply)?;
    }
    Ok(())
}

// Of ReadPixels the count of bytes is told, of other calls the numbers; worked by hand.
#[test]
fn each_reply_has_its_numbers(rt: HostRuntime) -> Result<(), Fail> {
    let alloc = rt.alloc();
    let mut numbers = Numbers::new(alloc, 2)?;
    numbers.push(7);
    numbers.push(-1);
    let read = Call::ReadPixels {
        x: 0,
        y: 0,
        width: 2,
        height: 1,
        format: 0x1908,
        kind: 0x1401,
        pixels: 0,
    };
    let mut results = Results::new(alloc);
    answer(&mut results, 4, &Call::GetError, Reply::Numbers(numbers))?;
    answer(&mut results, 6, &read, Reply::Bytes(octets(alloc, [0; 8])?))?;
    answer(&mut results, 7, &read, Reply::Nothing)?;
    answer(&mut results, 8, &Call::GetError, Reply::One(1280))?;
    let rows: [(usize, u32, Call, &[i64]); 4] = [
        (0, 4, Call::GetError, &[7, -1]),
        (1, 6, read, &[8]),
        (2, 7, read, &[0]),
        (3, 8, Call::GetError, &[1280]),
    ];
    assert_eq!(rt; results.len(), 4);
    for (at, number, call, answer) in &rows {
        if *at >= results.len() {
            panic!(rt; "a line told nothing")
        }
        is_answer(&rt, results.at(*at), *number, *call, answer);
    }
    Ok(())
}
