//! Calls that go through the layer, beside the driver alone.

use batch_rail::InlineMaker;
use driver_trait::{Driver, Reply};
use example_driver::{Counter, told_through, two_clears};
use gl_memory::ClientMemory;
use gl_words::is_answering;
use replay_lines::{Printed, Results, What};
use script_reader::{Act, Line, read};
use std::alloc::{AllocError as NoMemory, Global};
use std::test::Fail;
use std::thread::Threads;

// Clears, of which the second has a bit outside its mask and so an error; tracked state, set and asked for; the count,
// before and after; the error, twice; an array that isn't enabled; a binding.
const SCRIPT: &str = "glscript 1\ncontext 0 4 4 16\n0 Clear COLOR_BUFFER_BIT\n0 Clear 1\n\
    0 GetIntegerv MAX_TEXTURE_SIZE 0\n0 MatrixMode PROJECTION\n0 GetIntegerv MATRIX_MODE 4\n0 Clear 0x4000\n\
    0 GetIntegerv MAX_TEXTURE_SIZE 8\n0 GetError\n0 GetError\n0 IsEnabled VERTEX_ARRAY\n\
    0 BindBuffer ARRAY_BUFFER 7\n0 GetIntegerv ARRAY_BUFFER_BINDING 12\nend\n";

/// What the numbers of SCRIPT's answers are, by line; worked by hand.
const TOLD: [(u32, i64); 7] = [
    (5, 1),
    (7, 5889),
    (9, 2),
    (10, 1281),
    (11, 0),
    (12, 0),
    (14, 7),
];

/// The line and the number of an answer, of which there is one alone.
fn told_at(results: &Results, at: usize) -> Option<(u32, i64)> {
    if at >= results.len() {
        return None;
    }
    let done = results.at(at);
    match &done.what {
        What::Answer {
            numbers: Printed::One(number),
            ..
        } => Some((done.number, *number)),
        _ => None,
    }
}

/// What the lines tell where the driver alone carries out each call, and the driver at their end.
fn told_by_driver<T: Threads + Sync>(
    rt: &T,
    alloc: Global,
    lines: &[Line],
) -> Result<(Results, Counter), NoMemory> {
    let memory = ClientMemory::new(alloc, 16)?;
    let mut driver = Counter::new();
    let mut results = Results::new(alloc);
    for line in lines {
        if let Act::Gl(call) = &line.act {
            let reply = driver.call(rt, call, &memory)?;
            if is_answering(call) {
                results.answer(line.number, line.context, call, reply)?;
            }
        }
    }
    Ok((results, driver))
}

// The layer tells what the driver tells, and leaves it where it leaves itself.
#[test]
fn a_script_is_told_as_the_driver_alone_tells_it(rt: HostRuntime) -> Result<(), Fail> {
    let alloc = rt.alloc();
    let script = read(alloc, SCRIPT.as_bytes())?;
    let lines = script.lines.as_slice();
    let memory = ClientMemory::new(alloc, 16)?;
    let mut maker = InlineMaker::new();
    let (through, driver) = told_through(&rt, alloc, &mut maker, Counter::new(), memory, lines)?;
    let (alone, other) = told_by_driver(&rt, alloc, lines)?;
    for (at, told) in TOLD.iter().enumerate() {
        assert_eq!(rt; told_at(&through, at), Some(*told));
        assert_eq!(rt; told_at(&alone, at), Some(*told));
    }
    assert_eq!(rt; (through.len(), alone.len()), (7, 7));
    assert_eq!(rt; driver.tracked, other.tracked);
    assert_eq!(rt; (driver.recorded, driver.clears), (None, 2));
    assert_eq!(rt; (other.recorded, other.clears), (None, 2));
    Ok(())
}

// Worked by hand: the four bytes written first, then the count of two, its lowest byte first.
#[test]
fn a_front_is_run_without_a_script(rt: HostRuntime) -> Result<(), Fail> {
    let (told, memory, driver) = two_clears(&rt, rt.alloc())?;
    assert!(rt; matches!(told, Reply::One(2)));
    assert_eq!(rt; memory.bytes(), [1, 2, 3, 4, 2, 0, 0, 0].as_slice());
    assert_eq!(rt; driver.clears, 2);
    Ok(())
}
