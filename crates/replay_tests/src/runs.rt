//! Whole runs of the top calls over objects in memory.

ghost use Rattle.std.specs.Prelude.{◌<◌};

use crate::drawn::DRAWN;
use crate::limits::{LARGE, MOST_BATCHES, MOST_LINES, PAST_LIMITS, SMALL};
use crate::objects::OBJECTS;
use crate::texture_errors::TEXTURE_ERRORS;
use crate::textures::{LARGE_IMAGES, TEXTURES};
use crate::told::{REFUSED, RUNS};
use crate::ways::{Left, Outside, Ready, WAYS, Way, replay_over, wait_over};
use batch_rail::{JournalMaker, RailKind};
use gl_outside::MemoryShelf;
use replay_text::Status;
use std::alloc::{AllocError, Global};
use std::process::Abort;
use std::sync::Wait;
use std::test::Fail;
use std::thread::Threads;

/// Whether two hexadecimal digits spell this byte.
fn is_spelled(byte: u8, high: u8, low: u8) -> bool {
    let digits = b"0123456789abcdef".as_slice();
    digits.get(usize::from(byte / 16)) == Some(&high)
        && digits.get(usize::from(byte % 16)) == Some(&low)
}

/// Whether hexadecimal digits spell these bytes, two digits a byte.
fn are_spelled(bytes: &[u8], spelling: &[u8]) -> bool {
    let mut digits = spelling;
    for byte in bytes {
        let [high, low, rest @ ..] = digits else {
            return false;
        };
        if !is_spelled(*byte, *high, *low) {
            return false;
        }
        digits = rest;
    }
    digits.is_empty()
}

/// Whether the file at a place has this name and these bytes.
pub(crate) fn has_file(
    alloc: Global,
    shelf: &MemoryShelf,
    place: usize,
    told: &str,
) -> Result<bool, AllocError> {
    let Some((name, spelling)) = told.trim_end().split_once(' ') else {
        return Ok(false);
    };
    let digits = unfolded(alloc, spelling)?;
    Ok(
        place < shelf.len()
            && shelf.name_at(place) == name
            && are_spelled(shelf.bytes_at(place), digits.as_slice()),
    )
}

/// Whether a report is what is told of it.
fn is_report(report: &[u8], told: &str) -> bool {
    match told.split_once('^') {
        Some((head, others)) => {
            report.starts_with(head.as_bytes()) && ends_so(report, head.len(), others)
        }
        None => report == told.as_bytes(),
    }
}

/// Whether a report ends as is told, behind its head and so many bytes that no one looks at.
fn ends_so(report: &[u8], head: usize, told: &str) -> bool {
    let Some((count, tail)) = told.split_once('^') else {
        return false;
    };
    let others = count.parse::<usize>().unwrap_or(0);
    report.ends_with(tail.as_bytes())
        && report.len() == head.wrapping_add(others).wrapping_add(tail.len())
}

/// Appends a text as often as the number before it says.
fn append_repeated(bytes: &mut Vec<u8>, told: &str) -> Result<(), AllocError> {
    let Some((count, text)) = told.split_once(' ') else {
        return Ok(());
    };
    for _ in 0..count.parse::<u32>().unwrap_or(0) {
        bytes.extend_from_slice(text.as_bytes())?;
    }
    Ok(())
}

/// What is told, with repeated texts as often as they are to stand.
fn unfolded(alloc: Global, told: &str) -> Result<Vec<u8>, AllocError> {
    let mut bytes = Vec::new(alloc);
    let mut is_repeated = false;
    for piece in told.split('^') {
        if is_repeated {
            append_repeated(&mut bytes, piece)?;
        } else {
            bytes.extend_from_slice(piece.as_bytes())?;
        }
        is_repeated = !is_repeated;
    }
    Ok(bytes)
}

/// Whether a run ended so: the text of its status is this one behind the program's name.
pub(crate) fn ended(alloc: Global, status: &Status, told: &str) -> Result<bool, AllocError> {
    let text = format!(in alloc; "{status}")?;
    Ok(text.as_str().strip_prefix("glreplay: ") == Some(told))
}

/// The words that are told of a run.
fn words_of(told: &str) -> &str {
    told.split('~').next().unwrap_or("")
}

/// The script that is told of a run.
fn script_in(alloc: Global, told: &str) -> Result<Vec<u8>, AllocError> {
    let mut fields = told.split('~');
    let _words = fields.next();
    let _status = fields.next();
    unfolded(alloc, fields.next().unwrap_or("").trim_start())
}

/// Whether a run left what is told of it: how it ended, the report and the files, and no other.
fn left_so(alloc: Global, left: &Left, told: &str) -> Result<bool, AllocError> {
    let mut fields = told.split('~');
    let _words = fields.next();
    let status = fields.next().unwrap_or("");
    let _script = fields.next();
    let report = fields.next().unwrap_or("").trim_start();
    if !ended(alloc, &left.status, status)? || !is_report(left.sink.bytes(), report) {
        return Ok(false);
    }
    let mut place = 0_usize;
    for file in fields {
        if !has_file(alloc, &left.shelf, place, file)? {
            return Ok(false);
        }
        place = place.wrapping_add(1);
    }
    Ok(left.shelf.len() == place)
}

/// Runs each of these in this way where it can be had, and counts them.
fn count_runs<T: Threads + Wait + Copy + Send + Sync + Abort + 'static>(
    rt: T,
    alloc: Global,
    way: Way,
    runs: &str,
) -> Result<u32, AllocError> {
    let mut count = 0_u32;
    for told in runs.split('@') {
        let words = words_of(told);
        if !told.is_empty() && way.has(words) {
            let script = script_in(alloc, told)?;
            let sure = Outside::sure(alloc, 65536);
            let left = way.replay(rt, alloc, words, script.as_slice(), sure)?;
            assert!(rt; left_so(alloc, &left, told)?, "{way:?}, the run {told}");
            count = count.wrapping_add(1);
        }
    }
    Ok(count)
}

// The bytes were worked by hand, and another program gives the same.
#[test]
fn each_script_has_its_report_and_its_images(rt: HostRuntime) -> Result<(), Fail> {
    for (way, runs) in WAYS.into_iter().zip([20, 20, 14, 14]) {
        assert_eq!(rt; count_runs(rt, rt.alloc(), way, RUNS)?, runs, "{way:?}");
    }
    Ok(())
}

/// Runs each of these scripts in this way: by `direct` where that can be had, and with batches of each of the
/// three sizes. Counts the runs.
fn count_drawn<T: Threads + Wait + Copy + Send + Sync + Abort + 'static>(
    rt: T,
    alloc: Global,
    way: Way,
    scripts: &str,
) -> Result<u32, Fail> {
    let mut count = 0_u32;
    for told in scripts.split('@') {
        if !told.is_empty() {
            let (small, rest) = told.split_once('~').ok_or("no counts")?;
            let (middle, rest) = rest.split_once('~').ok_or("no counts")?;
            let (large, rest) = rest.split_once('~').ok_or("no counts")?;
            let (before, behind) = rest.split_once('$').ok_or("no place for counts")?;
            let runs = [
                format!(in alloc; "direct~done~{before}{behind}")?,
                format!(in alloc; "run --batch 16~done~{before}counts {small}\n{behind}")?,
                format!(in alloc; "run --batch 77~done~{before}counts {middle}\n{behind}")?,
                format!(in alloc; "run --batch 1024~done~{before}counts {large}\n{behind}")?,
            ];
            for told in &runs {
                count = count.wrapping_add(count_runs(rt, alloc, way, told.as_str())?);
            }
        }
    }
    Ok(count)
}

/// Runs each of these scripts in each way, as often as is told of the way.
fn check_drawn<T: Threads + Wait + Copy + Send + Sync + Abort + 'static>(
    rt: T,
    alloc: Global,
    scripts: &str,
    counts: [u32; 4],
) -> Result<(), Fail> {
    for (way, runs) in WAYS.into_iter().zip(counts) {
        assert_eq!(rt; count_drawn(rt, alloc, way, scripts)?, runs, "{way:?}");
    }
    Ok(())
}

// The first eight were worked by hand, and another program gives the same; the others are that program's.
#[test]
fn each_script_that_draws_has_its_report_and_its_images(rt: HostRuntime) -> Result<(), Fail> {
    check_drawn(rt, rt.alloc(), DRAWN, [44, 44, 33, 33])
}

// The first five were worked by hand, and another program gives the same; the others are that program's.
#[test]
fn each_script_of_objects_has_its_report_and_its_images(rt: HostRuntime) -> Result<(), Fail> {
    check_drawn(rt, rt.alloc(), OBJECTS, [40, 40, 30, 30])
}

// The first three were worked by hand, and another program gives the same; the others are that program's.
#[test]
fn each_script_of_textures_has_its_report_and_its_images(rt: HostRuntime) -> Result<(), Fail> {
    check_drawn(rt, rt.alloc(), TEXTURES, [36, 36, 27, 27])?;
    check_drawn(rt, rt.alloc(), TEXTURE_ERRORS, [4, 4, 3, 3])
}

// The report, the counts and the images are those of another program.
#[test]
fn images_of_the_most_texels_are_had_whole(rt: HostRuntime) -> Result<(), Fail> {
    check_drawn(rt, rt.alloc(), LARGE_IMAGES, [4, 4, 3, 3])
}

// The lines and the faults are those of FORMATS.md, and of another program. Other words that are
// refused stand in the tests of the words.
#[test]
fn what_is_refused_leaves_nothing(rt: HostRuntime) -> Result<(), Fail> {
    for way in WAYS {
        assert_eq!(rt; count_runs(rt, rt.alloc(), way, REFUSED)?, 12, "{way:?}");
    }
    Ok(())
}

#[test]
fn a_script_past_its_limits_is_refused(rt: HostRuntime) -> Result<(), Fail> {
    for way in [Way::Returning, Way::Worker] {
        assert_eq!(rt; count_runs(rt, rt.alloc(), way, PAST_LIMITS)?, 2, "{way:?}");
    }
    Ok(())
}

/// Runs a script in these ways with these sizes of batches, and with rings of 1 and of 64. Beside each size stands how many
/// batches there are, which comes into the report at the `$`.
fn run_with_sizes<T: Threads + Wait + Copy + Send + Sync + Abort + 'static>(
    rt: T,
    alloc: Global,
    ways: &[Way],
    told: &str,
    sizes: &[(u32, u32)],
) -> Result<(), Fail> {
    let (before, behind) = told.split_once('$').ok_or("no place for a number")?;
    for (batch, batches) in sizes {
        for ring in [1, 64] {
            let told = format!(in alloc;
                "run --ring {ring} --batch {batch}~{before}{batches}{behind}"
            )?;
            for way in ways {
                assert_eq!(rt; count_runs(rt, alloc, *way, told.as_str())?, 1, "{told}");
            }
        }
    }
    Ok(())
}

// With memory to spare all is done. The report is that of another program, and how many batches there are was worked by
// hand: a call that sets the colour has five slots, and the clear has two.
#[test]
fn large_things_succeed(rt: HostRuntime) -> Result<(), Fail> {
    let sizes = [(16, 334), (77, 67), (1024, 5), (8192, 1)];
    run_with_sizes(
        rt,
        rt.alloc(),
        &[Way::Returning, Way::Worker],
        LARGE,
        &sizes,
    )
}

// Worked by hand: the calls have 18 slots together, of which the draw has 11.
#[test]
fn sizes_of_batches_and_rings_leave_the_same_image(rt: HostRuntime) -> Result<(), Fail> {
    let sizes = [(16, 2), (17, 2), (18, 1), (77, 1), (1024, 1), (8192, 1)];
    run_with_sizes(rt, rt.alloc(), &WAYS, SMALL, &sizes)
}

// Worked by hand: a batch has room for 8 or 4,096 calls of two slots each, a Flush ends its batch, and the answers of the
// lines 3 to 262,143 have 14 bytes each and 1,461,751 digits together.
#[test]
fn the_most_lines_are_run_over_the_longest_ring(rt: HostRuntime) -> Result<(), Fail> {
    assert_eq!(rt; count_runs(rt, rt.alloc(), Way::Returning, MOST_LINES)?, 3);
    assert_eq!(rt;
        count_runs(rt, rt.alloc(), Way::Returning, MOST_BATCHES)?,
        1
    );
    Ok(())
}

// The bytes are those of the runs above.
#[test]
fn the_most_lines_are_run_with_a_worker(rt: HostRuntime) -> Result<(), Fail> {
    assert_eq!(rt; count_runs(rt, rt.alloc(), Way::Worker, MOST_LINES)?, 3);
    Ok(())
}

const PARTED: &str =
    "glscript 1\ncontext 0 1 1 0\n0 Clear 0x4000\n0 Flush\n0 MatrixMode PROJECTION\n0 PushMatrix\n0 GetError\n0 Rotatex -65536 0 0 65536\n0 Frustumx -1 1 -1 1 1 2\n0 LoadIdentity\n0 Viewport -1 0 5 5\nend\n";

const SMALL_BATCHES: &str = "run --rail inline --batch 16";

/// The script above was run, and its batches were handed over. The slots of each are those of another program.
fn handed_over(rt: &impl Abort, left: &Left, rails: &JournalMaker) {
    let batches: [&[u64]; 4] = [
        &[0x2_0008, 0x4000, 0x1_001C],
        &[0x2_002A, 0x1701, 0x1_0032],
        &[
            0x5_0034,
            0xFFFF_FFFF_FFFF_0000,
            0,
            0,
            0x1_0000,
            0x7_001E,
            0xFFFF_FFFF_FFFF_FFFF,
            1,
            0xFFFF_FFFF_FFFF_FFFF,
            1,
            1,
            2,
            0x1_0028,
        ],
        &[0x5_0040, 0xFFFF_FFFF_FFFF_FFFF, 0, 5, 5],
    ];
    assert_eq!(rt; left.status, Status::Ok);
    assert_eq!(rt;
        left.sink.bytes(),
        b"glreport 1\n7 0 GetError 0\ncounts 0 8 1 0 4\nimages 1\nend\n".as_slice()
    );
    tells(rt, rails, 0, &batches);
    tells(rt, rails, 1, &[]);
}

#[test]
fn a_run_hands_over_the_batches_of_its_calls(rt: HostRuntime) -> Result<(), Fail> {
    let mut rails = JournalMaker::new(rt.alloc(), RailKind::Inline, 24)?;
    let sure = Outside::sure(rt.alloc(), 4096);
    let ready = Ready::new(rt.alloc(), SMALL_BATCHES, PARTED.as_bytes(), sure)?;
    let left = replay_over(&rt, rt.alloc(), ready, &mut rails);
    handed_over(&rt, &left, &rails);
    Ok(())
}

#[test]
fn a_run_that_may_wait_hands_over_the_same_batches(rt: HostRuntime) -> Result<(), Fail> {
    let mut rails = JournalMaker::new(rt.alloc(), RailKind::Inline, 24)?;
    let sure = Outside::sure(rt.alloc(), 4096);
    let ready = Ready::new(rt.alloc(), SMALL_BATCHES, PARTED.as_bytes(), sure)?;
    let left = wait_over(&rt, &rt, rt.alloc(), ready, &mut rails);
    handed_over(&rt, &left, &rails);
    Ok(())
}

/// A context has these batches, and no other.
fn tells(rt: &impl Abort, rails: &JournalMaker, context: u32, batches: &[&[u64]])
    requires { context < 4 }
{
    match rails.journal(context) {
        Some(mut told) => {
            for slots in batches {
                assert_eq!(rt; told.next(), Some(*slots));
            }
            assert!(rt; told.next().is_none());
        }
        None => panic!(rt; "not told"),
    }
}
