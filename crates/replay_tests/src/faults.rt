//! Objects that fail.

use crate::runs::{ended, has_file};
use crate::ways::{Outside, WAYS, Way};
use std::alloc::{AllocError, Global};
use std::process::Abort;
use std::sync::Wait;
use std::test::Fail;
use std::thread::Threads;

/// A run with an object that fails: which, the number of its call that fails, how many bytes a call moves, how many images
/// stand, how many bytes of the report were written, and how the run ends. The script takes six reads of 16 bytes and one
/// that finds its end, and the report three writes.
const FAULTS: &str = "\
source 0 16 0 0: read fault
source 1 16 0 0: read fault
source 2 16 0 0: read fault
source 3 16 0 0: read fault
source 4 16 0 0: read fault
source 5 16 0 0: read fault
source 6 16 0 0: read fault
source 7 16 1 41: done
shelf 0 16 0 0: shelf fault after 0 images
shelf 1 16 1 41: done
sink 0 16 1 0: write fault
sink 1 16 1 16: write fault
sink 2 16 1 32: write fault
sink 3 16 1 41: done
sink 1 10 1 10: write fault
sink 41 1 1 41: done
sink 6 7 1 41: done
";

/// The same of a script of three images. Its report has 41 bytes too.
const FAILED_PUTS: &str = "\
shelf 0 64 0 0: shelf fault after 0 images
shelf 1 64 1 0: shelf fault after 1 images
shelf 2 64 2 0: shelf fault after 2 images
shelf 3 64 3 41: done
";

/// A script, and what it leaves where nothing fails: the report and the files.
struct Whole {
    script: &'static str,
    report: &'static str,
    files: &'static [&'static str],
}

const RED: Whole = Whole {
    script: "glscript 1\ncontext 0 4 4 0\n0 ClearColorx 65536 0 0 65536\n0 Clear COLOR_BUFFER_BIT\nend\n",
    report: "glreport 1\ncounts 0 2 0 0 1\nimages 1\nend\n",
    files: &[
        "frame-0.ppm 50360a3420340a3235350aff0000ff0000ff0000ff0000ff0000ff0000ff0000ff0000ff0000ff0000ff0000ff0000ff0000ff0000ff0000ff0000",
    ],
};

const THREE_IMAGES: Whole = Whole {
    script: "glscript 1\ncontext 0 1 1 8\n0 image a 1 1 0\n0 image b 1 1 4\nend\n",
    report: "glreport 1\ncounts 0 0 0 0 0\nimages 3\nend\n",
    files: &[
        "image-a.ppm 50360a3120310a3235350a000000",
        "image-b.ppm 50360a3120310a3235350a000000",
        "frame-0.ppm 50360a3120310a3235350a000000",
    ],
};

/// The number that a word spells.
fn number(word: Option<&str>) -> u64 {
    match word {
        Some(word) => word.parse::<u64>().unwrap_or(u64::MAX),
        None => u64::MAX,
    }
}

/// Objects of which one fails at this call of it.
fn failing(alloc: Global, object: &str, call: u64, most: u64) -> Result<Outside, AllocError> {
    let mut outside = Outside::sure(alloc, most as usize);
    match object {
        "source" => outside.source.push(call)?,
        "shelf" => outside.shelf.push(call)?,
        _ => outside.sink.push(call)?,
    }
    Ok(outside)
}

/// Whether a run of this script with a fault ends as is told.
fn ends_so<T: Threads + Wait + Copy + Send + Sync + Abort + 'static>(
    rt: T,
    alloc: Global,
    way: Way,
    whole: &Whole,
    told: &str,
) -> Result<bool, AllocError> {
    let Some((fault, status)) = told.split_once(": ") else {
        return Ok(false);
    };
    let mut words = fault.split(' ');
    let object = words.next().unwrap_or("");
    let call = number(words.next());
    let outside = failing(alloc, object, call, number(words.next()))?;
    let images = number(words.next());
    let written = number(words.next());
    let left = way.replay(rt, alloc, "run", whole.script.as_bytes(), outside)?;
    if !ended(alloc, &left.status, status)? || left.shelf.len() as u64 != images {
        return Ok(false);
    }
    for place in 0..left.shelf.len() {
        let file = whole.files.get(place).copied().unwrap_or("");
        if !has_file(alloc, &left.shelf, place, file)? {
            return Ok(false);
        }
    }
    Ok(
        left.sink.bytes().len() as u64 == written
            && whole.report.as_bytes().starts_with(left.sink.bytes()),
    )
}

// The last row of the puts is the first that doesn't fail.
#[test]
fn each_fault_ends_the_run(rt: HostRuntime) -> Result<(), Fail> {
    for way in WAYS {
        for (whole, faults) in [(&RED, FAULTS), (&THREE_IMAGES, FAILED_PUTS)] {
            for told in faults.lines() {
                assert!(rt;
                    ends_so(rt, rt.alloc(), way, whole, told)?,
                    "{way:?}, the fault {told}"
                );
            }
        }
    }
    Ok(())
}
