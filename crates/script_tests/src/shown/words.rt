//! What words are a command, by the table of the words in the formats.

use batch_rail::RailKind;
use replay_text::{Command, command, rail_of};
use std::alloc::{AllocError, Global};
use std::test::Fail;

/// The words between the single spaces of a line.
fn words_of(alloc: Global, line: &str) -> Result<Vec<String>, AllocError> {
    let mut words = Vec::new(alloc);
    for word in line.split(' ') {
        words.push(String::from_str(alloc, word)?)?;
    }
    Ok(words)
}

#[test]
fn options_come_in_any_order(rt: HostRuntime) -> Result<(), Fail> {
    let rows = [
        ("run", 1024, 8, RailKind::Epoch),
        ("run --rail epoch", 1024, 8, RailKind::Epoch),
        ("run --rail inline", 1024, 8, RailKind::Inline),
        ("run --batch 16", 16, 8, RailKind::Epoch),
        ("run --batch 0000008192", 8192, 8, RailKind::Epoch),
        ("run --ring 1", 1024, 1, RailKind::Epoch),
        ("run --ring 64 --batch 17", 17, 64, RailKind::Epoch),
        ("run --ring 3 --rail epoch", 1024, 3, RailKind::Epoch),
        (
            "run --rail inline --ring 2 --batch 100",
            100,
            2,
            RailKind::Inline,
        ),
    ];
    for (line, batch, ring, rail) in &rows {
        let words = words_of(rt.alloc(), line)?;
        let run = Command::Run {
            batch: *batch,
            ring: *ring,
            rail: *rail,
        };
        assert_eq!(rt; command(&words), Some(run), "{line}");
        assert_eq!(rt; rail_of(&words), Some(*rail), "{line}");
    }
    Ok(())
}

#[test]
fn direct_has_no_options(rt: HostRuntime) -> Result<(), Fail> {
    let words = words_of(rt.alloc(), "direct")?;
    assert_eq!(rt; command(&words), Some(Command::Direct));
    assert_eq!(rt; rail_of(&words), Some(RailKind::Inline));
    Ok(())
}

#[test]
fn other_words_are_no_command(rt: HostRuntime) -> Result<(), Fail> {
    let rows = [
        "",
        "Run",
        "runs",
        "--rail inline run",
        "run --rail",
        "run --rail Epoch",
        "run --rail ring",
        "run --rail epoch --rail inline",
        "run --rail inline inline",
        "run --rail inline --rail inline",
        "run --batch",
        "run --batch 15",
        "run --batch 8193",
        "run --batch 16 --batch 16",
        "run --batch 00000000016",
        "run --batch 4294967312",
        "run --batch ",
        "run --batch +16",
        "run --batch -16",
        "run --batch 0x10",
        "run --batch 16 ",
        "run --ring 0",
        "run --ring 65",
        "run --ring 8 --batch 16 --ring 8",
        "run --ring=8",
        "run --seed 1",
        "run direct",
        "direct --batch 16",
        "direct direct",
        "direct ",
    ];
    for line in &rows {
        let words = words_of(rt.alloc(), line)?;
        assert_eq!(rt; command(&words), None, "{line}");
        assert_eq!(rt; rail_of(&words), None, "{line}");
    }
    let no_words = Vec::new(rt.alloc());
    assert_eq!(rt; command(&no_words), None);
    Ok(())
}
