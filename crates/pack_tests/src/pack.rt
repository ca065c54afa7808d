//! The spelling against slots that another program wrote or read, and each public call once.
//! Slots with segments are worked by hand, and that program reads them so too.
//! Slots of calls with signed and unsigned arguments are worked by hand as well.

use batch_pack::*;
use gl_memory::{ClientMemory, Memory, Piece, Pieces, read_i32, read_u16, read_u32};
use gl_words::{Call, row_of};
use std::alloc::{AllocError as NoMemory, Global};
use std::process::Abort;
use std::test::Fail;

/// The place of the last byte that a segment may hold.
const LAST: u64 = 0x3fff_ffff_ffff_ffff;

const CLEAR: Call = Call::Clear { mask: 0x4000 };

// The slots are those of that program.
#[test]
fn each_call_of_the_table_reads_back(rt: HostRuntime) -> Result<(), Fail> {
    let rows = [
        (CLEAR, [0x2_0008, 0x4000].as_slice()),
        (
            Call::Clear { mask: u32::MAX },
            [0x2_0008, 0xffff_ffff].as_slice(),
        ),
        (
            Call::ClearColorx {
                red: 65536,
                green: -1,
                blue: i32::MAX,
                alpha: i32::MIN,
            },
            [
                0x5_0009,
                0x1_0000,
                u64::MAX,
                0x7fff_ffff,
                0xffff_ffff_8000_0000,
            ]
            .as_slice(),
        ),
        (
            Call::ColorMask {
                red: true,
                green: false,
                blue: false,
                alpha: true,
            },
            [0x5_000d, 1, 0, 0, 1].as_slice(),
        ),
        (Call::DepthMask { flag: false }, [0x2_0013, 0].as_slice()),
        (Call::Finish, [0x1_001b].as_slice()),
        (Call::Flush, [0x1_001c].as_slice()),
        (
            Call::Frustumx {
                left: 1,
                right: 2,
                bottom: 3,
                top: 4,
                near: 5,
                far: 6,
            },
            [0x7_001e, 1, 2, 3, 4, 5, 6].as_slice(),
        ),
        (Call::GetError, [0x1_0021].as_slice()),
        (Call::LoadIdentity, [0x1_0028].as_slice()),
        (
            Call::MatrixMode { mode: 0x1701 },
            [0x2_002a, 0x1701].as_slice(),
        ),
        (
            Call::Orthox {
                left: -1,
                right: 65536,
                bottom: -65536,
                top: i32::MAX,
                near: i32::MIN,
                far: 7,
            },
            [
                0x7_002f,
                u64::MAX,
                0x1_0000,
                0xffff_ffff_ffff_0000,
                0x7fff_ffff,
                0xffff_ffff_8000_0000,
                7,
            ]
            .as_slice(),
        ),
        (Call::PopMatrix, [0x1_0031].as_slice()),
        (Call::PushMatrix, [0x1_0032].as_slice()),
        (
            Call::Rotatex {
                angle: 5898240,
                x: 0,
                y: -1,
                z: 65536,
            },
            [0x5_0034, 0x5a_0000, 0, u64::MAX, 0x1_0000].as_slice(),
        ),
        (
            Call::Scalex { x: 1, y: -2, z: 3 },
            [0x4_0035, 1, u64::MAX - 1, 3].as_slice(),
        ),
        (
            Call::Translatex { x: -1, y: 2, z: -3 },
            [0x4_003e, u64::MAX, 2, u64::MAX - 2].as_slice(),
        ),
        (
            Call::Viewport {
                x: -1,
                y: -2,
                width: 3,
                height: 4,
            },
            [0x5_0040, u64::MAX, u64::MAX - 1, 3, 4].as_slice(),
        ),
    ];
    let memory = ClientMemory::new(rt.alloc(), 0)?;
    let mut batch = Batch::new(rt.alloc(), 16)?;
    for (call, slots) in &rows {
        reads_back(&rt, &mut batch, &memory, *call, &[], slots);
    }
    Ok(())
}

// The slots are worked by hand. The last call has the most arguments that there are.
#[test]
fn calls_with_signed_and_unsigned_arguments_read_back(rt: HostRuntime) -> Result<(), Fail> {
    let rows = [
        (
            Call::ColorPointer {
                size: 4,
                kind: 0x1401,
                stride: -1,
                pointer: u32::MAX,
            },
            [0x5_000e, 4, 0x1401, u64::MAX, 0xffff_ffff].as_slice(),
        ),
        (
            Call::GetIntegerv {
                pname: 0x0ba2,
                params: 16,
            },
            [0x3_0023, 0x0ba2, 16].as_slice(),
        ),
        (
            Call::PixelStorei {
                pname: 0x0d05,
                param: i32::MIN,
            },
            [0x3_0030, 0x0d05, 0xffff_ffff_8000_0000].as_slice(),
        ),
        (
            Call::ReadPixels {
                x: -1,
                y: -2,
                width: 3,
                height: 4,
                format: 0x1908,
                kind: 0x1401,
                pixels: 0x8000_0000,
            },
            [
                0x8_0033,
                u64::MAX,
                u64::MAX - 1,
                3,
                4,
                0x1908,
                0x1401,
                0x8000_0000,
            ]
            .as_slice(),
        ),
        (
            Call::TexImage2D {
                target: 0x0de1,
                level: -1,
                internalformat: 0x1908,
                width: 2,
                height: i32::MIN,
                border: 0,
                format: 0x1907,
                kind: 0x1401,
                pixels: u32::MAX,
            },
            [
                0xa_003b,
                0x0de1,
                u64::MAX,
                0x1908,
                2,
                0xffff_ffff_8000_0000,
                0,
                0x1907,
                0x1401,
                0xffff_ffff,
            ]
            .as_slice(),
        ),
    ];
    let memory = ClientMemory::new(rt.alloc(), 0)?;
    let mut batch = Batch::new(rt.alloc(), 16)?;
    for (call, slots) in &rows {
        reads_back(&rt, &mut batch, &memory, *call, &[], slots);
    }
    Ok(())
}

#[test]
fn captured_bytes_read_back(rt: HostRuntime) -> Result<(), Fail> {
    let memory = counting_memory(rt.alloc())?;
    let mut batch = Batch::new(rt.alloc(), 64)?;
    let first = (3, 1);
    reads_back(
        &rt,
        &mut batch,
        &memory,
        CLEAR,
        &[first],
        &[0x0001_0000_0005_0008, 0x4000, 3, 1, 0x04],
    );
    let seven = [0x0001_0000_0005_0008, 0x4000, 0, 7, 0x0007_0605_0403_0201];
    reads_back(&rt, &mut batch, &memory, CLEAR, &[(0, 7)], &seven);
    let eight = [0x0001_0000_0005_0008, 0x4000, 8, 8, 0x100f_0e0d_0c0b_0a09];
    reads_back(&rt, &mut batch, &memory, CLEAR, &[(8, 8)], &eight);
    let nine = [
        0x0001_0000_0006_0008,
        0x4000,
        8,
        9,
        0x100f_0e0d_0c0b_0a09,
        0x11,
    ];
    reads_back(&rt, &mut batch, &memory, CLEAR, &[(8, 9)], &nine);
    let two = [
        0x0002_0000_0009_0008,
        0x4000,
        3,
        1,
        0x04,
        0,
        9,
        0x0807_0605_0403_0201,
        0x09,
    ];
    reads_back(&rt, &mut batch, &memory, CLEAR, &[first, (0, 9)], &two);
    // Client memory has 32 bytes: 31 and 32 are the last two, and zeros follow.
    let past_the_end = [0x0001_0000_0005_0008, 0x4000, 30, 4, 0x201f];
    reads_back(&rt, &mut batch, &memory, CLEAR, &[(30, 4)], &past_the_end);
    let across_the_end = [
        0x0001_0000_0006_0008,
        0x4000,
        20,
        13,
        0x1c1b_1a19_1817_1615,
        0x201f_1e1d,
    ];
    reads_back(
        &rt,
        &mut batch,
        &memory,
        CLEAR,
        &[(20, 13)],
        &across_the_end,
    );
    let far = [0x0001_0000_0005_0008, 0x4000, LAST, 1, 0];
    reads_back(&rt, &mut batch, &memory, CLEAR, &[(LAST, 1)], &far);
    reads_back(
        &rt,
        &mut batch,
        &memory,
        Call::Flush,
        &[(0, 1); 8],
        &with_segments(0x0008_0000_0019_001c, [0, 1, 1]),
    );
    Ok(())
}

/// Client memory of the 32 bytes 1 to 32.
fn counting_memory(alloc: Global) -> Result<ClientMemory, NoMemory> {
    let mut memory = ClientMemory::new(alloc, 32)?;
    for at in 0..32u8 {
        memory.write(u64::from(at), &[at + 1]);
    }
    Ok(memory)
}

/// A header and eight segments of three slots.
fn with_segments(header: u64, segment: [u64; 3]) -> [u64; 25] {
    let mut slots = [header; 25];
    for at in 0..24 {
        slots[at + 1] = segment[at % 3];
    }
    slots
}

/// These slots spell this one call with these pieces, and in a batch it takes as many.
fn reads_back(
    rt: &impl Abort,
    batch: &mut Batch,
    memory: &ClientMemory,
    call: Call,
    pieces: &[(u64, u64)],
    slots: &[u64],
) {
    let captured = pieces_of(rt, pieces);
    gives(rt, parse(slots), call, pieces, memory);
    batch.clear();
    assert_eq!(rt; batch.try_pack(&call, &captured, memory), Ok(()));
    let heading = heading_of(row_of(&call), &captured);
    assert_eq!(rt; u64::from(batch.used()), heading.slots);
    assert_eq!(rt; batch.used() as usize, slots.len());
    assert_eq!(rt; batch.slots(), slots);
    gives(rt, Ok(batch.reader()), call, pieces, memory);
    spelling_law(slots, slots);
    for cut in 1..slots.len() {
        refuses(rt, &slots[..cut]);
    }
}

/// Pieces with these starts and lengths.
fn pieces_of(rt: &impl Abort, ranges: &[(u64, u64)]) -> Pieces {
    let mut pieces = Pieces::new();
    for (start, len) in ranges {
        assert!(rt; pieces.len() < 8);
        assert!(rt; *len >= 1 && *len <= LAST + 1);
        assert!(rt; *start <= LAST + 1 - *len);
        pieces.push(Piece {
            start: *start,
            len: *len,
        });
    }
    pieces
}

/// The reader has this call with these pieces of the memory to give and no other.
fn gives(
    rt: &impl Abort,
    reader: Result<Reader<'_>, BadSlots>,
    call: Call,
    pieces: &[(u64, u64)],
    memory: &ClientMemory,
) {
    match reader {
        Ok(mut reader) => {
            match reader.next() {
                Some(packed) => {
                    assert_eq!(rt; packed.call, call);
                    assert_eq!(rt; packed.memory.len(), pieces.len());
                    for (start, len) in pieces {
                        assert!(rt; *start <= LAST && *len <= 16);
                        for at in 0..*len {
                            assert_eq!(rt;
                                packed.memory.byte(*start + at),
                                memory.byte(*start + at),
                                "at {at}"
                            );
                        }
                    }
                }
                None => panic!(rt; "no call"),
            }
            assert!(rt; reader.next().is_none());
        }
        Err(BadSlots) => panic!(rt; "refused"),
    }
}

#[test]
fn calls_are_given_in_order(rt: HostRuntime) -> Result<(), Fail> {
    let memory = ClientMemory::new(rt.alloc(), 0)?;
    let none = Pieces::new();
    let mut batch = Batch::new(rt.alloc(), 16)?;
    let calls = [Call::Flush, Call::Clear { mask: 1 }, Call::GetError];
    for call in &calls {
        assert_eq!(rt; batch.try_pack(call, &none, &memory), Ok(()));
    }
    let mut reader = batch.reader();
    for call in calls {
        assert_eq!(rt; reader.next().map(|packed| packed.call), Some(call));
    }
    assert!(rt; reader.next().is_none());
    batch.clear();
    assert_eq!(rt; batch.used(), 0);
    assert_eq!(rt; batch.size(), 16);
    Ok(())
}

#[test]
fn what_is_given_stays_while_others_are_read(rt: HostRuntime) {
    // The bytes 0x11 and 0x22 at the place 6, each beside a Flush.
    let slots = [
        0x0001_0000_0004_001c,
        6,
        1,
        0x11,
        0x0001_0000_0004_001c,
        6,
        1,
        0x22,
    ];
    match parse(&slots) {
        Ok(mut reader) => {
            let first = reader.next();
            let second = reader.next();
            assert_eq!(rt; first.map(|packed| packed.memory.byte(6)), Some(0x11));
            assert_eq!(rt; second.map(|packed| packed.memory.byte(6)), Some(0x22));
        }
        Err(BadSlots) => panic!(rt; "refused"),
    }
}

#[test]
fn the_first_segment_wins(rt: HostRuntime) {
    // Five segments that overlap, one of them of nine bytes, which take two slots.
    let slots = [
        0x0005_0000_0011_001c,
        4,
        3,
        0x0013_1211,
        20,
        9,
        0x2827_2625_2423_2221,
        0x29,
        2,
        4,
        0x1b1a_1918,
        6,
        2,
        0x201f,
        LAST,
        1,
        0x30,
    ];
    match parse(&slots) {
        Ok(mut reader) => match reader.next() {
            Some(packed) => {
                let memory = packed.memory;
                assert_eq!(rt; memory.len(), 5);
                let bytes = [0, 0, 0x18, 0x19, 0x11, 0x12, 0x13, 0x20, 0];
                for (at, byte) in bytes.iter().enumerate() {
                    assert_eq!(rt; memory.byte(at as u64), *byte, "at {at}");
                }
                assert_eq!(rt; memory.byte(20), 0x21);
                assert_eq!(rt; memory.byte(28), 0x29);
                assert_eq!(rt; memory.byte(29), 0);
                assert_eq!(rt; memory.byte(LAST), 0x30);
                assert_eq!(rt; memory.byte(LAST - 1), 0);
                assert_eq!(rt; memory.byte(u64::MAX), 0);
                assert_eq!(rt; read_u16(&memory, 27), 0x2928);
                assert_eq!(rt; read_u32(&memory, 2), 0x1211_1918);
                assert_eq!(rt; read_i32(&memory, 28), 0x29);
            }
            None => panic!(rt; "no call"),
        },
        Err(BadSlots) => panic!(rt; "refused"),
    }
}

#[test]
fn a_full_batch_is_unchanged(rt: HostRuntime) -> Result<(), Fail> {
    let colour = Call::ClearColorx {
        red: 0,
        green: 0,
        blue: 0,
        alpha: 0,
    };
    let memory = ClientMemory::new(rt.alloc(), 8)?;
    let mut batch = Batch::new(rt.alloc(), 16)?;
    // A colour takes 5 slots, and a piece 2 and one for each 8 bytes.
    packs(&rt, &mut batch, colour, &[], &memory, Ok(()), 5);
    packs(
        &rt,
        &mut batch,
        Call::Flush,
        &[(0, 33)],
        &memory,
        Ok(()),
        13,
    );
    packs(
        &rt,
        &mut batch,
        Call::Flush,
        &[(0, 1)],
        &memory,
        Err(Full),
        13,
    );
    packs(
        &rt,
        &mut batch,
        Call::Flush,
        &[(0, LAST)],
        &memory,
        Err(Full),
        13,
    );
    packs(&rt, &mut batch, colour, &[], &memory, Err(Full), 13);
    packs(&rt, &mut batch, CLEAR, &[], &memory, Ok(()), 15);
    packs(&rt, &mut batch, CLEAR, &[], &memory, Err(Full), 15);
    packs(&rt, &mut batch, Call::Flush, &[], &memory, Ok(()), 16);
    packs(&rt, &mut batch, Call::Flush, &[], &memory, Err(Full), 16);
    Ok(())
}

/// Packing has this outcome, and so many slots are then in use.
fn packs(
    rt: &impl Abort,
    batch: &mut Batch,
    call: Call,
    pieces: &[(u64, u64)],
    memory: &ClientMemory,
    outcome: Result<(), Full>,
    used: u32,
) {
    assert_eq!(rt;
        batch.try_pack(&call, &pieces_of(rt, pieces), memory),
        outcome
    );
    assert_eq!(rt; batch.used(), used);
}

#[test]
fn a_refusal_says_what_was_wrong(rt: HostRuntime) -> Result<(), Fail> {
    let told = format!(in rt.alloc(); "{}, {}", Full, BadSlots)?;
    assert_eq!(rt;
        told.as_str(),
        "the batch is full, the slots are no spellings of calls"
    );
    Ok(())
}

#[test]
fn slots_that_are_no_spelling_are_refused(rt: HostRuntime) {
    // A count of 0, 2, 4 and 11 slots; an argument short; a stray slot; numbers of no call.
    refuses(&rt, &[0x21]);
    refuses(&rt, &[0x2_001c, 0]);
    refuses(&rt, &[0x3_0008, 0]);
    refuses(&rt, &[0x4_0009, 0, 1, 2]);
    refuses(&rt, &[0xb_0009, 0, 0, 0, 0, 0, 0, 0, 0, 0, 0]);
    refuses(&rt, &[0x5_0009, 0, 1, 2]);
    refuses(&rt, &[0x1_001c, 0]);
    refuses(&rt, &[0x1_0063]);
    refuses(&rt, &[0x1_0000]);
    refuses(&rt, &[0x1_ffff]);
    // Arguments past the ends of their ranges.
    refuses(&rt, &[0x2_0008, 0x1_0000_0000]);
    refuses(&rt, &[0x2_0008, u64::MAX]);
    refuses(&rt, &[0x5_0009, 0x8000_0000, 0, 0, 0]);
    refuses(&rt, &[0x5_0009, 0xffff_ffff_7fff_ffff, 0, 0, 0]);
    assert!(rt; parse(&[]).is_ok(), "no slots spell no call");
}

#[test]
fn slots_that_are_no_segments_are_refused(rt: HostRuntime) {
    // More segments than follow: one, eight, and the highest count there is.
    refuses(&rt, &[0x0001_0000_0001_0021]);
    refuses(&rt, &[0x0008_0000_0019_001c, 0, 1, 1]);
    refuses(&rt, &[0xffff_0000_0001_0021]);
    // A byte other than zero behind the last, right behind it and in the highest place.
    refuses(&rt, &[0x0001_0000_0005_0008, 0x4000, 3, 1, 0x0104]);
    refuses(
        &rt,
        &[0x0001_0000_0005_0008, 0x4000, 0, 7, 0x0107_0605_0403_0201],
    );
    refuses(
        &rt,
        &[0x0001_0000_0006_0008, 0, 0, 9, 0, 0x8000_0000_0000_0000],
    );
    // No bytes; an end past 2^62; lengths that no sum of 64 bits holds.
    refuses(&rt, &[0x0001_0000_0004_0008, 0x4000, 3, 0]);
    refuses(&rt, &[0x0001_0000_0005_0008, 0x4000, LAST + 1, 1, 0]);
    refuses(&rt, &[0x0001_0000_0005_0008, 0x4000, LAST, 2, 0]);
    refuses(&rt, &[0x0001_0000_0005_0008, 0x4000, 0, LAST + 2, 0]);
    refuses(&rt, &[0x0001_0000_0005_0008, 0x4000, u64::MAX, 2, 0]);
    refuses(&rt, &[0x0001_0000_0005_0008, 0x4000, 0, u64::MAX, 0]);
    // A count of slots that is one too high, one too low, or 65536 too high.
    refuses(&rt, &[0x0001_0000_0006_0008, 0x4000, 3, 1, 4, 0]);
    refuses(&rt, &[0x0001_0000_0004_0008, 0x4000, 3, 1, 4]);
    refuses(&rt, &[0x0001_0001_0005_0008, 0x4000, 3, 1, 4]);
    // Nine segments.
    let mut nine = [1; 28];
    nine[0] = 0x0009_0000_001c_001c;
    refuses(&rt, &nine);
    nine[0] = 0x0008_0000_0019_001c;
    refuses(&rt, &nine);
    assert!(rt; parse(&nine[..25]).is_ok(), "eight are");
}

fn refuses(rt: &impl Abort, slots: &[u64]) {
    assert!(rt; parse(slots).is_err(), "at {slots:?}");
}
