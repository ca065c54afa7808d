//! Bytes at the edges, in client memory and in lent slots, against values worked out by hand, and each public call once.

use gl_memory::*;
use std::alloc::Global;
use std::process::Abort;
use std::test::Fail;

/// The highest place that `write` takes.
const LAST: u64 = 0x3fff_ffff_ffff_ffff;

/// A memory has these bytes at its first places.
fn reads<M: Memory>(rt: &impl Abort, memory: &M, bytes: &[u8]) {
    for (at, byte) in bytes.iter().enumerate() {
        assert_eq!(rt; memory.byte(at as u64), *byte, "at {at}");
    }
    segment_law(memory);
    cut_law(memory, &Pieces::new());
}

#[test]
fn bytes_outside_are_dropped(rt: HostRuntime) -> Result<(), Fail> {
    leaves(&rt, rt.alloc(), 0, &[], &[9, 9, 9, 9])?;
    leaves(&rt, rt.alloc(), 1, &[1, 2], &[9, 1, 2, 9])?;
    leaves(&rt, rt.alloc(), 3, &[1, 2], &[9, 9, 9, 1])?;
    leaves(&rt, rt.alloc(), 3, &[1, 2, 3, 4, 5, 6, 7], &[9, 9, 9, 1])?;
    leaves(&rt, rt.alloc(), 4, &[1, 2], &[9, 9, 9, 9])?;
    leaves(&rt, rt.alloc(), LAST, &[1, 2], &[9, 9, 9, 9])?;
    leaves(&rt, rt.alloc(), 0, &[1, 2, 3, 4, 5, 6], &[1, 2, 3, 4])
}

/// Of four bytes of 9 a write leaves these.
fn leaves(rt: &impl Abort, alloc: Global, at: u64, bytes: &[u8], after: &[u8]) -> Result<(), Fail> {
    let mut memory = ClientMemory::new(alloc, 4)?;
    reads(rt, &memory, &[0, 0, 0, 0, 0]);
    memory.write(0, &[9, 9, 9, 9]);
    write_law(&memory, at, bytes);
    assert!(rt; at <= LAST);
    memory.write(at, bytes);
    reads(rt, &memory, after);
    assert_eq!(rt; memory.byte(4), 0);
    assert_eq!(rt; memory.byte(u64::MAX), 0);
    assert_eq!(rt; memory.len(), 4);
    assert_eq!(rt; memory.bytes(), after);
    Ok(())
}

#[test]
fn memory_may_be_empty_or_of_a_megabyte(rt: HostRuntime) -> Result<(), Fail> {
    let mut none = ClientMemory::new(rt.alloc(), 0)?;
    none.write(0, &[1]);
    assert_eq!(rt; none.len(), 0);
    assert_eq!(rt; none.byte(0), 0);
    let mut most = ClientMemory::new(rt.alloc(), 1_048_576)?;
    most.write(1_048_575, &[7, 8]);
    assert_eq!(rt; most.byte(1_048_575), 7);
    assert_eq!(rt; most.byte(1_048_576), 0);
    Ok(())
}

#[test]
fn a_segment_has_the_bytes_lent_to_it(rt: HostRuntime) {
    // The bytes of the slots are 0x11 to 0x20, the lowest eight bits of a slot first.
    let slots = [0x1817_1615_1413_1211, 0x201f_1e1d_1c1b_1a19];
    lent_law(&slots);
    lends(&rt, &Lent::new(4, 3, &slots, 0), 4, &[0x11, 0x12, 0x13]);
    lends(
        &rt,
        &Lent::new(2, 4, &slots, 7),
        2,
        &[0x18, 0x19, 0x1a, 0x1b],
    );
    lends(&rt, &Lent::new(6, 2, &slots, 14), 6, &[0x1f, 0x20]);
    lends(&rt, &Lent::new(LAST, 1, &slots, 15), LAST, &[0x20]);
    lends(&rt, &Lent::new(1, 0, &[], 0), 1, &[]);
}

/// The segment holds these bytes from the place `start` on, and no place beside them.
fn lends(rt: &impl Abort, segment: &Lent<'_>, start: u64, bytes: &[u8]) {
    assert!(rt; start >= 1 && start <= LAST && bytes.len() <= 16);
    for (at, byte) in bytes.iter().enumerate() {
        assert_eq!(rt; segment.byte(start + at as u64), Some(*byte), "at {at}");
    }
    assert_eq!(rt; segment.byte(start - 1), None);
    assert_eq!(rt; segment.byte(start + bytes.len() as u64), None);
    assert_eq!(rt; segment.byte(u64::MAX), None);
}

#[test]
fn numbers_are_read_lowest_byte_first(rt: HostRuntime) -> Result<(), Fail> {
    // The bytes 0x80, 0x01, 0xfe and 0xff at the places 1 to 4.
    let mut memory = ClientMemory::new(rt.alloc(), 5)?;
    memory.write(1, &[0x80, 0x01, 0xfe, 0xff]);
    has_numbers(&rt, &memory);
    Ok(())
}

/// What is missing past the end of the bytes is 0.
fn has_numbers<M: Memory>(rt: &impl Abort, memory: &M) {
    has_at(rt, memory, 0, 0x8000, 0xfe01_8000, -33_456_128);
    has_at(rt, memory, 1, 0x0180, 0xfffe_0180, -130_688);
    has_at(rt, memory, 2, 0xfe01, 0x00ff_fe01, 16_776_705);
    has_at(rt, memory, 3, 0xfffe, 0x0000_fffe, 65_534);
    has_at(rt, memory, 4, 0x00ff, 0x0000_00ff, 255);
    has_at(rt, memory, 5, 0, 0, 0);
    has_at(rt, memory, 0x7fff_ffff_ffff_fffb, 0, 0, 0);
}

fn has_at<M: Memory>(rt: &impl Abort, memory: &M, at: u64, two: u16, four: u32, signed: i32) {
    assert!(rt; at < 0x7fff_ffff_ffff_fffc);
    assert_eq!(rt; read_u16(memory, at), two, "at {at}");
    assert_eq!(rt; read_u32(memory, at), four, "at {at}");
    assert_eq!(rt; read_i32(memory, at), signed, "at {at}");
}

#[test]
fn pieces_are_kept_in_order(rt: HostRuntime) {
    let mut pieces = Pieces::new();
    assert_eq!(rt; pieces.len(), 0);
    keeps(&rt, &mut pieces, 0, 1);
    keeps(&rt, &mut pieces, 5, 3);
    keeps(&rt, &mut pieces, LAST, 1);
    keeps(&rt, &mut pieces, 0, LAST + 1);
    assert_eq!(rt; pieces.len(), 4);
    assert_eq!(rt; pieces.at(1), Piece { start: 5, len: 3 });
}

/// A piece is taken, and stands last.
fn keeps(rt: &impl Abort, pieces: &mut Pieces, start: u64, len: u64) {
    let last = pieces.len();
    assert!(rt; last < 8);
    assert!(rt; len >= 1 && len <= LAST + 1);
    assert!(rt; start <= LAST + 1 - len);
    pieces.push(Piece { start, len });
    assert_eq!(rt; pieces.at(last), Piece { start, len });
}

#[test]
fn lists_of_replies_hold_what_was_pushed(rt: HostRuntime) -> Result<(), Fail> {
    let mut numbers = Numbers::new(rt.alloc(), 2)?;
    numbers.push(i64::MIN);
    numbers.push(7);
    assert_eq!(rt; numbers.len(), 2);
    assert_eq!(rt; numbers.at(0), i64::MIN);
    assert_eq!(rt; numbers.at(1), 7);
    let mut octets = Octets::new(rt.alloc(), 1)?;
    octets.push(255);
    assert_eq!(rt; octets.len(), 1);
    assert_eq!(rt; octets.at(0), 255);
    Ok(())
}
