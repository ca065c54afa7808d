//! Events one after another: replies as another program gives them, and bytes worked by hand.

ghost use Rattle.std.specs.Prelude.{IfOk};
ghost use Rattle.gl_objects.specs.Event.{IsEvent};

use gl_objects::{
    Event, EventReply, Kind, Names, Objects, Upload, UsedBuffers, UsedTextures, asking_law,
    legal_law, names_law, part_law,
};
use gl_words::GlError;
use std::alloc::{AllocError, Global};
use std::process::Abort;
use std::test::Fail;

/// An event with what it replies beside an error, or a byte of a store.
#[derive(Clone, Copy)]
enum Row {
    Bind(Kind, u64),
    Bytes(u32, &'static [u8]),
    Part(u32, u32, &'static [u8]),
    Gen(Kind, u32, &'static [u32]),
    /// So many names are given as the last number says.
    Many(Kind, u32, usize),
    Delete(Kind, &'static [u32]),
    Is(Kind, u32, bool),
    Use,
    Byte(u32, u64, u8),
}

/// The event that binds a name.
fn binding(rt: &impl Abort, kind: Kind, name: u64) -> Event
    ensures { IsEvent result }
{
    assert!(rt; name > 0);
    match kind {
        Kind::Buffer => {
            assert!(rt; name < 0x1_0000_0000);
            Event::Bind {
                kind: Kind::Buffer,
                name,
            }
        }
        Kind::Texture => Event::Bind {
            kind: Kind::Texture,
            name,
        },
    }
}

/// The event of a draw that uses as many objects as one can.
fn longest_use() -> Event
    ensures { IsEvent result }
{
    let mut buffers = UsedBuffers::new();
    buffers.push(1);
    buffers.push(2);
    buffers.push(3);
    buffers.push(4);
    buffers.push(5);
    buffers.push(9);
    let mut textures = UsedTextures::new();
    textures.push(1);
    textures.push(4294967296);
    Event::Use { buffers, textures }
}

/// The event of a row. That of a byte is one that changes nothing.
fn event_of(rt: &impl Abort, alloc: Global, row: &Row) -> Result<Event, AllocError>
    ensures { IfOk result (λ event. IsEvent event) }
{
    match *row {
        Row::Bind(kind, name) => Ok(binding(rt, kind, name)),
        Row::Bytes(name, bytes) => Ok(Event::BufferBytes {
            name,
            bytes: Upload::new(Vec::from_slice(alloc, bytes)?),
        }),
        Row::Part(name, offset, bytes) => Ok(Event::BufferPart {
            name,
            offset,
            bytes: Upload::new(Vec::from_slice(alloc, bytes)?),
        }),
        Row::Gen(kind, n, _) => Ok(Event::Gen { kind, n }),
        Row::Many(kind, n, _) => Ok(Event::Gen { kind, n }),
        Row::Delete(kind, names) => Ok(Event::Delete {
            kind,
            names: Names::new(Vec::from_slice(alloc, names)?),
        }),
        Row::Is(kind, name, _) => Ok(Event::Is { kind, name }),
        Row::Use | Row::Byte(_, _, _) => Ok(longest_use()),
    }
}

/// Compares a reply, and what objects have behind it, with a row.
fn compare(rt: &impl Abort, objects: &Objects, reply: &EventReply, row: &Row) {
    match *row {
        Row::Gen(_, _, names) => assert_eq!(rt; reply.names.as_slice(), names),
        Row::Many(_, _, count) => assert_eq!(rt; reply.names.as_slice().len(), count),
        Row::Is(_, _, truth) => assert_eq!(rt; reply.truth, truth),
        Row::Byte(name, at, byte) => assert_eq!(rt; objects.buffer_byte(name, at), byte),
        _ => {}
    }
}

/// Has objects apply the events of a table in turn, and others take them, and compares their replies.
fn follow(
    rt: &impl Abort,
    alloc: Global,
    rows: &[(Row, Option<GlError>)],
) -> Result<(), AllocError> {
    let mut applying = Objects::new(alloc);
    let mut taking = Objects::new(alloc);
    for (row, fault) in rows {
        let event = event_of(rt, alloc, row)?;
        let reply = applying.apply(&event)?;
        assert_eq!(rt; reply.fault, *fault);
        compare(rt, &applying, &reply, row);
        let reply = taking.take(event)?;
        assert_eq!(rt; reply.fault, *fault);
        compare(rt, &taking, &reply, row);
    }
    Ok(())
}

#[test]
fn names_are_given_bound_and_deleted(rt: HostRuntime) -> Result<(), Fail> {
    let rows = [
        (Row::Gen(Kind::Buffer, 3, &[1, 2, 3]), None),
        (Row::Is(Kind::Buffer, 1, false), None),
        (Row::Bind(Kind::Buffer, 2), None),
        (Row::Is(Kind::Buffer, 2, true), None),
        (Row::Is(Kind::Texture, 2, false), None),
        (Row::Bind(Kind::Buffer, 5), None),
        (Row::Use, None),
        (Row::Gen(Kind::Buffer, 3, &[4, 6, 7]), None),
        (Row::Delete(Kind::Buffer, &[2, 0, 9, 2, 6]), None),
        (Row::Is(Kind::Buffer, 2, false), None),
        (Row::Is(Kind::Buffer, 5, true), None),
        (Row::Gen(Kind::Buffer, 3, &[2, 6, 8]), None),
        (Row::Gen(Kind::Buffer, 0, &[]), None),
        (Row::Gen(Kind::Texture, 2, &[1, 2]), None),
        (Row::Bind(Kind::Texture, 1), None),
        (Row::Bind(Kind::Texture, 4294967295), None),
        (Row::Is(Kind::Texture, 1, true), None),
        (Row::Delete(Kind::Texture, &[4294967295, 1]), None),
        (Row::Is(Kind::Texture, 4294967295, false), None),
        (Row::Gen(Kind::Texture, 1, &[1]), None),
        (Row::Is(Kind::Texture, 1, false), None),
    ];
    follow(&rt, rt.alloc(), &rows)?;
    Ok(())
}

#[test]
fn stores_take_bytes_and_parts(rt: HostRuntime) -> Result<(), Fail> {
    let rows = [
        (Row::Gen(Kind::Buffer, 1, &[1]), None),
        (Row::Bytes(1, &[1]), Some(GlError::InvalidOperation)),
        (Row::Part(1, 0, &[]), Some(GlError::InvalidOperation)),
        (Row::Bind(Kind::Buffer, 1), None),
        (Row::Part(1, 0, &[]), None),
        (Row::Part(1, 0, &[7]), Some(GlError::InvalidValue)),
        (Row::Bytes(1, &[1, 2, 3, 4, 5, 6]), None),
        (Row::Byte(1, 5, 6), None),
        (Row::Byte(1, 6, 0), None),
        (Row::Part(1, 4, &[8, 9]), None),
        (Row::Byte(1, 3, 4), None),
        (Row::Byte(1, 4, 8), None),
        (Row::Byte(1, 5, 9), None),
        (Row::Part(1, 5, &[20, 21]), Some(GlError::InvalidValue)),
        (Row::Byte(1, 5, 9), None),
        (Row::Part(1, 6, &[]), None),
        (Row::Part(1, 7, &[]), Some(GlError::InvalidValue)),
        (Row::Part(1, 4294967295, &[1]), Some(GlError::InvalidValue)),
        (Row::Bytes(1, &[1, 2, 3]), None),
        (Row::Byte(1, 2, 3), None),
        (Row::Byte(1, 4, 0), None),
        (Row::Bind(Kind::Buffer, 2), None),
        (Row::Bytes(2, &[0, 0, 30]), None),
        (Row::Byte(2, 2, 30), None),
        (Row::Byte(1, 2, 3), None),
        (Row::Bind(Kind::Buffer, 1), None),
        (Row::Byte(1, 2, 3), None),
        (Row::Delete(Kind::Buffer, &[1]), None),
        (Row::Byte(1, 2, 0), None),
        (Row::Bind(Kind::Buffer, 1), None),
        (Row::Byte(1, 2, 0), None),
        (Row::Part(1, 0, &[1]), Some(GlError::InvalidValue)),
        (Row::Byte(2, 2, 30), None),
        (Row::Byte(3, 2, 0), None),
    ];
    follow(&rt, rt.alloc(), &rows)?;
    Ok(())
}

#[test]
fn names_are_given_up_to_their_limit(rt: HostRuntime) -> Result<(), Fail> {
    let rows = [
        (
            Row::Many(Kind::Texture, 65537, 0),
            Some(GlError::OutOfMemory),
        ),
        (Row::Many(Kind::Texture, 65535, 65535), None),
        (Row::Bind(Kind::Texture, 4000000000), None),
        (Row::Bind(Kind::Texture, 4294967296), None),
        (Row::Gen(Kind::Texture, 1, &[]), Some(GlError::OutOfMemory)),
        (Row::Gen(Kind::Texture, 0, &[]), None),
        (Row::Gen(Kind::Buffer, 1, &[1]), None),
        (Row::Bind(Kind::Texture, 4000000001), None),
        (Row::Gen(Kind::Texture, 0, &[]), Some(GlError::OutOfMemory)),
        (Row::Delete(Kind::Texture, &[65535, 7]), None),
        (Row::Gen(Kind::Texture, 1, &[7]), None),
    ];
    follow(&rt, rt.alloc(), &rows)?;
    Ok(())
}

#[test]
fn laws_are_called() {
    asking_law();
    legal_law();
    names_law();
    part_law();
}
