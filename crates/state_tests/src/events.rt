//! The events that calls make. What an event holds is told by hand, and which calls make one by another program.

use crate::calls::{call_spelled, numbers_in, replies};
use gl_memory::ClientMemory;
use gl_objects::{Event, Kind, Objects};
use gl_state::*;
use std::test::Fail;
use texture_units::Format;

/// Numbers, at most 24.
#[derive(Drop)]
struct Listed {
    numbers: [i64; 24],
    count: usize,
}

impl Listed {
    fn new() -> Listed {
        Listed {
            numbers: [0; 24],
            count: 0,
        }
    }

    fn put(&mut self, number: i64) {
        if self.count < 24 {
            self.numbers[self.count] = number;
            self.count += 1;
        }
    }

    fn put_kind(&mut self, kind: Kind) {
        self.put(match kind {
            Kind::Buffer => 0,
            Kind::Texture => 1,
        });
    }

    fn put_bytes(&mut self, bytes: &[u8]) {
        self.put(bytes.len() as i64);
        for byte in bytes {
            self.put(i64::from(*byte));
        }
    }

    fn put_format(&mut self, format: Format) {
        self.put(match format {
            Format::Alpha => 0,
            Format::Luminance => 1,
            Format::LuminanceAlpha => 2,
            Format::Rgb => 3,
            Format::Rgba => 4,
        });
    }

    fn is(&self, numbers: &[i64]) -> bool {
        self.numbers.get(..self.count) == Some(numbers)
    }
}

/// An event as numbers: one of its variant, a kind as 0 for buffers and 1 for textures, a format by its place among the five,
/// and each list behind its length.
fn told(event: &Event) -> Listed {
    let mut told = Listed::new();
    match event {
        Event::Bind { kind, name } => {
            told.put(0);
            told.put_kind(*kind);
            told.put(i64::try_from(*name).unwrap_or(-1));
        }
        Event::BufferBytes { name, bytes } => {
            told.put(1);
            told.put(i64::from(*name));
            told.put_bytes(bytes.as_slice());
        }
        Event::BufferPart {
            name,
            offset,
            bytes,
        } => {
            told.put(2);
            told.put(i64::from(*name));
            told.put(i64::from(*offset));
            told.put_bytes(bytes.as_slice());
        }
        Event::Gen { kind, n } => {
            told.put(3);
            told.put_kind(*kind);
            told.put(i64::from(*n));
        }
        Event::Delete { kind, names } => {
            told.put(4);
            told.put_kind(*kind);
            told.put(names.as_slice().len() as i64);
            for name in names.as_slice() {
                told.put(i64::from(*name));
            }
        }
        Event::Is { kind, name } => {
            told.put(5);
            told.put_kind(*kind);
            told.put(i64::from(*name));
        }
        Event::Image {
            name,
            format,
            width,
            height,
            bytes,
        } => {
            told.put(7);
            told.put(i64::try_from(*name).unwrap_or(-1));
            told.put_format(*format);
            told.put(i64::from(*width));
            told.put(i64::from(*height));
            told.put_bytes(bytes.as_slice());
        }
        Event::ImagePart {
            name,
            format,
            x,
            y,
            width,
            height,
            bytes,
        } => {
            told.put(8);
            told.put(i64::try_from(*name).unwrap_or(-1));
            told.put_format(*format);
            told.put(i64::from(*x));
            told.put(i64::from(*y));
            told.put(i64::from(*width));
            told.put(i64::from(*height));
            told.put_bytes(bytes.as_slice());
        }
        Event::Parameter { name, pname, value } => {
            told.put(9);
            told.put(i64::try_from(*name).unwrap_or(-1));
            told.put(i64::from(*pname));
            told.put(i64::from(*value));
        }
        Event::Use { buffers, textures } => {
            told.put(6);
            told.put(buffers.as_slice().len() as i64);
            for name in buffers.as_slice() {
                told.put(i64::from(*name));
            }
            told.put(textures.as_slice().len() as i64);
            for name in textures.as_slice() {
                told.put(i64::try_from(*name).unwrap_or(-1));
            }
        }
    }
    told
}

/// Calls of context 1, and their events. Memory has the bytes 1, 0, 0, 0, 2, 0, 0, 0 from address 0 on; 4294967297 is the
/// default texture of context 1 (own). Which calls have an event is told by another program, what it holds by hand.
const EVENTS: &str = "\
BindBuffer 34962 5 : 0 0 5
BindBuffer 34962 0 :
BindTexture 3553 7 : 0 1 7
IsBuffer 0 :
IsTexture 9 : 5 1 9
GenTextures 2 32 : 3 1 2
DeleteTextures 2 0 : 4 1 2 1 2
BindBuffer 34962 5 : 0 0 5
BufferData 34962 5 0 35044 : 1 5 5 0 0 0 0 0
BufferData 34962 4 4 35044 : 1 5 4 2 0 0 0
BufferSubData 34962 1 2 4 : 2 5 1 2 2 0
BindTexture 3553 7 : 0 1 7
DrawArrays 4 0 3 :
EnableClientState 32884 :
DrawArrays 4 0 3 :
VertexPointer 3 5132 0 0 :
DrawArrays 4 0 3 : 6 1 5 0
BindBuffer 34963 6 : 0 0 6
DrawElements 4 3 5121 0 : 6 2 5 6 0
Enable 3553 :
DrawElements 4 3 5121 0 : 6 2 5 6 1 7
ActiveTexture 33985 :
Enable 3553 :
DrawArrays 4 0 3 : 6 1 5 2 7 4294967297
DrawArrays 4 0 0 :
DrawArrays 9 0 3 :
GenBuffers 257 0 :
";

/// Calls of context 1 on textures, and their events, by hand. Memory has the bytes 1 to 40 from address 0 on. 6408, 6407, 6410,
/// 6409 and 6406 are RGBA, RGB, LUMINANCE_ALPHA, LUMINANCE and ALPHA. An image of RGB with 3 bytes a row has them 4 bytes from one
/// row to the next at the first alignment, and 3 at the alignment 1; an odd column of LUMINANCE likewise, and the default texture
/// has the image where none is bound.
const TEXTURES: &str = "\
TexImage2D 3553 0 6407 1 2 0 6407 5121 4 : 7 4294967297 3 1 2 6 5 6 7 9 10 11
TexImage2D 3553 0 6409 1 4 0 6409 5121 0 : 7 4294967297 1 1 4 4 0 0 0 0
BindTexture 3553 7 : 0 1 7
TexImage2D 3553 0 6409 1 4 0 6409 5121 1 : 7 7 1 1 4 4 2 6 10 14
TexImage2D 3553 0 6410 1 2 0 6410 5121 2 : 7 7 2 1 2 4 3 4 7 8
TexImage2D 3553 0 6406 4 1 0 6406 5121 2 : 7 7 0 4 1 4 3 4 5 6
TexImage2D 3553 0 6408 2 1 0 6408 5121 2 : 7 7 4 2 1 8 3 4 5 6 7 8 9 10
TexSubImage2D 3553 0 1 0 1 1 6408 5121 0 : 8 7 4 1 0 1 1 4 1 2 3 4
TexSubImage2D 3553 0 1 2 0 5 6408 5121 8 : 8 7 4 1 2 0 5 0
PixelStorei 3317 1 :
TexSubImage2D 3553 0 0 0 1 2 6407 5121 0 : 8 7 3 0 0 1 2 6 1 2 3 4 5 6
PixelStorei 3317 2 :
TexSubImage2D 3553 0 0 0 1 2 6407 5121 0 : 8 7 3 0 0 1 2 6 1 2 3 5 6 7
PixelStorei 3317 8 :
TexSubImage2D 3553 0 0 0 1 2 6407 5121 0 : 8 7 3 0 0 1 2 6 1 2 3 9 10 11
TexParameteri 3553 10241 9728 : 9 7 10241 9728
ActiveTexture 33985 :
TexParameteri 3553 10242 33071 : 9 4294967297 10242 33071
TexEnvi 8960 8704 7681 :
TexEnvxv 8960 8705 0 :
TexImage2D 3553 1 6407 1 2 0 6407 5121 4 :
TexImage2D 3553 0 6407 3 2 0 6407 5121 4 :
TexImage2D 3553 0 6408 2 2 0 6407 5121 4 :
TexImage2D 3553 0 6407 2 2 1 6407 5121 4 :
TexSubImage2D 3553 0 -1 0 1 1 6407 5121 4 :
TexSubImage2D 3553 0 0 0 257 1 6407 5121 4 :
TexParameteri 3553 10241 10497 :
";

#[test]
fn an_image_has_no_padding_in_its_event(rt: HostRuntime) -> Result<(), Fail> {
    let mut memory = ClientMemory::new(rt.alloc(), 64)?;
    let mut bytes = [0_u8; 40];
    for at in 0..40_usize {
        bytes[at] = at as u8 + 1;
    }
    memory.write(0, &bytes);
    let mut private = Private::new(1, 2, 2);
    let mut objects = Objects::new(rt.alloc());
    for row in TEXTURES.lines() {
        let Some((spelling, numbers)) = row.split_once(':') else {
            return Err(Fail::new("no colon"));
        };
        let Some(call) = call_spelled(spelling) else {
            return Err(Fail::new("no such call"));
        };
        let made = match private.event(rt.alloc(), private.plan(&call), &call, &memory)? {
            Some(event) => told(&event),
            None => Listed::new(),
        };
        let (numbers, count) = numbers_in(numbers);
        assert!(rt; made.is(&numbers[..count.min(16)]), "{row}");
        replies(rt.alloc(), &mut private, &mut objects, &call, &memory, &[])?;
    }
    Ok(())
}

#[test]
fn a_call_makes_the_event_of_its_row(rt: HostRuntime) -> Result<(), Fail> {
    let mut memory = ClientMemory::new(rt.alloc(), 64)?;
    memory.write(0, &[1, 0, 0, 0, 2, 0, 0, 0]);
    let mut private = Private::new(1, 2, 2);
    let mut objects = Objects::new(rt.alloc());
    for row in EVENTS.lines() {
        let Some((spelling, numbers)) = row.split_once(':') else {
            return Err(Fail::new("no colon"));
        };
        let Some(call) = call_spelled(spelling) else {
            return Err(Fail::new("no such call"));
        };
        let made = match private.event(rt.alloc(), private.plan(&call), &call, &memory)? {
            Some(event) => told(&event),
            None => Listed::new(),
        };
        let (numbers, count) = numbers_in(numbers);
        assert!(rt; made.is(&numbers[..count.min(16)]), "{row}");
        replies(rt.alloc(), &mut private, &mut objects, &call, &memory, &[])?;
    }
    Ok(())
}
