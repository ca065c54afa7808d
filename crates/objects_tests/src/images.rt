//! Images, parts of them and parameters one after another: replies, texels and how a texture is read, worked by hand.

ghost use Rattle.std.specs.Prelude.{◌*◌, ◌≤◌, ◌≡◌, length, IfOk};
ghost use Rattle.texture_units.specs.Format.{size_of};
ghost use Rattle.gl_objects.specs.Event.{IsEvent};

use gl_objects::{Event, Kind, Names, Objects, Upload, is_parameter};
use gl_words::GlError;
use std::alloc::{AllocError, Global};
use std::process::Abort;
use std::test::Fail;
use texture_units::{Format, MinFilter, Sampling, is_side};

/// The default texture of context 0.
const DEFAULT: u64 = 4294967296;

/// An event, or what is read of a texture.
#[derive(Clone, Copy)]
enum Row {
    Bind(Kind, u64),
    Gen,
    Delete(Kind, &'static [u32]),
    /// A buffer of so many zeros.
    Zeros(u32, usize),
    Image(u64, Format, u32, u32, &'static [u8]),
    /// An image of so many columns and rows whose bytes are all this one.
    Plain(u64, Format, u32, u32, u8),
    /// A part from a column and a row on.
    Part(u64, Format, (u32, u32), (u32, u32), &'static [u8]),
    Parameter(u64, u32, i32),
    /// The texel in a column and a row.
    Texel(u64, u32, u32, [u8; 4]),
    /// The sides of an image.
    Sides(u64, u32, u32),
    NoImage(u64),
    /// The filter for what is made smaller by 0, 1 and 2, LINEAR, and CLAMP_TO_EDGE of s and of t.
    Read(u64, u32, bool, bool, bool),
    NoTexture(u64),
}

/// Bytes that are as many as the texels of these sides have.
fn upload(rt: &impl Abort, format: Format, width: u32, height: u32, bytes: Vec<u8>) -> Upload
    requires width { width ≤ 256 }
    requires height { height ≤ 256 }
    ensures { length result ≡ width * height * size_of format }
{
    let texels = width as usize * height as usize;
    let count = texels * format.size() as usize;
    assert!(rt; bytes.len() == count);
    Upload::new(bytes)
}

/// The event that puts an image in.
fn image_put(
    rt: &impl Abort,
    name: u64,
    format: Format,
    width: u32,
    height: u32,
    bytes: Vec<u8>,
) -> Event
    ensures { IsEvent result }
{
    assert!(rt; is_side(width));
    assert!(rt; is_side(height));
    Event::Image {
        name,
        format,
        width,
        height,
        bytes: upload(rt, format, width, height, bytes),
    }
}

/// The event that puts texels in the place of others.
fn part_put(
    rt: &impl Abort,
    name: u64,
    format: Format,
    at: (u32, u32),
    sides: (u32, u32),
    bytes: Vec<u8>,
) -> Event
    ensures { IsEvent result }
{
    let (x, y) = at;
    let (width, height) = sides;
    assert!(rt; width <= 256);
    assert!(rt; height <= 256);
    Event::ImagePart {
        name,
        format,
        x,
        y,
        width,
        height,
        bytes: upload(rt, format, width, height, bytes),
    }
}

/// The event that sets a parameter.
fn parameter_set(rt: &impl Abort, name: u64, pname: u32, value: i32) -> Event
    ensures { IsEvent result }
{
    assert!(rt; is_parameter(pname, value));
    Event::Parameter { name, pname, value }
}

/// The event that binds a name.
fn binding(rt: &impl Abort, kind: Kind, name: u64) -> Event
    ensures { IsEvent result }
{
    assert!(rt; name > 0);
    match kind {
        Kind::Buffer => {
            assert!(rt; name < 0x1_0000_0000);
            Event::Bind {
                kind: Kind::Buffer,
                name,
            }
        }
        Kind::Texture => Event::Bind {
            kind: Kind::Texture,
            name,
        },
    }
}

/// The event of a row. That of a row which only reads is one that changes nothing.
fn event_of(rt: &impl Abort, alloc: Global, row: &Row) -> Result<Event, AllocError>
    ensures { IfOk result (λ event. IsEvent event) }
{
    match *row {
        Row::Bind(kind, name) => Ok(binding(rt, kind, name)),
        Row::Gen => Ok(Event::Gen {
            kind: Kind::Texture,
            n: 1,
        }),
        Row::Delete(kind, names) => Ok(Event::Delete {
            kind,
            names: Names::new(Vec::from_slice(alloc, names)?),
        }),
        Row::Zeros(name, count) => Ok(Event::BufferBytes {
            name,
            bytes: Upload::new(vec![in alloc; 0; count]?),
        }),
        Row::Image(name, format, width, height, bytes) => {
            let bytes = Vec::from_slice(alloc, bytes)?;
            Ok(image_put(rt, name, format, width, height, bytes))
        }
        Row::Plain(name, format, width, height, byte) => {
            assert!(rt; width <= 256);
            assert!(rt; height <= 256);
            let texels = width as usize * height as usize;
            let bytes = vec![in alloc; byte; texels * format.size() as usize]?;
            Ok(image_put(rt, name, format, width, height, bytes))
        }
        Row::Part(name, format, at, sides, bytes) => {
            let bytes = Vec::from_slice(alloc, bytes)?;
            Ok(part_put(rt, name, format, at, sides, bytes))
        }
        Row::Parameter(name, pname, value) => Ok(parameter_set(rt, name, pname, value)),
        _ => Ok(Event::Is {
            kind: Kind::Texture,
            name: 1,
        }),
    }
}

/// The number of a filter in a row.
fn number_of(filter: MinFilter) -> u32 {
    match filter {
        MinFilter::Nearest => 0,
        MinFilter::Linear => 1,
        MinFilter::Mipmap => 2,
    }
}

/// How a texture is read, as a row has it.
fn is_read(sampling: &Sampling, min: u32, linear: bool, clamp_s: bool, clamp_t: bool) -> bool {
    number_of(sampling.min) == min
        && sampling.linear == linear
        && sampling.clamp_s == clamp_s
        && sampling.clamp_t == clamp_t
}

/// Compares what a row reads with what the objects have.
fn compare(rt: &impl Abort, objects: &Objects, row: &Row) {
    match *row {
        Row::Texel(name, x, y, texel) => match objects.texture(name) {
            Some(texture) => {
                assert!(rt; x < texture.width());
                assert!(rt; y < texture.height());
                assert_eq!(rt; texture.texel(x, y), texel);
            }
            None => assert!(rt; false),
        },
        Row::Sides(name, width, height) => match objects.texture(name) {
            Some(texture) => {
                assert_eq!(rt; texture.width(), width);
                assert_eq!(rt; texture.height(), height);
            }
            None => assert!(rt; false),
        },
        Row::NoImage(name) => assert!(rt; objects.texture(name).is_none()),
        Row::Read(name, min, linear, clamp_s, clamp_t) => match objects.sampling(name) {
            Some(sampling) => assert!(rt; is_read(sampling, min, linear, clamp_s, clamp_t)),
            None => assert!(rt; false),
        },
        Row::NoTexture(name) => assert!(rt; objects.sampling(name).is_none()),
        _ => {}
    }
}

/// Has objects take the events of a table in turn, and compares replies and what is read.
fn follow(
    rt: &impl Abort,
    alloc: Global,
    rows: &[(Row, Option<GlError>)],
) -> Result<(), AllocError> {
    let mut objects = Objects::new(alloc);
    for (row, fault) in rows {
        let event = event_of(rt, alloc, row)?;
        let reply = objects.take(event)?;
        assert_eq!(rt; reply.fault, *fault);
        compare(rt, &objects, row);
    }
    Ok(())
}

#[test]
fn images_and_parts_are_put_in(rt: HostRuntime) -> Result<(), Fail> {
    let wrong = Some(GlError::InvalidOperation);
    let outside = Some(GlError::InvalidValue);
    let rows = [
        (Row::Image(1, Format::Rgb, 1, 1, &[1, 2, 3]), wrong),
        (Row::Gen, None),
        (Row::Image(1, Format::Rgb, 1, 1, &[1, 2, 3]), wrong),
        (Row::Part(1, Format::Rgb, (0, 0), (0, 0), &[]), wrong),
        (Row::NoTexture(1), None),
        (Row::Bind(Kind::Texture, 1), None),
        (Row::NoImage(1), None),
        (Row::Part(1, Format::Rgb, (0, 0), (0, 0), &[]), wrong),
        (
            Row::Image(1, Format::Luminance, 4, 2, &[0, 1, 2, 3, 10, 11, 12, 13]),
            None,
        ),
        (Row::Texel(1, 3, 0, [3, 3, 3, 255]), None),
        (Row::Texel(1, 0, 1, [10, 10, 10, 255]), None),
        (Row::Part(1, Format::Alpha, (0, 0), (1, 1), &[9]), wrong),
        (
            Row::Part(1, Format::Luminance, (3, 0), (2, 1), &[8, 9]),
            outside,
        ),
        (
            Row::Part(1, Format::Luminance, (0, 1), (1, 2), &[8, 9]),
            outside,
        ),
        (
            Row::Part(1, Format::Luminance, (4294967295, 0), (1, 1), &[8]),
            outside,
        ),
        (
            Row::Part(1, Format::Luminance, (2, 0), (2, 2), &[20, 21, 30, 31]),
            None,
        ),
        (Row::Texel(1, 1, 0, [1, 1, 1, 255]), None),
        (Row::Texel(1, 2, 0, [20, 20, 20, 255]), None),
        (Row::Texel(1, 3, 0, [21, 21, 21, 255]), None),
        (Row::Texel(1, 1, 1, [11, 11, 11, 255]), None),
        (Row::Texel(1, 2, 1, [30, 30, 30, 255]), None),
        (Row::Texel(1, 3, 1, [31, 31, 31, 255]), None),
        (Row::Part(1, Format::Luminance, (4, 2), (0, 0), &[]), None),
        (
            Row::Part(1, Format::Luminance, (5, 0), (0, 0), &[]),
            outside,
        ),
        (
            Row::Image(1, Format::LuminanceAlpha, 1, 2, &[7, 8, 17, 18]),
            None,
        ),
        (Row::Sides(1, 1, 2), None),
        (Row::Texel(1, 0, 1, [17, 17, 17, 18]), None),
        (Row::Part(1, Format::Luminance, (0, 0), (1, 1), &[9]), wrong),
        (Row::Delete(Kind::Texture, &[1]), None),
        (Row::NoTexture(1), None),
        (
            Row::Part(1, Format::LuminanceAlpha, (0, 0), (1, 1), &[9, 9]),
            wrong,
        ),
        (Row::Bind(Kind::Texture, 1), None),
        (Row::NoImage(1), None),
    ];
    follow(&rt, rt.alloc(), &rows)?;
    Ok(())
}

#[test]
fn parameters_are_set_one_by_one(rt: HostRuntime) -> Result<(), Fail> {
    let rows = [
        (
            Row::Parameter(7, 0x2802, 0x812F),
            Some(GlError::InvalidOperation),
        ),
        (Row::Bind(Kind::Texture, 7), None),
        (Row::Read(7, 2, true, false, false), None),
        (Row::Parameter(7, 0x2802, 0x812F), None),
        (Row::Read(7, 2, true, true, false), None),
        (Row::Parameter(7, 0x2803, 0x812F), None),
        (Row::Parameter(7, 0x2802, 0x2901), None),
        (Row::Read(7, 2, true, false, true), None),
        (Row::Parameter(7, 0x2800, 0x2600), None),
        (Row::Read(7, 2, false, false, true), None),
        (Row::Parameter(7, 0x2801, 0x2600), None),
        (Row::Read(7, 0, false, false, true), None),
        (Row::Parameter(7, 0x2801, 0x2601), None),
        (Row::Read(7, 1, false, false, true), None),
        (Row::Parameter(7, 0x2801, 0x2700), None),
        (Row::Read(7, 2, false, false, true), None),
        (Row::Image(7, Format::Alpha, 1, 1, &[5]), None),
        (Row::Read(7, 2, false, false, true), None),
        (Row::Texel(7, 0, 0, [0, 0, 0, 5]), None),
        (Row::Parameter(7, 0x2800, 0x2601), None),
        (Row::Texel(7, 0, 0, [0, 0, 0, 5]), None),
        (Row::Delete(Kind::Texture, &[7]), None),
        (Row::Bind(Kind::Texture, 7), None),
        (Row::Read(7, 2, true, false, false), None),
    ];
    follow(&rt, rt.alloc(), &rows)?;
    Ok(())
}

#[test]
fn default_textures_are_always_there(rt: HostRuntime) -> Result<(), Fail> {
    let rows = [
        (Row::NoImage(DEFAULT), None),
        (Row::Read(DEFAULT + 3, 2, true, false, false), None),
        (Row::NoTexture(DEFAULT + 4), None),
        (Row::NoTexture(DEFAULT - 1), None),
        (
            Row::Image(DEFAULT + 3, Format::Rgba, 1, 1, &[1, 2, 3, 4]),
            None,
        ),
        (
            Row::Image(DEFAULT + 4, Format::Rgba, 1, 1, &[1, 2, 3, 4]),
            Some(GlError::InvalidOperation),
        ),
        (Row::Parameter(DEFAULT + 3, 0x2803, 0x812F), None),
        (Row::Bind(Kind::Texture, DEFAULT + 3), None),
        (Row::Delete(Kind::Texture, &[0, 3, 4294967295]), None),
        (Row::Texel(DEFAULT + 3, 0, 0, [1, 2, 3, 4]), None),
        (Row::Read(DEFAULT + 3, 2, true, false, true), None),
        (Row::Read(DEFAULT + 2, 2, true, false, false), None),
        (
            Row::Part(DEFAULT + 3, Format::Rgba, (0, 0), (1, 1), &[5, 6, 7, 8]),
            None,
        ),
        (Row::Texel(DEFAULT + 3, 0, 0, [5, 6, 7, 8]), None),
        (Row::NoImage(DEFAULT + 2), None),
        (Row::Gen, None),
        (Row::NoTexture(1), None),
    ];
    follow(&rt, rt.alloc(), &rows)?;
    Ok(())
}

#[test]
fn buffers_and_images_share_the_limit(rt: HostRuntime) -> Result<(), Fail> {
    let full = Some(GlError::OutOfMemory);
    let rows = [
        (Row::Bind(Kind::Buffer, 1), None),
        (Row::Bind(Kind::Buffer, 2), None),
        (Row::Bind(Kind::Texture, 1), None),
        (Row::Zeros(1, 67108856), None),
        (Row::Plain(DEFAULT, Format::Alpha, 2, 2, 1), None),
        (Row::Plain(1, Format::Rgba, 2, 1, 2), full),
        (Row::NoImage(1), None),
        (Row::Plain(1, Format::Rgba, 1, 1, 2), None),
        (Row::Zeros(2, 1), full),
        (Row::Plain(DEFAULT + 1, Format::Alpha, 1, 1, 1), full),
        (Row::Plain(DEFAULT, Format::Alpha, 4, 2, 3), full),
        (Row::Texel(DEFAULT, 1, 1, [0, 0, 0, 1]), None),
        (Row::Plain(1, Format::LuminanceAlpha, 1, 1, 2), None),
        (Row::Zeros(2, 3), full),
        (Row::Zeros(2, 2), None),
        (Row::Delete(Kind::Buffer, &[1]), None),
        (Row::Plain(DEFAULT, Format::Rgba, 256, 256, 4), None),
        (Row::Texel(DEFAULT, 255, 255, [4, 4, 4, 4]), None),
    ];
    follow(&rt, rt.alloc(), &rows)?;
    Ok(())
}
