//! What a texture object holds.

ghost use Rattle.std.specs.Prelude.{◌≡◌, ◌+◌, ◌≤◌, length, nat_le, None};
ghost use Rattle.texture_units.specs.Texture.{rectangle_of, HasItsBytes};
ghost use Rattle.texture_units.specs.Part.{with_part, FitsAt};
ghost use Rattle.gl_objects.specs.Image.{image_size, is_same_format, new_texture, part_of_image_fault, with_image_part, with_parameter_set};

use crate::held::Held;
use crate::sampling::{new_sampling, with_parameter};
use gl_words::GlError;
use texture_units::{Format, Sampling, Texture};

/// A texture object (section 3.7.11): its image, and how it is read.
#[derive(Drop)]
pub struct TextureObject {
    /// None until an image was put in.
    pub image: Option<Texture>,
    pub sampling: Sampling,
}

impl TextureObject {
    /// A texture that nothing was put into. It takes no memory.
    pub fn new() -> TextureObject
        ensures { result ≡ new_texture }
    {
        TextureObject {
            image: None,
            sampling: new_sampling(),
        }
    }

    /// Puts texels in the place of others of the image, from a column and a row on (section 3.7.2).
    pub fn put_part(
        &mut self,
        format: Format,
        x: u32,
        y: u32,
        width: u32,
        height: u32,
        bytes: &[u8],
    )
        requires fits { part_of_image_fault self.old.image x y
            (rectangle_of format width height bytes.now) ≡ None }
        requires whole { HasItsBytes (rectangle_of format width height bytes.now) }
        ensures { self.new ≡ with_image_part x y
            (rectangle_of format width height bytes.now) self.old }
    {
        if let Some(image) = &mut self.image {
            put_part_in(image, format, x, y, width, height, bytes);
        }
    }

    /// Sets a parameter (section 3.7.4).
    pub fn set_parameter(&mut self, pname: u32, value: i32)
        ensures { self.new ≡ with_parameter_set pname value self.old }
    {
        self.sampling = with_parameter(self.sampling, pname, value);
    }
}

/// Puts texels in the place of others of an image, from a column and a row on (section 3.7.2).
fn put_part_in(
    image: &mut Texture,
    format: Format,
    x: u32,
    y: u32,
    width: u32,
    height: u32,
    bytes: &[u8],
)
    requires { FitsAt x y (rectangle_of format width height bytes.now) image.old }
    ensures { image.new ≡ with_part x y (rectangle_of format width height bytes.now) image.old }
{
    let _same = format;
    image.put_part(x, y, width, height, bytes);
}

impl Held for TextureObject {
    ghost size = { image_size };

    fn size(&self) -> u64 {
        self.image_bytes()
    }
}

impl TextureObject {
    /// How many bytes the image has: 0 where there is none, and 262144 at most.
    pub fn image_bytes(&self) -> u64
        ensures size { result ≡ image_size self.now }
        ensures few { result ≤ 262144 }
    {
        match &self.image {
            Some(image) => bytes_of_image(image),
            None => 0,
        }
    }

    /// Why texels can't be put in the place of others of the image (section 3.7.2). None where they can.
    pub fn part_fault(
        &self,
        format: Format,
        x: u32,
        y: u32,
        width: u32,
        height: u32,
        bytes: &[u8],
    ) -> Option<GlError>
        ensures { result ≡ part_of_image_fault self.now.image x y
            (rectangle_of format width height bytes.now) }
    {
        match &self.image {
            Some(image) => {
                if !is_same_format(image.format(), format) {
                    Some(GlError::InvalidOperation)
                } else if is_within(x, width, image.width())
                    && is_within(y, height, image.height())
                {
                    None
                } else {
                    Some(GlError::InvalidValue)
                }
            }
            None => Some(GlError::InvalidOperation),
        }
    }
}

/// How many bytes an image has.
fn bytes_of_image(image: &Texture) -> u64
    ensures size { result ≡ length image.now.bytes }
    ensures few { result ≤ 262144 }
{
    image.bytes().len() as u64
}

/// Whether so many texels from a first one on lie on a side.
fn is_within(first: u32, count: u32, side: u32) -> bool
    ensures { result ≡ nat_le (first + count) side }
{
    u64::from(first) + u64::from(count) <= u64::from(side)
}

/// Whether two formats are the same.
fn is_same_format(one: Format, other: Format) -> bool
    ensures { result ≡ is_same_format one other }
{
    match (one, other) {
        (Format::Alpha, Format::Alpha) => true,
        (Format::Luminance, Format::Luminance) => true,
        (Format::LuminanceAlpha, Format::LuminanceAlpha) => true,
        (Format::Rgb, Format::Rgb) => true,
        (Format::Rgba, Format::Rgba) => true,
        _ => false,
    }
}
