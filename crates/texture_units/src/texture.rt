//! A texture, and what it gives at a coordinate.

ghost use Rattle.std.specs.Prelude.{◌≡◌, ◌+◌, ◌*◌, ◌<◌, ◌≤◌, length, IfOk};
ghost use Rattle.texture_units.specs.Format.{size_of};
ghost use Rattle.texture_units.specs.Texture.{is_complete, rectangle_of, texel_at, IsSide, IsTexture};
ghost use Rattle.texture_units.specs.Part.{with_part, FitsAt, TakesPart};
ghost use Rattle.texture_units.specs.Sample.{linear, nearest, sampled};

use crate::coordinate::over;
use crate::format::Format;
use crate::linear::FourWeights;
use crate::part::put_rows;
use crate::place::{Pair, nearest};
use crate::sampling::Sampling;
use std::alloc::{AllocError as NoMemory, Global};
use std::marker::Model;

/// A rectangle of texels (section 3.7.1). Contracts see its format, its sides, and its bytes row by row.
#[derive(Drop)]
pub struct Texture {
    format: Format,
    /// In texels, powers of two up to 256.
    width: u32,
    height: u32,
    /// As they came, row by row from t = 0 on: so an upload copies, and each of a texel's bytes is read where it is asked for.
    bytes: Vec<u8>,
}

impl Model for Texture {
    ghost use Rattle.texture_units.specs.Texture.{rectangle_of, TextureView, IsTexture};

    ghost Value = { TextureView };

    ghost view = { λ t. rectangle_of t.format t.width t.height t.bytes.items };

    ghost invariant = { λ t. IsTexture (rectangle_of t.format t.width t.height t.bytes.items) };
}

impl Texture {
    /// A texture of these sides in texels with these bytes, row by row from t = 0 on, each row in rising s, with nothing
    /// between (section 3.7.1).
    pub fn new(
        alloc: Global,
        format: Format,
        width: u32,
        height: u32,
        bytes: &[u8],
    ) -> Result<Texture, NoMemory>
        requires width { IsSide width }
        requires height { IsSide height }
        requires bytes { length bytes.now ≡ width * height * size_of format }
        ensures { IfOk result (λ texture. texture
            ≡ rectangle_of format width height bytes.now) }
    {
        let bytes = Vec::from_slice(alloc, bytes)?;
        Ok(Texture {
            format,
            width,
            height,
            bytes,
        })
    }

    /// The format of the texels.
    #[inline(always)]
    pub fn format(&self) -> Format
        ensures { result ≡ self.now.format }
    {
        self.format
    }

    /// In texels, a power of two up to 256.
    #[inline(always)]
    pub fn width(&self) -> u32
        ensures value { result ≡ self.now.width }
        ensures side { IsSide result }
    {
        self.width
    }

    /// In texels, a power of two up to 256.
    #[inline(always)]
    pub fn height(&self) -> u32
        ensures value { result ≡ self.now.height }
        ensures side { IsSide result }
    {
        self.height
    }

    /// The bytes of the texels, row by row from t = 0 on, each row in rising s.
    #[inline(always)]
    pub fn bytes(&self) -> &[u8]
        ensures bytes { result.now ≡ self.now.bytes }
        ensures whole { IsTexture self.now }
    {
        self.bytes.as_slice()
    }

    /// The colour of the texel in a column and a row, both counted from 0: red, green, blue and alpha, a byte each (section
    /// 3.7.1). Those of RGBA are read where they are asked for.
    #[inline(always)]
    pub fn texel(&self, x: u32, y: u32) -> [u8; 4]
        requires column { x < self.now.width }
        requires row { y < self.now.height }
        ensures { result ≡ texel_at self.now x y }
    {
        match self.format() {
            Format::Rgba => self.texel_here(x, y),
            _ => self.texel_apart(x, y),
        }
    }

    /// The same, apart from the caller.
    #[inline(never)]
    fn texel_apart(&self, x: u32, y: u32) -> [u8; 4]
        requires column { x < self.now.width }
        requires row { y < self.now.height }
        ensures { result ≡ texel_at self.now x y }
    {
        self.texel_here(x, y)
    }

    /// The same, within the caller.
    #[inline(always)]
    fn texel_here(&self, x: u32, y: u32) -> [u8; 4]
        requires column { x < self.now.width }
        requires row { y < self.now.height }
        ensures { result ≡ texel_at self.now x y }
    {
        let at = self.first_byte(x, y);
        self.format().colour(self.bytes(), at)
    }

    /// The place of the first byte of the texel in a column and a row.
    #[inline(always)]
    fn first_byte(&self, x: u32, y: u32) -> usize
        requires column { x < self.now.width }
        requires row { y < self.now.height }
        ensures value { result ≡ (y * self.now.width + x) * size_of self.now.format }
        ensures inside { result + size_of self.now.format ≤ length self.now.bytes }
    {
        let before = y as usize * self.width as usize + x as usize;
        before * self.format.size() as usize
    }

    /// Whether it is complete as it is read: its filter reads one level alone, or it has one texel (section 3.7.9).
    #[tactic(auto, unfolding(crate::specs::Texture::is_complete))]
    pub fn is_complete(&self, sampling: &Sampling) -> bool
        ensures { result ≡ is_complete self.now sampling.now }
    {
        sampling.min.reads_one_level() || (self.width == 1 && self.height == 1)
    }

    /// Replaces the texels of a rectangle of these sides in texels, from column x and row y on, by those of these bytes, which
    /// stand as in `new` (section 3.7.2). It takes no memory.
    pub fn put_part(&mut self, x: u32, y: u32, width: u32, height: u32, bytes: &[u8])
        requires { FitsAt x y (rectangle_of self.old.format width height bytes.now) self.old }
        ensures bytes { self.new ≡ with_part x y
            (rectangle_of self.old.format width height bytes.now) self.old }
        ensures texels { TakesPart x y
            (rectangle_of self.old.format width height bytes.now) self.old self.new }
    {
        let size = self.format.size() as usize;
        let stride = self.width as usize * size;
        let first = x as usize * size;
        let run = width as usize * size;
        put_rows(
            &mut self.bytes,
            stride,
            first,
            run,
            y as usize,
            height as usize,
            bytes,
        );
    }

    /// NEAREST: the texel in which a point lies (sections 3.7.7 and 3.7.8).
    #[inline(always)]
    fn nearest(&self, sampling: &Sampling, s: i32, t: i32) -> [u8; 4]
        ensures { result ≡ nearest self.now sampling.now s t }
    {
        let width = self.width();
        let height = self.height();
        let column = nearest(sampling.clamp_s, width, s);
        let row = nearest(sampling.clamp_t, height, t);
        self.texel(column, row)
    }

    /// LINEAR: the mean of the four texels round a point (sections 3.7.7 and 3.7.8).
    #[inline(never)]
    fn linear(&self, sampling: &Sampling, s: i32, t: i32) -> [u8; 4]
        ensures { result ≡ linear self.now sampling.now s t }
    {
        let width = self.width();
        let height = self.height();
        let columns = Pair::new(sampling.clamp_s, width, s);
        let rows = Pair::new(sampling.clamp_t, height, t);
        let one = self.texel(columns.first, rows.first);
        let two = self.texel(columns.second, rows.first);
        let three = self.texel(columns.first, rows.second);
        let four = self.texel(columns.second, rows.second);
        let weights = FourWeights::new(columns.share, rows.share);
        let red = weights.mean_at(0, one, two, three, four);
        let green = weights.mean_at(1, one, two, three, four);
        let blue = weights.mean_at(2, one, two, three, four);
        let alpha = weights.mean_at(3, one, two, three, four);
        [red, green, blue, alpha]
    }
}

/// What a texture gives at s, t and q, 16.16 fixed: red, green, blue and alpha, a byte each. It is read at s over q and t over
/// q, and at 0 where q isn't above 0 (sections 3.5.1 and 3.7.6 to 3.7.8; the arithmetic own).
#[inline(always)]
pub fn sample(texture: &Texture, sampling: &Sampling, s: i32, t: i32, q: i32) -> [u8; 4]
    ensures { result ≡ sampled texture.now sampling.now s t q }
{
    let at_s = over(s, q);
    let at_t = over(t, q);
    let linear = sampling.linear;
    if linear {
        return texture.linear(sampling, at_s, at_t);
    }
    texture.nearest(sampling, at_s, at_t)
}
