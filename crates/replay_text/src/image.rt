//! Images in the form PPM with the magic P6.

ghost use Rattle.std.specs.Prelude.{◌≡◌, ◌+◌, ◌*◌, ◌≤◌, ◌<◌, ◌++◌, length, string_bytes, IfOk};
ghost use Rattle.gl_memory.specs.Room.{RoomView};
ghost use Rattle.replay_text.specs.Ppm.{cells_of, colours_in, colours_of, ppm_head, ppm_of, ppm_of_cells, row_of};

use fragment_ops::Cell;
use gl_memory::Octets;
use std::alloc::{AllocError as NoMemory, Global};

/// The image of bytes, four a pixel and the first row as the bottom one, with sides of 1 to 256 pixels, or NoMemory; own.
#[tactic(auto, unfolding(crate::specs::Ppm::ppm_of))]
pub fn ppm(alloc: Global, width: u32, height: u32, pixels: &[u8]) -> Result<Octets, NoMemory>
    requires width { (1 ≤ width) × (width ≤ 256) }
    requires height { (1 ≤ height) × (height ≤ 256) }
    requires pixels { length pixels.now ≡ width * height * 4 }
    ensures { IfOk result (λ image. image.items ≡ ppm_of width height pixels.now) }
{
    let mut image = begun(alloc, width, height)?;
    'rows: for row in (0..height).rev() {
        put_colours(&mut image, row_in(pixels, width as usize, row as usize));
    }
    Ok(image)
}

/// The image of the cells of a frame, the first row as the bottom one, with sides of 1 to 256 pixels, or NoMemory; own.
#[tactic(auto, unfolding(crate::specs::Ppm::ppm_of_cells))]
pub fn ppm_of_cells(
    alloc: Global,
    width: u32,
    height: u32,
    cells: &[Cell],
) -> Result<Octets, NoMemory>
    requires width { (1 ≤ width) × (width ≤ 256) }
    requires height { (1 ≤ height) × (height ≤ 256) }
    requires cells { length cells.now ≡ width * height }
    ensures { IfOk result (λ image. image.items ≡ ppm_of_cells width height cells.now) }
{
    let mut image = begun(alloc, width, height)?;
    'rows: for row in (0..height).rev() {
        put_cells(&mut image, cells_of(cells, width as usize, row as usize));
    }
    Ok(image)
}

/// An image of which the head stands, with room for three bytes a pixel.
fn begun(alloc: Global, width: u32, height: u32) -> Result<Octets, NoMemory>
    requires width { width ≤ 256 }
    requires height { height ≤ 256 }
    ensures { IfOk result (λ image. image ≡ record {
      items = ppm_head width height;
      room = length (ppm_head width height) + 3 * (width * height);
    }) }
{
    let head = head(alloc, width, height)?;
    let colours = 3 * (u64::from(width) * u64::from(height));
    let mut image = Octets::new(alloc, head.len() as u64 + colours)?;
    put(&mut image, head.as_bytes());
    Ok(image)
}

#[tactic(auto, unfolding(crate::specs::Ppm::ppm_head))]
fn head(alloc: Global, width: u32, height: u32) -> Result<String, NoMemory>
    ensures { IfOk result (λ head. string_bytes head ≡ ppm_head width height) }
{
    format!(in alloc; "P6\n{width} {height}\n255\n")
}

/// The bytes of a row, counted from the bottom.
#[tactic(auto, unfolding(crate::specs::Ppm::row_of))]
fn row_in(bytes: &[u8], width: usize, row: usize) -> &[u8]
    requires width { width ≤ 256 }
    requires row { row < 256 }
    requires inside { (row + 1) * width * 4 ≤ length bytes.now }
    ensures { result.now ≡ row_of width row bytes.now }
{
    bytes.split_at(row * width * 4).1.split_at(width * 4).0
}

/// The cells of a row, counted from the bottom.
#[tactic(auto, unfolding(crate::specs::Ppm::cells_of))]
fn cells_of(cells: &[Cell], width: usize, row: usize) -> &[Cell]
    requires width { width ≤ 256 }
    requires row { row < 256 }
    requires inside { (row + 1) * width ≤ length cells.now }
    ensures row { result.now ≡ cells_of width row cells.now }
    ensures long { length result.now ≡ width }
{
    cells.split_at(row * width).1.split_at(width).0
}

/// Appends bytes.
fn put(image: &mut Octets, bytes: &[u8])
    requires room { length image.old.items + length bytes.now ≤ image.old.room }
    ensures { image.new ≡ record image.old { items = image.old.items ++ bytes.now } }
{
    for byte in bytes {
        image.push(*byte);
    }
}

/// Appends red, green and blue of bytes that are four a pixel.
fn put_colours(image: &mut Octets, bytes: &[u8])
    requires room { length image.old.items + length (colours_of bytes.now) ≤ image.old.room }
    ensures { image.new ≡ record image.old { items = image.old.items ++ colours_of bytes.now } }
{
    let mut remaining = bytes;
    'pixels: while let [red, green, blue, _, rest @ ..] = remaining {
        image.push(*red);
        image.push(*green);
        image.push(*blue);
        remaining = rest;
    }
}

/// Appends red, green and blue of cells.
fn put_cells(image: &mut Octets, cells: &[Cell])
    requires room { length image.old.items + 3 * length cells.now ≤ image.old.room }
    ensures put { image.new ≡ record image.old { items = image.old.items ++ colours_in cells.now } }
    ensures long { length image.new.items ≡ length image.old.items + 3 * length cells.now }
{
    for cell in cells {
        put_colour(image, cell.colour);
    }
}

/// Appends red, green and blue of a colour.
fn put_colour(image: &mut Octets, colour: [u8; 4])
    requires room { length image.old.items + 3 ≤ image.old.room }
    ensures put { image.new ≡ record image.old { items = image.old.items ++ colours_of colour } }
    ensures long { length image.new.items ≡ length image.old.items + 3 }
{
    let [red, green, blue, _] = colour;
    image.push(red);
    image.push(green);
    image.push(blue);
}
