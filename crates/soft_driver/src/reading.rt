//! Reading a rectangle of pixels: row by row, the part of a row that lies inside the frame, and zeros beside it.

ghost use Rattle.std.specs.Prelude.{◌≡◌, ◌+◌, ◌-◌, ◌*◌, ◌<◌, ◌≤◌, pos, ◌+ℤ◌, ◌≤ℤ◌, ◌<ℤ◌, ℕ, ◌++◌, length, replicate, IfOk};
ghost use Rattle.fragment_ops.specs.Frame.{pixel_at};
ghost use Rattle.soft_driver.specs.Pixels.{bytes_read, row_read};
ghost use Rattle.soft_driver.specs.Reading.{columns_read, Divides, IsInside};

use fragment_ops::Frame;
use gl_memory::Octets;
use std::alloc::{AllocError as NoMemory, Global};

/// The columns of a row that lie inside a frame, counted from where the row is read: from `first` to before `until`.
#[derive(Clone, Copy)]
struct Columns {
    first: u32,
    until: u32,
}

/// The bytes of a rectangle of pixels from its lower left corner on, zeros outside the frame. It takes memory for them
/// and for nothing else (section 4.3.1).
pub(crate) fn read(
    frame: &Frame,
    alloc: Global,
    x: i32,
    y: i32,
    width: u32,
    height: u32,
) -> Result<Octets, NoMemory>
    requires wide { width ≤ 512 }
    requires high { height ≤ 512 }
    ensures { IfOk result (λ octets. octets.items ≡ bytes_read frame.now x y width height) }
{
    let mut bytes = Octets::new(alloc, u64::from(height) * (4 * u64::from(width)))?;
    for row in 0..height {
        read_row(frame, x, i64::from(y) + i64::from(row), width, &mut bytes);
    }
    Ok(bytes)
}

/// Adds the bytes of a row of pixels from column x on.
fn read_row(frame: &Frame, x: i32, row: i64, width: u32, bytes: &mut Octets)
    requires wide { width ≤ 512 }
    requires room { length bytes.old.items + 4 * width ≤ bytes.old.room }
    ensures read { bytes.new
        ≡ record bytes.old { items = bytes.old.items ++ row_read frame.now x row width } }
    ensures long { length bytes.new.items ≡ length bytes.old.items + 4 * width }
{
    if row < 0 {
        add_zeros(bytes, width);
    } else if i64::from(frame.height()) <= row {
        add_zeros(bytes, width);
    } else {
        read_parts(frame, x, row as u32, width, bytes);
    }
}

/// Adds the bytes of a row of pixels from column x on, where the row lies inside the frame.
fn read_parts(frame: &Frame, x: i32, row: u32, width: u32, bytes: &mut Octets)
    requires wide { width ≤ 512 }
    requires inside { row < frame.now.height }
    requires room { length bytes.old.items + 4 * width ≤ bytes.old.room }
    ensures read { bytes.new
        ≡ record bytes.old { items = bytes.old.items ++ row_read frame.now x (pos row) width } }
    ensures long { length bytes.new.items ≡ length bytes.old.items + 4 * width }
{
    let columns = divided(x, frame.width(), width);
    add_zeros(bytes, columns.first);
    read_columns(frame, x, row, columns, bytes);
    add_zeros(bytes, width - columns.until);
}

/// Adds the bytes of those pixels of a row that lie inside the frame.
fn read_columns(frame: &Frame, x: i32, row: u32, columns: Columns, bytes: &mut Octets)
    requires row { row < frame.now.height }
    requires ordered { columns.first ≤ columns.until }
    requires columns { (at : ℕ) → columns.first ≤ at → at < columns.until
        → IsInside (x +ℤ pos at) frame.now.width }
    requires room { length bytes.old.items + 4 * (columns.until - columns.first)
        ≤ bytes.old.room }
    ensures read { bytes.new ≡ record bytes.old {
      items = bytes.old.items
          ++ columns_read frame.now x (pos row) columns.first (columns.until - columns.first);
    } }
    ensures long { length bytes.new.items
        ≡ length bytes.old.items + 4 * (columns.until - columns.first) }
{
    for at in columns.first..columns.until {
        add_pixel(bytes, pixel(frame, column_at(x, at), row));
    }
}

/// The pixel in a column and a row that lie inside the frame.
fn pixel(frame: &Frame, column: u64, row: u32) -> [u8; 4]
    requires column { column < frame.now.width }
    requires row { row < frame.now.height }
    ensures { result ≡ pixel_at frame.now (pos column) (pos row) }
{
    let cells = frame.cells();
    cells[row as usize * frame.width() as usize + column as usize].colour
}

/// A column of the frame, counted from column x on, as counted from the frame's left.
fn column_at(x: i32, at: u32) -> u64
    requires { pos 0 ≤ℤ (x +ℤ pos at) }
    ensures { pos result ≡ x +ℤ pos at }
{
    (i64::from(x) + i64::from(at)) as u64
}

/// Which of so many columns from x on lie inside a frame of this width.
fn divided(x: i32, side: u32, width: u32) -> Columns
    ensures { Divides x side width result.first result.until }
{
    Columns {
        first: left_of(x, 0, width),
        until: left_of(x, side, width),
    }
}

/// How many of so many columns from x on lie left of another one.
fn left_of(x: i32, column: u32, width: u32) -> u32
    ensures few { result ≤ width }
    ensures left { (at : ℕ) → at < result → (x +ℤ pos at) <ℤ pos column }
    ensures right { (at : ℕ) → result ≤ at → at < width → pos column ≤ℤ (x +ℤ pos at) }
{
    let count = i64::from(column) - i64::from(x);
    if count <= 0 {
        0
    } else if i64::from(width) <= count {
        width
    } else {
        count as u32
    }
}

/// Adds the four bytes of a pixel.
fn add_pixel(bytes: &mut Octets, pixel: [u8; 4])
    requires room { length bytes.old.items + 4 ≤ bytes.old.room }
    ensures added { bytes.new ≡ record bytes.old { items = bytes.old.items ++ pixel } }
    ensures long { length bytes.new.items ≡ length bytes.old.items + 4 }
{
    let [red, green, blue, alpha] = pixel;
    bytes.push(red);
    bytes.push(green);
    bytes.push(blue);
    bytes.push(alpha);
}

/// Adds so many pixels of zeros.
fn add_zeros(bytes: &mut Octets, count: u32)
    requires few { count ≤ 512 }
    requires room { length bytes.old.items + 4 * count ≤ bytes.old.room }
    ensures added { bytes.new
        ≡ record bytes.old { items = bytes.old.items ++ replicate (4 * count) 0 } }
    ensures long { length bytes.new.items ≡ length bytes.old.items + 4 * count }
{
    for _ in 0..4 * count {
        bytes.push(0);
    }
}
