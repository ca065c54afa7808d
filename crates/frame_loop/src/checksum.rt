//! A number by which frames can be told apart.

ghost use Rattle.std.specs.Prelude.{◌≡◌, ◌<◌};
ghost use Rattle.frame_loop.specs.Checksum.{with_byte, with_pixel, checksum_of};

use fragment_ops::Cell;

/// The checksum of the colours of so many cells: each byte counts, and where it stands.
pub(crate) fn checksum_of(cells: &[Cell]) -> u64
    ensures { result ≡ checksum_of cells.now }
{
    let mut sum = 0;
    for cell in cells {
        sum = with_pixel(sum, cell.colour);
    }
    sum
}

/// The checksum with a pixel more. Its numbers stay below 4,294,967,291, the largest prime below 2^32.
fn with_pixel(sum: u64, pixel: [u8; 4]) -> u64
    requires small { sum < 4294967291 }
    ensures sum { result ≡ with_pixel sum pixel }
    ensures small { result < 4294967291 }
{
    let [red, green, blue, alpha] = pixel;
    with_byte(
        with_byte(with_byte(with_byte(sum, red), green), blue),
        alpha,
    )
}

/// The checksum with a byte more.
#[tactic(auto, unfolding(crate::specs::Checksum::with_byte))]
fn with_byte(sum: u64, byte: u8) -> u64
    requires small { sum < 4294967291 }
    ensures sum { result ≡ with_byte sum byte }
    ensures small { result < 4294967291 }
{
    (sum * 65537 + u64::from(byte) + 1) % 4_294_967_291
}
