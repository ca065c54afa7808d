//! Numbers of several bytes in memory, the lowest byte first; own. Places need no alignment.

ghost use Rattle.std.specs.Prelude.{◌≡◌, ◌-◌, ◌^◌, ◌<◌};
ghost use Rattle.gl_memory.specs.Number.{u16_at, u32_at, i32_at};

use crate::memory::Memory;

/// The number of two bytes from a place on, the lower first.
pub fn read_u16<M: Memory>(memory: &M, at: u64) -> u16
    requires place { at < 2 ^ 63 - 4 }
    ensures { result ≡ u16_at (M.segments memory.now) at }
{
    u16::from(memory.byte(at)) + 0x100 * u16::from(memory.byte(at + 1))
}

/// The number of four bytes from a place on, the lowest first.
pub fn read_u32<M: Memory>(memory: &M, at: u64) -> u32
    requires place { at < 2 ^ 63 - 4 }
    ensures { result ≡ u32_at (M.segments memory.now) at }
{
    u32::from(memory.byte(at))
        + 0x100 * u32::from(memory.byte(at + 1))
        + 0x1_0000 * u32::from(memory.byte(at + 2))
        + 0x100_0000 * u32::from(memory.byte(at + 3))
}

/// The integer of four bytes from a place on, the lowest first, in two's complement.
pub fn read_i32<M: Memory>(memory: &M, at: u64) -> i32
    requires place { at < 2 ^ 63 - 4 }
    ensures { result ≡ i32_at (M.segments memory.now) at }
{
    read_u32(memory, at).cast_signed()
}
