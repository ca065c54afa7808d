//! The mean of four texels by their weights.

ghost use Rattle.std.specs.Prelude.{◌≡◌, ◌+◌, ◌*◌, ◌<◌, ◌≤◌};
ghost use Rattle.texture_units.specs.Held.{weights_seen};
ghost use Rattle.texture_units.specs.Laws.{sum_of};
ghost use Rattle.texture_units.specs.Sample.{four_colours, mean_at, weights_of};

/// How much each of four texels weighs, in 65,536ths (section 3.7.7).
#[derive(Clone, Copy)]
pub(crate) struct FourWeights {
    first: u32,
    along_s: u32,
    along_t: u32,
    along_both: u32,
}

impl FourWeights {
    /// The weights for shares of 256 along s and along t.
    pub(crate) fn new(a: u32, b: u32) -> FourWeights
        requires a { a < 256 }
        requires b { b < 256 }
        ensures value { weights_seen result ≡ weights_of a b }
        ensures whole { sum_of (weights_seen result) ≡ 65536 }
    {
        FourWeights {
            first: product(256 - a, 256 - b),
            along_s: product(a, 256 - b),
            along_t: product(256 - a, b),
            along_both: product(a, b),
        }
    }

    /// A channel, 0 to 3, of the mean of four colours, rounded to the nearest (section 3.7.7, the rounding own).
    pub(crate) fn mean_at(
        &self,
        channel: usize,
        first: [u8; 4],
        along_s: [u8; 4],
        along_t: [u8; 4],
        along_both: [u8; 4],
    ) -> u8
        requires weights { sum_of (weights_seen self.now) ≡ 65536 }
        requires channel { channel < 4 }
        ensures { result ≡ mean_at (weights_seen self.now)
            (four_colours first along_s along_t along_both) channel }
    {
        let one = weighted(self.first, first[channel]);
        let two = weighted(self.along_s, along_s[channel]);
        let three = weighted(self.along_t, along_t[channel]);
        let four = weighted(self.along_both, along_both[channel]);
        ((total(one, two, three, four) + 32768) / 65536) as u8
    }
}

/// The product of two numbers of 256ths.
fn product(a: u32, b: u32) -> u32
    requires a { a ≤ 256 }
    requires b { b ≤ 256 }
    ensures { result ≡ a * b }
{
    a * b
}

/// A byte times its weight.
fn weighted(weight: u32, byte: u8) -> u32
    requires { weight ≤ 65536 }
    ensures value { result ≡ weight * byte }
    ensures most { result ≤ weight * 255 }
{
    weight * u32::from(byte)
}

/// The sum of four numbers.
fn total(one: u32, two: u32, three: u32, four: u32) -> u32
    requires { one + two + three + four ≤ 255 * 65536 }
    ensures value { result ≡ one + two + three + four }
    ensures most { result ≤ 255 * 65536 }
{
    one + two + three + four
}
