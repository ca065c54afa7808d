//! Bytes of a rectangle, put row by row into the rows of another.

ghost use Rattle.std.specs.Prelude.{◌≡◌, ℕ, ◌+◌, ◌*◌, ◌<◌, ◌≤◌, length, slice_index};
ghost use Rattle.texture_units.specs.Part.{block, bytes_after};

/// Puts so many rows of `run` bytes each into rows of `stride` bytes, from the row `bottom` and its byte `first` on.
pub(crate) fn put_rows(
    bytes: &mut [u8],
    stride: usize,
    first: usize,
    run: usize,
    bottom: usize,
    rows: usize,
    part: &[u8],
)
    requires wide { first + run ≤ stride }
    requires some { 1 ≤ stride }
    requires narrow { stride ≤ 1024 }
    requires low { bottom + rows ≤ 256 }
    requires high { (bottom + rows) * stride ≤ length bytes.old }
    requires whole { length part.now ≡ rows * run }
    ensures { bytes.new ≡ bytes_after (block stride first run bottom rows)
        part.now bytes.old }
{
    for row in 0..rows {
        let to = (bottom + row) * stride + first;
        let from = row * run;
        put_run(bytes, to, run, part, from);
    }
}

/// Puts so many bytes of a part, from its place `from` on, over those from the place `to` on.
fn put_run(bytes: &mut [u8], to: usize, run: usize, part: &[u8], from: usize)
    requires room { to + run ≤ length bytes.old }
    requires bytes { from + run ≤ length part.now }
    ensures before { (at : ℕ) → at < to → slice_index bytes.new at ≡ slice_index bytes.old at }
    ensures inside { (k : ℕ) → k < run
        → slice_index bytes.new (to + k) ≡ slice_index part.now (from + k) }
    ensures after { (at : ℕ) → to + run ≤ at
        → slice_index bytes.new at ≡ slice_index bytes.old at }
{
    bytes[to..to + run].copy_from_slice(&part[from..from + run]);
}
