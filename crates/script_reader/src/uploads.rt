//! How many bytes a call declares to upload, by its arguments alone. Whether it comes to an upload is asked nowhere here.

ghost use Rattle.std.specs.Prelude.{◌≡◌, ◌≤◌};
ghost use Rattle.script_reader.specs.UploadBytes.{call_uploads, size_uploads, sides_uploads};

use crate::number::is_between;
use gl_words::Call;

/// The most bytes that objects hold; a size above it is an error of its call.
const STORE_BYTES: i64 = 67_108_864;

/// How many bytes of uploads a call declares.
pub(crate) fn upload_bytes_of(call: &Call) -> u64
    ensures gives { result ≡ call_uploads call.now }
    ensures few { result ≤ 67108864 }
{
    match call {
        Call::BufferData { size, .. } => size_uploads(*size),
        Call::BufferSubData { size, .. } => size_uploads(*size),
        Call::TexImage2D { width, height, .. } => sides_uploads(*width, *height),
        Call::TexSubImage2D { width, height, .. } => sides_uploads(*width, *height),
        _ => 0,
    }
}

fn size_uploads(size: i32) -> u64
    ensures gives { result ≡ size_uploads size }
    ensures few { result ≤ 67108864 }
{
    if is_between(0, STORE_BYTES, i64::from(size)) {
        size as u64
    } else {
        0
    }
}

/// Four bytes for each texel.
fn sides_uploads(width: i32, height: i32) -> u64
    ensures gives { result ≡ sides_uploads width height }
    ensures few { result ≤ 67108864 }
{
    if !is_between(1, 256, i64::from(width)) {
        return 0;
    }
    if !is_between(1, 256, i64::from(height)) {
        return 0;
    }
    4 * (width as u64 * height as u64)
}
