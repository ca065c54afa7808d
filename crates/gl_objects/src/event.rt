//! What a call does to the objects that contexts share.

use crate::kind::Kind;
use crate::lists::{Names, Upload};
use crate::used::{UsedBuffers, UsedTextures};
use texture_units::Format;

/// One change of the objects, or one question to them; own. No call makes more than one.
///
/// A texture's name has 64 bits: one that a call gives stands for itself, and 4294967296 + k for the default texture of
/// context k.
#[derive(Drop)]
pub enum Event {
    /// The name is bound: the object exists from now on (sections 2.9 and 3.7.11).
    Bind {
        kind: Kind,
        name: u64,
    },
    /// The buffer's store becomes these bytes (section 2.9, BufferData).
    BufferBytes {
        name: u32,
        bytes: Upload,
    },
    /// These bytes are written over the buffer's store, from a place on (section 2.9, BufferSubData).
    BufferPart {
        name: u32,
        offset: u32,
        bytes: Upload,
    },
    /// The texture's image becomes this one: so many texels in a row and so many rows, powers of two up to 256, with the bytes of
    /// its texels, row by row from t = 0 on, and nothing between (section 3.7.1).
    Image {
        name: u64,
        format: Format,
        width: u32,
        height: u32,
        bytes: Upload,
    },
    /// These texels, of so many in a row and so many rows, up to 256, stand in the place of those of the texture's image from
    /// column x and row y on (section 3.7.2). Their bytes stand as those of an image.
    ImagePart {
        name: u64,
        format: Format,
        x: u32,
        y: u32,
        width: u32,
        height: u32,
        bytes: Upload,
    },
    /// A parameter of the texture takes a value (section 3.7.4).
    Parameter {
        name: u64,
        pname: u32,
        value: i32,
    },
    /// So many names are given that are in use nowhere (sections 2.9 and 3.7.11).
    Gen {
        kind: Kind,
        n: u32,
    },
    /// These names are in use no more (sections 2.9 and 3.7.11).
    Delete {
        kind: Kind,
        names: Names,
    },
    /// Whether the name is that of an object (section 6.1.4 and 6.1.6).
    Is {
        kind: Kind,
        name: u32,
    },
    /// A draw reads these objects; own.
    Use {
        buffers: UsedBuffers,
        textures: UsedTextures,
    },
}
