//! The objects that contexts share: buffers with their bytes, textures with their images, and what each event makes of them.
#![tactic(auto)]

mod event;
mod held;
mod images;
mod kind;
mod laws;
mod lists;
mod named;
mod objects;
mod reply;
mod sampling;
mod store;
mod table;
mod texture;
mod texture_table;
mod used;

pub use event::Event;
pub use kind::Kind;
pub use laws::{asking_law, legal_law, names_law, part_law};
pub use lists::{Names, Upload};
pub use named::Named;
pub use objects::Objects;
pub use reply::EventReply;
pub use sampling::is_parameter;
pub use texture::TextureObject;
pub use used::{UsedBuffers, UsedTextures};
