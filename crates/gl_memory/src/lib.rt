//! Client memory, what bytes are read from, pieces of client memory, segments lent from slots, and lists in a room.
#![tactic(auto)]

mod client_memory;
mod laws;
mod lent;
mod memory;
mod numbers;
mod octets;
mod piece;
mod pieces;
mod reads;

pub use client_memory::ClientMemory;
pub use laws::{cut_law, lent_law, segment_law, write_law};
pub use lent::Lent;
pub use memory::Memory;
pub use numbers::Numbers;
pub use octets::Octets;
pub use piece::Piece;
pub use pieces::Pieces;
pub use reads::{read_i32, read_u16, read_u32};
