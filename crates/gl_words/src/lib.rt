//! The calls of OpenGL ES 1.1 that this profile has, with their numbers, arguments and names.
#![tactic(auto)]

mod arguments;
mod call;
mod debug;
mod error;
mod laws;
mod lookup;
mod making;
mod names;
mod shape;
mod table;

pub use arguments::{Arguments, arg_at, arguments_of};
pub use call::Call;
pub use error::GlError;
pub use laws::call_law;
pub use lookup::shape_of_name;
pub use making::{call_from, call_in, low_bits};
pub use names::{Name, names_by_length, number_of_enum};
pub use shape::{ArgKind, Shape};
pub use table::{TableRow, call_id, call_name, is_answering, row_numbered, row_of};
