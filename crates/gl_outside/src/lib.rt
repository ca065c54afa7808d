//! What the program reads, writes and puts: a source, a sink and a shelf, in memory and outside.
#![tactic(auto)]

mod call_plan;
mod error;
mod file;
mod folder_shelf;
mod memory_shelf;
mod memory_sink;
mod memory_source;
mod reading;
mod shelf;
mod sink;
mod source;
mod stdin_source;
mod stdout_sink;
mod sure_shelf;
mod sure_sink;
mod sure_source;
mod writing;

pub use error::{Failed, OutError, ReadError};
pub use folder_shelf::FolderShelf;
pub use memory_shelf::MemoryShelf;
pub use memory_sink::MemorySink;
pub use memory_source::MemorySource;
pub use reading::read_up_to;
pub use shelf::Shelf;
pub use sink::Sink;
pub use source::Source;
pub use stdin_source::StdinSource;
pub use stdout_sink::StdoutSink;
pub use sure_shelf::SureShelf;
pub use sure_sink::SureSink;
pub use sure_source::SureSource;
pub use writing::write_all;
