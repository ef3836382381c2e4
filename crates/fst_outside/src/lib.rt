//! The outside: where a file's bytes come from, and where a text goes.
#![tactic(auto)]

mod fault;
mod file;
mod folder_shelf;
mod memory_shelf;
mod memory_sink;
mod out_sink;
mod shelf;
mod sink;
mod steady_shelf;
mod steady_sink;

pub use fault::{FetchFault, PutFault};
pub use file::File;
pub use folder_shelf::FolderShelf;
pub use memory_shelf::MemoryShelf;
pub use memory_sink::{Fail, MemorySink};
pub use out_sink::OutSink;
pub use shelf::Shelf;
pub use sink::Sink;
pub use steady_shelf::SteadyShelf;
pub use steady_sink::SteadySink;
