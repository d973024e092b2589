//! Stores of files and sinks of results: what a command reads from and writes to. Those in memory tell their content
//! and can be made to fail; those of the outside, a folder and standard output, tell nothing.
#![tactic(auto)]

mod calls;
mod fault;
mod folder_store;
mod mem_sink;
mod mem_store;
mod out_sink;
mod replacing;
mod sink;
mod store;

pub use fault::StoreFault;
pub use folder_store::{FolderStore, MAX_FILE_LEN};
pub use mem_sink::MemSink;
pub use mem_store::MemStore;
pub use out_sink::OutSink;
pub use sink::Sink;
pub use store::Store;
