//! The outside of the desk: files to read, a sink of the printed text, a folder for files to write and folders to make,
//! in memory and real, and what the desk may believe of them.
//!
//! Any call of the outside may fail. What an object holds is said by the ghost functions of its
//! trait, as `files` of a file source.
//!
//! - [`FileSource`], [`Sink`] and [`Folder`] are the files to read, the printed text and the files
//!   to write. A folder says whether a name is free for a folder, and makes one, in which it then
//!   writes.
//! - [`load`] reads a whole file, up to a limit; [`send`] and [`write_all`] write all of a text.
//! - [`MemoryFiles`], [`MemorySink`] and [`MemoryFolder`] make known all that they hold, and fail
//!   at chosen calls alone. A `Box<dyn Folder>` is a folder.
//! - [`RealFiles`], [`StdoutSink`] and [`FileFolder`] are the system's. Nothing is known of their
//!   content. What takes long they tell on standard error, where it is a terminal.
//!
//! Promises: `load` gives the file, `send` gives all bytes; a folder says which names it has begun;
//! each fault that is answered was one: the object's error count increased in that call.
#![tactic(auto)]

mod boxed_folder;
mod failure;
mod fault_plan;
mod file_folder;
mod file_source;
mod folder;
mod free_name;
mod held_file;
mod made_folder;
mod memory;
mod memory_folder;
mod memory_series;
mod progress;
mod real_files;
mod sink;
mod transfer;

pub use failure::{CannotWrite, Failed, LoadRefusal, OutsideFault};
pub use fault_plan::PlannedFaults;
pub use file_folder::FileFolder;
pub use file_source::FileSource;
pub use folder::Folder;
pub use free_name::folder_path;
pub use held_file::HeldFile;
pub use memory::{MemoryFiles, MemorySink};
pub use memory_folder::MemoryFolder;
pub use progress::ProgressLine;
pub use real_files::{RealFiles, StdoutSink};
pub use sink::Sink;
pub use transfer::{load, send, write_all};
