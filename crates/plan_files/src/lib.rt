//! Files and sinks as the planning chain sees them: what each call answers and leaves, with counts
//! of faults.
#![tactic(auto)]

mod again;
mod apply;
mod behind;
mod fault_plan;
mod faults;
mod file_fault;
mod folder_files;
mod memory_files;
mod memory_sink;
mod name;
mod place;
mod read;
mod sink;
mod sink_fault;
mod std_sink;
mod steady_files;
mod steady_sink;
mod store;
mod trouble;
mod write;

pub use apply::apply_all;
pub use file_fault::FileFault;
pub use folder_files::FolderFiles;
pub use memory_files::MemoryFiles;
pub use memory_sink::MemorySink;
pub use name::Name;
pub use sink::Sink;
pub use sink_fault::SinkFault;
pub use std_sink::StdSink;
pub use steady_files::SteadyFiles;
pub use steady_sink::SteadySink;
pub use store::{Files, Got};
pub use trouble::Failure;
pub use write::Write;
