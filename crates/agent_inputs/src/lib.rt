//! The inputs of the program: its files and its standard input, loaded whole or hashed as they are read; and why the program fails.
#![tactic(auto)]

mod fault;
mod files;
mod opening;
mod source_hash;
mod system;

pub use fault::{FaultHead, FaultKind, NotResumed, RunFault};
pub use files::{
    AgentFiles, Files, INPUT_LIMIT, LoadFault, STANDARD_INPUT, SharedFiles, load, load_input,
    not_read, not_utf8, not_written, read_through, too_long,
};
pub use opening::{load_log, opened_name, replayed};
pub use source_hash::hash_from;
pub use system::{OpenInput, ReadSource, SystemFiles, WriteSink, is_regular};
