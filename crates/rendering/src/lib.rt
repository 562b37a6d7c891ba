//! The outputs of answers, as text or JSON, of files or of bytes in memory; and the line of a fault.
#![tactic(auto)]

mod fault_lines;
mod json_faults;
pub mod laws;
mod no_files;
mod outputs;
mod printed_lists;
mod summary;
mod summary_lines;

pub use fault_lines::{memory_line, status_of, write_fault};
pub use json_faults::{json_fault_line, json_memory_line};
pub use no_files::NoFiles;
pub use outputs::{Output, Rendered, output_for, output_on, render, shown_as, status_of_answer};
pub use printed_lists::print_measured;
pub use summary::{Outcome, Reason, Summary};
pub use summary_lines::summary_line;
