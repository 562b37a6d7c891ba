//! The lines of a list's entries, as text and as JSON (RFC 8259).
//!
//! Each value of JSON is an object on one line, in UTF-8. Its members have a fixed order. Numbers are JSON numbers; digests and data are strings
//! of lower case hexadecimal digits. A line is appended to a vector of the caller's; [`send_entries`] sends the lines of a list to a sink, while
//! it is read.
#![tactic(auto)]

mod entries;
mod entry_lines;
mod kernel_fields;
pub mod laws;

pub use entries::{append_entry, append_entry_count};
pub use entry_lines::{EntriesFault, send_entries};
