//! The lines of a log's events: plain, with what the data says and what is confirmed of it, and as JSON (RFC 8259).
//!
//! As JSON each value is an object on one line, in UTF-8. Its members have a fixed order. Numbers are JSON numbers; digests and data are strings
//! of lower case hexadecimal digits. A line is appended to a vector of the caller's; [`send_events`] sends the lines of a log to a sink, while it
//! is read. Plain lines ([`write_events`]) take no memory that is not given back.
#![tactic(auto)]

mod brief;
mod certificates;
mod contents;
mod event_lines;
mod events;
pub mod laws;
mod marks;
mod plain_events;
mod register_names;
mod steering;
mod values;

pub use contents::{command_word, show_content, show_form, write_wide};
pub use event_lines::{EventsFault, send_events};
pub use events::{append_event, append_header};
pub use plain_events::{write_declared, write_event_head, write_events};
pub use register_names::{register_name, show_register};
pub use steering::append_embedded;
