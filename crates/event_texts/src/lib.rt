//! What the data of a firmware event says, as text: numbers, GUIDs, texts in UTF-16, and device paths.
#![tactic(auto)]

mod bytes;
mod node_row;
mod paths;

pub use bytes::{guid_text, hex_number, wide_text};
pub use paths::path_text;
