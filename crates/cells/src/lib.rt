//! Cells: parts of a result, each described once for text and for JSON. What shows a cell writes either form ([`CellWriter`]).
//! Lines of JSON alone have writers of their parts, as [`write_text`]: a line is begun ([`begin_line`]), written and ended ([`end_line`]).
#![tactic(auto)]

mod json_lines;
mod members;
mod shown;
mod writer;

pub use json_lines::{begin_line, end_line, send_line};
pub use members::{write_flag, write_hex, write_number, write_shown, write_text};
pub use shown::{Shown, append, render};
pub use writer::{CellWriter, Form, Written};
