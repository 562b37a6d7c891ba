//! The answers of the program, each described once ([`cells`]): reports, positions, registers, and what is told of a key. Texts of reports and
//! positions can also be sent while they are made, which takes no memory.
#![tactic(auto)]

mod attestation;
mod keys;
pub mod laws;
mod list_report;
mod position_texts;
mod positions;
mod prefix;
mod quoted;
mod registers;
mod report;
mod report_texts;
mod row_order;
mod rows;

pub use attestation::show_attestation;
pub use keys::show_key;
pub use list_report::show_list_report;
pub use position_texts::write_positions;
pub use positions::{finds, show_positions};
pub use prefix::show_prefix;
pub use registers::{show_expected, show_registers};
pub use report::show_report;
pub use report_texts::write_report;
pub use row_order::RowOrder;
