//! The answers on a machine's boot as lines of text or JSON: what crate `boot_answers` tells of its log and the registers that match.
//!
//! An answer is given where each bank that answers for its register gives it (`measured_data::is_answering`), and there is one; else it is
//! `unknown`. What a line has under `claimed` nothing confirms, nor anything where no registers were compared.
#![tactic(auto)]

mod answering_banks;
mod boot_lines;
mod claims;
mod commands;
mod difference_lines;
mod differences;
mod images;
pub mod laws;
mod policies;
mod variables;

pub use boot_lines::append_boot;
pub use differences::append_differences;
