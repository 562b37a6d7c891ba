//! The command line: what its arguments request.
#![tactic(auto)]

mod arguments;
mod command_table;
mod help_texts;
mod on_terminal;
mod values;

pub use arguments::{arguments_after_name, asks_quiet, color_choice, read_words, refusal_of};
pub use on_terminal::as_on_terminal;
