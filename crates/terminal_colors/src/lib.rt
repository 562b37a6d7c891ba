//! Colours for reports on a terminal: sequences of ECMA-48 around the words that say how a comparison ended.
//!
//! Colours say nothing that the words do not: without the sequences the text is the same.
#![tactic(auto)]

mod choice;
mod color_sink;
pub mod laws;
mod lines;
mod states;

pub use choice::{ColorChoice, is_colored};
pub use color_sink::ColorSink;
pub use lines::send_colored;
pub use states::State;
