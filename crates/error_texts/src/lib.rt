//! Errors in words, from one table: for the kind and the number of an error, what is wrong and what to do. `docs/errors.txt` has the same rows.
#![tactic(auto)]

mod keys;
pub mod laws;
mod logs;
mod measuring;
mod quotes;
mod table;
mod texts;
mod values;

pub use table::{Sentence, sentence_of};
pub use texts::error_text;
