//! Measures files into the registers of a log, into a book that several workers share.
#![tactic(auto)]

mod file_book;
mod measurement;
mod name_list;
mod named_files;
mod progress;

pub use file_book::Measured;
pub use measurement::measure;
pub use progress::FileProgress;
