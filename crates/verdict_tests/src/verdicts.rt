//! Verdicts on lists from sources, texts, and the book of a real boot.

mod ample_memory;
mod attested;
mod pieces;
mod real_boot;
mod real_boot_book;
mod refusals;
mod rows;
mod sinks;
mod texts;
