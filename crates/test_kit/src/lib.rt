//! What the tests of several crates share: calls that are made once more where an allocation was refused, bytes that are joined,
//! devices that fail, samples, and what is made of them.
#![tactic(auto)]

mod again;
pub mod books;
pub mod devices;
pub mod lists;
pub mod logs;
pub mod registers;
pub mod samples;
pub mod sinks;

pub use again::{copied, joined, once_more, repeated};
