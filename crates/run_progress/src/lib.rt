//! Who is told of the progress of a run, and of its failures.
#![tactic(auto)]

mod progress;

pub use progress::{Failure, Listener, NoProgress, Progress};
