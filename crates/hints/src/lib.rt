//! What a person is told beside the output: why a run failed, what to do next, and the progress of a measurement.
#![tactic(auto)]

mod escapes;
mod explanations;
mod fault_lines;
mod hcrtm;
mod hints;
mod matches;
mod old_aggregates;
mod progress;
mod reasons;
mod rejudge;
mod reread;
mod selections;
mod signing;
mod task_inputs;
mod wrong_input;

pub use escapes::escape;
pub use explanations::explanation;
pub use progress::{Audience, SystemProgress};
pub use rejudge::{hint_from_files, hint_on_failure};
