//! The verdict on a firmware log, a measurement list and expected registers; how a verification goes on from where it stopped; where
//! registers first have their expected values.
#![tactic(auto)]

mod aggregate_rule;
mod checkpoint;
mod isolation;
mod kept;
pub mod laws;
mod list_registers;
mod list_replay;
mod list_verifier;
mod location;
mod report;
mod requirement;
mod steps;
mod told;
mod verifier;
mod watched;

pub use aggregate_rule::{AggregateRule, aggregate_with, is_of_old_kernel};
pub use checkpoint::{Checkpoint, CheckpointFault, ResumeFault};
pub use isolation::{LIST_REGISTER, Stray, Strays, first_extending};
pub use list_registers::{list_start, replay_from};
pub use list_replay::{ListReplay, recorded_in};
pub use list_verifier::{ListReport, verify_list_from};
pub use location::{locate, locate_from};
pub use report::{Aggregate, PrefixReport, Report, Row, State, Unconfirmed, aggregate_word};
pub use requirement::{HasExpected, Requirement};
pub use steps::{Located, Nobody, Position, Step, Tracker, all_found, is_reached, required_found};
pub use told::{recorded_by_any, told_in};
pub use verifier::{VerifyFault, aggregate_of, report_on, verify, verify_from};
pub use watched::{Replayed, verify_watched};
