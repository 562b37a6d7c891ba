//! What confirms the data of a firmware event log, in files or in memory: the registers that match after the log, and what they answer on the
//! machine's boot.
#![tactic(auto)]

mod boot;
mod confirmation;
pub mod laws;
mod matches;
mod places;
mod quoted;

pub use boot::boot_on;
pub use confirmation::{Confirming, Matched, matching_in};
pub use places::{read_matching, write_matching};
