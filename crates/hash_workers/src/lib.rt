//! Several workers hash files in parallel, and record them in one book. Each job has one outcome, whatever the schedule.
#![tactic(auto)]

mod batch;
mod claims;
mod fan;
mod fault;
mod gate;
mod job;
mod jobs;
mod recorder;
mod scatter;
mod work;

pub use batch::{Batch, measure_files, record_jobs};
pub use claims::{ClaimSeat, Claims};
pub use fault::{AgentFault, JobFault, JobsFault};
pub use gate::{Gate, NoGate};
pub use job::{Job, op_of};
pub use jobs::Jobs;
