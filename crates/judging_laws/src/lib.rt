//! What an answer of `judging` tells: laws, each the contract of a function that does nothing.
#![tactic(auto)]

mod attested;
mod known;
mod quoted;
mod told;
mod verdicts;

pub use attested::answer_tells_attestation;
pub use known::successful_answer_has_known_entries;
pub use quoted::successful_answer_quotes_the_log;
pub use told::hcrtm_answer_is_on_the_told_log;
pub use verdicts::report_succeeds_by_its_verdict;
