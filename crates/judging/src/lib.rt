//! The answers to what is asked of logs and lists, in files or in memory.
#![tactic(auto)]

mod answers;
mod attesting;
mod inputs;
mod keys;
mod printed_registers;
mod queries;
mod registers;
mod request;
mod sessions;
mod signing;
mod whole_verdicts;

pub use answers::answer_request;
pub use inputs::{Held, Input, load_at};
pub use queries::{attesting_by, input_named, known_inputs, log_input, request_of, save_of};
pub use request::{
    Answer, Answered, AttestRequest, Comparison, Registers, ReportKind, Request, Required, Signing,
    on_prefix,
};
