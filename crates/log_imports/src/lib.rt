//! Firmware logs in other forms, turned into a crypto-agile log: logs with padding behind their last event, and logs in the SHA-1 form. And logs
//! of machines that an H-CRTM started, which then state it.
#![tactic(auto)]

mod fault;
mod imports;
pub mod laws;
mod padding;
mod sha1_form;
mod sha1_log;
mod starts;

pub use fault::LogImportFault;
pub use imports::{ImportedLog, log_of};
pub use starts::told_log;
