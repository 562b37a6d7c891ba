//! Which files of a measurement list are known, by the digests that `sha256sum` and its kind print.
//!
//! [`ListedFiles`] takes the texts, [`KnownFiles`] answers whether an entry is known, and [`UnknownEntries`] collects the numbers of those
//! that are not, as a list is replayed.
#![tactic(auto)]

mod digest_line;
mod fault;
mod known;
pub mod laws;
mod listed;
mod sorted;
mod text_lines;
mod unknown;

pub use digest_line::digest_on;
pub use fault::KnownFault;
pub use known::KnownFiles;
pub use listed::ListedFiles;
pub use unknown::{UnknownEntries, UnknownFiles, has_no_unknown};
