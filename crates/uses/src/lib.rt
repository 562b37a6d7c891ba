//! Short uses of the libraries, as a caller would write them. The pages quote them.
#![tactic(auto)]

mod book;
mod fault;
mod register;
mod verdict;
mod workers;

pub use book::{measurement, origin_after, share_book};
pub use fault::UseFault;
pub use register::boot_manager_register;
pub use verdict::registers_match;
pub use workers::measure_by_four;
