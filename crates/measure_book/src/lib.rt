//! The book of a measuring agent. An operation on it is a measurement, a violation or a read of a register. It appends one
//! record, and is answered as if its caller were the only one. The book's list can be exported; replayed from the registers at
//! the start, it gives the book's registers.
#![tactic(auto)]

mod answers;
mod book;
mod export;
mod fault;
mod gathers;
pub mod laws;
mod op;
mod origin;
mod payload_key;
mod refusals;

pub use book::Book;
pub use export::ExportFault;
pub use fault::BookFault;
pub use gathers::{GatherFault, gather};
pub use op::{Answer, Op, Outcome, Receipt, Record};
pub use origin::Origin;
