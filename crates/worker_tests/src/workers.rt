//! Worked examples, and what they are made of. Each allocation is refused in turn in the tests of one module.

mod ample_memory;
mod claims;
mod each_allocation_refused;
mod first_fault;
mod numbered;
mod overlap;
mod tasks;
mod told;
