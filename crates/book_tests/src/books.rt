//! Worked examples, and what they are made of. Each allocation is refused in turn in the tests of one module, and those of another
//! want all their memory.

mod ample_memory;
mod deeds;
mod each_allocation_refused;
mod threads;
