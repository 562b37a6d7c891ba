//! The texts of checkpoints.

mod checkpoint;

pub use checkpoint::write_checkpoint;
