//! The progress of a measurement.

/// Receives the progress of a measurement, from several threads.
pub trait FileProgress: Sync {
    /// `files` of `all` files are done. Called by several threads at once, so a smaller number may come after a greater one.
    fn done(&self, files: u32, all: u32);

    /// The measurement has ended.
    fn ended(&self);
}
