//! What comes of an output: its status, or why it was not sent to its end.

use agent_inputs::RunFault;
use byte_streams::Failed;
use rendering::Output;

/// The exit status of success.
pub(crate) const DONE: u8 = 0;

/// Why an output was not sent to its end.
#[derive(Debug, Drop)]
pub(crate) enum StreamFault {
    /// The sink failed.
    Sink(Failed),
    /// The run failed after what was sent.
    Run(RunFault),
}

/// The status of an output that was sent.
pub(crate) type Sent = Result<u8, StreamFault>;

/// An output that is prepared whole.
pub(crate) type Prepared = Result<Output, RunFault>;
