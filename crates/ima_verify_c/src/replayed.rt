//! The log that is replayed.

ghost use Rattle.std.specs.Prelude.{◌≡◌, true, IfErr, IfOk};
ghost use Rattle.agent_inputs.specs.Opening.{replayed};
ghost use Rattle.agent_inputs.specs.declared.fault.RunFault.TheVariants.{Memory};
ghost use Rattle.ima_verify_c.specs.Requests.{replayed_bytes};

use agent_inputs::{RunFault, replayed};
use std::alloc::{AllocError, Global};

/// The log that is replayed.
#[derive(Drop)]
pub(crate) enum Replayed<'a> {
    /// The caller's.
    Given(&'a [u8]),
    /// The caller's, with what its H-CRTM event tells.
    Told(Vec<u8>),
}

impl Replayed<'_> {
    /// Its bytes.
    pub(crate) fn bytes(&self) -> &[u8]
        ensures { result.now ≡ replayed_bytes self.now }
    {
        match self {
            Replayed::Given(bytes) => bytes,
            Replayed::Told(bytes) => bytes,
        }
    }
}

/// What is replayed of a log: the log as it stands, or with `hcrtm` with what its H-CRTM event tells of where the machine started.
pub(crate) fn replayed_in(alloc: Global, log: &[u8], hcrtm: bool) -> Result<Replayed<'_>, RunFault>
    ensures log { IfOk result (λ log_replayed. replayed_bytes log_replayed ≡ replayed hcrtm log.now) }
    ensures fault { IfErr result (λ fault. fault ≡ Memory) }
{
    if !hcrtm {
        return Ok(Replayed::Given(log));
    }
    match told(alloc, log) {
        Ok(log) => Ok(Replayed::Told(log)),
        Err(AllocError) => Err(RunFault::Memory),
    }
}

// The log with what its H-CRTM event tells.
fn told(alloc: Global, log: &[u8]) -> Result<Vec<u8>, AllocError>
    ensures { IfOk result (λ told. told.items ≡ replayed true log.now) }
{
    replayed(Vec::from_slice(alloc, log)?, true)
}
