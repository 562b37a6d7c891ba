//! No files: for what is asked of bytes in memory alone.

use agent_inputs::{AgentFiles, Files, LoadFault, SharedFiles};
use byte_streams::{Failed, SliceSource};
use pcr_banks::{Alg, Digest};
use std::alloc::Global;

/// No files.
#[derive(Drop)]
pub struct NoFiles;

impl Files for NoFiles {
    type Src = SliceSource<'static>;

    fn source(&mut self, _name: Option<&str>) -> Result<SliceSource<'static>, Failed> {
        Err(Failed)
    }
}

impl AgentFiles for NoFiles {
    type Shared = NoFiles;

    fn replace(&mut self, _name: &str, _bytes: &[u8]) -> Result<(), Failed> {
        Err(Failed)
    }

    fn take_only_regular_files(&mut self) {}

    fn is_regular(&self, _name: &str) -> bool {
        false
    }

    fn shared(&self) -> &NoFiles {
        self
    }
}

impl SharedFiles for NoFiles {
    fn hash(
        &self,
        _alloc: Global,
        _name: &str,
        _alg: Alg,
        _limit: u64,
    ) -> Result<Digest, LoadFault> {
        Err(LoadFault::Source)
    }
}
