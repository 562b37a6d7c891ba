//! The registers that a list alone makes.

ghost use Rattle.std.specs.Prelude.{◌≡◌, ◌⊎◌, List, is_some, IfOk, IfErr, IsErrOf, IsOkAnd};
ghost use Rattle.pcr_banks.specs.declared.alg.Alg.{Alg};
ghost use Rattle.pcr_banks.specs.Names.{has_alg};
ghost use Rattle.byte_streams.specs.Streams.{LosesPrefix};
ghost use Rattle.ima_list.specs.Names.{ListEntry};
ghost use Rattle.boot_verdict.specs.ListSources.{HoldsGenuineList, failures_after_list};
ghost use Rattle.boot_verdict.specs.Replays.{IsListReplay, IsListReplayFault, IsListReplayFrom, IsListStart, every_alg};

use crate::checkpoint::Checkpoint;
use crate::steps::Nobody;
use crate::verifier::VerifyFault;
use byte_streams::Source;
use pcr_banks::{Alg, AlgSet, Banks};
use std::alloc::Global;

/// The registers of all banks before a list: their reset values after a start from locality 0.
/// [`pcr_values::write_registers`] with these as `start` writes those that the list of [`replay_from`] changed.
pub fn list_start() -> Banks
    ensures { IsListStart result }
{
    Banks::new(every_alg(), 0)
}

// All known algorithms.
fn every_alg() -> AlgSet
    ensures { (a : Alg) → has_alg result a ≡ has_alg every_alg a }
{
    AlgSet::empty()
        .with(Alg::Sha1)
        .with(Alg::Sha256)
        .with(Alg::Sha384)
        .with(Alg::Sha512)
}

/// Replays a measurement list of at most `limit` bytes without a firmware event log: into the banks of all algorithms, from their
/// reset values after a start from locality 0 ([`list_start`]). Takes all that the source has left, and keeps no entry.
///
/// Fails with [`VerifyFault::List`] for bytes that are no list, and with [`VerifyFault::Replay`] for the first entry that is not
/// genuine, after the whole list was read; with [`VerifyFault::Source`] (the source failed) or [`VerifyFault::TooLong`] (more than
/// `limit` bytes came) only if the bytes before the failure, or the first `limit` bytes, read as a list or as a truncated one; or
/// with [`VerifyFault::Memory`].
pub fn replay_from<R: Source>(alloc: Global, list: &mut R, limit: u64) -> Result<Banks, VerifyFault>
    // The registers are those of the list that the source had left.
    ensures registers { IfOk result (IsListReplayFrom (R.state list.old).remaining (R.state list.new).remaining limit) }
    // A list of genuine entries within the limit is replayed, unless the source fails or memory runs out.
    ensures only { (entries : List ListEntry) → HoldsGenuineList (R.state list.old).remaining limit entries
        → IsErrOf result VerifyFault.Source ⊎ (IsErrOf result VerifyFault.Memory ⊎ IsOkAnd result (IsListReplay entries)) }
    // Any fault is the first reason.
    ensures fault { IfErr result (IsListReplayFault (R.state list.old).remaining (R.state list.new).remaining limit) }
    // In any case the source loses bytes from its start, and nothing else.
    ensures prefix { LosesPrefix (R.state list.old).remaining (R.state list.new).remaining }
    ensures telling { is_some (R.state list.new).remaining ≡ is_some (R.state list.old).remaining }
    ensures counts { (R.state list.new).failures ≡ failures_after_list result (R.state list.old).failures }
{
    let (known, _nobody) = Checkpoint::before_list(list_start()).go_on(alloc, list, limit, Nobody)?;
    Ok(known.after)
}
