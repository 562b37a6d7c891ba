//! Where a verification stopped, how it goes on, and why it does not.

ghost use Rattle.std.specs.Prelude.{◌≡◌, ◌+◌, ◌^◌, ◌<◌, ℕ, is_some, List, [], length, Ok, IsOk, IfOk, IfErr, IsErrOf};
ghost use Rattle.byte_streams.specs.Streams.{LosesPrefix};
ghost use Rattle.ima_list.specs.Names.{AreGenuine, IsReading, ListEntry};
ghost use Rattle.boot_verdict.specs.ListSources.{failures_after_list};
ghost use Rattle.boot_verdict.specs.Tracking.{BanksAfter};
ghost use Rattle.boot_verdict.specs.ListReplays.{AreTracked, ReplaysAll};
ghost use Rattle.boot_verdict.specs.Verdicts.{ReadsAsLog, IsVerifyFault};
ghost use Rattle.boot_verdict.specs.Checkpoints.{GoesOn, IsCheckpoint, IsMoreFault, WatchesOn, most_after};
ghost use Rattle.boot_verdict.specs.declared.checkpoint.CheckpointFault.TheVariants.{Memory};

use crate::isolation::Stray;
use crate::list_replay::ListReplay;
use crate::steps::Tracker;
use crate::verifier::VerifyFault;
use boot_log::LogFault;
use byte_streams::Source;
use pcr_banks::{Banks, Digest};
use std::alloc::{AllocError, Global};
use thiserror::Error;

/// The most bytes that a list may have.
const MOST_BYTES: u64 = (1 << 63) - 1;

/// Where a verification stopped: what is needed to go on with the bytes that follow. A caller may make any; what a call says of one holds
/// if it is that of a list.
#[derive(Clone, Copy)]
pub struct Checkpoint {
    /// The registers before the list's first entry.
    pub before: Banks,
    /// The registers after its entries.
    pub after: Banks,
    /// How many entries the list had.
    pub entries: usize,
    /// How many bytes it had.
    pub bytes: u64,
    /// The boot aggregate that its first entry records, if any.
    pub recorded: Option<Digest>,
    /// The boot aggregate that its first entry records by another of the kernel's templates, if any.
    pub told: Option<Digest>,
    /// The first of its entries that extends another register than that of the list, if any.
    pub stray: Option<Stray>,
}

impl Checkpoint {
    /// The checkpoint before a list's first entry, where these are the registers.
    pub fn before_list(registers: Banks) -> Self
        ensures checkpoint { IsCheckpoint [] result }
        ensures before { result.before ≡ registers }
        ensures entries { result.entries ≡ 0 }
        ensures bytes { result.bytes ≡ 0 }
    {
        Checkpoint::after(registers, ListReplay::new(registers), 0)
    }

    /// The checkpoint after a whole list in memory, which begins with these registers. Fails with the fault of the list.
    pub fn of_list(registers: Banks, list: &[u8]) -> Result<Checkpoint, VerifyFault>
        ensures known { IfOk result (IsCheckpoint list.now) }
        ensures before { IfOk result (λ known. known.before ≡ registers) }
        ensures only { (entries : List ListEntry) → IsReading list.now (Ok entries) → AreGenuine entries → IsOk result }
        ensures fault { IfErr result (λ fault. (log : List ℕ) → ReadsAsLog log → IsVerifyFault log list.now fault) }
        ensures memory { IsErrOf result VerifyFault.Memory → ⊥ }
    {
        let replay = ListReplay::of_list(registers, list)?;
        Ok(Checkpoint::after(registers, replay, list.len() as u64))
    }

    /// The checkpoint after all that the source has left, at most `limit` bytes, as what follows the list. The entries so far and `limit`
    /// must be below 2^64 together, and so must the bytes so far and `limit`: see [`Checkpoint::room`]. `watch` takes the new entries, and
    /// is returned.
    ///
    /// Fails as [`crate::verify_from`] does of the whole list, but never with [`VerifyFault::Log`].
    pub fn go_on<R: Source, W: Tracker>(
        &self,
        alloc: Global,
        source: &mut R,
        limit: u64,
        watch: W,
    ) -> Result<(Checkpoint, W), VerifyFault>
        requires entries { self.now.entries + limit < 2 ^ 64 }
        requires bytes { self.now.bytes + limit < 2 ^ 64 }
        ensures known { IfOk result (λ next. (list : List ℕ) → IsCheckpoint list self.now
            → GoesOn list (R.state source.old).remaining (R.state source.new).remaining limit next.0) }
        ensures watched { IfOk result (λ next. (start : W) (list : List ℕ) (known : IsCheckpoint list self.now)
            → AreTracked W.is_after start known.entries watch
            → WatchesOn W.is_after start list (R.state source.old).remaining (R.state source.new).remaining limit next.0 next.1) }
        ensures before { IfOk result (λ next. next.0.before ≡ self.now.before) }
        ensures fault { IfErr result (λ fault. (list : List ℕ) → IsCheckpoint list self.now
            → IsMoreFault list (R.state source.old).remaining (R.state source.new).remaining limit fault) }
        ensures prefix { LosesPrefix (R.state source.old).remaining (R.state source.new).remaining }
        ensures telling { is_some (R.state source.new).remaining ≡ is_some (R.state source.old).remaining }
        ensures counts { (R.state source.new).failures ≡ failures_after_list result (R.state source.old).failures }
    {
        let mut replay = self.replay();
        let mut watch = watch;
        let count = replay.replay_more(alloc, source, limit, &mut watch)?;
        let next = Checkpoint::after(self.before, replay, self.bytes + count);
        Ok((next, watch))
    }

    // The checkpoint after a list of so many bytes, which was replayed from these registers.
    fn after(before: Banks, replay: ListReplay<Banks>, bytes: u64) -> Checkpoint
        ensures known { (list : List ℕ) (all : ReplaysAll BanksAfter before list replay) → bytes ≡ length list
            → (known : IsCheckpoint list result) × (known.entries ≡ all.entries) }
        ensures before { result.before ≡ before }
        ensures entries { result.entries ≡ replay.entries }
        ensures bytes { result.bytes ≡ bytes }
    {
        Checkpoint {
            before,
            after: replay.tracker,
            entries: replay.entries,
            bytes,
            recorded: replay.recorded,
            told: replay.told,
            stray: replay.stray,
        }
    }

    // The replay of the list.
    fn replay(&self) -> ListReplay<Banks>
        ensures replays { (list : List ℕ) (known : IsCheckpoint list self.now) → (all : ReplaysAll BanksAfter self.now.before list result)
            × (all.entries ≡ known.entries) }
        ensures entries { result.entries ≡ self.now.entries }
    {
        ListReplay {
            tracker: self.after,
            entries: self.entries,
            recorded: self.recorded,
            told: self.told,
            stray: self.stray,
            forged: None,
        }
    }

    /// How many bytes may follow, where `limit` are allowed.
    pub fn room(&self, limit: u64) -> u64
        ensures room { result ≡ most_after self.now limit }
        ensures entries { self.now.entries + result < 2 ^ 64 }
        ensures bytes { self.now.bytes + result < 2 ^ 64 }
    {
        let known = self.bytes.max(self.entries as u64);
        let _entries = self.entries;
        limit.min(MOST_BYTES.saturating_sub(known))
    }
}

/// Why a text is not read as a checkpoint.
#[derive(Clone, Copy, Debug, PartialEq, Eq, Error)]
pub enum CheckpointFault {
    /// The text begins as that of a checkpoint does, but has another version.
    #[error("the checkpoint is of another version")]
    Version,
    /// It is not the text of a checkpoint, or it was damaged.
    #[error("the text is not a whole checkpoint, as it was saved")]
    Damaged,
    /// Out of memory.
    #[error("out of memory")]
    Memory,
}

impl From<AllocError> for CheckpointFault {
    ghost from_gives = { λ _ fault. fault ≡ Memory };

    fn from(_refused: AllocError) -> CheckpointFault {
        CheckpointFault::Memory
    }
}

/// Why a session does not go on from a checkpoint.
#[derive(Clone, Copy, Debug, PartialEq, Eq, Error)]
pub enum ResumeFault {
    /// The log is invalid.
    #[error("the log is invalid: {0}")]
    Log(LogFault),
    /// The checkpoint is of another boot: the log leaves other registers than those before its list.
    #[error("the checkpoint is of another boot: the log's registers are not those it began from")]
    OtherBoot,
}
