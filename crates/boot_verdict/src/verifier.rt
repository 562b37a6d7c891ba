//! The verdict on a firmware event log, a measurement list and expected registers.

ghost use Rattle.std.specs.Prelude.{◌≡◌, ◌⊎◌, ℕ, List, Option, map, option_map, is_some, Ok, IfOk, IfErr, IsErrOf};
ghost use Rattle.pcr_banks.specs.declared.sets.AlgSet.{AlgSet};
ghost use Rattle.pcr_banks.specs.Names.{alg_of, bytes_of, digest_of};
ghost use Rattle.byte_fields.specs.Reading.{ReadsInMemory};
ghost use Rattle.byte_streams.specs.Streams.{LosesPrefix};
ghost use Rattle.boot_log.specs.declared.header.DeclaredAlgorithm.{DeclaredAlgorithm};
ghost use Rattle.boot_log.specs.Names.{IsFirmware, IsLog, LogEvent, algs_in, log_bytes};
ghost use Rattle.ima_list.specs.Names.{AreGenuine, IsReading, ListEntry};
ghost use Rattle.boot_verdict.specs.declared.verifier.VerifyFault.TheVariants.{Memory, Replay};
ghost use Rattle.boot_verdict.specs.Verdicts.{HasSomethingToKeep, ReadsAsLog, IsVerdict, IsVerdictFrom, IsVerifyFault, IsVerifyFaultFrom, aggregate_of, aggregate_state, fault_of_list, fault_of_log, fault_of_reading, row_state, verdict_of, verdict_on, verdict_under};
ghost use Rattle.boot_verdict.specs.parts.Kept.{HaveSame};
ghost use Rattle.boot_verdict.specs.parts.Rows.{row_of};
ghost use Rattle.boot_verdict.specs.ListSources.{HoldsGenuineList, failures_after_list};
ghost use Rattle.boot_verdict.specs.Checkpoints.{IsCheckpoint};

use crate::aggregate_rule::{AggregateRule, aggregate_with};
use crate::checkpoint::Checkpoint;
use crate::isolation::{Strays, first_extending};
use crate::kept::banks_for;
use crate::report::{Aggregate, Report, Row, State};
use crate::steps::Nobody;
use boot_log::{LogFault, LogView};
use byte_streams::{ReadFault, Source};
use ima_list::{ListFault, ReplayFault, boot_aggregate};
use pcr_banks::{Banks, Digest};
use pcr_values::Expected;
use std::alloc::{AllocError, Global};
use thiserror::Error;

/// Why there is no verdict.
#[derive(Clone, Copy, Debug, PartialEq, Eq, Error)]
pub enum VerifyFault {
    /// The log is not a firmware event log.
    #[error("the log is refused: {0}")]
    Log(LogFault),
    /// The list is not a measurement list.
    #[error("the list is refused: {0}")]
    List(ListFault),
    /// An entry of the list is not genuine.
    #[error("the list is not genuine: {0}")]
    Replay(ReplayFault),
    /// The source of the list failed.
    #[error("the source of the list failed")]
    Source,
    /// The list has more than `limit` bytes.
    #[error("the list is too long")]
    TooLong,
    /// Out of memory.
    #[error("out of memory")]
    Memory,
}

impl From<LogFault> for VerifyFault {
    ghost from_gives = { λ log_fault fault. fault ≡ fault_of_log log_fault };

    fn from(fault: LogFault) -> Self {
        match fault {
            LogFault::Memory => VerifyFault::Memory,
            other => VerifyFault::Log(other),
        }
    }
}

impl From<ListFault> for VerifyFault {
    ghost from_gives = { λ list_fault fault. fault ≡ fault_of_list list_fault };

    fn from(fault: ListFault) -> Self {
        match fault {
            ListFault::Memory => VerifyFault::Memory,
            other => VerifyFault::List(other),
        }
    }
}

impl From<ReplayFault> for VerifyFault {
    ghost from_gives = { λ replay_fault fault. fault ≡ Replay replay_fault };

    fn from(fault: ReplayFault) -> Self {
        VerifyFault::Replay(fault)
    }
}

impl From<ReadFault> for VerifyFault {
    ghost from_gives = { λ read_fault fault. fault ≡ fault_of_reading read_fault };

    fn from(fault: ReadFault) -> Self {
        match fault {
            ReadFault::Source => VerifyFault::Source,
            ReadFault::Memory => VerifyFault::Memory,
        }
    }
}

impl From<AllocError> for VerifyFault {
    ghost from_gives = { λ _ fault. fault ≡ Memory };

    fn from(_refused: AllocError) -> Self {
        VerifyFault::Memory
    }
}

/// Replays a firmware event log and then a measurement list, and compares the registers with the expected ones, in their order.
///
/// Fails with the first fault of the log, else of the list, else with [`VerifyFault::Replay`] for the first entry that is not
/// genuine: neither a violation nor one with the template digest of its own bytes. [`VerifyFault::Memory`] is possible only if
/// the log and the list are valid and all entries genuine.
pub fn verify(
    alloc: Global,
    log: &[u8],
    list: &[u8],
    expected: &[Expected],
) -> Result<Report, VerifyFault>
    // The report is the verdict on the log, the list and the expected registers.
    ensures report { IfOk result (λ report. IsVerdict log.now list.now expected.now (verdict_of report)) }
    // If the log and the list are valid and all entries genuine, there is a report, unless memory runs out.
    ensures only { (table : List DeclaredAlgorithm) (events : List LogEvent) (entries : List ListEntry)
        → IsLog log.now table events → IsReading list.now (Ok entries) → AreGenuine entries
        → ReadsInMemory VerifyFault.Memory verdict_of result (Ok (verdict_on (algs_in table) events entries expected.now)) }
    // Any other fault is the first reason.
    ensures fault { IfErr result (IsVerifyFault log.now list.now) }
    ensures memory { IsErrOf result VerifyFault.Memory → HasSomethingToKeep log.now list.now }
{
    let log = LogView::new(log)?;
    let start = log.registers();
    let known = Checkpoint::of_list(banks_for(&start, expected), list)?;
    Ok(report_after(alloc, &log, &start, &known, expected, AggregateRule::PLAIN)?)
}

/// As [`verify`], for a list of at most `limit` bytes that is read from a source. Each entry is replayed as its bytes arrive;
/// none is kept. A fault of the log is returned before anything is read from the source, and [`VerifyFault::Replay`] only after
/// the whole list was read.
///
/// [`VerifyFault::Source`] (the source failed) and [`VerifyFault::TooLong`] (more than `limit` bytes came) are returned only if
/// the bytes before the failure, or the first `limit` bytes, read as a list or as a truncated one.
pub fn verify_from<R: Source>(
    alloc: Global,
    log: &[u8],
    list: &mut R,
    limit: u64,
    expected: &[Expected],
) -> Result<Report, VerifyFault>
    // The report is the verdict on the log, all bytes that the source had left, and the expected registers.
    ensures report { IfOk result (λ report. IsVerdictFrom log.now (R.state list.old).remaining (R.state list.new).remaining limit expected.now (verdict_of report)) }
    // If the log is valid and the source has left a list of genuine entries within the limit, there is a report, unless the
    // source fails or memory runs out.
    ensures only { (table : List DeclaredAlgorithm) (events : List LogEvent) (entries : List ListEntry)
        → IsLog log.now table events → HoldsGenuineList (R.state list.old).remaining limit entries
        → IsErrOf result VerifyFault.Source
        ⊎ ReadsInMemory VerifyFault.Memory verdict_of result (Ok (verdict_on (algs_in table) events entries expected.now)) }
    // Any fault is the first reason.
    ensures fault { IfErr result (IsVerifyFaultFrom log.now (R.state list.old).remaining (R.state list.new).remaining limit) }
    ensures memory { IsErrOf result VerifyFault.Memory → ReadsAsLog log.now }
    // In any case the source loses bytes from its start, and nothing else.
    ensures prefix { LosesPrefix (R.state list.old).remaining (R.state list.new).remaining }
    ensures telling { is_some (R.state list.new).remaining ≡ is_some (R.state list.old).remaining }
    ensures counts { (R.state list.new).failures ≡ failures_after_list result (R.state list.old).failures }
{
    let firmware = LogView::new(log)?;
    let start = firmware.registers();
    let first = Checkpoint::before_list(banks_for(&start, expected));
    let (known, _nobody) = first.go_on(alloc, list, limit, Nobody)?;
    Ok(report_after(
        alloc,
        &firmware,
        &start,
        &known,
        expected,
        AggregateRule::PLAIN,
    )?)
}

/// The report by this rule on a log and on the list of a checkpoint. Fails only if memory runs out.
///
/// Nothing is compared here: if the log leaves other registers than those before the checkpoint's list, or it is the checkpoint of no
/// list, the report says nothing. A session (of `growing_lists`) compares the registers before it goes on.
pub fn report_on(
    alloc: Global,
    log: &LogView<'_>,
    known: &Checkpoint,
    expected: &[Expected],
    rule: AggregateRule,
) -> Result<Report, AllocError>
    ensures { IfOk result (λ report. (table : List DeclaredAlgorithm) (events : List LogEvent) (list : List ℕ) → IsLog (log_bytes log.now) table events
        → IsFirmware (algs_in table) events known.now.before → (is : IsCheckpoint list known.now)
        → verdict_of report ≡ verdict_under rule (algs_in table) events is.entries expected.now) }
{
    report_after(alloc, log, &known.before, known, expected, rule)
}

/// As [`report_on`], where the log leaves these registers, and the checkpoint has the banks of the expected ones.
pub(crate) fn report_after(
    alloc: Global,
    log: &LogView<'_>,
    start: &Banks,
    known: &Checkpoint,
    expected: &[Expected],
    rule: AggregateRule,
) -> Result<Report, AllocError>
    ensures { IfOk result (λ report. (table : List DeclaredAlgorithm) (events : List LogEvent) (list : List ℕ) → IsLog (log_bytes log.now) table events
        → IsFirmware (algs_in table) events start.now → HaveSame expected.now known.now.before start.now → (is : IsCheckpoint list known.now)
        → verdict_of report ≡ verdict_under rule (algs_in table) events is.entries expected.now) }
{
    Ok(Report {
        events: log.count(),
        locality: log.locality(),
        entries: known.entries,
        aggregate: aggregate_with(rule, start, known.recorded, known.told),
        strays: Strays {
            event: first_extending(log),
            entry: known.stray,
        },
        rows: rows_on(alloc, &known.after, expected)?,
    })
}

/// The row of each expected register, by these banks.
pub(crate) fn rows_on(
    alloc: Global,
    now: &Banks,
    expected: &[Expected],
) -> Result<Vec<Row>, AllocError>
    ensures { IfOk result (λ rows. rows.items ≡ map (row_of now.now) expected.now) }
{
    expected
        .iter()
        .map(|expected| row_on(now, expected))
        .collect(alloc)
}

// The row of an expected register, by these banks.
fn row_on(now: &Banks, expected: &Expected) -> Row
    ensures { result ≡ row_of now.now expected.now }
{
    Row {
        expected: *expected,
        state: state_of(expected, now.read(expected.alg, expected.register)),
    }
}

// The state of an expected register with this value, or of an absent one.
fn state_of(expected: &Expected, value: Option<Digest>) -> State
    ensures { (bytes : Option (List ℕ)) → value ≡ option_map (digest_of expected.now.alg) bytes → result ≡ row_state expected.now bytes }
{
    match value {
        None => State::Absent,
        Some(value) if value == expected.value => State::Match,
        Some(value) => State::Differ(value),
    }
}

/// The state of the boot aggregate that the list records, if any. `start` has the log's registers.
pub fn aggregate_of(start: &Banks, recorded: Option<Digest>) -> Aggregate
    ensures { (algs : AlgSet) (events : List LogEvent) → IsFirmware algs events start.now
        → result ≡ aggregate_of algs events (option_map (λ digest. (alg_of digest, bytes_of digest)) recorded) }
{
    match recorded {
        None => Aggregate::Missing,
        Some(recorded) => aggregate_state(&recorded, boot_aggregate(start, recorded.alg())),
    }
}

// Compares a recorded boot aggregate with that of the log's registers, if the log has the bank.
fn aggregate_state(recorded: &Digest, value: Option<Digest>) -> Aggregate
    ensures { result ≡ aggregate_state (bytes_of recorded.now) (option_map bytes_of value) }
{
    match value {
        None => Aggregate::NoBank,
        Some(value) if value.bytes() == recorded.bytes() => Aggregate::Good,
        Some(_) => Aggregate::Wrong,
    }
}
