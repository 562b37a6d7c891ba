//! Where expected values are first reached, in a firmware event log and a measurement list.

ghost use Rattle.std.specs.Prelude.{◌≡◌, ◌⊎◌, ℕ, List, [], Option, length, map, option_map, is_some, Ok, IfOk, IfErr, IsErrOf};
ghost use Rattle.pcr_banks.specs.declared.banks.Banks.{Banks};
ghost use Rattle.pcr_banks.specs.declared.sets.AlgSet.{AlgSet};
ghost use Rattle.pcr_banks.specs.Names.{digest_of};
ghost use Rattle.byte_fields.specs.Reading.{ReadsInMemory};
ghost use Rattle.byte_streams.specs.Streams.{LosesPrefix};
ghost use Rattle.pcr_values.specs.declared.expected.Expected.{Expected};
ghost use Rattle.boot_log.specs.declared.header.DeclaredAlgorithm.{DeclaredAlgorithm};
ghost use Rattle.boot_log.specs.Names.{HasBorrowed, IsLog, LogEvent, algs_in, log_bytes};
ghost use Rattle.ima_list.specs.Names.{AreGenuine, IsReading, ListEntry};
ghost use Rattle.boot_verdict.specs.ListSources.{HoldsGenuineList, failures_after_list};
ghost use Rattle.boot_verdict.specs.Steps.{events_as_steps};
ghost use Rattle.boot_verdict.specs.Positions.{AreLocated, AreLocatedFrom, located_on};
ghost use Rattle.boot_verdict.specs.Verdicts.{ReadsAsLog, IsVerifyFault, IsVerifyFaultFrom};
ghost use Rattle.boot_verdict.specs.parts.LogPositions.{IsTracked, position_at_reset, row_at_reset};

use crate::kept::banks_for;
use crate::list_replay::ListReplay;
use crate::steps::{Located, Position, RowTracker, Step, Tracker};
use crate::verifier::VerifyFault;
use boot_log::{LogEvents, LogView};
use byte_streams::Source;
use pcr_banks::{Banks, Digest};
use pcr_values::Expected;
use std::alloc::{AllocError, Global};

/// Finds where each expected register first has its value: before the firmware event log's events, after one of them, or after an
/// entry of the measurement list, which follows them. The rows are in the order of `expected`. Later changes of the register do not
/// matter: see [`crate::verify`] for the values at the end.
///
/// Fails with the faults of [`crate::verify`]. [`VerifyFault::Memory`] is possible only if the log is valid.
pub fn locate(
    alloc: Global,
    log: &[u8],
    list: &[u8],
    expected: &[Expected],
) -> Result<Vec<Located>, VerifyFault>
    // The rows are the positions in the log and the list.
    ensures located { IfOk result (λ located. AreLocated log.now list.now expected.now located.items) }
    // If the log and the list are valid and all entries genuine, there are rows, unless memory runs out.
    ensures only { (table : List DeclaredAlgorithm) (events : List LogEvent) (entries : List ListEntry)
        → IsLog log.now table events → IsReading list.now (Ok entries) → AreGenuine entries
        → ReadsInMemory VerifyFault.Memory (λ located. located.items) result (Ok (located_on (algs_in table) events entries expected.now)) }
    // Any other fault is the first reason.
    ensures fault { IfErr result (IsVerifyFault log.now list.now) }
    ensures memory { IsErrOf result VerifyFault.Memory → ReadsAsLog log.now }
{
    let firmware = LogView::new(log)?;
    let start = track_log(alloc, &firmware, expected)?;
    let replay = ListReplay::of_list(start, list)?;
    Ok(replay.tracker.rows)
}

/// As [`locate`], for a list of at most `limit` bytes that is read from a source, with the faults of [`crate::verify_from`]. Each
/// entry is replayed as its bytes arrive; none is kept. The rows are allocated once, before anything is read from the source.
pub fn locate_from<R: Source>(
    alloc: Global,
    log: &[u8],
    list: &mut R,
    limit: u64,
    expected: &[Expected],
) -> Result<Vec<Located>, VerifyFault>
    // The rows are the positions in the log and in the list of all bytes that the source had left.
    ensures located { IfOk result (λ located. AreLocatedFrom log.now (R.state list.old).remaining (R.state list.new).remaining limit expected.now located.items) }
    // If the log is valid and the source has left a list of genuine entries within the limit, there are rows, unless the source
    // fails or memory runs out.
    ensures only { (table : List DeclaredAlgorithm) (events : List LogEvent) (entries : List ListEntry)
        → IsLog log.now table events → HoldsGenuineList (R.state list.old).remaining limit entries
        → IsErrOf result VerifyFault.Source
        ⊎ ReadsInMemory VerifyFault.Memory (λ located. located.items) result (Ok (located_on (algs_in table) events entries expected.now)) }
    // Any fault is the first reason.
    ensures fault { IfErr result (IsVerifyFaultFrom log.now (R.state list.old).remaining (R.state list.new).remaining limit) }
    ensures memory { IsErrOf result VerifyFault.Memory → ReadsAsLog log.now }
    // In any case the source loses bytes from its start, and nothing else.
    ensures prefix { LosesPrefix (R.state list.old).remaining (R.state list.new).remaining }
    ensures telling { is_some (R.state list.new).remaining ≡ is_some (R.state list.old).remaining }
    ensures counts { (R.state list.new).failures ≡ failures_after_list result (R.state list.old).failures }
{
    let firmware = LogView::new(log)?;
    let start = track_log(alloc, &firmware, expected)?;
    let replay = ListReplay::of_source(alloc, start, list, limit)?;
    Ok(replay.tracker.rows)
}

// The expected registers after the log's events, in their banks alone, and the positions of the expected values among them.
fn track_log(
    alloc: Global,
    log: &LogView<'_>,
    expected: &[Expected],
) -> Result<RowTracker, AllocError>
    ensures { (table : List DeclaredAlgorithm) (events : List LogEvent) → IsLog (log_bytes log.now) table events
        → IfOk result (IsTracked (algs_in table) events expected.now) }
{
    let banks = banks_for(&log.reset_registers(), expected);
    let rows = rows_at_reset(alloc, &banks, expected)?;
    let mut tracker = RowTracker { banks, rows };
    track_events(&mut tracker, log.events());
    Ok(tracker)
}

// Takes the events, in order.
fn track_events<F: Tracker>(tracker: &mut F, mut events: LogEvents<'_>)
    ensures { (start : F) (bytes : List ℕ) (table : List DeclaredAlgorithm) (all : List LogEvent) → HasBorrowed bytes [] events.entry → IsLog bytes table all
        → F.is_after start (length all) [] tracker.old → F.is_after start (length all) (events_as_steps all) tracker.new }
{
    while let Some(event) = events.next_event() {
        tracker.step(&Step::Event(&event), Position::Event(events.count()));
    }
}

// The row of each expected register, before the first event.
fn rows_at_reset(
    alloc: Global,
    start: &Banks,
    expected: &[Expected],
) -> Result<Vec<Located>, AllocError>
    ensures { IfOk result (λ rows. rows.items ≡ map (row_at_reset start.now) expected.now) }
{
    expected
        .iter()
        .map(|expected| row_at_reset(start, expected))
        .collect(alloc)
}

// The row of an expected register, before the first event.
fn row_at_reset(start: &Banks, expected: &Expected) -> Located
    ensures { result ≡ row_at_reset start.now expected.now }
{
    Located {
        expected: *expected,
        position: position_at_reset(expected, start.read(expected.alg, expected.register)),
    }
}

// The position of an expected register with this reset value, or of an absent one.
fn position_at_reset(expected: &Expected, value: Option<Digest>) -> Position
    ensures { (bytes : Option (List ℕ)) → value ≡ option_map (digest_of expected.now.alg) bytes
        → result ≡ position_at_reset expected.now bytes }
{
    match value {
        None => Position::Absent,
        Some(value) if value == expected.value => Position::Reset,
        Some(_) => Position::Nowhere,
    }
}
