//! The verdict on a measurement list alone and expected registers.

ghost use Rattle.std.specs.Prelude.{◌≡◌, ◌⊎◌, List, [], is_some, Ok, IfOk, IfErr, IsErrOf};
ghost use Rattle.byte_fields.specs.Reading.{ReadsInMemory};
ghost use Rattle.byte_streams.specs.Streams.{LosesPrefix};
ghost use Rattle.ima_list.specs.Names.{ListEntry};
ghost use Rattle.boot_verdict.specs.ListReplays.{AreTracked};
ghost use Rattle.boot_verdict.specs.ListSources.{HoldsGenuineList, failures_after_list};
ghost use Rattle.boot_verdict.specs.ListVerdicts.{IsListVerdictFrom, WatchesList, list_matches, list_verdict_of, list_verdict_on, required_list_matches};
ghost use Rattle.boot_verdict.specs.Replays.{IsListReplayFault};

use crate::checkpoint::Checkpoint;
use crate::isolation::Strays;
use crate::kept::banks_for;
use crate::list_registers::list_start;
use crate::report::{Row, all_match};
use crate::requirement::Requirement;
use crate::steps::Tracker;
use crate::verifier::{VerifyFault, rows_on};
use byte_streams::Source;
use pcr_values::Expected;
use std::alloc::Global;

/// The report on a measurement list alone and expected registers.
#[derive(Drop)]
pub struct ListReport {
    /// How many entries the list has.
    pub entries: usize,
    /// What of the list extends a register that is not its own.
    pub strays: Strays,
    /// The expected registers and how they compare, in their order.
    pub rows: Vec<Row>,
}

impl ListReport {
    /// Whether the list has an entry, some register is expected, and each expected register has its value.
    pub fn matches(&self) -> bool
        ensures { result ≡ list_matches (list_verdict_of self.now) }
    {
        self.entries != 0 && !self.rows.is_empty() && all_match(&self.rows)
    }

    /// Whether the report matches, each entry extends the list's register, and there is a row for each required register.
    pub fn meets(&self, requirement: &Requirement) -> bool
        ensures { result ≡ required_list_matches requirement.now (list_verdict_of self.now) }
    {
        self.matches() && self.strays.are_none() && requirement.is_met_by(&self.rows)
    }
}

/// Replays a measurement list of at most `limit` bytes without a firmware event log, as [`crate::replay_from`] does, but into the banks of
/// the expected registers alone, and compares the registers with the expected ones, in their order. Without an entry, or an expected register, there is a report, but it
/// does not match. `watch` takes the entries, and is returned.
///
/// Fails as [`crate::replay_from`] does.
pub fn verify_list_from<R: Source, W: Tracker>(
    alloc: Global,
    list: &mut R,
    limit: u64,
    expected: &[Expected],
    watch: W,
) -> Result<(ListReport, W), VerifyFault>
    // The report is the verdict on the list that the source had left, and the expected registers.
    ensures report { IfOk result (λ report. IsListVerdictFrom (R.state list.old).remaining (R.state list.new).remaining limit expected.now
        (list_verdict_of report.0)) }
    // What watched has tracked the entries of that list.
    ensures watched { IfOk result (λ report. (start : W) → AreTracked W.is_after start [] watch
        → WatchesList W.is_after start (R.state list.old).remaining (R.state list.new).remaining limit expected.now
        (list_verdict_of report.0) report.1) }
    // For a list of genuine entries within the limit there is a report, unless the source fails or memory runs out.
    ensures only { (entries : List ListEntry) → HoldsGenuineList (R.state list.old).remaining limit entries
        → IsErrOf result VerifyFault.Source
        ⊎ ReadsInMemory VerifyFault.Memory (λ report. list_verdict_of report.0) result (Ok (list_verdict_on entries expected.now)) }
    // Any fault is the first reason.
    ensures fault { IfErr result (IsListReplayFault (R.state list.old).remaining (R.state list.new).remaining limit) }
    // In any case the source loses bytes from its start, and nothing else.
    ensures prefix { LosesPrefix (R.state list.old).remaining (R.state list.new).remaining }
    ensures telling { is_some (R.state list.new).remaining ≡ is_some (R.state list.old).remaining }
    ensures counts { (R.state list.new).failures ≡ failures_after_list result (R.state list.old).failures }
{
    let first = Checkpoint::before_list(banks_for(&list_start(), expected));
    let (known, watch) = first.go_on(alloc, list, limit, watch)?;
    let report = ListReport {
        entries: known.entries,
        strays: Strays {
            event: None,
            entry: known.stray,
        },
        rows: rows_on(alloc, &known.after, expected)?,
    };
    Ok((report, watch))
}
