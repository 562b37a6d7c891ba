//! The verdict on a log and a list whose entries are watched, by the banks that are compared.

ghost use Rattle.std.specs.Prelude.{◌≡◌, ◌⊎◌, List, [], is_some, Ok, IfOk, IfErr, IsErrOf};
ghost use Rattle.byte_fields.specs.Reading.{ReadsInMemory};
ghost use Rattle.byte_streams.specs.Streams.{LosesPrefix};
ghost use Rattle.boot_log.specs.declared.header.DeclaredAlgorithm.{DeclaredAlgorithm};
ghost use Rattle.boot_log.specs.Names.{IsLog, LogEvent, algs_in};
ghost use Rattle.ima_list.specs.Names.{ListEntry};
ghost use Rattle.boot_verdict.specs.ListReplays.{AreTracked};
ghost use Rattle.boot_verdict.specs.ListSources.{HoldsGenuineList, failures_after_list};
ghost use Rattle.boot_verdict.specs.Verdicts.{IsVerdictUnderFrom, IsVerifyFaultFrom, ReadsAsLog, verdict_of, verdict_under};
ghost use Rattle.boot_verdict.specs.WatchedVerdicts.{WatchesVerdict};

use crate::aggregate_rule::AggregateRule;
use crate::checkpoint::Checkpoint;
use crate::kept::banks_with;
use crate::report::Report;
use crate::steps::Tracker;
use crate::verifier::{VerifyFault, report_after};
use boot_log::LogView;
use byte_streams::Source;
use pcr_banks::{AlgSet, Banks};
use pcr_values::Expected;
use std::alloc::Global;

/// A report, and the registers by which it was made.
#[derive(Drop)]
pub struct Replayed {
    /// The report.
    pub report: Report,
    /// The registers after the log and the list, of the banks that were replayed.
    pub registers: Banks,
}

/// As [`crate::verify_from`], but by this rule, and where `watch` takes the entries, and is returned. Beside the banks of the expected registers those of `more` are
/// replayed, if the log has them.
///
/// Fails as [`crate::verify_from`] does.
pub fn verify_watched<R: Source, W: Tracker>(
    alloc: Global,
    log: &[u8],
    list: &mut R,
    limit: u64,
    expected: &[Expected],
    rule: AggregateRule,
    more: AlgSet,
    watch: W,
) -> Result<(Replayed, W), VerifyFault>
    // The report is the verdict by the rule on the log, all bytes that the source had left, and the expected registers.
    ensures report { IfOk result (λ replayed. IsVerdictUnderFrom rule log.now (R.state list.old).remaining (R.state list.new).remaining limit expected.now
        (verdict_of replayed.0.report)) }
    // What watched has tracked the entries of that list, and the registers of the expected banks and of `more` are those after it, with no other.
    ensures watched { IfOk result (λ replayed. (start : W) → AreTracked W.is_after start [] watch
        → WatchesVerdict W.is_after start rule log.now (R.state list.old).remaining (R.state list.new).remaining limit expected.now more
        (verdict_of replayed.0.report) replayed.0.registers replayed.1) }
    // If the log is valid and the source has left a list of genuine entries within the limit, there is a report, unless the source fails or memory
    // runs out.
    ensures only { (table : List DeclaredAlgorithm) (events : List LogEvent) (entries : List ListEntry)
        → IsLog log.now table events → HoldsGenuineList (R.state list.old).remaining limit entries
        → IsErrOf result VerifyFault.Source
        ⊎ ReadsInMemory VerifyFault.Memory (λ replayed. verdict_of replayed.0.report) result
        (Ok (verdict_under rule (algs_in table) events entries expected.now)) }
    // Any fault is the first reason.
    ensures fault { IfErr result (IsVerifyFaultFrom log.now (R.state list.old).remaining (R.state list.new).remaining limit) }
    ensures memory { IsErrOf result VerifyFault.Memory → ReadsAsLog log.now }
    // In any case the source loses bytes from its start, and nothing else.
    ensures prefix { LosesPrefix (R.state list.old).remaining (R.state list.new).remaining }
    ensures telling { is_some (R.state list.new).remaining ≡ is_some (R.state list.old).remaining }
    ensures counts { (R.state list.new).failures ≡ failures_after_list result (R.state list.old).failures }
{
    let firmware = LogView::new(log)?;
    let start = firmware.registers();
    let first = Checkpoint::before_list(banks_with(&start, expected, more));
    let (known, watch) = first.go_on(alloc, list, limit, watch)?;
    let report = report_after(alloc, &firmware, &start, &known, expected, rule)?;
    let registers = known.after;
    Ok((Replayed { report, registers }, watch))
}
