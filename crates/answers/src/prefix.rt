//! The report on a confirmed prefix.

ghost use Rattle.std.specs.Prelude.{◌≡◌, codes, option_copied};
ghost use Rattle.boot_verdict.specs.Names.{verdict_of};
ghost use Rattle.cells.specs.Cells as cells;
ghost use Rattle.cells.specs.Cells.{ShowsMembers, if_some};
ghost use Rattle.answers.specs.ReportCells.{confirmed_cell, prefix_cell, prefix_counts_cell, unconfirmed_cell};

use crate::report::{meets, show_counts, show_outcome};
use crate::row_order::RowOrder;
use boot_verdict::{PrefixReport, Report, Requirement, Unconfirmed};
use cells::{CellWriter, Written};
use known_files::UnknownFiles;
use std::alloc::Global;

/// Shows the report on a confirmed prefix.
pub fn show_prefix(
    alloc: Global,
    prefix: &PrefixReport,
    requirement: Option<&Requirement>,
    unknown: Option<&UnknownFiles>,
    order: RowOrder,
    out: &mut CellWriter,
) -> Written
    ensures { ShowsMembers result out.old out.new (prefix_cell order (option_copied requirement.entry) (option_copied unknown.entry)
        (verdict_of prefix.now.report) prefix.now.entries prefix.now.unconfirmed) }
{
    let report = &prefix.report;
    let is_met = meets(report, requirement);
    show_prefix_counts(alloc, report, prefix.entries, prefix.unconfirmed, out)?;
    show_outcome(alloc, report, requirement, unknown, is_met, order, out)
}

/// Shows the counts of the whole list, how many of its entries the prefix has on which the report is, and what is wrong after it.
pub(crate) fn show_prefix_counts(
    alloc: Global,
    report: &Report,
    entries: usize,
    unconfirmed: Option<Unconfirmed>,
    out: &mut CellWriter,
) -> Written
    ensures { ShowsMembers result out.old out.new (prefix_counts_cell (verdict_of report.now) entries unconfirmed) }
{
    show_counts(report.events, report.locality, entries, out)?;
    show_confirmed(report.entries, entries, out)?;
    show_unconfirmed(alloc, unconfirmed, out)
}

fn show_confirmed(prefix: usize, entries: usize, out: &mut CellWriter) -> Written
    ensures { ShowsMembers result out.old out.new (confirmed_cell prefix entries) }
{
    out.number("confirmed ", "confirmed", prefix as u64)?;
    out.count(" of ", entries)?;
    out.text(" entries\n")
}

// Shows what is wrong after the prefix, if anything.
fn show_unconfirmed(
    alloc: Global,
    unconfirmed: Option<Unconfirmed>,
    out: &mut CellWriter,
) -> Written
    ensures { ShowsMembers result out.old out.new (if_some unconfirmed unconfirmed_cell) }
{
    match unconfirmed {
        None => Ok(()),
        Some(fault) => show_fault(alloc, fault, out),
    }
}

fn show_fault(alloc: Global, fault: Unconfirmed, out: &mut CellWriter) -> Written
    ensures { ShowsMembers result out.old out.new (unconfirmed_cell fault) }
{
    let message = fault.message(alloc)?;
    out.object("unconfirmed")?;
    out.word_member("kind", fault.kind())?;
    out.number_member("number", fault.number() as u64)?;
    show_entry(fault.entry(), out)?;
    out.word("", "message", &message)?;
    out.end()?;
    out.text("\n")
}

// Shows the entry that a fault names, if it names one.
fn show_entry(entry: Option<usize>, out: &mut CellWriter) -> Written
    ensures { ShowsMembers result out.old out.new (if_some entry (λ number. cells.number_member (codes "entry") number)) }
{
    match entry {
        None => Ok(()),
        Some(entry) => out.number_member("entry", entry as u64),
    }
}
