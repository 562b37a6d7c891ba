//! The report on a list alone.

ghost use Rattle.std.specs.Prelude.{◌≡◌, option_copied};
ghost use Rattle.boot_verdict.specs.Names.{list_verdict_of};
ghost use Rattle.cells.specs.Cells.{ShowsMembers};
ghost use Rattle.answers.specs.ReportCells.{list_meets, list_report_cell};

use crate::report::{show_compared, show_strays, show_unknown, show_verdict};
use crate::row_order::{RowOrder, show_report_rows};
use boot_verdict::{ListReport, Requirement};
use cells::{CellWriter, Written};
use known_files::UnknownFiles;
use std::alloc::Global;

/// Shows the report on a list alone.
pub fn show_list_report(
    alloc: Global,
    report: &ListReport,
    requirement: Option<&Requirement>,
    unknown: Option<&UnknownFiles>,
    order: RowOrder,
    out: &mut CellWriter,
) -> Written
    ensures { ShowsMembers result out.old out.new
        (list_report_cell order (option_copied requirement.entry) (option_copied unknown.entry) (list_verdict_of report.now)) }
{
    out.number("entries ", "entries", report.entries as u64)?;
    out.text("\n")?;
    show_compared(requirement, report.rows.len(), out)?;
    show_report_rows(alloc, &report.rows, requirement, order, out)?;
    show_strays(report.strays, requirement, out)?;
    show_unknown(unknown, out)?;
    show_verdict(unknown, list_meets(report, requirement), out)
}

// Whether the report on a list alone matches, and all that is required holds.
fn list_meets(report: &ListReport, requirement: Option<&Requirement>) -> bool
    ensures { result ≡ list_meets (option_copied requirement.entry) (list_verdict_of report.now) }
{
    match requirement {
        Some(requirement) => report.meets(requirement),
        None => report.matches(),
    }
}
