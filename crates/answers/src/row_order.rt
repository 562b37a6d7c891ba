//! The rows of a report in their own order, or with those at reset last.

ghost use Rattle.std.specs.Prelude.{◌≡◌, ◌==◌, not, option_copied};
ghost use Rattle.std.specs.List.{list_all};
ghost use Rattle.cells.specs.Cells.{ShowsItems, ShowsMembers, each, when};
ghost use Rattle.answers.specs.ReportCells.{at_reset_cell, given_row, is_at_reset, report_rows, reset_byte, reset_last_rows, reset_row};
ghost use Rattle.answers.specs.RowCells.{row_cell};

use crate::registers::show_register;
use crate::rows::{show_required, show_row, show_rows, show_value};
use boot_verdict::{Requirement, Row, State};
use cells::{CellWriter, Written};
use pcr_values::Expected;
use std::alloc::Global;

/// In which order the rows of a report are shown.
#[derive(Clone, Copy, PartialEq, Eq)]
pub enum RowOrder {
    /// In their own.
    Given,
    /// Those that match at their reset values come last, and are marked.
    ResetLast,
}

pub(crate) fn show_report_rows(
    alloc: Global,
    rows: &[Row],
    requirement: Option<&Requirement>,
    order: RowOrder,
    out: &mut CellWriter,
) -> Written
    ensures { ShowsMembers result out.old out.new (report_rows order (option_copied requirement.entry) rows.now) }
{
    match order {
        RowOrder::Given => show_rows(alloc, "state", rows, requirement, out),
        RowOrder::ResetLast => show_reset_last(alloc, rows, requirement, out),
    }
}

fn show_reset_last(
    alloc: Global,
    rows: &[Row],
    requirement: Option<&Requirement>,
    out: &mut CellWriter,
) -> Written
    ensures { ShowsMembers result out.old out.new (reset_last_rows (option_copied requirement.entry) rows.now) }
{
    out.list("registers")?;
    show_others(alloc, rows, out)?;
    show_required("state", requirement, rows, out)?;
    show_at_reset(alloc, rows, out)?;
    out.end_list()
}

// Shows the rows that are not at reset.
fn show_others(alloc: Global, rows: &[Row], out: &mut CellWriter) -> Written
    ensures { ShowsItems result out.old out.new (each (λ row. when (not (is_at_reset row)) (given_row row)) rows.now) }
{
    for row in rows {
        show_if_other(alloc, row, out)?;
    }
    Ok(())
}

fn show_if_other(alloc: Global, row: &Row, out: &mut CellWriter) -> Written
    ensures { ShowsItems result out.old out.new (when (not (is_at_reset row.now)) (given_row row.now)) }
{
    if is_at_reset(row) {
        return Ok(());
    }
    show_row(alloc, row, out)
}

// Shows the rows at reset, which are marked.
fn show_at_reset(alloc: Global, rows: &[Row], out: &mut CellWriter) -> Written
    ensures { ShowsItems result out.old out.new (each (λ row. when (is_at_reset row) (reset_row row)) rows.now) }
{
    for row in rows {
        show_if_at_reset(alloc, row, out)?;
    }
    Ok(())
}

fn show_if_at_reset(alloc: Global, row: &Row, out: &mut CellWriter) -> Written
    ensures { ShowsItems result out.old out.new (when (is_at_reset row.now) (reset_row row.now)) }
{
    if !is_at_reset(row) {
        return Ok(());
    }
    out.begin()?;
    show_marked(alloc, &row.expected, out)?;
    out.end()
}

// Shows a register that matches at its reset value.
fn show_marked(alloc: Global, expected: &Expected, out: &mut CellWriter) -> Written
    ensures { ShowsMembers result out.old out.new (row_cell expected.now at_reset_cell) }
{
    show_register(expected.alg, expected.register, out)?;
    show_value(alloc, expected, out)?;
    show_mark(out)?;
    out.text("\n")
}

fn show_mark(out: &mut CellWriter) -> Written
    ensures { ShowsMembers result out.old out.new at_reset_cell }
{
    out.word(" ", "state", "match")?;
    out.text(" at reset")
}

// Whether the register matches at its reset value.
fn is_at_reset(row: &Row) -> bool
    ensures { result ≡ is_at_reset row.now }
{
    matches!(row.state, State::Match)
        && has_only(
            row.expected.value.bytes(),
            reset_byte(row.expected.register),
        )
}

fn has_only(bytes: &[u8], byte: u8) -> bool
    ensures { result ≡ list_all (λ b. b == byte) bytes.now }
{
    bytes.iter().all(|each| *each == byte)
}

// The byte that fills a register's reset value, but for the locality in PCR 0 (PC Client Platform TPM Profile, 'PCR Initial and Reset Values').
fn reset_byte(register: u32) -> u8
    ensures { result ≡ reset_byte register }
{
    if 17 <= register && register <= 22 {
        0xFF
    } else {
        0x00
    }
}
