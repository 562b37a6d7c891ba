//! Rows of registers, and the required registers that have none.

ghost use Rattle.std.specs.Prelude.{codes, map, option_copied};
ghost use Rattle.pcr_banks.specs.Names.{bytes_of};
ghost use Rattle.cells.specs.Cells.{Cell, ShowsItems, ShowsMembers, each, if_some, object};
ghost use Rattle.cells.specs.Cells as cells;
ghost use Rattle.cells.specs.Values.{Member};
ghost use Rattle.answers.specs.RowCells.{if_missing, missing_cell, missing_cells, row_cell, rows_cell};

use crate::registers::show_register;
use boot_verdict::{HasExpected, Requirement};
use cells::{CellWriter, Written};
use pcr_banks::Alg;
use pcr_values::{ALL_REGISTERS, Expected, register_numbered};
use std::alloc::Global;

/// A row that says something of an expected register.
pub(crate) trait Says {
    ghost said_of: { Self → Cell Member };

    /// Shows what it says of the register.
    fn show(&self, alloc: Global, out: &mut CellWriter) -> Written
        ensures { ShowsMembers result out.old out.new (said_of self.now) };
}

/// Shows the rows, and then the required registers that have none: there the member of this name says `missing`.
pub(crate) fn show_rows<T: HasExpected + Says>(
    alloc: Global,
    name: &str,
    rows: &[T],
    requirement: Option<&Requirement>,
    out: &mut CellWriter,
) -> Written
    ensures { ShowsMembers result out.old out.new (rows_cell name.now T.expected_of T.said_of (option_copied requirement.entry) rows.now) }
{
    out.list("registers")?;
    show_each(alloc, rows, out)?;
    show_required(name, requirement, rows, out)?;
    out.end_list()
}

fn show_each<T: HasExpected + Says>(alloc: Global, rows: &[T], out: &mut CellWriter) -> Written
    ensures { ShowsItems result out.old out.new (each (λ row. object (row_cell (T.expected_of row) (T.said_of row))) rows.now) }
{
    for row in rows {
        show_row(alloc, row, out)?;
    }
    Ok(())
}

pub(crate) fn show_row<T: HasExpected + Says>(
    alloc: Global,
    row: &T,
    out: &mut CellWriter,
) -> Written
    ensures { ShowsItems result out.old out.new (object (row_cell (T.expected_of row.now) (T.said_of row.now))) }
{
    let expected = row.expected();
    out.begin()?;
    show_register(expected.alg, expected.register, out)?;
    show_value(alloc, &expected, out)?;
    row.show(alloc, out)?;
    out.text("\n")?;
    out.end()
}

/// Shows the expected value.
pub(crate) fn show_value(alloc: Global, expected: &Expected, out: &mut CellWriter) -> Written
    ensures { ShowsMembers result out.old out.new (cells.hex_member (codes "expected") (bytes_of expected.now.value)) }
{
    out.hex_member(alloc, "expected", expected.value.bytes())
}

/// Shows the required registers that have no row; none where nothing is required.
pub(crate) fn show_required<T: HasExpected>(
    name: &str,
    requirement: Option<&Requirement>,
    rows: &[T],
    out: &mut CellWriter,
) -> Written
    ensures { ShowsItems result out.old out.new
        (if_some (option_copied requirement.entry) (missing_cells name.now (map T.expected_of rows.now))) }
{
    match requirement {
        None => Ok(()),
        Some(required) => show_missing(name, required, rows, out),
    }
}

fn show_missing<T: HasExpected>(
    name: &str,
    requirement: &Requirement,
    rows: &[T],
    out: &mut CellWriter,
) -> Written
    ensures { ShowsItems result out.old out.new (missing_cells name.now (map T.expected_of rows.now) requirement.now) }
{
    for number in 0..ALL_REGISTERS {
        let (alg, register) = register_numbered(number);
        show_if_missing(name, requirement, rows, alg, register, out)?;
    }
    Ok(())
}

// Shows the register if it is missing.
fn show_if_missing<T: HasExpected>(
    name: &str,
    requirement: &Requirement,
    rows: &[T],
    alg: Alg,
    register: u32,
    out: &mut CellWriter,
) -> Written
    ensures { ShowsItems result out.old out.new (if_missing name.now requirement.now (map T.expected_of rows.now) alg register) }
{
    if !requirement.is_missing(rows, alg, register) {
        return Ok(());
    }
    out.begin()?;
    show_missing_row(name, alg, register, out)?;
    out.end()
}

fn show_missing_row(name: &str, alg: Alg, register: u32, out: &mut CellWriter) -> Written
    ensures { ShowsMembers result out.old out.new (missing_cell name.now alg register) }
{
    show_register(alg, register, out)?;
    out.word(" ", name, "missing")?;
    out.text("\n")
}
