//! The report on a log, a list and expected registers.

ghost use Rattle.std.specs.Prelude.{◌≡◌, ◌&&◌, codes, option_copied};
ghost use Rattle.boot_verdict.specs.declared.report.State.TheVariants.{Differ};
ghost use Rattle.boot_verdict.specs.Names.{verdict_of};
ghost use Rattle.known_files.specs.Unknown.{has_no_unknown};
ghost use Rattle.cells.specs.Cells.{ShowsItems, ShowsMembers, each, if_some, item_number};
ghost use Rattle.answers.specs.ReportCells.{aggregate_cell, compared_cell, compared_line, counts_cell, meets, outcome_cell, report_cell, state_cell, stray_cell, stray_entry, stray_event, strays_cell, unknown_cell, verdict_cell, verdict_word};

use crate::row_order::{RowOrder, show_report_rows};
use crate::rows::Says;
use boot_verdict::{
    Aggregate, LIST_REGISTER, Report, Requirement, Row, State, Stray, Strays, aggregate_word,
};
use cells::{CellWriter, Written};
use known_files::{UnknownFiles, has_no_unknown};
use pcr_banks::Digest;
use std::alloc::Global;

/// Shows the report. The verdict is `match` if the caller says so and no entry is unknown.
pub fn show_report(
    alloc: Global,
    report: &Report,
    requirement: Option<&Requirement>,
    unknown: Option<&UnknownFiles>,
    is_match: bool,
    order: RowOrder,
    out: &mut CellWriter,
) -> Written
    ensures { ShowsMembers result out.old out.new
        (report_cell order (option_copied requirement.entry) (option_copied unknown.entry) is_match (verdict_of report.now)) }
{
    show_counts(report.events, report.locality, report.entries, out)?;
    show_outcome(alloc, report, requirement, unknown, is_match, order, out)
}

/// Shows how many events and entries there are, and the locality.
pub(crate) fn show_counts(
    events: usize,
    locality: u8,
    entries: usize,
    out: &mut CellWriter,
) -> Written
    ensures { ShowsMembers result out.old out.new (counts_cell events locality entries) }
{
    out.number("events ", "events", events as u64)?;
    out.number(" locality ", "locality", locality as u64)?;
    out.number("\nentries ", "entries", entries as u64)?;
    out.text("\n")
}

/// Shows what comes after the counts.
pub(crate) fn show_outcome(
    alloc: Global,
    report: &Report,
    requirement: Option<&Requirement>,
    unknown: Option<&UnknownFiles>,
    is_match: bool,
    order: RowOrder,
    out: &mut CellWriter,
) -> Written
    ensures { ShowsMembers result out.old out.new
        (outcome_cell order (option_copied requirement.entry) (option_copied unknown.entry) is_match (verdict_of report.now)) }
{
    show_compared(requirement, report.rows.len(), out)?;
    show_aggregate(report.aggregate, out)?;
    show_report_rows(alloc, &report.rows, requirement, order, out)?;
    show_strays(report.strays, requirement, out)?;
    show_unknown(unknown, out)?;
    show_verdict(unknown, is_match, out)
}

/// Shows how many registers were compared.
pub(crate) fn show_compared(
    requirement: Option<&Requirement>,
    compared: usize,
    out: &mut CellWriter,
) -> Written
    ensures { ShowsMembers result out.old out.new (compared_cell (option_copied requirement.entry) compared) }
{
    out.number_member("compared", compared as u64)?;
    show_compared_line(requirement, compared, out)
}

// Shows it as a line, where registers are required.
fn show_compared_line(
    requirement: Option<&Requirement>,
    compared: usize,
    out: &mut CellWriter,
) -> Written
    ensures { ShowsMembers result out.old out.new (if_some (option_copied requirement.entry) (λ ranges. compared_line compared)) }
{
    match requirement {
        None => Ok(()),
        Some(_) => show_count(compared, out),
    }
}

fn show_count(compared: usize, out: &mut CellWriter) -> Written
    ensures { ShowsMembers result out.old out.new (compared_line compared) }
{
    out.count("compared ", compared)?;
    out.text("\n")
}

pub(crate) fn show_aggregate(aggregate: Aggregate, out: &mut CellWriter) -> Written
    ensures { ShowsMembers result out.old out.new (aggregate_cell aggregate) }
{
    out.word(
        "boot_aggregate ",
        "boot_aggregate",
        aggregate_word(aggregate),
    )?;
    out.text("\n")
}

impl Says for Row {
    ghost said_of = { λ row. state_cell row.state };

    fn show(&self, alloc: Global, out: &mut CellWriter) -> Written {
        match self.state {
            State::Match => out.word(" ", "state", "match"),
            State::Differ(value) => show_differing(alloc, &value, out),
            State::Absent => out.word(" ", "state", "absent"),
        }
    }
}

// Shows that a register differs, and its value.
fn show_differing(alloc: Global, value: &Digest, out: &mut CellWriter) -> Written
    ensures { ShowsMembers result out.old out.new (state_cell (Differ value.now)) }
{
    out.word(" ", "state", "differ")?;
    out.hex(alloc, " ", "value", value.bytes())
}

/// Shows the first event and the first entry that extend a register that is not their own, where registers are required.
pub(crate) fn show_strays(
    strays: Strays,
    requirement: Option<&Requirement>,
    out: &mut CellWriter,
) -> Written
    ensures { ShowsMembers result out.old out.new (if_some (option_copied requirement.entry) (λ ranges. strays_cell strays)) }
{
    match requirement {
        None => Ok(()),
        Some(_) => show_extends(strays, out),
    }
}

/// Shows the first event and the first entry that extend a register that is not their own, if any.
pub(crate) fn show_extends(strays: Strays, out: &mut CellWriter) -> Written
    ensures { ShowsMembers result out.old out.new (strays_cell strays) }
{
    if strays.are_none() {
        return Ok(());
    }
    out.list("extends")?;
    show_event(strays.event, out)?;
    show_entry(strays.entry, out)?;
    out.end_list()
}

fn show_event(event: Option<usize>, out: &mut CellWriter) -> Written
    ensures { ShowsItems result out.old out.new (stray_event event) }
{
    match event {
        None => Ok(()),
        Some(event) => show_stray("event ", "event", event, LIST_REGISTER, out),
    }
}

fn show_entry(entry: Option<Stray>, out: &mut CellWriter) -> Written
    ensures { ShowsItems result out.old out.new (stray_entry entry) }
{
    match entry {
        None => Ok(()),
        Some(stray) => show_stray("entry ", "entry", stray.entry, stray.register, out),
    }
}

fn show_stray(
    before: &str,
    word: &str,
    number: usize,
    register: u32,
    out: &mut CellWriter,
) -> Written
    ensures { ShowsItems result out.old out.new (stray_cell before.now word.now number register) }
{
    out.begin()?;
    out.number(before, word, number as u64)?;
    out.number(" extends ", "register", register as u64)?;
    out.text("\n")?;
    out.end()
}

/// Shows from which number on entries were looked at, and the numbers of those that are not known; nothing where no files are known.
pub(crate) fn show_unknown(unknown: Option<&UnknownFiles>, out: &mut CellWriter) -> Written
    ensures { ShowsMembers result out.old out.new (if_some (option_copied unknown.entry) unknown_cell) }
{
    match unknown {
        None => Ok(()),
        Some(unknown) => show_numbers(unknown, out),
    }
}

fn show_numbers(unknown: &UnknownFiles, out: &mut CellWriter) -> Written
    ensures { ShowsMembers result out.old out.new (unknown_cell unknown.now) }
{
    out.number("known_from ", "known_from", unknown.first as u64)?;
    out.text("\n")?;
    out.list("unknown")?;
    show_each(&unknown.numbers, out)?;
    out.end_list()
}

fn show_each(numbers: &[usize], out: &mut CellWriter) -> Written
    ensures { ShowsItems result out.old out.new (each (λ number. item_number (codes "unknown entry ") number (codes "\n")) numbers.now) }
{
    for number in numbers {
        out.item_number("unknown entry ", *number as u64, "\n")?;
    }
    Ok(())
}

pub(crate) fn show_verdict(
    unknown: Option<&UnknownFiles>,
    is_match: bool,
    out: &mut CellWriter,
) -> Written
    ensures { ShowsMembers result out.old out.new (verdict_cell (option_copied unknown.entry) is_match) }
{
    let word = verdict_word(is_all_known(unknown, is_match));
    out.word("verdict ", "verdict", word)?;
    out.text("\n")
}

// Whether no entry is unknown, and the rest is a match.
fn is_all_known(unknown: Option<&UnknownFiles>, is_match: bool) -> bool
    ensures { result ≡ has_no_unknown (option_copied unknown.entry) && is_match }
{
    has_no_unknown(unknown) && is_match
}

pub(crate) fn verdict_word(is_match: bool) -> &'static str
    ensures { result.now ≡ verdict_word is_match }
{
    if is_match { "match" } else { "differ" }
}

/// Whether the report matches, and all that is required holds.
pub(crate) fn meets(report: &Report, requirement: Option<&Requirement>) -> bool
    ensures { result ≡ meets (option_copied requirement.entry) (verdict_of report.now) }
{
    match requirement {
        Some(requirement) => report.meets(requirement),
        None => report.matches(),
    }
}
