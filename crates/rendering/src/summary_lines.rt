//! A verdict in one line, in place of its report.

ghost use Rattle.std.specs.Prelude.{◌≡◌, ◌==◌, IfOk, Some};
ghost use Rattle.cells.specs.Cells.{ShowsMembers, beside, text};
ghost use Rattle.rendering.specs.SummaryLines.{aggregate_words, all_entries, counts_cell, entries_cell, entries_word, judged_entries, outcome_word, pcr_cell, place_cell, reason_cell, reason_part, summary_cell, summary_line, unknown_part};

use crate::summary::{Outcome, Reason, Summary};
use cells::{CellWriter, Form, Shown, Written};
use pcr_banks::Alg;
use std::alloc::{AllocError, Global};

/// The line of a verdict: its word, the first reason why it is no match, and counts. The word `match` is in no other line.
///
/// Fails only if memory runs out.
pub fn summary_line(alloc: Global, summary: &Summary) -> Result<Vec<u8>, AllocError>
    ensures { IfOk result (λ line. line.items ≡ summary_line summary.now) }
{
    cells::render(alloc, Form::Text, &SummaryLine { summary })
}

// A summary that is shown.
#[derive(Drop)]
struct SummaryLine<'a> {
    summary: &'a Summary,
}

impl Shown for SummaryLine<'_> {
    ghost cell_of = { λ line. summary_cell line.summary.now };

    fn show(&self, _alloc: Global, out: &mut CellWriter) -> Written {
        show_summary(self.summary, out)
    }
}

fn show_summary(summary: &Summary, out: &mut CellWriter) -> Written
    ensures { ShowsMembers result out.old out.new (summary_cell summary.now) }
{
    out.text(outcome_word(summary.verdict))?;
    out.text(": ")?;
    show_reason_part(summary, summary.reason, out)?;
    show_counts(summary, out)?;
    out.text("\n")
}

fn outcome_word(verdict: Outcome) -> &'static str
    ensures { result.now ≡ outcome_word verdict }
{
    match verdict {
        Outcome::NoVerdict => "no verdict",
        Outcome::Match => "match",
        Outcome::Differ => "differ",
    }
}

// Shows why the verdict is no match, if there is a reason.
fn show_reason_part(summary: &Summary, reason: Option<Reason>, out: &mut CellWriter) -> Written
    ensures { ShowsMembers result out.old out.new (reason_part summary.now reason) }
{
    match reason {
        None => Ok(()),
        Some(reason) => show_reason_before(summary, reason, out),
    }
}

fn show_reason_before(summary: &Summary, reason: Reason, out: &mut CellWriter) -> Written
    ensures { ShowsMembers result out.old out.new (reason_part summary.now (Some reason)) }
{
    show_reason(summary, reason, out)?;
    out.text("; ")
}

fn show_reason(summary: &Summary, reason: Reason, out: &mut CellWriter) -> Written
    ensures { ShowsMembers result out.old out.new (reason_cell summary.now reason) }
{
    match reason {
        Reason::SignatureNotChecked => out.text("nobody checked the signature"),
        Reason::OtherValue => show_of_pcr(summary.first, " is not as expected", out),
        Reason::NotExpected => show_of_pcr(summary.first, " is required, but not in EXPECTED", out),
        Reason::OtherQuote => out.text("the quote has other PCR values"),
        Reason::BootAggregate => out.text(aggregate_words(summary.entries)),
        Reason::NotApart => out.text("an event extends PCR 10, or an entry another PCR"),
        Reason::UnknownFile => out.text("an entry is of no known file"),
        Reason::NothingCompared => out.text("no PCR was compared"),
    }
}

// Shows the register, and what is said of it.
fn show_of_pcr(register: Option<(Alg, u32)>, said: &str, out: &mut CellWriter) -> Written
    ensures { ShowsMembers result out.old out.new (beside (pcr_cell register) (text said.now)) }
{
    show_pcr(register, out)?;
    out.text(said)
}

fn show_pcr(register: Option<(Alg, u32)>, out: &mut CellWriter) -> Written
    ensures { ShowsMembers result out.old out.new (pcr_cell register) }
{
    match register {
        None => out.text("a PCR"),
        Some((alg, number)) => show_place(alg, number, out),
    }
}

fn show_place(alg: Alg, number: u32, out: &mut CellWriter) -> Written
    ensures { ShowsMembers result out.old out.new (place_cell (alg, number)) }
{
    out.count("PCR ", number as usize)?;
    out.text(" in the ")?;
    out.text(alg.name())?;
    out.text(" bank")
}

// A list without entries records no boot aggregate.
fn aggregate_words(entries: usize) -> &'static str
    ensures { result.now ≡ aggregate_words entries }
{
    if entries == 0 {
        "the list is empty"
    } else {
        "the list does not record the boot aggregate of the log"
    }
}

fn show_counts(summary: &Summary, out: &mut CellWriter) -> Written
    ensures { ShowsMembers result out.old out.new (counts_cell summary.now) }
{
    out.count("", summary.matching)?;
    out.count(" of ", summary.compared)?;
    out.text(" PCRs agree")?;
    show_entries(summary.judged, summary.entries, out)?;
    show_unknown(summary.unknown, out)
}

// Shows how many entries are judged.
fn show_entries(judged: usize, entries: usize, out: &mut CellWriter) -> Written
    ensures { ShowsMembers result out.old out.new (entries_cell judged entries) }
{
    if is_same(judged, entries) {
        show_all_entries(entries, out)
    } else {
        show_judged_entries(judged, entries, out)
    }
}

fn is_same(one: usize, other: usize) -> bool
    ensures { result ≡ (one == other) }
{
    one == other
}

fn show_all_entries(entries: usize, out: &mut CellWriter) -> Written
    ensures { ShowsMembers result out.old out.new (all_entries entries) }
{
    out.count(", ", entries)?;
    out.text(entries_word(entries))
}

fn show_judged_entries(judged: usize, entries: usize, out: &mut CellWriter) -> Written
    ensures { ShowsMembers result out.old out.new (judged_entries judged entries) }
{
    out.count(", ", judged)?;
    out.count(" of ", entries)?;
    out.text(" entries judged")
}

fn entries_word(entries: usize) -> &'static str
    ensures { result.now ≡ entries_word entries }
{
    if entries == 1 { " entry" } else { " entries" }
}

// Shows how many entries are of no known file, if there are some.
fn show_unknown(unknown: usize, out: &mut CellWriter) -> Written
    ensures { ShowsMembers result out.old out.new (unknown_part unknown) }
{
    if is_same(unknown, 0) {
        return Ok(());
    }
    out.count(", ", unknown)?;
    out.text(" unknown")
}
