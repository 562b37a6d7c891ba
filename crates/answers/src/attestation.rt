//! The report on a log and a list by a quote.

ghost use Rattle.std.specs.Prelude.{◌≡◌, ◌&&◌, option_copied};
ghost use Rattle.boot_verdict.specs.Names.{verdict_of};
ghost use Rattle.known_files.specs.Unknown.{has_no_unknown};
ghost use Rattle.attestations.specs.declared.expected.ExpectedValues.TheVariants.{Confirmed};
ghost use Rattle.attestations.specs.Reports.{attest_verdict_of, is_attested};
ghost use Rattle.cells.specs.Cells.{ShowsMembers};
ghost use Rattle.answers.specs.AttestationCells.{attestation_cell, attestation_counts, comparison_cell, conclusion_cell, confirmed_word, quote_cell, signed_cell, unsigned_cell, valid_cell, values_cell, verdict_cell};

use crate::prefix::show_prefix_counts;
use crate::quoted::show_stated;
use crate::report::{show_aggregate, show_counts, show_extends, show_unknown, verdict_word};
use crate::row_order::{RowOrder, show_report_rows};
use attestations::{AttestReport, ExpectedValues, SignatureState, Whole};
use boot_verdict::{Report, Row};
use cells::{CellWriter, Written};
use known_files::{UnknownFiles, has_no_unknown};
use std::alloc::Global;

/// Shows the report on a log and a list by a quote.
pub fn show_attestation(
    alloc: Global,
    report: &AttestReport,
    unknown: Option<&UnknownFiles>,
    order: RowOrder,
    out: &mut CellWriter,
) -> Written
    ensures { ShowsMembers result out.old out.new (attestation_cell order (option_copied unknown.entry) (attest_verdict_of report.now)) }
{
    show_stated(alloc, &report.quoted, out)?;
    show_list_counts(alloc, &report.report, report.prefix, out)?;
    show_comparison(alloc, report, order, out)?;
    show_unknown(unknown, out)?;
    show_quote(report.is_quoted, out)?;
    show_conclusion(report.signature, is_attested(report, unknown), out)
}

// Whether log and list are what the quote is of, and no entry is unknown.
fn is_attested(report: &AttestReport, unknown: Option<&UnknownFiles>) -> bool
    ensures { result ≡ has_no_unknown (option_copied unknown.entry) && is_attested (attest_verdict_of report.now) }
{
    has_no_unknown(unknown) && report.is_attested()
}

// Shows the counts of the list, and if the report is on a prefix how much of it is confirmed.
fn show_list_counts(
    alloc: Global,
    report: &Report,
    prefix: Option<Whole>,
    out: &mut CellWriter,
) -> Written
    ensures { ShowsMembers result out.old out.new (attestation_counts (verdict_of report.now) prefix) }
{
    match prefix {
        None => show_counts(report.events, report.locality, report.entries, out),
        Some(whole) => show_prefix_counts(alloc, report, whole.entries, whole.unconfirmed, out),
    }
}

// Shows the boot aggregate, what came of expected values, and what extends a register that is not its own.
fn show_comparison(
    alloc: Global,
    report: &AttestReport,
    order: RowOrder,
    out: &mut CellWriter,
) -> Written
    ensures { ShowsMembers result out.old out.new (comparison_cell order (attest_verdict_of report.now)) }
{
    show_aggregate(report.report.aggregate, out)?;
    show_values(alloc, report.expected, &report.report.rows, order, out)?;
    show_extends(report.report.strays, out)
}

// Shows what came of expected values, if some were given.
fn show_values(
    alloc: Global,
    expected: ExpectedValues,
    rows: &[Row],
    order: RowOrder,
    out: &mut CellWriter,
) -> Written
    ensures { ShowsMembers result out.old out.new (values_cell order expected rows.now) }
{
    match expected {
        ExpectedValues::NotGiven => Ok(()),
        ExpectedValues::Confirmed => show_confirmed(alloc, rows, order, out),
        ExpectedValues::Unconfirmed => show_word("unconfirmed", out),
    }
}

// Shows that expected values are confirmed, and how their registers compare.
fn show_confirmed(alloc: Global, rows: &[Row], order: RowOrder, out: &mut CellWriter) -> Written
    ensures { ShowsMembers result out.old out.new (values_cell order Confirmed rows.now) }
{
    show_word("confirmed", out)?;
    show_report_rows(alloc, rows, None, order, out)
}

fn show_word(word: &str, out: &mut CellWriter) -> Written
    ensures { ShowsMembers result out.old out.new (confirmed_word word.now) }
{
    out.word("expected ", "expected", word)?;
    out.text("\n")
}

fn show_quote(is_quoted: bool, out: &mut CellWriter) -> Written
    ensures { ShowsMembers result out.old out.new (quote_cell is_quoted) }
{
    out.word("quote ", "quote", verdict_word(is_quoted))?;
    out.text("\n")
}

// Shows what is known of the signature, and the verdict.
fn show_conclusion(signature: SignatureState, is_match: bool, out: &mut CellWriter) -> Written
    ensures { ShowsMembers result out.old out.new (conclusion_cell signature is_match) }
{
    match signature {
        SignatureState::NotChecked => show_unsigned(out),
        SignatureState::Checked => show_signed(is_match, out),
        SignatureState::Valid => show_valid(is_match, out),
    }
}

fn show_signed(is_match: bool, out: &mut CellWriter) -> Written
    ensures { ShowsMembers result out.old out.new (signed_cell is_match) }
{
    out.word_member("signature", "checked")?;
    show_verdict(is_match, out)
}

fn show_valid(is_match: bool, out: &mut CellWriter) -> Written
    ensures { ShowsMembers result out.old out.new (valid_cell is_match) }
{
    out.word("signature ", "signature", "valid")?;
    out.text("\n")?;
    show_verdict(is_match, out)
}

fn show_verdict(is_match: bool, out: &mut CellWriter) -> Written
    ensures { ShowsMembers result out.old out.new (verdict_cell is_match) }
{
    out.word("verdict ", "verdict", verdict_word(is_match))?;
    out.text("\n")
}

fn show_unsigned(out: &mut CellWriter) -> Written
    ensures { ShowsMembers result out.old out.new unsigned_cell }
{
    out.word("signature ", "signature", "not checked")?;
    out.word_member("verdict", "signature not checked")?;
    out.text("\n")
}
