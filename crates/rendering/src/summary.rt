//! What a verdict says, in numbers.

ghost use Rattle.std.specs.Prelude.{◌≡◌, ◌==◌, ◌&&◌, not, length, map, option_copied, slice_get};
ghost use Rattle.std.specs.List.{filter, list_all};
ghost use Rattle.std.specs.Option.{option_map_or};
ghost use Rattle.boot_verdict.specs.Names.{is_match, list_verdict_of, verdict_of};
ghost use Rattle.tpm_quotes.specs.Spelling.{selects};
ghost use Rattle.attestations.specs.Quoted.{bank_selection_of};
ghost use Rattle.attestations.specs.Reports.{attest_verdict_of};
ghost use Rattle.rendering.specs.Summaries.{compares_nothing, count_of, differing_of, missing_of, no_summary, outcome_by, outcome_of, reason_of, reasons_by, reasons_on, selected_of, summary_of, summary_of_list, summary_of_quote, summary_of_report, summary_of_rows};

use attestations::{AttestReport, Selected};
use boot_verdict::{ListReport, Report, Requirement, Row, State, Strays};
use judging::{Answer, Answered};
use known_files::{UnknownFiles, has_no_unknown};
use pcr_banks::Alg;
use pcr_values::{ALL_REGISTERS, register_numbered};

/// The verdict that an answer has.
#[derive(Clone, Copy, PartialEq, Eq)]
pub enum Outcome {
    /// None: the answer is no verdict, or is by a quote whose signature nobody checked.
    NoVerdict,
    /// The verdict is `match`.
    Match,
    /// The verdict is `differ`.
    Differ,
}

/// Why a verdict is not `match`.
#[derive(Clone, Copy, PartialEq, Eq)]
pub enum Reason {
    /// Nobody checked the signature of the quote.
    SignatureNotChecked,
    /// An expected register has another value, or the log has no such register.
    OtherValue,
    /// A required register is not expected.
    NotExpected,
    /// The quote is of other values.
    OtherQuote,
    /// The list does not record the boot aggregate of the log; for a list alone: it is empty.
    BootAggregate,
    /// An event of the log extends the list's register, or an entry of the list extends another.
    NotApart,
    /// An entry is of no known file.
    UnknownFile,
    /// No register was compared.
    NothingCompared,
}

/// What a verdict says, in numbers.
#[derive(Clone, Copy, PartialEq, Eq)]
pub struct Summary {
    /// The verdict.
    pub verdict: Outcome,
    /// Why it is not `match`: the first reason that holds, in the order of [`Reason`].
    pub reason: Option<Reason>,
    /// How many expected registers were compared, or looked for; by a quote, how many it selects.
    pub compared: usize,
    /// How many of these match; by a quote all do, if it is of the values to which log and list replay, or else none.
    pub matching: usize,
    /// The first expected register that does not match; else the first that is required and not expected.
    pub first: Option<(Alg, u32)>,
    /// How many registers are required and not expected.
    pub missing: usize,
    /// How many entries the whole list has.
    pub entries: usize,
    /// How many of them are judged: those of the confirmed prefix, or all.
    pub judged: usize,
    /// How many of these are of no known file.
    pub unknown: usize,
}

// No verdict.
const NONE: Summary = Summary {
    verdict: Outcome::NoVerdict,
    reason: None,
    compared: 0,
    matching: 0,
    first: None,
    missing: 0,
    entries: 0,
    judged: 0,
    unknown: 0,
};

impl Summary {
    /// That of no verdict: each number is 0.
    pub fn none() -> Self
        ensures { result ≡ no_summary }
    {
        NONE
    }

    /// The summary of an answer.
    pub fn of(given: &Answered) -> Self
        ensures { result ≡ summary_of given.now }
    {
        match &given.answer {
            Answer::Report(report) => of_report(given, report, report.entries),
            Answer::Prefix(prefix) => of_report(given, &prefix.report, prefix.entries),
            Answer::ListReport(report) => of_list(given, report),
            Answer::Attestation(report) => of_quote(given, report),
            Answer::Positions(positions) => Summary {
                compared: positions.len(),
                ..NONE
            },
            Answer::Registers(_) | Answer::Expected(_) | Answer::Key { .. } => NONE,
        }
    }

    /// Whether the verdict is `match` though no register was compared: nothing says then that log and list are those of the machine.
    pub fn compares_nothing(&self) -> bool
        ensures { result ≡ compares_nothing self.now }
    {
        matches!(self.verdict, Outcome::Match) && self.compared == 0
    }
}

// That of a report on a list with so many entries, or on a prefix of it.
fn of_report(given: &Answered, report: &Report, entries: usize) -> Summary
    ensures { result ≡ summary_of_report given.now.is_success given.now.requirement given.now.unknown (verdict_of report.now) entries }
{
    let is_unbound = !report.aggregate.is_good();
    let reasons = reasons_on(given, &report.rows, is_unbound, report.strays);
    Summary {
        reason: reason_of(given.is_success, &reasons),
        entries,
        judged: report.entries,
        ..of_rows(given, &report.rows)
    }
}

// That of a report on a list alone.
fn of_list(given: &Answered, report: &ListReport) -> Summary
    ensures { result ≡ summary_of_list given.now.is_success given.now.requirement given.now.unknown (list_verdict_of report.now) }
{
    let reasons = reasons_on(given, &report.rows, report.entries == 0, report.strays);
    Summary {
        reason: reason_of(given.is_success, &reasons),
        entries: report.entries,
        judged: report.entries,
        ..of_rows(given, &report.rows)
    }
}

// What rows tell.
#[tactic(auto, using(crate::proofs::SummaryLaws::first_of_both))]
fn of_rows(given: &Answered, rows: &[Row]) -> Summary
    ensures { result ≡ summary_of_rows given.now.is_success given.now.requirement given.now.unknown rows.now }
{
    let (first_missing, missing) = missing_of(given.requirement.as_ref(), rows);
    Summary {
        verdict: outcome_of(given.is_success),
        compared: rows.len(),
        matching: count_matching(rows),
        first: first_differing(rows).or(first_missing),
        missing,
        unknown: count_of(given.unknown.as_ref()),
        ..NONE
    }
}

// That of a report by a quote.
fn of_quote(given: &Answered, report: &AttestReport) -> Summary
    ensures { result ≡ summary_of_quote given.now.is_success given.now.unknown (attest_verdict_of report.now) }
{
    let selected = count_selected(&report.quoted.selections);
    let reasons = reasons_by(given.unknown.as_ref(), report);
    Summary {
        verdict: outcome_by(given.is_success, report.signature.is_signed()),
        reason: reason_of(given.is_success, &reasons),
        compared: selected,
        matching: if report.is_quoted { selected } else { 0 },
        first: first_differing(&report.report.rows),
        entries: entries_of(report),
        judged: report.report.entries,
        unknown: count_of(given.unknown.as_ref()),
        ..NONE
    }
}

// ---- verdicts and reasons

fn outcome_of(is_success: bool) -> Outcome
    ensures { result ≡ outcome_of is_success }
{
    if is_success {
        Outcome::Match
    } else {
        Outcome::Differ
    }
}

// The verdict by a quote: none if nobody checked its signature.
fn outcome_by(is_success: bool, is_signed: bool) -> Outcome
    ensures { result ≡ outcome_by is_success is_signed }
{
    if is_signed {
        outcome_of(is_success)
    } else {
        Outcome::NoVerdict
    }
}

// The first reason that holds, if the verdict is no match.
fn reason_of(is_success: bool, reasons: &[(bool, Reason)]) -> Option<Reason>
    ensures { result ≡ reason_of is_success reasons.now }
{
    if is_success {
        return None;
    }
    let first = reasons.iter().find(|reason| reason.0)?;
    Some(first.1)
}

// What is against a match by expected registers.
fn reasons_on(
    given: &Answered,
    rows: &[Row],
    is_unbound: bool,
    strays: Strays,
) -> [(bool, Reason); 6]
    ensures { result ≡ reasons_on given.now.requirement given.now.unknown rows.now is_unbound strays }
{
    let required = given.requirement.as_ref();
    [
        (!all_match(rows), Reason::OtherValue),
        (missing_of(required, rows).1 != 0, Reason::NotExpected),
        (is_unbound, Reason::BootAggregate),
        (required.is_some() && !strays.are_none(), Reason::NotApart),
        (!has_no_unknown(given.unknown.as_ref()), Reason::UnknownFile),
        (rows.is_empty(), Reason::NothingCompared),
    ]
}

// What is against a match by a quote.
fn reasons_by(unknown: Option<&UnknownFiles>, report: &AttestReport) -> [(bool, Reason); 5]
    ensures { result ≡ reasons_by (option_copied unknown.entry) (attest_verdict_of report.now) }
{
    let judged = &report.report;
    [
        (!report.signature.is_signed(), Reason::SignatureNotChecked),
        (!report.is_quoted, Reason::OtherQuote),
        (!judged.aggregate.is_good(), Reason::BootAggregate),
        (!judged.strays.are_none(), Reason::NotApart),
        (!has_no_unknown(unknown), Reason::UnknownFile),
    ]
}

// ---- registers and entries

fn is_match(row: &Row) -> bool
    ensures { result ≡ is_match row.now }
{
    matches!(row.state, State::Match)
}

// Whether each register matches.
fn all_match(rows: &[Row]) -> bool
    ensures { result ≡ list_all is_match rows.now }
{
    rows.iter().all(|row| is_match(row))
}

// How many registers match.
fn count_matching(rows: &[Row]) -> usize
    ensures { result ≡ length (filter is_match rows.now) }
{
    rows.iter().filter(|row| is_match(row)).count()
}

// The first register that does not match.
fn first_differing(rows: &[Row]) -> Option<(Alg, u32)>
    ensures { result ≡ slice_get (differing_of rows.now) 0 }
{
    let row = rows.iter().find(|row| !is_match(row))?;
    Some((row.expected.alg, row.expected.register))
}

// The first register that is required and has no row, and how many there are.
fn missing_of(required: Option<&Requirement>, rows: &[Row]) -> (Option<(Alg, u32)>, usize)
    ensures first { result.0 ≡ slice_get (missing_of (option_copied required.entry) rows.now) 0 }
    ensures count { result.1 ≡ length (missing_of (option_copied required.entry) rows.now) }
{
    match required {
        None => (None, 0),
        Some(required) => missing_in(required, rows),
    }
}

fn missing_in(required: &Requirement, rows: &[Row]) -> (Option<(Alg, u32)>, usize)
    ensures first { result.0 ≡ slice_get (missing_of (Some required.now) rows.now) 0 }
    ensures count { result.1 ≡ length (missing_of (Some required.now) rows.now) }
{
    let mut first = None;
    let mut count = 0;
    for number in 0..ALL_REGISTERS {
        let (alg, register) = register_numbered(number);
        if required.is_missing(rows, alg, register) {
            first = first.or(Some((alg, register)));
            count += 1;
        }
    }
    (first, count)
}

// How many registers are selected.
fn count_selected(selections: &[Selected]) -> usize
    ensures { result ≡ length (selected_of (map bank_selection_of selections.now)) }
{
    let mut count = 0;
    for number in 0..ALL_REGISTERS {
        let (alg, register) = register_numbered(number);
        if selects(selections, alg, register) {
            count += 1;
        }
    }
    count
}

// Whether the register is selected.
fn selects(selections: &[Selected], alg: Alg, register: u32) -> bool
    ensures { result ≡ selects (map bank_selection_of selections.now) alg register }
{
    selections.iter().any(|bank| bank.alg.tpm_id() == alg.tpm_id() && bank.selects(register))
}

// How many entries the whole list has.
fn entries_of(report: &AttestReport) -> usize
    ensures { result ≡ option_map_or (λ whole. whole.entries) report.now.prefix report.now.report.entries }
{
    match report.prefix {
        Some(whole) => whole.entries,
        None => report.report.entries,
    }
}

// How many entries are of no known file.
fn count_of(unknown: Option<&UnknownFiles>) -> usize
    ensures { result ≡ count_of (option_copied unknown.entry) }
{
    match unknown {
        Some(unknown) => unknown.numbers.len(),
        None => 0,
    }
}
