//! Why an answer is that something differs.

ghost use Rattle.std.specs.Prelude.{◌≡◌, map, option_map};
ghost use Rattle.hints.specs.Hints.{absent_place, absent_row, causes_at, causes_by, causes_in, causes_of, causes_of_quote, causes_of_report, first_missing, first_unknown, grown_by, has_none, is_absent, is_nowhere, is_of_list, is_other, list_place, list_row, log_place, log_row, missing_in, missing_of};

use attestations::{AttestReport, ExpectedValues};
use boot_verdict::{
    Aggregate, HasExpected, LIST_REGISTER, Located, Position, Report, Requirement, Row, State,
    Strays,
};
use judging::{Answer, Answered};
use pcr_banks::{Alg, REGISTERS};
use pcr_values::Expected;

/// A list of which the values that are compared are those after a prefix.
#[derive(Clone, Copy, PartialEq, Eq)]
pub(crate) struct Grown {
    /// How many entries the prefix has.
    pub confirmed: usize,
    /// How many the list has.
    pub entries: usize,
}

/// What an answer is on.
#[derive(Clone, Copy, PartialEq, Eq)]
pub(crate) enum JudgedBy {
    /// The values that a log and a list make.
    Values,
    /// Those that a list alone makes.
    ListAlone,
    /// Where log and list make them first.
    Places,
}

/// Why an answer is that something differs, by what a person may do about it.
#[derive(Clone, Copy)]
pub(crate) struct Causes {
    /// Whether the list has no entries.
    pub is_empty: bool,
    /// Whether no register is expected.
    pub is_bare: bool,
    /// What is judged.
    pub judged: JudgedBy,
    /// The first expected value of the list's register that it does not have.
    pub list: Option<Expected>,
    /// The first of another register.
    pub log: Option<Expected>,
    /// The first of a register that the log does not have.
    pub absent: Option<Expected>,
    /// The first register that is required, and not expected.
    pub missing: Option<(Alg, u32)>,
    /// What the boot aggregate is, if it is compared.
    pub aggregate: Option<Aggregate>,
    /// What of log and list extends a register that is the other's.
    pub strays: Strays,
    /// What came of the values of expected registers, if log and list are not what a quote is of.
    pub values: Option<ExpectedValues>,
    /// The first entry that is not known, if files have to be known.
    pub unknown: Option<usize>,
}

// Nothing is wrong.
const NO_CAUSE: Causes = Causes {
    is_empty: false,
    is_bare: false,
    judged: JudgedBy::Values,
    list: None,
    log: None,
    absent: None,
    missing: None,
    aggregate: None,
    strays: NO_STRAYS,
    values: None,
    unknown: None,
};

const NO_STRAYS: Strays = Strays {
    event: None,
    entry: None,
};

/// Why this answer is that something differs.
pub(crate) fn causes_of(given: &Answered) -> Causes
    ensures { result ≡ causes_of given.now }
{
    Causes {
        unknown: first_unknown(given),
        ..causes_by(given.requirement.as_ref(), &given.answer)
    }
}

// The first entry that is not known.
fn first_unknown(given: &Answered) -> Option<usize>
    ensures { result ≡ first_unknown given.now.unknown }
{
    let unknown = given.unknown.as_ref()?;
    unknown.numbers.first().copied()
}

// Those that the answer itself tells.
fn causes_by(required: Option<&Requirement>, answer: &Answer) -> Causes
    ensures { result ≡ causes_by (option_map (λ ranges. ranges.now) required.entry) answer.now }
{
    match answer {
        Answer::Report(report) => causes_of_report(required, report),
        Answer::Prefix(prefix) => causes_of_report(required, &prefix.report),
        Answer::Attestation(report) => causes_of_quote(report),
        Answer::ListReport(report) => Causes {
            is_empty: report.entries == 0,
            judged: JudgedBy::ListAlone,
            strays: report.strays,
            ..causes_in(required, &report.rows)
        },
        Answer::Positions(positions) => causes_at(required, positions),
        Answer::Registers(_) | Answer::Expected { .. } | Answer::Key { .. } => NO_CAUSE,
    }
}

// Those of a report on a log and a list.
fn causes_of_report(required: Option<&Requirement>, report: &Report) -> Causes
    ensures { result ≡ causes_of_report (option_map (λ ranges. ranges.now) required.entry) report.now }
{
    Causes {
        is_empty: report.entries == 0,
        aggregate: Some(report.aggregate),
        strays: report.strays,
        ..causes_in(required, &report.rows)
    }
}

// Those of a report by a quote.
fn causes_of_quote(report: &AttestReport) -> Causes
    ensures { result ≡ causes_of_quote report.now }
{
    Causes {
        is_bare: false,
        values: if report.is_quoted {
            None
        } else {
            Some(report.expected)
        },
        ..causes_of_report(None, &report.report)
    }
}

// Those that the rows of a report tell, where these registers are required.
fn causes_in(required: Option<&Requirement>, rows: &[Row]) -> Causes
    ensures { result ≡ causes_in (option_map (λ ranges. ranges.now) required.entry) rows.now }
{
    Causes {
        is_bare: rows.is_empty(),
        list: list_row(rows),
        log: log_row(rows),
        absent: absent_row(rows),
        missing: missing_of(required, rows),
        ..NO_CAUSE
    }
}

// Those that the positions of expected registers tell.
fn causes_at(required: Option<&Requirement>, positions: &[Located]) -> Causes
    ensures { result ≡ causes_at (option_map (λ ranges. ranges.now) required.entry) positions.now }
{
    Causes {
        is_bare: positions.is_empty(),
        list: list_place(positions),
        log: log_place(positions),
        absent: absent_place(positions),
        judged: JudgedBy::Places,
        missing: missing_of(required, positions),
        ..NO_CAUSE
    }
}

// Whether this is the list's register.
fn is_of_list(expected: &Expected) -> bool
    ensures { result ≡ is_of_list expected.now }
{
    expected.register == LIST_REGISTER
}

// Whether the register has another value.
fn is_other(state: State) -> bool
    ensures { result ≡ is_other state }
{
    matches!(state, State::Differ(_))
}

fn list_row(rows: &[Row]) -> Option<Expected>
    ensures { result ≡ list_row rows.now }
{
    let row = rows
        .iter()
        .find(|row| is_other(row.state) && is_of_list(&row.expected))?;
    Some(row.expected)
}

fn log_row(rows: &[Row]) -> Option<Expected>
    ensures { result ≡ log_row rows.now }
{
    let row = rows
        .iter()
        .find(|row| is_other(row.state) && !is_of_list(&row.expected))?;
    Some(row.expected)
}

fn absent_row(rows: &[Row]) -> Option<Expected>
    ensures { result ≡ absent_row rows.now }
{
    let row = rows.iter().find(|row| is_absent(row.state))?;
    Some(row.expected)
}

// Whether the log has no such register.
fn is_absent(state: State) -> bool
    ensures { result ≡ is_absent state }
{
    matches!(state, State::Absent)
}

fn list_place(positions: &[Located]) -> Option<Expected>
    ensures { result ≡ list_place positions.now }
{
    let row = positions.iter().find(|row| is_nowhere(row.position) && is_of_list(&row.expected))?;
    Some(row.expected)
}

fn log_place(positions: &[Located]) -> Option<Expected>
    ensures { result ≡ log_place positions.now }
{
    let row = positions.iter().find(|row| is_nowhere(row.position) && !is_of_list(&row.expected))?;
    Some(row.expected)
}

fn absent_place(positions: &[Located]) -> Option<Expected>
    ensures { result ≡ absent_place positions.now }
{
    let row = positions.iter().find(|row| has_none(row.position))?;
    Some(row.expected)
}

// Whether the value is never reached.
fn is_nowhere(position: Position) -> bool
    ensures { result ≡ is_nowhere position }
{
    matches!(position, Position::Nowhere)
}

// Whether the log has no such register.
fn has_none(position: Position) -> bool
    ensures { result ≡ has_none position }
{
    matches!(position, Position::Absent)
}

// The first register that is required and has none of these rows, by its bank, and then by its number.
fn missing_of<T: HasExpected>(required: Option<&Requirement>, rows: &[T]) -> Option<(Alg, u32)>
    ensures { result ≡ missing_of (option_map (λ ranges. ranges.now) required.entry) (map T.expected_of rows.now) }
{
    let required = required?;
    first_missing(required, rows)
}

fn first_missing<T: HasExpected>(required: &Requirement, rows: &[T]) -> Option<(Alg, u32)>
    ensures { result ≡ first_missing required.now (map T.expected_of rows.now) }
{
    let alg = Alg::ALL
        .iter()
        .find(|alg| missing_in(required, rows, **alg).is_some())?;
    let register = missing_in(required, rows, *alg)?;
    Some((*alg, register))
}

// The first of a bank.
fn missing_in<T: HasExpected>(required: &Requirement, rows: &[T], alg: Alg) -> Option<u32>
    ensures { result ≡ missing_in required.now (map T.expected_of rows.now) alg }
{
    (0..REGISTERS).find(|register| required.is_missing(rows, alg, *register))
}

/// Of which part of the list the values are, by an answer on its confirmed prefix.
pub(crate) fn grown_by(given: &Answered) -> Option<Grown>
    ensures { result ≡ grown_by given.now.answer }
{
    match &given.answer {
        Answer::Prefix(prefix) => Some(Grown {
            confirmed: prefix.report.entries,
            entries: prefix.entries,
        }),
        Answer::Attestation(report) => {
            let whole = report.prefix?;
            Some(Grown {
                confirmed: report.report.entries,
                entries: whole.entries,
            })
        }
        _ => None,
    }
}
