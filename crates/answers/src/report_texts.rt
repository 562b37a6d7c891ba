//! The lines of a report.

ghost use Rattle.std.specs.Prelude.{◌≡◌, flat_map};
ghost use Rattle.byte_streams.specs.Streams.{Sends};
ghost use Rattle.boot_verdict.specs.Names.{aggregate_word, verdict_of};
ghost use Rattle.answers.specs.ReportTexts.{aggregate_text, counts_text, outcome_text, register_words, report_text, row_line, row_text, verdict_text};

use boot_verdict::{Aggregate, Report, Row, State, aggregate_word};
use byte_streams::{Failed, Sink, send, send_pieces};
use itoa::Buffer;
use pcr_banks::MOST_DIGITS;
use pcr_values::{Expected, digits_of};

/// Writes a report: a line with the number of events and the locality, one with the number of entries, one with the state of the
/// boot aggregate, one for each expected register, and the verdict.
///
/// `sha256 4 match`: the register has the expected value. `sha256 4 differ` and a value in lower case hexadecimal: it has this
/// value. `sha1 4 absent`: the log has no such bank, or there is no such register. After `Err` the sink has taken a prefix of the
/// text.
pub fn write_report<S: Sink>(report: &Report, sink: &mut S) -> Result<(), Failed>
    ensures { Sends (S.state sink.old) (S.state sink.new) result (report_text (verdict_of report.now)) }
{
    write_counts(report.events, report.locality, report.entries, sink)?;
    write_outcome(report, report.matches(), sink)
}

// Writes the lines of events and locality, and of entries.
fn write_counts<S: Sink>(
    events: usize,
    locality: u8,
    entries: usize,
    sink: &mut S,
) -> Result<(), Failed>
    ensures { Sends (S.state sink.old) (S.state sink.new) result (counts_text events locality entries) }
{
    let mut first = Buffer::new();
    let mut second = Buffer::new();
    let mut third = Buffer::new();
    let pieces: [&[u8]; 7] = [
        b"events ",
        first.format(events).as_bytes(),
        b" locality ",
        second.format(locality).as_bytes(),
        b"\nentries ",
        third.format(entries).as_bytes(),
        b"\n",
    ];
    send_pieces(&pieces, sink)
}

// Writes what comes after the counts: the boot aggregate, the expected registers, and the verdict, which is `match` if the caller says so.
fn write_outcome<S: Sink>(report: &Report, is_match: bool, sink: &mut S) -> Result<(), Failed>
    ensures { Sends (S.state sink.old) (S.state sink.new) result (outcome_text (verdict_of report.now) is_match) }
{
    write_aggregate(report.aggregate, sink)?;
    write_rows(&report.rows, sink)?;
    send(verdict_line(is_match), sink)
}

fn write_aggregate<S: Sink>(aggregate: Aggregate, sink: &mut S) -> Result<(), Failed>
    ensures { Sends (S.state sink.old) (S.state sink.new) result (aggregate_text aggregate) }
{
    let word = aggregate_word(aggregate).as_bytes();
    send_pieces(&[b"boot_aggregate ", word, b"\n"], sink)
}

fn write_rows<S: Sink>(rows: &[Row], sink: &mut S) -> Result<(), Failed>
    ensures { Sends (S.state sink.old) (S.state sink.new) result (flat_map row_text rows.now) }
{
    for row in rows {
        write_row(row, sink)?;
    }
    Ok(())
}

fn write_row<S: Sink>(row: &Row, sink: &mut S) -> Result<(), Failed>
    ensures { Sends (S.state sink.old) (S.state sink.new) result (row_text row.now) }
{
    match row.state {
        State::Match => write_line(&row.expected, "match", b"", sink),
        State::Differ(value) => {
            let mut room = [0; MOST_DIGITS];
            write_line(&row.expected, "differ ", digits_of(&value, &mut room), sink)
        }
        State::Absent => write_line(&row.expected, "absent", b"", sink),
    }
}

/// Writes the line of an expected register, with this word and then these digits.
pub(crate) fn write_line<S: Sink>(
    expected: &Expected,
    word: &str,
    digits: &[u8],
    sink: &mut S,
) -> Result<(), Failed>
    ensures { Sends (S.state sink.old) (S.state sink.new) result (row_line expected.now word.now digits.now) }
{
    write_register_words(expected, sink)?;
    send_pieces(&[word.as_bytes(), digits, b"\n"], sink)
}

// Writes the start of an expected register's line: the algorithm's name and the register.
fn write_register_words<S: Sink>(expected: &Expected, sink: &mut S) -> Result<(), Failed>
    ensures { Sends (S.state sink.old) (S.state sink.new) result (register_words expected.now) }
{
    let mut number = Buffer::new();
    let name = expected.alg.name().as_bytes();
    let register = number.format(expected.register).as_bytes();
    send_pieces(&[name, b" ", register, b" "], sink)
}

fn verdict_line(is_match: bool) -> &'static [u8]
    ensures { result.now ≡ verdict_text is_match }
{
    if is_match {
        b"verdict match\n"
    } else {
        b"verdict differ\n"
    }
}
