//! The lines of positions.

ghost use Rattle.std.specs.Prelude.{◌≡◌, flat_map};
ghost use Rattle.byte_streams.specs.Streams.{Sends};
ghost use Rattle.answers.specs.PositionTexts.{found_text, located_text, position_digits, position_words, positions_text};

use crate::report_texts::write_line;
use boot_verdict::{Located, Position, all_found};
use byte_streams::{Failed, Sink, send};
use itoa::Buffer;

/// Writes where each expected register first has its value, and whether they are located: there is one, and each has its value.
///
/// A line for each row: `sha256 0 at reset`, `sha256 4 after event 12` (events count from 1), `sha256 10 after entry 98` (entries
/// count from 0), `sha256 23 nowhere`, or `sha1 4 absent`: the log has no such bank, or there is no such register. The last line is
/// `located`, or `not located` if some row is `nowhere` or `absent`, or there is none. After `Err` the sink has taken a prefix of the
/// text.
pub fn write_positions<S: Sink>(located: &[Located], sink: &mut S) -> Result<(), Failed>
    ensures { Sends (S.state sink.old) (S.state sink.new) result (positions_text located.now) }
{
    write_all(located, sink)?;
    send(found_line(all_found(located)), sink)
}

fn write_all<S: Sink>(located: &[Located], sink: &mut S) -> Result<(), Failed>
    ensures { Sends (S.state sink.old) (S.state sink.new) result (flat_map located_text located.now) }
{
    for row in located {
        write_one(row, sink)?;
    }
    Ok(())
}

fn write_one<S: Sink>(row: &Located, sink: &mut S) -> Result<(), Failed>
    ensures { Sends (S.state sink.old) (S.state sink.new) result (located_text row.now) }
{
    let mut room = Buffer::new();
    let digits = position_digits(row.position, &mut room);
    write_line(&row.expected, position_words(row.position), digits, sink)
}

fn position_words(position: Position) -> &'static str
    ensures { result.now ≡ position_words position }
{
    match position {
        Position::Reset => "at reset",
        Position::Event(_) => "after event ",
        Position::Entry(_) => "after entry ",
        Position::Nowhere => "nowhere",
        Position::Absent => "absent",
    }
}

// The number of the event or entry, written into `room`; empty for other positions.
fn position_digits<'a>(position: Position, room: &'a mut Buffer) -> &'a [u8]
    ensures { result.now ≡ position_digits position }
{
    match position {
        Position::Event(number) | Position::Entry(number) => room.format(number).as_bytes(),
        Position::Reset | Position::Nowhere | Position::Absent => b"",
    }
}

fn found_line(all_found: bool) -> &'static [u8]
    ensures { result.now ≡ found_text all_found }
{
    if all_found {
        b"located\n"
    } else {
        b"not located\n"
    }
}
