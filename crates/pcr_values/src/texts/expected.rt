//! The lines of expected registers.

ghost use Rattle.byte_streams.specs.Streams.{Sends};
ghost use Rattle.pcr_values.specs.WrittenTexts.{expected_line, expected_text};

use super::digits::digits_of;
use crate::expected::Expected;
use byte_streams::{Failed, Sink, send_pieces};
use itoa::Buffer;
use pcr_banks::MOST_DIGITS;

/// Writes a line for each of these registers, in order.
/// [`crate::read_expected`] reads such lines, and from those of what [`crate::read_printed`] read, the same registers again
/// ([`crate::laws`]).
///
/// A line is the bank's algorithm by name, the register in decimal and the value in lower case hexadecimal, separated by spaces,
/// with a line feed at the end. After `Err` the sink has taken a prefix of the text.
pub fn write_expected<S: Sink>(expected: &[Expected], sink: &mut S) -> Result<(), Failed>
    ensures { Sends (S.state sink.old) (S.state sink.new) result (expected_text expected.now) }
{
    for register in expected {
        write_line(register, sink)?;
    }
    Ok(())
}

fn write_line<S: Sink>(expected: &Expected, sink: &mut S) -> Result<(), Failed>
    ensures { Sends (S.state sink.old) (S.state sink.new) result (expected_line expected.now) }
{
    let mut room = [0; MOST_DIGITS];
    let digits = digits_of(&expected.value, &mut room);
    let mut number = Buffer::new();
    let register = number.format(expected.register).as_bytes();
    let name = expected.alg.name().as_bytes();
    send_pieces(&[name, b" ", register, b" ", digits, b"\n"], sink)
}
