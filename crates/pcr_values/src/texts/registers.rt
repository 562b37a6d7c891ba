//! The lines of registers.

ghost use Rattle.std.specs.Prelude.{◌≡◌, ℕ, List, Option, option_map};
ghost use Rattle.pcr_banks.specs.declared.alg.Alg.{Alg};
ghost use Rattle.pcr_banks.specs.Names.{alg_of, bytes_of, digest_of};
ghost use Rattle.byte_streams.specs.Streams.{Sends};
ghost use Rattle.pcr_values.specs.RegisterTexts.{register_line, register_change, change_line, registers_text};

use super::digits::digits_of;
use crate::all_registers::{ALL_REGISTERS, register_numbered};
use byte_streams::{Failed, Sink, send_pieces};
use itoa::Buffer;
use pcr_banks::{Alg, Banks, Digest, MOST_DIGITS};

fn write_register_line<S: Sink>(register: u32, value: &Digest, sink: &mut S) -> Result<(), Failed>
    ensures { Sends (S.state sink.old) (S.state sink.new) result (register_line (alg_of value.now) register (bytes_of value.now)) }
{
    let mut room = [0; MOST_DIGITS];
    let digits = digits_of(value, &mut room);
    let mut number = Buffer::new();
    let register = number.format(register).as_bytes();
    let name = value.alg().name().as_bytes();
    send_pieces(&[name, b" ", register, b" ", digits, b"\n"], sink)
}

fn write_register<S: Sink>(
    now: &Banks,
    start: &Banks,
    alg: Alg,
    register: u32,
    sink: &mut S,
) -> Result<(), Failed>
    ensures { Sends (S.state sink.old) (S.state sink.new) result (register_change now.now start.now alg register) }
{
    write_change(
        register,
        start.read(alg, register),
        now.read(alg, register),
        sink,
    )
}

/// Writes the register's line, as [`crate::write_registers`] does, if `now` is another value than `before`. Both must be values of one
/// bank. After `Err` the sink has taken a prefix of the line.
pub fn write_change<S: Sink>(
    register: u32,
    before: Option<Digest>,
    now: Option<Digest>,
    sink: &mut S,
) -> Result<(), Failed>
    ensures { (alg : Alg) (old new : Option (List ℕ)) → before ≡ option_map (digest_of alg) old → now ≡ option_map (digest_of alg) new
        → Sends (S.state sink.old) (S.state sink.new) result (change_line alg register old new) }
{
    match (now, before) {
        (None, _) => Ok(()),
        (Some(value), Some(before)) if value == before => Ok(()),
        (Some(value), _) => write_register_line(register, &value, sink),
    }
}

/// Writes a line for each register whose value in `now` differs from that in `start`, or whose bank `start` lacks: by bank in the
/// order of [`Alg::ALL`], then by register.
///
/// A line is the algorithm's name, the register in decimal and the value in lower case hexadecimal, separated by spaces, with a
/// line feed at the end. After `Err` the sink has taken a prefix of the text.
pub fn write_registers<S: Sink>(now: &Banks, start: &Banks, sink: &mut S) -> Result<(), Failed>
    ensures { Sends (S.state sink.old) (S.state sink.new) result (registers_text now.now start.now) }
{
    for number in 0..ALL_REGISTERS {
        let (alg, register) = register_numbered(number);
        write_register(now, start, alg, register, sink)?;
    }
    Ok(())
}
