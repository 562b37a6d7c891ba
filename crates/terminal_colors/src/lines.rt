//! Sends a text with the sequences around its coloured words.

ghost use Rattle.std.specs.Prelude.{◌≡◌, ◌+◌, ◌<◌, ◌≤◌, ◌==◌, length, position, IfSome};
ghost use Rattle.byte_streams.specs.Streams.{Sends};
ghost use Rattle.terminal_colors.specs.States.{text_of};
ghost use Rattle.terminal_colors.specs.Lines.{colored, colored_at, colored_line, colored_lines, mark_at, mark_of, next_word, piece_end, tells_fault};

use crate::states::{State, state_at};
use byte_streams::{Failed, Sink, send, send_pieces};

/// Sends the text, with a colour for the states on its lines; of a text that says what is refused or failed, at its start alone.
pub fn send_colored<S: Sink>(text: &[u8], sink: &mut S) -> Result<(), Failed>
    ensures { Sends (S.state sink.old) (S.state sink.new) result (colored text.now) }
{
    if tells_fault(text) {
        send_line(text, sink)
    } else {
        send_lines(text, sink)
    }
}

// Whether the text says that something is refused or failed.
fn tells_fault(text: &[u8]) -> bool
    ensures { result ≡ tells_fault text.now }
{
    text.starts_with(State::Refused.text()) || text.starts_with(State::Failed.text())
}

// Sends the text, with a colour for the states on its lines.
fn send_lines<S: Sink>(text: &[u8], sink: &mut S) -> Result<(), Failed>
    ensures { Sends (S.state sink.old) (S.state sink.new) result (colored_lines text.now) }
{
    let mut rest = text;
    while !rest.is_empty() {
        let (line, after) = rest.split_at(piece_end(b'\n', rest));
        send_line(line, sink)?;
        rest = after;
    }
    Ok(())
}

// Sends a line, with a colour for its state.
fn send_line<S: Sink>(line: &[u8], sink: &mut S) -> Result<(), Failed>
    ensures { Sends (S.state sink.old) (S.state sink.new) result (colored_line line.now) }
{
    match mark_of(line) {
        None => send(line, sink),
        Some((start, state)) => send_marked(line, start, state, sink),
    }
}

// Sends a line, with a colour for this state at this place.
fn send_marked<S: Sink>(line: &[u8], start: usize, state: State, sink: &mut S) -> Result<(), Failed>
    requires { start + length (text_of state) ≤ length line.now }
    ensures { Sends (S.state sink.old) (S.state sink.new) result (colored_at line.now (start, state)) }
{
    let (label, rest) = line.split_at(start);
    let (words, after) = rest.split_at(state.text().len() - 1);
    send_pieces(&[label, state.sequence(), words, b"\x1b[0m", after], sink)
}

// Where the line's state begins, and which it is: at the line's start, or after one or two words.
fn mark_of(line: &[u8]) -> Option<(usize, State)>
    ensures value { result ≡ mark_of line.now }
    ensures within { IfSome result (λ mark. mark.0 + length (text_of mark.1) ≤ length line.now) }
{
    let second = next_word(line, 0);
    let third = next_word(line, second);
    mark_at(line, 0)
        .or(mark_at(line, second))
        .or(mark_at(line, third))
}

// This place and the state there, if there is one.
fn mark_at(line: &[u8], start: usize) -> Option<(usize, State)>
    requires { start ≤ length line.now }
    ensures value { result ≡ mark_at line.now start }
    ensures within { IfSome result (λ mark. mark.0 + length (text_of mark.1) ≤ length line.now) }
{
    let state = state_at(&line[start..])?;
    Some((start, state))
}

// Where the word after the one at this place begins.
fn next_word(line: &[u8], start: usize) -> usize
    requires { start ≤ length line.now }
    ensures value { result ≡ next_word line.now start }
    ensures within { result ≤ length line.now }
{
    start + piece_end(b' ', &line[start..])
}

// The length of the first piece of these bytes, which ends with this byte, or with all of them.
fn piece_end(end: u8, bytes: &[u8]) -> usize
    ensures value { result ≡ piece_end end bytes.now }
    ensures within { result ≤ length bytes.now }
{
    match place_of(end, bytes) {
        Some(place) => place + 1,
        None => bytes.len(),
    }
}

// The first place of this byte.
fn place_of(byte: u8, bytes: &[u8]) -> Option<usize>
    ensures value { result ≡ position (λ other. other == byte) bytes.now }
    ensures within { IfSome result (λ place. place < length bytes.now) }
{
    bytes.iter().position(|other| *other == byte)
}
