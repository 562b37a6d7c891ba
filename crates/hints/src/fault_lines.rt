//! An error in the words of the table.

ghost use Rattle.std.specs.Prelude.{◌≡◌, ◌++◌, ◌∷◌, [], true, option_map, string_bytes, IfOk};
ghost use Rattle.std.specs.List.{list_all};
ghost use Rattle.error_texts.specs.Sentences.{said};
ghost use Rattle.hints.specs.Escaping.{escape, is_shown};
ghost use Rattle.hints.specs.FaultLines.{advice_of, colon_after, digits_of, fault_words, name_in, other_advice, place_word, row_of, words_before};

use crate::escapes::shown_line;
use agent_inputs::{FaultHead, FaultKind, RunFault};
use error_texts::{Sentence, sentence_of};
use itoa::Buffer;
use std::alloc::{AllocError, Global};

const NOT_HEX: &str =
    "Give the log in hexadecimal as xxd -p prints it, or give its file to ima-agent registers.";

const TOO_LONG: &str = "No input may be longer: check that this is the right one.";

const NOT_WRITABLE: &str = "Name a FILE in an existing, writable folder on a disk with free space.";

const NAMES_NOT_UTF8: &str = "Rename the files whose names are not UTF-8, or leave them out.";

/// The row of an error in the table, unless the arguments are wrong: that is said more closely.
pub(crate) fn row_of(head: FaultHead) -> Option<Sentence>
    ensures { option_map said result ≡ row_of head }
{
    match head.kind {
        FaultKind::Usage => None,
        kind => sentence_of(kind, head.number.unwrap_or(0)),
    }
}

/// The line of an error of this input, if it is of one.
pub(crate) fn fault_line(
    alloc: Global,
    input: Option<&str>,
    head: FaultHead,
    sentence: Sentence,
) -> Result<String, AllocError>
    ensures text { IfOk result (λ text. string_bytes text ≡ escape (fault_words (option_map (λ name. name.now) input.entry) head (said sentence)) ++ 10 ∷ []) }
    ensures shown { IfOk result (λ text. list_all is_shown (string_bytes text) ≡ true) }
{
    let mut digits = Buffer::new();
    let mut line = String::from_str(alloc, name_in(input))?;
    line.push_str(colon_after_name(input))?;
    line.push_str(words_before(head.kind, head.place))?;
    line.push_str(digits_of(head.place, &mut digits))?;
    line.push_str(colon_after_place(head.place))?;
    line.push_str(sentence.wrong)?;
    shown_line(alloc, &line)
}

// The name of an input, or nothing.
fn name_in(input: Option<&str>) -> &str
    ensures { result.now ≡ name_in (option_map (λ name. name.now) input.entry) }
{
    match input {
        Some(name) => name,
        None => "",
    }
}

// What is between the name of an input and what is wrong with it.
fn colon_after_name(input: Option<&str>) -> &'static str
    ensures { result.now ≡ colon_after (option_map (λ name. name.now) input.entry) }
{
    match input {
        Some(_) => ": ",
        None => "",
    }
}

// The words before what is wrong.
fn words_before(kind: FaultKind, place: Option<usize>) -> &'static str
    ensures { result.now ≡ words_before kind place }
{
    match (kind, place) {
        (_, Some(_)) => place_word(kind),
        (FaultKind::Gather, None) => "the measurement fails: ",
        (_, None) => "",
    }
}

// What the place of an error of this kind is.
fn place_word(kind: FaultKind) -> &'static str
    ensures { result.now ≡ place_word kind }
{
    match kind {
        FaultKind::Log | FaultKind::LogForm => "event ",
        FaultKind::List | FaultKind::Replay => "entry ",
        FaultKind::ListText | FaultKind::Expect | FaultKind::Known => "line ",
        FaultKind::Outcome => "file ",
        _ => "",
    }
}

// The digits of a place, or nothing.
fn digits_of(place: Option<usize>, digits: &mut Buffer) -> &str
    ensures { result.now ≡ digits_of place }
{
    match place {
        Some(place) => digits.format(place),
        None => "",
    }
}

// What is between a place and what is wrong there.
fn colon_after_place(place: Option<usize>) -> &'static str
    ensures { result.now ≡ colon_after place }
{
    match place {
        Some(_) => ": ",
        None => "",
    }
}

/// What to do about an error, as the table says, or for one that it does not have. No text for wrong arguments, and for an input that cannot be read:
/// of these more is said.
pub(crate) fn advice_of(alloc: Global, fault: &RunFault) -> Result<String, AllocError>
    ensures text { IfOk result (λ text. string_bytes text ≡ advice_of fault.now) }
    ensures shown { IfOk result (λ text. list_all is_shown (string_bytes text) ≡ true) }
{
    let head = fault.head();
    match row_of(head) {
        None => other_advice(alloc, head.kind),
        Some(sentence) => shown_line(alloc, sentence.action),
    }
}

// What to do about an error of this kind, which the table does not have.
fn other_advice(alloc: Global, kind: FaultKind) -> Result<String, AllocError>
    ensures text { IfOk result (λ text. string_bytes text ≡ other_advice kind) }
    ensures shown { IfOk result (λ text. list_all is_shown (string_bytes text) ≡ true) }
{
    match kind {
        FaultKind::NotHex => shown_line(alloc, NOT_HEX),
        FaultKind::TooLong => shown_line(alloc, TOO_LONG),
        FaultKind::Write => shown_line(alloc, NOT_WRITABLE),
        FaultKind::NotUtf8 => shown_line(alloc, NAMES_NOT_UTF8),
        _ => Ok(String::new(alloc)),
    }
}
