//! The text of an error.

ghost use Rattle.std.specs.Prelude.{◌≡◌, true, is_some, option_map, string_bytes, IfErr, IfOk};
ghost use Rattle.error_texts.specs.ErrorTexts.{digits_of, error_text, named_place, text_of, words_after, words_before};
ghost use Rattle.error_texts.specs.Sentences.{said};

use crate::table::{Sentence, sentence_of};
use agent_inputs::FaultKind;
use itoa::Buffer;
use std::alloc::{AllocError, Global};

/// The text of an error: where it is, what is wrong, and what to do. For example: 'The measurement list is damaged at entry 3: its bytes are not
/// all there. Copy the list again.' `place` is the event, the entry or the line that the error names, of a file that cannot be measured its
/// number. Nothing if the error has no sentence ([`sentence_of`]). Fails only if memory runs out.
pub fn error_text(
    alloc: Global,
    kind: FaultKind,
    number: u32,
    place: Option<u64>,
) -> Result<Option<String>, AllocError>
    ensures text { IfOk result (λ text. option_map string_bytes text ≡ error_text kind number place) }
    ensures memory { IfErr result (λ _. is_some (error_text kind number place) ≡ true) }
{
    match sentence_of(kind, number) {
        Some(sentence) => Ok(Some(text_of(alloc, kind, named_place(kind, place), sentence)?)),
        None => Ok(None),
    }
}

// The place, if errors of this kind name one.
fn named_place(kind: FaultKind, place: Option<u64>) -> Option<u64>
    ensures { result ≡ named_place kind place }
{
    match kind {
        FaultKind::Log
        | FaultKind::List
        | FaultKind::Replay
        | FaultKind::ListText
        | FaultKind::LogForm
        | FaultKind::Expect
        | FaultKind::Known
        | FaultKind::Outcome => place,
        _ => None,
    }
}

// The text of a sentence.
fn text_of(
    alloc: Global,
    kind: FaultKind,
    place: Option<u64>,
    sentence: Sentence,
) -> Result<String, AllocError>
    ensures { IfOk result (λ text. string_bytes text ≡ text_of kind place (said sentence)) }
{
    let mut digits = Buffer::new();
    let mut text = String::from_str(alloc, words_before(kind, place))?;
    text.push_str(digits_of(place, &mut digits))?;
    text.push_str(words_after(place))?;
    text.push_str(sentence.wrong)?;
    text.push_str(". ")?;
    text.push_str(sentence.action)?;
    Ok(text)
}

// The words before the number of a place; without a number those before what is wrong.
fn words_before(kind: FaultKind, place: Option<u64>) -> &'static str
    ensures { result.now ≡ words_before kind place }
{
    match (kind, place) {
        (FaultKind::Log | FaultKind::LogForm, Some(_)) =>
            "The firmware event log is damaged at event ",
        (FaultKind::Log | FaultKind::LogForm, None) => "The firmware event log cannot be used: ",
        (FaultKind::List | FaultKind::Replay, Some(_)) =>
            "The measurement list is damaged at entry ",
        (FaultKind::List | FaultKind::Replay, None) => "The measurement list cannot be used: ",
        (FaultKind::ListText, Some(_)) => "The list as text is wrong at line ",
        (FaultKind::ListText, None) => "The list as text cannot be used: ",
        (FaultKind::Expect, Some(_)) => "The PCR values are wrong at line ",
        (FaultKind::Expect, None) => "The PCR values cannot be used: ",
        (FaultKind::Known, Some(_)) => "The known files are wrong at line ",
        (FaultKind::Known, None) => "The known files cannot be used: ",
        (FaultKind::Outcome, Some(_)) => "The measurement fails at file ",
        (FaultKind::Outcome | FaultKind::Gather, None) => "The measurement fails: ",
        (FaultKind::Book, None) => "Nothing can be measured: ",
        _ => "",
    }
}

// The digits of a place's number, or nothing.
fn digits_of(place: Option<u64>, digits: &mut Buffer) -> &str
    ensures { result.now ≡ digits_of place }
{
    match place {
        Some(place) => digits.format(place),
        None => "",
    }
}

// What is between them and what is wrong.
fn words_after(place: Option<u64>) -> &'static str
    ensures { result.now ≡ words_after place }
{
    match place {
        Some(_) => ": ",
        None => "",
    }
}
