//! What the told texts of both registers ask of Linux.

ghost use Rattle.std.specs.Prelude.{◌≡◌, ◌↔◌, IfOk, IsTrue, nat_lt, option_and_then, option_map, if◌then◌else◌, Some, None, List};
ghost use Rattle.std.specs.List.{list_all};
ghost use Rattle.std.specs.Str.{is_utf8};
ghost use Rattle.event_texts.specs.WideTexts.{wide_text};
ghost use Rattle.boot_log.specs.declared.header.DeclaredAlgorithm.{DeclaredAlgorithm};
ghost use Rattle.boot_log.specs.Names.{IsLog, LogEvent, log_bytes};
ghost use Rattle.boot_answers.specs.Commands.{said_of};
ghost use Rattle.boot_answers.specs.Policies.{Asks, ascii_only, read_text, IsAskingEvent, IsAskingIn, IsImaPolicy};

use crate::commands::{CommandText, STUB_REGISTER, told_text};
use crate::ima_options::{asks_to_measure, may_set_ima_policy};
use boot_log::LogView;
use event_texts::wide_text;
use measured_data::{GRUB_REGISTER, Pcr};
use std::alloc::{AllocError, Global};
use std::str;

/// What a text may ask of Linux.
#[derive(Clone, Copy)]
pub(crate) enum PolicyQuestion {
    /// To measure files.
    Measuring,
    /// A policy of its integrity measurement architecture (IMA), which may measure none.
    Policy,
}

// Whether the text asks this.
fn asks(alloc: Global, asked: PolicyQuestion, text: &CommandText<'_>) -> Result<bool, AllocError>
    ensures { IfOk result (λ asks. IsTrue asks ↔ Asks asked (read_text (said_of text.now))) }
{
    match text {
        CommandText::Grub(command) => Ok(asks_narrow(asked, command.text)),
        CommandText::Wide(text) => asks_wide(alloc, asked, text),
    }
}

// Whether the bytes, as a text, ask this.
fn asks_narrow(asked: PolicyQuestion, bytes: &[u8]) -> bool
    ensures { IsTrue result ↔ Asks asked (if is_utf8 bytes.now then Some bytes.now else None) }
{
    match str::from_utf8(bytes) {
        Ok(text) => asks_as(asked, Some(text)),
        Err(_) => asks_as(asked, None),
    }
}

// Whether the text in units of two bytes asks this.
fn asks_wide(alloc: Global, asked: PolicyQuestion, text: &[u8]) -> Result<bool, AllocError>
    ensures { IfOk result (λ asks. IsTrue asks ↔ Asks asked (option_and_then ascii_only (wide_text text.now))) }
{
    match wide_text(alloc, text)? {
        Some(text) => Ok(asks_as(asked, ascii_only(&text))),
        None => Ok(asks_as(asked, None)),
    }
}

// The text, if it is ASCII.
fn ascii_only(text: &str) -> Option<&str>
    ensures { option_map (λ text. text.now) result ≡ ascii_only text.now }
{
    if is_ascii(text.as_bytes()) {
        Some(text)
    } else {
        None
    }
}

// Whether no byte is above 127.
fn is_ascii(bytes: &[u8]) -> bool
    ensures { result ≡ list_all (λ byte. nat_lt byte 128) bytes.now }
{
    bytes.iter().all(|byte| *byte < 128)
}

// Whether the text asks this; `None` where it is not known.
fn asks_as(asked: PolicyQuestion, text: Option<&str>) -> bool
    ensures { IsTrue result ↔ Asks asked (option_map (λ text. text.now) text.entry) }
{
    match (asked, text) {
        (PolicyQuestion::Measuring, Some(text)) => asks_to_measure(text),
        (PolicyQuestion::Measuring, None) => false,
        (PolicyQuestion::Policy, Some(text)) => may_set_ima_policy(text),
        (PolicyQuestion::Policy, None) => true,
    }
}

/// What the told texts ask of Linux's integrity measurement architecture (IMA), with the number of the first event that asks: of register 8, or
/// else of register 12.
///
/// Root can append texts to both registers, and can extend one that the boot loader left empty. So `Asked` proves neither that Linux has a
/// policy nor that it measures files. That no text asks proves nothing either: it is `Unknown`.
#[derive(Clone, Copy, Debug, PartialEq, Eq)]
pub enum ImaPolicy {
    /// To measure files.
    Asked(usize),
    /// A text may ask for a policy.
    Possible(usize),
    /// No told text asks.
    Unknown,
}

// The number of the register's first event that asks this, if each before it tells a text.
fn first_asking(
    alloc: Global,
    asked: PolicyQuestion,
    log: &LogView<'_>,
    matched: &[Pcr],
    register: u32,
) -> Result<Option<usize>, AllocError>
    ensures { IfOk result (λ found. (table : List DeclaredAlgorithm) (events : List LogEvent) → IsLog (log_bytes log.now) table events
        → IsAskingIn asked matched.now register events found) }
{
    let mut events = log.events();
    while let Some(event) = events.next_event() {
        if event.is_extended_into(register) {
            let Some(text) = told_text(&event, matched) else {
                return Ok(None);
            };
            let is_asked = asks(alloc, asked, &text)?;
            if is_asked {
                return Ok(Some(events.count()));
            }
        }
    }
    Ok(None)
}

// The number of the first event that asks this.
fn asking_event(
    alloc: Global,
    asked: PolicyQuestion,
    log: &LogView<'_>,
    matched: &[Pcr],
) -> Result<Option<usize>, AllocError>
    ensures { IfOk result (λ found. (table : List DeclaredAlgorithm) (events : List LogEvent) → IsLog (log_bytes log.now) table events
        → IsAskingEvent asked matched.now events found) }
{
    let by_grub = first_asking(alloc, asked, log, matched, GRUB_REGISTER)?;
    if let Some(number) = by_grub {
        return Ok(Some(number));
    }
    let by_stub = first_asking(alloc, asked, log, matched, STUB_REGISTER)?;
    Ok(by_stub)
}

/// What the told texts ask, by the registers in `matched`, those that match. A text is told where each bank says it that answers for its register
/// ([`crate::told_text`]); none is taken from the events of a register after one that tells none.
///
/// Fails only if memory runs out.
pub fn ima_policy(
    alloc: Global,
    log: &LogView<'_>,
    matched: &[Pcr],
) -> Result<ImaPolicy, AllocError>
    ensures { IfOk result (λ policy. (table : List DeclaredAlgorithm) (events : List LogEvent) → IsLog (log_bytes log.now) table events
        → IsImaPolicy matched.now events policy) }
{
    let measuring = asking_event(alloc, PolicyQuestion::Measuring, log, matched)?;
    if let Some(number) = measuring {
        return Ok(ImaPolicy::Asked(number));
    }
    let policy = asking_event(alloc, PolicyQuestion::Policy, log, matched)?;
    match policy {
        Some(number) => Ok(ImaPolicy::Possible(number)),
        None => Ok(ImaPolicy::Unknown),
    }
}
