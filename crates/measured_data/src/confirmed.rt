//! The banks that answer for a register, and which part of an event's data the matching registers confirm.

ghost use Rattle.std.specs.Prelude.{◌≡◌, ◌↔◌, ◌&&◌, ◌||◌, IsTrue, not};
ghost use Rattle.std.specs.List.{list_all};
ghost use Rattle.pcr_banks.specs.Names.{all_algs};
ghost use Rattle.boot_log.specs.Names.{log_event_of};
ghost use Rattle.measured_data.specs.Measuring.{IsFirstPart, has_digest_of};
ghost use Rattle.measured_data.specs.Confirming.{IsAnswering, IsConfirmed, confirmed_part, has_answer, has_pcr, is_answering, is_confirmed};

use crate::measured::{Part, has_digest_of, part_of};
use boot_log::Event;
use pcr_banks::Alg;

/// A register of a bank.
#[derive(Clone, Copy, Debug, PartialEq, Eq)]
pub struct Pcr {
    /// The bank.
    pub alg: Alg,
    /// The register, 0 to 23. A greater number names no register.
    pub register: u32,
}

// Whether the bank's register is among the places.
fn has_pcr(places: &[Pcr], alg: Alg, register: u32) -> bool
    ensures { result ≡ has_pcr places.now alg register }
{
    places
        .iter()
        .any(|place| place.alg == alg && place.register == register)
}

/// Whether the bank answers for the register: the register of this bank is among those that match, and it is no bank of SHA-1. What is said
/// of events by one bank is to be asked in each that answers: a bank that the firmware does not extend is root's.
pub fn is_answering(matched: &[Pcr], alg: Alg, register: u32) -> bool
    ensures value { result ≡ is_answering matched.now alg register }
    ensures answering { IsTrue result ↔ IsAnswering matched.now alg register }
{
    alg != Alg::Sha1 && has_pcr(matched, alg, register)
}

/// Whether some bank answers for the register.
pub fn has_answer(matched: &[Pcr], register: u32) -> bool
    ensures { result ≡ has_answer matched.now register }
{
    Alg::ALL
        .iter()
        .any(|alg| is_answering(matched, *alg, register))
}

// Whether the bank tells nothing against these bytes of the event: it does not answer for the event's register, or they are measured in it.
fn allows(event: &Event<'_>, matched: &[Pcr], bytes: &[u8], alg: Alg) -> bool
    ensures { result ≡ (not (is_answering matched.now alg event.now.register) || has_digest_of alg (log_event_of event.now) bytes.now) }
{
    !is_answering(matched, alg, event.register) || has_digest_of(event, alg, bytes)
}

// Whether no bank tells anything against these bytes of the event.
fn every_allows(event: &Event<'_>, matched: &[Pcr], bytes: &[u8]) -> bool
    ensures { result ≡ list_all (λ alg. not (is_answering matched.now alg event.now.register)
        || has_digest_of alg (log_event_of event.now) bytes.now) all_algs }
{
    Alg::ALL
        .iter()
        .all(|alg| allows(event, matched, bytes, *alg))
}

// Whether some bank answers for the event's register, and these bytes of the event are measured in every bank that does.
fn has_confirmed(event: &Event<'_>, matched: &[Pcr], bytes: &[u8]) -> bool
    ensures { result ≡ (has_answer matched.now event.now.register
        && list_all (λ alg. not (is_answering matched.now alg event.now.register)
        || has_digest_of alg (log_event_of event.now) bytes.now) all_algs) }
{
    has_answer(matched, event.register) && every_allows(event, matched, bytes)
}

// Whether some bank answers for the event's register, and this part of the event's data is measured in every bank that does.
fn is_confirmed(event: &Event<'_>, matched: &[Pcr], part: Part) -> bool
    ensures value { result ≡ is_confirmed matched.now (log_event_of event.now) part }
    ensures confirmed { IsTrue result ↔ IsConfirmed matched.now (log_event_of event.now) part }
{
    match part_of(part, event) {
        Some(bytes) => has_confirmed(event, matched, bytes),
        None => false,
    }
}

/// The part of the event's data that the registers in `matched` confirm, those that match: all of it, else the variable's value, else the
/// command's text. A part is confirmed where the event's register matches in some bank other than SHA-1, and the part is measured in every
/// such bank. So a bank that the firmware does not extend confirms nothing that another matching bank contradicts.
pub fn confirmed_part(event: &Event<'_>, matched: &[Pcr]) -> Option<Part>
    ensures value { result ≡ confirmed_part matched.now (log_event_of event.now) }
    ensures first { IsFirstPart (IsConfirmed matched.now (log_event_of event.now)) result }
{
    if is_confirmed(event, matched, Part::Whole) {
        Some(Part::Whole)
    } else if is_confirmed(event, matched, Part::Value) {
        Some(Part::Value)
    } else if is_confirmed(event, matched, Part::Command) {
        Some(Part::Command)
    } else {
        None
    }
}
