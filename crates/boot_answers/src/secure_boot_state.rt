//! Whether Secure Boot was on, by the variable that says so.

ghost use Rattle.std.specs.Prelude.{◌≡◌, ◌↔◌, ℕ, List, Some, IsTrue, IfSome, option_map, [], ◌∷◌, IfNone};
ghost use Rattle.boot_log.specs.declared.header.DeclaredAlgorithm.{DeclaredAlgorithm};
ghost use Rattle.boot_log.specs.Names.{IsLog, LogEvent, log_bytes, log_event_of};
ghost use Rattle.boot_answers.specs.Variables.{IsNamed, global_guid};
ghost use Rattle.boot_answers.specs.SecureBoot.{IsBefore, IsSecureBoot, IsSecureBootVariable};
ghost use Rattle.boot_answers.specs.parts.SecureBoot.{Agrees, AllAgree, Ends, IsOf, IsToldIn};

use crate::register_events::{RegisterEvents, answering_bank, is_whole};
use boot_log::{Event, LogView};
use event_data::{Variable, read_variable};
use measured_data::{Pcr, is_answering};
use pcr_banks::Alg;

/// EFI_GLOBAL_VARIABLE, 8be4df61-93ca-11d2-aa0d-00e098032b8c.
const GLOBAL_GUID: [u8; 16] = [
    0x61, 0xDF, 0xE4, 0x8B, 0xCA, 0x93, 0xD2, 0x11, 0xAA, 0x0D, 0x00, 0xE0, 0x98, 0x03, 0x2B, 0x8C,
];

// Whether the variable is of EFI_GLOBAL_VARIABLE and has this name.
fn is_global(variable: &Variable<'_>, name: &[u8]) -> bool
    ensures { IsTrue result ↔ ((variable.now.guid.now ≡ global_guid) × (variable.now.name.now ≡ name.now)) }
{
    variable.guid == GLOBAL_GUID.as_slice() && variable.name == name
}

// The value of the variable that the bytes are, of EFI_GLOBAL_VARIABLE and this name, in units of two bytes; `None` where they are not it.
fn global_value<'a>(name: &[u8], bytes: &'a [u8]) -> Option<&'a [u8]>
    ensures found { IfSome result (λ value. IsNamed global_guid name.now bytes.now value.now) }
    ensures only { (value : List ℕ) → IsNamed global_guid name.now bytes.now value → option_map (λ found. found.now) result ≡ Some value }
{
    match read_variable(bytes) {
        Some(variable) => {
            if is_global(&variable, name) {
                Some(variable.value)
            } else {
                None
            }
        }
        None => None,
    }
}

/// The register of Secure Boot.
const POLICY_REGISTER: u32 = 7;

/// The size of a separator.
const SEPARATOR_SIZE: usize = 4;

/// Whether Secure Boot was on.
#[derive(Clone, Copy, Debug, PartialEq, Eq)]
pub enum SecureBoot {
    /// The firmware checked the signatures of what it loaded.
    On,
    /// It did not.
    Off,
    /// The log and the registers do not tell.
    Unknown,
}

// What a value of the variable says.
fn said_by(value: &[u8]) -> SecureBoot
    ensures { IsOf (λ byte. value.now ≡ byte ∷ []) result }
{
    match value {
        [1] => SecureBoot::On,
        [0] => SecureBoot::Off,
        _ => SecureBoot::Unknown,
    }
}

// The value of SecureBoot, where the bytes are this variable.
fn secure_boot_value(bytes: &[u8]) -> Option<&[u8]>
    ensures found { IfSome result (λ value. IsSecureBootVariable bytes.now value.now) }
    ensures only { (value : List ℕ) → IsSecureBootVariable bytes.now value → option_map (λ found. found.now) result ≡ Some value }
{
    global_value(b"S\0e\0c\0u\0r\0e\0B\0o\0o\0t\0", bytes)
}

// What the event tells; `None` where it may come before the one that tells.
fn told_by(event: &Event<'_>, alg: Alg) -> Option<SecureBoot>
    ensures before { IfNone result (IsBefore alg (log_event_of event.now)) }
    ensures ends { IfSome result (Ends alg (log_event_of event.now)) }
{
    if !is_whole(event, alg) || event.payload.len() == SEPARATOR_SIZE {
        return Some(SecureBoot::Unknown);
    }
    match secure_boot_value(event.payload) {
        Some(value) => Some(said_by(value)),
        None => None,
    }
}

// What the bank tells.
fn told_in(log: &LogView<'_>, alg: Alg) -> SecureBoot
    ensures { (table : List DeclaredAlgorithm) (events : List LogEvent) → IsLog (log_bytes log.now) table events → IsToldIn alg events result }
{
    let mut events = RegisterEvents::new(log, POLICY_REGISTER);
    while let Some(event) = events.next_event() {
        if let Some(answer) = told_by(&event, alg) {
            return answer;
        }
    }
    SecureBoot::Unknown
}

// Whether the answers are the same.
fn is_same(answer: SecureBoot, other: SecureBoot) -> bool
    ensures { IsTrue result ↔ (answer ≡ other) }
{
    answer == other
}

// Whether the bank gives this answer, if it answers.
fn agrees(log: &LogView<'_>, matched: &[Pcr], alg: Alg, answer: SecureBoot) -> bool
    ensures { (table : List DeclaredAlgorithm) (events : List LogEvent) → IsLog (log_bytes log.now) table events
        → (IsTrue result ↔ Agrees matched.now events answer alg) }
{
    if is_answering(matched, alg, POLICY_REGISTER) {
        is_same(told_in(log, alg), answer)
    } else {
        true
    }
}

// Whether each bank that answers gives this answer.
fn all_agree(log: &LogView<'_>, matched: &[Pcr], answer: SecureBoot) -> bool
    ensures { (table : List DeclaredAlgorithm) (events : List LogEvent) → IsLog (log_bytes log.now) table events
        → (IsTrue result ↔ AllAgree matched.now events answer) }
{
    for alg in Alg::ALL {
        if !agrees(log, matched, alg, answer) {
            return false;
        }
    }
    true
}

/// Whether Secure Boot was on, by the log and the registers in `matched`, those that match. In a bank other than SHA-1 whose register 7
/// matches, the first event of register 7 that is SecureBoot tells it, if all data before it was measured whole and is no separator; and
/// where its value is one byte, 1 or 0. No event's type counts, and nothing after it. Each such bank must tell it, and there must be one.
pub fn secure_boot(log: &LogView<'_>, matched: &[Pcr]) -> SecureBoot
    ensures { (table : List DeclaredAlgorithm) (events : List LogEvent) → IsLog (log_bytes log.now) table events → IsSecureBoot matched.now events result }
{
    let Some(alg) = answering_bank(matched, POLICY_REGISTER) else {
        return SecureBoot::Unknown;
    };
    let answer = told_in(log, alg);
    if all_agree(log, matched, answer) {
        answer
    } else {
        SecureBoot::Unknown
    }
}
