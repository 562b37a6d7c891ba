//! The firmware's version.

ghost use Rattle.std.specs.Prelude.{◌≡◌, ◌↔◌, ◌⊎◌, List, IsTrue, option_map};
ghost use Rattle.boot_log.specs.declared.header.DeclaredAlgorithm.{DeclaredAlgorithm};
ghost use Rattle.boot_log.specs.Names.{IsLog, LogEvent, log_bytes, log_event_of};
ghost use Rattle.event_data.specs.Names.{content_of};
ghost use Rattle.boot_answers.specs.FirmwareVersion.{IsFirmwareVersion, IsOfVersion, IsSeparatorData, IsVersion, TellsVersion};
ghost use Rattle.boot_answers.specs.parts.FirmwareVersion.{Agrees, AllAgree, TellsAny};

use crate::register_events::{RegisterEvents, answering_bank, is_whole};
use boot_log::{Event, LogView};
use event_data::{EventContent, event_content, read_separator};
use measured_data::{Pcr, is_answering};
use pcr_banks::Alg;

/// The register of the firmware's code.
const FIRMWARE_REGISTER: u32 = 0;

/// The type of an event with the firmware's version.
pub const EV_S_CRTM_VERSION: u32 = 0x0000_0008;

// Whether a separator has this value.
fn is_separator_value(value: u32) -> bool
    ensures { IsTrue result ↔ ((value ≡ 0) ⊎ ((value ≡ 1) ⊎ (value ≡ 0xffffffff))) }
{
    matches!(value, 0 | 1 | 0xFFFF_FFFF)
}

// Whether the bytes are a separator's.
fn is_separator_data(bytes: &[u8]) -> bool
    ensures { IsTrue result ↔ IsSeparatorData bytes.now }
{
    match read_separator(bytes) {
        Some(value) => is_separator_value(value),
        None => false,
    }
}

// The version that the event's data is.
fn version_by<'a>(event: &Event<'a>, alg: Alg) -> Option<EventContent<'a>>
    ensures { IsOfVersion (IsVersion alg (log_event_of event.now)) (option_map content_of result) }
{
    if !is_whole(event, alg) || is_separator_data(event.payload) {
        return None;
    }
    match event_content(EV_S_CRTM_VERSION, event.payload) {
        EventContent::Unknown(_) => None,
        content => Some(content),
    }
}

// What the bank tells.
fn version_in<'a>(log: &LogView<'a>, alg: Alg) -> Option<EventContent<'a>>
    ensures { (table : List DeclaredAlgorithm) (events : List LogEvent) → IsLog (log_bytes log.now) table events
        → IsOfVersion (TellsVersion alg events) (option_map content_of result) }
{
    match RegisterEvents::new(log, FIRMWARE_REGISTER).next_event() {
        Some(event) => version_by(&event, alg),
        None => None,
    }
}

// Whether the bank tells a version.
fn tells_any(log: &LogView<'_>, alg: Alg) -> bool
    ensures { (table : List DeclaredAlgorithm) (events : List LogEvent) → IsLog (log_bytes log.now) table events → (IsTrue result ↔ TellsAny alg events) }
{
    match version_in(log, alg) {
        Some(_) => true,
        None => false,
    }
}

// Whether the bank tells a version, if it answers.
fn agrees(log: &LogView<'_>, matched: &[Pcr], alg: Alg) -> bool
    ensures { (table : List DeclaredAlgorithm) (events : List LogEvent) → IsLog (log_bytes log.now) table events
        → (IsTrue result ↔ Agrees matched.now events alg) }
{
    if is_answering(matched, alg, FIRMWARE_REGISTER) {
        tells_any(log, alg)
    } else {
        true
    }
}

// Whether each bank that answers tells a version.
fn all_agree(log: &LogView<'_>, matched: &[Pcr]) -> bool
    ensures { (table : List DeclaredAlgorithm) (events : List LogEvent) → IsLog (log_bytes log.now) table events
        → (IsTrue result ↔ AllAgree matched.now events) }
{
    for alg in Alg::ALL {
        if !agrees(log, matched, alg) {
            return false;
        }
    }
    true
}

/// The firmware's version, by the log and the registers in `matched`, those that match: what the first event of register 0 says, a text, a
/// text in units of two bytes or a GUID; `None` where it is not known. The event's data must be measured whole in each bank other than SHA-1
/// whose register 0 matches, and there must be one. The event's type does not count.
pub fn firmware_version<'a>(log: &LogView<'a>, matched: &[Pcr]) -> Option<EventContent<'a>>
    ensures { (table : List DeclaredAlgorithm) (events : List LogEvent) → IsLog (log_bytes log.now) table events
        → IsOfVersion (IsFirmwareVersion matched.now events) (option_map content_of result) }
{
    let Some(alg) = answering_bank(matched, FIRMWARE_REGISTER) else {
        return None;
    };
    if all_agree(log, matched) {
        version_in(log, alg)
    } else {
        None
    }
}
