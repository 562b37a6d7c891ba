//! The parts of an event's data, and whether one is what the event's digest is the hash of.

ghost use Rattle.std.specs.Prelude.{◌≡◌, ◌↔◌, IsTrue, option_map};
ghost use Rattle.byte_fields.specs.Spelling.{IsBytes};
ghost use Rattle.boot_log.specs.Names.{log_event_of};
ghost use Rattle.measured_data.specs.Measuring.{IsFirstPart, IsMeasured, has_digest_of, is_measured, measured_part, part_in};

use boot_log::Event;
use event_data::{read_hashed_text, read_variable};
use pcr_banks::{Alg, hash};

/// A part of an event's data, of which its digest may be the hash.
#[derive(Clone, Copy, Debug, PartialEq, Eq)]
pub enum Part {
    /// All of the data.
    Whole,
    /// Of a UEFI variable in register 1 the value, without GUID and name (PC Client Platform Firmware Profile, EV_EFI_VARIABLE_BOOT).
    Value,
    /// Of a command of GRUB in register 8 the text, without the prefix that tells its kind and the NUL at its end (GRUB's own rule); with the NUL
    /// of a command of its own in RHEL 8's GRUB ([`event_data::read_hashed_text`]).
    Command,
}

/// The register of the firmware's settings, into which the values of variables are extended without their names.
pub const SETTINGS_REGISTER: u32 = 1;

/// The register of GRUB's commands.
pub const GRUB_REGISTER: u32 = 8;

// Bytes are below 256.
fn are_bytes(bytes: &[u8])
    ensures { IsBytes bytes.now }
{}

/// This part of the event's data, where the event has it.
pub(crate) fn part_of<'a>(part: Part, event: &Event<'a>) -> Option<&'a [u8]>
    ensures value { option_map (λ bytes. bytes.now) result ≡ part_in part (log_event_of event.now) }
    ensures bytes { IsBytes event.now.payload.now }
{
    let payload = event.payload;
    are_bytes(payload);
    match part {
        Part::Whole => Some(payload),
        Part::Value if event.register == SETTINGS_REGISTER => Some(read_variable(payload)?.value),
        Part::Command if event.register == GRUB_REGISTER => read_hashed_text(payload),
        _ => None,
    }
}

/// Whether the event is extended, and the algorithm's digest of it is the hash of these bytes.
pub(crate) fn has_digest_of(event: &Event<'_>, alg: Alg, bytes: &[u8]) -> bool
    ensures { result ≡ has_digest_of alg (log_event_of event.now) bytes.now }
{
    if !event.is_extended() {
        return false;
    }
    match event.digests.get(alg) {
        Some(digest) => digest.bytes() == hash(alg, bytes).bytes(),
        None => false,
    }
}

/// Whether the event is extended, and the algorithm's digest of it is the hash of this part of its data.
pub fn is_measured(event: &Event<'_>, alg: Alg, part: Part) -> bool
    ensures value { result ≡ is_measured alg (log_event_of event.now) part }
    ensures measured { IsTrue result ↔ IsMeasured alg (log_event_of event.now) part }
{
    match part_of(part, event) {
        Some(bytes) => has_digest_of(event, alg, bytes),
        None => false,
    }
}

/// The part of the event's data whose hash the algorithm's digest is, of an event that is extended: all of it where it is, else the
/// variable's value, else the command's text.
pub fn measured_part(event: &Event<'_>, alg: Alg) -> Option<Part>
    ensures value { result ≡ measured_part alg (log_event_of event.now) }
    ensures first { IsFirstPart (IsMeasured alg (log_event_of event.now)) result }
{
    if is_measured(event, alg, Part::Whole) {
        Some(Part::Whole)
    } else if is_measured(event, alg, Part::Value) {
        Some(Part::Value)
    } else if is_measured(event, alg, Part::Command) {
        Some(Part::Command)
    } else {
        None
    }
}
