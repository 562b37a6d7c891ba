//! Events by which the firmware starts a boot: the variables that say what it was to start, separators, and the images that it started.

ghost use Rattle.std.specs.Prelude.{◌↔◌, IsTrue, ◌≡◌, ◌⊎◌, ℕ, List, Some, IfSome, IfNone};
ghost use Rattle.pcr_banks.specs.Names.{digest_for};
ghost use Rattle.event_data.specs.Names.{IsSeparator, IsText, VariableData, variable_of};
ghost use Rattle.boot_log.specs.Names.{log_event_of};
ghost use Rattle.boot_answers.specs.Separators.{HasDigestOf, MayBeSeparator};
ghost use Rattle.boot_answers.specs.Images.{IsNoImage, MayBeImage};
ghost use Rattle.boot_answers.specs.BootVariables.{IsBootVariable, IsMeasuredVariable};

use crate::register_events::is_whole;
use boot_log::Event;
use event_data::{Variable, read_separator, read_text, read_variable};
use measured_data::{Part, is_measured};
use pcr_banks::{Alg, Digest, hash};

// Whether the event's digest is that of the separator with this value.
fn has_digest_of(event: &Event<'_>, alg: Alg, value: u32) -> bool
    ensures { IsTrue result ↔ HasDigestOf alg (log_event_of event.now) value }
{
    match event.digests.get(alg) {
        Some(digest) => digest.bytes() == hash(alg, &value.to_le_bytes()).bytes(),
        None => false,
    }
}

/// Whether the event may be a separator: it has the digest of one in the algorithm's bank. In register 1 it may be a BootOrder as well, of
/// 0001 and 0000 or of 0000 twice, whose value has the bytes of a separator. So what comes after it is unknown, not absent.
pub fn may_be_separator(event: &Event<'_>, alg: Alg) -> bool
    ensures { IsTrue result ↔ MayBeSeparator alg (log_event_of event.now) }
{
    has_digest_of(event, alg, 0)
        || has_digest_of(event, alg, 0xFFFF_FFFF)
        || has_digest_of(event, alg, 1)
}

/// The register of the images that the firmware starts.
pub const IMAGE_REGISTER: u32 = 4;

// Whether the bytes are a separator or a text.
fn is_separator_or_text(bytes: &[u8]) -> bool
    ensures { IsTrue result ↔ (((value : ℕ) × IsSeparator bytes.now value) ⊎ ((text : List ℕ) × IsText bytes.now text)) }
{
    read_separator(bytes).is_some() || read_text(bytes).is_some()
}

// Whether the event's data is measured whole, and is a separator or a text.
fn is_no_image(event: &Event<'_>, alg: Alg) -> bool
    ensures { IsTrue result ↔ IsNoImage alg (log_event_of event.now) }
{
    is_whole(event, alg) && is_separator_or_text(event.payload)
}

/// Whether the event may be an image that the firmware started, by the algorithm's bank: it is extended into register 4, and is not measured
/// whole as a separator or a text, as actions are. Where register 4 matches in this bank and the firmware extends it, each
/// image is such an event.
pub fn may_be_image(event: &Event<'_>, alg: Alg) -> bool
    ensures { IsTrue result ↔ MayBeImage alg (log_event_of event.now) }
{
    event.is_extended_into(IMAGE_REGISTER) && !is_no_image(event, alg)
}

/// The digest of the image that the event may be, in the algorithm's bank: its Authenticode hash, if the firmware follows its specification.
/// `None` where the event is none, or has no digest in this bank. What the event's data says of the image is claimed, also its path.
pub fn image_digest(event: &Event<'_>, alg: Alg) -> Option<Digest>
    ensures found { IfSome result (λ digest. MayBeImage alg (log_event_of event.now) × (digest_for event.now.digests alg ≡ Some digest)) }
    ensures none { IfNone result (MayBeImage alg (log_event_of event.now) → (digest : Digest)
        → digest_for event.now.digests alg ≡ Some digest → ⊥) }
{
    if may_be_image(event, alg) {
        event.digests.get(alg)
    } else {
        None
    }
}

// Whether all of the event's data is measured, or its value.
fn is_measured_variable(event: &Event<'_>, alg: Alg) -> bool
    ensures { IsTrue result ↔ IsMeasuredVariable alg (log_event_of event.now) }
{
    is_measured(event, alg, Part::Whole) || is_measured(event, alg, Part::Value)
}

/// The variable that the event's data is, in the algorithm's bank, where it is measured whole or its value is; `None` where it is none. To be
/// asked of the events of [`crate::RegisterEvents`] in [`measured_data::SETTINGS_REGISTER`], up to the first that may be a separator in a bank
/// that answers ([`crate::may_be_separator`]), and in each bank that answers.
/// Vendor and name are always claimed: root can set a variable to the bytes of another one, and show these as all of an event's data.
pub fn boot_variable<'a>(event: &Event<'a>, alg: Alg) -> Option<Variable<'a>>
    ensures found { IfSome result (λ variable. IsBootVariable alg (log_event_of event.now) (variable_of variable)) }
    ensures none { IfNone result ((variable : VariableData) → IsBootVariable alg (log_event_of event.now) variable → ⊥) }
{
    if is_measured_variable(event, alg) {
        read_variable(event.payload)
    } else {
        None
    }
}
