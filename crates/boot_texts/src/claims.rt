//! What the events of a log claim of a boot, each in a line: nothing confirms it.

ghost use Rattle.std.specs.Prelude.{◌≡◌, ◌++◌, codes, true, List, ℕ, OnOk};
ghost use Rattle.boot_log.specs.Names.{log_event_of};
ghost use Rattle.event_data.specs.Names.{content_of, variable_of};
ghost use Rattle.cells.specs.Cells.{ShowsMembers, object_at, rendered};
ghost use Rattle.event_lines.specs.ContentJson.{event_content_json};
ghost use Rattle.event_lines.specs.SteeringTexts.{value_cell};
ghost use Rattle.boot_texts.specs.Claims.{IsClaimLine, claim_cell, claim_in, claim_line, claim_said_cell, claimed_state_cell, is_command_register, is_secure_boot, state_claim, stated_cell, type_claim, variable_claim};
ghost use Rattle.boot_texts.specs.declared.claims.Claim.TheVariants as claims;

use crate::boot_lines::state_word;
use crate::images::show_digest;
use crate::variables::is_boot_variable;
use boot_answers::{EV_S_CRTM_VERSION, STUB_REGISTER, SecureBoot};
use boot_log::Event;
use cells::{CellWriter, Form, Shown, Written, append};
use event_data::{EventContent, Variable, event_content};
use event_lines::{show_content, show_register};
use measured_data::GRUB_REGISTER;
use pcr_banks::{Alg, PerBank};
use std::alloc::Global;

/// The type of an event by which a boot loader measures.
const EV_IPL: u32 = 0x0000_000D;

/// EFI_GLOBAL_VARIABLE, 8be4df61-93ca-11d2-aa0d-00e098032b8c.
const GLOBAL: [u8; 16] = [
    0x61, 0xDF, 0xE4, 0x8B, 0xCA, 0x93, 0xD2, 0x11, 0xAA, 0x0D, 0x00, 0xE0, 0x98, 0x03, 0x2B, 0x8C,
];

/// What an event claims.
#[derive(Clone, Copy)]
pub(crate) enum Claim {
    /// Whether Secure Boot was on.
    SecureBoot(SecureBoot),
    /// The firmware's version.
    Version,
    /// An image that the firmware started.
    Image,
    /// A text that a boot loader measured.
    Command,
    /// A variable that says what the firmware was to start.
    Variable,
}

/// Appends the line of the event with this number, if it claims something.
pub(crate) fn append_claim(
    alloc: Global,
    form: Form,
    number: usize,
    event: &Event<'_>,
    lines: &mut Vec<u8>,
) -> Written
    ensures { OnOk result ((text : List ℕ) × IsClaimLine form number (log_event_of event.now) true text
        × (lines.new.items ≡ lines.old.items ++ text)) }
{
    append_if_claim(alloc, form, number, event, lines)
}

// Appends it so.
fn append_if_claim(
    alloc: Global,
    form: Form,
    number: usize,
    event: &Event<'_>,
    lines: &mut Vec<u8>,
) -> Written
    ensures { OnOk result (lines.new.items ≡ lines.old.items ++ claim_line form number (log_event_of event.now)) }
{
    let content = event_content(event.kind, event.payload);
    match claim_in(event.kind, event.register, &content) {
        Some(claim) => append_line(alloc, form, number, event, claim, lines),
        None => Ok(()),
    }
}

fn append_line(
    alloc: Global,
    form: Form,
    number: usize,
    event: &Event<'_>,
    claim: Claim,
    lines: &mut Vec<u8>,
) -> Written
    ensures { OnOk result (lines.new.items ≡ lines.old.items ++ rendered form (claim_cell number (log_event_of event.now) claim)) }
{
    let line = ClaimLine {
        number,
        event,
        claim,
    };
    append(alloc, form, &line, lines)
}

// What an event of this type and register claims whose data says this.
fn claim_in(kind: u32, register: u32, content: &EventContent<'_>) -> Option<Claim>
    ensures { result ≡ claim_in kind register (content_of content.now) }
{
    match content {
        EventContent::Unknown(_) => None,
        EventContent::Image(_, _) => Some(Claim::Image),
        EventContent::Variable(variable, _) => variable_claim(variable),
        _ => type_claim(kind, register),
    }
}

fn variable_claim(variable: &Variable<'_>) -> Option<Claim>
    ensures { result ≡ variable_claim (variable_of variable.now) }
{
    if is_secure_boot(variable) {
        state_claim(variable.value)
    } else if is_boot_variable(variable) {
        Some(Claim::Variable)
    } else {
        None
    }
}

// Whether the variable is SecureBoot, of EFI_GLOBAL_VARIABLE.
fn is_secure_boot(variable: &Variable<'_>) -> bool
    ensures { result ≡ is_secure_boot (variable_of variable.now) }
{
    variable.guid == GLOBAL.as_slice()
        && variable.name == b"S\0e\0c\0u\0r\0e\0B\0o\0o\0t\0".as_slice()
}

// What a value of SecureBoot claims.
fn state_claim(value: &[u8]) -> Option<Claim>
    ensures { result ≡ state_claim value.now }
{
    if value == [1].as_slice() {
        Some(Claim::SecureBoot(SecureBoot::On))
    } else if value == [0].as_slice() {
        Some(Claim::SecureBoot(SecureBoot::Off))
    } else {
        None
    }
}

// What data of another known form claims, by the event's type and register.
fn type_claim(kind: u32, register: u32) -> Option<Claim>
    ensures { result ≡ type_claim kind register }
{
    if kind == EV_S_CRTM_VERSION {
        Some(Claim::Version)
    } else if kind == EV_IPL && is_command_register(register) {
        Some(Claim::Command)
    } else {
        None
    }
}

fn is_command_register(register: u32) -> bool
    ensures { result ≡ is_command_register register }
{
    register == GRUB_REGISTER || register == STUB_REGISTER
}

// The line of a claim.
#[derive(Drop)]
struct ClaimLine<'a> {
    number: usize,
    event: &'a Event<'a>,
    claim: Claim,
}

impl Shown for ClaimLine<'_> {
    ghost cell_of = { λ line. claim_cell line.number (log_event_of line.event.now) line.claim };

    fn show(&self, alloc: Global, out: &mut CellWriter) -> Written {
        show_claim(alloc, self.number, self.event, self.claim, out)
    }
}

fn show_claim(
    alloc: Global,
    number: usize,
    event: &Event<'_>,
    claim: Claim,
    out: &mut CellWriter,
) -> Written
    ensures { ShowsMembers result out.old out.new (claim_cell number (log_event_of event.now) claim) }
{
    out.object("claimed")?;
    out.number("claimed ", "event", number as u64)?;
    show_said(alloc, event, claim, out)?;
    out.end()
}

// Shows what is claimed.
fn show_said(alloc: Global, event: &Event<'_>, claim: Claim, out: &mut CellWriter) -> Written
    ensures { ShowsMembers result out.old out.new (claim_said_cell (log_event_of event.now) claim) }
{
    match claim {
        Claim::SecureBoot(state) => show_state(state, out),
        Claim::Version => show_data(alloc, " firmware_version ", "firmware_version", event, out),
        Claim::Image => show_image(alloc, event, out),
        Claim::Command => show_command(alloc, event, out),
        Claim::Variable => show_data(alloc, " boot_variable ", "boot_variable", event, out),
    }
}

// Shows whether Secure Boot was on.
fn show_state(state: SecureBoot, out: &mut CellWriter) -> Written
    ensures { ShowsMembers result out.old out.new (claimed_state_cell state) }
{
    out.word(" secure_boot ", "secure_boot", state_word(state))?;
    out.text("\n")
}

// Shows what the event's data says, under this name.
fn show_data(
    alloc: Global,
    before: &str,
    key: &str,
    event: &Event<'_>,
    out: &mut CellWriter,
) -> Written
    ensures { ShowsMembers result out.old out.new (value_cell before.now key.now (event_content_json (log_event_of event.now))) }
{
    show_content(alloc, before, key, event.kind, event.payload, out)
}

fn show_image(alloc: Global, event: &Event<'_>, out: &mut CellWriter) -> Written
    ensures { ShowsMembers result out.old out.new (claim_said_cell (log_event_of event.now) claims.Image) }
{
    out.text(" image ")?;
    show_digests(alloc, &event.digests, out)?;
    show_data(alloc, "", "image", event, out)
}

fn show_digests(alloc: Global, digests: &PerBank, out: &mut CellWriter) -> Written
    ensures { ShowsMembers result out.old out.new (object_at (codes "digests") (stated_cell digests.now)) }
{
    out.object("digests")?;
    show_stated(alloc, digests, out)?;
    out.end()
}

// Shows all digests.
fn show_stated(alloc: Global, digests: &PerBank, out: &mut CellWriter) -> Written
    ensures { ShowsMembers result out.old out.new (stated_cell digests.now) }
{
    for alg in &Alg::ALL {
        show_digest(alloc, *alg, digests.get(*alg), out)?;
    }
    Ok(())
}

fn show_command(alloc: Global, event: &Event<'_>, out: &mut CellWriter) -> Written
    ensures { ShowsMembers result out.old out.new (claim_said_cell (log_event_of event.now) claims.Command) }
{
    out.text(" command")?;
    show_register(" ", event.register, out)?;
    show_data(alloc, " ", "command", event, out)
}
