//! The lines of all answers.

ghost use Rattle.std.specs.Prelude.{◌≡◌, ◌++◌, List, ℕ, IfOk, Ok, OnErr, OnOk, false, option_map, true};
ghost use Rattle.boot_log.specs.declared.header.DeclaredAlgorithm.{DeclaredAlgorithm};
ghost use Rattle.boot_log.specs.Names.{IsLog, LogEvent, log_bytes, log_event_of};
ghost use Rattle.cells.specs.Cells.{ShowsMembers, rendered};
ghost use Rattle.event_data.specs.Names.{content_of};
ghost use Rattle.boot_texts.specs.AnswerCells.{secure_boot_cell, state_word, version_cell, word_cell};
ghost use Rattle.boot_texts.specs.BootLines.{AreBootLines, AreBootTexts, AreClaimLines, AreCommandLines, AreImageLines, AreVariableLines};
ghost use Rattle.boot_texts.specs.Telling.{AreEventLines, IsEventLine};

use crate::answering_banks::is_answered;
use crate::claims::append_claim;
use crate::commands::{UnknownCommandLine, append_if_command};
use crate::images::append_if_image;
use crate::policies::append_policy;
use crate::variables::append_if_variable;
use boot_answers::{
    EV_S_CRTM_VERSION, IMAGE_REGISTER, STUB_REGISTER, SecureBoot, firmware_version, secure_boot,
};
use boot_log::{Event, LogView};
use cells::{CellWriter, Form, Shown, Written, append};
use event_data::EventContent;
use event_lines::show_form;
use measured_data::{GRUB_REGISTER, Pcr, SETTINGS_REGISTER};
use std::alloc::{AllocError, Global};

/// Appends the lines of all answers on the boot that the log tells, by the registers in `matched`, those that match. A bank answers for a register
/// that matches in it, if it is no bank of SHA-1 ([`measured_data::is_answering`]). Each line is an object of JSON; or, for people
/// ([`Form::Text`]), words, some with JSON at the end, in which no character steers a terminal, as in [`event_lines::send_events`].
///
/// - `secure_boot on`, `off` or `unknown` ([`boot_answers::secure_boot`]);
/// - `firmware_version`, and what the first event says, or `unknown` ([`boot_answers::firmware_version`]);
/// - `image 14 sha256 <digest> claimed {..}`: each event that may be an image by some bank that answers for register 4
///   ([`boot_answers::may_be_image`]), its digests in all banks that answer, and what its data claims;
/// - `command 21 8 {"text":".."}`: each event of register 8, and then of 12, with the text that is measured in each bank that answers
///   ([`boot_answers::told_text`]), up to the first event without one: `command unknown 8 25`. JSON has the kind of a command of GRUB under
///   `claimed`;
/// - `ima_policy` and what these texts ask ([`boot_answers::ImaPolicy`]): `asked 21` or `possible 21`, by event 21, or `unknown`;
/// - `boot_variable 9 {..}`: each event of register 1 that is a BootOrder or a Boot####, by its claimed name, and what it says, up to
///   the first that may be a separator by some bank that answers ([`boot_answers::boot_variable`]).
///
/// Where no bank answers for the register, or no event extends it, the line is `image unknown`, `command unknown 8` or
/// `boot_variable unknown`.
///
/// Where no registers were compared (`None`), the first line is `claimed all`. The others are those of what each event claims, in the order of the
/// log: of the variable SecureBoot, of a firmware's version, of an image, of a command, of a boot variable. Each begins with `claimed` and the
/// event's number, as in `claimed 4 secure_boot on`; in JSON the only member is `claimed`.
///
/// Fails only if memory runs out; the vector then is as before.
pub fn append_boot(
    alloc: Global,
    log: &LogView<'_>,
    matched: Option<&[Pcr]>,
    form: Form,
    lines: &mut Vec<u8>,
) -> Written
    ensures ok { OnOk result ((table : List DeclaredAlgorithm) (events : List LogEvent) → IsLog (log_bytes log.now) table events
        → (text : List ℕ) × AreBootTexts form (option_map (λ places. places.now) matched.entry) events text
        × (lines.new.items ≡ lines.old.items ++ text)) }
    ensures err { OnErr result (lines.new.items ≡ lines.old.items) }
{
    let mut answers = Vec::new(alloc);
    append_texts(alloc, log, matched, form, &mut answers)?;
    lines.extend_from_slice(&answers)?;
    Ok(())
}

// Appends the lines of all answers, or of all claims if no registers were compared.
fn append_texts(
    alloc: Global,
    log: &LogView<'_>,
    matched: Option<&[Pcr]>,
    form: Form,
    lines: &mut Vec<u8>,
) -> Written
    ensures { OnOk result ((table : List DeclaredAlgorithm) (events : List LogEvent) → IsLog (log_bytes log.now) table events
        → (text : List ℕ) × AreBootTexts form (option_map (λ places. places.now) matched.entry) events text
        × (lines.new.items ≡ lines.old.items ++ text)) }
{
    match matched {
        Some(places) => append_answers(alloc, log, places, form, lines),
        None => append_claims(alloc, log, form, lines),
    }
}

// Appends the lines of all claims.
fn append_claims(alloc: Global, log: &LogView<'_>, form: Form, lines: &mut Vec<u8>) -> Written
    ensures { OnOk result ((table : List DeclaredAlgorithm) (events : List LogEvent) → IsLog (log_bytes log.now) table events
        → (text : List ℕ) × AreClaimLines form events text × (lines.new.items ≡ lines.old.items ++ text)) }
{
    append_word(alloc, form, "claimed", "all", lines)?;
    append_each(alloc, form, log, &[], BootQuestion::Claims, lines)?;
    Ok(())
}

// Appends the lines of all answers.
fn append_answers(
    alloc: Global,
    log: &LogView<'_>,
    matched: &[Pcr],
    form: Form,
    lines: &mut Vec<u8>,
) -> Written
    ensures { OnOk result ((table : List DeclaredAlgorithm) (events : List LogEvent) → IsLog (log_bytes log.now) table events
        → (text : List ℕ) × AreBootLines form matched.now events text × (lines.new.items ≡ lines.old.items ++ text)) }
{
    append_state(alloc, form, secure_boot(log, matched), lines)?;
    let version = firmware_version(log, matched);
    append(alloc, form, &VersionLine { version }, lines)?;
    append_images(alloc, form, log, matched, lines)?;
    append_commands(alloc, form, log, matched, GRUB_REGISTER, lines)?;
    append_commands(alloc, form, log, matched, STUB_REGISTER, lines)?;
    append_policy(alloc, form, log, matched, lines)?;
    append_variables(alloc, form, log, matched, lines)?;
    Ok(())
}

/// The word for a state of Secure Boot.
pub(crate) fn state_word(state: SecureBoot) -> &'static str
    ensures { result.now ≡ state_word state }
{
    match state {
        SecureBoot::On => "on",
        SecureBoot::Off => "off",
        SecureBoot::Unknown => "unknown",
    }
}

// Appends the line of whether Secure Boot was on.
fn append_state(alloc: Global, form: Form, state: SecureBoot, lines: &mut Vec<u8>) -> Written
    ensures { OnOk result (lines.new.items ≡ lines.old.items ++ rendered form (secure_boot_cell state)) }
{
    append_word(alloc, form, "secure_boot", state_word(state), lines)
}

// Appends the line of an answer in one word.
fn append_word(alloc: Global, form: Form, name: &str, word: &str, lines: &mut Vec<u8>) -> Written
    ensures { OnOk result (lines.new.items ≡ lines.old.items ++ rendered form (word_cell name.now word.now)) }
{
    append(alloc, form, &WordLine { name, word }, lines)
}

// Appends the lines of images.
fn append_images(
    alloc: Global,
    form: Form,
    log: &LogView<'_>,
    matched: &[Pcr],
    lines: &mut Vec<u8>,
) -> Written
    ensures { OnOk result ((table : List DeclaredAlgorithm) (events : List LogEvent) → IsLog (log_bytes log.now) table events
        → (text : List ℕ) × AreImageLines form matched.now events text × (lines.new.items ≡ lines.old.items ++ text)) }
{
    if is_answered(log, matched, IMAGE_REGISTER) {
        append_each(alloc, form, log, matched, BootQuestion::Images, lines)?;
    } else {
        append_word(alloc, form, "image", "unknown", lines)?;
    }
    Ok(())
}

// Appends the lines of the texts that boot loaders measured into the register.
fn append_commands(
    alloc: Global,
    form: Form,
    log: &LogView<'_>,
    matched: &[Pcr],
    register: u32,
    lines: &mut Vec<u8>,
) -> Written
    ensures { OnOk result ((table : List DeclaredAlgorithm) (events : List LogEvent) → IsLog (log_bytes log.now) table events
        → (text : List ℕ) × AreCommandLines register form matched.now events text × (lines.new.items ≡ lines.old.items ++ text)) }
{
    if is_answered(log, matched, register) {
        append_each(
            alloc,
            form,
            log,
            matched,
            BootQuestion::Commands(register),
            lines,
        )?;
    } else {
        let line = UnknownCommandLine {
            register,
            event: None,
        };
        append(alloc, form, &line, lines)?;
    }
    Ok(())
}

// Appends the lines of boot variables.
fn append_variables(
    alloc: Global,
    form: Form,
    log: &LogView<'_>,
    matched: &[Pcr],
    lines: &mut Vec<u8>,
) -> Written
    ensures { OnOk result ((table : List DeclaredAlgorithm) (events : List LogEvent) → IsLog (log_bytes log.now) table events
        → (text : List ℕ) × AreVariableLines form matched.now events text × (lines.new.items ≡ lines.old.items ++ text)) }
{
    if is_answered(log, matched, SETTINGS_REGISTER) {
        append_each(alloc, form, log, matched, BootQuestion::Variables, lines)?;
    } else {
        append_word(alloc, form, "boot_variable", "unknown", lines)?;
    }
    Ok(())
}

// What is asked of each event of a log.
#[derive(Clone, Copy)]
enum BootQuestion {
    // The images that the firmware started.
    Images,
    // The texts that boot loaders measured into this register.
    Commands(u32),
    // The variables that say what the firmware was to start.
    Variables,
    // What it claims, whatever confirms it.
    Claims,
}

// Appends the lines of the events of the log for the question, up to the first after which nothing is told.
fn append_each(
    alloc: Global,
    form: Form,
    log: &LogView<'_>,
    matched: &[Pcr],
    question: BootQuestion,
    lines: &mut Vec<u8>,
) -> Written
    ensures { OnOk result ((table : List DeclaredAlgorithm) (events : List LogEvent) → IsLog (log_bytes log.now) table events
        → (text : List ℕ) × AreEventLines (IsEventLine question form matched.now) 1 events text × (lines.new.items ≡ lines.old.items ++ text)) }
{
    let mut events = log.events();
    while let Some(event) = events.next_event() {
        let number = events.count();
        let goes_on = append_told(alloc, form, matched, question, number, &event, lines)?;
        if !goes_on {
            return Ok(());
        }
    }
    Ok(())
}

// Appends the line of the event with this number for the question, if it has one, and returns whether those after it are looked at.
fn append_told(
    alloc: Global,
    form: Form,
    matched: &[Pcr],
    question: BootQuestion,
    number: usize,
    event: &Event<'_>,
    lines: &mut Vec<u8>,
) -> Result<bool, AllocError>
    ensures { IfOk result (λ goes. (text : List ℕ) × IsEventLine question form matched.now number (log_event_of event.now) goes text
        × (lines.new.items ≡ lines.old.items ++ text)) }
{
    match question {
        BootQuestion::Images => {
            append_if_image(alloc, form, matched, number, event, lines)?;
            Ok(true)
        }
        BootQuestion::Commands(register) => {
            append_if_command(alloc, form, matched, register, number, event, lines)
        }
        BootQuestion::Variables => append_if_variable(alloc, form, matched, number, event, lines),
        BootQuestion::Claims => {
            append_claim(alloc, form, number, event, lines)?;
            Ok(true)
        }
    }
}

// The line of an answer in one word.
#[derive(Drop)]
struct WordLine<'a> {
    // What is answered.
    name: &'a str,
    // The answer.
    word: &'a str,
}

impl Shown for WordLine<'_> {
    ghost cell_of = { λ line. word_cell line.name.now line.word.now };

    fn show(&self, _alloc: Global, out: &mut CellWriter) -> Written {
        show_word(self.name, self.word, out)
    }
}

fn show_word(name: &str, word: &str, out: &mut CellWriter) -> Written
    ensures { ShowsMembers result out.old out.new (word_cell name.now word.now) }
{
    out.text(name)?;
    out.word(" ", name, word)?;
    out.text("\n")
}

// The line of the firmware's version.
#[derive(Drop)]
struct VersionLine<'a> {
    // What is known of it.
    version: Option<EventContent<'a>>,
}

impl Shown for VersionLine<'_> {
    ghost cell_of = { λ line. version_cell (option_map content_of line.version) };

    fn show(&self, alloc: Global, out: &mut CellWriter) -> Written {
        show_version(alloc, &self.version, out)
    }
}

fn show_version(alloc: Global, version: &Option<EventContent<'_>>, out: &mut CellWriter) -> Written
    ensures { ShowsMembers result out.old out.new (version_cell (option_map content_of version.now)) }
{
    match version {
        Some(content) => show_form(
            alloc,
            "firmware_version ",
            "firmware_version",
            EV_S_CRTM_VERSION,
            content,
            out,
        ),
        None => show_word("firmware_version", "unknown", out),
    }
}
