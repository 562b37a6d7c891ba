//! The lines that tell how far two boots extended a register alike, and by which other events.

ghost use Rattle.std.specs.Prelude.{◌≡◌, ◌++◌, [], drop, false, get_or, if◌then◌else◌, List, OnOk, codes, option_map};
ghost use Rattle.pcr_banks.specs.Names.{bytes_of};
ghost use Rattle.boot_log.specs.declared.header.DeclaredAlgorithm.{DeclaredAlgorithm};
ghost use Rattle.boot_log.specs.Names.{IsLog, LogEvent, log_bytes, log_event_of};
ghost use Rattle.cells.specs.Cells.{ShowsMembers, hex, if_some};
ghost use Rattle.event_lines.specs.ContentJson.{event_content_json};
ghost use Rattle.event_lines.specs.SteeringTexts.{value_cell};
ghost use Rattle.boot_texts.specs.Differences.{alike_cell, apart_cell, boot_word, event_cell, event_line, lines_from, place_cell};

use boot_log::{Event, LogView};
use cells::{CellWriter, Form, Shown, Written, append};
use event_lines::{show_content, show_register};
use pcr_banks::{Alg, Digest};
use std::alloc::Global;

/// One of the boots that are compared.
#[derive(Clone, Copy)]
pub(crate) enum ComparedBoot {
    /// The one that is asked about.
    Now,
    /// The earlier one.
    Before,
}

/// What the lines of a register's events have in common.
#[derive(Clone, Copy)]
pub(crate) struct EventLine {
    /// How they are told.
    pub form: Form,
    /// The register into which the events are extended.
    pub register: u32,
    /// The bank of which their digests are told.
    pub alg: Alg,
}

/// The line that a register was extended alike so far as this word says.
#[derive(Drop)]
pub(crate) struct AlikeLine<'a> {
    /// The register.
    pub register: u32,
    /// `unknown` or `all`.
    pub word: &'a str,
}

impl Shown for AlikeLine<'_> {
    ghost cell_of = { λ line. alike_cell line.register line.word.now };

    fn show(&self, _alloc: Global, out: &mut CellWriter) -> Written {
        show_alike(self.register, self.word, out)
    }
}

fn show_alike(register: u32, word: &str, out: &mut CellWriter) -> Written
    ensures { ShowsMembers result out.old out.new (alike_cell register word.now) }
{
    show_register("register ", register, out)?;
    out.word(" alike ", "alike", word)?;
    out.text("\n")
}

/// The line that the boots differ after so many events.
#[derive(Drop)]
pub(crate) struct ApartLine {
    /// The register.
    pub register: u32,
    /// The bank in which they differ.
    pub alg: Alg,
    /// How many events they have alike.
    pub place: usize,
}

impl Shown for ApartLine {
    ghost cell_of = { λ line. apart_cell line.register line.alg line.place };

    fn show(&self, _alloc: Global, out: &mut CellWriter) -> Written {
        show_apart(self.register, self.alg, self.place, out)
    }
}

fn show_apart(register: u32, alg: Alg, place: usize, out: &mut CellWriter) -> Written
    ensures { ShowsMembers result out.old out.new (apart_cell register alg place) }
{
    show_register("register ", register, out)?;
    out.word(" ", "bank", alg.name())?;
    out.number(" alike ", "alike", place as u64)?;
    out.text("\n")
}

/// Appends the lines of the events that are extended into the register, but the first `place` of them, and then those with a mark. Fails only if
/// memory runs out.
pub(crate) fn append_events(
    alloc: Global,
    log: &LogView<'_>,
    boot: ComparedBoot,
    line: EventLine,
    place: usize,
    marks: &[bool],
    lines: &mut Vec<u8>,
) -> Written
    ensures { (table : List DeclaredAlgorithm) (events : List LogEvent) → IsLog (log_bytes log.now) table events
        → OnOk result (lines.new.items ≡ lines.old.items ++ lines_from boot line place marks.now events) }
{
    let mut left = place;
    let mut later = marks;
    let mut events = log.events();
    while let Some(event) = events.next_event() {
        if !event.is_extended_into(line.register) {
            continue;
        }
        if left > 0 {
            left -= 1;
            continue;
        }
        let (is_common, rest) = first_mark(later);
        later = rest;
        let number = events.count();
        append_unless(alloc, boot, line, is_common, number, &event, lines)?;
    }
    Ok(())
}

// The first mark, `false` if there is none; and those after it.
fn first_mark(marks: &[bool]) -> (bool, &[bool])
    ensures mark { result.0 ≡ get_or marks.now 0 false }
    ensures rest { result.1.now ≡ drop 1 marks.now }
{
    match marks.split_first() {
        Some((mark, rest)) => (*mark, rest),
        None => (false, marks),
    }
}

// Appends the event's line, unless the boots have it in common.
fn append_unless(
    alloc: Global,
    boot: ComparedBoot,
    line: EventLine,
    is_common: bool,
    number: usize,
    event: &Event<'_>,
    lines: &mut Vec<u8>,
) -> Written
    ensures { OnOk result (lines.new.items ≡ lines.old.items ++ (if is_common then [] else event_line boot line number (log_event_of event.now))) }
{
    if is_common {
        Ok(())
    } else {
        append_event(alloc, boot, line, number, event, lines)
    }
}

fn append_event(
    alloc: Global,
    boot: ComparedBoot,
    line: EventLine,
    number: usize,
    event: &Event<'_>,
    lines: &mut Vec<u8>,
) -> Written
    ensures { OnOk result (lines.new.items ≡ lines.old.items ++ event_line boot line number (log_event_of event.now)) }
{
    let shown = BootEvent {
        boot,
        register: line.register,
        alg: line.alg,
        number,
        event,
    };
    append(alloc, line.form, &shown, lines)
}

// An event of one of the boots.
#[derive(Drop)]
struct BootEvent<'a> {
    boot: ComparedBoot,
    register: u32,
    alg: Alg,
    number: usize,
    event: &'a Event<'a>,
}

impl Shown for BootEvent<'_> {
    ghost cell_of = { λ shown. event_cell shown.boot shown.register shown.alg shown.number (log_event_of shown.event.now) };

    fn show(&self, alloc: Global, out: &mut CellWriter) -> Written {
        show_place(self.register, boot_word(self.boot), self.number, out)?;
        show_digest(alloc, self.event.digests.get(self.alg), out)?;
        show_claimed(alloc, self.event, out)
    }
}

// Shows the register, the boot and the event's number in its log.
fn show_place(register: u32, boot: &str, number: usize, out: &mut CellWriter) -> Written
    ensures { ShowsMembers result out.old out.new (place_cell register boot.now number) }
{
    show_register("register ", register, out)?;
    out.text(" ")?;
    out.text(boot)?;
    out.number(" ", boot, number as u64)
}

fn boot_word(boot: ComparedBoot) -> &'static str
    ensures { result.now ≡ boot_word boot }
{
    match boot {
        ComparedBoot::Now => "now",
        ComparedBoot::Before => "before",
    }
}

// Shows the digest, if there is one.
fn show_digest(alloc: Global, digest: Option<Digest>, out: &mut CellWriter) -> Written
    ensures { ShowsMembers result out.old out.new (if_some (option_map bytes_of digest) (hex (codes " ") (codes "digest"))) }
{
    match digest {
        Some(digest) => out.hex(alloc, " ", "digest", digest.bytes()),
        None => Ok(()),
    }
}

// Shows what the event's data claims.
fn show_claimed(alloc: Global, event: &Event<'_>, out: &mut CellWriter) -> Written
    ensures { ShowsMembers result out.old out.new (value_cell (codes " claimed ") (codes "claimed") (event_content_json (log_event_of event.now))) }
{
    show_content(
        alloc,
        " claimed ",
        "claimed",
        event.kind,
        event.payload,
        out,
    )
}
