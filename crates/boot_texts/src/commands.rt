//! The lines of the texts that boot loaders measured.

ghost use Rattle.std.specs.Prelude.{◌≡◌, [], ◌∷◌, ◌++◌, codes, IfOk, List, ℕ, OnOk};
ghost use Rattle.boot_log.specs.Names.{log_event_of};
ghost use Rattle.boot_answers.specs.Commands.{said_of};
ghost use Rattle.cells.specs.Cells as cells;
ghost use Rattle.cells.specs.Cells.{ShowsMembers, if_some, object_at, word_member};
ghost use Rattle.cells.specs.Values.{line_of, object_of};
ghost use Rattle.event_lines.specs.SteeringTexts.{unsteered};
ghost use Rattle.cells.specs.Writing.{WritesMembers, WritesValue};
ghost use Rattle.boot_texts.specs.AnswerCells.{command_cell, kind_cell, said_cell, text_member, unknown_command_cell};
ghost use Rattle.boot_texts.specs.Telling.{IsCommandLine};

use boot_answers::{CommandText, told_text};
use boot_log::Event;
use cells::{CellWriter, Form, Shown, Written, append, write_shown};
use event_lines::{append_embedded, command_word, show_register, write_wide};
use json::Writer;
use measured_data::Pcr;
use std::alloc::{AllocError, Global};

/// Appends the line of the event with this number, if it is extended into the register. Returns whether it tells a text, or is not.
pub(crate) fn append_if_command(
    alloc: Global,
    form: Form,
    matched: &[Pcr],
    register: u32,
    number: usize,
    event: &Event<'_>,
    lines: &mut Vec<u8>,
) -> Result<bool, AllocError>
    ensures { IfOk result (λ goes. (text : List ℕ) × IsCommandLine register form matched.now number (log_event_of event.now) goes text
        × (lines.new.items ≡ lines.old.items ++ text)) }
{
    if !event.is_extended_into(register) {
        return Ok(true);
    }
    match told_text(event, matched) {
        Some(text) => {
            let line = CommandLine {
                register,
                number,
                text,
            };
            append(alloc, form, &line, lines)?;
            Ok(true)
        }
        None => {
            let line = UnknownCommandLine {
                register,
                event: Some(number),
            };
            append(alloc, form, &line, lines)?;
            Ok(false)
        }
    }
}

/// The line of the text that an event tells.
#[derive(Drop)]
pub(crate) struct CommandLine<'a> {
    /// The register into which the event is extended.
    pub register: u32,
    /// The event's number.
    pub number: usize,
    /// What it tells.
    pub text: CommandText<'a>,
}

impl Shown for CommandLine<'_> {
    ghost cell_of = { λ line. command_cell line.register line.number (said_of line.text) };

    fn show(&self, alloc: Global, out: &mut CellWriter) -> Written {
        show_command(alloc, self.register, self.number, &self.text, out)
    }
}

fn show_command(
    alloc: Global,
    register: u32,
    number: usize,
    text: &CommandText<'_>,
    out: &mut CellWriter,
) -> Written
    ensures { ShowsMembers result out.old out.new (command_cell register number (said_of text.now)) }
{
    out.number("command ", "command", number as u64)?;
    show_register(" ", register, out)?;
    show_text(alloc, text, out)?;
    show_kind(text, out)
}

// Shows the text.
fn show_text(alloc: Global, text: &CommandText<'_>, out: &mut CellWriter) -> Written
    ensures { ShowsMembers result out.old out.new (said_cell (said_of text.now)) }
{
    match out {
        CellWriter::Text(shown) => {
            shown.extend_from_slice(b" ")?;
            append_object(alloc, text, shown)
        }
        CellWriter::Json(writer) => write_text(alloc, text, writer),
    }
}

// Appends the object with the text, in which no character steers what shows it.
fn append_object(alloc: Global, text: &CommandText<'_>, lines: &mut Vec<u8>) -> Written
    ensures { OnOk result (lines.new.items ≡ lines.old.items ++ unsteered (line_of (object_of (text_member (said_of text.now) ∷ [])))) }
{
    let mut writer = Writer::new(Vec::new(alloc));
    write_object(alloc, text, &mut writer)?;
    append_embedded(writer, lines)
}

fn write_object(alloc: Global, text: &CommandText<'_>, writer: &mut Writer) -> Written
    ensures { WritesValue result writer.old writer.new (object_of (text_member (said_of text.now) ∷ [])) }
{
    writer.begin_object()?;
    write_text(alloc, text, writer)?;
    writer.end_object()?;
    Ok(())
}

// Writes the member of the text.
fn write_text(alloc: Global, text: &CommandText<'_>, writer: &mut Writer) -> Written
    ensures { WritesMembers result writer.old writer.new (text_member (said_of text.now) ∷ []) }
{
    match text {
        CommandText::Grub(command) => {
            write_shown(alloc, "text", "text_hex", command.text, writer)
        }
        CommandText::Wide(text) => write_wide(alloc, "text", "text_hex", text, writer),
    }
}

// Shows the kind of a command of GRUB, as claimed.
fn show_kind(text: &CommandText<'_>, out: &mut CellWriter) -> Written
    ensures { ShowsMembers result out.old out.new (kind_cell (said_of text.now)) }
{
    match text {
        CommandText::Grub(command) => show_claimed(command_word(command.kind), out),
        CommandText::Wide(_) => Ok(()),
    }
}

fn show_claimed(kind: &str, out: &mut CellWriter) -> Written
    ensures { ShowsMembers result out.old out.new (object_at (codes "claimed") (word_member (codes "kind") kind.now)) }
{
    out.object("claimed")?;
    out.word_member("kind", kind)?;
    out.end()
}

/// The line of a register whose commands are unknown: all of them, or those from an event on.
#[derive(Drop)]
pub(crate) struct UnknownCommandLine {
    /// The register.
    pub register: u32,
    /// The number of the event that tells no text; `None` where no bank answers for the register.
    pub event: Option<usize>,
}

impl Shown for UnknownCommandLine {
    ghost cell_of = { λ line. unknown_command_cell line.register line.event };

    fn show(&self, _alloc: Global, out: &mut CellWriter) -> Written {
        show_unknown_command(self.register, self.event, out)
    }
}

fn show_unknown_command(register: u32, event: Option<usize>, out: &mut CellWriter) -> Written
    ensures { ShowsMembers result out.old out.new (unknown_command_cell register event) }
{
    out.word("command ", "command", "unknown")?;
    show_register(" ", register, out)?;
    show_event(event, out)?;
    out.text("\n")
}

/// Shows the event's number, if there is one.
pub(crate) fn show_event(event: Option<usize>, out: &mut CellWriter) -> Written
    ensures { ShowsMembers result out.old out.new (if_some event (cells.number (codes " ") (codes "event"))) }
{
    match event {
        Some(number) => out.number(" ", "event", number as u64),
        None => Ok(()),
    }
}
