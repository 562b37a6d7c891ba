//! The lines of the variables that say what the firmware was to start.

ghost use Rattle.std.specs.Prelude.{◌≡◌, ◌↔◌, ◌++◌, List, ℕ, false, IfOk, IsTrue, OnOk};
ghost use Rattle.std.specs.List.{list_all};
ghost use Rattle.std.specs.Option.{option_map_or};
ghost use Rattle.pcr_banks.specs.Names.{all_algs};
ghost use Rattle.boot_log.specs.Names.{log_event_of};
ghost use Rattle.event_data.specs.Names.{variable_in, variable_of};
ghost use Rattle.cells.specs.Cells.{ShowsMembers};
ghost use Rattle.boot_texts.specs.AnswerCells.{variable_cell};
ghost use Rattle.boot_texts.specs.Boots.{is_boot_variable};
ghost use Rattle.boot_texts.specs.Telling.{IsSeparatorBy, MayBeSeparatorIn, IsSettingLine, IsVariableLine, allows_variable, is_told_variable, told_variable};

use boot_answers::may_be_separator;
use boot_log::Event;
use cells::{CellWriter, Form, Shown, Written, append};
use event_data::{ValueForm, Variable, read_variable, value_form};
use event_lines::show_content;
use measured_data::{Part, Pcr, SETTINGS_REGISTER, is_answering, is_measured};
use pcr_banks::Alg;
use std::alloc::{AllocError, Global};

/// The type of an event with a boot variable.
const EV_EFI_VARIABLE_BOOT: u32 = 0x8000_0002;

/// Appends the line of the event with this number, if it is a boot variable. Returns whether the events after it are looked at.
pub(crate) fn append_if_variable(
    alloc: Global,
    form: Form,
    matched: &[Pcr],
    number: usize,
    event: &Event<'_>,
    lines: &mut Vec<u8>,
) -> Result<bool, AllocError>
    ensures { IfOk result (λ goes. (text : List ℕ) × IsVariableLine form matched.now number (log_event_of event.now) goes text
        × (lines.new.items ≡ lines.old.items ++ text)) }
{
    if event.is_extended_into(SETTINGS_REGISTER) {
        append_setting(alloc, form, matched, number, event, lines)
    } else {
        Ok(true)
    }
}

// Appends the line of the register's event with this number, if it is a boot variable. Returns whether it is no separator.
fn append_setting(
    alloc: Global,
    form: Form,
    matched: &[Pcr],
    number: usize,
    event: &Event<'_>,
    lines: &mut Vec<u8>,
) -> Result<bool, AllocError>
    ensures { IfOk result (λ goes. (text : List ℕ) × IsSettingLine form matched.now number (log_event_of event.now) goes text
        × (lines.new.items ≡ lines.old.items ++ text)) }
{
    if may_be_separator_in(event, matched) {
        return Ok(false);
    }
    append_if_told(alloc, form, matched, number, event, lines)?;
    Ok(true)
}

// Whether the event may be a separator by some bank that answers.
fn may_be_separator_in(event: &Event<'_>, matched: &[Pcr]) -> bool
    ensures { IsTrue result ↔ MayBeSeparatorIn matched.now (log_event_of event.now) }
{
    for alg in Alg::ALL {
        if is_separator_by(event, matched, alg) {
            return true;
        }
    }
    false
}

// Whether the bank answers, and the event may be a separator by it.
fn is_separator_by(event: &Event<'_>, matched: &[Pcr], alg: Alg) -> bool
    ensures { IsTrue result ↔ IsSeparatorBy matched.now (log_event_of event.now) alg }
{
    is_answering(matched, alg, SETTINGS_REGISTER) && may_be_separator(event, alg)
}

// Appends the line of the event with this number, if it is a boot variable.
fn append_if_told(
    alloc: Global,
    form: Form,
    matched: &[Pcr],
    number: usize,
    event: &Event<'_>,
    lines: &mut Vec<u8>,
) -> Written
    ensures { OnOk result (lines.new.items ≡ lines.old.items ++ told_variable form matched.now number (log_event_of event.now)) }
{
    if is_told_variable(event, matched) {
        append(alloc, form, &VariableLine { number, event }, lines)
    } else {
        Ok(())
    }
}

// Whether the event's data is a boot variable, and is measured so in each bank that answers.
fn is_told_variable(event: &Event<'_>, matched: &[Pcr]) -> bool
    ensures { result ≡ is_told_variable matched.now (log_event_of event.now) }
{
    all_allow(event, matched) && is_boot_data(event.payload)
}

// Whether no bank that answers tells anything against the event as a variable.
fn all_allow(event: &Event<'_>, matched: &[Pcr]) -> bool
    ensures { result ≡ list_all (λ alg. allows_variable matched.now (log_event_of event.now) alg) all_algs }
{
    Alg::ALL
        .iter()
        .all(|alg| allows_variable(event, matched, *alg))
}

// Whether the bank does not answer, or in it the event's data is measured, or the variable's value.
fn allows_variable(event: &Event<'_>, matched: &[Pcr], alg: Alg) -> bool
    ensures { result ≡ allows_variable matched.now (log_event_of event.now) alg }
{
    !is_answering(matched, alg, SETTINGS_REGISTER)
        || is_measured(event, alg, Part::Whole)
        || is_measured(event, alg, Part::Value)
}

// Whether the bytes are a boot variable.
fn is_boot_data(bytes: &[u8]) -> bool
    ensures { result ≡ option_map_or is_boot_variable (variable_in bytes.now) false }
{
    match read_variable(bytes) {
        Some(variable) => is_boot_variable(&variable),
        None => false,
    }
}

/// Whether the variable is claimed to be BootOrder or a Boot####.
pub(crate) fn is_boot_variable(variable: &Variable<'_>) -> bool
    ensures { result ≡ is_boot_variable (variable_of variable.now) }
{
    matches!(
        value_form(0, variable),
        ValueForm::Order | ValueForm::LoadOption
    )
}

// The line of a boot variable.
#[derive(Drop)]
struct VariableLine<'a> {
    number: usize,
    event: &'a Event<'a>,
}

impl Shown for VariableLine<'_> {
    ghost cell_of = { λ line. variable_cell line.number (log_event_of line.event.now) };

    fn show(&self, alloc: Global, out: &mut CellWriter) -> Written {
        show_variable(alloc, self.number, self.event, out)
    }
}

fn show_variable(alloc: Global, number: usize, event: &Event<'_>, out: &mut CellWriter) -> Written
    ensures { ShowsMembers result out.old out.new (variable_cell number (log_event_of event.now)) }
{
    out.number("boot_variable ", "boot_variable", number as u64)?;
    show_content(
        alloc,
        " ",
        "content",
        EV_EFI_VARIABLE_BOOT,
        event.payload,
        out,
    )
}
