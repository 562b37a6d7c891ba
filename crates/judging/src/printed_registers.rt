//! Expected registers, in what tpm2-tools printed.

ghost use Rattle.std.specs.Prelude.{◌≡◌, option_map, IfOk, IfErr};
ghost use Rattle.judging.specs.Answering.{IsAnswer, IsNotPrintedOf, IsPrintedOf, IsRefusal, IsSelected, IsSelectionFault, selected_by};
ghost use Rattle.judging.specs.Requests.{ExpectedOf, location_of};

use crate::inputs::{Input, load_at};
use crate::request::{Answer, Answered, Answering};
use agent_inputs::{AgentFiles, RunFault};
use pcr_values::{ExpectFault, Expected, Selection, SelectionFault, read_printed};
use std::alloc::Global;

/// The registers that the text in this input states, of those that another text selects, or all of them without one. The selection is read
/// before the input is loaded.
#[inline(never)]
pub(crate) fn printed_registers<F: AgentFiles>(
    alloc: Global,
    files: &mut F,
    printed: Input<'_>,
    registers: Option<&[u8]>,
) -> Answering
    ensures answer { IfOk result (IsAnswer (F.inputs files.old)
        (ExpectedOf (location_of printed.entry) (option_map (λ text. text.now) registers.entry))) }
    ensures fault { IfErr result (IsRefusal (F.inputs files.old)
        (ExpectedOf (location_of printed.entry) (option_map (λ text. text.now) registers.entry))) }
    ensures inputs { F.inputs files.new ≡ F.inputs files.old }
    ensures replaced { F.replaced files.new ≡ F.replaced files.old }
{
    let selection = selection_of(alloc, registers)?;
    let text = load_at(alloc, files, printed)?;
    let expected = stated_in(alloc, text.bytes(), selection.as_ref())?;
    Ok(Answered::alone(Answer::Expected(expected)))
}

// What the text selects, if there is one.
fn selection_of(alloc: Global, text: Option<&[u8]>) -> Result<Option<Selection>, RunFault>
    ensures selected { IfOk result (IsSelected (option_map (λ text. text.now) text.entry)) }
    ensures fault { IfErr result (IsSelectionFault (option_map (λ text. text.now) text.entry)) }
{
    let Some(text) = text else {
        return Ok(None);
    };
    match Selection::from_text(alloc, text) {
        Ok(selection) => Ok(Some(selection)),
        Err(SelectionFault::Malformed { .. } | SelectionFault::LacksPcr10) => Err(RunFault::Usage),
        Err(SelectionFault::Memory) => Err(RunFault::Memory),
    }
}

// The registers that this text states, of which at least one is selected.
fn stated_in(
    alloc: Global,
    text: &[u8],
    selection: Option<&Selection>,
) -> Result<Vec<Expected>, RunFault>
    ensures expected { IfOk result (λ expected. IsPrintedOf (option_map (λ selection. selection.now) selection.entry) text.now expected.items) }
    ensures fault { IfErr result (IsNotPrintedOf (option_map (λ selection. selection.now) selection.entry) text.now) }
{
    let mut expected = read_printed(alloc, text)?;
    keep(selection, &mut expected);
    if expected.is_empty() {
        return Err(RunFault::Expect(ExpectFault::NoRegister));
    }
    Ok(expected)
}

// Keeps the registers that are selected; all without a selection.
fn keep(selection: Option<&Selection>, expected: &mut Vec<Expected>)
    ensures { expected.new.items ≡ selected_by (option_map (λ selection. selection.now) selection.entry) expected.old.items }
{
    if let Some(selection) = selection {
        selection.keep(expected);
    }
}
