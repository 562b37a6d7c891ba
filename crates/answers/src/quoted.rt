//! What a quote states.

ghost use Rattle.std.specs.Prelude.{◌≡◌, map};
ghost use Rattle.pcr_values.specs.Names.{all_registers};
ghost use Rattle.attestations.specs.Quoted.{bank_selection_of, stated_of};
ghost use Rattle.cells.specs.Cells.{ShowsItems, ShowsMembers, each};
ghost use Rattle.answers.specs.AttestationCells.{bank_cell, clock_cell, firmware_cell, number_cell, safe_text, selection_cell, signer_cell, stated_cell};

use attestations::{Quoted, Selected};
use cells::{CellWriter, Written};
use pcr_banks::REGISTERS;
use std::alloc::Global;
use tpm_quotes::Clock;

/// Shows what the quote states.
pub(crate) fn show_stated(alloc: Global, quoted: &Quoted, out: &mut CellWriter) -> Written
    ensures { ShowsMembers result out.old out.new (stated_cell (stated_of quoted.now)) }
{
    out.list("quoted")?;
    show_selections(&quoted.selections, out)?;
    out.end_list()?;
    show_signer(alloc, &quoted.signer, out)?;
    show_clock(quoted.clock, out)?;
    show_firmware(quoted.firmware, out)
}

fn show_selections(selections: &[Selected], out: &mut CellWriter) -> Written
    ensures { ShowsItems result out.old out.new (each selection_cell (map bank_selection_of selections.now)) }
{
    for selected in selections {
        show_selection(selected, out)?;
    }
    Ok(())
}

// Shows the bank, if any register of it is selected.
fn show_selection(selected: &Selected, out: &mut CellWriter) -> Written
    ensures { ShowsItems result out.old out.new (selection_cell (bank_selection_of selected.now)) }
{
    if !selected.selects_one() {
        return Ok(());
    }
    out.begin()?;
    show_bank(selected, out)?;
    out.end()
}

// Shows the bank and its registers.
fn show_bank(selected: &Selected, out: &mut CellWriter) -> Written
    ensures { ShowsMembers result out.old out.new (bank_cell (bank_selection_of selected.now)) }
{
    out.word("quoted ", "bank", selected.alg.name())?;
    out.list("registers")?;
    show_numbers(selected, out)?;
    out.end_list()?;
    out.text("\n")
}

fn show_numbers(selected: &Selected, out: &mut CellWriter) -> Written
    ensures { ShowsItems result out.old out.new (each (number_cell (bank_selection_of selected.now)) all_registers) }
{
    for register in 0..REGISTERS {
        show_if_selected(selected, register, out)?;
    }
    Ok(())
}

// Shows the register's number, if it is selected.
fn show_if_selected(selected: &Selected, register: u32, out: &mut CellWriter) -> Written
    ensures { ShowsItems result out.old out.new (number_cell (bank_selection_of selected.now) register) }
{
    if !selected.selects(register) {
        return Ok(());
    }
    out.item_number(" ", register as u64, "")
}

fn show_signer(alloc: Global, signer: &[u8], out: &mut CellWriter) -> Written
    ensures { ShowsMembers result out.old out.new (signer_cell signer.now) }
{
    out.hex(alloc, "signer ", "signer", signer)?;
    out.text("\n")
}

fn show_clock(clock: Clock, out: &mut CellWriter) -> Written
    ensures { ShowsMembers result out.old out.new (clock_cell clock) }
{
    out.object("clock")?;
    out.number("clock ", "milliseconds", clock.milliseconds)?;
    out.number(" resets ", "resets", clock.resets as u64)?;
    out.number(" restarts ", "restarts", clock.restarts as u64)?;
    out.flag_member("safe", clock.is_safe)?;
    out.text(safe_text(clock.is_safe))?;
    out.end()
}

fn safe_text(is_safe: bool) -> &'static str
    ensures { result.now ≡ safe_text is_safe }
{
    if is_safe { " safe\n" } else { " unsafe\n" }
}

fn show_firmware(firmware: u64, out: &mut CellWriter) -> Written
    ensures { ShowsMembers result out.old out.new (firmware_cell firmware) }
{
    out.number("firmware ", "firmware", firmware)?;
    out.text("\n")
}
