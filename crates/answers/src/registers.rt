//! Registers: those that differ from a start, and expected ones.

ghost use Rattle.std.specs.Prelude.{◌≡◌, ℕ, List, Option, option_map};
ghost use Rattle.pcr_banks.specs.declared.alg.Alg.{Alg};
ghost use Rattle.pcr_banks.specs.Names.{bytes_of, digest_of};
ghost use Rattle.pcr_values.specs.Names.{every_register};
ghost use Rattle.cells.specs.Cells.{ShowsItems, ShowsMembers, each};
ghost use Rattle.answers.specs.RegisterCells.{change_cell, changed_value, expected_cell, register_cell, registers_cell, value_cell};

use cells::{CellWriter, Written};
use pcr_banks::{Alg, Banks, Digest};
use pcr_values::{ALL_REGISTERS, Expected, register_numbered};
use std::alloc::Global;

/// Shows the registers whose value in `now` differs from that in `start`, or whose bank `start` lacks.
pub fn show_registers(alloc: Global, now: &Banks, start: &Banks, out: &mut CellWriter) -> Written
    ensures { ShowsMembers result out.old out.new (registers_cell now.now start.now) }
{
    out.list("registers")?;
    show_changed(alloc, now, start, out)?;
    out.end_list()
}

fn show_changed(alloc: Global, now: &Banks, start: &Banks, out: &mut CellWriter) -> Written
    ensures { ShowsItems result out.old out.new (each (λ register. change_cell now.now start.now register.0 register.1) every_register) }
{
    for number in 0..ALL_REGISTERS {
        let (alg, register) = register_numbered(number);
        show_change(alloc, now, start, alg, register, out)?;
    }
    Ok(())
}

// Shows the register if its value differs from that at the start.
fn show_change(
    alloc: Global,
    now: &Banks,
    start: &Banks,
    alg: Alg,
    register: u32,
    out: &mut CellWriter,
) -> Written
    ensures { ShowsItems result out.old out.new (change_cell now.now start.now alg register) }
{
    let value = changed_value(start.read(alg, register), now.read(alg, register));
    match value {
        None => Ok(()),
        Some(value) => show_value(alloc, alg, register, &value, out),
    }
}

// The value, if it differs from the one before. Both must be values of one bank.
fn changed_value(before: Option<Digest>, now: Option<Digest>) -> Option<Digest>
    ensures { (alg : Alg) (old new : Option (List ℕ)) → before ≡ option_map (digest_of alg) old → now ≡ option_map (digest_of alg) new
        → result ≡ option_map (digest_of alg) (changed_value old new) }
{
    match (now, before) {
        (None, _) => None,
        (Some(value), Some(before)) if value == before => None,
        (Some(value), _) => Some(value),
    }
}

/// Shows these expected registers, in order.
pub fn show_expected(alloc: Global, expected: &[Expected], out: &mut CellWriter) -> Written
    ensures { ShowsMembers result out.old out.new (expected_cell expected.now) }
{
    out.list("registers")?;
    show_all(alloc, expected, out)?;
    out.end_list()
}

fn show_all(alloc: Global, expected: &[Expected], out: &mut CellWriter) -> Written
    ensures { ShowsItems result out.old out.new
        (each (λ expected. value_cell expected.alg expected.register (bytes_of expected.value)) expected.now) }
{
    for register in expected {
        show_one(alloc, register, out)?;
    }
    Ok(())
}

fn show_one(alloc: Global, expected: &Expected, out: &mut CellWriter) -> Written
    ensures { ShowsItems result out.old out.new
        (value_cell expected.now.alg expected.now.register (bytes_of expected.now.value)) }
{
    show_value(alloc, expected.alg, expected.register, &expected.value, out)
}

// Shows a register and its value.
fn show_value(
    alloc: Global,
    alg: Alg,
    register: u32,
    value: &Digest,
    out: &mut CellWriter,
) -> Written
    ensures { ShowsItems result out.old out.new (value_cell alg register (bytes_of value.now)) }
{
    out.begin()?;
    show_register(alg, register, out)?;
    out.hex(alloc, " ", "value", value.bytes())?;
    out.text("\n")?;
    out.end()
}

/// Shows which register it is.
pub(crate) fn show_register(alg: Alg, register: u32, out: &mut CellWriter) -> Written
    ensures { ShowsMembers result out.old out.new (register_cell alg register) }
{
    out.word("", "bank", alg.name())?;
    out.number(" ", "register", register as u64)
}
