//! The positions where registers first have their expected values.

ghost use Rattle.std.specs.Prelude.{◌≡◌, option_copied};
ghost use Rattle.boot_verdict.specs.declared.steps.Position.TheVariants.{Reset};
ghost use Rattle.cells.specs.Cells.{ShowsMembers};
ghost use Rattle.answers.specs.PositionCells.{finds, found_cell, found_text, numbered_cell, position_cell, positions_cell};

use crate::rows::{Says, show_rows};
use boot_verdict::{Located, Position, Requirement, all_found, required_found};
use cells::{CellWriter, Written};
use std::alloc::Global;

/// Shows where each expected register first has its value.
pub fn show_positions(
    alloc: Global,
    located: &[Located],
    requirement: Option<&Requirement>,
    out: &mut CellWriter,
) -> Written
    ensures { ShowsMembers result out.old out.new (positions_cell (option_copied requirement.entry) located.now) }
{
    show_rows(alloc, "place", located, requirement, out)?;
    show_found(finds(located, requirement), out)
}

fn show_found(found: bool, out: &mut CellWriter) -> Written
    ensures { ShowsMembers result out.old out.new (found_cell found) }
{
    out.flag_member("located", found)?;
    out.text(found_text(found))
}

fn found_text(found: bool) -> &'static str
    ensures { result.now ≡ found_text found }
{
    if found { "located\n" } else { "not located\n" }
}

impl Says for Located {
    ghost said_of = { λ row. position_cell row.position };

    fn show(&self, _alloc: Global, out: &mut CellWriter) -> Written {
        match self.position {
            Position::Reset => show_reset(out),
            Position::Event(number) => show_numbered("event", " after event ", number, out),
            Position::Entry(number) => show_numbered("entry", " after entry ", number, out),
            Position::Nowhere => out.word(" ", "place", "nowhere"),
            Position::Absent => out.word(" ", "place", "absent"),
        }
    }
}

fn show_reset(out: &mut CellWriter) -> Written
    ensures { ShowsMembers result out.old out.new (position_cell Reset) }
{
    out.word_member("place", "reset")?;
    out.text(" at reset")
}

fn show_numbered(word: &str, before: &str, number: usize, out: &mut CellWriter) -> Written
    ensures { ShowsMembers result out.old out.new (numbered_cell word.now before.now number) }
{
    out.word_member("place", word)?;
    out.number(before, "number", number as u64)
}

/// Whether some register is expected, each has its value somewhere and no required one is missing.
pub fn finds(located: &[Located], requirement: Option<&Requirement>) -> bool
    ensures { result ≡ finds (option_copied requirement.entry) located.now }
{
    match requirement {
        Some(requirement) => required_found(located, requirement),
        None => all_found(located),
    }
}
