//! What is measured and confirmed of an event's data.

ghost use Rattle.std.specs.Prelude.{◌≡◌, codes, option_map, Some};
ghost use Rattle.boot_log.specs.Names.{log_event_of};
ghost use Rattle.cells.specs.Cells.{ShowsMembers, members, object_at};
ghost use Rattle.event_lines.specs.EventCells.{confirmed_cell, is_measured_somewhere, mark_cell, measured_cell, measured_word, part_cell, part_name, parts_cell, unconfirmed_cell};

use boot_log::Event;
use cells::{CellWriter, Written};
use measured_data::{Part, Pcr, confirmed_part, measured_part};
use pcr_banks::Alg;

/// Shows what is measured, and what the registers which match confirm, if any were compared: then text has this alone. Fails only if memory
/// runs out.
pub(crate) fn show_mark(event: &Event<'_>, matched: Option<&[Pcr]>, out: &mut CellWriter) -> Written
    ensures { ShowsMembers result out.old out.new
        (mark_cell (option_map (λ places. places.now) matched.entry) (log_event_of event.now)) }
{
    match matched {
        Some(places) => show_compared(event, places, out),
        None => show_measured(event, out),
    }
}

fn show_compared(event: &Event<'_>, places: &[Pcr], out: &mut CellWriter) -> Written
    ensures { ShowsMembers result out.old out.new (mark_cell (Some places.now) (log_event_of event.now)) }
{
    show_measured_member(event, out)?;
    show_confirmed(confirmed_part(event, places), out)
}

// Shows in JSON what is measured.
fn show_measured_member(event: &Event<'_>, out: &mut CellWriter) -> Written
    ensures { ShowsMembers result out.old out.new (members (measured_cell (log_event_of event.now)).json) }
{
    match out {
        CellWriter::Text(_) => Ok(()),
        CellWriter::Json(_) => show_measured(event, out),
    }
}

// Shows the banks in which a part of the data is measured, and the part, or that there is none.
fn show_measured(event: &Event<'_>, out: &mut CellWriter) -> Written
    ensures { ShowsMembers result out.old out.new (measured_cell (log_event_of event.now)) }
{
    out.text(measured_word(event))?;
    show_parts_object(event, out)
}

fn show_parts_object(event: &Event<'_>, out: &mut CellWriter) -> Written
    ensures { ShowsMembers result out.old out.new (object_at (codes "measured") (parts_cell (log_event_of event.now))) }
{
    out.object("measured")?;
    show_parts(event, out)?;
    out.end()
}

fn measured_word(event: &Event<'_>) -> &'static str
    ensures { result.now ≡ measured_word (log_event_of event.now) }
{
    if is_measured_somewhere(event) {
        "measured"
    } else {
        "claimed"
    }
}

// Whether a part of the data is measured in some bank.
fn is_measured_somewhere(event: &Event<'_>) -> bool
    ensures { result ≡ is_measured_somewhere (log_event_of event.now) }
{
    Alg::ALL
        .iter()
        .any(|alg| measured_part(event, *alg).is_some())
}

fn show_parts(event: &Event<'_>, out: &mut CellWriter) -> Written
    ensures { ShowsMembers result out.old out.new (parts_cell (log_event_of event.now)) }
{
    for alg in &Alg::ALL {
        show_part(*alg, measured_part(event, *alg), out)?;
    }
    Ok(())
}

// Shows the bank and the part, if there is one.
fn show_part(alg: Alg, part: Option<Part>, out: &mut CellWriter) -> Written
    ensures { ShowsMembers result out.old out.new (part_cell alg part) }
{
    match part {
        Some(part) => show_named(alg, part, out),
        None => Ok(()),
    }
}

fn show_named(alg: Alg, part: Part, out: &mut CellWriter) -> Written
    ensures { ShowsMembers result out.old out.new (part_cell alg (Some part)) }
{
    out.text(" ")?;
    out.text(alg.name())?;
    out.word(":", alg.name(), part_name(part))
}

fn part_name(part: Part) -> &'static str
    ensures { result.now ≡ part_name part }
{
    match part {
        Part::Whole => "data",
        Part::Value => "value",
        Part::Command => "command",
    }
}

// Shows the part that is confirmed, or that there is none.
fn show_confirmed(part: Option<Part>, out: &mut CellWriter) -> Written
    ensures { ShowsMembers result out.old out.new (confirmed_cell part) }
{
    match part {
        Some(part) => out.word("confirmed ", "confirmed", part_name(part)),
        None => show_unconfirmed(out),
    }
}

fn show_unconfirmed(out: &mut CellWriter) -> Written
    ensures { ShowsMembers result out.old out.new unconfirmed_cell }
{
    out.text("claimed")?;
    out.word_member("confirmed", "none")
}
