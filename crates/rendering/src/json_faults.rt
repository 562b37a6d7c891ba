//! The line of a fault with `--json`.

ghost use Rattle.std.specs.Prelude.{◌≡◌, IfOk};
ghost use Rattle.cells.specs.Cells.{ShowsMembers, if_some, number_member, when};
ghost use Rattle.rendering.specs.FaultTexts.{fault_cell, json_fault_line, names_entry, names_event, place_cell, told_cell};
ghost use Rattle.agent_inputs.specs.declared.fault.RunFault.TheVariants.{Memory};

use crate::fault_lines::{message_of, said_of, widened};
use agent_inputs::{FaultHead, FaultKind, RunFault};
use cells::{CellWriter, Form, Shown, Written, render};
use std::alloc::{AllocError, Global};

/// The line of a fault, as JSON, with its line feed. Its members are `kind`, one word; `number` and `event` or `entry`, each where the fault
/// has it; and `message`, the line that [`crate::write_fault`] writes. Out of memory, even inside another fault, is of the kind `memory`.
///
/// Fails only if memory runs out.
pub fn json_fault_line(alloc: Global, fault: &RunFault) -> Result<Vec<u8>, AllocError>
    ensures { IfOk result (λ line. line.items ≡ json_fault_line fault.now) }
{
    render(alloc, Form::Json, &ShownFault { fault })
}

/// The line of [`RunFault::Memory`] as JSON, which takes no memory.
pub fn json_memory_line() -> &'static [u8]
    ensures { result.now ≡ json_fault_line Memory }
{
    b"{\"fault\":{\"kind\":\"memory\",\"message\":\"failed: memory\"}}\n"
}

// A fault that is shown.
#[derive(Drop)]
struct ShownFault<'a> {
    fault: &'a RunFault,
}

impl Shown for ShownFault<'_> {
    ghost cell_of = { λ shown. fault_cell shown.fault.now };

    fn show(&self, alloc: Global, out: &mut CellWriter) -> Written {
        show_fault(alloc, self.fault, out)
    }
}

fn show_fault(alloc: Global, fault: &RunFault, out: &mut CellWriter) -> Written
    ensures { ShowsMembers result out.old out.new (fault_cell fault.now) }
{
    out.object("fault")?;
    show_told(alloc, fault, out)?;
    out.end()
}

// Shows what is told of a fault.
fn show_told(alloc: Global, fault: &RunFault, out: &mut CellWriter) -> Written
    ensures { ShowsMembers result out.old out.new (told_cell fault.now) }
{
    let message = message_of(alloc, fault)?;
    let head = fault.head();
    out.word_member("kind", said_of(head.kind).1)?;
    show_number("number", widened(head.number), out)?;
    show_place(head, out)?;
    out.word("", "message", &message)?;
    out.text("\n")
}

// Shows a number under this key, if there is one.
fn show_number(key: &str, number: Option<usize>, out: &mut CellWriter) -> Written
    ensures { ShowsMembers result out.old out.new (if_some number (number_member key.now)) }
{
    match number {
        Some(number) => out.number_member(key, number as u64),
        None => Ok(()),
    }
}

// Shows the event or the entry that a fault names.
fn show_place(head: FaultHead, out: &mut CellWriter) -> Written
    ensures { ShowsMembers result out.old out.new (place_cell head.kind head.place) }
{
    show_if(names_event(head.kind), "event", head.place, out)?;
    show_if(names_entry(head.kind), "entry", head.place, out)
}

// Shows a number under this key, if there is one and it is told.
fn show_if(is_told: bool, key: &str, number: Option<usize>, out: &mut CellWriter) -> Written
    ensures { ShowsMembers result out.old out.new (when is_told (if_some number (number_member key.now))) }
{
    if is_told {
        show_number(key, number, out)
    } else {
        Ok(())
    }
}

// Whether the place of a fault of this kind is an event of a log.
fn names_event(kind: FaultKind) -> bool
    ensures { result ≡ names_event kind }
{
    matches!(kind, FaultKind::Log | FaultKind::LogForm)
}

// Whether it is an entry of a list.
fn names_entry(kind: FaultKind) -> bool
    ensures { result ≡ names_entry kind }
{
    matches!(kind, FaultKind::List | FaultKind::Replay)
}
