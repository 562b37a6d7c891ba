//! What is printed of a measurement.

ghost use Rattle.std.specs.Prelude.{◌≡◌, flat_map, Some, IfOk};
ghost use Rattle.ima_list.specs.Names.{line_of};
ghost use Rattle.cells.specs.declared.writer.Form.TheVariants.{Json};
ghost use Rattle.entry_lines.specs.ListLines.{entry_lines};
ghost use Rattle.measure_book.specs.Names.{exported};
ghost use Rattle.rendering.specs.Rendering.{print_measured};

use crate::outputs::{Output, render};
use agent_plans::{Form, Print};
use byte_streams::VecSink;
use entry_lines::append_entry;
use ima_list::Entry;
use judging::{Answer, Answered, Registers};
use measure_book::Book;
use measuring::Measured;
use std::alloc::{AllocError, Global};

/// What is printed of a measurement in this form. There is no JSON of the binary list: for that too the lines of its entries are given.
pub fn print_measured(
    alloc: Global,
    given: &Measured,
    print: Print,
    form: Form,
) -> Result<Output, AllocError>
    ensures text { IfOk result (λ output. output.text.items ≡ print_measured form print given.now) }
    ensures status { IfOk result (λ output. output.status ≡ 0) }
{
    match (print, form) {
        (Print::Registers, form) => {
            let (start, now) = (given.reset, *given.book.banks());
            let registers = Answer::Registers(Registers { start, now });
            render(alloc, &Answered::alone(registers), form)
        }
        (Print::Ascii, Form::Text) => Ok(Output::done(texts(alloc, given.book.entries())?)),
        (Print::Binary, Form::Text) => Ok(Output::done(exported(alloc, &given.book)?)),
        (Print::Ascii | Print::Binary, Form::Json) => {
            Ok(Output::done(lines(alloc, given.book.entries())?))
        }
    }
}

// The list in its binary form.
fn exported(alloc: Global, book: &Book) -> Result<Vec<u8>, AllocError>
    ensures { IfOk result (λ bytes. bytes.items ≡ exported book.now) }
{
    let mut bytes = VecSink::new(Vec::new(alloc));
    book.export(&mut bytes).map_err(|_| AllocError)?;
    Ok(bytes.into_bytes())
}

// The lines of the entries as text.
fn texts(alloc: Global, entries: &[Entry]) -> Result<Vec<u8>, AllocError>
    ensures { IfOk result (λ text. text.items ≡ flat_map line_of entries.now) }
{
    let mut text = Vec::new(alloc);
    for entry in entries {
        entry.line(&mut text)?;
    }
    Ok(text)
}

// The lines of the entries as JSON.
fn lines(alloc: Global, entries: &[Entry]) -> Result<Vec<u8>, AllocError>
    ensures { IfOk result (λ text. text.items ≡ entry_lines (Some Json) entries.now) }
{
    let mut text = Vec::new(alloc);
    for number in 0..entries.len() {
        append_entry(alloc, number, &entries[number].borrowed(), &mut text)?;
    }
    Ok(text)
}
