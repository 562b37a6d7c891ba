//! Results, and lines of them, that have a cell.

ghost use Rattle.std.specs.Prelude.{◌≡◌, ◌++◌, IfOk, OnErr, OnOk};
ghost use Rattle.std.specs.Str.{IsUtf8};
ghost use Rattle.cells.specs.Cells.{Cell, ShowsItems, ShowsMembers, object, rendered};
ghost use Rattle.cells.specs.Values.{Member};
ghost use Rattle.cells.specs.declared.writer.Form.TheVariants.{Json};

use crate::writer::{CellWriter, Form, Written};
use std::alloc::{AllocError, Global};

/// What is shown as a cell: a result, or a line of one.
pub trait Shown {
    ghost cell_of: { Self → Cell Member };

    /// Shows the members.
    fn show(&self, alloc: Global, out: &mut CellWriter) -> Written
        ensures { ShowsMembers result out.old out.new (cell_of self.now) };
}

/// The result in this form.
///
/// Fails only if memory runs out.
pub fn render<T: Shown>(alloc: Global, form: Form, shown: &T) -> Result<Vec<u8>, AllocError>
    ensures bytes { IfOk result (λ bytes. bytes.items ≡ rendered form (T.cell_of shown.now)) }
    ensures utf8 { IfOk result (λ bytes. form ≡ Json → IsUtf8 bytes.items) }
{
    let mut out = CellWriter::new(alloc, form)?;
    show_object(alloc, shown, &mut out)?;
    out.into_bytes()
}

fn show_object<T: Shown>(alloc: Global, shown: &T, out: &mut CellWriter) -> Written
    ensures { ShowsItems result out.old out.new (object (T.cell_of shown.now)) }
{
    out.begin()?;
    shown.show(alloc, out)?;
    out.end()
}

/// Appends the result in this form.
///
/// Fails only if memory runs out; the vector then is as before.
pub fn append<T: Shown>(alloc: Global, form: Form, shown: &T, lines: &mut Vec<u8>) -> Written
    ensures ok { OnOk result (lines.new.items ≡ lines.old.items ++ rendered form (T.cell_of shown.now)) }
    ensures utf8 { form ≡ Json → OnOk result (IsUtf8 (rendered form (T.cell_of shown.now))) }
    ensures err { OnErr result (lines.new.items ≡ lines.old.items) }
{
    let bytes = render(alloc, form, shown)?;
    lines.extend_from_slice(&bytes)
}
