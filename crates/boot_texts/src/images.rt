//! The images that the firmware started.

ghost use Rattle.std.specs.Prelude.{◌≡◌, ◌↔◌, ◌++◌, codes, option_map, true, IsTrue, List, ℕ, OnOk};
ghost use Rattle.pcr_banks.specs.Names.{bytes_of};
ghost use Rattle.boot_log.specs.Names.{log_event_of};
ghost use Rattle.cells.specs.Cells.{ShowsMembers, if_some, object_at};
ghost use Rattle.boot_texts.specs.AnswerCells.{answered_cell, answered_digest, digest_cell, image_cell};
ghost use Rattle.boot_texts.specs.Telling.{IsImageBy, MayBeImageIn, IsImageLine};

use boot_answers::{IMAGE_REGISTER, may_be_image};
use boot_log::Event;
use cells::{CellWriter, Form, Shown, Written, append};
use event_lines::show_content;
use measured_data::{Pcr, is_answering};
use pcr_banks::{Alg, Digest, PerBank};
use std::alloc::Global;

// Whether the event may be an image by some bank that answers.
fn may_be_image_in(event: &Event<'_>, matched: &[Pcr]) -> bool
    ensures { IsTrue result ↔ MayBeImageIn matched.now (log_event_of event.now) }
{
    for alg in Alg::ALL {
        if is_image_by(event, matched, alg) {
            return true;
        }
    }
    false
}

// Whether the bank answers, and the event may be an image by it.
fn is_image_by(event: &Event<'_>, matched: &[Pcr], alg: Alg) -> bool
    ensures { IsTrue result ↔ IsImageBy matched.now (log_event_of event.now) alg }
{
    is_answering(matched, alg, IMAGE_REGISTER) && may_be_image(event, alg)
}

/// Appends the line of the event with this number, if it may be an image by some bank that answers.
pub(crate) fn append_if_image(
    alloc: Global,
    form: Form,
    matched: &[Pcr],
    number: usize,
    event: &Event<'_>,
    lines: &mut Vec<u8>,
) -> Written
    ensures { OnOk result ((text : List ℕ) × IsImageLine form matched.now number (log_event_of event.now) true text
        × (lines.new.items ≡ lines.old.items ++ text)) }
{
    if may_be_image_in(event, matched) {
        let line = ImageLine {
            matched,
            number,
            event,
        };
        append(alloc, form, &line, lines)?;
    }
    Ok(())
}

// The line of an image.
#[derive(Drop)]
struct ImageLine<'a> {
    matched: &'a [Pcr],
    number: usize,
    event: &'a Event<'a>,
}

impl Shown for ImageLine<'_> {
    ghost cell_of = { λ line. image_cell line.matched.now line.number (log_event_of line.event.now) };

    fn show(&self, alloc: Global, out: &mut CellWriter) -> Written {
        show_image(alloc, self.matched, self.number, self.event, out)
    }
}

fn show_image(
    alloc: Global,
    matched: &[Pcr],
    number: usize,
    event: &Event<'_>,
    out: &mut CellWriter,
) -> Written
    ensures { ShowsMembers result out.old out.new (image_cell matched.now number (log_event_of event.now)) }
{
    out.number("image ", "image", number as u64)?;
    out.text(" ")?;
    show_digests(alloc, matched, &event.digests, out)?;
    show_content(alloc, "claimed ", "claimed", event.kind, event.payload, out)
}

fn show_digests(alloc: Global, matched: &[Pcr], digests: &PerBank, out: &mut CellWriter) -> Written
    ensures { ShowsMembers result out.old out.new (object_at (codes "digests") (answered_cell matched.now digests.now)) }
{
    out.object("digests")?;
    show_answered(alloc, matched, digests, out)?;
    out.end()
}

// Shows the digests in the banks that answer.
fn show_answered(alloc: Global, matched: &[Pcr], digests: &PerBank, out: &mut CellWriter) -> Written
    ensures { ShowsMembers result out.old out.new (answered_cell matched.now digests.now) }
{
    for alg in &Alg::ALL {
        show_digest(alloc, *alg, answered_digest(matched, digests, *alg), out)?;
    }
    Ok(())
}

// The digest in the bank, if the bank answers for images.
fn answered_digest(matched: &[Pcr], digests: &PerBank, alg: Alg) -> Option<Digest>
    ensures { option_map bytes_of result ≡ answered_digest matched.now digests.now alg }
{
    if is_answering(matched, alg, IMAGE_REGISTER) {
        digests.get(alg)
    } else {
        None
    }
}

/// Shows the digest, if there is one, with the name of its algorithm.
pub(crate) fn show_digest(
    alloc: Global,
    alg: Alg,
    digest: Option<Digest>,
    out: &mut CellWriter,
) -> Written
    ensures { ShowsMembers result out.old out.new (if_some (option_map bytes_of digest) (digest_cell alg)) }
{
    match digest {
        Some(digest) => show_named(alloc, alg, &digest, out),
        None => Ok(()),
    }
}

fn show_named(alloc: Global, alg: Alg, digest: &Digest, out: &mut CellWriter) -> Written
    ensures { ShowsMembers result out.old out.new (digest_cell alg (bytes_of digest.now)) }
{
    out.text(alg.name())?;
    out.hex(alloc, " ", alg.name(), digest.bytes())?;
    out.text(" ")
}
