//! What is told of a key.

ghost use Rattle.std.specs.Prelude.{◌≡◌, codes};
ghost use Rattle.pcr_banks.specs.Names.{name_of};
ghost use Rattle.tpm_keys.specs.declared.kinds.KeyPart.TheVariants.{All};
ghost use Rattle.cells.specs.Cells as cells;
ghost use Rattle.cells.specs.Cells.{ShowsMembers, if_some};
ghost use Rattle.answers.specs.KeyCells.{key_cell, kind_cell, name_cell, scheme_cell};

use cells::{CellWriter, Written};
use pcr_banks::{Alg, Digest};
use std::alloc::Global;
use tpm_keys::{KeyKind, KeyPart, KeyReport, MOST_NAME_BYTES, Scheme, name_bytes};

/// Shows a part of what is told of a key, or all of it.
pub fn show_key(alloc: Global, report: &KeyReport, part: KeyPart, out: &mut CellWriter) -> Written
    ensures { ShowsMembers result out.old out.new (key_cell part report.now) }
{
    match part {
        KeyPart::All => show_all(alloc, report, out),
        KeyPart::Name => show_name(alloc, "", &report.name, out),
        KeyPart::Pem => out.word("", "pem", &report.pem),
    }
}

fn show_all(alloc: Global, report: &KeyReport, out: &mut CellWriter) -> Written
    ensures { ShowsMembers result out.old out.new (key_cell All report.now) }
{
    show_name(alloc, "name ", &report.name, out)?;
    show_kind(report.kind, out)?;
    show_scheme(report.scheme, out)?;
    out.word("", "pem", &report.pem)
}

fn show_name(alloc: Global, before: &str, name: &Digest, out: &mut CellWriter) -> Written
    ensures { ShowsMembers result out.old out.new (name_cell before.now name.now) }
{
    let mut room = [0; MOST_NAME_BYTES];
    out.hex(alloc, before, "name", name_bytes(name, &mut room))?;
    out.text("\n")
}

// Shows the kind of the key, and its size.
fn show_kind(kind: KeyKind, out: &mut CellWriter) -> Written
    ensures { ShowsMembers result out.old out.new (kind_cell kind) }
{
    out.word("key ", "type", kind.name())?;
    out.number(" ", "bits", kind.bits() as u64)?;
    out.text("\n")
}

fn show_scheme(scheme: Scheme, out: &mut CellWriter) -> Written
    ensures { ShowsMembers result out.old out.new (scheme_cell scheme) }
{
    out.word("scheme ", "scheme", scheme.kind.name())?;
    show_hash(scheme.hash, out)?;
    out.text("\n")
}

// Shows the hash of a scheme, if it has one.
fn show_hash(hash: Option<Alg>, out: &mut CellWriter) -> Written
    ensures { ShowsMembers result out.old out.new (if_some hash (λ alg. cells.word (codes " ") (codes "hash") (name_of alg))) }
{
    match hash {
        None => Ok(()),
        Some(alg) => out.word(" ", "hash", alg.name()),
    }
}
