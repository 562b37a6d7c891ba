//! The text of a checkpoint.

ghost use Rattle.std.specs.Prelude.{◌≡◌, ◌++◌, IfOk};
ghost use Rattle.pcr_banks.specs.Names.{bytes_of};
ghost use Rattle.hex.specs.Hex.{encode_lower};
ghost use Rattle.byte_streams.specs.Streams.{Sends};
ghost use Rattle.std.specs.Prelude.{codes, decimal, flat_map};
ghost use Rattle.pcr_values.specs.Names.{all_registers};
ghost use Rattle.growing_lists.specs.CheckpointTexts.{bank_lines, banks_lines, boot_lines, checkpoint_body, checkpoint_text, data_lines, number_line, seal_line, recorded_line, stray_entry, stray_register, value_line, told_line};

use crate::saved_state::{Boot, SavedState};
use boot_verdict::{Checkpoint, LIST_REGISTER, Stray};
use byte_streams::{Failed, Sink, VecSink, send, send_pieces};
use itoa::Buffer;
use pcr_banks::{Alg, Banks, Digest, MOST_DIGITS, REGISTERS, hash};
use pcr_values::{digits_of, write_change};
use std::alloc::{AllocError, Global};

/// Makes the text of a checkpoint and its boot: a line with the version of this form, one with the number of entries, one with that of
/// bytes, one with the boot aggregate; the lines of the registers before the list, and of those after it; two of the first entry that extends
/// another register than that of the list, with the register and the entry (without one, that register and 0); two of the boot, with the TPM's
/// counts of resets and restarts, or one that no quote confirmed this; and last the SHA-256 of all this.
/// [`crate::read_checkpoint`] reads it.
///
/// Each bank is there, in the order of [`Alg::ALL`]: with a line for each register, as [`pcr_values::write_registers`] writes it, or
/// with the line `sha1 none` if it is not active. Fails only if memory runs out.
pub fn write_checkpoint(alloc: Global, state: &SavedState) -> Result<Vec<u8>, AllocError>
    ensures { IfOk result (λ text. text.items ≡ checkpoint_text state.now) }
{
    let body = body_of(alloc, state)?;
    let digest = hash(Alg::Sha256, &body);
    let mut text = VecSink::new(body);
    match write_seal(&digest, &mut text) {
        Ok(()) => Ok(text.into_bytes()),
        Err(Failed) => Err(AllocError),
    }
}

// What stands before the last line.
fn body_of(alloc: Global, state: &SavedState) -> Result<Vec<u8>, AllocError>
    ensures { IfOk result (λ body. body.items ≡ checkpoint_body state.now) }
{
    let mut text = VecSink::new(Vec::new(alloc));
    match write_body(state, &mut text) {
        Ok(()) => Ok(text.into_bytes()),
        Err(Failed) => Err(AllocError),
    }
}

fn write_body<S: Sink>(state: &SavedState, sink: &mut S) -> Result<(), Failed>
    ensures { Sends (S.state sink.old) (S.state sink.new) result (checkpoint_body state.now) }
{
    send(b"ima-agent checkpoint 3\n", sink)?;
    write_data(&state.checkpoint, sink)?;
    write_boot(state.boot, sink)
}

// Writes the lines of the boot.
fn write_boot<S: Sink>(boot: Option<Boot>, sink: &mut S) -> Result<(), Failed>
    ensures { Sends (S.state sink.old) (S.state sink.new) result (boot_lines boot) }
{
    match boot {
        None => send(b"boot none\n", sink),
        Some(boot) => {
            let mut first = Buffer::new();
            let mut second = Buffer::new();
            let pieces: [&[u8]; 5] = [
                b"resets ",
                first.format(boot.resets).as_bytes(),
                b"\nrestarts ",
                second.format(boot.restarts).as_bytes(),
                b"\n",
            ];
            send_pieces(&pieces, sink)
        }
    }
}

fn write_data<S: Sink>(checkpoint: &Checkpoint, sink: &mut S) -> Result<(), Failed>
    ensures { Sends (S.state sink.old) (S.state sink.new) result (data_lines checkpoint.now) }
{
    write_counts(checkpoint.entries, checkpoint.bytes, sink)?;
    write_recorded(&checkpoint.recorded, sink)?;
    write_told(&checkpoint.told, sink)?;
    write_section(b"before\n", &checkpoint.before, sink)?;
    write_section(b"after\n", &checkpoint.after, sink)?;
    write_stray(checkpoint.stray, sink)
}

fn write_counts<S: Sink>(entries: usize, bytes: u64, sink: &mut S) -> Result<(), Failed>
    ensures { Sends (S.state sink.old) (S.state sink.new) result (codes "entries "
        ++ (decimal entries ++ (codes "\nbytes " ++ (decimal bytes ++ codes "\n")))) }
{
    let mut first = Buffer::new();
    let mut second = Buffer::new();
    let pieces: [&[u8]; 5] = [
        b"entries ",
        first.format(entries).as_bytes(),
        b"\nbytes ",
        second.format(bytes).as_bytes(),
        b"\n",
    ];
    send_pieces(&pieces, sink)
}

fn write_recorded<S: Sink>(recorded: &Option<Digest>, sink: &mut S) -> Result<(), Failed>
    ensures { Sends (S.state sink.old) (S.state sink.new) result (recorded_line recorded.now) }
{
    match recorded {
        None => send(b"boot_aggregate none\n", sink),
        Some(digest) => {
            let mut room = [0; MOST_DIGITS];
            let digits = digits_of(digest, &mut room);
            let name = digest.alg().name().as_bytes();
            send_pieces(&[b"boot_aggregate ", name, b":", digits, b"\n"], sink)
        }
    }
}

// Writes the line of the boot aggregate that another template records, if there is one.
fn write_told<S: Sink>(told: &Option<Digest>, sink: &mut S) -> Result<(), Failed>
    ensures { Sends (S.state sink.old) (S.state sink.new) result (told_line told.now) }
{
    match told {
        None => send(b"", sink),
        Some(digest) => {
            let mut room = [0; MOST_DIGITS];
            let digits = digits_of(digest, &mut room);
            let name = digest.alg().name().as_bytes();
            send_pieces(&[b"boot_aggregate_told ", name, b":", digits, b"\n"], sink)
        }
    }
}

// Writes the lines of the first entry that extends another register than that of the list.
fn write_stray<S: Sink>(stray: Option<Stray>, sink: &mut S) -> Result<(), Failed>
    ensures { Sends (S.state sink.old) (S.state sink.new) result (codes "register "
        ++ (decimal (stray_register stray) ++ (codes "\nentry " ++ (decimal (stray_entry stray) ++ codes "\n")))) }
{
    let (register, entry) = numbers_of(stray);
    let mut first = Buffer::new();
    let mut second = Buffer::new();
    let pieces: [&[u8]; 5] = [
        b"register ",
        first.format(register).as_bytes(),
        b"\nentry ",
        second.format(entry).as_bytes(),
        b"\n",
    ];
    send_pieces(&pieces, sink)
}

// The register and the number of the entry; without one, the register of the list and 0.
fn numbers_of(stray: Option<Stray>) -> (u32, usize)
    ensures { (result.0 ≡ stray_register stray) × (result.1 ≡ stray_entry stray) }
{
    match stray {
        None => (LIST_REGISTER, 0),
        Some(stray) => (stray.register, stray.entry),
    }
}

// Writes the line that begins with these registers, and their lines.
fn write_section<S: Sink>(word: &[u8], banks: &Banks, sink: &mut S) -> Result<(), Failed>
    ensures { Sends (S.state sink.old) (S.state sink.new) result (word.now ++ banks_lines banks.now) }
{
    send(word, sink)?;
    write_banks(banks, sink)
}

fn write_banks<S: Sink>(banks: &Banks, sink: &mut S) -> Result<(), Failed>
    ensures { Sends (S.state sink.old) (S.state sink.new) result (banks_lines banks.now) }
{
    for alg in &Alg::ALL {
        write_bank(banks, *alg, sink)?;
    }
    Ok(())
}

fn write_bank<S: Sink>(banks: &Banks, alg: Alg, sink: &mut S) -> Result<(), Failed>
    ensures { Sends (S.state sink.old) (S.state sink.new) result (bank_lines banks.now alg) }
{
    if banks.read(alg, 0).is_some() {
        write_values(banks, alg, sink)
    } else {
        send_pieces(&[alg.name().as_bytes(), b" none\n"], sink)
    }
}

fn write_values<S: Sink>(banks: &Banks, alg: Alg, sink: &mut S) -> Result<(), Failed>
    ensures { Sends (S.state sink.old) (S.state sink.new) result (flat_map (value_line banks.now alg) all_registers) }
{
    for register in 0..REGISTERS {
        write_value(banks, alg, register, sink)?;
    }
    Ok(())
}

// Writes the register's line, if it has a value.
fn write_value<S: Sink>(banks: &Banks, alg: Alg, register: u32, sink: &mut S) -> Result<(), Failed>
    ensures { Sends (S.state sink.old) (S.state sink.new) result (value_line banks.now alg register) }
{
    write_change(register, None, banks.read(alg, register), sink)
}

fn write_seal<S: Sink>(digest: &Digest, sink: &mut S) -> Result<(), Failed>
    ensures { Sends (S.state sink.old) (S.state sink.new) result
        (codes "sha256 " ++ (encode_lower (bytes_of digest.now) ++ codes "\n")) }
{
    let mut room = [0; MOST_DIGITS];
    let digits = digits_of(digest, &mut room);
    send_pieces(&[b"sha256 ", digits, b"\n"], sink)
}
