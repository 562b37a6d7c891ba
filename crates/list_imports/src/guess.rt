//! The binary form of the entry that a line seems to say. Nothing is promised of it: the caller checks it.

use crate::fault::Lack;
use crate::guessed_fields::{append_sized, ima_payload, other_fields, payload_of};
use crate::words::{split_first, two_wide};
use pcr_banks::{Alg, Digest};
use std::alloc::Global;

/// How many digits a template digest has.
const DIGEST_DIGITS: usize = 40;

/// The parts of a line: what is before the fields, and these.
#[derive(Clone, Copy)]
pub(crate) struct Head<'a> {
    /// The register.
    pub(crate) register: u32,
    /// The template digest.
    pub(crate) digest: [u8; 20],
    /// The template's name.
    pub(crate) name: &'a [u8],
    /// The fields, without the line feed.
    pub(crate) fields: &'a [u8],
}

/// The binary form of the entry that the line seems to say.
pub(crate) fn guess(alloc: Global, line: &[u8]) -> Result<Vec<u8>, Lack> {
    let head = head_of(line).ok_or(Lack::Form)?;
    let mut entry = Vec::new(alloc);
    entry.extend_from_slice(&head.register.to_le_bytes())?;
    entry.extend_from_slice(&head.digest)?;
    append_sized(head.name, &mut entry)?;
    append_payload(alloc, &head, &mut entry)?;
    Ok(entry)
}

// Appends the payload: of the template `ima` as it is, of any other after its length.
fn append_payload(alloc: Global, head: &Head<'_>, entry: &mut Vec<u8>) -> Result<(), Lack> {
    if head.name == "ima".as_bytes() {
        let payload = ima_payload(alloc, head.fields)?;
        entry.extend_from_slice(&payload)?;
        return Ok(());
    }
    let others = other_fields(head.name).ok_or(Lack::Template)?;
    let payload = payload_of(alloc, others, head.fields)?;
    append_sized(&payload, entry)
}

/// The parts that a line seems to have.
pub(crate) fn head_of(line: &[u8]) -> Option<Head<'_>> {
    let (last, line) = line.split_last()?;
    if *last != b'\n' {
        return None;
    }
    match line {
        [tens, ones, b' ', rest @ ..] => head_after(two_wide(*tens, *ones)?, rest),
        _ => None,
    }
}

// The parts that a line seems to have with this register and this after it.
fn head_after(register: u32, rest: &[u8]) -> Option<Head<'_>> {
    let (digits, rest) = rest.split_at_checked(DIGEST_DIGITS)?;
    let digest = template_digest(digits)?;
    let (space, rest) = rest.split_first()?;
    if *space != b' ' {
        return None;
    }
    let (name, fields) = split_first(rest, b' ')?;
    Some(Head {
        register,
        digest,
        name,
        fields,
    })
}

// The template digest with these digits.
fn template_digest(digits: &[u8]) -> Option<[u8; 20]> {
    match Digest::from_hex(Alg::Sha1, digits)? {
        Digest::Sha1(digest) => Some(digest),
        _ => None,
    }
}
