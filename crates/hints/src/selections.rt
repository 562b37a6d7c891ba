//! Why a text selects no PCRs.

use boot_verdict::Requirement;
use pcr_banks::Alg;
use pcr_values::{Selection, SelectionFault};
use std::alloc::{AllocError, Global};

/// The option that names what is required, as the help shows it.
pub(crate) const REQUIRE: &str = "--require <SELECTION>";

/// The option that names which PCRs are shown.
const REGISTERS: &str = "--registers <SELECTION>";

/// How a selection is written, as the help has it.
const GRAMMAR: &str =
    "items, separated by , or +: [BANK:]PCR, [BANK:]FIRST-LAST or [BANK:]all. An item without BANK uses the previous item's. PCRs are 0 to 23";

/// What is wrong if PCR 10 is not selected.
const LACKS_PCR_10: &str =
    "PCR 10 is not selected in any bank, so the list would not be checked: add it, as in sha256:0-10, or sha256:10 for a list alone";

/// Why this text spells no requirement.
pub(crate) fn of_requirement(alloc: Global, text: &str) -> Result<String, AllocError> {
    match Requirement::from_text(alloc, text.as_bytes()) {
        Ok(_) => Err(AllocError),
        Err(fault) => of_selection(alloc, text, REQUIRE, fault),
    }
}

/// Why this text selects no PCRs.
pub(crate) fn of_registers(alloc: Global, text: &str) -> Result<String, AllocError> {
    match Selection::from_text(alloc, text.as_bytes()) {
        Ok(_) => Err(AllocError),
        Err(fault) => of_selection(alloc, text, REGISTERS, fault),
    }
}

// Why the text of this option is refused.
fn of_selection(
    alloc: Global,
    text: &str,
    option: &str,
    fault: SelectionFault,
) -> Result<String, AllocError> {
    let cause = match fault {
        SelectionFault::Memory => return Err(AllocError),
        SelectionFault::LacksPcr10 => String::from_str(alloc, LACKS_PCR_10)?,
        SelectionFault::Malformed { at } => of_part(alloc, at, part_at(text, at))?,
    };
    format!(in alloc; "error: invalid value '{text}' for '{option}': {cause}")
}

// What is wrong with this part, which begins at this byte. Bytes are told from 1 on.
fn of_part(alloc: Global, at: usize, part: &str) -> Result<String, AllocError> {
    if let Some(bank) = unknown_bank(part) {
        let [sha1, sha256, sha384, sha512] = Alg::ALL.map(Alg::name);
        return format!(in alloc;
            "unknown bank '{bank}': use {sha1}, {sha256}, {sha384} or {sha512}"
        );
    }
    let place = at.saturating_add(1);
    format!(in alloc; "'{part}' at byte {place} is wrong. Write {GRAMMAR}")
}

// The bank that a part names, if there is none of this name.
fn unknown_bank(part: &str) -> Option<&str> {
    let (bank, _) = part.split_once(":")?;
    match Alg::from_name(bank.as_bytes()) {
        Some(_) => None,
        None => Some(bank),
    }
}

// The part of a selection that begins at this byte.
fn part_at(text: &str, at: usize) -> &str {
    let Some((_, rest)) = text.split_at_checked(at) else {
        return "";
    };
    before(before(rest, ","), "+")
}

// What comes before the first separator, or all.
fn before<'a>(text: &'a str, separator: &str) -> &'a str {
    match text.split_once(separator) {
        Some((part, _)) => part,
        None => text,
    }
}
