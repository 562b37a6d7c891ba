//! The text of an error, for callers in C.

ghost use Rattle.std.specs.Prelude.{◌≡◌, None, true, pos, is_some, option_map, string_bytes, IfErr, IfOk};
ghost use Rattle.ima_verify_c.specs.ErrorTexts.{GivesErrorText, kind_of, place_of, text_by};
ghost use Rattle.ima_verify_c.specs.Answers.{info_of};

use crate::replies::{DONE, MISUSED, OUT_OF_MEMORY, put};
use crate::text_info::TextInfo;
use agent_inputs::{FaultKind, RunFault};
use error_texts::error_text;
use rendering::memory_line;
use std::alloc::{AllocError, Global};

/// The text of the error that has this kind, number and place in a [`TextInfo`]: what is wrong, and what to do. 0, or 6 if that is no error:
/// nothing is then written.
#[unsafe(no_mangle)]
pub extern "C" fn ima_verify_raw_error_text(
    alloc: Global,
    kind: u32,
    number: u32,
    place: u64,
    out: &mut [u8],
    info: &mut TextInfo,
) -> i32
    ensures { GivesErrorText (text_by kind number place) result info.new out.old out.new }
{
    match text_in(alloc, kind, number, place) {
        Ok(Some(text)) => put(text.as_bytes(), DONE, None, out, info),
        Ok(None) => give_no_error(info),
        Err(AllocError) => put(
            memory_line(),
            OUT_OF_MEMORY,
            Some(&RunFault::Memory),
            out,
            info,
        ),
    }
}

fn text_in(alloc: Global, kind: u32, number: u32, place: u64) -> Result<Option<String>, AllocError>
    ensures text { IfOk result (λ text. option_map string_bytes text ≡ text_by kind number place) }
    ensures memory { IfErr result (λ _. is_some (text_by kind number place) ≡ true) }
{
    match kind_of(kind) {
        Some(kind) => error_text(alloc, kind, number, place_of(place)),
        None => Ok(None),
    }
}

// The kind that has this number, if one has it.
fn kind_of(number: u32) -> Option<FaultKind>
    ensures { result ≡ kind_of number }
{
    match number {
        1 => Some(FaultKind::Usage),
        2 => Some(FaultKind::Log),
        3 => Some(FaultKind::List),
        4 => Some(FaultKind::Replay),
        5 => Some(FaultKind::Expect),
        6 => Some(FaultKind::Checkpoint),
        7 => Some(FaultKind::Memory),
        8 => Some(FaultKind::Quote),
        9 => Some(FaultKind::Key),
        10 => Some(FaultKind::Known),
        11 => Some(FaultKind::Signature),
        12 => Some(FaultKind::ListText),
        13 => Some(FaultKind::LogForm),
        _ => None,
    }
}

// The event, the entry or the line; nothing if the error names none.
fn place_of(place: u64) -> Option<u64>
    ensures { result ≡ place_of place }
{
    if place == u64::MAX { None } else { Some(place) }
}

// Says that there is no such error.
fn give_no_error(info: &mut TextInfo) -> i32
    ensures answer { result ≡ pos 6 }
    ensures info { info.new ≡ info_of 0 None }
{
    *info = TextInfo::of(0, None);
    MISUSED
}
