//! Where a boot and an earlier one of the machine extended registers by other digests.

ghost use Rattle.std.specs.Prelude.{◌≡◌, ℕ, List, ◌++◌, IfOk, OnErr, OnOk};
ghost use Rattle.boot_log.specs.declared.header.DeclaredAlgorithm.{DeclaredAlgorithm};
ghost use Rattle.boot_log.specs.Names.{IsLog, LogEvent, log_bytes};
ghost use Rattle.cells.specs.Cells.{rendered};
ghost use Rattle.boot_texts.specs.Differences.{AreDifferenceLines, IsComparedIn, IsDifference, alike_cell, either_extended, lines_of_both, register_lines, where_extended};

use crate::answering_banks::has_events;
use crate::difference_lines::{AlikeLine, ApartLine, ComparedBoot, EventLine, append_events};
use boot_answers::{Common, common_events, first_difference};
use boot_log::LogView;
use cells::{Form, Written, append};
use measured_data::{Pcr, has_answer, is_answering};
use pcr_banks::{Alg, REGISTERS};
use std::alloc::{AllocError, Global};

/// How two boots extended a register.
#[derive(Drop)]
pub(crate) enum Difference {
    /// Unknown: no bank answers for it.
    Unanswered,
    /// Alike, in each bank that answers.
    Alike,
    /// They differ in this bank, after as many events alike as `place`; in the banks before it that answer they do not. Of the next events
    /// they have some in common.
    Apart {
        alg: Alg,
        place: usize,
        common: Common,
    },
}

// How the boots differ in this bank, if it answers for the register.
fn place_in(
    log: &LogView<'_>,
    before: &LogView<'_>,
    matched: &[Pcr],
    alg: Alg,
    register: u32,
) -> Option<usize>
    ensures { (table rows : List DeclaredAlgorithm) (events others : List LogEvent) → IsLog (log_bytes log.now) table events
        → IsLog (log_bytes before.now) rows others → IsComparedIn matched.now register events others alg result }
{
    if is_answering(matched, alg, register) {
        first_difference(log, before, alg, register)
    } else {
        None
    }
}

// How the boots extended the register.
fn difference_of(
    alloc: Global,
    log: &LogView<'_>,
    before: &LogView<'_>,
    matched: &[Pcr],
    register: u32,
) -> Result<Difference, AllocError>
    ensures { IfOk result (λ difference. (table rows : List DeclaredAlgorithm) (events others : List LogEvent) → IsLog (log_bytes log.now) table events
        → IsLog (log_bytes before.now) rows others → IsDifference matched.now register events others difference) }
{
    for alg in Alg::ALL {
        if let Some(place) = place_in(log, before, matched, alg, register) {
            let common = common_events(alloc, log, before, alg, register, place)?;
            return Ok(Difference::Apart { alg, place, common });
        }
    }
    if has_answer(matched, register) {
        Ok(Difference::Alike)
    } else {
        Ok(Difference::Unanswered)
    }
}

// Whether one of the boots extended the register.
fn either_extended(log: &LogView<'_>, before: &LogView<'_>, register: u32) -> bool
    ensures { (table rows : List DeclaredAlgorithm) (events others : List LogEvent) → IsLog (log_bytes log.now) table events
        → IsLog (log_bytes before.now) rows others → result ≡ either_extended register events others }
{
    has_events(log, register) || has_events(before, register)
}

// Appends the line with this word, if one of the boots extended the register.
fn append_if_extended(
    alloc: Global,
    log: &LogView<'_>,
    before: &LogView<'_>,
    register: u32,
    word: &str,
    form: Form,
    lines: &mut Vec<u8>,
) -> Written
    ensures { (table rows : List DeclaredAlgorithm) (events others : List LogEvent) → IsLog (log_bytes log.now) table events
        → IsLog (log_bytes before.now) rows others
        → OnOk result (lines.new.items ≡ lines.old.items ++ where_extended register events others (rendered form (alike_cell register word.now))) }
{
    if either_extended(log, before, register) {
        append(alloc, form, &AlikeLine { register, word }, lines)
    } else {
        Ok(())
    }
}

// Appends the lines of a register whose boots differ in this bank after so many events, and then have those with a mark in common.
fn append_from(
    alloc: Global,
    log: &LogView<'_>,
    before: &LogView<'_>,
    line: EventLine,
    place: usize,
    marks: &[bool],
    other_marks: &[bool],
    lines: &mut Vec<u8>,
) -> Written
    ensures { (table rows : List DeclaredAlgorithm) (events others : List LogEvent) → IsLog (log_bytes log.now) table events
        → IsLog (log_bytes before.now) rows others
        → OnOk result (lines.new.items ≡ lines.old.items ++ lines_of_both line place marks.now other_marks.now events others) }
{
    let apart = ApartLine {
        register: line.register,
        alg: line.alg,
        place,
    };
    append(alloc, line.form, &apart, lines)?;
    append_events(alloc, log, ComparedBoot::Now, line, place, marks, lines)?;
    append_events(
        alloc,
        before,
        ComparedBoot::Before,
        line,
        place,
        other_marks,
        lines,
    )
}

// Appends the lines of the register.
fn append_register(
    alloc: Global,
    log: &LogView<'_>,
    before: &LogView<'_>,
    register: u32,
    difference: Difference,
    form: Form,
    lines: &mut Vec<u8>,
) -> Written
    ensures { (table rows : List DeclaredAlgorithm) (events others : List LogEvent) → IsLog (log_bytes log.now) table events
        → IsLog (log_bytes before.now) rows others
        → OnOk result (lines.new.items ≡ lines.old.items ++ register_lines form register difference events others) }
{
    match difference {
        Difference::Unanswered => append_if_extended(
            alloc, log, before, register, "unknown", form, lines,
        ),
        Difference::Alike => append_if_extended(alloc, log, before, register, "all", form, lines),
        Difference::Apart { alg, place, common } => {
            let line = EventLine {
                form,
                register,
                alg,
            };
            append_from(
                alloc,
                log,
                before,
                line,
                place,
                &common.now,
                &common.before,
                lines,
            )
        }
    }
}

// Appends the lines of all registers.
fn append_registers(
    alloc: Global,
    log: &LogView<'_>,
    before: &LogView<'_>,
    matched: &[Pcr],
    form: Form,
    lines: &mut Vec<u8>,
) -> Written
    ensures { OnOk result ((table rows : List DeclaredAlgorithm) (events others : List LogEvent) → IsLog (log_bytes log.now) table events
        → IsLog (log_bytes before.now) rows others
        → (text : List ℕ) × AreDifferenceLines form matched.now events others text × (lines.new.items ≡ lines.old.items ++ text)) }
{
    for register in 0..REGISTERS {
        let difference = difference_of(alloc, log, before, matched, register)?;
        append_register(alloc, log, before, register, difference, form, lines)?;
    }
    Ok(())
}

/// Appends the lines that tell how a boot and an earlier one extended each register, by their logs. `matched` are the registers whose values
/// match after the log of the boot; nothing confirms the log of the earlier one.
///
/// A register that neither boot extended has no line. Where no bank answers for it ([`measured_data::is_answering`]), its line is
/// `{"register":4,"alike":"unknown"}`; where the boots extended it alike in each bank that answers, `{"register":4,"alike":"all"}`. Otherwise it
/// is `{"register":4,"bank":"sha256","alike":2}`: in this bank, the first that answers and in which they differ, they differ after two events.
/// Then come the later events that differ: a line for each of this boot, with its number in the log, its digest in the bank, and what its data
/// claims (`{"register":4,"now":14,"digest":"1f5e..","claimed":{"text":".."}}`), and one for each of the earlier boot, with `before` for `now`.
/// An event without a digest in the bank has no member `digest`.
///
/// Of the 256 events of each boot after those alike ([`boot_answers::MOST_COMPARED`]), a longest common subsequence has no lines
/// ([`boot_answers::common_events`]). All events after these have one.
///
/// For people ([`Form::Text`]) the lines are `register 4 alike unknown`, `register 4 alike all`, `register 4 sha256 alike 2`, and
/// `register 4 now 14 1f5e.. claimed {"text":".."}`, without the digest where there is none. No character of what is claimed steers what shows
/// it.
///
/// Fails only if memory runs out; no line is then appended.
pub fn append_differences(
    alloc: Global,
    log: &LogView<'_>,
    before: &LogView<'_>,
    matched: &[Pcr],
    form: Form,
    lines: &mut Vec<u8>,
) -> Written
    ensures lines { OnOk result ((table rows : List DeclaredAlgorithm) (events others : List LogEvent) → IsLog (log_bytes log.now) table events
        → IsLog (log_bytes before.now) rows others
        → (text : List ℕ) × AreDifferenceLines form matched.now events others text × (lines.new.items ≡ lines.old.items ++ text)) }
    ensures err { OnErr result (lines.new.items ≡ lines.old.items) }
{
    let mut own = Vec::new(alloc);
    append_registers(alloc, log, before, matched, form, &mut own)?;
    lines.extend_from_slice(&own)?;
    Ok(())
}
