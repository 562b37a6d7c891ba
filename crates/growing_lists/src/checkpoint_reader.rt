//! The text of a checkpoint, read back.

ghost use Rattle.std.specs.Prelude.{◌≡◌, ◌↔◌, ◌^◌, ◌<◌, ℕ, List, ◌++◌, codes, decimal, flat_map, IfOk, IfErr, IfSome, IfNone, IsErrOf, IsTrue, Option, Some};
ghost use Rattle.std.specs.Option.{IsSomeAnd};
ghost use Rattle.pcr_banks.specs.declared.alg.Alg.{Alg};
ghost use Rattle.pcr_banks.specs.declared.banks.Banks.{Banks};
ghost use Rattle.pcr_banks.specs.declared.digest.Digest.{Digest};
ghost use Rattle.pcr_banks.specs.Names.{alg_of, bytes_of, is_active, name_of, register_count};
ghost use Rattle.pcr_values.specs.Names.{all_registers, register_line};
ghost use Rattle.boot_verdict.specs.declared.checkpoint.Checkpoint.{Checkpoint};
ghost use Rattle.boot_verdict.specs.declared.isolation.Stray.{Stray};
ghost use Rattle.growing_lists.specs.CheckpointData.{HasTakenNothing, HaveValues, IsBoot, IsCounted, IsHash, IsPossible, IsPossibleState, IsSameState, IsStrayOf, SameData, SameValues};
ghost use Rattle.growing_lists.specs.CheckpointTexts.{IsOfOtherVersion, IsOfThisVersion, bank_lines, banks_lines, boot_lines, checkpoint_text, data_lines, state_lines, number_line, recorded_line, recorded_words, stray_entry, stray_lines, stray_register, told_line, value_line};
ghost use Rattle.growing_lists.specs.declared.saved_state.Boot.{Boot};
ghost use Rattle.growing_lists.specs.declared.saved_state.SavedState.{SavedState};
ghost use Rattle.growing_lists.specs.parts.CheckpointParts.{HasBank, Sets, TakesBank};

use crate::laws::{banks_have_values, counted_checkpoint_is_possible};
use crate::same_banks::{are_same_active, are_same_banks};
use crate::saved_state::{Boot, SavedState, boots_have_counts};
use crate::session::leaves_room;
use crate::texts::write_checkpoint;
use boot_verdict::{Checkpoint, CheckpointFault, LIST_REGISTER, Stray, list_start};
use pcr_banks::{Alg, Banks, Digest, REGISTERS};
use pcr_values::{after_prefix, register_on, split_once};
use std::alloc::{AllocError, Global};

/// Reads the text that [`crate::write_checkpoint`] makes of a checkpoint and its boot, and no other.
///
/// Fails with [`CheckpointFault::Version`] if the text begins as that of a checkpoint does, but has another version; with
/// [`CheckpointFault::Damaged`] if it is not the text of a checkpoint, or of one whose data do not fit together; or with
/// [`CheckpointFault::Memory`], which is possible only if it begins as that of a checkpoint of this version does.
pub fn read_checkpoint(alloc: Global, text: &[u8]) -> Result<SavedState, CheckpointFault>
    // The text is that of the result, which is possible.
    ensures found { IfOk result (λ found. IsPossibleState found × (text.now ≡ checkpoint_text found)) }
    // The text of a checkpoint is read, unless memory runs out.
    ensures only { (state : SavedState) → IsPossibleState state → text.now ≡ checkpoint_text state
        → IfOk result (λ found. IsSameState found state) × IfErr result (λ fault. fault ≡ CheckpointFault.Memory) }
    // It is the text of no other.
    ensures one { (first second : SavedState) → IsPossibleState first → IsPossibleState second → text.now ≡ checkpoint_text first
        → text.now ≡ checkpoint_text second → IsSameState first second }
    ensures version { IsErrOf result CheckpointFault.Version ↔ IsOfOtherVersion text.now }
    ensures memory { IsErrOf result CheckpointFault.Memory → IsOfThisVersion text.now }
{
    let Some(version) = after_prefix(b"ima-agent checkpoint ", text) else {
        return Err(CheckpointFault::Damaged);
    };
    let Some(lines) = after_prefix(b"3\n", version) else {
        return Err(CheckpointFault::Version);
    };
    let Some(state) = state_at(lines) else {
        return Err(CheckpointFault::Damaged);
    };
    check_text(alloc, state, text)
}

// The state, if its counts are possible and this is its text.
fn check_text(alloc: Global, state: SavedState, text: &[u8]) -> Result<SavedState, CheckpointFault>
    ensures same { IfOk result (λ found. found ≡ state) }
    ensures found { IfOk result (λ found. IsPossibleState found × (text.now ≡ checkpoint_text found)) }
    ensures only { (known : SavedState) → IsPossibleState known → IsSameState state known → text.now ≡ checkpoint_text state
        → IfErr result (λ fault. fault ≡ CheckpointFault.Memory) }
    ensures version { IsErrOf result CheckpointFault.Version → ⊥ }
{
    banks_have_values(&state.checkpoint.before);
    banks_have_values(&state.checkpoint.after);
    if !is_counted(&state.checkpoint) {
        return Err(CheckpointFault::Damaged);
    }
    if !is_text_of(alloc, &state, text)? {
        return Err(CheckpointFault::Damaged);
    }
    counted_checkpoint_is_possible(&state.checkpoint);
    boots_have_counts(state.boot);
    Ok(state)
}

// Whether the counts, the boot aggregate, the stray entry and the active banks are such as a list leaves.
fn is_counted(checkpoint: &Checkpoint) -> bool
    ensures { IsTrue result ↔ IsCounted checkpoint.now }
{
    leaves_room(checkpoint)
        && (checkpoint.entries as u64).saturating_mul(32) <= checkpoint.bytes
        && are_same_active(&checkpoint.before, &checkpoint.after)
        && is_stray_of(checkpoint.entries, checkpoint.stray)
        && (checkpoint.entries > 0 || has_taken_nothing(checkpoint))
}

// Whether the entry, if there is one, is one of so many, and extends another register than that of the list.
fn is_stray_of(entries: usize, stray: Option<Stray>) -> bool
    ensures { IsTrue result ↔ IfSome stray (IsStrayOf entries) }
{
    match stray {
        None => true,
        Some(stray) => stray.entry < entries
            && stray.register < REGISTERS
            && stray.register != LIST_REGISTER,
    }
}

// Whether there is no byte and no boot aggregate, and all registers are as before the list.
fn has_taken_nothing(checkpoint: &Checkpoint) -> bool
    ensures { IsTrue result ↔ HasTakenNothing checkpoint.now }
{
    checkpoint.bytes == 0
        && checkpoint.recorded.is_none()
        && checkpoint.told.is_none()
        && are_same_banks(&checkpoint.before, &checkpoint.after)
}

// Whether this is the state's text.
fn is_text_of(alloc: Global, state: &SavedState, text: &[u8]) -> Result<bool, AllocError>
    ensures { IfOk result (λ is. IsTrue is ↔ (text.now ≡ checkpoint_text state.now)) }
{
    let written = write_checkpoint(alloc, state)?;
    Ok(written.as_slice() == text)
}

// The state that lines at the start state, which may be one that nobody saves.
fn state_at(text: &[u8]) -> Option<SavedState>
    ensures { (known : SavedState) (rest : List ℕ) → IsPossibleState known → text.now ≡ state_lines known ++ rest
        → IsSomeAnd result (λ found. IsSameState found known) }
{
    let (checkpoint, rest) = data_at(text)?;
    let (boot, _) = boot_at(rest)?;
    Some(SavedState { checkpoint, boot })
}

// The boot by its lines at the start, and what follows the lines.
fn boot_at(text: &[u8]) -> Option<(Option<Boot>, &[u8])>
    ensures { (boot : Option Boot) (rest : List ℕ) → IfSome boot IsBoot → text.now ≡ boot_lines boot ++ rest
        → IsSomeAnd result (λ x. (x.0 ≡ boot) × (x.1.now ≡ rest)) }
{
    match after_prefix(b"boot none\n", text) {
        Some(rest) => Some((None, rest)),
        None => counts_at(text),
    }
}

// A boot by its counts on the lines at the start, and what follows the lines.
fn counts_at(text: &[u8]) -> Option<(Option<Boot>, &[u8])>
    ensures { (boot : Boot) (rest : List ℕ) → IsBoot boot → text.now ≡ boot_lines (Some boot) ++ rest
        → IsSomeAnd result (λ x. (x.0 ≡ Some boot) × (x.1.now ≡ rest)) }
{
    let (resets, rest) = number_at(b"resets ", text)?;
    let (restarts, rest) = number_at(b"restarts ", rest)?;
    Some((Some(boot_with(resets, restarts)?), rest))
}

// The boot with these counts, if they fit.
fn boot_with(resets: u64, restarts: u64) -> Option<Boot>
    ensures { (boot : Boot) → IsBoot boot → resets ≡ boot.resets → restarts ≡ boot.restarts → IsSomeAnd result (λ x. x ≡ boot) }
{
    let resets = u32::try_from(resets).ok()?;
    let restarts = u32::try_from(restarts).ok()?;
    Some(Boot { resets, restarts })
}

// The data that lines at the start state, which may be those of no checkpoint, and what follows the lines.
fn data_at(text: &[u8]) -> Option<(Checkpoint, &[u8])>
    ensures { (known : Checkpoint) (rest : List ℕ) → IsPossible known → text.now ≡ data_lines known ++ rest
        → IsSomeAnd result (λ x. SameData x.0 known × (x.1.now ≡ rest)) }
{
    let (entries, rest) = number_at(b"entries ", text)?;
    let (bytes, rest) = number_at(b"bytes ", rest)?;
    let (recorded, rest) = recorded_at(rest)?;
    let (told, rest) = told_at(rest)?;
    let (before, rest) = section_at(b"before\n", rest)?;
    let (after, rest) = section_at(b"after\n", rest)?;
    let (stray, rest) = stray_at(rest)?;
    let checkpoint = Checkpoint {
        before,
        after,
        entries: entries as usize,
        bytes,
        recorded,
        told,
        stray,
    };
    Some((checkpoint, rest))
}

// The number on a line that begins with this word, and what follows the line.
fn number_at<'a>(word: &[u8], text: &'a [u8]) -> Option<(u64, &'a [u8])>
    ensures { (number : ℕ) (rest : List ℕ) → number < 2 ^ 64 → text.now ≡ number_line word.now number ++ rest
        → IsSomeAnd result (λ x. (x.0 ≡ number) × (x.1.now ≡ rest)) }
{
    let (digits, rest) = split_once(b'\n', after_prefix(word, text)?)?;
    Some((number_named(digits)?, rest))
}

// The number whose decimal digits these are; of other texts, any or none.
fn number_named(digits: &[u8]) -> Option<u64>
    ensures { (number : ℕ) → number < 2 ^ 64 → digits.now ≡ decimal number → IsSomeAnd result (λ x. x ≡ number) }
{
    match str::from_utf8(digits) {
        Ok(text) => text.parse::<u64>().ok(),
        Err(_) => None,
    }
}

// The boot aggregate on the line at the start, and what follows the line.
fn recorded_at(text: &[u8]) -> Option<(Option<Digest>, &[u8])>
    ensures { (recorded : Option Digest) (rest : List ℕ) → IfSome recorded (λ digest. IsHash (alg_of digest) (bytes_of digest))
        → text.now ≡ recorded_line recorded ++ rest → IsSomeAnd result (λ x. (x.0 ≡ recorded) × (x.1.now ≡ rest)) }
{
    let (words, rest) = split_once(b'\n', after_prefix(b"boot_aggregate ", text)?)?;
    Some((recorded_by(words)?, rest))
}

// The boot aggregate that another template records, by the line at the start, if that is one, and what follows the line.
fn told_at(text: &[u8]) -> Option<(Option<Digest>, &[u8])>
    ensures { (told : Option Digest) (rest : List ℕ) → IfSome told (λ digest. IsHash (alg_of digest) (bytes_of digest))
        → text.now ≡ told_line told ++ (codes "before\n" ++ rest)
        → IsSomeAnd result (λ x. (x.0 ≡ told) × (x.1.now ≡ codes "before\n" ++ rest)) }
{
    let Some(line) = after_prefix(b"boot_aggregate_told ", text) else {
        return Some((None, text));
    };
    let (words, rest) = split_once(b'\n', line)?;
    Some((recorded_by(words)?, rest))
}

// The boot aggregate that these words spell.
fn recorded_by(words: &[u8]) -> Option<Option<Digest>>
    ensures { (recorded : Option Digest) → IfSome recorded (λ digest. IsHash (alg_of digest) (bytes_of digest))
        → words.now ≡ recorded_words recorded → IsSomeAnd result (λ x. x ≡ recorded) }
{
    if is_none(words) {
        return Some(None);
    }
    let (name, digits) = split_once(b':', words)?;
    Some(Some(Digest::from_hex(Alg::from_name(name)?, digits)?))
}

// Whether the words are those for no boot aggregate.
fn is_none(words: &[u8]) -> bool
    ensures { IsTrue result ↔ (words.now ≡ codes "none") }
{
    words == b"none".as_slice()
}

// The first entry that extends another register than that of the list, by its lines at the start, and what follows the lines.
fn stray_at(text: &[u8]) -> Option<(Option<Stray>, &[u8])>
    ensures { (stray : Option Stray) (rest : List ℕ) → IfSome stray (IsStrayOf (2 ^ 64)) → text.now ≡ stray_lines stray ++ rest
        → IsSomeAnd result (λ x. (x.0 ≡ stray) × (x.1.now ≡ rest)) }
{
    let (register, rest) = number_at(b"register ", text)?;
    let (entry, rest) = number_at(b"entry ", rest)?;
    Some((stray_of(register, entry), rest))
}

// The entry with these numbers; none if the register is that of the list.
fn stray_of(register: u64, entry: u64) -> Option<Stray>
    ensures { (stray : Option Stray) → IfSome stray (IsStrayOf (2 ^ 64)) → register ≡ stray_register stray → entry ≡ stray_entry stray
        → result ≡ stray }
{
    if register == LIST_REGISTER as u64 {
        return None;
    }
    let register = u32::try_from(register).ok()?;
    Some(Stray {
        entry: entry as usize,
        register,
    })
}

// The banks whose lines follow this word, and what follows them.
fn section_at<'a>(word: &[u8], text: &'a [u8]) -> Option<(Banks, &'a [u8])>
    ensures { (known : Banks) (rest : List ℕ) → HaveValues known → text.now ≡ word.now ++ (banks_lines known ++ rest)
        → IsSomeAnd result (λ x. SameValues x.0 known × (x.1.now ≡ rest)) }
{
    banks_at(after_prefix(word, text)?)
}

// The banks whose lines are at the start, and what follows them.
fn banks_at(text: &[u8]) -> Option<(Banks, &[u8])>
    ensures { (known : Banks) (rest : List ℕ) → HaveValues known → text.now ≡ banks_lines known ++ rest
        → IsSomeAnd result (λ x. SameValues x.0 known × (x.1.now ≡ rest)) }
{
    let (banks, rest) = bank_at(list_start(), Alg::Sha1, text)?;
    let (banks, rest) = bank_at(banks, Alg::Sha256, rest)?;
    let (banks, rest) = bank_at(banks, Alg::Sha384, rest)?;
    bank_at(banks, Alg::Sha512, rest)
}

// These banks with one whose lines are at the start, and what follows the lines.
fn bank_at(banks: Banks, alg: Alg, text: &[u8]) -> Option<(Banks, &[u8])>
    ensures { (known : Banks) (rest : List ℕ) → HaveValues known → HasBank banks alg
        → text.now ≡ bank_lines known alg ++ rest
        → IsSomeAnd result (λ x. TakesBank known banks x.0 alg × (x.1.now ≡ rest)) }
{
    match after_none(alg, text) {
        Some(rest) => Some((banks.without(alg), rest)),
        None => values_at(banks, text),
    }
}

// What follows the line that says that the bank is not active, if this line is at the start.
fn after_none(alg: Alg, text: &[u8]) -> Option<&[u8]>
    ensures found { IfSome result (λ rest. text.now ≡ name_of alg ++ (codes " none\n" ++ rest.now)) }
    ensures none { IfNone result ((rest : List ℕ) → text.now ≡ name_of alg ++ (codes " none\n" ++ rest) → ⊥) }
{
    after_prefix(b" none\n", after_prefix(alg.name().as_bytes(), text)?)
}

// These banks with the registers whose lines are at the start, as many as a bank has, and what follows the lines.
fn values_at(start: Banks, text: &[u8]) -> Option<(Banks, &[u8])>
    ensures { (known : Banks) (alg : Alg) (rest : List ℕ) → HaveValues known → HasBank start alg
        → IsTrue (is_active known alg) → text.now ≡ flat_map (value_line known alg) all_registers ++ rest
        → IsSomeAnd result (λ x. TakesBank known start x.0 alg × (x.1.now ≡ rest)) }
{
    let mut banks = start;
    let mut rest = text;
    for _register in 0..REGISTERS {
        let (next, after) = value_at(banks, rest)?;
        banks = next;
        rest = after;
    }
    Some((banks, rest))
}

// These banks with the register whose line is at the start, and what follows the line.
fn value_at(banks: Banks, text: &[u8]) -> Option<(Banks, &[u8])>
    ensures { (alg : Alg) (register : ℕ) (value rest : List ℕ) → register < register_count → IsHash alg value
        → text.now ≡ register_line alg register value ++ rest
        → IsSomeAnd result (λ x. Sets banks x.0 alg register value × (x.1.now ≡ rest)) }
{
    let (line, rest) = split_once(b'\n', text)?;
    let row = register_on(line)?;
    Some((banks.with(row.register, &row.value), rest))
}
