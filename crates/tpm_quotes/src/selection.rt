//! Which registers a quote selects.

ghost use Rattle.std.specs.Prelude.{◌≡◌, ◌≤◌, map, []};
ghost use Rattle.byte_fields.specs.Reading.{Reads};
ghost use Rattle.byte_fields.specs.Formats.{counted};
ghost use Rattle.pcr_banks.specs.Names.{tpm_id_of};
ghost use Rattle.tpm_quotes.specs.Spelling.{is_low, is_selected, most_banks, selection_of, selects_one, selects_some};
ghost use Rattle.tpm_quotes.specs.Reading.{bank, selection, selections, selects_bank};

use crate::fault::QuoteFault;
use arrayvec::ArrayVec;
use byte_fields::{big_endian_u16_at, big_endian_u32_at, part_at, u8_at};
use pcr_banks::{Alg, REGISTERS};

/// The registers of a bank that a quote selects.
#[derive(Clone, Copy)]
pub struct QuotedSelection<'a> {
    /// The bank.
    pub alg: Alg,
    /// A bit for each register, from the lowest bit of the first byte on, borrowed from the quote's bytes.
    pub bits: &'a [u8],
}

impl Default for QuotedSelection<'_> {
    ghost is_default = { λ selection. selection.bits.now ≡ [] };

    fn default() -> Self {
        QuotedSelection {
            alg: Alg::Sha256,
            bits: &[],
        }
    }
}

/// The most banks that a quote may select from: one for each known algorithm.
pub(crate) const MOST_BANKS: usize = 4;

/// The selections of a quote.
pub(crate) type Selections<'a> = ArrayVec<QuotedSelection<'a>, MOST_BANKS>;

impl QuotedSelection<'_> {
    /// Whether the register is selected.
    pub fn selects(&self, register: u32) -> bool
        ensures { result ≡ is_selected self.now.bits.now register }
    {
        match self.bits.get(register as usize / 8) {
            Some(byte) => (byte >> (register % 8)) % 2 == 1,
            None => false,
        }
    }

    /// Whether any register is selected.
    pub fn selects_one(&self) -> bool
        ensures { result ≡ selects_one (selection_of self.now) }
    {
        (0..REGISTERS).any(|register| self.selects(register))
    }
}

// Whether any register is selected.
fn select_some(selections: &[QuotedSelection]) -> bool
    ensures { result ≡ selects_some (map selection_of selections.now) }
{
    selections.iter().any(|selection| selection.selects_one())
}

// Whether one of the selections is of the bank with this identifier.
fn selects_bank(selections: &[QuotedSelection], alg: Alg) -> bool
    ensures { result ≡ selects_bank (tpm_id_of alg) (map selection_of selections.now) }
{
    selections
        .iter()
        .any(|selection| selection.alg.tpm_id() == alg.tpm_id())
}

// Whether none but the first 24 registers are selected.
fn is_low(bits: &[u8]) -> bool
    ensures { result ≡ is_low bits.now }
{
    bits.iter().skip(3).all(|byte| *byte == 0)
}

// Reads the identifier of a bank. Returns the bank and the remaining bytes.
#[tactic(auto, unfolding(crate::specs::Reading::bank))]
fn bank_at(bytes: &[u8]) -> Result<(Alg, &[u8]), QuoteFault>
    ensures { Reads (λ x. (x.0, x.1.now)) result (bank.at bytes.now) }
{
    let (id, rest) = big_endian_u16_at(QuoteFault::Truncated, bytes)?;
    match Alg::from_id(id) {
        Some(alg) => Ok((alg, rest)),
        None => Err(QuoteFault::UnknownBank),
    }
}

// Reads a selection, given those before it. Returns it and the remaining bytes.
#[tactic(auto, unfolding(crate::specs::Reading::selection))]
fn selection_at<'a>(
    before: &[QuotedSelection<'a>],
    bytes: &'a [u8],
) -> Result<(QuotedSelection<'a>, &'a [u8]), QuoteFault>
    ensures { Reads (λ x. (selection_of x.0, x.1.now)) result ((selection (map selection_of before.now)).at bytes.now) }
{
    let (alg, rest) = bank_at(bytes)?;
    if selects_bank(before, alg) {
        return Err(QuoteFault::BankTwice);
    }
    let (size, rest) = u8_at(QuoteFault::Truncated, rest)?;
    let (bits, rest) = part_at(QuoteFault::Truncated, size as usize, rest)?;
    if !is_low(bits) {
        return Err(QuoteFault::BadRegister);
    }
    Ok((QuotedSelection { alg, bits }, rest))
}

// Reads so many selections. Returns them and the remaining bytes.
fn counted_at(count: u32, bytes: &[u8]) -> Result<(Selections<'_>, &[u8]), QuoteFault>
    requires { count ≤ most_banks }
    ensures { Reads (λ x. (map selection_of x.0.items, x.1.now)) result ((counted selection count).at bytes.now) }
{
    let mut selections = ArrayVec::new();
    let mut rest = bytes;
    for _ in 0..count {
        let (selection, after) = selection_at(&selections, rest)?;
        selections.push(selection);
        rest = after;
    }
    Ok((selections, rest))
}

/// Reads the selections: their number, and each of them. Returns them and the remaining bytes.
#[tactic(auto, unfolding(crate::specs::Reading::selections))]
pub(crate) fn selections_at(bytes: &[u8]) -> Result<(Selections<'_>, &[u8]), QuoteFault>
    ensures { Reads (λ x. (map selection_of x.0.items, x.1.now)) result (selections.at bytes.now) }
{
    let (count, rest) = big_endian_u32_at(QuoteFault::Truncated, bytes)?;
    if count as usize > MOST_BANKS {
        return Err(QuoteFault::ManyBanks);
    }
    let (selections, rest) = counted_at(count, rest)?;
    if !select_some(&selections) {
        return Err(QuoteFault::NothingSelected);
    }
    Ok((selections, rest))
}
