//! Registers that a text selects, by ranges.

ghost use Rattle.std.specs.Prelude.{◌≡◌, codes, IfSome, IfNone, ◌⊎◌, ℕ, suc, ◌+◌, List, ◌∷◌, length, option_map, IfOk, IfErr};
ghost use Rattle.std.specs.Str.{bytes_eq};
ghost use Rattle.pcr_values.specs.declared.selection.RegisterRange.{RegisterRange};
ghost use Rattle.pcr_values.specs.RegisterRanges.{IsNumberedRange, IsRangeText, is_within};
ghost use Rattle.pcr_values.specs.parts.RangeEnds.{AreEnds};
ghost use Rattle.pcr_values.specs.declared.selection.BankRange.{BankRange};
ghost use Rattle.pcr_values.specs.declared.selection.SelectionFault.TheVariants.{Malformed, Memory};
ghost use Rattle.pcr_values.specs.Selections.{BeginsWithBankRange, IsBankRangeText, IsFirstWrong, SpellsRanges, are_of_banks, is_bank, is_in, names, split_at_separators, those_selected};
ghost use Rattle.pcr_values.specs.parts.SelectionParts.{parts_left};

use crate::expected::Expected;
use crate::text_lines::{register_named, split_once};
use memchr::memchr2;
use pcr_banks::{Alg, REGISTERS};
use std::alloc::{AllocFailed, Global};
use std::marker::Model;
use thiserror::Error;

/// Some registers of a bank: from a first to a last one, both included.
#[derive(Clone, Copy, PartialEq, Eq)]
pub struct RegisterRange {
    first: u32,
    last: u32,
}

impl RegisterRange {
    /// All registers, 0 to 23.
    const ALL: Self = RegisterRange {
        first: 0,
        last: REGISTERS - 1,
    };

    /// The range that the text spells: `0-10`, its first and last register; `4`, its only one; or `all`. Registers are decimal numbers from
    /// 0 to 23 without leading zeros, and the last is not below the first. `None` if the text is not of this form.
    pub fn from_text(text: &[u8]) -> Option<Self>
        ensures found { IfSome result (IsRangeText text.now) }
        ensures none { IfNone result ((range : RegisterRange) → IsRangeText text.now range → ⊥) }
    {
        if is_all(text) {
            return Some(RegisterRange::ALL);
        }
        RegisterRange::from_numbers(text)
    }

    // The range whose first and last register, or only one, the text has.
    fn from_numbers(text: &[u8]) -> Option<Self>
        ensures found { IfSome result (IsNumberedRange text.now) }
        ensures none { IfNone result ((range : RegisterRange) → IsNumberedRange text.now range → ⊥) }
    {
        let (first, last) = ends_of(text);
        let first = register_named(first)?;
        let last = register_named(last)?;
        if first > last {
            return None;
        }
        Some(RegisterRange { first, last })
    }

    /// Whether the register is one of the range.
    pub fn contains(self, register: u32) -> bool
        ensures { result ≡ is_within self register }
    {
        (self.first..=self.last).contains(&register)
    }
}

// Whether the text names all registers.
fn is_all(text: &[u8]) -> bool
    ensures { result ≡ bytes_eq (codes "all") text.now }
{
    b"all".as_slice() == text
}

// What the text has before its first hyphen and after it, or the whole text for both.
fn ends_of(text: &[u8]) -> (&[u8], &[u8])
    ensures { AreEnds text.now result.0.now result.1.now }
{
    split_once(b'-', text).unwrap_or((text, text))
}

/// Some registers of a bank, or of every bank.
#[derive(Clone, Copy, PartialEq, Eq)]
pub struct BankRange {
    /// The bank; every bank without one.
    pub alg: Option<Alg>,
    /// Which of its registers.
    pub range: RegisterRange,
}

impl BankRange {
    // What this part selects, which is of the bank `before` if it names none.
    fn from_text(before: Option<Alg>, text: &[u8]) -> Option<Self>
        ensures found { IfSome result (IsBankRangeText before text.now) }
        ensures none { IfNone result ((bank : BankRange) → IsBankRangeText before text.now bank → ⊥) }
    {
        let Some((name, registers)) = split_once(b':', text) else {
            let range = RegisterRange::from_text(text)?;
            return Some(BankRange { alg: before, range });
        };
        let alg = Alg::from_name(name)?;
        let range = RegisterRange::from_text(registers)?;
        Some(BankRange {
            alg: Some(alg),
            range,
        })
    }

    // Whether the register of the bank of this algorithm is among these.
    fn has(self, alg: Alg, register: u32) -> bool
        ensures { result ≡ is_in self alg register }
    {
        is_bank(self.alg, alg) && self.range.contains(register)
    }
}

/// Why a text selects no registers, or not those that have to be required.
#[derive(Clone, Copy, Debug, PartialEq, Eq, Error)]
pub enum SelectionFault {
    /// The text is not of the form. The first part that is wrong begins at the byte `at`, counted from 0.
    #[error("not of the form BANK:A,B-C[+BANK:D..]")]
    Malformed {
        /// Where the wrong part begins.
        at: usize,
    },
    /// The text names register 10 of no bank, so nothing that is required would tell of the list.
    #[error("register 10 is named of no bank, so nothing of the list would be required")]
    LacksPcr10,
    /// Out of memory.
    #[error("out of memory")]
    Memory,
}

impl<T: Drop> From<AllocFailed<T>> for SelectionFault {
    ghost from_gives = { λ _ fault. fault ≡ Memory };

    fn from(_refused: AllocFailed<T>) -> SelectionFault {
        SelectionFault::Memory
    }
}

/// Registers that a text selects, as ranges of banks. Contracts see the list of these.
#[derive(Drop)]
pub struct Selection {
    ranges: Vec<BankRange>,
}

impl Model for Selection {
    ghost use Rattle.std.specs.Prelude.{List};
    ghost use Rattle.pcr_values.specs.declared.selection.BankRange.{BankRange};

    ghost Value = { List BankRange };

    ghost view = { λ selection. selection.ranges.items };
}

impl Selection {
    /// The registers that the text selects: parts with a comma or a plus between them, as in `sha256:0-7,10+sha1:10`, `sha256:all` or `0-10`.
    /// A part is the name of a bank's algorithm, a colon and registers ([`RegisterRange::from_text`]), or registers alone: these are of
    /// the bank of the part before, and of every bank before any is named. A register may be selected twice.
    ///
    /// Fails with [`SelectionFault::Malformed`] if the text is not of this form, and says which part is the first that is wrong; or with
    /// [`SelectionFault::Memory`], which is possible only if the first part selects registers.
    pub fn from_text(alloc: Global, text: &[u8]) -> Result<Self, SelectionFault>
        // The result is what the text spells.
        ensures found { IfOk result (SpellsRanges text.now) }
        // A text that selects registers is read, unless memory runs out.
        ensures only { (ranges : List BankRange) → SpellsRanges text.now ranges → IfErr result (λ fault. fault ≡ Memory) }
        ensures fault { IfErr result (λ fault. ((fault ≡ Memory) × BeginsWithBankRange text.now)
            ⊎ ((at : ℕ) × (fault ≡ Malformed at) × IsFirstWrong text.now at)) }
    {
        let mut ranges = Vec::new(alloc);
        let mut bank = None;
        let mut rest = Some(text);
        while let Some(left) = rest {
            let (part, after) = part_at(left);
            let Some(selected) = BankRange::from_text(bank, part) else {
                return Err(SelectionFault::Malformed {
                    at: text.len() - left.len(),
                });
            };
            ranges.push(selected)?;
            bank = selected.alg;
            rest = after;
        }
        Ok(Selection { ranges })
    }

    /// Whether the register of the bank of this algorithm is selected.
    pub fn names(&self, alg: Alg, register: u32) -> bool
        ensures { result ≡ names self.now alg register }
    {
        self.ranges.iter().any(|bank| bank.has(alg, register))
    }

    /// Keeps those of the expected registers that are selected, in order.
    pub fn keep(&self, expected: &mut Vec<Expected>)
        ensures { expected.new.items ≡ those_selected self.now expected.old.items }
    {
        expected.retain(|expected| self.names(expected.alg, expected.register));
    }

    /// Whether each selected register is of a bank that is named.
    pub fn is_of_banks(&self) -> bool
        ensures { result ≡ are_of_banks self.now }
    {
        self.ranges.iter().all(|bank| bank.alg.is_some())
    }
}

// Whether this is the bank, or every bank is.
fn is_bank(bank: Option<Alg>, alg: Alg) -> bool
    ensures { result ≡ is_bank bank alg }
{
    match bank {
        None => true,
        Some(own) => own == alg,
    }
}

// The first part, before the first comma or plus, and the text after that, if there is one.
fn part_at(text: &[u8]) -> (&[u8], Option<&[u8]>)
    ensures part { split_at_separators text.now ≡ result.0.now ∷ parts_left (option_map (λ rest. rest.now) result.1) }
    ensures begins { IfSome result.1 (λ rest. length text.now ≡ suc (length result.0.now + length rest.now)) }
{
    match memchr2(b',', b'+', text) {
        Some(at) => (&text[..at], Some(&text[at + 1..])),
        None => (text, None),
    }
}
