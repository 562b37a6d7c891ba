//! Registers that must be among the expected ones.

ghost use Rattle.std.specs.Prelude.{◌≡◌, ◌⊎◌, ℕ, List, map, IfOk, IfErr};
ghost use Rattle.pcr_values.specs.declared.expected.Expected.{Expected};
ghost use Rattle.pcr_values.specs.declared.selection.BankRange.{BankRange};
ghost use Rattle.pcr_values.specs.declared.selection.SelectionFault.TheVariants.{Malformed, Memory, LacksPcr10};
ghost use Rattle.pcr_values.specs.Names.{BeginsWithBankRange, names};
ghost use Rattle.boot_verdict.specs.Requirements.{IsRequirementText, IsWithoutPcr10, IsWrong, bind_list, is_complete, is_complete_in, is_missing, is_of, states};

use crate::isolation::LIST_REGISTER;
use crate::report::Row;
use crate::steps::Located;
use pcr_banks::{Alg, REGISTERS};
use pcr_values::{Expected, Selection, SelectionFault};
use std::alloc::Global;
use std::marker::Model;

/// Registers that must be among the expected ones, as ranges of banks. Contracts see the list of these.
#[derive(Drop)]
pub struct Requirement {
    selection: Selection,
}

impl Model for Requirement {
    ghost use Rattle.std.specs.Prelude.{List};
    ghost use Rattle.pcr_values.specs.declared.selection.BankRange.{BankRange};

    ghost Value = { List BankRange };

    ghost view = { λ requirement. requirement.selection };
}

impl Requirement {
    /// The requirement that the text spells: a selection ([`Selection::from_text`]) whose first part names a bank, such as `sha256:0-10` or
    /// `sha256:0-7+sha1:10`. Register 10 must be selected of some bank.
    ///
    /// Fails with [`SelectionFault::Malformed`] if the text is not of this form, and says which part is the first that is wrong; else with
    /// [`SelectionFault::LacksPcr10`] if register 10 is selected of no bank; or with [`SelectionFault::Memory`], which is possible only if the
    /// first part selects registers.
    pub fn from_text(alloc: Global, text: &[u8]) -> Result<Self, SelectionFault>
        // The result is what the text spells.
        ensures found { IfOk result (IsRequirementText text.now) }
        // A text that spells a requirement is read, unless memory runs out.
        ensures only { (ranges : List BankRange) → IsRequirementText text.now ranges → IfErr result (λ fault. fault ≡ Memory) }
        ensures fault { IfErr result (λ fault. ((fault ≡ Memory) × BeginsWithBankRange text.now)
            ⊎ ((at : ℕ) × (fault ≡ Malformed at) × IsWrong text.now at) ⊎ ((fault ≡ LacksPcr10) × IsWithoutPcr10 text.now)) }
    {
        let selection = Selection::from_text(alloc, text)?;
        if !selection.is_of_banks() {
            return Err(SelectionFault::Malformed { at: 0 });
        }
        let requirement = Requirement { selection };
        if !requirement.binds_list() {
            return Err(SelectionFault::LacksPcr10);
        }
        Ok(requirement)
    }

    // Whether the list's register is named of some bank.
    fn binds_list(&self) -> bool
        ensures { result ≡ bind_list self.now }
    {
        Alg::ALL.iter().any(|alg| self.names(*alg, LIST_REGISTER))
    }

    /// Whether each required register is among these.
    pub fn is_met(&self, expected: &[Expected]) -> bool
        ensures { result ≡ is_complete self.now expected.now }
    {
        self.is_met_by(expected)
    }

    /// Whether the register is required.
    pub fn names(&self, alg: Alg, register: u32) -> bool
        ensures { result ≡ names self.now alg register }
    {
        self.selection.names(alg, register)
    }

    /// Whether the register is required, but has none of these rows.
    pub fn is_missing<T: HasExpected>(&self, rows: &[T], alg: Alg, register: u32) -> bool
        ensures { result ≡ is_missing self.now (map T.expected_of rows.now) alg register }
    {
        self.names(alg, register) && !states(rows, alg, register)
    }

    /// Whether each required register has one of these rows.
    pub(crate) fn is_met_by<T: HasExpected>(&self, rows: &[T]) -> bool
        ensures { result ≡ is_complete self.now (map T.expected_of rows.now) }
    {
        Alg::ALL.iter().all(|alg| self.is_met_in(rows, *alg))
    }

    // Whether each required register of the bank has one of these rows.
    fn is_met_in<T: HasExpected>(&self, rows: &[T], alg: Alg) -> bool
        ensures { result ≡ is_complete_in self.now (map T.expected_of rows.now) alg }
    {
        (0..REGISTERS).all(|register| !self.is_missing(rows, alg, register))
    }
}

/// An expected register, or a row that has one.
pub trait HasExpected {
    ghost expected_of: { Self → Expected };

    /// The expected register.
    fn expected(&self) -> Expected
        ensures { result ≡ expected_of self.now };
}

impl HasExpected for Expected {
    ghost expected_of = { λ expected. expected };

    fn expected(&self) -> Expected {
        *self
    }
}

impl HasExpected for Row {
    ghost expected_of = { λ row. row.expected };

    fn expected(&self) -> Expected {
        self.expected
    }
}

impl HasExpected for Located {
    ghost expected_of = { λ row. row.expected };

    fn expected(&self) -> Expected {
        self.expected
    }
}

// Whether a value is expected of the register.
fn states<T: HasExpected>(rows: &[T], alg: Alg, register: u32) -> bool
    ensures { result ≡ states (map T.expected_of rows.now) alg register }
{
    rows.iter().any(|row| is_of(row.expected(), alg, register))
}

// Whether this is the value of this register.
fn is_of(expected: Expected, alg: Alg, register: u32) -> bool
    ensures { result ≡ is_of expected alg register }
{
    expected.alg == alg && expected.register == register
}
