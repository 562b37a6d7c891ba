//! The report on a log and a list by a quote, and what it keeps of the quote.

ghost use Rattle.std.specs.Prelude.{◌≡◌, IfOk, map};
ghost use Rattle.tpm_quotes.specs.Spelling.{is_selected, quote_of, selection_of, selects_one};
ghost use Rattle.attestations.specs.Quoted.{bank_selection_of, stated_by, stated_of};
ghost use Rattle.attestations.specs.Reports.{attest_verdict_of, is_attested};

use crate::expected::ExpectedValues;
use crate::signature::SignatureState;
use boot_verdict::{Report, Unconfirmed};
use pcr_banks::Alg;
use std::alloc::{AllocError, Global};
use tpm_quotes::{Clock, Quote, QuotedSelection};

/// The registers of a bank that a quote selects: as [`QuotedSelection`], but with bits of its own.
#[derive(Drop)]
pub struct Selected {
    /// The bank.
    pub alg: Alg,
    /// A bit for each register, from the lowest bit of the first byte on.
    pub bits: Vec<u8>,
}

impl Selected {
    // The selection as a quote has it, with these bits.
    fn selection(&self) -> QuotedSelection<'_>
        ensures { result.bits.now ≡ self.now.bits.items }
    {
        QuotedSelection {
            alg: self.alg,
            bits: &self.bits,
        }
    }

    /// Whether the register is selected.
    pub fn selects(&self, register: u32) -> bool
        ensures { result ≡ is_selected self.now.bits.items register }
    {
        self.selection().selects(register)
    }

    /// Whether any register is selected.
    pub fn selects_one(&self) -> bool
        ensures { result ≡ selects_one (bank_selection_of self.now) }
    {
        self.selection().selects_one()
    }
}

/// What a quote states, but for its nonce and its digest: no part of it is borrowed from the message. It is at most four selections with at
/// most 255 bytes each, and a name of at most 65535 bytes.
#[derive(Drop)]
pub struct Quoted {
    /// Which registers it selects, bank by bank.
    pub selections: Vec<Selected>,
    /// The qualified name of the key that signs it.
    pub signer: Vec<u8>,
    /// The TPM's clock, and its counts of resets and restarts.
    pub clock: Clock,
    /// The version of the TPM's firmware, as its maker numbers it.
    pub firmware: u64,
}

impl Quoted {
    /// What this quote states. Fails only if memory runs out.
    pub fn of(alloc: Global, quote: &Quote<'_>) -> Result<Quoted, AllocError>
        ensures { IfOk result (λ quoted. stated_of quoted ≡ stated_by (quote_of quote.now)) }
    {
        Ok(Quoted {
            selections: selected_of(alloc, quote.selections())?,
            signer: Vec::from_slice(alloc, quote.signer)?,
            clock: quote.clock,
            firmware: quote.firmware,
        })
    }
}

// The selections, with bits of their own.
fn selected_of(
    alloc: Global,
    selections: &[QuotedSelection<'_>],
) -> Result<Vec<Selected>, AllocError>
    ensures { IfOk result (λ selected. map bank_selection_of selected.items ≡ map selection_of selections.now) }
{
    let mut selected = Vec::new(alloc);
    for selection in selections {
        selected.push(Selected {
            alg: selection.alg,
            bits: Vec::from_slice(alloc, selection.bits)?,
        })?;
    }
    Ok(selected)
}

/// A list of which a report is on a prefix.
#[derive(Clone, Copy)]
pub struct Whole {
    /// How many entries it has.
    pub entries: usize,
    /// Why what follows the prefix is no list of genuine entries, if it is none.
    pub unconfirmed: Option<Unconfirmed>,
}

/// The report on a firmware event log and a measurement list by a quote of the TPM. The quote takes the place of expected registers; if there
/// are such, and the quote confirms their values, its rows say which register differs.
#[derive(Drop)]
pub struct AttestReport {
    /// What the quote states.
    pub quoted: Quoted,
    /// The report on the log and the list, or on the prefix of the list that the quote confirms. It has rows only if expected values are
    /// confirmed: those of the registers that the quote selects, which [`crate::keep_confirmed`] keeps.
    pub report: Report,
    /// The whole list, if the report is on a prefix of it.
    pub prefix: Option<Whole>,
    /// What came of the values of expected registers.
    pub expected: ExpectedValues,
    /// Whether the quote is of the values to which log and list replay, or log and the prefix.
    pub is_quoted: bool,
    /// What is known of the message's signature. If nobody verified it nothing is attested, whatever the rest says.
    pub signature: SignatureState,
}

impl AttestReport {
    /// Whether log and list are what the quote is of: the boot aggregate is good, nothing of log or list extends a register that is not its own,
    /// and the quote is of the values to which they replay. If the report is on a prefix of the list, each of the three is of that prefix alone.
    /// Whether the message is signed is not looked at here, and rows make no difference: it is the quote that decides.
    pub fn is_attested(&self) -> bool
        ensures { result ≡ is_attested (attest_verdict_of self.now) }
    {
        self.report.aggregate.is_good() && self.report.strays.are_none() && self.is_quoted
    }
}
