//! What a verifier asks of an attestation, the quote that it asks for, and why a message is not that.

ghost use Rattle.std.specs.Prelude.{◌≡◌, None, Ok, IfOk, IfErr, bytes_eq};
ghost use Rattle.byte_fields.specs.Reading.{Reads};
ghost use Rattle.tpm_quotes.specs.Spelling.{quote_of, IsQuote, TpmQuote};
ghost use Rattle.attestations.specs.Policies.{first_unnamed, first_unselected, first_weak, is_named, is_named_beside_sha1, policy_fault, terms_of, unselected_in};
ghost use Rattle.attestations.specs.declared.policy.QuoteRefusal.TheVariants.{Message};
ghost use Rattle.attestations.specs.Judging.{quote_refusal, quote_refusal_number};
ghost use Rattle.attestations.specs.Attesting.{IsQuoteRefusal};

use boot_verdict::{AggregateRule, LIST_REGISTER, Requirement};
use pcr_banks::{Alg, REGISTERS};
use thiserror::Error;
use tpm_quotes::{Quote, QuoteFault, read_quote};

/// The fewest bytes that a nonce may have: 128 bits, so that chance makes none twice.
pub const LEAST_NONCE: usize = 16;

/// What a verifier asks of an attestation.
#[derive(Clone, Copy)]
pub struct Policy<'a> {
    /// The nonce that it gave out, for this attestation alone.
    pub nonce: &'a [u8],
    /// The registers that must be quoted: at least those from 0 to 10.
    pub required: &'a Requirement,
    /// Whether a register may be required in the SHA-1 bank alone, though collisions of SHA-1 are made in practice.
    pub takes_sha1: bool,
    /// By which rule the list's boot aggregate must be good.
    pub rule: AggregateRule,
}

/// Why a policy is refused: with it a match would say too little. The first of these that holds.
#[derive(Clone, Copy, Debug, PartialEq, Eq, Error)]
pub enum PolicyFault {
    /// The nonce has fewer than [`LEAST_NONCE`] bytes.
    #[error("the nonce has fewer than 16 bytes")]
    ShortNonce,
    /// A register from 0 to 10 is not required in any bank: the first one. Those up to 9 bind the log, and 10 binds the list.
    #[error("register {register} is not required in any bank")]
    NotRequired {
        /// The register.
        register: u32,
    },
    /// A register is required in the SHA-1 bank alone: the first one.
    #[error("register {register} is required in the SHA-1 bank alone")]
    OnlySha1 {
        /// The register.
        register: u32,
    },
}

impl Policy<'_> {
    /// Why the policy is refused, if it is.
    pub fn fault(&self) -> Option<PolicyFault>
        ensures { result ≡ policy_fault (terms_of self.now) }
    {
        if self.nonce.len() < LEAST_NONCE {
            return Some(PolicyFault::ShortNonce);
        }
        if let Some(register) = first_unnamed(self.required) {
            return Some(PolicyFault::NotRequired { register });
        }
        if self.takes_sha1 {
            return None;
        }
        let register = first_weak(self.required)?;
        Some(PolicyFault::OnlySha1 { register })
    }
}

// Whether the register is required in some bank.
fn is_named(required: &Requirement, register: u32) -> bool
    ensures { result ≡ is_named required.now register }
{
    Alg::ALL.iter().any(|alg| required.names(*alg, register))
}

// The first register, up to that of the list, that is not required in any bank, if there is one.
fn first_unnamed(required: &Requirement) -> Option<u32>
    ensures { result ≡ first_unnamed required.now }
{
    (0..LIST_REGISTER + 1).find(|register| !is_named(required, *register))
}

// Whether the register is required in a bank other than that of SHA-1.
fn is_named_beside_sha1(required: &Requirement, register: u32) -> bool
    ensures { result ≡ is_named_beside_sha1 required.now register }
{
    Alg::ALL
        .iter()
        .any(|alg| *alg != Alg::Sha1 && required.names(*alg, register))
}

/// The first register that is required in the SHA-1 bank alone, if there is one.
pub fn first_weak(required: &Requirement) -> Option<u32>
    ensures { result ≡ first_weak required.now }
{
    (0..REGISTERS).find(|register| required.names(Alg::Sha1, *register)
        && !is_named_beside_sha1(required, *register))
}

// The first register that is required and not selected, if there is one: by its bank, and then by its number.
fn first_unselected(required: &Requirement, quote: &Quote<'_>) -> Option<(Alg, u32)>
    ensures { result ≡ first_unselected required.now (quote_of quote.now).selections }
{
    let alg = Alg::ALL
        .iter()
        .find(|alg| unselected_in(required, quote, **alg).is_some())?;
    let register = unselected_in(required, quote, *alg)?;
    Some((*alg, register))
}

// The first register of a bank that is required and not selected, if there is one.
fn unselected_in(required: &Requirement, quote: &Quote<'_>, alg: Alg) -> Option<u32>
    ensures { result ≡ unselected_in required.now (quote_of quote.now).selections alg }
{
    (0..REGISTERS).find(|register| required.names(alg, *register) && !quote.selects(alg, *register))
}

/// Why a message is not the quote that is asked for: the first of these that holds.
#[derive(Clone, Copy, Debug, PartialEq, Eq, Error)]
pub enum QuoteRefusal {
    /// 1 to 10: the message is no quote that is taken.
    #[error("{0}")]
    Message(QuoteFault),
    /// 11: the quote has another nonce than the verifier gave out.
    #[error("the quote has another nonce")]
    OtherNonce,
    /// 12: the quote does not select a register that is required: the first one, by its bank, and then by its number.
    #[error("the quote does not select register {register} of a bank in which it is required")]
    NotSelected {
        /// The bank.
        alg: Alg,
        /// The register.
        register: u32,
    },
}

impl QuoteRefusal {
    /// The refusal's number, 1 to 12: of a message that is no quote that of its fault.
    pub fn number(self) -> u32
        ensures { result ≡ quote_refusal_number self }
    {
        match self {
            QuoteRefusal::Message(fault) => fault.number(),
            QuoteRefusal::OtherNonce => 11,
            QuoteRefusal::NotSelected { .. } => 12,
        }
    }
}

impl From<QuoteFault> for QuoteRefusal {
    ghost from_gives = { λ fault refusal. refusal ≡ Message fault };

    fn from(fault: QuoteFault) -> Self {
        QuoteRefusal::Message(fault)
    }
}

/// Reads the message of a quote, to its last byte, and takes it if it is the one that the policy asks for: it has the nonce, and selects each
/// register that is required. Whether the policy itself is refused is not looked at.
///
/// **The caller must have verified the message's signature**: here it is not looked at.
pub fn quote_for<'a>(message: &'a [u8], policy: &Policy<'_>) -> Result<Quote<'a>, QuoteRefusal>
    // `Ok` only if the message is a quote, and states this.
    ensures found { IfOk result (λ quote. IsQuote message.now (quote_of quote)) }
    // `Ok` only if it is the one that is asked for.
    ensures asked { IfOk result (λ quote. quote_refusal (quote_of quote) (terms_of policy.now) ≡ None) }
    // Every quote that is asked for is given.
    ensures only { (quote : TpmQuote) → IsQuote message.now quote → quote_refusal quote (terms_of policy.now) ≡ None
        → Reads quote_of result (Ok quote) }
    // A refusal is the first one.
    ensures fault { IfErr result (IsQuoteRefusal message.now (terms_of policy.now)) }
{
    let quote = read_quote(message)?;
    match refusal_of(&quote, policy) {
        Some(refusal) => Err(refusal),
        None => Ok(quote),
    }
}

// Why the quote is not the one that is asked for, if it is not.
fn refusal_of(quote: &Quote<'_>, policy: &Policy<'_>) -> Option<QuoteRefusal>
    ensures { result ≡ quote_refusal (quote_of quote.now) (terms_of policy.now) }
{
    if !is_fresh(quote, policy.nonce) {
        return Some(QuoteRefusal::OtherNonce);
    }
    let (alg, register) = first_unselected(policy.required, quote)?;
    Some(QuoteRefusal::NotSelected { alg, register })
}

// Whether the quote has this nonce.
fn is_fresh(quote: &Quote<'_>, nonce: &[u8]) -> bool
    ensures { result ≡ bytes_eq (quote_of quote.now).nonce nonce.now }
{
    quote.nonce == nonce
}
