//! The nonce of a quote, as bytes or as hexadecimal digits.

ghost use Rattle.std.specs.Prelude.{◌≡◌, ◌⊎◌, IfErr, IfNone, IfOk, IfSome, IsErr, Ok};
ghost use Rattle.agent_inputs.specs.declared.fault.RunFault.TheVariants.{Memory, Usage};
ghost use Rattle.hex.specs.Hex.{decode_of};
ghost use Rattle.ima_verify_c.specs.Answers.{IsNoNonce};
ghost use Rattle.ima_verify_c.specs.Requests.{AsksFor, Misused, nonce_bytes, nonce_in, without_line_feed};

use crate::requests::given_bytes;
use agent_inputs::RunFault;
use hex::FromHexError;
use std::alloc::Global;

/// The nonce of a quote.
#[derive(Drop)]
pub(crate) enum Nonce<'a> {
    /// The caller's bytes.
    Given(&'a [u8]),
    /// The bytes that the caller's digits spell.
    Decoded(Vec<u8>),
}

impl Nonce<'_> {
    /// Its bytes.
    pub(crate) fn bytes(&self) -> &[u8]
        ensures { result.now ≡ nonce_bytes self.now }
    {
        match self {
            Nonce::Given(bytes) => bytes,
            Nonce::Decoded(bytes) => bytes,
        }
    }
}

/// The nonce, of which bytes are given, or the text of its hexadecimal digits, which may end in a line feed. Nothing, if both are given.
pub(crate) fn nonce_in<'a>(
    alloc: Global,
    nonce: &'a [u8],
    digits: &'a [u8],
) -> Result<Option<Nonce<'a>>, RunFault>
    ensures some { IfOk result (λ given. IfSome given (λ found. nonce_in nonce.now digits.now ≡ AsksFor (nonce_bytes found))) }
    ensures none { IfOk result (λ given. IfNone given (nonce_in nonce.now digits.now ≡ Misused)) }
    ensures fault { IfErr result (IsNoNonce (nonce_in nonce.now digits.now)) }
{
    match (given_bytes(nonce), given_bytes(digits)) {
        (None, None) => Ok(Some(Nonce::Given(&[]))),
        (Some(nonce), None) => Ok(Some(Nonce::Given(nonce))),
        (None, Some(digits)) => Ok(Some(Nonce::Decoded(decoded(alloc, digits)?))),
        (Some(_), Some(_)) => Ok(None),
    }
}

// The bytes that a text of hexadecimal digits spells.
fn decoded(alloc: Global, text: &[u8]) -> Result<Vec<u8>, RunFault>
    ensures ok { IfOk result (λ bytes. decode_of (without_line_feed text.now) ≡ Ok bytes.items) }
    ensures fault { IfErr result (λ fault. ((fault ≡ Usage) × IsErr (decode_of (without_line_feed text.now))) ⊎ (fault ≡ Memory)) }
{
    match hex::decode(alloc, without_line_feed(text)) {
        Ok(bytes) => Ok(bytes),
        Err(FromHexError::OutOfMemory) => Err(RunFault::Memory),
        Err(_) => Err(RunFault::Usage),
    }
}

// The text without the line feed at its end.
fn without_line_feed(text: &[u8]) -> &[u8]
    ensures { result.now ≡ without_line_feed text.now }
{
    match text.strip_suffix(b"\n") {
        Some(text) => text,
        None => text,
    }
}
