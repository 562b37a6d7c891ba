//! What tells which PCRs match, as a caller gives it.

ghost use Rattle.std.specs.Prelude.{◌≡◌, option_map};
ghost use Rattle.confirming.specs.Matching.{confirmation_of};
ghost use Rattle.judging.specs.Requests.{attested_of, location_of, signing_of};
ghost use Rattle.ima_verify_c.specs.Boot.{by_quote, confirmation_in, earlier_in, given_of, has_no_quote, quote_in, some_confirmation, with_nonce};

use crate::requests::signing_in;
use agent_plans::Scope;
use confirming::Confirming;
use judging::{AttestRequest, Input, Signing};

/// What tells which PCRs match, as a caller gives it.
#[derive(Clone, Copy)]
pub(crate) struct Evidence<'a> {
    /// 0 if nothing does, 1 if the text of expected PCRs does, 2 if the quote does.
    pub by: u32,
    /// The text of expected PCRs.
    pub expected: &'a [u8],
    /// The measurement list that the quote is of.
    pub list: &'a [u8],
    /// The quote's message.
    pub message: &'a [u8],
    /// The key.
    pub key: &'a [u8],
    /// The signature.
    pub signature: &'a [u8],
    /// The nonce, as bytes.
    pub nonce: &'a [u8],
    /// The nonce, as hexadecimal digits.
    pub nonce_hex: &'a [u8],
    /// The PCRs that must be quoted.
    pub require: &'a [u8],
    /// Whether a PCR may be required in the SHA-1 bank alone.
    pub allow_sha1: bool,
    /// Whether a boot aggregate as older kernels make it is taken.
    pub old_kernel: bool,
    /// Whether the caller has verified the signature.
    pub signature_checked: bool,
}

/// The log of an earlier boot, if this one is compared.
pub(crate) fn earlier_in(compares: bool, before: &[u8]) -> Option<Input<'_>>
    ensures { option_map location_of result ≡ earlier_in compares before.now }
{
    if compares {
        Some(Input::Bytes(before))
    } else {
        None
    }
}

/// What tells which PCRs match, if something does.
pub(crate) fn some_confirming_in(given: Evidence<'_>) -> Option<Confirming<'_>>
    ensures { option_map confirmation_of result ≡ some_confirmation (confirmation_in (given_of given.entry)) }
{
    match confirming_in(given) {
        None | Some(Confirming::Nothing) => None,
        some => some,
    }
}

/// What tells which PCRs match, but for a quote's nonce.
pub(crate) fn confirming_in(given: Evidence<'_>) -> Option<Confirming<'_>>
    ensures { option_map confirmation_of result ≡ confirmation_in (given_of given.entry) }
{
    let alone = has_no_quote(given);
    match given.by {
        0 if given.expected.is_empty() && alone => Some(Confirming::Nothing),
        1 if alone => Some(Confirming::Expected(Input::Bytes(given.expected))),
        2 if given.expected.is_empty() => quoted_in(given),
        _ => None,
    }
}

// Whether nothing is given of a quote.
fn has_no_quote(given: Evidence<'_>) -> bool
    ensures { result ≡ has_no_quote (given_of given.entry) }
{
    given.list.is_empty()
        && given.message.is_empty()
        && given.key.is_empty()
        && given.signature.is_empty()
        && given.nonce.is_empty()
        && given.nonce_hex.is_empty()
        && given.require.is_empty()
        && !given.allow_sha1
        && !given.old_kernel
        && !given.signature_checked
}

// The quote, without its nonce, if what tells that it is signed belongs together.
fn quoted_in(given: Evidence<'_>) -> Option<Confirming<'_>>
    ensures { option_map confirmation_of result ≡ by_quote (given_of given.entry) }
{
    match signing_in(given.key, given.signature, given.signature_checked) {
        None => None,
        Some(signing) => Some(Confirming::Quote(quote_in(given, signing))),
    }
}

// What is asked of the quote, without its nonce; its log is given apart.
fn quote_in<'a>(given: Evidence<'a>, signing: Signing<'a>) -> AttestRequest<'a>
    ensures { attested_of result ≡ quote_in (given_of given.entry) (signing_of signing.entry) }
{
    AttestRequest {
        log: Input::Bytes(b""),
        list: Input::Bytes(given.list),
        message: Input::Bytes(given.message),
        nonce: b"",
        required: given.require,
        takes_sha1: given.allow_sha1,
        old_kernel: given.old_kernel,
        signing,
        expected: None,
        scope: Scope::Whole,
        resume: None,
        saves: false,
        known: &[],
    }
}

/// What tells which PCRs match, where a quote has this nonce.
pub(crate) fn with_nonce<'a>(confirming: Confirming<'a>, nonce: &'a [u8]) -> Confirming<'a>
    ensures { confirmation_of result ≡ with_nonce (confirmation_of confirming.entry) nonce.now }
{
    match confirming {
        Confirming::Nothing => Confirming::Nothing,
        Confirming::Expected(text) => Confirming::Expected(text),
        Confirming::Quote(asked) => Confirming::Quote(AttestRequest { nonce, ..asked }),
    }
}
