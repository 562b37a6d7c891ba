//! What to do where nobody looked at a quote's signature, or key or signature are refused.

ghost use Rattle.std.specs.Prelude.{◌≡◌, ◌++◌, ◌∷◌, [], true, string_bytes, IfOk};
ghost use Rattle.std.specs.List.{list_all};
ghost use Rattle.hints.specs.Escaping.{escape, is_shown};
ghost use Rattle.hints.specs.Signing.{is_no_area, key_words, refusal_words, unsigned_words};

use crate::escapes::shown_line;
use signed_messages::SignatureRefusal;
use std::alloc::{AllocError, Global};
use tpm_keys::KeyFault;

/// The first number of the faults of what an area says; those before are of bytes that are none.
const FIRST_LACK: u32 = 11;

const UNSIGNED: &str =
    "the signature of QUOTE was not checked: add --key and --signature to verify it";

const NO_AREA: &str =
    "KEY is not a supported public area: give NAME.pub from ima-enroll, or PEM as ima-agent key --print pem prints it";

const NO_ATTESTATION_KEY: &str = "KEY is not an attestation key: give NAME.pub from ima-enroll";

/// What to do where nothing was said of the signature.
pub(crate) fn unsigned_hint(alloc: Global) -> Result<String, AllocError>
    ensures line { IfOk result (λ text. string_bytes text ≡ escape unsigned_words ++ 10 ∷ []) }
    ensures shown { IfOk result (λ text. list_all is_shown (string_bytes text) ≡ true) }
{
    shown_line(alloc, UNSIGNED)
}

/// What to do about a refused signature.
pub(crate) fn refusal_hint(alloc: Global, refusal: SignatureRefusal) -> Result<String, AllocError>
    ensures line { IfOk result (λ text. string_bytes text ≡ escape (refusal_words refusal) ++ 10 ∷ []) }
    ensures shown { IfOk result (λ text. list_all is_shown (string_bytes text) ≡ true) }
{
    shown_line(alloc, refusal_words(refusal))
}

// The words of that.
fn refusal_words(refusal: SignatureRefusal) -> &'static str
    ensures { result.now ≡ refusal_words refusal }
{
    match refusal {
        SignatureRefusal::Bytes(_) =>
            "SIG must be what tpm2_quote -s wrote with QUOTE, plain or not; KEY must be the key that made it",
        SignatureRefusal::OtherScheme | SignatureRefusal::OtherHash =>
            "KEY does not allow the scheme or the hash of SIG: SIG was made by another key or changed",
        SignatureRefusal::NotSigned =>
            "SIG is from another key or another quote, or one of QUOTE, SIG and KEY was changed",
        SignatureRefusal::OtherKey =>
            "ima-agent cannot verify signatures by such keys: verify SIG yourself, then give --signature-checked instead of --key and --signature",
        SignatureRefusal::OtherPem => "give the key's public area: NAME.pub from ima-enroll",
    }
}

/// What to do about a quote's key that is refused.
pub(crate) fn key_hint(alloc: Global, fault: KeyFault) -> Result<String, AllocError>
    ensures line { IfOk result (λ text. string_bytes text ≡ escape (key_words fault) ++ 10 ∷ []) }
    ensures shown { IfOk result (λ text. list_all is_shown (string_bytes text) ≡ true) }
{
    shown_line(alloc, key_words(fault))
}

// The words of that.
fn key_words(fault: KeyFault) -> &'static str
    ensures { result.now ≡ key_words fault }
{
    if is_no_area(fault) {
        NO_AREA
    } else {
        NO_ATTESTATION_KEY
    }
}

// Whether the bytes are no public area.
fn is_no_area(fault: KeyFault) -> bool
    ensures { result ≡ is_no_area fault }
{
    fault.number() < FIRST_LACK
}
