//! The signature: its scheme, its hash and its numbers.

ghost use Rattle.std.specs.Prelude.{◌≡◌, Some, Ok, IfOk, IfErr};
ghost use Rattle.byte_fields.specs.Reading.{Reads};
ghost use Rattle.tpm_signatures.specs.Reading.{ecdsa, hash, numbers, rsapss, rsassa, scheme, signature, signature_fault, signature_in, sized};
ghost use Rattle.tpm_signatures.specs.Spelling.{IsSignature, TpmSignature, numbers_of, signature_of};

use crate::fault::SignatureFault;
use crate::scheme::Scheme;
use byte_fields::{big_endian_u16_at, part_at};
use pcr_banks::Alg;

/// The numbers of a signature, big endian, of any length. All slices are borrowed from its bytes.
#[derive(Clone, Copy)]
pub enum SignatureNumbers<'a> {
    /// By RSASSA-PKCS1-v1_5 (RFC 8017, section 8.2).
    Rsassa(&'a [u8]),
    /// By RSASSA-PSS (RFC 8017, section 8.1).
    Rsapss(&'a [u8]),
    /// By ECDSA (FIPS 186-5, section 6).
    Ecdsa {
        /// The first number, r.
        r: &'a [u8],
        /// The second number, s.
        s: &'a [u8],
    },
}

/// What a signature states.
#[derive(Clone, Copy)]
pub struct Signature<'a> {
    /// The hash of the message that was signed.
    pub hash: Alg,
    /// The scheme, and its numbers.
    pub numbers: SignatureNumbers<'a>,
}

/// Reads a signature from all of the bytes, as `tpm2_quote -s` writes them without `-f plain`. Returns the first fault from left to right.
pub fn read_signature(bytes: &[u8]) -> Result<Signature<'_>, SignatureFault>
    // `Ok` only if the bytes are a signature, and state this.
    ensures found { IfOk result (λ signature. IsSignature bytes.now (signature_of signature)) }
    // Every signature is read.
    ensures only { (signature : TpmSignature) → IsSignature bytes.now signature → Reads signature_of result (Ok signature) }
    ensures fault { IfErr result (λ fault. signature_fault bytes.now ≡ Some fault) }
{
    signature_in(bytes)
}

// Reads all of the bytes.
#[tactic(auto, unfolding(crate::specs::Reading::signature_in))]
fn signature_in(bytes: &[u8]) -> Result<Signature<'_>, SignatureFault>
    ensures { Reads signature_of result (signature_in bytes.now) }
{
    let (signature, rest) = signature_at(bytes)?;
    if !rest.is_empty() {
        return Err(SignatureFault::Trailing);
    }
    Ok(signature)
}

// Reads a signature. Returns it and the remaining bytes.
#[tactic(auto, unfolding(crate::specs::Reading::signature))]
fn signature_at(bytes: &[u8]) -> Result<(Signature<'_>, &[u8]), SignatureFault>
    ensures { Reads (λ x. (signature_of x.0, x.1.now)) result (signature.at bytes.now) }
{
    let (scheme, rest) = scheme_at(bytes)?;
    let (hash, rest) = hash_at(rest)?;
    let (numbers, rest) = numbers_at(scheme, rest)?;
    Ok((Signature { hash, numbers }, rest))
}

// Reads the number of the scheme.
#[tactic(auto, unfolding(crate::specs::Reading::scheme))]
fn scheme_at(bytes: &[u8]) -> Result<(Scheme, &[u8]), SignatureFault>
    ensures { Reads (λ x. (x.0, x.1.now)) result (scheme.at bytes.now) }
{
    let (id, rest) = big_endian_u16_at(SignatureFault::Truncated, bytes)?;
    let scheme = Scheme::with(id).ok_or(SignatureFault::UnknownScheme)?;
    Ok((scheme, rest))
}

// Reads the number of the hash.
#[tactic(auto, unfolding(crate::specs::Reading::hash))]
fn hash_at(bytes: &[u8]) -> Result<(Alg, &[u8]), SignatureFault>
    ensures { Reads (λ x. (x.0, x.1.now)) result (hash.at bytes.now) }
{
    let (id, rest) = big_endian_u16_at(SignatureFault::Truncated, bytes)?;
    let hash = Alg::from_id(id).ok_or(SignatureFault::UnknownHash)?;
    Ok((hash, rest))
}

// Reads the numbers of a signature by this scheme.
fn numbers_at(scheme: Scheme, bytes: &[u8]) -> Result<(SignatureNumbers<'_>, &[u8]), SignatureFault>
    ensures { Reads (λ x. (numbers_of x.0, x.1.now)) result ((numbers scheme).at bytes.now) }
{
    match scheme {
        Scheme::Rsassa => rsassa_at(bytes),
        Scheme::Rsapss => rsapss_at(bytes),
        Scheme::Ecdsa => ecdsa_at(bytes),
    }
}

// Reads the number of a signature by RSASSA-PKCS1-v1_5.
#[tactic(auto, unfolding(crate::specs::Reading::rsassa))]
fn rsassa_at(bytes: &[u8]) -> Result<(SignatureNumbers<'_>, &[u8]), SignatureFault>
    ensures { Reads (λ x. (numbers_of x.0, x.1.now)) result (rsassa.at bytes.now) }
{
    let (number, rest) = sized_at(bytes)?;
    Ok((SignatureNumbers::Rsassa(number), rest))
}

// Reads the number of a signature by RSASSA-PSS.
#[tactic(auto, unfolding(crate::specs::Reading::rsapss))]
fn rsapss_at(bytes: &[u8]) -> Result<(SignatureNumbers<'_>, &[u8]), SignatureFault>
    ensures { Reads (λ x. (numbers_of x.0, x.1.now)) result (rsapss.at bytes.now) }
{
    let (number, rest) = sized_at(bytes)?;
    Ok((SignatureNumbers::Rsapss(number), rest))
}

// Reads the numbers of a signature by ECDSA.
#[tactic(auto, unfolding(crate::specs::Reading::ecdsa))]
fn ecdsa_at(bytes: &[u8]) -> Result<(SignatureNumbers<'_>, &[u8]), SignatureFault>
    ensures { Reads (λ x. (numbers_of x.0, x.1.now)) result (ecdsa.at bytes.now) }
{
    let (r, rest) = sized_at(bytes)?;
    let (s, rest) = sized_at(rest)?;
    Ok((SignatureNumbers::Ecdsa { r, s }, rest))
}

// Reads bytes that are prefixed by their number, in two bytes. Returns them and the remaining bytes.
#[tactic(auto, unfolding(crate::specs::Reading::sized))]
fn sized_at(bytes: &[u8]) -> Result<(&[u8], &[u8]), SignatureFault>
    ensures { Reads (λ x. (x.0.now, x.1.now)) result (sized.at bytes.now) }
{
    let (size, rest) = big_endian_u16_at(SignatureFault::Truncated, bytes)?;
    part_at(SignatureFault::Truncated, size as usize, rest)
}
