//! What a key lacks, to be an attestation key or an endorsement key.

ghost use Rattle.std.specs.Prelude.{◌≡◌, ◌<◌, Some, None, Ok, IfOk, IfErr};
ghost use Rattle.byte_fields.specs.Reading.{Reads};
ghost use Rattle.tpm_keys.specs.Purposes.{first_of, has, lack, lacks_for, lacks_of_any};
ghost use Rattle.tpm_keys.specs.declared.kinds.Purpose.TheVariants.{Attestation, Endorsement};
ghost use Rattle.tpm_keys.specs.Reading.{key_fault};
ghost use Rattle.tpm_keys.specs.Spelling.{IsPublicArea, KeyArea, area_of, area_spelling};

use crate::area::{PublicArea, read_area};
use crate::fault::KeyFault;
use crate::kinds::Purpose;
use pcr_banks::Alg;

// The attributes of a key are numbered by their bits (TPM 2.0 Library, part 2, TPMA_OBJECT). fixedTPM: it stays in its TPM.
const FIXED_TPM: u32 = 1;

// fixedParent: it stays below its parent.
const FIXED_PARENT: u32 = 4;

// sensitiveDataOrigin: its TPM made what is secret in it.
const SENSITIVE_DATA_ORIGIN: u32 = 5;

// restricted: its TPM does not sign, or decrypt, with it what anyone gives it.
const RESTRICTED: u32 = 16;

// decrypt: it decrypts.
const DECRYPT: u32 = 17;

// sign: it signs.
const SIGN: u32 = 18;

/// Reads the public area of a key that is for this purpose, from all of the bytes. Returns the first fault of the bytes, or else the first thing that
/// the key lacks.
pub fn read_key(bytes: &[u8], purpose: Purpose) -> Result<PublicArea<'_>, KeyFault>
    // `Ok` only if the bytes are a public area, state this, and the key lacks nothing.
    ensures found { IfOk result (λ area. IsPublicArea bytes.now (area_of area) × (lack purpose (area_of area) ≡ None)) }
    ensures spelled { IfOk result (λ area. area.spelled.now ≡ area_spelling (area_of area)) }
    // Each such key is read.
    ensures only { (area : KeyArea) → IsPublicArea bytes.now area → lack purpose area ≡ None → Reads area_of result (Ok area) }
    ensures fault { IfErr result (λ fault. key_fault purpose bytes.now ≡ Some fault) }
{
    let area = read_area(bytes)?;
    match area.lack(purpose) {
        Some(fault) => Err(fault),
        None => Ok(area),
    }
}

impl PublicArea<'_> {
    // The first thing that is wrong with the key, for this purpose.
    fn lack(&self, purpose: Purpose) -> Option<KeyFault>
        ensures { result ≡ lack purpose (area_of self.now) }
    {
        match (self.lack_of_any(), purpose) {
            (Some(fault), _) => Some(fault),
            (None, Purpose::Attestation) => self.lack_of_attestation(),
            (None, Purpose::Endorsement) => self.lack_of_endorsement(),
        }
    }

    // The first thing that is wrong with any key.
    fn lack_of_any(&self) -> Option<KeyFault>
        ensures { result ≡ first_of (lacks_of_any (area_of self.now)) }
    {
        first_of(&[
            (self.name_alg == Alg::Sha1, KeyFault::WeakName),
            (!self.has(FIXED_TPM), KeyFault::LeavesTpm),
            (!self.has(FIXED_PARENT), KeyFault::LeavesParent),
            (!self.has(SENSITIVE_DATA_ORIGIN), KeyFault::NotMadeByTpm),
            (!self.has(RESTRICTED), KeyFault::Unrestricted),
            (self.material.is_short(), KeyFault::ShortKey),
        ])
    }

    // The first thing that is wrong with it as an attestation key.
    fn lack_of_attestation(&self) -> Option<KeyFault>
        ensures { result ≡ first_of (lacks_for Attestation (area_of self.now)) }
    {
        first_of(&[
            (!self.has(SIGN), KeyFault::DoesNotSign),
            (self.has(DECRYPT), KeyFault::Decrypts),
            (!self.scheme.kind.is_signing(), KeyFault::NoSigningScheme),
            (self.scheme.hash == Some(Alg::Sha1), KeyFault::WeakHash),
        ])
    }

    // The first thing that is wrong with it as an endorsement key.
    fn lack_of_endorsement(&self) -> Option<KeyFault>
        ensures { result ≡ first_of (lacks_for Endorsement (area_of self.now)) }
    {
        first_of(&[
            (self.has(SIGN), KeyFault::Signs),
            (!self.has(DECRYPT), KeyFault::DoesNotDecrypt),
        ])
    }

    // Whether it has this attribute.
    fn has(&self, attribute: u32) -> bool
        requires { attribute < 32 }
        ensures { result ≡ has (area_of self.now) attribute }
    {
        (self.attributes >> attribute) % 2 == 1
    }
}

// The first fault beside which stands `true`.
fn first_of(lacks: &[(bool, KeyFault)]) -> Option<KeyFault>
    ensures { result ≡ first_of lacks.now }
{
    for (is_lack, fault) in lacks {
        if *is_lack {
            return Some(*fault);
        }
    }
    None
}
