//! Certificates by their bytes.

ghost use Rattle.std.specs.Prelude.{◌≡◌, [], ◌∷◌, bytes_eq, codes, map};
ghost use Rattle.event_data.specs.Names.{list_of, signatures_of};
ghost use Rattle.cells.specs.Writing.{WritesItems, WritesMembers, WritesValue};
ghost use Rattle.event_lines.specs.Certificates.{certificate_json, certificate_member, certificates_json, certificates_member, is_certificate, x509_type};

use cells::{Written, write_hex, write_number};
use event_data::SignatureList;
use json::Writer;
use pcr_banks::{Alg, hash};
use std::alloc::Global;

/// EFI_CERT_X509_GUID, a5c059a1-94e4-4aa7-87b5-ab155c2bf072 (UEFI 2.10, section 32.4.1).
const X509: [u8; 16] = [
    0xA1, 0x59, 0xC0, 0xA5, 0xE4, 0x94, 0xA7, 0x4A, 0x87, 0xB5, 0xAB, 0x15, 0x5C, 0x2B, 0xF0, 0x72,
];

/// The bytes of the longest hash, SHA-512.
const LONGEST_HASH: usize = 64;

/// The tag of a SEQUENCE (X.690, section 8.9).
const SEQUENCE: u8 = 0x30;

/// Writes the member of a list's certificates, if it is one of certificates. Fails only if memory runs out.
pub(crate) fn write_certificates(
    alloc: Global,
    list: &SignatureList<'_>,
    writer: &mut Writer,
) -> Written
    ensures { WritesMembers result writer.old writer.new (certificates_member (list_of list.now)) }
{
    if is_of_certificates(list.kind) {
        write_array(alloc, list, writer)
    } else {
        Ok(())
    }
}

// Whether signatures of this type are certificates.
fn is_of_certificates(kind: &[u8]) -> bool
    ensures { result ≡ bytes_eq kind.now x509_type }
{
    kind == X509.as_slice()
}

fn write_array(alloc: Global, list: &SignatureList<'_>, writer: &mut Writer) -> Written
    ensures { WritesMembers result writer.old writer.new
        ((codes "certificates", certificates_json (signatures_of (list_of list.now))) ∷ []) }
{
    writer.key("certificates")?;
    writer.begin_array()?;
    write_each(alloc, list, writer)?;
    writer.end_array()?;
    Ok(())
}

fn write_each(alloc: Global, list: &SignatureList<'_>, writer: &mut Writer) -> Written
    ensures { WritesItems result writer.old writer.new
        (map (λ signature. certificate_json signature.payload) (signatures_of (list_of list.now))) }
{
    let mut left = list.signatures();
    while let Some(signature) = left.next_signature() {
        write_fingerprint(alloc, signature.payload, writer)?;
    }
    Ok(())
}

// Writes a certificate: the hash of its bytes, and their number.
fn write_fingerprint(alloc: Global, bytes: &[u8], writer: &mut Writer) -> Written
    ensures { WritesValue result writer.old writer.new (certificate_json bytes.now) }
{
    let digest = hash(Alg::Sha256, bytes);
    writer.begin_object()?;
    write_hex(alloc, "sha256", digest.bytes(), writer)?;
    write_number("size", bytes.len() as u64, writer)?;
    writer.end_object()?;
    Ok(())
}

/// Writes the member of the certificate that the bytes are, if they are one. Fails only if memory runs out.
pub(crate) fn write_certificate(alloc: Global, bytes: &[u8], writer: &mut Writer) -> Written
    ensures { WritesMembers result writer.old writer.new (certificate_member bytes.now) }
{
    if is_certificate(bytes) {
        write_known(alloc, bytes, writer)
    } else {
        Ok(())
    }
}

// Whether the bytes begin as a certificate does, and are more than those of any hash.
fn is_certificate(bytes: &[u8]) -> bool
    ensures { result ≡ is_certificate bytes.now }
{
    bytes.len() > LONGEST_HASH && bytes.starts_with(&[SEQUENCE])
}

/// Writes the member of a certificate. Fails only if memory runs out.
pub(crate) fn write_known(alloc: Global, bytes: &[u8], writer: &mut Writer) -> Written
    ensures { WritesMembers result writer.old writer.new ((codes "certificate", certificate_json bytes.now) ∷ []) }
{
    writer.key("certificate")?;
    write_fingerprint(alloc, bytes, writer)?;
    Ok(())
}
