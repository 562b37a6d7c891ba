//! The public area of a key.

ghost use Rattle.std.specs.Prelude.{◌≡◌, Some, Ok, IfOk, IfErr};
ghost use Rattle.byte_fields.specs.Formats.{either};
ghost use Rattle.byte_fields.specs.Reading.{Reads};
ghost use Rattle.tpm_keys.specs.Kinds.{has_hash};
ghost use Rattle.tpm_keys.specs.Reading.{aes, area, area_fault, area_in, bare_area, cipher, has_type, hash, head, is_aes, is_bare, key_type, nothing, scheme, scheme_kind, sized, sized_area, some_hash};
ghost use Rattle.tpm_keys.specs.Spelling.{IsPublicArea, KeyArea, area_of, area_spelling};

use crate::fault::KeyFault;
use crate::kinds::{KeyType, SchemeKind};
use crate::material::{Material, NULL, material_at};
use byte_fields::{big_endian_u16_at, big_endian_u32_at, part_at};
use pcr_banks::Alg;

// TPM_ALG_AES.
const AES: u16 = 0x0006;

/// AES, by which a key protects what is below it.
#[derive(Clone, Copy)]
pub struct Cipher {
    /// How many bits its key has, as the area states.
    pub bits: u16,
    /// The number of its mode.
    pub mode: u16,
}

/// How a key signs or decrypts, and with which hash (TPM 2.0 Library, part 2, TPMT_RSA_SCHEME and TPMT_ECC_SCHEME).
#[derive(Clone, Copy)]
pub struct Scheme {
    /// How.
    pub kind: SchemeKind,
    /// The hash that belongs to it, if one does.
    pub hash: Option<Alg>,
}

/// What the public area of a key states. All slices are borrowed from its bytes.
#[derive(Clone, Copy)]
pub struct PublicArea<'a> {
    /// The algorithm of the key's name.
    pub name_alg: Alg,
    /// The attributes, a bit each (TPM 2.0 Library, part 2, TPMA_OBJECT).
    pub attributes: u32,
    /// The digest of the policy by which the key may be used; no bytes without one.
    pub policy: &'a [u8],
    /// By what it protects other keys, if it does.
    pub cipher: Option<Cipher>,
    /// How it signs or decrypts.
    pub scheme: Scheme,
    /// The key itself.
    pub material: Material<'a>,
    /// The bytes of the area, without its size: the key's name is the hash of them.
    pub spelled: &'a [u8],
}

/// Reads a public area: all of the bytes, with their number before them, as `tpm2_readpublic -o` writes them, or bare, as go-tpm keeps them. They
/// are bare if they begin with the type of a key, and no type follows. Returns the first fault: of the frame, and then of the area from left to
/// right.
pub fn read_area(bytes: &[u8]) -> Result<PublicArea<'_>, KeyFault>
    // `Ok` only if the bytes are a public area, and state this.
    ensures found { IfOk result (λ area. IsPublicArea bytes.now (area_of area)) }
    ensures spelled { IfOk result (λ area. area.spelled.now ≡ area_spelling (area_of area)) }
    // Every public area is read.
    ensures only { (area : KeyArea) → IsPublicArea bytes.now area → Reads area_of result (Ok area) }
    ensures fault { IfErr result (λ fault. area_fault bytes.now ≡ Some fault) }
{
    area_in(bytes)
}

// Reads an area from all of the bytes, bare or behind its size.
#[tactic(auto, unfolding(crate::specs::Reading::area_in))]
fn area_in(bytes: &[u8]) -> Result<PublicArea<'_>, KeyFault>
    ensures read { Reads area_of result (area_in bytes.now) }
    ensures spelled { IfOk result (λ area. area.spelled.now ≡ area_spelling (area_of area)) }
{
    if is_bare(bytes) {
        bare_area(bytes)
    } else {
        sized_area(bytes)
    }
}

// Whether an area is bare: a type comes first, and none after it.
fn is_bare(bytes: &[u8]) -> bool
    ensures { result ≡ is_bare bytes.now }
{
    match type_at(bytes) {
        Ok((_, rest)) => !has_type(rest),
        Err(_) => false,
    }
}

// Whether a type is at the start.
fn has_type(bytes: &[u8]) -> bool
    ensures { result ≡ has_type bytes.now }
{
    match type_at(bytes) {
        Ok(_) => true,
        Err(_) => false,
    }
}

// Reads the frame, and all of the bytes in it.
#[tactic(auto, unfolding(crate::specs::Reading::sized_area))]
fn sized_area(bytes: &[u8]) -> Result<PublicArea<'_>, KeyFault>
    ensures read { Reads area_of result (sized_area bytes.now) }
    ensures spelled { IfOk result (λ area. area.spelled.now ≡ area_spelling (area_of area)) }
{
    let (framed, after) = sized_at(bytes)?;
    if !after.is_empty() {
        return Err(KeyFault::Trailing);
    }
    bare_area(framed)
}

// Reads an area from all of the bytes.
fn bare_area(bytes: &[u8]) -> Result<PublicArea<'_>, KeyFault>
    ensures read { Reads area_of result (bare_area bytes.now) }
    ensures spelled { IfOk result (λ area. area.spelled.now ≡ bytes.now) }
{
    let (area, rest) = area_at(bytes)?;
    if !rest.is_empty() {
        return Err(KeyFault::Trailing);
    }
    Ok(PublicArea {
        spelled: bytes,
        ..area
    })
}

// Reads an area. Returns it, with no bytes that it is spelled by yet, and the remaining bytes.
#[tactic(auto, unfolding(crate::specs::Reading::area))]
fn area_at(bytes: &[u8]) -> Result<(PublicArea<'_>, &[u8]), KeyFault>
    ensures { Reads (λ x. (area_of x.0, x.1.now)) result (area.at bytes.now) }
{
    let (key, rest) = type_at(bytes)?;
    let ((name_alg, attributes, policy), rest) = head_at(rest)?;
    let (cipher, rest) = cipher_at(rest)?;
    let (scheme, rest) = scheme_at(key, rest)?;
    let (material, rest) = material_at(key, rest)?;
    let area = PublicArea {
        name_alg,
        attributes,
        policy,
        cipher,
        scheme,
        material,
        spelled: &[],
    };
    Ok((area, rest))
}

/// Reads bytes whose number stands before them, in two bytes. Returns them and the remaining bytes.
#[tactic(auto, unfolding(crate::specs::Reading::sized))]
pub(crate) fn sized_at(bytes: &[u8]) -> Result<(&[u8], &[u8]), KeyFault>
    ensures { Reads (λ x. (x.0.now, x.1.now)) result (sized.at bytes.now) }
{
    let (size, rest) = big_endian_u16_at(KeyFault::Truncated, bytes)?;
    part_at(KeyFault::Truncated, size as usize, rest)
}

// Reads the type of the key.
#[tactic(auto, unfolding(crate::specs::Reading::key_type))]
fn type_at(bytes: &[u8]) -> Result<(KeyType, &[u8]), KeyFault>
    ensures { Reads (λ x. (x.0, x.1.now)) result (key_type.at bytes.now) }
{
    let (id, rest) = big_endian_u16_at(KeyFault::Truncated, bytes)?;
    let key = KeyType::with(id).ok_or(KeyFault::OtherType)?;
    Ok((key, rest))
}

// Reads the algorithm of the name, the attributes and the policy.
#[tactic(auto, unfolding(crate::specs::Reading::head))]
fn head_at(bytes: &[u8]) -> Result<((Alg, u32, &[u8]), &[u8]), KeyFault>
    ensures { Reads (λ x. ((x.0.0, (x.0.1, x.0.2.now)), x.1.now)) result (head.at bytes.now) }
{
    let (name_alg, rest) = hash_at(bytes)?;
    let (attributes, rest) = big_endian_u32_at(KeyFault::Truncated, rest)?;
    let (policy, rest) = sized_at(rest)?;
    Ok(((name_alg, attributes, policy), rest))
}

// Reads the number of a hash.
#[tactic(auto, unfolding(crate::specs::Reading::hash))]
fn hash_at(bytes: &[u8]) -> Result<(Alg, &[u8]), KeyFault>
    ensures { Reads (λ x. (x.0, x.1.now)) result (hash.at bytes.now) }
{
    let (id, rest) = big_endian_u16_at(KeyFault::Truncated, bytes)?;
    match Alg::from_id(id) {
        Some(alg) => Ok((alg, rest)),
        None => Err(KeyFault::UnknownHash),
    }
}

// Reads the symmetric algorithm, if there is one.
#[tactic(auto, unfolding(crate::specs::Reading::cipher))]
fn cipher_at(bytes: &[u8]) -> Result<(Option<Cipher>, &[u8]), KeyFault>
    ensures { Reads (λ x. (x.0, x.1.now)) result (cipher.at bytes.now) }
{
    let (is_aes, rest) = is_aes_at(bytes)?;
    if !is_aes {
        return Ok((None, rest));
    }
    aes_at(rest)
}

// Reads the number of the symmetric algorithm, and whether it is AES; else it is none.
#[tactic(auto, unfolding(crate::specs::Reading::is_aes))]
fn is_aes_at(bytes: &[u8]) -> Result<(bool, &[u8]), KeyFault>
    ensures { Reads (λ x. (x.0, x.1.now)) result (is_aes.at bytes.now) }
{
    let (id, rest) = big_endian_u16_at(KeyFault::Truncated, bytes)?;
    match id {
        AES => Ok((true, rest)),
        NULL => Ok((false, rest)),
        _ => Err(KeyFault::OtherSymmetric),
    }
}

// Reads the numbers of AES.
#[tactic(auto, unfolding(crate::specs::Reading::aes))]
fn aes_at(bytes: &[u8]) -> Result<(Option<Cipher>, &[u8]), KeyFault>
    ensures { Reads (λ x. (x.0, x.1.now)) result (aes.at bytes.now) }
{
    let (bits, rest) = big_endian_u16_at(KeyFault::Truncated, bytes)?;
    let (mode, rest) = big_endian_u16_at(KeyFault::Truncated, rest)?;
    Ok((Some(Cipher { bits, mode }), rest))
}

// Reads the scheme of a key of this type.
#[tactic(auto, unfolding(crate::specs::Reading::scheme))]
fn scheme_at(key: KeyType, bytes: &[u8]) -> Result<(Scheme, &[u8]), KeyFault>
    ensures { Reads (λ x. (x.0, x.1.now)) result ((scheme key).at bytes.now) }
{
    let (kind, rest) = scheme_kind_at(key, bytes)?;
    let (hash, rest) = scheme_hash_at(kind, rest)?;
    Ok((Scheme { kind, hash }, rest))
}

// Reads the number of a scheme of a key of this type.
#[tactic(auto, unfolding(crate::specs::Reading::scheme_kind))]
fn scheme_kind_at(key: KeyType, bytes: &[u8]) -> Result<(SchemeKind, &[u8]), KeyFault>
    ensures { Reads (λ x. (x.0, x.1.now)) result ((scheme_kind key).at bytes.now) }
{
    let (id, rest) = big_endian_u16_at(KeyFault::Truncated, bytes)?;
    let kind = SchemeKind::with(key, id).ok_or(KeyFault::UnknownScheme)?;
    Ok((kind, rest))
}

// Reads the hash that belongs to a scheme, if one does.
#[tactic(auto, unfolding(crate::specs::Reading::some_hash))]
fn scheme_hash_at(kind: SchemeKind, bytes: &[u8]) -> Result<(Option<Alg>, &[u8]), KeyFault>
    ensures { Reads (λ x. (x.0, x.1.now)) result ((either (has_hash kind) some_hash nothing).at bytes.now) }
{
    if !kind.has_hash() {
        return Ok((None, bytes));
    }
    let (alg, rest) = hash_at(bytes)?;
    Ok((Some(alg), rest))
}
