//! The keys by which signatures are verified.

ghost use Rattle.std.specs.Prelude.{◌≡◌, ◌↔◌, IsTrue, option_map};
ghost use Rattle.tpm_keys.specs.Spelling.{area_of, numbers_of};
ghost use Rattle.signed_messages.specs.Keys.{curve_with, ecc_key_of, ecc_key_with, ecc_alone, ecdsa_hash_in, hash_with, key_alone, key_in, key_of, key_with, rsa_alone, rsa_key_of, rsa_key_with, scheme_in, scheme_kind_with, size_on};

use ecdsa_signatures::Curve;
use pcr_banks::Alg;
use signature_hashes::Hash;
use tpm_keys::{Material, PublicArea, Scheme, SchemeKind};

/// The fewest bytes of a modulus: 2,048 bits.
const FEWEST_MODULUS_BYTES: usize = 256;

/// The most bytes of a modulus: 4,096 bits.
const MOST_MODULUS_BYTES: usize = 512;

/// How an RSA key signs (RFC 8017).
#[derive(Clone, Copy)]
pub enum RsaScheme {
    /// By RSASSA-PKCS1-v1_5.
    Pkcs1,
    /// By RSASSA-PSS.
    Pss,
}

/// How a key signs, and with which hash.
#[derive(Clone, Copy)]
pub struct SigningScheme {
    /// How.
    pub kind: RsaScheme,
    /// The hash of the message.
    pub hash: Hash,
}

/// An RSA key.
#[derive(Clone, Copy)]
pub struct RsaPublicKey<'a> {
    /// The modulus, big endian. The exponent is 65,537.
    pub modulus: &'a [u8],
    /// How the key signs. `None` only for a key whose public area was checked before, such as one that is kept as PEM: then every scheme and hash
    /// but SHA-1 is taken.
    pub scheme: Option<SigningScheme>,
}

/// A key on a curve, which signs by ECDSA.
#[derive(Clone, Copy)]
pub struct EccPublicKey<'a> {
    /// The curve.
    pub curve: Curve,
    /// The first coordinate of its point, big endian.
    pub x: &'a [u8],
    /// The second coordinate.
    pub y: &'a [u8],
    /// The hash with which the key signs. `None` only for a key whose public area was checked before: then every hash but SHA-1 is taken.
    pub hash: Option<Hash>,
}

/// A key by which signatures are verified.
#[derive(Clone, Copy)]
pub enum VerifyingKey<'a> {
    /// An RSA key.
    Rsa(RsaPublicKey<'a>),
    /// A key on a curve.
    Ecc(EccPublicKey<'a>),
}

impl<'a> VerifyingKey<'a> {
    /// The key with this public area. `None` if its signatures are not verified here: it is no RSA key of 2,048 to 4,096 bits and no key on P-256 or
    /// P-384, has no scheme by which its kind of key signs, or signs with SHA-1. Attributes are not looked at: pass what `read_key` returned.
    pub fn of(area: &PublicArea<'a>) -> Option<VerifyingKey<'a>>
        ensures { option_map key_of result ≡ key_in (area_of area.now) }
    {
        key_with(area.scheme, area.material)
    }
}

/// The key with these numbers, of which scheme and hash are not known: an RSA key of 2,048 to 4,096 bits with the exponent 65,537, or a key on P-256
/// or P-384 whose coordinates have the curve's size.
pub(crate) fn key_alone(material: Material<'_>) -> Option<VerifyingKey<'_>>
    ensures { option_map key_of result ≡ key_alone (numbers_of material.entry) }
{
    match material {
        Material::Rsa {
            exponent: 65_537,
            modulus,
        } => Some(VerifyingKey::Rsa(rsa_alone(modulus)?)),
        Material::Rsa { .. } => None,
        Material::Ecc { curve, x, y } => Some(VerifyingKey::Ecc(ecc_alone(curve, x, y)?)),
    }
}

// The RSA key of 2,048 to 4,096 bits with this modulus alone, whose first bit is set.
fn rsa_alone(modulus: &[u8]) -> Option<RsaPublicKey<'_>>
    ensures { option_map rsa_key_of result ≡ rsa_alone modulus.now }
{
    let first = modulus.first()?;
    if *first < 0x80 || modulus.len() < FEWEST_MODULUS_BYTES || modulus.len() > MOST_MODULUS_BYTES {
        return None;
    }
    Some(RsaPublicKey {
        modulus,
        scheme: None,
    })
}

// The key on P-256 or P-384 with this point alone.
fn ecc_alone<'a>(curve: tpm_keys::Curve, x: &'a [u8], y: &'a [u8]) -> Option<EccPublicKey<'a>>
    ensures { option_map ecc_key_of result ≡ ecc_alone curve x.now y.now }
{
    let curve = curve_with(curve)?;
    let size = coordinate_size(curve);
    if x.len() != size || y.len() != size {
        return None;
    }
    Some(EccPublicKey {
        curve,
        x,
        y,
        hash: None,
    })
}

// How many bytes a coordinate of a point of the curve has.
fn coordinate_size(curve: Curve) -> usize
    ensures { result ≡ size_on curve }
{
    match curve {
        Curve::P256 => 32,
        Curve::P384 => 48,
    }
}

// The key with these numbers, and this scheme.
fn key_with(scheme: Scheme, material: Material<'_>) -> Option<VerifyingKey<'_>>
    ensures { option_map key_of result ≡ key_with scheme (numbers_of material.entry) }
{
    match material {
        Material::Rsa {
            exponent: 0 | 65_537,
            modulus,
        } => Some(VerifyingKey::Rsa(rsa_key(scheme, modulus)?)),
        Material::Rsa { .. } => None,
        Material::Ecc { curve, x, y } => Some(VerifyingKey::Ecc(ecc_key(scheme, curve, x, y)?)),
    }
}

// The RSA key of 2,048 to 4,096 bits with this modulus.
fn rsa_key(scheme: Scheme, modulus: &[u8]) -> Option<RsaPublicKey<'_>>
    ensures { option_map rsa_key_of result ≡ rsa_key_with scheme modulus.now }
{
    if modulus.len() < FEWEST_MODULUS_BYTES || modulus.len() > MOST_MODULUS_BYTES {
        return None;
    }
    let scheme = SigningScheme::of(scheme)?;
    Some(RsaPublicKey {
        modulus,
        scheme: Some(scheme),
    })
}

// The key on P-256 or P-384 with this point.
fn ecc_key<'a>(
    scheme: Scheme,
    curve: tpm_keys::Curve,
    x: &'a [u8],
    y: &'a [u8],
) -> Option<EccPublicKey<'a>>
    ensures { option_map ecc_key_of result ≡ ecc_key_with scheme curve x.now y.now }
{
    let curve = curve_with(curve)?;
    let hash = ecdsa_hash_in(scheme)?;
    Some(EccPublicKey {
        curve,
        x,
        y,
        hash: Some(hash),
    })
}

impl SigningScheme {
    // The scheme of an RSA key, if it signs by it.
    fn of(scheme: Scheme) -> Option<SigningScheme>
        ensures { result ≡ scheme_in scheme }
    {
        let kind = kind_with(scheme.kind)?;
        let hash = hash_with(scheme.hash?)?;
        Some(SigningScheme { kind, hash })
    }
}

// How an RSA key of this scheme signs.
fn kind_with(kind: SchemeKind) -> Option<RsaScheme>
    ensures { result ≡ scheme_kind_with kind }
{
    match kind {
        SchemeKind::Rsassa => Some(RsaScheme::Pkcs1),
        SchemeKind::Rsapss => Some(RsaScheme::Pss),
        _ => None,
    }
}

// The hash with which a key of this scheme signs by ECDSA.
fn ecdsa_hash_in(scheme: Scheme) -> Option<Hash>
    ensures { result ≡ ecdsa_hash_in scheme }
{
    match scheme.kind {
        SchemeKind::Ecdsa => hash_with(scheme.hash?),
        _ => None,
    }
}

// The curve, if it is P-256 or P-384.
fn curve_with(curve: tpm_keys::Curve) -> Option<Curve>
    ensures { result ≡ curve_with curve }
{
    match curve {
        tpm_keys::Curve::P256 => Some(Curve::P256),
        tpm_keys::Curve::P384 => Some(Curve::P384),
        tpm_keys::Curve::P521 => None,
    }
}

/// The hash of signatures by this algorithm; `None` for SHA-1.
pub(crate) fn hash_with(alg: Alg) -> Option<Hash>
    ensures { result ≡ hash_with alg }
{
    match alg {
        Alg::Sha1 => None,
        Alg::Sha256 => Some(Hash::Sha256),
        Alg::Sha384 => Some(Hash::Sha384),
        Alg::Sha512 => Some(Hash::Sha512),
    }
}

/// Whether two hashes are one.
pub(crate) fn is_same_hash(first: Hash, second: Hash) -> bool
    ensures { IsTrue result ↔ (first ≡ second) }
{
    matches!(
        (first, second),
        (Hash::Sha256, Hash::Sha256) | (Hash::Sha384, Hash::Sha384) | (Hash::Sha512, Hash::Sha512)
    )
}
