//! The key itself: what is public of its numbers.

ghost use Rattle.std.specs.Prelude.{◌≡◌};
ghost use Rattle.byte_fields.specs.Reading.{Reads};
ghost use Rattle.tpm_keys.specs.Reading.{coordinate, curve, ecc_numbers, exponent, has_bits, no_derivation, numbers, rsa_numbers};
ghost use Rattle.tpm_keys.specs.Purposes.{is_short};
ghost use Rattle.tpm_keys.specs.Spelling.{numbers_of};

use crate::area::sized_at;
use crate::fault::KeyFault;
use crate::kinds::{Curve, KeyType};
use byte_fields::{big_endian_u16_at, big_endian_u32_at};

// TPM_ALG_NULL: there is none.
pub(crate) const NULL: u16 = 0x0010;

// The fewest bytes of the modulus of an RSA key that is taken: 2,048 bits.
const FEWEST_BYTES: usize = 256;

/// What is public of a key itself. All slices are borrowed from the public area.
#[derive(Clone, Copy)]
pub enum Material<'a> {
    /// An RSA key.
    Rsa {
        /// The exponent as it is stated: 65,537, or 0, which stands for it.
        exponent: u32,
        /// The modulus, big endian: its first bit is set.
        modulus: &'a [u8],
    },
    /// A point of an elliptic curve. That it lies on the curve is not looked at.
    Ecc {
        /// The curve.
        curve: Curve,
        /// The first coordinate, big endian, of at most as many bytes as the curve's coordinates have.
        x: &'a [u8],
        /// The second coordinate.
        y: &'a [u8],
    },
}

impl Material<'_> {
    // Whether it is an RSA key of fewer than 2,048 bits.
    pub(crate) fn is_short(&self) -> bool
        ensures { result ≡ is_short (numbers_of self.now) }
    {
        match self {
            Material::Rsa { modulus, .. } => modulus.len() < FEWEST_BYTES,
            Material::Ecc { .. } => false,
        }
    }
}

/// Reads the numbers of a key of this type. Returns them and the remaining bytes.
pub(crate) fn material_at(key: KeyType, bytes: &[u8]) -> Result<(Material<'_>, &[u8]), KeyFault>
    ensures { Reads (λ x. (numbers_of x.0, x.1.now)) result ((numbers key).at bytes.now) }
{
    match key {
        KeyType::Rsa => rsa_at(bytes),
        KeyType::Ecc => ecc_at(bytes),
    }
}

// Reads those of an RSA key.
#[tactic(auto, unfolding(crate::specs::Reading::rsa_numbers))]
fn rsa_at(bytes: &[u8]) -> Result<(Material<'_>, &[u8]), KeyFault>
    ensures { Reads (λ x. (numbers_of x.0, x.1.now)) result (rsa_numbers.at bytes.now) }
{
    let (bits, rest) = big_endian_u16_at(KeyFault::Truncated, bytes)?;
    let (exponent, rest) = exponent_at(rest)?;
    let (modulus, rest) = sized_at(rest)?;
    if !has_bits(bits, modulus) {
        return Err(KeyFault::KeySize);
    }
    Ok((Material::Rsa { exponent, modulus }, rest))
}

// Reads an exponent.
#[tactic(auto, unfolding(crate::specs::Reading::exponent))]
fn exponent_at(bytes: &[u8]) -> Result<(u32, &[u8]), KeyFault>
    ensures { Reads (λ x. (x.0, x.1.now)) result (exponent.at bytes.now) }
{
    let (exponent, rest) = big_endian_u32_at(KeyFault::Truncated, bytes)?;
    match exponent {
        0 | 65537 => Ok((exponent, rest)),
        _ => Err(KeyFault::OtherExponent),
    }
}

// Whether these bytes have so many bits, the first of which is set.
fn has_bits(bits: u16, bytes: &[u8]) -> bool
    ensures { result ≡ has_bits bits bytes.now }
{
    match bytes.first() {
        Some(first) => bits % 8 == 0 && bytes.len() == bits as usize / 8 && *first >= 128,
        None => false,
    }
}

// Reads those of a key of an elliptic curve.
#[tactic(auto, unfolding(crate::specs::Reading::ecc_numbers))]
fn ecc_at(bytes: &[u8]) -> Result<(Material<'_>, &[u8]), KeyFault>
    ensures { Reads (λ x. (numbers_of x.0, x.1.now)) result (ecc_numbers.at bytes.now) }
{
    let (curve, rest) = curve_at(bytes)?;
    let rest = no_derivation_at(rest)?;
    let (x, rest) = coordinate_at(curve, rest)?;
    let (y, rest) = coordinate_at(curve, rest)?;
    Ok((Material::Ecc { curve, x, y }, rest))
}

// Reads the number of a curve.
#[tactic(auto, unfolding(crate::specs::Reading::curve))]
fn curve_at(bytes: &[u8]) -> Result<(Curve, &[u8]), KeyFault>
    ensures { Reads (λ x. (x.0, x.1.now)) result (curve.at bytes.now) }
{
    let (id, rest) = big_endian_u16_at(KeyFault::Truncated, bytes)?;
    let curve = Curve::with(id).ok_or(KeyFault::UnknownCurve)?;
    Ok((curve, rest))
}

// Reads that there is no key derivation. Returns the remaining bytes.
#[tactic(auto, unfolding(crate::specs::Reading::no_derivation))]
fn no_derivation_at(bytes: &[u8]) -> Result<&[u8], KeyFault>
    ensures { Reads (λ x. (0x0010, x.now)) result (no_derivation.at bytes.now) }
{
    let (id, rest) = big_endian_u16_at(KeyFault::Truncated, bytes)?;
    if id != NULL {
        return Err(KeyFault::KeyDerivation);
    }
    Ok(rest)
}

// Reads a coordinate.
#[tactic(auto, unfolding(crate::specs::Reading::coordinate))]
fn coordinate_at(curve: Curve, bytes: &[u8]) -> Result<(&[u8], &[u8]), KeyFault>
    ensures { Reads (λ x. (x.0.now, x.1.now)) result ((coordinate curve).at bytes.now) }
{
    let (bytes, rest) = sized_at(bytes)?;
    if bytes.len() > curve.coordinate_size() {
        return Err(KeyFault::KeySize);
    }
    Ok((bytes, rest))
}
