//! Bytes as text: bytes, numbers and GUIDs in hexadecimal, and texts in UTF-16, little endian. Places in bytes.

ghost use Rattle.std.specs.Prelude.{◌≡◌, [], ◌∷◌, ◌++◌, OnOk, drop, slice_index, take, IfOk, ◌<◌, length, IfSome, IfNone, option_map};
ghost use Rattle.std.specs.String.{string_bytes};
ghost use Rattle.hex.specs.Hex.{encode_lower};
ghost use Rattle.event_texts.specs.NodeFields.{dashed};
ghost use Rattle.event_texts.specs.Numbers.{hex_number};
ghost use Rattle.event_texts.specs.Guids.{guid_text};
ghost use Rattle.event_texts.specs.WideTexts.{units_in, wide_text};

use std::alloc::{AllocError, Global};

/// The byte at a place; 0 where there is none.
pub(crate) fn byte_at(bytes: &[u8], place: usize) -> u8
    ensures { result ≡ slice_index bytes.now place }
{
    if place < bytes.len() { bytes[place] } else { 0 }
}

/// The bytes from a place on; none where there are none.
pub(crate) fn bytes_from(bytes: &[u8], place: usize) -> &[u8]
    ensures { result.now ≡ drop place bytes.now }
{
    if place < bytes.len() {
        &bytes[place..]
    } else {
        &[]
    }
}

/// The first `count` bytes, or all where they are fewer.
pub(crate) fn first_bytes(bytes: &[u8], count: usize) -> &[u8]
    ensures { result.now ≡ take count bytes.now }
{
    if count < bytes.len() {
        &bytes[..count]
    } else {
        bytes
    }
}

/// Appends bytes in hexadecimal.
pub(crate) fn push_hex(alloc: Global, bytes: &[u8], text: &mut String) -> Result<(), AllocError>
    ensures { OnOk result (string_bytes text.new ≡ string_bytes text.old ++ encode_lower bytes.now) }
{
    let digits = hex::encode(alloc, bytes)?;
    text.push_str(&digits)?;
    Ok(())
}

// Appends a byte in two digits.
fn push_byte(byte: u8, text: &mut String) -> Result<(), AllocError>
    ensures { OnOk result (string_bytes text.new ≡ string_bytes text.old ++ encode_lower (byte ∷ [])) }
{
    write!(text, "{byte:02x}")
}

/// Appends bytes in hexadecimal, with a '-' between each two.
pub(crate) fn push_dashed(bytes: &[u8], text: &mut String) -> Result<(), AllocError>
    ensures { OnOk result (string_bytes text.new ≡ string_bytes text.old ++ dashed bytes.now) }
{
    if let [first, others @ ..] = bytes {
        push_byte(*first, text)?;
        for byte in others {
            text.push_str("-")?;
            push_byte(*byte, text)?;
        }
    }
    Ok(())
}

/// Appends a number as [`hex_number`] tells it.
pub(crate) fn push_number(value: u64, text: &mut String) -> Result<(), AllocError>
    ensures { OnOk result (string_bytes text.new ≡ string_bytes text.old ++ hex_number value) }
{
    write!(text, "0x{value:x}")
}

/// The text of a number: '0x' and lower case hexadecimal digits, without leading zeros.
pub fn hex_number(alloc: Global, value: u64) -> Result<String, AllocError>
    ensures { IfOk result (λ text. string_bytes text ≡ hex_number value) }
{
    let mut text = String::new(alloc);
    push_number(value, &mut text)?;
    Ok(text)
}

/// Appends the text of a GUID, as [`guid_text`] tells it.
#[tactic(auto, unfolding(crate::specs::Guids::guid_text))]
pub(crate) fn push_guid(alloc: Global, guid: &[u8], text: &mut String) -> Result<(), AllocError>
    ensures { OnOk result (string_bytes text.new ≡ string_bytes text.old ++ guid_text guid.now) }
{
    push_hex(
        alloc,
        &[
            byte_at(guid, 3),
            byte_at(guid, 2),
            byte_at(guid, 1),
            byte_at(guid, 0),
        ],
        text,
    )?;
    text.push_str("-")?;
    push_hex(alloc, &[byte_at(guid, 5), byte_at(guid, 4)], text)?;
    text.push_str("-")?;
    push_hex(alloc, &[byte_at(guid, 7), byte_at(guid, 6)], text)?;
    text.push_str("-")?;
    push_hex(alloc, &[byte_at(guid, 8), byte_at(guid, 9)], text)?;
    text.push_str("-")?;
    push_hex(
        alloc,
        &[
            byte_at(guid, 10),
            byte_at(guid, 11),
            byte_at(guid, 12),
            byte_at(guid, 13),
            byte_at(guid, 14),
            byte_at(guid, 15),
        ],
        text,
    )
}

/// The text of a GUID (RFC 4122, section 3; its first three numbers are little endian in the bytes, as UEFI has them), in lower case. Of
/// fewer than 16 bytes those that are missing count as 0.
pub fn guid_text(alloc: Global, guid: &[u8]) -> Result<String, AllocError>
    ensures { IfOk result (λ text. string_bytes text ≡ guid_text guid.now) }
{
    let mut text = String::new(alloc);
    push_guid(alloc, guid, &mut text)?;
    Ok(text)
}

// The first unit of two bytes, and what follows it.
fn first_unit(bytes: &[u8]) -> Option<(u16, &[u8])>
    ensures unit { IfSome result (λ x. units_in bytes.now ≡ x.0 ∷ units_in x.1.now) }
    ensures shorter { IfSome result (λ x. length x.1.now < length bytes.now) }
    ensures none { IfNone result (units_in bytes.now ≡ []) }
{
    match bytes {
        [low, high, rest @ ..] => Some((u16::from_le_bytes([*low, *high]), rest)),
        _ => None,
    }
}

// The units of two bytes; a last byte alone is left out.
fn units_in(alloc: Global, bytes: &[u8]) -> Result<Vec<u16>, AllocError>
    ensures { IfOk result (λ units. units.items ≡ units_in bytes.now) }
{
    let mut units = Vec::new(alloc);
    let mut left = bytes;
    while let Some((unit, rest)) = first_unit(left) {
        units.push(unit)?;
        left = rest;
    }
    Ok(units)
}

/// The text that units of UTF-16 spell; `None` where a surrogate has no partner, or a byte is left over.
pub fn wide_text(alloc: Global, bytes: &[u8]) -> Result<Option<String>, AllocError>
    ensures { IfOk result (λ text. option_map string_bytes text ≡ wide_text bytes.now) }
{
    if bytes.len() % 2 != 0 {
        return Ok(None);
    }
    let units = units_in(alloc, bytes)?;
    match String::from_utf16(alloc, &units)? {
        Ok(text) => Ok(Some(text)),
        Err(_) => Ok(None),
    }
}
