//! Separators and texts, what precedes or follows fixed bytes, and units of two bytes up to a NUL.

ghost use Rattle.std.specs.Prelude.{◌≡◌, ℕ, List, [], ◌∷◌, Some, IfSome, option_map, unwrap_or, ◌++◌, IfNone, ◌==◌, ◌&&◌, ◌≤◌, length, take, drop};
ghost use Rattle.byte_fields.specs.Reading.{Reads};
ghost use Rattle.event_data.specs.Forms.{IsSeparator, IsText, IsWideText, has_no_nul};
ghost use Rattle.event_data.specs.Reading.{separator_in};
ghost use Rattle.event_data.specs.Results.{before_in, text_in, wide_text_in, after_in};
ghost use Rattle.event_data.specs.ValueReading.{units_at};
ghost use Rattle.event_data.specs.GptForms.{up_to_nul};

use crate::content::Mismatch;
use byte_fields::u32_at;

/// The number that the bytes are, four of them; `None` where they are none.
pub fn read_separator(bytes: &[u8]) -> Option<u32>
    ensures value { result ≡ separator_in bytes.now }
    ensures found { IfSome result (IsSeparator bytes.now) }
    ensures only { (value : ℕ) → IsSeparator bytes.now value → result ≡ Some value }
{
    match u32_at(Mismatch::Form, bytes) {
        Ok((value, rest)) if rest.is_empty() => Some(value),
        _ => None,
    }
}

// Whether no byte is NUL.
fn has_no_nul(bytes: &[u8]) -> bool
    ensures { result ≡ has_no_nul bytes.now }
{
    bytes.iter().all(|byte| *byte != 0)
}

// The bytes without a NUL at their end, if they have one there.
fn without_nul(bytes: &[u8]) -> &[u8]
    ensures { result.now ≡ unwrap_or (before_in (0 ∷ []) bytes.now) bytes.now }
{
    match before_suffix(&[0], bytes) {
        Some(prefix) => prefix,
        None => bytes,
    }
}

/// The text that the bytes are, without the NUL that may stand at its end: UTF-8, with no other NUL. `None` where they are none.
pub fn read_text(bytes: &[u8]) -> Option<&str>
    ensures value { option_map (λ text. text.now) result ≡ text_in bytes.now }
    ensures found { IfSome result (λ text. IsText bytes.now text.now) }
    ensures only { (value : List ℕ) → IsText bytes.now value → option_map (λ text. text.now) result ≡ Some value }
{
    let text = without_nul(bytes);
    if !has_no_nul(text) {
        return None;
    }
    match str::from_utf8(text) {
        Ok(text) => Some(text),
        Err(_) => None,
    }
}

/// The text that the bytes are: units of two bytes, without the NUL unit that stands at its end. `None` where they are none.
pub fn read_wide_text(bytes: &[u8]) -> Option<&[u8]>
    ensures value { option_map (λ text. text.now) result ≡ wide_text_in bytes.now }
    ensures found { IfSome result (λ text. IsWideText bytes.now text.now) }
    ensures only { (value : List ℕ) → IsWideText bytes.now value → option_map (λ text. text.now) result ≡ Some value }
{
    match before_suffix(&[0, 0], bytes) {
        Some(text) if text.len() % 2 == 0 => Some(text),
        _ => None,
    }
}

/// What follows this prefix, if the bytes begin with it.
pub(crate) fn after_prefix<'a>(prefix: &[u8], bytes: &'a [u8]) -> Option<&'a [u8]>
    ensures value { option_map (λ rest. rest.now) result ≡ after_in prefix.now bytes.now }
    ensures found { IfSome result (λ rest. bytes.now ≡ prefix.now ++ rest.now) }
    ensures none { IfNone result ((rest : List ℕ) → bytes.now ≡ prefix.now ++ rest → ⊥) }
{
    bytes.strip_prefix(prefix)
}

/// What precedes this suffix, if the bytes end with it.
pub(crate) fn before_suffix<'a>(suffix: &[u8], bytes: &'a [u8]) -> Option<&'a [u8]>
    ensures value { option_map (λ prefix. prefix.now) result ≡ before_in suffix.now bytes.now }
    ensures found { IfSome result (λ prefix. bytes.now ≡ prefix.now ++ suffix.now) }
    ensures none { IfNone result ((prefix : List ℕ) → bytes.now ≡ prefix ++ suffix.now → ⊥) }
{
    bytes.strip_suffix(suffix)
}

// Whether the unit of these two bytes is NUL.
fn is_nul(low: u8, high: u8) -> bool
    ensures { result ≡ (low == 0 && high == 0) }
{
    low == 0 && high == 0
}

/// Reads units of two bytes up to the first NUL unit. Returns them without it, and the bytes that follow it.
pub(crate) fn units_at(bytes: &[u8]) -> Result<(&[u8], &[u8]), Mismatch>
    ensures { Reads (λ x. (x.0.now, x.1.now)) result (units_at bytes.now) }
{
    let mut rest = bytes;
    while let [low, high, after @ ..] = rest {
        if is_nul(*low, *high) {
            let (text, _) = bytes.split_at(bytes.len() - rest.len());
            return Ok((text, after));
        }
        rest = after;
    }
    Err(Mismatch::Form)
}

// What follows the first unit, where there is one that is not NUL.
fn after_unit(bytes: &[u8]) -> Option<&[u8]>
    ensures unit { IfSome result (λ rest. up_to_nul bytes.now ≡ take 2 bytes.now ++ up_to_nul rest.now) }
    ensures rest { IfSome result (λ rest. rest.now ≡ drop 2 bytes.now) }
    ensures size { IfSome result (λ rest. 2 ≤ length bytes.now) }
    ensures none { IfNone result (up_to_nul bytes.now ≡ []) }
{
    match bytes {
        [low, high, rest @ ..] => {
            if *low == 0 && *high == 0 {
                return None;
            }
            Some(rest)
        }
        _ => None,
    }
}

/// The units of two bytes before the first that is NUL; a last byte alone is left out.
pub(crate) fn up_to_nul(bytes: &[u8]) -> &[u8]
    ensures { result.now ≡ up_to_nul bytes.now }
{
    let mut rest = bytes;
    while let Some(later) = after_unit(rest) {
        rest = later;
    }
    &bytes[..bytes.len() - rest.len()]
}
