//! The lines of a text, and what stands on them.

ghost use Rattle.std.specs.Prelude.{◌≡◌, ◌<◌, ℕ, List, ◌∷◌, ◌++◌, length, decimal, option_map, IfSome, IfNone};
ghost use Rattle.std.specs.Str.{bytes_eq};
ghost use Rattle.std.specs.Str.Iter.{LacksByte};
ghost use Rattle.pcr_banks.specs.Names.{register_count};
ghost use Rattle.pcr_values.specs.StatedRegisters.{lines_of, without_return};
ghost use Rattle.pcr_values.specs.Lines.{IsSplitOnce};
ghost use Rattle.pcr_values.specs.parts.StatedLines.{lines_left};

use itoa::Buffer;
use memchr::memchr;
use pcr_banks::REGISTERS;

/// The first line, without a carriage return at its end, and the text after its line feed, if it has one.
pub(crate) fn line_at(text: &[u8]) -> (&[u8], Option<&[u8]>)
    ensures line { lines_of text.now ≡ result.0.now ∷ lines_left (option_map (λ rest. rest.now) result.1) }
    ensures shorter { IfSome result.1 (λ rest. length rest.now < length text.now) }
{
    match split_once(b'\n', text) {
        Some((line, rest)) => (without_return(line), Some(rest)),
        None => (without_return(text), None),
    }
}

// The line without its trailing carriage return, if it has one.
fn without_return(line: &[u8]) -> &[u8]
    ensures { result.now ≡ without_return line.now }
{
    line.strip_suffix(b"\r").unwrap_or(line)
}

/// The register below 24 whose number in decimal is this text.
pub(crate) fn register_named(text: &[u8]) -> Option<u32>
    ensures found { IfSome result (λ register. (register < register_count) × (text.now ≡ decimal register)) }
    ensures none { IfNone result ((register : ℕ) → register < register_count → text.now ≡ decimal register → ⊥) }
{
    for register in 0..REGISTERS {
        if is_decimal_of(register, text) {
            return Some(register);
        }
    }
    None
}

// Whether the text is this number in decimal.
fn is_decimal_of(number: u32, text: &[u8]) -> bool
    ensures { result ≡ bytes_eq (decimal number) text.now }
{
    Buffer::new().format(number).as_bytes() == text
}

/// The bytes before the first `byte` and those after it; `None` if the text lacks it.
pub fn split_once(byte: u8, text: &[u8]) -> Option<(&[u8], &[u8])>
    ensures cut { IfSome result (λ x. IsSplitOnce byte text.now x.0.now x.1.now) }
    ensures none { IfNone result (LacksByte byte text.now) }
{
    let at = memchr(byte, text)?;
    Some((&text[..at], &text[at + 1..]))
}

/// What follows this prefix, if the text begins with it.
pub fn after_prefix<'a>(prefix: &[u8], text: &'a [u8]) -> Option<&'a [u8]>
    ensures found { IfSome result (λ rest. text.now ≡ prefix.now ++ rest.now) }
    ensures none { IfNone result ((rest : List ℕ) → text.now ≡ prefix.now ++ rest → ⊥) }
{
    text.strip_prefix(prefix)
}

/// What precedes this suffix, if the text ends with it.
pub(crate) fn before_suffix<'a>(suffix: &[u8], text: &'a [u8]) -> Option<&'a [u8]>
    ensures found { IfSome result (λ prefix. text.now ≡ prefix.now ++ suffix.now) }
    ensures none { IfNone result ((prefix : List ℕ) → text.now ≡ prefix ++ suffix.now → ⊥) }
{
    text.strip_suffix(suffix)
}
