//! Texts for a terminal.

ghost use Rattle.std.specs.Prelude.{◌≡◌, ◌<◌, ◌++◌, ◌∷◌, [], true, map, slice_index, string_bytes, IfOk, OnOk};
ghost use Rattle.std.specs.List.{list_all};
ghost use Rattle.hex.specs.Hex.{lower_digits};
ghost use Rattle.hints.specs.Escaping.{escape, escaped_byte, is_printable, is_shown};

use std::alloc::{AllocError, Global};

/// The digits of an escaped byte.
const DIGITS: &[u8; 16] = b"0123456789abcdef";

/// The text with each byte that is not a printable character of ASCII written as `\x` and two hexadecimal digits. So it has no line
/// feed, and nothing that a terminal acts upon, whatever its encoding.
pub fn escape(alloc: Global, text: &str) -> Result<String, AllocError>
    ensures text { IfOk result (λ shown. string_bytes shown ≡ escape text.now) }
    ensures printable { IfOk result (λ shown. list_all is_printable (string_bytes shown) ≡ true) }
{
    let mut shown = String::new(alloc);
    let bytes = text.as_bytes();
    for byte in bytes {
        push_escaped(&mut shown, *byte)?;
    }
    Ok(shown)
}

// Appends a byte as it is shown.
fn push_escaped(shown: &mut String, byte: u8) -> Result<(), AllocError>
    ensures text { OnOk result (string_bytes shown.new ≡ string_bytes shown.old ++ escaped_byte byte) }
    ensures printable { list_all is_printable (escaped_byte byte) ≡ true }
{
    if is_printable(byte) {
        return shown.push(char::from(byte));
    }
    shown.push_str("\\x")?;
    shown.push(digit(byte / 16))?;
    shown.push(digit(byte % 16))?;
    Ok(())
}

// Whether this is a printable character of ASCII.
fn is_printable(byte: u8) -> bool
    ensures { result ≡ is_printable byte }
{
    matches!(byte, b' '..=b'~')
}

// The hexadecimal digit of this value.
fn digit(value: u8) -> char
    requires { value < 16 }
    ensures digit { result ≡ slice_index lower_digits value }
    ensures printable { is_printable result ≡ true }
{
    char::from(DIGITS[value as usize])
}

/// The text as one line, escaped, with its line feed.
pub(crate) fn shown_line(alloc: Global, text: &str) -> Result<String, AllocError>
    ensures text { IfOk result (λ line. string_bytes line ≡ escape text.now ++ 10 ∷ []) }
    ensures shown { IfOk result (λ line. list_all is_shown (string_bytes line) ≡ true) }
{
    let mut line = escape(alloc, text)?;
    line.push('\n')?;
    Ok(line)
}

/// Each line of the text, escaped, with its line feed.
pub(crate) fn shown_lines(alloc: Global, text: &str) -> Result<String, AllocError>
    ensures { IfOk result (λ lines. list_all is_shown (string_bytes lines) ≡ true) }
{
    let mut lines = String::new(alloc);
    for line in text.lines() {
        let shown = shown_line(alloc, line)?;
        lines.push_str(&shown)?;
    }
    Ok(lines)
}

/// The texts, escaped.
pub(crate) fn escape_each(alloc: Global, texts: &[String]) -> Result<Vec<String>, AllocError>
    ensures { IfOk result (λ shown. map string_bytes shown.items ≡ map (λ text. escape (string_bytes text)) texts.now) }
{
    let mut shown = Vec::with_capacity(alloc, texts.len())?;
    for text in texts {
        shown.push(escape(alloc, text)?)?;
    }
    Ok(shown)
}
