//! Texts for people, in which no character steers what shows them.

ghost use Rattle.std.specs.Prelude.{◌≡◌, ℕ, ◌%◌, [], List, ◌++◌, OnOk, OnErr, chars, codes, flat_map};
ghost use Rattle.std.specs.Char.{digit_char};
ghost use Rattle.std.specs.Str.{IsUtf8};
ghost use Rattle.json.specs.Print.{print};
ghost use Rattle.event_lines.specs.SteeringTexts.{is_steering, told_character, unicode_escape, unsteered};

use cells::Written;
use json::Writer;
use std::str;

/// Appends the line of the JSON that the writer holds, with each character that steers what shows it as its escape. Fails only if memory runs
/// out; the vector then is as before.
#[tactic(auto, using(cells::proofs::WrittenLaws::with_line_feed))]
pub fn append_embedded(writer: Writer, lines: &mut Vec<u8>) -> Written
    requires { writer.before ≡ [] }
    ensures ok { OnOk result (lines.new.items ≡ lines.old.items ++ unsteered (print writer.tokens ++ codes "\n")) }
    ensures err { OnErr result (lines.new.items ≡ lines.old.items) }
{
    let mut line = writer.into_inner();
    line.push(b'\n')?;
    append_unsteered(&line, lines)
}

// Appends a line of JSON so.
fn append_unsteered(line: &[u8], lines: &mut Vec<u8>) -> Written
    requires { IsUtf8 line.now }
    ensures ok { OnOk result (lines.new.items ≡ lines.old.items ++ unsteered line.now) }
    ensures err { OnErr result (lines.new.items ≡ lines.old.items) }
{
    let Ok(text) = str::from_utf8(line) else {
        unreachable!();
    };
    let start = lines.len();
    let appended = append_characters(text, lines);
    if appended.is_err() {
        lines.truncate(start);
    }
    appended
}

// Appends each character, as it is or as its escape. If memory runs out, some are appended.
fn append_characters(text: &str, lines: &mut Vec<u8>) -> Written
    ensures ok { OnOk result (lines.new.items ≡ lines.old.items ++ flat_map told_character (chars text.now)) }
    ensures err { OnErr result ((some : List ℕ) × (lines.new.items ≡ lines.old.items ++ some)) }
{
    for character in text.chars() {
        append_character(character, lines)?;
    }
    Ok(())
}

// Appends a character, as it is or as its escape.
#[tactic(auto, unfolding(crate::specs::SteeringTexts::told_character))]
fn append_character(character: char, lines: &mut Vec<u8>) -> Written
    ensures ok { OnOk result (lines.new.items ≡ lines.old.items ++ told_character character) }
    ensures err { OnErr result (lines.new.items ≡ lines.old.items) }
{
    if is_steering(character) {
        lines.extend_from_slice(&escape_of(character as u32))
    } else {
        lines.extend_from_slice(character.encode_utf8(&mut [0; 4]).as_bytes())
    }
}

// Whether a character steers what shows a text: a control character from U+007F on, a separator of lines, or one that turns the direction.
fn is_steering(character: char) -> bool
    ensures { result ≡ is_steering character }
{
    matches!(
        character,
        '\u{7f}'..='\u{9f}'
            | '\u{2028}'..='\u{2029}'
            | '\u{61c}'
            | '\u{200e}'..='\u{200f}'
            | '\u{202a}'..='\u{202e}'
            | '\u{2066}'..='\u{2069}'
    )
}

// The escape of a character below U+10000.
fn escape_of(character: u32) -> [u8; 6]
    ensures { result ≡ unicode_escape character }
{
    [
        b'\\',
        b'u',
        digit_of(character / 4096),
        digit_of(character / 256),
        digit_of(character / 16),
        digit_of(character),
    ]
}

// The last digit of a number in hexadecimal.
fn digit_of(number: u32) -> u8
    ensures { result ≡ digit_char (number % 16) }
{
    let digit = (number % 16) as u8;
    if digit < 10 {
        b'0' + digit
    } else {
        b'a' - 10 + digit
    }
}
