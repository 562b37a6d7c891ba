//! A signature by ECDSA alone: its numbers in DER (RFC 3279, section 2.2.3).

ghost use Rattle.std.specs.Prelude.{ℕ, List, Ok, IfOk};
ghost use Rattle.byte_fields.specs.Reading.{Reads};
ghost use Rattle.signed_messages.specs.Plain.{IsPlain};
ghost use Rattle.signed_messages.specs.parts.PlainReading.{behind_zero, content, number, number_with, numbers_in, plain_in, positive, size, sized, tag};

use byte_fields::{part_at, u8_at};

// The tag of a number.
const INTEGER: u8 = 0x02;

// The tag of a sequence.
const SEQUENCE: u8 = 0x30;

// The most that has its first bit clear.
const MOST_POSITIVE: u8 = 0x7F;

/// Why bytes are not the numbers of a signature alone.
#[derive(Clone, Copy)]
pub(crate) enum PlainFault {
    /// They are not two numbers in DER.
    NotPlain,
}

/// Reads the numbers r and s of a signature from all of the bytes, as `tpm2_quote -f plain` writes them for a key on a curve.
pub(crate) fn plain_numbers(bytes: &[u8]) -> Result<(&[u8], &[u8]), PlainFault>
    ensures found { IfOk result (λ x. IsPlain bytes.now x.0.now x.1.now) }
    ensures only { (r s : List ℕ) → IsPlain bytes.now r s → Reads {Y = List ℕ × List ℕ} (λ x. (x.0.now, x.1.now)) result (Ok (r, s)) }
{
    plain_in(bytes)
}

// Reads all of the bytes.
#[tactic(auto, unfolding(crate::specs::parts::PlainReading::plain_in))]
fn plain_in(bytes: &[u8]) -> Result<(&[u8], &[u8]), PlainFault>
    ensures { Reads (λ x. (x.0.now, x.1.now)) result (plain_in bytes.now) }
{
    let (framed, after) = content_at(SEQUENCE, bytes)?;
    if !after.is_empty() {
        return Err(PlainFault::NotPlain);
    }
    numbers_in(framed)
}

// Reads two numbers, from all of the bytes.
#[tactic(auto, unfolding(crate::specs::parts::PlainReading::numbers_in))]
fn numbers_in(bytes: &[u8]) -> Result<(&[u8], &[u8]), PlainFault>
    ensures { Reads (λ x. (x.0.now, x.1.now)) result (numbers_in bytes.now) }
{
    let (r, rest) = number_at(bytes)?;
    let (s, rest) = number_at(rest)?;
    if !rest.is_empty() {
        return Err(PlainFault::NotPlain);
    }
    Ok((r, s))
}

// Reads a number. Returns its bytes, without a zero before them, and the remaining bytes.
#[tactic(auto, unfolding(crate::specs::parts::PlainReading::number))]
fn number_at(bytes: &[u8]) -> Result<(&[u8], &[u8]), PlainFault>
    ensures { Reads (λ x. (x.0.now, x.1.now)) result (number.at bytes.now) }
{
    let (content, rest) = content_at(INTEGER, bytes)?;
    let number = number_with(content)?;
    Ok((number, rest))
}

// The bytes of the number with this content, which is positive, and spelled in as few bytes as it can be.
#[tactic(auto, unfolding(crate::specs::parts::PlainReading::number_with))]
fn number_with(content: &[u8]) -> Result<&[u8], PlainFault>
    ensures { Reads (λ number. number.now) result (number_with content.now) }
{
    let (first, rest) = u8_at(PlainFault::NotPlain, content)?;
    if first > 0 {
        positive(first, content)
    } else {
        behind_zero(rest)
    }
}

// The bytes of a number that begins with `first`.
fn positive(first: u8, content: &[u8]) -> Result<&[u8], PlainFault>
    ensures { Reads (λ number. number.now) result (positive first content.now) }
{
    if first > MOST_POSITIVE {
        return Err(PlainFault::NotPlain);
    }
    Ok(content)
}

// The bytes of a number behind a zero, without which it were negative.
#[tactic(auto, unfolding(crate::specs::parts::PlainReading::behind_zero))]
fn behind_zero(number: &[u8]) -> Result<&[u8], PlainFault>
    ensures { Reads (λ number. number.now) result (behind_zero number.now) }
{
    let (first, _) = u8_at(PlainFault::NotPlain, number)?;
    if first > MOST_POSITIVE {
        Ok(number)
    } else {
        Err(PlainFault::NotPlain)
    }
}

// Reads a value with this tag. Returns its content and the remaining bytes.
#[tactic(auto, unfolding(crate::specs::parts::PlainReading::content))]
fn content_at(wanted: u8, bytes: &[u8]) -> Result<(&[u8], &[u8]), PlainFault>
    ensures { Reads (λ x. (x.0.now, x.1.now)) result ((content wanted).at bytes.now) }
{
    let rest = tag_at(wanted, bytes)?;
    sized_at(rest)
}

// Reads this tag. Returns the remaining bytes.
#[tactic(auto, unfolding(crate::specs::parts::PlainReading::tag))]
fn tag_at(wanted: u8, bytes: &[u8]) -> Result<&[u8], PlainFault>
    ensures { Reads (λ x. (wanted, x.now)) result ((tag wanted).at bytes.now) }
{
    let (id, rest) = u8_at(PlainFault::NotPlain, bytes)?;
    if id != wanted {
        return Err(PlainFault::NotPlain);
    }
    Ok(rest)
}

// Reads bytes behind their length. Returns them and the remaining bytes.
#[tactic(auto, unfolding(crate::specs::parts::PlainReading::sized))]
fn sized_at(bytes: &[u8]) -> Result<(&[u8], &[u8]), PlainFault>
    ensures { Reads (λ x. (x.0.now, x.1.now)) result (sized.at bytes.now) }
{
    let (count, rest) = size_at(bytes)?;
    part_at(PlainFault::NotPlain, count as usize, rest)
}

// Reads a length in one byte. Returns it and the remaining bytes.
#[tactic(auto, unfolding(crate::specs::parts::PlainReading::size))]
fn size_at(bytes: &[u8]) -> Result<(u8, &[u8]), PlainFault>
    ensures { Reads (λ x. (x.0, x.1.now)) result (size.at bytes.now) }
{
    let (count, rest) = u8_at(PlainFault::NotPlain, bytes)?;
    if count > MOST_POSITIVE {
        return Err(PlainFault::NotPlain);
    }
    Ok((count, rest))
}
