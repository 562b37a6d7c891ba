//! The readers of vendor tables that firmware hands over.

ghost use Rattle.std.specs.Prelude.{◌≡◌, ◌*◌, Some, IfSome, option_map};
ghost use Rattle.byte_fields.specs.Reading.{Reads, part_at};
ghost use Rattle.event_data.specs.declared.content.Mismatch.TheVariants.{Form};
ghost use Rattle.event_data.specs.Handoffs.{HandoffData, IsDescribedHandoff, IsHandoff};
ghost use Rattle.event_data.specs.HandoffReading.{counted_pointers, described_handoff, described_handoff_in, handoff, handoff_in, table};
ghost use Rattle.event_data.specs.HandoffViews.{handoff_of, table_of};

use crate::content::Mismatch;
use crate::handoff::{Handoff, Table};
use byte_fields::{part_at, u8_at, u64_at};

/// Reads the table at the start of the bytes. Returns it and the remaining bytes.
#[tactic(auto, unfolding(crate::specs::HandoffReading::table))]
pub(crate) fn table_at(bytes: &[u8]) -> Result<(Table<'_>, &[u8]), Mismatch>
    ensures { Reads (λ x. (table_of x.0, x.1.now)) result (table.at bytes.now) }
{
    let (vendor, rest) = part_at(Mismatch::Form, 16, bytes)?;
    let (address, rest) = u64_at(Mismatch::Form, rest)?;
    Ok((Table { vendor, address }, rest))
}

// Reads so many pointers of 24 bytes. Returns them and the remaining bytes.
fn pointers_at(count: u64, bytes: &[u8]) -> Result<(&[u8], &[u8]), Mismatch>
    ensures { Reads (λ x. (x.0.now, x.1.now)) result (part_at Form (24 * count) bytes.now) }
{
    if count > (bytes.len() / 24) as u64 {
        return Err(Mismatch::Form);
    }
    part_at(Mismatch::Form, 24 * count as usize, bytes)
}

// Reads the number of tables, and the pointers to them. Returns both and the remaining bytes.
fn counted_at(bytes: &[u8]) -> Result<((u64, &[u8]), &[u8]), Mismatch>
    ensures { Reads (λ x. ((x.0.0, x.0.1.now), x.1.now)) result (counted_pointers.at bytes.now) }
{
    let (count, rest) = u64_at(Mismatch::Form, bytes)?;
    let (pointers, rest) = pointers_at(count, rest)?;
    Ok(((count, pointers), rest))
}

// Reads the tables without a description at the start of the bytes. Returns them and the remaining bytes.
#[tactic(auto, unfolding(crate::specs::HandoffReading::handoff))]
fn handoff_at(bytes: &[u8]) -> Result<(Handoff<'_>, &[u8]), Mismatch>
    ensures { Reads (λ x. (handoff_of x.0, x.1.now)) result (handoff.at bytes.now) }
{
    let ((_, pointers), rest) = counted_at(bytes)?;
    let handoff = Handoff {
        description: None,
        pointers,
    };
    Ok((handoff, rest))
}

// Reads the tables with a description at the start of the bytes. Returns them and the remaining bytes.
#[tactic(auto, unfolding(crate::specs::HandoffReading::described_handoff))]
fn described_handoff_at(bytes: &[u8]) -> Result<(Handoff<'_>, &[u8]), Mismatch>
    ensures { Reads (λ x. (handoff_of x.0, x.1.now)) result (described_handoff.at bytes.now) }
{
    let (count, rest) = u8_at(Mismatch::Form, bytes)?;
    let (description, rest) = part_at(Mismatch::Form, count as usize, rest)?;
    let ((_, pointers), rest) = counted_at(rest)?;
    let handoff = Handoff {
        description: Some(description),
        pointers,
    };
    Ok((handoff, rest))
}

/// The handed over tables without a description that the bytes are; `None` where they are none.
pub fn read_handoff(bytes: &[u8]) -> Option<Handoff<'_>>
    ensures value { option_map handoff_of result ≡ handoff_in bytes.now }
    ensures found { IfSome result (λ found. IsHandoff bytes.now (handoff_of found)) }
    ensures only { (value : HandoffData) → IsHandoff bytes.now value → option_map handoff_of result ≡ Some value }
{
    match handoff_at(bytes) {
        Ok((handoff, rest)) if rest.is_empty() => Some(handoff),
        _ => None,
    }
}

/// The handed over tables with a description that the bytes are; `None` where they are none.
pub fn read_described_handoff(bytes: &[u8]) -> Option<Handoff<'_>>
    ensures value { option_map handoff_of result ≡ described_handoff_in bytes.now }
    ensures found { IfSome result (λ found. IsDescribedHandoff bytes.now (handoff_of found)) }
    ensures only { (value : HandoffData) → IsDescribedHandoff bytes.now value → option_map handoff_of result ≡ Some value }
{
    match described_handoff_at(bytes) {
        Ok((handoff, rest)) if rest.is_empty() => Some(handoff),
        _ => None,
    }
}
