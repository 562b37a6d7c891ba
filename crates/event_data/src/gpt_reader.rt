//! The readers of tables of partitions and of their entries.

ghost use Rattle.std.specs.Prelude.{◌≡◌, ◌≤◌, Some, IfSome, IfOk, length, option_map};
ghost use Rattle.byte_fields.specs.Reading.{Reads};
ghost use Rattle.event_data.specs.Gpts.{gpt_of};
ghost use Rattle.event_data.specs.GptForms.{GptData, IsGpt};
ghost use Rattle.event_data.specs.GptReading.{prefix_at, table_in, gpt_in, partition_at};
ghost use Rattle.event_data.specs.Entries.{partition_of};

use crate::content::Mismatch;
use crate::gpt::{Gpt, Partition};
use crate::text::{after_prefix, up_to_nul};
use byte_fields::{part_at, u32_at, u64_at};

// Reads the disk's GUID, the size of an entry and the number of entries, after the signature. Returns them and the remaining bytes.
#[tactic(auto, unfolding(crate::specs::GptReading::table_prefix))]
fn prefix_at(bytes: &[u8]) -> Result<((&[u8], u32, u64), &[u8]), Mismatch>
    ensures read { Reads (λ x. ((x.0.0.now, (x.0.1, x.0.2)), x.1.now)) result (prefix_at bytes.now) }
    ensures disk_size { IfOk result (λ x. length x.0.0.now ≡ 16) }
    ensures wide { IfOk result (λ x. 128 ≤ x.0.1) }
{
    let (_, rest) = part_at(Mismatch::Form, 48, bytes)?;
    let (disk, rest) = part_at(Mismatch::Form, 16, rest)?;
    let (_, rest) = part_at(Mismatch::Form, 12, rest)?;
    let (size, rest) = u32_at(Mismatch::Form, rest)?;
    if size < 128 {
        return Err(Mismatch::Form);
    }
    let (_, rest) = part_at(Mismatch::Form, 4, rest)?;
    let (count, rest) = u64_at(Mismatch::Form, rest)?;
    Ok(((disk, size, count), rest))
}

// All of the bytes after the signature as a table.
fn table_in(bytes: &[u8]) -> Result<Gpt<'_>, Mismatch>
    ensures { Reads gpt_of result (table_in bytes.now) }
{
    let ((disk, entry_size, count), entries) = prefix_at(bytes)?;
    match count.checked_mul(entry_size as u64) {
        Some(size) if size == entries.len() as u64 => Ok(Gpt::new(disk, entry_size, entries)),
        _ => Err(Mismatch::Form),
    }
}

/// The table of partitions that the bytes are; `None` where they are none.
pub fn read_gpt(bytes: &[u8]) -> Option<Gpt<'_>>
    ensures value { option_map gpt_of result ≡ gpt_in bytes.now }
    ensures found { IfSome result (λ found. IsGpt bytes.now (gpt_of found)) }
    ensures only { (value : GptData) → IsGpt bytes.now value → option_map gpt_of result ≡ Some value }
{
    match after_prefix(b"EFI PART", bytes) {
        Some(rest) => table_in(rest).ok(),
        None => None,
    }
}

/// Reads the entry of `size` bytes at the start of the bytes. Returns the partition and the remaining bytes.
#[tactic(auto, unfolding(crate::specs::GptReading::entry))]
pub(crate) fn entry_at(size: u32, bytes: &[u8]) -> Result<(Partition<'_>, &[u8]), Mismatch>
    requires { 128 ≤ size }
    ensures { Reads (λ x. (partition_of x.0, x.1.now)) result (partition_at size bytes.now) }
{
    let (kind, rest) = part_at(Mismatch::Form, 16, bytes)?;
    let (guid, rest) = part_at(Mismatch::Form, 16, rest)?;
    let (first, rest) = u64_at(Mismatch::Form, rest)?;
    let (last, rest) = u64_at(Mismatch::Form, rest)?;
    let (attributes, rest) = u64_at(Mismatch::Form, rest)?;
    let (name, rest) = part_at(Mismatch::Form, 72, rest)?;
    let (_, rest) = part_at(Mismatch::Form, size as usize - 128, rest)?;
    let partition = Partition {
        kind,
        guid,
        first,
        last,
        attributes,
        name: up_to_nul(name),
    };
    Ok((partition, rest))
}
