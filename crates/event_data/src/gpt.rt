//! A table of partitions, and its partitions, lent one after another.

ghost use Rattle.std.specs.Prelude.{◌≡◌, ◌≤◌, length, [], ◌∷◌, IfSome, IfNone};
ghost use Rattle.byte_fields.specs.Spelling.{IsBytes};

use crate::gpt_reader::entry_at;

/// A table of a disk's partitions that was measured (PC Client Platform Firmware Profile, `UEFI_GPT_DATA`).
#[derive(Clone, Copy)]
pub struct Gpt<'a> {
    /// The disk's GUID, 16 bytes.
    pub disk: &'a [u8],
    // The number of bytes of an entry.
    entry_size: u32,
    // The entries, one after another.
    entries: &'a [u8],
    ghost disk_size: { length disk.now ≡ 16 },
    ghost wide: { 128 ≤ entry_size },
}

impl<'a> Gpt<'a> {
    ghost use Rattle.event_data.specs.GptReading.{partitions_in};
    ghost use Rattle.event_data.specs.Gpts.{gpt_of, partitions_left};

    // The table with these entries, of `entry_size` bytes each.
    pub(crate) fn new(disk: &'a [u8], entry_size: u32, entries: &'a [u8]) -> Self
        requires disk_size { length disk.now ≡ 16 }
        requires wide { 128 ≤ entry_size }
        ensures { gpt_of result ≡ record { disk = disk.now; partitions = partitions_in entry_size entries.now } }
    {
        Gpt {
            disk,
            entry_size,
            entries,
        }
    }

    /// The disk's partitions, of which none was lent yet.
    pub fn partitions(&self) -> Partitions<'a>
        ensures { partitions_left result ≡ (gpt_of self.now).partitions }
    {
        Partitions::new(self.entry_size, self.entries)
    }
}

/// A partition of a disk (UEFI 2.10, section 5.3.3, 'GPT Partition Entry Array').
#[derive(Clone, Copy)]
pub struct Partition<'a> {
    /// The GUID of the partition's type, 16 bytes.
    pub kind: &'a [u8],
    /// The partition's own GUID, 16 bytes.
    pub guid: &'a [u8],
    /// Its first logical block.
    pub first: u64,
    /// Its last logical block.
    pub last: u64,
    /// Its attributes, a bit each.
    pub attributes: u64,
    /// Its name: units of UTF-16, little endian, up to the first that is NUL; at most 72 bytes.
    pub name: &'a [u8],
    ghost kind_size: { length kind.now ≡ 16 },
    ghost guid_size: { length guid.now ≡ 16 },
}

/// The partitions of a disk, which are lent one after another.
#[derive(Drop)]
pub struct Partitions<'a> {
    size: u32,
    rest: &'a [u8],
    ghost wide: { 128 ≤ size },
    ghost fits: { IsBytes rest.now },
}

impl<'a> Partitions<'a> {
    ghost use Rattle.event_data.specs.Entries.{partition_of};
    ghost use Rattle.event_data.specs.GptReading.{partitions_in};
    ghost use Rattle.event_data.specs.Gpts.{partitions_left};

    // The partitions in these entries, of `size` bytes each.
    pub(crate) fn new(size: u32, entries: &'a [u8]) -> Self
        requires { 128 ≤ size }
        ensures { partitions_left result ≡ partitions_in size entries.now }
    {
        Partitions {
            size,
            rest: entries,
        }
    }

    /// The next partition, or `None` after the last.
    pub fn next_partition(&mut self) -> Option<Partition<'a>>
        // The partitions that are left are this one, and those that are left then.
        ensures more { IfSome result (λ found. partitions_left self.old ≡ partition_of found ∷ partitions_left self.new) }
        ensures last { IfNone result ((partitions_left self.old ≡ []) × (self.new ≡ self.old)) }
    {
        match entry_at(self.size, self.rest) {
            Ok((partition, rest)) => {
                self.rest = rest;
                Some(partition)
            }
            Err(_) => None,
        }
    }
}
