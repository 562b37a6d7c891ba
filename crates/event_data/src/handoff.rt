//! Vendor tables that firmware hands over, lent one after another.

ghost use Rattle.std.specs.Prelude.{◌≡◌, ◌<◌, [], ◌∷◌, ◌++◌, ℕ, List, IfSome, IfNone, length};
ghost use Rattle.byte_fields.specs.Items.{BeginsWithNoItem};
ghost use Rattle.byte_fields.specs.Spelling.{IsBytes};

use crate::handoff_reader::table_at;

/// Vendor tables that firmware hands over (PC Client Platform Firmware Profile, `UEFI_HANDOFF_TABLE_POINTERS` and
/// `UEFI_HANDOFF_TABLE_POINTERS2`).
#[derive(Clone, Copy)]
pub struct Handoff<'a> {
    /// What the firmware calls the tables: at most 255 bytes. `None` in the form that has no such part.
    pub description: Option<&'a [u8]>,
    /// The bytes that point to the tables, 24 for each.
    pub pointers: &'a [u8],
}

impl<'a> Handoff<'a> {
    ghost use Rattle.event_data.specs.HandoffViews.{handoff_of, pointers_left};

    /// The tables, of which none was lent yet.
    pub fn tables(&self) -> Tables<'a>
        ensures { pointers_left result ≡ (handoff_of self.now).pointers }
    {
        Tables::new(self.pointers)
    }
}

/// A vendor table (UEFI 2.10, section 4.6, `EFI_CONFIGURATION_TABLE`).
#[derive(Clone, Copy)]
pub struct Table<'a> {
    /// The GUID of the table, 16 bytes.
    pub vendor: &'a [u8],
    /// Where it was in memory.
    pub address: u64,
    ghost vendor_size: { length vendor.now ≡ 16 },
}

/// Vendor tables, which are lent one after another.
#[derive(Clone, Copy)]
pub struct Tables<'a> {
    rest: &'a [u8],
    ghost fits: { IsBytes rest.now },
}

impl<'a> Tables<'a> {
    ghost use Rattle.event_data.specs.HandoffReading.{pointers_in};
    ghost use Rattle.event_data.specs.HandoffViews.{pointers_left, table_of};
    ghost use Rattle.event_data.specs.Handoffs.{IsTable};

    // The tables with these pointers, of which none was lent yet.
    pub(crate) fn new(bytes: &'a [u8]) -> Self
        ensures { pointers_left result ≡ bytes.now }
    {
        Tables { rest: bytes }
    }

    /// The next table, or `None` after the last.
    pub fn next_table(&mut self) -> Option<Table<'a>>
        ensures table { IfSome result (λ found. (prefix : List ℕ) × (pointers_left self.old ≡ prefix ++ pointers_left self.new)
            × IsTable prefix (table_of found)) }
        ensures none { IfNone result (BeginsWithNoItem IsTable (pointers_left self.old) × (self.new ≡ self.old)) }
        // The tables that are left are this one, and those that are left then.
        ensures more { IfSome result (λ found. pointers_in (pointers_left self.old)
            ≡ (table_of found ∷ (pointers_in (pointers_left self.new)).0, (pointers_in (pointers_left self.new)).1)) }
        ensures last { IfNone result (pointers_in (pointers_left self.old) ≡ ([], pointers_left self.old)) }
        ensures shorter { IfSome result (λ _. length (pointers_left self.new) < length (pointers_left self.old)) }
    {
        match table_at(self.rest) {
            Ok((table, rest)) => {
                self.rest = rest;
                Some(table)
            }
            Err(_) => None,
        }
    }
}
