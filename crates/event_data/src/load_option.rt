//! Load options and boot orders.

ghost use Rattle.std.specs.Prelude.{◌≡◌, [], Some, IfSome, option_map, ◌<◌, ◌∷◌, ◌++◌, ℕ, List, length, IfNone};
ghost use Rattle.byte_fields.specs.Reading.{Reads};
ghost use Rattle.byte_fields.specs.Items.{BeginsWithNoItem};
ghost use Rattle.byte_fields.specs.Spelling.{IsBytes};
ghost use Rattle.event_data.specs.ValueForms.{IsLoadOption, LoadOptionData, IsBootNumber};
ghost use Rattle.event_data.specs.ValueReading.{load_option, load_option_in, numbers_in};
ghost use Rattle.event_data.specs.ValueViews.{load_option_of};

use crate::content::Mismatch;
use crate::text::units_at;
use byte_fields::{part_at, u16_at, u32_at};

/// A load option, which says what to boot (UEFI 2.10, section 3.1.3, `EFI_LOAD_OPTION`).
#[derive(Clone, Copy)]
pub struct LoadOption<'a> {
    /// The attributes: bit 0 is set in an active option.
    pub attributes: u32,
    /// The description for people: units of UTF-16, little endian, with no NUL at the end.
    pub description: &'a [u8],
    /// The device path list: nodes, one after another.
    pub path: &'a [u8],
    /// The optional data, which is given to what is booted. It may be empty.
    pub optional_data: &'a [u8],
}

// Reads the load option at the start of the bytes, whose optional data is all that remains.
#[tactic(auto, unfolding(crate::specs::ValueReading::load_option))]
fn whole_load_option(bytes: &[u8]) -> Result<LoadOption<'_>, Mismatch>
    ensures { Reads (λ x. (record (load_option_of x) { optional_data = [] }, x.optional_data.now)) result (load_option.at bytes.now) }
{
    let (attributes, rest) = u32_at(Mismatch::Form, bytes)?;
    let (size, rest) = u16_at(Mismatch::Form, rest)?;
    let (description, rest) = units_at(rest)?;
    let (path, optional_data) = part_at(Mismatch::Form, size as usize, rest)?;
    Ok(LoadOption {
        attributes,
        description,
        path,
        optional_data,
    })
}

/// The load option that the bytes are; `None` where they are none.
pub fn read_load_option(bytes: &[u8]) -> Option<LoadOption<'_>>
    ensures value { option_map load_option_of result ≡ load_option_in bytes.now }
    ensures found { IfSome result (λ found. IsLoadOption bytes.now (load_option_of found)) }
    ensures only { (value : LoadOptionData) → IsLoadOption bytes.now value → option_map load_option_of result ≡ Some value }
{
    match whole_load_option(bytes) {
        Ok(option) => Some(option),
        Err(_) => None,
    }
}

/// The order in which load options are tried (UEFI 2.10, section 3.3, `BootOrder`): their numbers, which are lent one after another.
#[derive(Clone, Copy)]
pub struct BootOrder<'a> {
    rest: &'a [u8],
    ghost fits: { IsBytes rest.now },
}

impl<'a> BootOrder<'a> {
    ghost use Rattle.event_data.specs.ValueRests.{numbers_left};

    /// The order with these bytes, of which no number was lent yet.
    pub fn new(bytes: &'a [u8]) -> Self
        ensures { numbers_left result ≡ bytes.now }
    {
        BootOrder { rest: bytes }
    }

    /// The next number, or `None` after the last.
    pub fn next_number(&mut self) -> Option<u16>
        ensures number { IfSome result (λ found. (prefix : List ℕ) × (numbers_left self.old ≡ prefix ++ numbers_left self.new)
            × IsBootNumber prefix found) }
        ensures none { IfNone result (BeginsWithNoItem IsBootNumber (numbers_left self.old) × (self.new ≡ self.old)) }
        // The numbers that are left are this one, and those that are left then.
        ensures more { IfSome result (λ found. numbers_in (numbers_left self.old)
            ≡ (found ∷ (numbers_in (numbers_left self.new)).0, (numbers_in (numbers_left self.new)).1)) }
        ensures last { IfNone result (numbers_in (numbers_left self.old) ≡ ([], numbers_left self.old)) }
        ensures shorter { IfSome result (λ _. length (numbers_left self.new) < length (numbers_left self.old)) }
    {
        match u16_at(Mismatch::Form, self.rest) {
            Ok((number, rest)) => {
                self.rest = rest;
                Some(number)
            }
            Err(_) => None,
        }
    }
}
