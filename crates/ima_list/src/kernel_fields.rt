//! The fields of an entry of one of the kernel's other templates, lent one after another.

ghost use Rattle.std.specs.Prelude.{◌≡◌, ◌↔◌, ◌∷◌, ◌<◌, ◌^◌, [], List, Some, length, option_map, IfSome, IfNone};
ghost use Rattle.ima_list.specs.KernelFields.{AreFields, FieldData, HasKernelFields, field_at, fields_in, field_of, fields_left, is_read, kernel_fields_of, left_of, read_of};

use crate::entry_ref::EntryRef;
use crate::kernel_field::{KernelField, kernel_row};
use byte_fields::sized_at;

/// A field of an entry.
#[derive(Clone, Copy)]
pub struct FieldContent<'a> {
    /// Its kind.
    pub kind: KernelField,
    /// Its content, which fits the kind.
    pub content: &'a [u8],
}

/// The fields of an entry, of which some were lent already.
#[derive(Clone, Copy)]
pub struct KernelFields<'a> {
    row: &'static [KernelField],
    rest: &'a [u8],
}

impl<'a> KernelFields<'a> {
    /// The next field, or `None` after the last.
    #[tactic(auto, unfolding(crate::specs::KernelFields::fields_at))]
    pub fn next_field(&mut self) -> Option<FieldContent<'a>>
        ensures more { IfSome result (λ field. fields_left self.old ≡ field_of field ∷ fields_left self.new) }
        ensures left { IfSome result (λ _. is_read self.new ≡ is_read self.old) }
        ensures shorter { IfSome result (λ _. length (left_of self.new).0 < length (left_of self.old).0) }
        ensures last { IfNone result ((read_of self.old ≡ ([], left_of self.old)) × (self.new ≡ self.old)) }
    {
        let [kind, row @ ..] = self.row else {
            return None;
        };
        let (content, rest) = field_at(*kind, self.rest)?;
        self.row = row;
        self.rest = rest;
        Some(FieldContent {
            kind: *kind,
            content,
        })
    }

    // Whether all that is left are the fields of the row.
    fn are_read(self) -> bool
        ensures { result ≡ is_read self.entry }
    {
        let mut left = self;
        while left.next_field().is_some() {}
        left.row.is_empty() && left.rest.is_empty()
    }
}

// The content of the field of this kind at the start of the bytes, and what follows it.
fn field_at(kind: KernelField, bytes: &[u8]) -> Option<(&[u8], &[u8])>
    ensures { option_map (λ x. (x.0.now, x.1.now)) result ≡ field_at kind bytes.now }
{
    let (content, rest) = sized_at((), bytes).ok()?;
    if kind.is_content(content) {
        Some((content, rest))
    } else {
        None
    }
}

impl<'a> EntryRef<'a> {
    /// The fields of an entry of the kernel's templates `ima-ngv2`, `ima-sigv2`, `ima-buf`, `ima-modsig` and `evm-sig` (Linux kernel
    /// documentation, 'IMA Template Management Mechanism'). `None` unless the template is one of these and the payload is exactly its
    /// fields, each with its length before it, and each of a content that fits its kind.
    pub fn kernel_fields(&self) -> Option<KernelFields<'a>>
        ensures value { option_map fields_left result ≡ kernel_fields_of self.now }
        ensures are { (fields : List FieldData) → (option_map fields_left result ≡ Some fields) ↔ HasKernelFields self.now fields }
    {
        let payload = self.payload();
        fields_in(kernel_row(self.name())?, payload)
    }
}

// The fields that the payload is, of the kinds of this row.
fn fields_in<'a>(row: &'static [KernelField], payload: &'a [u8]) -> Option<KernelFields<'a>>
    ensures value { option_map fields_left result ≡ fields_in row.now payload.now }
    ensures are { (fields : List FieldData) → (option_map fields_left result ≡ Some fields) ↔ AreFields row.now payload.now fields }
{
    let fields = KernelFields { row, rest: payload };
    if fields.are_read() {
        Some(fields)
    } else {
        None
    }
}
