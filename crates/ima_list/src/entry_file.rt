//! Which file an entry is of.

ghost use Rattle.std.specs.Prelude.{◌≡◌, option_map};
ghost use Rattle.ima_list.specs.EntryFiles.{digest_by_kind, file_of, kernel_file_of, told_by_fields, told_of};
ghost use Rattle.ima_list.specs.KernelFields.{fields_left};

use crate::entry_ref::EntryRef;
use crate::field_kind::{digest_in_field, path_in_field};
use crate::kernel_field::{DigestType, KernelField, typed_digest_in_field};
use crate::kernel_fields::{FieldContent, KernelFields};
use pcr_banks::Digest;

/// The digest of the file's content that the entry has, and the file's path without a NUL. For the template `ima-buf` these are the digest
/// of the bytes that were measured, and their name. `None` where the entry has no such digest: its template is unknown, its payload is not
/// exactly its fields, or its digest is one by fs-verity, which is not of the content alone.
pub fn file_of<'a>(entry: &EntryRef<'a>) -> Option<(Digest, &'a [u8])>
    ensures { option_map told_of result ≡ file_of entry.now }
{
    if let Some(fields) = entry.fields() {
        return Some((fields.file, fields.path));
    }
    file_in(entry.kernel_fields()?)
}

/// As [`file_of`], for an entry of one of the templates of [`EntryRef::kernel_fields`]; `None` for those of [`crate::Template`].
pub fn kernel_file_of<'a>(entry: &EntryRef<'a>) -> Option<(Digest, &'a [u8])>
    ensures { option_map told_of result ≡ kernel_file_of entry.now }
{
    file_in(entry.kernel_fields()?)
}

// The same by the fields of one of the kernel's other templates.
fn file_in(fields: KernelFields<'_>) -> Option<(Digest, &[u8])>
    ensures { option_map told_of result ≡ told_by_fields (fields_left fields.entry) }
{
    let mut left = fields;
    let first = left.next_field()?;
    let second = left.next_field()?;
    Some((digest_in(first)?, path_in_field(second.content)?))
}

// The digest of a file's content in this field.
fn digest_in(field: FieldContent<'_>) -> Option<Digest>
    ensures { result ≡ digest_by_kind field.entry.kind field.entry.content.now }
{
    match field.kind {
        KernelField::NamedDigest => digest_in_field(field.content),
        KernelField::TypedDigest => match typed_digest_in_field(field.content)? {
            (DigestType::Ima, digest) => Some(digest),
            (DigestType::Verity, _) => None,
        },
        _ => None,
    }
}
