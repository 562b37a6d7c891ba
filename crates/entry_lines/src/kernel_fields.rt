//! The fields of entries with the kernel's other templates.

ghost use Rattle.std.specs.Prelude.{◌≡◌, ◌<◌, [], ◌∷◌, codes, length, option_map, Some, IfSome, IfNone};
ghost use Rattle.pcr_banks.specs.Names.{alg_of, bytes_of};
ghost use Rattle.ima_list.specs.Names.{fields_left};
ghost use Rattle.cells.specs.Values.{array_of, number_json, shown_member};
ghost use Rattle.entry_lines.specs.KernelFieldJson.{digest_members, ended, field_members, fields_json, fields_members, number16_members, number32_members, numbers_in, typed_members};
ghost use Rattle.cells.specs.Writing.{WritesItems, WritesMembers};

use cells::{Written, write_hex, write_number, write_shown, write_text};
use ima_list::{
    DigestType, FieldContent, KernelField, KernelFields, digest_in_field, path_in_field,
    typed_digest_in_field,
};
use json::Writer;
use pcr_banks::Digest;
use std::alloc::Global;

/// Writes the member `fields`: an object with a member or two for each field.
pub(crate) fn write_fields(alloc: Global, fields: KernelFields<'_>, writer: &mut Writer) -> Written
    ensures { WritesMembers result writer.old writer.new ((codes "fields", fields_json (fields_left fields.entry)) ∷ []) }
{
    writer.key("fields")?;
    writer.begin_object()?;
    write_each(alloc, fields, writer)?;
    writer.end_object()?;
    Ok(())
}

// Writes the members of each field.
fn write_each(alloc: Global, fields: KernelFields<'_>, writer: &mut Writer) -> Written
    ensures { WritesMembers result writer.old writer.new (fields_members (fields_left fields.entry)) }
{
    let mut left = fields;
    while let Some(field) = left.next_field() {
        write_field(alloc, field, writer)?;
    }
    Ok(())
}

// Writes the members of a field.
fn write_field(alloc: Global, field: FieldContent<'_>, writer: &mut Writer) -> Written
    ensures { WritesMembers result writer.old writer.new (field_members field.entry.kind field.entry.content.now) }
{
    let content = field.content;
    match field.kind {
        KernelField::NamedDigest => {
            write_digest(
                alloc,
                "algorithm",
                "digest",
                digest_in_field(content),
                writer,
            )
        }
        KernelField::ModsigDigest => {
            let digest = digest_in_field(content);
            write_digest(alloc, "modsig_algorithm", "modsig_digest", digest, writer)
        }
        KernelField::TypedDigest => {
            write_typed_digest(alloc, typed_digest_in_field(content), writer)
        }
        KernelField::Path => write_ended(alloc, "path", "path_hex", content, writer),
        KernelField::XattrNames => {
            write_ended(alloc, "xattr_names", "xattr_names_hex", content, writer)
        }
        KernelField::Signature => write_hex(alloc, "signature", content, writer),
        KernelField::Modsig => write_hex(alloc, "modsig", content, writer),
        KernelField::Buffer => write_hex(alloc, "buffer", content, writer),
        KernelField::EvmSignature => write_hex(alloc, "evm_signature", content, writer),
        KernelField::XattrValues => write_hex(alloc, "xattr_values", content, writer),
        KernelField::XattrLengths => write_lengths(content, writer),
        KernelField::User => write_u32("uid", content, writer),
        KernelField::Group => write_u32("gid", content, writer),
        KernelField::Mode => write_u16("mode", content, writer),
    }
}

// Writes a digest and its algorithm, if there is one.
fn write_digest(
    alloc: Global,
    alg_name: &str,
    name: &str,
    digest: Option<Digest>,
    writer: &mut Writer,
) -> Written
    ensures { WritesMembers result writer.old writer.new
        (digest_members alg_name.now name.now (option_map (λ digest. (alg_of digest, bytes_of digest)) digest)) }
{
    match digest {
        Some(digest) => {
            write_text(alg_name, digest.alg().name(), writer)?;
            write_hex(alloc, name, digest.bytes(), writer)
        }
        None => Ok(()),
    }
}

// Writes a digest, and what it is of, if there is one.
fn write_typed_digest(
    alloc: Global,
    typed: Option<(DigestType, Digest)>,
    writer: &mut Writer,
) -> Written
    ensures { WritesMembers result writer.old writer.new (typed_members (option_map (λ x. (x.0, (alg_of x.1, bytes_of x.1))) typed)) }
{
    match typed {
        Some((of, digest)) => write_typed(alloc, of, digest, writer),
        None => Ok(()),
    }
}

// Writes a digest, and what it is of.
fn write_typed(alloc: Global, of: DigestType, digest: Digest, writer: &mut Writer) -> Written
    ensures { WritesMembers result writer.old writer.new (typed_members (Some (of, (alg_of digest, bytes_of digest)))) }
{
    write_text("digest_type", of.name(), writer)?;
    write_digest(alloc, "algorithm", "digest", Some(digest), writer)?;
    Ok(())
}

// Writes a text that ends with its only NUL, without that.
fn write_ended(
    alloc: Global,
    name: &str,
    hex_name: &str,
    content: &[u8],
    writer: &mut Writer,
) -> Written
    ensures { WritesMembers result writer.old writer.new (shown_member name.now hex_name.now (ended content.now) ∷ []) }
{
    let text = match path_in_field(content) {
        Some(text) => text,
        None => content,
    };
    write_shown(alloc, name, hex_name, text, writer)
}

// Writes the numbers of four bytes each.
fn write_lengths(content: &[u8], writer: &mut Writer) -> Written
    ensures { WritesMembers result writer.old writer.new ((codes "xattr_lengths", array_of (numbers_in content.now)) ∷ []) }
{
    writer.key("xattr_lengths")?;
    writer.begin_array()?;
    write_numbers(content, writer)?;
    writer.end_array()?;
    Ok(())
}

// Writes each number.
fn write_numbers(content: &[u8], writer: &mut Writer) -> Written
    ensures { WritesItems result writer.old writer.new (numbers_in content.now) }
{
    let mut left = content;
    while let Some((number, rest)) = first_number(left) {
        writer.u64(number as u64)?;
        left = rest;
    }
    Ok(())
}

// The first number of four bytes, and what follows it.
#[tactic(auto, unfolding(crate::specs::KernelFieldJson::numbers_in))]
fn first_number(bytes: &[u8]) -> Option<(u32, &[u8])>
    ensures number { IfSome result (λ x. numbers_in bytes.now ≡ number_json x.0 ∷ numbers_in x.1.now) }
    ensures shorter { IfSome result (λ x. length x.1.now < length bytes.now) }
    ensures none { IfNone result (numbers_in bytes.now ≡ []) }
{
    match bytes {
        [a, b, c, d, rest @ ..] => Some((u32::from_le_bytes([*a, *b, *c, *d]), rest)),
        _ => None,
    }
}

// Writes the number of four bytes, if there is one.
fn write_u32(name: &str, content: &[u8], writer: &mut Writer) -> Written
    ensures { WritesMembers result writer.old writer.new (number32_members name.now content.now) }
{
    match content {
        [a, b, c, d] => write_number(name, u32::from_le_bytes([*a, *b, *c, *d]) as u64, writer),
        _ => Ok(()),
    }
}

// Writes the number of two bytes, if there is one.
fn write_u16(name: &str, content: &[u8], writer: &mut Writer) -> Written
    ensures { WritesMembers result writer.old writer.new (number16_members name.now content.now) }
{
    match content {
        [a, b] => write_number(name, u16::from_le_bytes([*a, *b]) as u64, writer),
        _ => Ok(()),
    }
}
