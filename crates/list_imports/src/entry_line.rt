//! The line that the kernel prints of an entry.

ghost use Rattle.std.specs.Prelude.{◌≡◌, ◌||◌, [], ◌++◌, OnOk, Some, decimal, is_some, option_map};
ghost use Rattle.hex.specs.Hex.{encode_lower};
ghost use Rattle.pcr_banks.specs.Names.{alg_of, bytes_of};
ghost use Rattle.ima_list.specs.Names.{fields_left, fields_of, kernel_fields_of, line_head, path_in_field};
ghost use Rattle.list_imports.specs.KernelLines.{is_kernel_template, kernel_line, line_with, printed_digest, printed_form, printed_forms, printed_number, printed_text, printed_typed_digest};

use ima_list::{
    DigestType, EntryRef, FieldContent, KernelField, KernelFields, digest_in_field, path_in_field,
    typed_digest_in_field,
};
use itoa::Buffer;
use pcr_banks::Digest;
use std::alloc::{AllocError, Global};

/// Whether a template of the kernel has this name.
pub(crate) fn is_kernel_template(name: &[u8]) -> bool
    ensures { result ≡ is_kernel_template name.now }
{
    name == "ima".as_bytes()
        || name == "ima-ng".as_bytes()
        || name == "ima-sig".as_bytes()
        || name == "ima-ngv2".as_bytes()
        || name == "ima-sigv2".as_bytes()
        || name == "ima-buf".as_bytes()
        || name == "ima-modsig".as_bytes()
        || name == "evm-sig".as_bytes()
}

/// Whether the entry has the fields of its template, so that its line is the kernel's.
pub(crate) fn has_printed_fields(entry: &EntryRef) -> bool
    ensures { result ≡ (is_some (fields_of entry.now) || is_some (kernel_fields_of entry.now)) }
{
    match entry.fields() {
        Some(_) => true,
        None => has_kernel_fields(entry),
    }
}

// Whether the entry has the fields of one of the kernel's templates that are read, and never made.
fn has_kernel_fields(entry: &EntryRef) -> bool
    ensures { result ≡ is_some (kernel_fields_of entry.now) }
{
    match entry.kernel_fields() {
        Some(_) => true,
        None => false,
    }
}

/// Appends the line of an entry that has fields.
pub(crate) fn append_line(
    alloc: Global,
    entry: &EntryRef,
    out: &mut Vec<u8>,
) -> Result<(), AllocError>
    ensures { OnOk result (out.new.items ≡ out.old.items ++ kernel_line entry.now) }
{
    match entry.kernel_fields() {
        Some(fields) => append_with_fields(alloc, entry, fields, out),
        None => entry.line(out),
    }
}

// Appends the line of an entry with these fields.
fn append_with_fields(
    alloc: Global,
    entry: &EntryRef,
    fields: KernelFields<'_>,
    out: &mut Vec<u8>,
) -> Result<(), AllocError>
    ensures { OnOk result (out.new.items ≡ out.old.items ++ line_with entry.now (Some (fields_left fields.entry))) }
{
    append_head(alloc, entry.register(), &entry.digest(), entry.name(), out)?;
    append_fields(alloc, fields, out)?;
    out.extend_from_slice(b"\n")?;
    Ok(())
}

/// Appends the line of an entry up to and with the template's name.
pub(crate) fn append_head(
    alloc: Global,
    register: u32,
    digest: &[u8; 20],
    name: &[u8],
    out: &mut Vec<u8>,
) -> Result<(), AllocError>
    ensures { OnOk result (out.new.items ≡ out.old.items
        ++ line_head (record { register = register; digest = digest.now; name = name.now; payload = [] })) }
{
    let space: &[u8] = if register < 10 { b" " } else { &[] };
    out.extend_from_slice(space)?;
    append_decimal(register, out)?;
    out.extend_from_slice(b" ")?;
    append_hexadecimal(alloc, digest, out)?;
    out.extend_from_slice(b" ")?;
    out.extend_from_slice(name)?;
    Ok(())
}

// Appends the printed forms of the fields, a space before each.
fn append_fields(
    alloc: Global,
    fields: KernelFields<'_>,
    out: &mut Vec<u8>,
) -> Result<(), AllocError>
    ensures { OnOk result (out.new.items ≡ out.old.items ++ printed_forms (fields_left fields.entry)) }
{
    let mut left = fields;
    while let Some(field) = left.next_field() {
        out.extend_from_slice(b" ")?;
        append_field(alloc, field, out)?;
    }
    Ok(())
}

// Appends the printed form of a field.
fn append_field(alloc: Global, field: FieldContent<'_>, out: &mut Vec<u8>) -> Result<(), AllocError>
    ensures { OnOk result (out.new.items ≡ out.old.items ++ printed_form field.entry.kind field.entry.content.now) }
{
    let content = field.content;
    match field.kind {
        KernelField::NamedDigest | KernelField::ModsigDigest => {
            append_digest(alloc, digest_in_field(content), out)
        }
        KernelField::TypedDigest => {
            append_typed_digest(alloc, typed_digest_in_field(content), out)
        }
        KernelField::Path | KernelField::XattrNames => append_text(content, out),
        KernelField::User | KernelField::Group | KernelField::Mode => append_number(content, out),
        KernelField::Signature
        | KernelField::Modsig
        | KernelField::Buffer
        | KernelField::EvmSignature
        | KernelField::XattrLengths
        | KernelField::XattrValues => append_hexadecimal(alloc, content, out),
    }
}

// Appends a digest, if there is one.
fn append_digest(alloc: Global, digest: Option<Digest>, out: &mut Vec<u8>) -> Result<(), AllocError>
    ensures { OnOk result (out.new.items
        ≡ out.old.items ++ printed_digest (option_map (λ digest. (alg_of digest, bytes_of digest)) digest)) }
{
    match digest {
        Some(digest) => append_some_digest(alloc, &digest, out),
        None => Ok(()),
    }
}

// Appends a digest.
fn append_some_digest(alloc: Global, digest: &Digest, out: &mut Vec<u8>) -> Result<(), AllocError>
    ensures { OnOk result (out.new.items ≡ out.old.items ++ printed_digest (Some (alg_of digest.now, bytes_of digest.now))) }
{
    out.extend_from_slice(digest.alg().name().as_bytes())?;
    out.extend_from_slice(b":")?;
    append_hexadecimal(alloc, digest.bytes(), out)
}

// Appends a digest after its type, if there is one.
fn append_typed_digest(
    alloc: Global,
    typed: Option<(DigestType, Digest)>,
    out: &mut Vec<u8>,
) -> Result<(), AllocError>
    ensures { OnOk result (out.new.items
        ≡ out.old.items ++ printed_typed_digest (option_map (λ x. (x.0, (alg_of x.1, bytes_of x.1))) typed)) }
{
    match typed {
        Some((of, digest)) => append_some_typed_digest(alloc, of, &digest, out),
        None => Ok(()),
    }
}

// Appends a digest after its type.
fn append_some_typed_digest(
    alloc: Global,
    of: DigestType,
    digest: &Digest,
    out: &mut Vec<u8>,
) -> Result<(), AllocError>
    ensures { OnOk result (out.new.items
        ≡ out.old.items ++ printed_typed_digest (Some (of, (alg_of digest.now, bytes_of digest.now)))) }
{
    out.extend_from_slice(of.name().as_bytes())?;
    out.extend_from_slice(b":")?;
    append_some_digest(alloc, digest, out)
}

// Appends a text without the NUL at its end.
fn append_text(content: &[u8], out: &mut Vec<u8>) -> Result<(), AllocError>
    ensures { OnOk result (out.new.items ≡ out.old.items ++ printed_text (path_in_field content.now) content.now) }
{
    let text = match path_in_field(content) {
        Some(text) => text,
        None => content,
    };
    out.extend_from_slice(text)?;
    Ok(())
}

// Appends a number of four bytes or of two, if there is one.
fn append_number(content: &[u8], out: &mut Vec<u8>) -> Result<(), AllocError>
    ensures { OnOk result (out.new.items ≡ out.old.items ++ printed_number content.now) }
{
    match content {
        [a, b, c, d] => append_decimal(u32::from_le_bytes([*a, *b, *c, *d]), out),
        [a, b] => append_decimal(u16::from_le_bytes([*a, *b]) as u32, out),
        _ => Ok(()),
    }
}

// Appends a number in decimal.
fn append_decimal(number: u32, out: &mut Vec<u8>) -> Result<(), AllocError>
    ensures { OnOk result (out.new.items ≡ out.old.items ++ decimal number) }
{
    let mut digits = Buffer::new();
    let text = digits.format(number).as_bytes();
    out.extend_from_slice(text)?;
    Ok(())
}

// Appends bytes in hexadecimal.
fn append_hexadecimal(alloc: Global, bytes: &[u8], out: &mut Vec<u8>) -> Result<(), AllocError>
    ensures { OnOk result (out.new.items ≡ out.old.items ++ encode_lower bytes.now) }
{
    let digits = hex::encode(alloc, bytes)?;
    out.extend_from_slice(digits.as_bytes())?;
    Ok(())
}
