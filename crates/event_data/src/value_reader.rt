//! The readers of variables, of the signatures in them and of their values: the form of a value, by vendor and name, and what it says.

ghost use Rattle.std.specs.Prelude.{◌≡◌, ◌*◌, ℕ, List, Some, IfSome, option_map, ◌≤◌, [], length, ◌&&◌, bytes_eq, ◌==◌, ◌⊎◌};
ghost use Rattle.byte_fields.specs.Reading.{Reads, part_at};
ghost use Rattle.event_data.specs.Certificates.{IsCertificate, certificate_in, der_content, is_content};
ghost use Rattle.event_data.specs.Forms.{IsFollowed, IsVariable, VariableData, variable_of};
ghost use Rattle.event_data.specs.Reading.{variable, variable_in, variable_then};
ghost use Rattle.event_data.specs.declared.content.Mismatch.TheVariants.{Form};
ghost use Rattle.event_data.specs.ValueForms.{IsSignature, SignatureData};
ghost use Rattle.event_data.specs.ValueReading.{signature, signature_in, signature_list, lists_in};
ghost use Rattle.event_data.specs.ValueViews.{signature_of, list_of};
ghost use Rattle.event_data.specs.Values.{are_digits, is_authority, is_digit, is_flag, is_level, is_lists, is_load_option, is_option_name, is_order, is_own_certificate, value_form, SaysValue, ValueSays, ValueSaysIn, says_in, unknown, value_in};
ghost use Rattle.event_data.specs.declared.value_reader.ValueForm.TheVariants as forms;
ghost use Rattle.event_data.specs.ValueContents.{says_of};

use crate::content::Mismatch;
use crate::load_option::{BootOrder, LoadOption, read_load_option};
use crate::text::{after_prefix, read_text};
use crate::variable::{Signature, SignatureList, SignatureLists, Variable};
use byte_fields::{big_endian_u16_at, part_at, u32_at, u64_at};

/// A form of a variable's value.
#[derive(Clone, Copy)]
pub enum ValueForm {
    /// One byte.
    Flag,
    /// Numbers of load options.
    Order,
    /// A load option.
    LoadOption,
    /// Lists of signatures.
    Lists,
    /// One certificate, or one signature.
    Signature,
    /// One certificate.
    Certificate,
    /// The levels of SBAT: a text.
    Level,
    /// No form that is known here.
    Other,
}

/// What the value of a UEFI variable says.
#[derive(Clone, Copy)]
pub enum ValueContent<'a> {
    /// A setting: 1 where it is on, 0 where it is off.
    Flag(u8),
    /// The numbers of load options, in the order in which they are tried.
    Order(BootOrder<'a>),
    /// A load option.
    LoadOption(LoadOption<'a>),
    /// Lists of signatures; none where the variable is empty.
    Lists(SignatureLists<'a>),
    /// The signature that allowed an image.
    Signature(Signature<'a>),
    /// A certificate, in DER, that allowed an image, or that shim was built with.
    Certificate(&'a [u8]),
    /// The levels of SBAT, one in a line (shim, SBAT.md).
    Level(&'a str),
    /// A value of no form that is known for the variable.
    Unknown,
}

// Reads `units` units of two bytes. Returns them and the remaining bytes.
fn units_at(units: u64, bytes: &[u8]) -> Result<(&[u8], &[u8]), Mismatch>
    ensures { Reads (λ x. (x.0.now, x.1.now)) result (part_at Form (2 * units) bytes.now) }
{
    if units > (bytes.len() / 2) as u64 {
        return Err(Mismatch::Form);
    }
    part_at(Mismatch::Form, 2 * units as usize, bytes)
}

// Reads the variable at the start of the bytes. Returns it and the remaining bytes.
#[tactic(auto, unfolding(crate::specs::Reading::variable))]
fn variable_at(bytes: &[u8]) -> Result<(Variable<'_>, &[u8]), Mismatch>
    ensures { Reads (λ x. (variable_of x.0, x.1.now)) result (variable.at bytes.now) }
{
    let (guid, rest) = part_at(Mismatch::Form, 16, bytes)?;
    let (units, rest) = u64_at(Mismatch::Form, rest)?;
    let (size, rest) = u64_at(Mismatch::Form, rest)?;
    let (name, rest) = units_at(units, rest)?;
    let (value, rest) = part_at(Mismatch::Form, size as usize, rest)?;
    Ok((Variable { guid, name, value }, rest))
}

/// The variable that the bytes are; `None` where they are none.
pub fn read_variable(bytes: &[u8]) -> Option<Variable<'_>>
    ensures value { option_map variable_of result ≡ variable_in bytes.now }
    ensures found { IfSome result (λ found. IsVariable bytes.now (variable_of found)) }
    ensures only { (value : VariableData) → IsVariable bytes.now value → option_map variable_of result ≡ Some value }
{
    match variable_at(bytes) {
        Ok((variable, rest)) if rest.is_empty() => Some(variable),
        _ => None,
    }
}

/// The variable at the start of the bytes, and the bytes behind it; `None` where they begin with none.
pub fn read_variable_then(bytes: &[u8]) -> Option<(Variable<'_>, &[u8])>
    ensures value { option_map (λ x. (variable_of x.0, x.1.now)) result ≡ variable_then bytes.now }
    ensures found { IfSome result (λ x. IsFollowed IsVariable bytes.now (variable_of x.0) x.1.now) }
    ensures only { (value : VariableData) (rest : List ℕ) → IsFollowed IsVariable bytes.now value rest
        → option_map {U = VariableData × List ℕ} (λ x. (variable_of x.0, x.1.now)) result ≡ Some (value, rest) }
{
    match variable_at(bytes) {
        Ok((variable, rest)) => Some((variable, rest)),
        Err(_) => None,
    }
}

/// Reads the signature of this size at the start of the bytes. Returns it and the remaining bytes.
#[tactic(auto, unfolding(crate::specs::ValueReading::signature))]
pub(crate) fn signature_at(size: usize, bytes: &[u8]) -> Result<(Signature<'_>, &[u8]), Mismatch>
    requires { 16 ≤ size }
    ensures { Reads (λ x. (signature_of x.0, x.1.now)) result ((signature size).at bytes.now) }
{
    let (owner, rest) = part_at(Mismatch::Form, 16, bytes)?;
    let (payload, rest) = part_at(Mismatch::Form, size - 16, rest)?;
    Ok((Signature { owner, payload }, rest))
}

/// The signature that the bytes are: an owner's GUID, and then its data; `None` where they are fewer than 16.
pub fn read_signature(bytes: &[u8]) -> Option<Signature<'_>>
    ensures value { option_map signature_of result ≡ signature_in bytes.now }
    ensures found { IfSome result (λ found. IsSignature bytes.now (signature_of found)) }
    ensures only { (value : SignatureData) → IsSignature bytes.now value → option_map signature_of result ≡ Some value }
{
    match part_at(Mismatch::Form, 16, bytes) {
        Ok((owner, payload)) => Some(Signature { owner, payload }),
        Err(_) => None,
    }
}

// Reads the length of a SEQUENCE, in two bytes, and so many bytes. Returns these and the remaining bytes.
#[tactic(auto, unfolding(crate::specs::Certificates::der_content))]
fn der_content_at(bytes: &[u8]) -> Result<(&[u8], &[u8]), Mismatch>
    ensures { Reads (λ x. (x.0.now, x.1.now)) result (der_content.at bytes.now) }
{
    let (size, rest) = big_endian_u16_at(Mismatch::Form, bytes)?;
    if size < 256 {
        return Err(Mismatch::Form);
    }
    part_at(Mismatch::Form, size as usize, rest)
}

// Whether the bytes are the length and the content of a SEQUENCE.
fn are_content(bytes: &[u8]) -> bool
    ensures { result ≡ is_content bytes.now }
{
    match der_content_at(bytes) {
        Ok((_, left)) if left.is_empty() => true,
        _ => false,
    }
}

/// The certificate that the bytes are, as far as its outermost form tells: a SEQUENCE in DER of 256 bytes to 64 KiB (RFC 5280, section 4.1);
/// `None` where they are none.
pub fn read_certificate(bytes: &[u8]) -> Option<&[u8]>
    ensures value { option_map (λ x. x.now) result ≡ certificate_in bytes.now }
    ensures found { IfSome result (λ x. IsCertificate bytes.now x.now) }
    ensures only { (value : List ℕ) → IsCertificate bytes.now value → option_map (λ x. x.now) result ≡ Some value }
{
    match after_prefix(&[0x30, 0x82], bytes) {
        Some(rest) if are_content(rest) => Some(bytes),
        _ => None,
    }
}

/// Reads the list at the start of the bytes. Returns it and the remaining bytes.
#[tactic(auto, unfolding(crate::specs::ValueReading::signature_list))]
pub(crate) fn list_at(bytes: &[u8]) -> Result<(SignatureList<'_>, &[u8]), Mismatch>
    ensures { Reads (λ x. (list_of x.0, x.1.now)) result (signature_list.at bytes.now) }
{
    let (kind, rest) = part_at(Mismatch::Form, 16, bytes)?;
    let (size, rest) = u32_at(Mismatch::Form, rest)?;
    let (header_size, rest) = u32_at(Mismatch::Form, rest)?;
    if (size as usize) < 28 + header_size as usize {
        return Err(Mismatch::Form);
    }
    let (signature_size, rest) = u32_at(Mismatch::Form, rest)?;
    let left = size as usize - 28 - header_size as usize;
    if signature_size < 16 || left % signature_size as usize != 0 {
        return Err(Mismatch::Form);
    }
    let (header, rest) = part_at(Mismatch::Form, header_size as usize, rest)?;
    let (signatures, rest) = part_at(Mismatch::Form, left, rest)?;
    let list = SignatureList {
        kind,
        signature_size,
        header,
        signatures,
    };
    Ok((list, rest))
}

// 8be4df61-93ca-11d2-aa0d-00e098032b8c.
const GLOBAL: [u8; 16] = [
    0x61, 0xDF, 0xE4, 0x8B, 0xCA, 0x93, 0xD2, 0x11, 0xAA, 0x0D, 0x00, 0xE0, 0x98, 0x03, 0x2B, 0x8C,
];

// d719b2cb-3d3a-4596-a3bc-dad00e67656f.
const IMAGE_SECURITY: [u8; 16] = [
    0xCB, 0xB2, 0x19, 0xD7, 0x3A, 0x3D, 0x96, 0x45, 0xA3, 0xBC, 0xDA, 0xD0, 0x0E, 0x67, 0x65, 0x6F,
];

// 605dab50-e046-4300-abb6-3dd810dd8b23.
const SHIM: [u8; 16] = [
    0x50, 0xAB, 0x5D, 0x60, 0x46, 0xE0, 0x00, 0x43, 0xAB, 0xB6, 0x3D, 0xD8, 0x10, 0xDD, 0x8B, 0x23,
];

// Whether the variable has this vendor, and this name in units of two bytes.
fn is_named(vendor: &[u8], name: &[u8], variable: &Variable<'_>) -> bool
    ensures { result ≡ (bytes_eq variable.now.guid.now vendor.now && bytes_eq variable.now.name.now name.now) }
{
    variable.guid == vendor && variable.name == name
}

fn is_digit(code: u8) -> bool
    ensures { result ≡ is_digit code }
{
    (code >= 48 && code < 58) || (code >= 65 && code < 71)
}

fn are_digits(units: &[u8]) -> bool
    requires { length units.now ≡ 8 }
    ensures { result ≡ are_digits units.now }
{
    is_digit(units[0])
        && units[1] == 0
        && is_digit(units[2])
        && units[3] == 0
        && is_digit(units[4])
        && units[5] == 0
        && is_digit(units[6])
        && units[7] == 0
}

// `Boot` and four digits.
fn is_option_name(name: &[u8]) -> bool
    ensures { result ≡ is_option_name name.now }
{
    if name.len() != 16 {
        return false;
    }
    let (boot, digits) = name.split_at(8);
    boot == b"B\0o\0o\0t\0".as_slice() && are_digits(digits)
}

fn is_flag(variable: &Variable<'_>) -> bool
    ensures { result ≡ is_flag (variable_of variable.now) }
{
    is_named(&GLOBAL, b"S\0e\0c\0u\0r\0e\0B\0o\0o\0t\0", variable)
        || is_named(&GLOBAL, b"S\0e\0t\0u\0p\0M\0o\0d\0e\0", variable)
        || is_named(&GLOBAL, b"A\0u\0d\0i\0t\0M\0o\0d\0e\0", variable)
        || is_named(&GLOBAL, b"D\0e\0p\0l\0o\0y\0e\0d\0M\0o\0d\0e\0", variable)
        || is_named(
            &SHIM,
            b"M\0o\0k\0L\0i\0s\0t\0T\0r\0u\0s\0t\0e\0d\0",
            variable,
        )
}

fn is_order(variable: &Variable<'_>) -> bool
    ensures { result ≡ is_order (variable_of variable.now) }
{
    is_named(&GLOBAL, b"B\0o\0o\0t\0O\0r\0d\0e\0r\0", variable)
}

fn is_load_option(variable: &Variable<'_>) -> bool
    ensures { result ≡ is_load_option (variable_of variable.now) }
{
    variable.guid == GLOBAL.as_slice() && is_option_name(variable.name)
}

fn is_lists(variable: &Variable<'_>) -> bool
    ensures { result ≡ is_lists (variable_of variable.now) }
{
    is_named(&GLOBAL, b"P\0K\0", variable)
        || is_named(&GLOBAL, b"K\0E\0K\0", variable)
        || is_named(&IMAGE_SECURITY, b"d\0b\0", variable)
        || is_named(&IMAGE_SECURITY, b"d\0b\0x\0", variable)
        || is_named(&SHIM, b"M\0o\0k\0L\0i\0s\0t\0", variable)
        || is_named(&SHIM, b"M\0o\0k\0L\0i\0s\0t\0X\0", variable)
}

fn is_own_certificate(variable: &Variable<'_>) -> bool
    ensures { result ≡ is_own_certificate (variable_of variable.now) }
{
    is_named(&SHIM, b"S\0h\0i\0m\0", variable)
}

fn is_level(variable: &Variable<'_>) -> bool
    ensures { result ≡ is_level (variable_of variable.now) }
{
    is_named(&SHIM, b"S\0b\0a\0t\0L\0e\0v\0e\0l\0", variable)
}

fn is_authority(kind: u32, variable: &Variable<'_>) -> bool
    ensures { result ≡ is_authority kind (variable_of variable.now) }
{
    kind == 0x8000_00E0
        && (is_named(&IMAGE_SECURITY, b"d\0b\0", variable)
            || is_named(&SHIM, b"M\0o\0k\0L\0i\0s\0t\0", variable)
            || is_named(&SHIM, b"M\0o\0k\0L\0i\0s\0t\0R\0T\0", variable))
}

/// The form that the value of this variable has, in an event of this type.
pub fn value_form(kind: u32, variable: &Variable<'_>) -> ValueForm
    ensures { result ≡ value_form kind (variable_of variable.now) }
{
    if is_authority(kind, variable) {
        ValueForm::Signature
    } else if is_flag(variable) {
        ValueForm::Flag
    } else if is_order(variable) {
        ValueForm::Order
    } else if is_load_option(variable) {
        ValueForm::LoadOption
    } else if is_lists(variable) {
        ValueForm::Lists
    } else if is_own_certificate(variable) {
        ValueForm::Certificate
    } else if is_level(variable) {
        ValueForm::Level
    } else {
        ValueForm::Other
    }
}

// Whether the bytes are lists of signatures.
fn are_lists(bytes: &[u8]) -> bool
    ensures { result ≡ (length (lists_in bytes.now).1 == 0) }
{
    let mut lists = SignatureLists::new(bytes);
    while lists.next_list().is_some() {}
    lists.rest().is_empty()
}

// The numbers of load options that the bytes are.
fn order_content(bytes: &[u8]) -> ValueContent<'_>
    ensures { says_of result ≡ says_in forms.Order bytes.now }
{
    if bytes.len() % 2 != 0 {
        return ValueContent::Unknown;
    }
    ValueContent::Order(BootOrder::new(bytes))
}

// The lists of signatures that the bytes are.
fn lists_content(bytes: &[u8]) -> ValueContent<'_>
    ensures { says_of result ≡ says_in forms.Lists bytes.now }
{
    if !are_lists(bytes) {
        return ValueContent::Unknown;
    }
    ValueContent::Lists(SignatureLists::new(bytes))
}

// The certificate that the bytes are, else the signature.
fn authority_content(bytes: &[u8]) -> ValueContent<'_>
    ensures { says_of result ≡ says_in forms.Signature bytes.now }
{
    if let Some(certificate) = read_certificate(bytes) {
        return ValueContent::Certificate(certificate);
    }
    match read_signature(bytes) {
        Some(signature) => ValueContent::Signature(signature),
        None => ValueContent::Unknown,
    }
}

// The certificate that the bytes are.
fn certificate_content(bytes: &[u8]) -> ValueContent<'_>
    ensures { says_of result ≡ says_in forms.Certificate bytes.now }
{
    match read_certificate(bytes) {
        Some(certificate) => ValueContent::Certificate(certificate),
        None => ValueContent::Unknown,
    }
}

// The levels that the bytes are.
fn level_content(bytes: &[u8]) -> ValueContent<'_>
    ensures { says_of result ≡ says_in forms.Level bytes.now }
{
    match read_text(bytes) {
        Some(level) => ValueContent::Level(level),
        None => ValueContent::Unknown,
    }
}

// What a value of this form says.
fn content_in(form: ValueForm, bytes: &[u8]) -> ValueContent<'_>
    ensures says { ValueSaysIn form bytes.now (says_of result)
        ⊎ ((says_of result ≡ unknown) × ((other : ValueSays) → ValueSaysIn form bytes.now other → ⊥)) }
    ensures value { says_of result ≡ says_in form bytes.now }
{
    match form {
        ValueForm::Flag => match bytes {
            [value] => ValueContent::Flag(*value),
            _ => ValueContent::Unknown,
        },
        ValueForm::Order => order_content(bytes),
        ValueForm::LoadOption => match read_load_option(bytes) {
            Some(option) => ValueContent::LoadOption(option),
            None => ValueContent::Unknown,
        },
        ValueForm::Lists => lists_content(bytes),
        ValueForm::Signature => authority_content(bytes),
        ValueForm::Certificate => certificate_content(bytes),
        ValueForm::Level => level_content(bytes),
        ValueForm::Other => ValueContent::Unknown,
    }
}

/// What the variable's value says, in an event of this type: it has exactly the form that the variable's value has, or it is unknown.
pub fn value_content<'a>(kind: u32, variable: &Variable<'a>) -> ValueContent<'a>
    ensures says { SaysValue kind (variable_of variable.now) (says_of result) }
    ensures value { says_of result ≡ value_in kind (variable_of variable.now) }
{
    content_in(value_form(kind, variable), variable.value)
}
