//! UEFI variables, and what their values say.

ghost use Rattle.std.specs.Prelude.{[], ◌∷◌, codes, map};
ghost use Rattle.event_data.specs.Names.{list_of, lists_in, lists_left, load_option_of, numbers_in, numbers_left, says_of, signature_of, signatures_of, variable_of};
ghost use Rattle.cells.specs.Values.{array_of};
ghost use Rattle.event_lines.specs.ValueJson.{list_json, load_option_json, option_number_json, owner_values, owners_after, signature_json, value_members};
ghost use Rattle.event_lines.specs.VariableJson.{variable_json};
ghost use Rattle.event_lines.specs.ContentTexts.{rest_members};
ghost use Rattle.cells.specs.Writing.{WritesItems, WritesMembers, WritesValue};

use crate::certificates::{write_certificate, write_certificates, write_known};
use crate::contents::{write_guid, write_path, write_wide};
use cells::{Written, write_hex, write_number, write_text};
use event_data::{
    BootOrder, LoadOption, Signature, SignatureList, SignatureLists, ValueContent, Variable,
    value_content,
};
use event_texts::guid_text;
use json::Writer;
use std::alloc::Global;

/// Writes the member of the bytes behind a form, if there are any.
pub(crate) fn write_rest(alloc: Global, rest: &[u8], writer: &mut Writer) -> Written
    ensures { WritesMembers result writer.old writer.new (rest_members rest.now) }
{
    if rest.is_empty() {
        return Ok(());
    }
    write_hex(alloc, "rest", rest, writer)
}

/// Writes the member of a variable that an event of this type has, and of the bytes behind it.
pub(crate) fn write_variable(
    alloc: Global,
    kind: u32,
    variable: &Variable<'_>,
    rest: &[u8],
    writer: &mut Writer,
) -> Written
    ensures { WritesMembers result writer.old writer.new ((codes "variable", variable_json kind (variable_of variable.now) rest.now) ∷ []) }
{
    writer.key("variable")?;
    writer.begin_object()?;
    write_guid(alloc, "guid", variable.guid, writer)?;
    write_wide(alloc, "name", "name_hex", variable.name, writer)?;
    write_hex(alloc, "value", variable.value, writer)?;
    write_rest(alloc, rest, writer)?;
    write_says(alloc, &value_content(kind, variable), writer)?;
    writer.end_object()?;
    Ok(())
}

/// Writes the member of what the value says; none where its form is not known. Fails only if memory runs out.
pub(crate) fn write_says(alloc: Global, content: &ValueContent<'_>, writer: &mut Writer) -> Written
    ensures { WritesMembers result writer.old writer.new (value_members (says_of content.now)) }
{
    match content {
        ValueContent::Flag(value) => write_number("flag", *value as u64, writer),
        ValueContent::Order(order) => write_order(alloc, order, writer),
        ValueContent::LoadOption(option) => write_load_option(alloc, option, writer),
        ValueContent::Lists(lists) => write_lists(alloc, lists, writer),
        ValueContent::Signature(signature) => write_signature(alloc, signature, writer),
        ValueContent::Certificate(certificate) => write_known(alloc, certificate, writer),
        ValueContent::Level(level) => write_text("level", level, writer),
        ValueContent::Unknown => Ok(()),
    }
}

fn write_order(alloc: Global, order: &BootOrder<'_>, writer: &mut Writer) -> Written
    ensures { WritesMembers result writer.old writer.new
        ((codes "order", array_of (map option_number_json (numbers_in (numbers_left order.now)).0)) ∷ []) }
{
    writer.key("order")?;
    writer.begin_array()?;
    write_numbers(alloc, order, writer)?;
    writer.end_array()?;
    Ok(())
}

fn write_numbers(alloc: Global, order: &BootOrder<'_>, writer: &mut Writer) -> Written
    ensures { WritesItems result writer.old writer.new (map option_number_json (numbers_in (numbers_left order.now)).0) }
{
    let mut left = *order;
    while let Some(number) = left.next_number() {
        write_option_number(alloc, number, writer)?;
    }
    Ok(())
}

// Writes the number of a load option, in four digits.
fn write_option_number(alloc: Global, number: u16, writer: &mut Writer) -> Written
    ensures { WritesValue result writer.old writer.new (option_number_json number) }
{
    let digits = hex::encode(alloc, &number.to_be_bytes())?;
    writer.string(&digits)?;
    Ok(())
}

fn write_load_option(alloc: Global, option: &LoadOption<'_>, writer: &mut Writer) -> Written
    ensures { WritesMembers result writer.old writer.new ((codes "option", load_option_json (load_option_of option.now)) ∷ []) }
{
    writer.key("option")?;
    writer.begin_object()?;
    write_number("attributes", option.attributes as u64, writer)?;
    write_wide(
        alloc,
        "description",
        "description_hex",
        option.description,
        writer,
    )?;
    write_path(alloc, option.path, writer)?;
    write_hex(alloc, "data", option.optional_data, writer)?;
    writer.end_object()?;
    Ok(())
}

fn write_lists(alloc: Global, lists: &SignatureLists<'_>, writer: &mut Writer) -> Written
    ensures { WritesMembers result writer.old writer.new
        ((codes "lists", array_of (map list_json (lists_in (lists_left lists.now)).0)) ∷ []) }
{
    writer.key("lists")?;
    writer.begin_array()?;
    write_each_list(alloc, lists, writer)?;
    writer.end_array()?;
    Ok(())
}

fn write_each_list(alloc: Global, lists: &SignatureLists<'_>, writer: &mut Writer) -> Written
    ensures { WritesItems result writer.old writer.new (map list_json (lists_in (lists_left lists.now)).0) }
{
    let mut left = *lists;
    while let Some(list) = left.next_list() {
        write_list(alloc, &list, writer)?;
    }
    Ok(())
}

fn write_list(alloc: Global, list: &SignatureList<'_>, writer: &mut Writer) -> Written
    ensures { WritesValue result writer.old writer.new (list_json (list_of list.now)) }
{
    writer.begin_object()?;
    write_guid(alloc, "type", list.kind, writer)?;
    write_number("count", list.count() as u64, writer)?;
    writer.key("owners")?;
    writer.begin_array()?;
    write_owners(alloc, list, writer)?;
    writer.end_array()?;
    write_certificates(alloc, list, writer)?;
    writer.end_object()?;
    Ok(())
}

// Writes the owners of a list's signatures, each where it differs from the one before it.
fn write_owners(alloc: Global, list: &SignatureList<'_>, writer: &mut Writer) -> Written
    ensures { WritesItems result writer.old writer.new (owners_after [] (signatures_of (list_of list.now))) }
{
    let mut left = list.signatures();
    let mut before: &[u8] = &[];
    while let Some(signature) = left.next_signature() {
        write_owner(alloc, before, signature.owner, writer)?;
        before = signature.owner;
    }
    Ok(())
}

// Writes the owner of a signature, if it is another than the one before it.
fn write_owner(alloc: Global, before: &[u8], owner: &[u8], writer: &mut Writer) -> Written
    ensures { WritesItems result writer.old writer.new (owner_values before.now owner.now) }
{
    if before == owner {
        return Ok(());
    }
    let text = guid_text(alloc, owner)?;
    writer.string(&text)?;
    Ok(())
}

fn write_signature(alloc: Global, signature: &Signature<'_>, writer: &mut Writer) -> Written
    ensures { WritesMembers result writer.old writer.new ((codes "signature", signature_json (signature_of signature.now)) ∷ []) }
{
    writer.key("signature")?;
    writer.begin_object()?;
    write_guid(alloc, "owner", signature.owner, writer)?;
    write_hex(alloc, "data", signature.payload, writer)?;
    write_certificate(alloc, signature.payload, writer)?;
    writer.end_object()?;
    Ok(())
}
