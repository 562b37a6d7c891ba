//! What an event's data says in a text for people: of long bytes their beginning.

ghost use Rattle.std.specs.Prelude.{◌≡◌, ◌<◌, [], ◌∷◌, ◌++◌, codes, length, OnOk};
ghost use Rattle.event_data.specs.Names.{content_in, content_of, image_of, load_option_of, says_of, signature_of, tagged_of, text_in, variable_of};
ghost use Rattle.cells.specs.Cells.{ShowsMembers};
ghost use Rattle.cells.specs.Values.{line_of};
ghost use Rattle.cells.specs.Writing.{WritesMembers, WritesValue};
ghost use Rattle.event_lines.specs.BriefJson.{beginning_json, brief_content_json, brief_image_json, brief_json, brief_members, brief_option_json, brief_payload_member, brief_rest_members, brief_signature_json, brief_tagged_json, brief_value_members, brief_variable_json, explained_cell};
ghost use Rattle.event_lines.specs.SteeringTexts.{unsteered};

use crate::certificates::write_certificate;
use crate::contents::{
    write_address, write_form, write_guid, write_member, write_path, write_wide,
};
use crate::steering::append_embedded;
use crate::values::write_says;
use cells::{CellWriter, Written, write_hex, write_number, write_text};
use event_data::{
    EventContent, Image, LoadOption, Signature, Tagged, ValueContent, Variable, event_content,
    read_text, value_content,
};
use json::Writer;
use std::alloc::Global;

/// How many bytes of a longer value a text has.
const BRIEF: usize = 32;

/// Shows what the data of an event of this type says: in JSON as the member `content`, in text briefly on a line of its own. Fails only if memory
/// runs out.
pub(crate) fn show_explained(
    alloc: Global,
    kind: u32,
    payload: &[u8],
    out: &mut CellWriter,
) -> Written
    ensures { ShowsMembers result out.old out.new (explained_cell kind (content_in kind payload.now)) }
{
    let content = event_content(kind, payload);
    show_brief(alloc, kind, &content, out)
}

fn show_brief(alloc: Global, kind: u32, content: &EventContent<'_>, out: &mut CellWriter) -> Written
    ensures { ShowsMembers result out.old out.new (explained_cell kind (content_of content.now)) }
{
    match out {
        CellWriter::Text(shown) => {
            shown.extend_from_slice(b"\n  ")?;
            append_brief(alloc, kind, content, shown)
        }
        CellWriter::Json(writer) => {
            writer.key("content")?;
            write_form(alloc, kind, content, writer)
        }
    }
}

// Appends the brief line of what decoded data says, in which no character steers what shows it.
fn append_brief(
    alloc: Global,
    kind: u32,
    content: &EventContent<'_>,
    lines: &mut Vec<u8>,
) -> Written
    ensures { OnOk result (lines.new.items ≡ lines.old.items ++ unsteered (line_of (brief_content_json kind (content_of content.now)))) }
{
    let mut writer = Writer::new(Vec::new(alloc));
    write_brief_form(alloc, kind, content, &mut writer)?;
    append_embedded(writer, lines)
}

fn write_brief_form(
    alloc: Global,
    kind: u32,
    content: &EventContent<'_>,
    writer: &mut Writer,
) -> Written
    ensures { WritesValue result writer.old writer.new (brief_content_json kind (content_of content.now)) }
{
    writer.begin_object()?;
    write_brief_member(alloc, kind, content, writer)?;
    writer.end_object()?;
    Ok(())
}

fn write_brief_member(
    alloc: Global,
    kind: u32,
    content: &EventContent<'_>,
    writer: &mut Writer,
) -> Written
    ensures { WritesMembers result writer.old writer.new (brief_members kind (content_of content.now)) }
{
    match content {
        EventContent::Variable(variable, rest) => {
            write_brief_variable(alloc, kind, variable, rest, writer)
        }
        EventContent::Image(image, rest) => write_brief_image(alloc, image, rest, writer),
        EventContent::Tagged(tagged) => write_brief_tagged(alloc, tagged, writer),
        _ => write_member(alloc, kind, content, writer),
    }
}

fn write_brief_variable(
    alloc: Global,
    kind: u32,
    variable: &Variable<'_>,
    rest: &[u8],
    writer: &mut Writer,
) -> Written
    ensures { WritesMembers result writer.old writer.new
        ((codes "variable", brief_variable_json kind (variable_of variable.now) rest.now) ∷ []) }
{
    writer.key("variable")?;
    writer.begin_object()?;
    write_guid(alloc, "guid", variable.guid, writer)?;
    write_wide(alloc, "name", "name_hex", variable.name, writer)?;
    write_brief(alloc, "value", variable.value, writer)?;
    write_brief_rest(alloc, rest, writer)?;
    write_brief_says(alloc, &value_content(kind, variable), writer)?;
    writer.end_object()?;
    Ok(())
}

// Writes the member of the bytes behind a form, if there are any.
fn write_brief_rest(alloc: Global, rest: &[u8], writer: &mut Writer) -> Written
    ensures { WritesMembers result writer.old writer.new (brief_rest_members rest.now) }
{
    if rest.is_empty() {
        return Ok(());
    }
    write_brief(alloc, "rest", rest, writer)
}

// Writes the member of what the value says; none where its form is not known.
fn write_brief_says(alloc: Global, content: &ValueContent<'_>, writer: &mut Writer) -> Written
    ensures { WritesMembers result writer.old writer.new (brief_value_members (says_of content.now)) }
{
    match content {
        ValueContent::LoadOption(option) => write_brief_option(alloc, option, writer),
        ValueContent::Signature(signature) => write_brief_signature(alloc, signature, writer),
        _ => write_says(alloc, content, writer),
    }
}

fn write_brief_option(alloc: Global, option: &LoadOption<'_>, writer: &mut Writer) -> Written
    ensures { WritesMembers result writer.old writer.new ((codes "option", brief_option_json (load_option_of option.now)) ∷ []) }
{
    writer.key("option")?;
    writer.begin_object()?;
    write_number("attributes", option.attributes as u64, writer)?;
    write_wide(
        alloc,
        "description",
        "description_hex",
        option.description,
        writer,
    )?;
    write_path(alloc, option.path, writer)?;
    write_brief(alloc, "data", option.optional_data, writer)?;
    writer.end_object()?;
    Ok(())
}

fn write_brief_signature(alloc: Global, signature: &Signature<'_>, writer: &mut Writer) -> Written
    ensures { WritesMembers result writer.old writer.new ((codes "signature", brief_signature_json (signature_of signature.now)) ∷ []) }
{
    writer.key("signature")?;
    writer.begin_object()?;
    write_guid(alloc, "owner", signature.owner, writer)?;
    write_brief(alloc, "data", signature.payload, writer)?;
    write_certificate(alloc, signature.payload, writer)?;
    writer.end_object()?;
    Ok(())
}

fn write_brief_image(alloc: Global, image: &Image<'_>, rest: &[u8], writer: &mut Writer) -> Written
    ensures { WritesMembers result writer.old writer.new ((codes "image", brief_image_json (image_of image.now) rest.now) ∷ []) }
{
    writer.key("image")?;
    writer.begin_object()?;
    write_address(alloc, "location", image.location, writer)?;
    write_address(alloc, "size", image.size, writer)?;
    write_address(alloc, "link_address", image.link_address, writer)?;
    write_path(alloc, image.path, writer)?;
    write_brief_rest(alloc, rest, writer)?;
    writer.end_object()?;
    Ok(())
}

fn write_brief_tagged(alloc: Global, tagged: &Tagged<'_>, writer: &mut Writer) -> Written
    ensures { WritesMembers result writer.old writer.new ((codes "tagged", brief_tagged_json (tagged_of tagged.now)) ∷ []) }
{
    writer.key("tagged")?;
    writer.begin_object()?;
    write_number("id", tagged.id as u64, writer)?;
    write_brief_payload(alloc, tagged.payload, writer)?;
    writer.end_object()?;
    Ok(())
}

// Writes the data of a tagged event, as a text if it is one.
fn write_brief_payload(alloc: Global, payload: &[u8], writer: &mut Writer) -> Written
    ensures { WritesMembers result writer.old writer.new (brief_payload_member payload.now (text_in payload.now) ∷ []) }
{
    match read_text(payload) {
        Some(text) => write_text("text", text, writer),
        None => write_brief(alloc, "data", payload, writer),
    }
}

// Writes a member with bytes in hexadecimal; of long ones their beginning.
fn write_brief(alloc: Global, name: &str, bytes: &[u8], writer: &mut Writer) -> Written
    ensures { WritesMembers result writer.old writer.new ((name.now, brief_json bytes.now) ∷ []) }
{
    if bytes.len() <= BRIEF {
        write_hex(alloc, name, bytes, writer)
    } else {
        write_beginning(alloc, name, bytes, writer)
    }
}

// Writes a member with the beginning of long bytes, and their number.
fn write_beginning(alloc: Global, name: &str, bytes: &[u8], writer: &mut Writer) -> Written
    requires { BRIEF < length bytes.now }
    ensures { WritesMembers result writer.old writer.new ((name.now, beginning_json bytes.now) ∷ []) }
{
    let (begins, _) = bytes.split_at(BRIEF);
    writer.key(name)?;
    writer.begin_object()?;
    write_hex(alloc, "begins", begins, writer)?;
    write_number("size", bytes.len() as u64, writer)?;
    writer.end_object()?;
    Ok(())
}
