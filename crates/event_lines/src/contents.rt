//! What an event's data says, with tables of partitions, and writers of members with texts that need memory: texts in UTF-16, GUIDs, device paths
//! and addresses.

ghost use Rattle.std.specs.Prelude.{[], ◌∷◌, ◌≡◌, ◌++◌, codes, option_map, OnOk, map};
ghost use Rattle.event_data.specs.Names.{blob_of, command_of, content_in, content_of, gpt_of, handoff_of, image_of, partition_of, table_name, table_of, tables_of, tagged_of, text_in};
ghost use Rattle.cells.specs.Writing.{WritesMembers, WritesValue, WritesItems};
ghost use Rattle.cells.specs.Cells.{ShowsMembers};
ghost use Rattle.cells.specs.Values.{line_of};
ghost use Rattle.event_lines.specs.ContentTexts.{address_json, guid_json, path_member, wide_member, text_or_hex};
ghost use Rattle.event_lines.specs.ContentJson.{blob_json, command_json, command_word, content_json, content_members, description_members, handoff_json, image_json, name_members, table_json, tagged_json, gpt_json, partition_json};
ghost use Rattle.event_lines.specs.SteeringTexts.{unsteered, value_cell};

use crate::steering::append_embedded;
use crate::values::{write_rest, write_variable};
use cells::{CellWriter, Written, write_flag, write_hex, write_number, write_shown, write_text};
use event_data::{
    Blob, Command, CommandKind, EventContent, Gpt, Handoff, Image, Partition, Table, Tagged,
    event_content, read_text, table_name,
};
use event_texts::{guid_text, hex_number, path_text, wide_text};
use json::Writer;
use std::alloc::Global;

/// Writes a member with a text in UTF-16, or under the other name the bytes in hexadecimal, where they are none. Fails only if memory
/// runs out.
pub fn write_wide(
    alloc: Global,
    name: &str,
    hex_name: &str,
    bytes: &[u8],
    writer: &mut Writer,
) -> Written
    ensures { WritesMembers result writer.old writer.new (wide_member name.now hex_name.now bytes.now ∷ []) }
{
    match wide_text(alloc, bytes)? {
        Some(text) => write_text(name, &text, writer),
        None => write_hex(alloc, hex_name, bytes, writer),
    }
}

/// Writes the member `path` with the text of a device path, or `path_hex` with the bytes in hexadecimal, where they are none. Fails only if memory
/// runs out.
pub(crate) fn write_path(alloc: Global, bytes: &[u8], writer: &mut Writer) -> Written
    ensures { WritesMembers result writer.old writer.new (path_member bytes.now ∷ []) }
{
    match path_text(alloc, bytes)? {
        Some(text) => write_text("path", &text, writer),
        None => write_hex(alloc, "path_hex", bytes, writer),
    }
}

/// Writes a member with a GUID. Fails only if memory runs out.
pub(crate) fn write_guid(alloc: Global, name: &str, guid: &[u8], writer: &mut Writer) -> Written
    ensures { WritesMembers result writer.old writer.new ((name.now, guid_json guid.now) ∷ []) }
{
    let text = guid_text(alloc, guid)?;
    write_text(name, &text, writer)
}

/// Writes a member with a number of 64 bits, in hexadecimal. Fails only if memory runs out.
pub(crate) fn write_address(alloc: Global, name: &str, value: u64, writer: &mut Writer) -> Written
    ensures { WritesMembers result writer.old writer.new ((name.now, address_json value) ∷ []) }
{
    let text = hex_number(alloc, value)?;
    write_text(name, &text, writer)
}

/// Shows what the data of an event of this type says: in JSON as the member of this name, an object with one member, which is named by the data's
/// form, as [`crate::append_event`] has it under `content`; in text, after these words, as a line of JSON in which no character steers what
/// shows it. Fails only if memory runs out.
pub fn show_content(
    alloc: Global,
    before: &str,
    key: &str,
    kind: u32,
    payload: &[u8],
    out: &mut CellWriter,
) -> Written
    ensures { ShowsMembers result out.old out.new (value_cell before.now key.now (content_json kind (content_in kind payload.now))) }
{
    let content = event_content(kind, payload);
    show_form(alloc, before, key, kind, &content, out)
}

/// Shows what decoded data of an event of this type says: as [`show_content`] does, where the data is already decoded. Fails only if
/// memory runs out.
pub fn show_form(
    alloc: Global,
    before: &str,
    key: &str,
    kind: u32,
    content: &EventContent<'_>,
    out: &mut CellWriter,
) -> Written
    ensures { ShowsMembers result out.old out.new (value_cell before.now key.now (content_json kind (content_of content.now))) }
{
    match out {
        CellWriter::Text(shown) => {
            shown.extend_from_slice(before.as_bytes())?;
            append_form(alloc, kind, content, shown)
        }
        CellWriter::Json(writer) => {
            writer.key(key)?;
            write_form(alloc, kind, content, writer)
        }
    }
}

// Appends the line of what decoded data says, in which no character steers what shows it.
fn append_form(alloc: Global, kind: u32, content: &EventContent<'_>, lines: &mut Vec<u8>) -> Written
    ensures { OnOk result (lines.new.items ≡ lines.old.items ++ unsteered (line_of (content_json kind (content_of content.now)))) }
{
    let mut writer = Writer::new(Vec::new(alloc));
    write_form(alloc, kind, content, &mut writer)?;
    append_embedded(writer, lines)
}

/// Writes what decoded data of an event of this type says. Fails only if memory runs out.
pub(crate) fn write_form(
    alloc: Global,
    kind: u32,
    content: &EventContent<'_>,
    writer: &mut Writer,
) -> Written
    ensures { WritesValue result writer.old writer.new (content_json kind (content_of content.now)) }
{
    writer.begin_object()?;
    write_member(alloc, kind, content, writer)?;
    writer.end_object()?;
    Ok(())
}

/// Writes the member of the data's form. Fails only if memory runs out.
pub(crate) fn write_member(
    alloc: Global,
    kind: u32,
    content: &EventContent<'_>,
    writer: &mut Writer,
) -> Written
    ensures { WritesMembers result writer.old writer.new (content_members kind (content_of content.now)) }
{
    match content {
        EventContent::Separator(value) => write_number("separator", *value as u64, writer),
        EventContent::Text(text) => write_text("text", text, writer),
        EventContent::WideText(text) => write_wide(alloc, "text", "text_hex", text, writer),
        EventContent::Guid(guid) => write_guid(alloc, "guid", guid.bytes, writer),
        EventContent::Command(command) => write_command(alloc, command, writer),
        EventContent::Variable(variable, rest) => {
            write_variable(alloc, kind, variable, rest, writer)
        }
        EventContent::Image(image, rest) => write_image(alloc, image, rest, writer),
        EventContent::Gpt(gpt) => write_gpt(alloc, gpt, writer),
        EventContent::Blob(blob) => write_blob(alloc, blob, writer),
        EventContent::Tagged(tagged) => write_tagged(alloc, tagged, writer),
        EventContent::Locality(locality) => write_number("locality", *locality as u64, writer),
        EventContent::Technology(value) => write_number("technology", *value as u64, writer),
        EventContent::Handoff(handoff) => write_handoff(alloc, handoff, writer),
        EventContent::Unknown(_) => write_flag("unknown", true, writer),
    }
}

fn write_command(alloc: Global, command: &Command<'_>, writer: &mut Writer) -> Written
    ensures { WritesMembers result writer.old writer.new ((codes "command", command_json (command_of command.now)) ∷ []) }
{
    writer.key("command")?;
    writer.begin_object()?;
    write_text("kind", command_word(command.kind), writer)?;
    write_shown(alloc, "text", "text_hex", command.text, writer)?;
    writer.end_object()?;
    Ok(())
}

/// The word for a kind of command: `grub`, `kernel` or `module`.
pub fn command_word(kind: CommandKind) -> &'static str
    ensures { result.now ≡ command_word kind }
{
    match kind {
        CommandKind::Grub => "grub",
        CommandKind::Kernel => "kernel",
        CommandKind::Module => "module",
        CommandKind::RedHatGrub => "grub",
        CommandKind::RedHatKernel => "kernel",
    }
}

fn write_image(alloc: Global, image: &Image<'_>, rest: &[u8], writer: &mut Writer) -> Written
    ensures { WritesMembers result writer.old writer.new ((codes "image", image_json (image_of image.now) rest.now) ∷ []) }
{
    writer.key("image")?;
    writer.begin_object()?;
    write_address(alloc, "location", image.location, writer)?;
    write_address(alloc, "size", image.size, writer)?;
    write_address(alloc, "link_address", image.link_address, writer)?;
    write_path(alloc, image.path, writer)?;
    write_rest(alloc, rest, writer)?;
    writer.end_object()?;
    Ok(())
}

fn write_blob(alloc: Global, blob: &Blob<'_>, writer: &mut Writer) -> Written
    ensures { WritesMembers result writer.old writer.new ((codes "blob", blob_json (blob_of blob.now)) ∷ []) }
{
    writer.key("blob")?;
    writer.begin_object()?;
    write_description(alloc, blob.description, writer)?;
    write_address(alloc, "base", blob.base, writer)?;
    write_address(alloc, "length", blob.size, writer)?;
    writer.end_object()?;
    Ok(())
}

fn write_description(alloc: Global, description: Option<&[u8]>, writer: &mut Writer) -> Written
    ensures { WritesMembers result writer.old writer.new (description_members (option_map (λ text. text.now) description.entry)) }
{
    match description {
        Some(text) => write_shown(alloc, "description", "description_hex", text, writer),
        None => Ok(()),
    }
}

fn write_tagged(alloc: Global, tagged: &Tagged<'_>, writer: &mut Writer) -> Written
    ensures { WritesMembers result writer.old writer.new ((codes "tagged", tagged_json (tagged_of tagged.now)) ∷ []) }
{
    writer.key("tagged")?;
    writer.begin_object()?;
    write_number("id", tagged.id as u64, writer)?;
    write_payload(alloc, tagged.payload, writer)?;
    writer.end_object()?;
    Ok(())
}

// Writes the data of a tagged event, as a text if it is one.
fn write_payload(alloc: Global, payload: &[u8], writer: &mut Writer) -> Written
    ensures { WritesMembers result writer.old writer.new
        (text_or_hex (codes "text") (codes "data") payload.now (text_in payload.now) ∷ []) }
{
    match read_text(payload) {
        Some(text) => write_text("text", text, writer),
        None => write_hex(alloc, "data", payload, writer),
    }
}

// Writes the member of a disk's table of partitions.
fn write_gpt(alloc: Global, gpt: &Gpt<'_>, writer: &mut Writer) -> Written
    ensures { WritesMembers result writer.old writer.new ((codes "gpt", gpt_json (gpt_of gpt.now)) ∷ []) }
{
    writer.key("gpt")?;
    writer.begin_object()?;
    write_guid(alloc, "disk", gpt.disk, writer)?;
    writer.key("partitions")?;
    writer.begin_array()?;
    write_partitions(alloc, gpt, writer)?;
    writer.end_array()?;
    writer.end_object()?;
    Ok(())
}

fn write_partitions(alloc: Global, gpt: &Gpt<'_>, writer: &mut Writer) -> Written
    ensures { WritesItems result writer.old writer.new (map partition_json (gpt_of gpt.now).partitions) }
{
    let mut left = gpt.partitions();
    while let Some(partition) = left.next_partition() {
        write_partition(alloc, &partition, writer)?;
    }
    Ok(())
}

fn write_partition(alloc: Global, partition: &Partition<'_>, writer: &mut Writer) -> Written
    ensures { WritesValue result writer.old writer.new (partition_json (partition_of partition.now)) }
{
    writer.begin_object()?;
    write_guid(alloc, "type", partition.kind, writer)?;
    write_guid(alloc, "guid", partition.guid, writer)?;
    write_address(alloc, "first", partition.first, writer)?;
    write_address(alloc, "last", partition.last, writer)?;
    write_address(alloc, "attributes", partition.attributes, writer)?;
    write_wide(alloc, "name", "name_hex", partition.name, writer)?;
    writer.end_object()?;
    Ok(())
}

// Writes the member of vendor tables that firmware hands over.
fn write_handoff(alloc: Global, handoff: &Handoff<'_>, writer: &mut Writer) -> Written
    ensures { WritesMembers result writer.old writer.new ((codes "handoff", handoff_json (handoff_of handoff.now)) ∷ []) }
{
    writer.key("handoff")?;
    writer.begin_object()?;
    write_description(alloc, handoff.description, writer)?;
    writer.key("tables")?;
    writer.begin_array()?;
    write_tables(alloc, handoff, writer)?;
    writer.end_array()?;
    writer.end_object()?;
    Ok(())
}

fn write_tables(alloc: Global, handoff: &Handoff<'_>, writer: &mut Writer) -> Written
    ensures { WritesItems result writer.old writer.new (map table_json (tables_of (handoff_of handoff.now))) }
{
    let mut left = handoff.tables();
    while let Some(table) = left.next_table() {
        write_table(alloc, &table, writer)?;
    }
    Ok(())
}

fn write_table(alloc: Global, table: &Table<'_>, writer: &mut Writer) -> Written
    ensures { WritesValue result writer.old writer.new (table_json (table_of table.now)) }
{
    writer.begin_object()?;
    write_guid(alloc, "guid", table.vendor, writer)?;
    write_table_name(table.vendor, writer)?;
    write_address(alloc, "address", table.address, writer)?;
    writer.end_object()?;
    Ok(())
}

// Writes the member of a table's name, if one is known.
fn write_table_name(vendor: &[u8], writer: &mut Writer) -> Written
    ensures { WritesMembers result writer.old writer.new (name_members (table_name vendor.now)) }
{
    match table_name(vendor) {
        Some(name) => write_text("name", name, writer),
        None => Ok(()),
    }
}
