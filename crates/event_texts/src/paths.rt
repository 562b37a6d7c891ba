//! Device paths.

ghost use Rattle.std.specs.Prelude.{◌≡◌, ◌++◌, IfOk, OnOk, option_map};
ghost use Rattle.std.specs.List.{list_all};
ghost use Rattle.std.specs.String.{string_bytes};
ghost use Rattle.event_data.specs.Names.{node_of};
ghost use Rattle.event_texts.specs.NodeRows.{row_of, row_text};
ghost use Rattle.event_texts.specs.PathTexts.{file_text, is_end, is_uri_byte, node_text, path_text, told_text, uri_text};

use crate::bytes::wide_text;
use crate::node_row::{push_fields, row_of};
use event_data::{DevicePath, PathNode};
use std::alloc::{AllocError, Global};

// The text of a file path: what precedes the NUL at its end, as it is. `None` where it is no UTF-16.
fn file_text(alloc: Global, payload: &[u8]) -> Result<Option<String>, AllocError>
    ensures { IfOk result (λ text. option_map string_bytes text ≡ file_text payload.now) }
{
    match payload.strip_suffix(&[0, 0]) {
        Some(text) => wide_text(alloc, text),
        None => Ok(None),
    }
}

// Whether all bytes may stand in the text of a URI: printable characters of ASCII other than ')'.
fn are_uri_bytes(bytes: &[u8]) -> bool
    ensures { result ≡ list_all is_uri_byte bytes.now }
{
    bytes
        .iter()
        .all(|byte| 32 < *byte && *byte < 127 && *byte != b')')
}

// The text of a URI.
fn uri_text(alloc: Global, payload: &[u8]) -> Result<Option<String>, AllocError>
    ensures { IfOk result (λ text. option_map string_bytes text ≡ uri_text payload.now) }
{
    if !are_uri_bytes(payload) {
        return Ok(None);
    }
    let Ok(address) = str::from_utf8(payload) else {
        return Ok(None);
    };
    let mut text = String::new(alloc);
    text.push_str("Uri(")?;
    text.push_str(address)?;
    text.push_str(")")?;
    Ok(Some(text))
}

// The text of a node that shows a text.
fn told_text(alloc: Global, node: &PathNode<'_>) -> Result<Option<String>, AllocError>
    ensures { IfOk result (λ text. option_map string_bytes text ≡ told_text (node_of node.now)) }
{
    match (node.kind, node.subtype) {
        (4, 4) => file_text(alloc, node.payload),
        (3, 24) => uri_text(alloc, node.payload),
        _ => Ok(None),
    }
}

// Appends the name and the fields of a node, or its generic form.
fn push_row(alloc: Global, node: &PathNode<'_>, text: &mut String) -> Result<(), AllocError>
    ensures { OnOk result (string_bytes text.new ≡ string_bytes text.old ++ row_text (row_of (node_of node.now)) (node_of node.now)) }
{
    let row = row_of(node);
    text.push_str(row.name)?;
    text.push_str("(")?;
    push_fields(alloc, row.fields, node, text)?;
    text.push_str(")")
}

// Appends the text of a node.
fn push_node(alloc: Global, node: &PathNode<'_>, text: &mut String) -> Result<(), AllocError>
    ensures { OnOk result (string_bytes text.new ≡ string_bytes text.old ++ node_text (node_of node.now)) }
{
    match told_text(alloc, node)? {
        Some(told) => text.push_str(&told),
        None => push_row(alloc, node, text),
    }
}

// Whether a node ends a path, or one of the paths at the same place.
fn is_end(node: &PathNode<'_>) -> bool
    ensures { result ≡ is_end (node_of node.now) }
{
    node.kind == 0x7F && (node.subtype == 0x01 || node.subtype == 0xFF) && node.payload.is_empty()
}

/// The text of a device path (UEFI 2.10, section 10.6), in lower case hexadecimal: the texts of its nodes, with a '/' between each two, and a
/// ',' between two paths. `None` where the bytes are not whole nodes. A node of a type or a size that is not known here is told as
/// `Path(TYPE,SUBTYPE,BYTES)`.
///
/// The text is for people: a path cannot be read back from it. The name of a file is told as it is, and may have a '/', what looks like
/// other nodes, or control characters.
#[tactic(auto, unfolding(crate::specs::PathTexts::path_text))]
pub fn path_text(alloc: Global, path: &[u8]) -> Result<Option<String>, AllocError>
    ensures { IfOk result (λ text. option_map string_bytes text ≡ path_text path.now) }
{
    let mut text = String::new(alloc);
    let mut nodes = DevicePath::new(path);
    let mut lead = "";
    while let Some(node) = nodes.next_node() {
        if is_end(&node) {
            lead = ",";
        } else {
            text.push_str(lead)?;
            push_node(alloc, &node, &mut text)?;
            lead = "/";
        }
    }
    if !nodes.rest().is_empty() {
        return Ok(None);
    }
    Ok(Some(text))
}
