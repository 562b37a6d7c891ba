//! The fields that the text of a node shows, and the rows of the texts of nodes.

ghost use Rattle.std.specs.Prelude.{◌≡◌, [], ◌∷◌, ◌++◌, OnOk, codes, decimal, drop, Some, length, option_map};
ghost use Rattle.std.specs.Int.{w16, w32, w64, from_le_bytes};
ghost use Rattle.std.specs.String.{string_bytes};
ghost use Rattle.hex.specs.Hex.{encode_lower};
ghost use Rattle.event_data.specs.Names.{node_of};
ghost use Rattle.event_texts.specs.Guids.{bytes_at};
ghost use Rattle.event_texts.specs.NodeFields.{dashed, field_text, fields_text};
ghost use Rattle.event_texts.specs.NodeRows.{acpi_row, drive_row, generic_row, hardware_row, known_row, mac_row, media_row, messaging_row, other_acpi_row, row, row_data, row_of, vendor_row};

use crate::bytes::{
    byte_at, bytes_from, first_bytes, push_dashed, push_guid, push_hex, push_number,
};
use event_data::PathNode;
use std::alloc::{AllocError, Global};

/// A field that the text of a node shows: what it is, and its place behind the node's length. A number is in hexadecimal.
#[derive(Clone, Copy)]
pub(crate) enum Field {
    /// The node's type, in decimal.
    Kind,
    /// The node's sub-type, in decimal.
    Subtype,
    /// A number of one byte.
    U8(usize),
    /// A number of two bytes.
    U16(usize),
    /// A number of four bytes.
    U32(usize),
    /// A number of eight bytes.
    U64(usize),
    /// A number of four bytes, in decimal.
    Decimal(usize),
    /// A GUID.
    Guid(usize),
    /// So many bytes, in hexadecimal.
    Bytes(usize, usize),
    /// All bytes from the place on, in hexadecimal.
    Rest(usize),
    /// An EUI-64.
    Eui(usize),
    /// The number of a PNP identifier, two bytes.
    Pnp(usize),
    /// The word 'GPT'.
    Gpt,
    /// The word 'MBR'.
    Mbr,
}

// The number in the first two bytes.
fn u16_in(bytes: &[u8]) -> u16
    ensures { result ≡ from_le_bytes w16 bytes.now }
{
    u16::from_le_bytes([byte_at(bytes, 0), byte_at(bytes, 1)])
}

// Appends a number in decimal.
fn push_decimal(value: u32, text: &mut String) -> Result<(), AllocError>
    ensures { OnOk result (string_bytes text.new ≡ string_bytes text.old ++ decimal value) }
{
    write!(text, "{value}")
}

// Appends an EUI-64, eight bytes of which the last is the first that is shown.
fn push_eui(bytes: &[u8], text: &mut String) -> Result<(), AllocError>
    ensures { OnOk result (string_bytes text.new
        ≡ string_bytes text.old ++ dashed (bytes_at (7 ∷ 6 ∷ 5 ∷ 4 ∷ 3 ∷ 2 ∷ 1 ∷ 0 ∷ []) bytes.now)) }
{
    let turned = [
        byte_at(bytes, 7),
        byte_at(bytes, 6),
        byte_at(bytes, 5),
        byte_at(bytes, 4),
        byte_at(bytes, 3),
        byte_at(bytes, 2),
        byte_at(bytes, 1),
        byte_at(bytes, 0),
    ];
    push_dashed(&turned, text)
}

// Appends the number of a PNP identifier, two bytes.
fn push_pnp(alloc: Global, bytes: &[u8], text: &mut String) -> Result<(), AllocError>
    ensures { OnOk result (string_bytes text.new ≡ string_bytes text.old ++ (codes "PNP" ++ encode_lower (bytes_at (1 ∷ 0 ∷ []) bytes.now))) }
{
    text.push_str("PNP")?;
    push_hex(alloc, &[byte_at(bytes, 1), byte_at(bytes, 0)], text)
}

/// The number in the first four bytes.
pub(crate) fn u32_in(bytes: &[u8]) -> u32
    ensures { result ≡ from_le_bytes w32 bytes.now }
{
    u32::from_le_bytes([
        byte_at(bytes, 0),
        byte_at(bytes, 1),
        byte_at(bytes, 2),
        byte_at(bytes, 3),
    ])
}

// The number in the first eight bytes.
fn u64_in(bytes: &[u8]) -> u64
    ensures { result ≡ from_le_bytes w64 bytes.now }
{
    u64::from_le_bytes([
        byte_at(bytes, 0),
        byte_at(bytes, 1),
        byte_at(bytes, 2),
        byte_at(bytes, 3),
        byte_at(bytes, 4),
        byte_at(bytes, 5),
        byte_at(bytes, 6),
        byte_at(bytes, 7),
    ])
}

// Appends what a field shows.
fn push_field(
    alloc: Global,
    field: Field,
    node: &PathNode<'_>,
    text: &mut String,
) -> Result<(), AllocError>
    ensures { OnOk result (string_bytes text.new ≡ string_bytes text.old ++ field_text field (node_of node.now)) }
{
    let bytes = node.payload;
    match field {
        Field::Kind => push_decimal(u32::from(node.kind), text),
        Field::Subtype => push_decimal(u32::from(node.subtype), text),
        Field::U8(place) => push_number(u64::from(byte_at(bytes, place)), text),
        Field::U16(place) => push_number(u64::from(u16_in(bytes_from(bytes, place))), text),
        Field::U32(place) => push_number(u64::from(u32_in(bytes_from(bytes, place))), text),
        Field::U64(place) => push_number(u64_in(bytes_from(bytes, place)), text),
        Field::Decimal(place) => push_decimal(u32_in(bytes_from(bytes, place)), text),
        Field::Guid(place) => push_guid(alloc, bytes_from(bytes, place), text),
        Field::Bytes(place, count) => push_hex(
            alloc,
            first_bytes(bytes_from(bytes, place), count),
            text,
        ),
        Field::Rest(place) => push_hex(alloc, bytes_from(bytes, place), text),
        Field::Eui(place) => push_eui(bytes_from(bytes, place), text),
        Field::Pnp(place) => push_pnp(alloc, bytes_from(bytes, place), text),
        Field::Gpt => text.push_str("GPT"),
        Field::Mbr => text.push_str("MBR"),
    }
}

/// Appends what fields show, with a ',' between each two.
pub(crate) fn push_fields(
    alloc: Global,
    fields: &[Field],
    node: &PathNode<'_>,
    text: &mut String,
) -> Result<(), AllocError>
    ensures { OnOk result (string_bytes text.new ≡ string_bytes text.old ++ fields_text fields.now (node_of node.now)) }
{
    if let [first, others @ ..] = fields {
        push_field(alloc, *first, node, text)?;
        for field in others {
            text.push_str(",")?;
            push_field(alloc, *field, node, text)?;
        }
    }
    Ok(())
}

/// The low half of the identifiers that PNP gives.
const PNP_VENDOR: u32 = 0x41D0;

/// A row: the name of a node, and the fields that are shown in parentheses.
#[derive(Clone, Copy)]
pub(crate) struct NodeRow {
    pub(crate) name: &'static str,
    pub(crate) fields: &'static [Field],
}

impl NodeRow {
    fn new(name: &'static str, fields: &'static [Field]) -> Self
        ensures { row_data result ≡ row name.now fields.now }
    {
        NodeRow { name, fields }
    }
}

// The row of a vendor's node: a GUID, and bytes after it if there are some.
fn vendor_row(name: &'static str, size: usize) -> Option<NodeRow>
    ensures { option_map row_data result ≡ vendor_row name.now size }
{
    let fields: &'static [Field] = match size {
        0..=15 => return None,
        16 => &[Field::Guid(0)],
        _ => &[Field::Guid(0), Field::Rest(16)],
    };
    Some(NodeRow::new(name, fields))
}

// The row of a hardware node.
fn hardware_row(subtype: u8, size: usize) -> Option<NodeRow>
    ensures { option_map row_data result ≡ hardware_row subtype size }
{
    match subtype {
        1 if size == 2 => Some(NodeRow::new("Pci", &[Field::U8(1), Field::U8(0)])),
        3 if size == 20 => Some(NodeRow::new(
            "MemoryMapped",
            &[Field::U32(0), Field::U64(4), Field::U64(12)],
        )),
        4 => vendor_row("VenHw", size),
        5 if size == 4 => Some(NodeRow::new("Ctrl", &[Field::U32(0)])),
        _ => None,
    }
}

// The row of an ACPI node, by its hardware identifier.
fn acpi_row(hid: u32) -> NodeRow
    ensures { row_data result ≡ acpi_row hid }
{
    let name = match hid {
        0x0A03_41D0 => "PciRoot",
        0x0A08_41D0 => "PcieRoot",
        0x0604_41D0 => "Floppy",
        0x0301_41D0 => "Keyboard",
        0x0501_41D0 => "Serial",
        0x0401_41D0 => "ParallelPort",
        _ => return other_acpi_row(hid),
    };
    NodeRow::new(name, &[Field::U32(4)])
}

// The row of an ACPI node that has no name of its own.
fn other_acpi_row(hid: u32) -> NodeRow
    ensures { row_data result ≡ other_acpi_row hid }
{
    let fields: &'static [Field] = if hid % 0x1_0000 == PNP_VENDOR {
        &[Field::Pnp(2), Field::U32(4)]
    } else {
        &[Field::U32(0), Field::U32(4)]
    };
    NodeRow::new("Acpi", fields)
}

// The row of a network interface's address.
fn mac_row(interface: u8) -> NodeRow
    ensures { row_data result ≡ mac_row interface }
{
    let fields: &'static [Field] = if interface < 2 {
        &[Field::Bytes(0, 6), Field::U8(32)]
    } else {
        &[Field::Bytes(0, 32), Field::U8(32)]
    };
    NodeRow::new("MAC", fields)
}

// The row of a messaging node.
fn messaging_row(subtype: u8, payload: &[u8]) -> Option<NodeRow>
    ensures { option_map row_data result ≡ messaging_row subtype payload.now }
{
    let size = payload.len();
    match subtype {
        2 if size == 4 => Some(NodeRow::new("Scsi", &[Field::U16(0), Field::U16(2)])),
        5 if size == 2 => Some(NodeRow::new("USB", &[Field::U8(0), Field::U8(1)])),
        10 => vendor_row("VenMsg", size),
        11 if size == 33 => Some(mac_row(byte_at(payload, 32))),
        17 if size == 1 => Some(NodeRow::new("Unit", &[Field::U8(0)])),
        18 if size == 6 => Some(NodeRow::new(
            "Sata",
            &[Field::U16(0), Field::U16(2), Field::U16(4)],
        )),
        23 if size == 12 => Some(NodeRow::new("NVMe", &[Field::U32(0), Field::Eui(4)])),
        25 if size == 2 => Some(NodeRow::new("UFS", &[Field::U8(0), Field::U8(1)])),
        26 if size == 1 => Some(NodeRow::new("SD", &[Field::U8(0)])),
        29 if size == 1 => Some(NodeRow::new("eMMC", &[Field::U8(0)])),
        _ => None,
    }
}

// The row of a hard drive, by the type of its signature.
fn drive_row(signature_type: u8) -> Option<NodeRow>
    ensures { option_map row_data result ≡ drive_row signature_type }
{
    let fields: &'static [Field] = match signature_type {
        1 => &[
            Field::Decimal(0),
            Field::Mbr,
            Field::U32(20),
            Field::U64(4),
            Field::U64(12),
        ],
        2 => &[
            Field::Decimal(0),
            Field::Gpt,
            Field::Guid(20),
            Field::U64(4),
            Field::U64(12),
        ],
        _ => return None,
    };
    Some(NodeRow::new("HD", fields))
}

// The row of a media node.
fn media_row(subtype: u8, payload: &[u8]) -> Option<NodeRow>
    ensures { option_map row_data result ≡ media_row subtype payload.now }
{
    let size = payload.len();
    match subtype {
        1 if size == 38 => drive_row(byte_at(payload, 37)),
        2 if size == 20 => Some(NodeRow::new(
            "CDROM",
            &[Field::U32(0), Field::U64(4), Field::U64(12)],
        )),
        3 => vendor_row("VenMedia", size),
        6 if size == 16 => Some(NodeRow::new("FvFile", &[Field::Guid(0)])),
        7 if size == 16 => Some(NodeRow::new("Fv", &[Field::Guid(0)])),
        8 if size == 20 => Some(NodeRow::new("Offset", &[Field::U64(4), Field::U64(12)])),
        _ => None,
    }
}

// The row of a node, where its type, its sub-type and its size have one.
fn known_row(node: &PathNode<'_>) -> Option<NodeRow>
    ensures { option_map row_data result ≡ known_row (node_of node.now) }
{
    let payload = node.payload;
    match node.kind {
        1 => hardware_row(node.subtype, payload.len()),
        2 if node.subtype == 1 && payload.len() == 8 => Some(acpi_row(u32_in(payload))),
        3 => messaging_row(node.subtype, payload),
        4 => media_row(node.subtype, payload),
        _ => None,
    }
}

// The row of the generic form of any node.
fn generic_row(node: &PathNode<'_>) -> NodeRow
    ensures { row_data result ≡ generic_row (node_of node.now) }
{
    let fields: &'static [Field] = if node.payload.is_empty() {
        &[Field::Kind, Field::Subtype]
    } else {
        &[Field::Kind, Field::Subtype, Field::Rest(0)]
    };
    NodeRow::new("Path", fields)
}

/// The row of a node.
pub(crate) fn row_of(node: &PathNode<'_>) -> NodeRow
    ensures { row_data result ≡ row_of (node_of node.now) }
{
    match known_row(node) {
        Some(row) => row,
        None => generic_row(node),
    }
}
