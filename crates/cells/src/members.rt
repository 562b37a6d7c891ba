//! Writers of members.

ghost use Rattle.std.specs.Prelude.{[], ◌∷◌};
ghost use Rattle.json.specs.Json.{boolean, string};
ghost use Rattle.cells.specs.Values.{hex_json, number_json, shown_member};
ghost use Rattle.cells.specs.Writing.{WritesMembers};

use crate::writer::Written;
use json::Writer;
use std::alloc::Global;

/// Writes a member with a number. Fails only if memory runs out.
pub fn write_number(name: &str, number: u64, writer: &mut Writer) -> Written
    ensures { WritesMembers result writer.old writer.new ((name.now, number_json number) ∷ []) }
{
    writer.key(name)?;
    writer.u64(number)?;
    Ok(())
}

/// Writes a member with a truth value. Fails only if memory runs out.
pub fn write_flag(name: &str, flag: bool, writer: &mut Writer) -> Written
    ensures { WritesMembers result writer.old writer.new ((name.now, boolean flag) ∷ []) }
{
    writer.key(name)?;
    writer.boolean(flag)?;
    Ok(())
}

/// Writes a member with a text. Fails only if memory runs out.
pub fn write_text(name: &str, text: &str, writer: &mut Writer) -> Written
    ensures { WritesMembers result writer.old writer.new ((name.now, string text.now) ∷ []) }
{
    writer.key(name)?;
    writer.string(text)?;
    Ok(())
}

/// Writes a member with bytes in hexadecimal. Fails only if memory runs out.
pub fn write_hex(alloc: Global, name: &str, bytes: &[u8], writer: &mut Writer) -> Written
    ensures { WritesMembers result writer.old writer.new ((name.now, hex_json bytes.now) ∷ []) }
{
    let digits = hex::encode(alloc, bytes)?;
    write_text(name, &digits, writer)
}

/// Writes a member that shows bytes: as text, or under the other name in hexadecimal where they are not UTF-8. Fails only if memory runs out.
pub fn write_shown(
    alloc: Global,
    name: &str,
    hex_name: &str,
    bytes: &[u8],
    writer: &mut Writer,
) -> Written
    ensures { WritesMembers result writer.old writer.new (shown_member name.now hex_name.now bytes.now ∷ []) }
{
    match std::str::from_utf8(bytes) {
        Ok(text) => write_text(name, text, writer),
        Err(_) => write_hex(alloc, hex_name, bytes, writer),
    }
}
