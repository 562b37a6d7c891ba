//! Laws: consequences of the definitions, each the contract of a function that does nothing, or only reads.

ghost use Rattle.std.specs.Prelude.{◌≡◌, ℕ, ◌↔◌, codes, Some, None, IsTrue};
ghost use Rattle.hex.specs.Hex.{IsBytes};
ghost use Rattle.ima_list.specs.Names.{FileFields, HasFields, IsEntry, IsGenuine, ListEntry, fields_of};
ghost use Rattle.json.specs.Find.{get};
ghost use Rattle.cells.specs.Values.{IsCount, IsOneLine, line_of};
ghost use Rattle.entry_lines.specs.EntryJson.{HasBytes, IsKnown, entry_count_json, entry_json, is_genuine};

use ima_list::EntryRef;

/// The line of each entry, and that of how many there are, are each one line: its text reads back as the value, and has no line feed. Numbers are
/// such as code holds (`IsCount`).
pub fn each_value_is_one_line()
    ensures entry { (number : ℕ) (entry : ListEntry) → IsCount number → IsEntry entry → IsOneLine (entry_json number entry) }
    ensures entry_count { (entries : ℕ) → IsCount entries → IsOneLine (entry_count_json entries) }
{}

/// No line of an entry, and not that of how many there are, has a member `fault`: only faults have one (`rendering::laws`).
pub fn no_line_has_a_fault()
    ensures entry { (number : ℕ) (entry : ListEntry) → get (codes "fault") (entry_json number entry) ≡ None }
    ensures entry_count { (entries : ℕ) → get (codes "fault") (entry_count_json entries) ≡ None }
{}

/// An entry's line says that it is genuine exactly where it is.
pub fn genuine_is_genuine()
    ensures { (entry : ListEntry) → IsTrue (is_genuine entry) ↔ IsGenuine entry }
{}

/// An entry's line tells all of it: entries with one line have the same number, and are the same entry.
pub fn lines_tell_entries(first: &EntryRef<'_>, second: &EntryRef<'_>)
    ensures { (number other : ℕ) → IsCount number → IsCount other
        → line_of (entry_json number first.now) ≡ line_of (entry_json other second.now)
        → (number ≡ other) × (first.now ≡ second.now) }
{
    known(first);
    known(second);
}

// What is known of an entry that code holds.
fn known(entry: &EntryRef<'_>)
    ensures { IsKnown entry.now }
{
    let digest = entry.digest();
    are_bytes(&digest);
    are_bytes(entry.name());
    are_bytes(entry.payload());
    known_fields(entry);
}

// What is known of an entry's fields.
fn known_fields(entry: &EntryRef<'_>)
    ensures { (fields : FileFields) → fields_of entry.now ≡ Some fields → HasFields entry.now fields × HasBytes fields }
{
    if let Some(fields) = entry.fields() {
        are_bytes(fields.file.bytes());
        are_bytes(fields.path);
        are_bytes(fields.sig);
    }
}

// Bytes are below 256.
fn are_bytes(bytes: &[u8])
    ensures { IsBytes bytes.now }
{
    let _ = bytes;
}
