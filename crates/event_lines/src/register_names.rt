//! What systemd calls the registers.

ghost use Rattle.std.specs.Prelude.{◌≡◌, Some, option_copied, option_map};
ghost use Rattle.cells.specs.Cells.{ShowsMembers};
ghost use Rattle.event_lines.specs.RegisterNames.{register_name_cell, register_cell, register_name};

use cells::{CellWriter, Written};

/// The registers that have names, and these (systemd-analyze(1), 'pcrs').
static REGISTER_NAMES: [(u32, &str); 17] = [
    (0, "platform-code"),
    (1, "platform-config"),
    (2, "external-code"),
    (3, "external-config"),
    (4, "boot-loader-code"),
    (5, "boot-loader-config"),
    (6, "host-platform"),
    (7, "secure-boot-policy"),
    (9, "kernel-initrd"),
    (10, "ima"),
    (11, "kernel-boot"),
    (12, "kernel-config"),
    (13, "sysexts"),
    (14, "shim-policy"),
    (15, "system-identity"),
    (16, "debug"),
    (23, "application-support"),
];

/// What systemd calls the register; `None` for one that it has no name for, such as 8.
pub fn register_name(register: u32) -> Option<&'static str>
    ensures { option_map (λ name. name.now) result ≡ register_name register }
{
    let named = REGISTER_NAMES.iter().find(|named| named.0 == register)?;
    Some(named.1)
}

/// Shows the register: its number, in text after these words, and its name if it has one.
pub fn show_register(before: &str, register: u32, out: &mut CellWriter) -> Written
    ensures { ShowsMembers result out.old out.new (register_cell before.now register) }
{
    out.number(before, "register", register as u64)?;
    show_register_name(register_name(register), out)
}

// Shows the name, if there is one.
fn show_register_name(name: Option<&str>, out: &mut CellWriter) -> Written
    ensures { ShowsMembers result out.old out.new (register_name_cell (option_copied name.entry)) }
{
    match name {
        Some(name) => show_name(name, out),
        None => Ok(()),
    }
}

// Shows a name; in text in brackets.
fn show_name(name: &str, out: &mut CellWriter) -> Written
    ensures { ShowsMembers result out.old out.new (register_name_cell (Some name.now)) }
{
    out.text(" (")?;
    out.word("", "register_name", name)?;
    out.text(")")
}
