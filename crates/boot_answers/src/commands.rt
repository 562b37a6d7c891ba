//! The texts that boot loaders measure.

ghost use Rattle.std.specs.Prelude.{◌≡◌, option_map};
ghost use Rattle.boot_log.specs.Names.{log_event_of};
ghost use Rattle.boot_answers.specs.Commands.{said_of, told_text};

use boot_log::Event;
use event_data::{Command, read_command, read_wide_text};
use measured_data::{GRUB_REGISTER, Part, Pcr, confirmed_part};

/// The register of systemd-stub's command line.
pub const STUB_REGISTER: u32 = 12;

/// The registers of commands: that of GRUB's, and that of systemd-stub's command line.
pub const COMMAND_REGISTERS: [u32; 2] = [GRUB_REGISTER, STUB_REGISTER];

/// A text that a boot loader measured.
#[derive(Clone, Copy)]
pub enum CommandText<'a> {
    /// A command of GRUB. Its kind is claimed.
    Grub(Command<'a>),
    /// A text in units of two bytes, as systemd-stub measures the kernel's command line, without the NUL unit at its end. To be converted
    /// before it is asked of [`crate::may_set_ima_policy`]; where it is no UTF-16, its options are unknown.
    Wide(&'a [u8]),
}

/// The text that the event tells, by the registers in `matched`, those that match: the text of a command of GRUB, or a text in units of two
/// bytes that is all of the event's data, where it is measured in each bank that answers for the event's register, and there is such a bank
/// ([`measured_data::is_answering`]). `None` where there is none: the event may then be any text, as root can show other data for it. So no
/// text is to be taken from the events of its register after it.
pub fn told_text<'a>(event: &Event<'a>, matched: &[Pcr]) -> Option<CommandText<'a>>
    ensures { option_map said_of result ≡ told_text matched.now (log_event_of event.now) }
{
    match confirmed_part(event, matched) {
        Some(Part::Command) => Some(CommandText::Grub(read_command(event.payload)?)),
        Some(Part::Whole) => Some(CommandText::Wide(read_wide_text(event.payload)?)),
        _ => None,
    }
}
