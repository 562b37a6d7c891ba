//! A command that GRUB measured.

ghost use Rattle.std.specs.Prelude.{◌≡◌, Some, IfSome, option_map};
ghost use Rattle.event_data.specs.Forms.{CommandData, IsCommand, command_of, command_prefix, hashed_text, hashes_nul};
ghost use Rattle.event_data.specs.Results.{any_command, command_as, command_in, red_hat_command};

use crate::text::{after_prefix, before_suffix};

/// What kind of command GRUB measured, into register 8.
#[derive(Clone, Copy)]
pub enum CommandKind {
    /// A command of its own.
    Grub,
    /// The command line of the kernel.
    Kernel,
    /// The command line of a module.
    Module,
    /// A command of GRUB's own, as RHEL 8 has it: with its NUL it is hashed.
    RedHatGrub,
    /// The command line of the kernel, as RHEL 8's GRUB has it.
    RedHatKernel,
}

/// A command that GRUB measured (`grub_verify_string`): its digest is the hash of the text, without the prefix that tells the kind
/// ([`read_hashed_text`]).
#[derive(Clone, Copy)]
pub struct Command<'a> {
    pub kind: CommandKind,
    pub text: &'a [u8],
}

// The prefix that tells the kind.
fn prefix_of(kind: CommandKind) -> &'static [u8]
    ensures { result.now ≡ command_prefix kind }
{
    match kind {
        CommandKind::Grub => b"grub_cmd: ",
        CommandKind::Kernel => b"kernel_cmdline: ",
        CommandKind::Module => b"module_cmdline: ",
        CommandKind::RedHatGrub => b"grub_cmd ",
        CommandKind::RedHatKernel => b"grub_kernel_cmdline ",
    }
}

// Whether the NUL behind such a command is hashed too.
fn hashes_nul(kind: CommandKind) -> bool
    ensures { result ≡ hashes_nul kind }
{
    match kind {
        CommandKind::Grub => false,
        CommandKind::Kernel => false,
        CommandKind::Module => false,
        CommandKind::RedHatGrub => true,
        CommandKind::RedHatKernel => false,
    }
}

// The line as a command of this kind.
fn line_as<'a>(kind: CommandKind, line: &'a [u8]) -> Option<Command<'a>>
    ensures { option_map command_of result ≡ command_as kind line.now }
{
    let text = after_prefix(prefix_of(kind), line)?;
    Some(Command { kind, text })
}

// The line as a command of RHEL 8's GRUB.
fn line_as_red_hat(line: &[u8]) -> Option<Command<'_>>
    ensures { option_map command_of result ≡ red_hat_command line.now }
{
    if let Some(command) = line_as(CommandKind::RedHatGrub, line) {
        return Some(command);
    }
    line_as(CommandKind::RedHatKernel, line)
}

// The line as a command of any kind.
fn line_as_any(line: &[u8]) -> Option<Command<'_>>
    ensures { option_map command_of result ≡ any_command line.now }
{
    if let Some(command) = line_as(CommandKind::Grub, line) {
        return Some(command);
    }
    if let Some(command) = line_as(CommandKind::Kernel, line) {
        return Some(command);
    }
    if let Some(command) = line_as(CommandKind::Module, line) {
        return Some(command);
    }
    line_as_red_hat(line)
}

/// The command that the bytes are; `None` where they are none.
pub fn read_command(bytes: &[u8]) -> Option<Command<'_>>
    ensures value { option_map command_of result ≡ command_in bytes.now }
    ensures found { IfSome result (λ found. IsCommand bytes.now (command_of found)) }
    ensures only { (value : CommandData) → IsCommand bytes.now value → option_map command_of result ≡ Some value }
{
    line_as_any(before_suffix(&[0], bytes)?)
}

// The bytes of this command whose hash GRUB extends.
fn hashed_of<'a>(command: Command<'a>, bytes: &'a [u8]) -> Option<&'a [u8]>
    requires { IsCommand bytes.now (command_of command) }
    ensures { option_map (λ text. text.now) result ≡ Some (hashed_text (command_of command.entry)) }
{
    if hashes_nul(command.kind) {
        after_prefix(b"grub_cmd ", bytes)
    } else {
        Some(command.text)
    }
}

/// The bytes whose hash GRUB extends for the command that the bytes are: its text, or in RHEL 8's GRUB, for a command of its own, the text
/// with its NUL; `None` where the bytes are no command.
pub fn read_hashed_text(bytes: &[u8]) -> Option<&[u8]>
    ensures { option_map (λ text. text.now) result ≡ option_map hashed_text (command_in bytes.now) }
{
    match read_command(bytes) {
        Some(command) => hashed_of(command, bytes),
        None => None,
    }
}
