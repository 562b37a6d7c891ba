//! The forms that the data of events have, by type, and what the data says.

ghost use Rattle.std.specs.Prelude.{◌≡◌, option_map};
ghost use Rattle.event_data.specs.EventForms.{form_of, Says, content_of};
ghost use Rattle.event_data.specs.declared.content.DataForm.TheVariants as forms;
ghost use Rattle.event_data.specs.ContentReading.{configuration_content, content_in, form_content, host_content, loader_content, long_text_content, post_code_content, tag_content, text_and_nul_content, text_content, version_content};

use crate::command::{Command, read_command};
use crate::gpt::Gpt;
use crate::gpt_reader::read_gpt;
use crate::handoff::Handoff;
use crate::handoff_reader::{read_described_handoff, read_handoff};
use crate::short_forms::{
    Blob, Guid, Image, Tagged, read_described_blob, read_guid, read_image_then, read_locality,
    read_plain_blob, read_tagged, read_technology,
};
use crate::text::{before_suffix, read_separator, read_text, read_wide_text};
use crate::value_reader::read_variable_then;
use crate::variable::Variable;

/// A form of an event's data.
#[derive(Clone, Copy)]
pub enum DataForm {
    /// Four bytes.
    Separator,
    /// A text, in UTF-8 or UTF-16.
    Text,
    /// A text, in UTF-8 or UTF-16, or a GUID.
    Version,
    /// What a boot loader measured: a command of GRUB, or a text in UTF-8 or UTF-16, and then a NUL more or none.
    Loader,
    /// A text in UTF-8, or a blob without a description.
    PostCode,
    /// A UEFI variable, and then any bytes.
    Variable,
    /// An image that was loaded, and then any bytes.
    Image,
    /// A disk's table of partitions.
    Gpt,
    /// A blob of firmware without a description.
    PlainBlob,
    /// A blob of firmware with a description.
    DescribedBlob,
    /// A text in UTF-8, or a tagged event.
    Tagged,
    /// A text in UTF-8, or a blob with a description.
    Configuration,
    /// How a host keeps its guests apart, or a configuration.
    Host,
    /// Vendor tables that firmware hands over, without a description.
    Handoff,
    /// Vendor tables that firmware hands over, with a description.
    DescribedHandoff,
    /// The locality of the startup command.
    Locality,
    /// No form that is known here.
    Other,
}

/// The form that the data of events of this type has.
pub fn form_of(kind: u32) -> DataForm
    ensures { result ≡ form_of kind }
{
    match kind {
        0x0000_0001 => DataForm::PostCode,
        0x0000_0003 => DataForm::Locality,
        0x0000_0004 => DataForm::Separator,
        0x0000_0006 => DataForm::Tagged,
        0x0000_0008 => DataForm::Version,
        0x0000_000D => DataForm::Loader,
        0x0000_0011 => DataForm::Host,
        0x8000_0008 => DataForm::PlainBlob,
        0x8000_0009 => DataForm::Handoff,
        0x8000_000B => DataForm::DescribedHandoff,
        0x0000_0005 | 0x0000_0007 | 0x0000_000C | 0x0000_0012 | 0x8000_0007 | 0x8000_0010 => {
            DataForm::Text
        }
        0x8000_0001 | 0x8000_0002 | 0x8000_000C | 0x8000_00E0 | 0x8000_00E3 | 0x8000_00E4 => {
            DataForm::Variable
        }
        0x8000_0003 | 0x8000_0004 | 0x8000_0005 => DataForm::Image,
        0x8000_0006 | 0x8000_000D => DataForm::Gpt,
        0x0000_0013 | 0x8000_000A => DataForm::DescribedBlob,
        0x0000_0009 | 0x0000_000A | 0x0000_000B | 0x0000_000F | 0x0000_0010 => {
            DataForm::Configuration
        }
        _ => DataForm::Other,
    }
}

/// What an event's data says.
#[derive(Clone, Copy)]
pub enum EventContent<'a> {
    /// A separator's number: 0 or 0xffffffff; or 1 for an error.
    Separator(u32),
    /// A text, without the NUL that may stand at its end.
    Text(&'a str),
    /// A text in units of two bytes, UTF-16, without the NUL at its end.
    WideText(&'a [u8]),
    /// A GUID.
    Guid(Guid<'a>),
    /// A command that GRUB measured.
    Command(Command<'a>),
    /// A UEFI variable, and the bytes behind it.
    Variable(Variable<'a>, &'a [u8]),
    /// An image that was loaded, and the bytes behind it.
    Image(Image<'a>, &'a [u8]),
    /// A disk's table of partitions.
    Gpt(Gpt<'a>),
    /// A blob of firmware.
    Blob(Blob<'a>),
    /// A tagged event.
    Tagged(Tagged<'a>),
    /// The locality from which the TPM was started.
    Locality(u8),
    /// How a host of Google keeps its guests apart ([`crate::read_technology`]).
    Technology(u8),
    /// Vendor tables that firmware hands over.
    Handoff(Handoff<'a>),
    /// Data of no form that is known for the type.
    Unknown(&'a [u8]),
}

// A text of either kind.
fn text_content(bytes: &[u8]) -> Option<EventContent<'_>>
    ensures { option_map content_of result ≡ text_content bytes.now }
{
    if let Some(text) = read_text(bytes) {
        return Some(EventContent::Text(text));
    }
    Some(EventContent::WideText(read_wide_text(bytes)?))
}

// A version: a text of either kind, else a GUID.
fn version_content(bytes: &[u8]) -> Option<EventContent<'_>>
    ensures { option_map content_of result ≡ version_content bytes.now }
{
    if let Some(content) = text_content(bytes) {
        return Some(content);
    }
    Some(EventContent::Guid(read_guid(bytes)?))
}

// A text of either kind, and a NUL more.
fn text_and_nul_content(bytes: &[u8]) -> Option<EventContent<'_>>
    ensures { option_map content_of result ≡ text_and_nul_content bytes.now }
{
    text_content(before_suffix(&[0], bytes)?)
}

// A text of either kind, else one with a NUL more.
fn long_text_content(bytes: &[u8]) -> Option<EventContent<'_>>
    ensures { option_map content_of result ≡ long_text_content bytes.now }
{
    if let Some(content) = text_content(bytes) {
        return Some(content);
    }
    text_and_nul_content(bytes)
}

// What a boot loader measured: a command, else a text of either kind, and a NUL more or none.
fn loader_content(bytes: &[u8]) -> Option<EventContent<'_>>
    ensures { option_map content_of result ≡ loader_content bytes.now }
{
    if let Some(command) = read_command(bytes) {
        return Some(EventContent::Command(command));
    }
    long_text_content(bytes)
}

// A text in UTF-8, else a tagged event.
fn tag_content(bytes: &[u8]) -> Option<EventContent<'_>>
    ensures { option_map content_of result ≡ tag_content bytes.now }
{
    if let Some(text) = read_text(bytes) {
        return Some(EventContent::Text(text));
    }
    Some(EventContent::Tagged(read_tagged(bytes)?))
}

// A text in UTF-8, else a blob with a description.
fn configuration_content(bytes: &[u8]) -> Option<EventContent<'_>>
    ensures { option_map content_of result ≡ configuration_content bytes.now }
{
    if let Some(text) = read_text(bytes) {
        return Some(EventContent::Text(text));
    }
    Some(EventContent::Blob(read_described_blob(bytes)?))
}

// How a host keeps its guests apart, else a configuration.
fn host_content(bytes: &[u8]) -> Option<EventContent<'_>>
    ensures { option_map content_of result ≡ host_content bytes.now }
{
    if let Some(technology) = read_technology(bytes) {
        return Some(EventContent::Technology(technology));
    }
    configuration_content(bytes)
}

// The variable at the start of the bytes, and what is behind it.
fn variable_content(bytes: &[u8]) -> Option<EventContent<'_>>
    ensures { option_map content_of result ≡ form_content forms.Variable bytes.now }
{
    let (variable, rest) = read_variable_then(bytes)?;
    Some(EventContent::Variable(variable, rest))
}

// The image at the start of the bytes, and what is behind it.
fn image_content(bytes: &[u8]) -> Option<EventContent<'_>>
    ensures { option_map content_of result ≡ form_content forms.Image bytes.now }
{
    let (image, rest) = read_image_then(bytes)?;
    Some(EventContent::Image(image, rest))
}

// A POST code: a text in UTF-8, else a blob.
fn post_code_content(bytes: &[u8]) -> Option<EventContent<'_>>
    ensures { option_map content_of result ≡ post_code_content bytes.now }
{
    if let Some(text) = read_text(bytes) {
        return Some(EventContent::Text(text));
    }
    Some(EventContent::Blob(read_plain_blob(bytes)?))
}

// What data of this form says.
fn form_content(form: DataForm, bytes: &[u8]) -> Option<EventContent<'_>>
    ensures { option_map content_of result ≡ form_content form bytes.now }
{
    match form {
        DataForm::Separator => Some(EventContent::Separator(read_separator(bytes)?)),
        DataForm::Text => text_content(bytes),
        DataForm::Version => version_content(bytes),
        DataForm::Loader => loader_content(bytes),
        DataForm::PostCode => post_code_content(bytes),
        DataForm::Variable => variable_content(bytes),
        DataForm::Image => image_content(bytes),
        DataForm::Gpt => Some(EventContent::Gpt(read_gpt(bytes)?)),
        DataForm::PlainBlob => Some(EventContent::Blob(read_plain_blob(bytes)?)),
        DataForm::DescribedBlob => Some(EventContent::Blob(read_described_blob(bytes)?)),
        DataForm::Tagged => tag_content(bytes),
        DataForm::Configuration => configuration_content(bytes),
        DataForm::Host => host_content(bytes),
        DataForm::Handoff => Some(EventContent::Handoff(read_handoff(bytes)?)),
        DataForm::DescribedHandoff => Some(EventContent::Handoff(read_described_handoff(bytes)?)),
        DataForm::Locality => Some(EventContent::Locality(read_locality(bytes)?)),
        DataForm::Other => None,
    }
}

/// What the data of an event of this type says: it has the form that the type's data has, or it is unknown. Bytes may follow a variable and
/// an image alone.
pub fn event_content(kind: u32, bytes: &[u8]) -> EventContent<'_>
    ensures value { content_of result ≡ content_in kind bytes.now }
    ensures says { Says kind bytes.now (content_of result) }
{
    match form_content(form_of(kind), bytes) {
        Some(content) => content,
        None => EventContent::Unknown(bytes),
    }
}

/// Bytes do not have the form.
#[derive(Clone, Copy)]
pub(crate) enum Mismatch {
    Form,
}
