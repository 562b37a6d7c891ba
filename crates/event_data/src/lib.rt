//! What the data of a firmware event says, by the event's type (TCG PC Client Platform Firmware Profile, chapter 10).
//!
//! All parts are lent: nothing is copied or allocated.
#![tactic(auto)]

mod command;
mod content;
mod gpt;
mod gpt_reader;
mod handoff;
mod handoff_reader;
mod laws;
mod load_option;
mod path;
mod short_forms;
mod table_names;
mod text;
mod value_reader;
mod variable;

pub use command::{Command, CommandKind, read_command, read_hashed_text};
pub use content::{DataForm, EventContent, event_content, form_of};
pub use gpt::{Gpt, Partition, Partitions};
pub use gpt_reader::read_gpt;
pub use handoff::{Handoff, Table, Tables};
pub use handoff_reader::{read_described_handoff, read_handoff};
pub use laws::{
    handoff_is_its_tables, list_is_its_signatures, says_one_thing, value_says_one_thing,
};
pub use load_option::{BootOrder, LoadOption, read_load_option};
pub use path::{DevicePath, PathNode};
pub use short_forms::{
    Blob, Guid, Image, Tagged, read_described_blob, read_guid, read_image, read_image_then,
    read_locality, read_plain_blob, read_tagged, read_technology,
};
pub use table_names::table_name;
pub use text::{read_separator, read_text, read_wide_text};
pub use value_reader::{
    ValueContent, ValueForm, read_certificate, read_signature, read_variable, read_variable_then,
    value_content, value_form,
};
pub use variable::{Signature, SignatureList, SignatureLists, Signatures, Variable};
