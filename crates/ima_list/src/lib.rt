//! The measurement list of Linux IMA: templates, entries with their fields and text lines, reading and writing the binary list,
//! its replay into registers, and the boot aggregate (Linux kernel documentation, 'IMA Template Management Mechanism').
//!
//! The sinks and sources of `byte_streams` are re-exported.
#![tactic(auto)]

mod aggregate;
mod entry;
mod entry_file;
mod entry_hashes;
mod entry_reader;
mod entry_ref;
mod entry_writer;
mod fault;
mod field_kind;
mod fields;
mod kernel_field;
mod kernel_fields;
pub mod laws;
mod line;
mod list_reader;
mod list_replay;
mod payload;
mod template;

pub use aggregate::{BOOT_AGGREGATE_PATH, boot_aggregate, old_boot_aggregate};
pub use byte_streams::{Failed, Sink, SliceSource, Source, VecSink, send, send_pieces};
pub use entry::Entry;
pub use entry_file::{file_of, kernel_file_of};
pub use entry_reader::{Entries, read_list};
pub use entry_ref::EntryRef;
pub use entry_writer::{send_entry, write_entry};
pub use fault::ListFault;
pub use field_kind::{digest_in_field, path_in_field};
pub use fields::{Fields, Sig};
pub use kernel_field::{DigestType, KernelField, typed_digest_in_field};
pub use kernel_fields::{FieldContent, KernelFields};
pub use list_reader::ListReader;
pub use list_replay::{ReplayFault, replay};
pub use template::{EntryFault, Template};
