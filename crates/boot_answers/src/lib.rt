//! What responders ask of a machine's boot, answered from its firmware log and the registers that match it.
//!
//! Root on the machine may have made up the log; the TPM is honest. Where a register matches, the digests that extend it are those of the
//! machine, in their order, and data that such a digest is the hash of was hashed there. All else is claimed: types, data that was not
//! measured, and which of two registers was extended first. Root can append extends to any register after the boot, by data that is
//! measured too. Hence an answer comes from the first events of a register, with all before them measured, or before an event that has the
//! digest of a separator. It never comes from a type. What cannot be said is unknown.
//!
//! Banks of SHA-1 answer nothing. A bank that the firmware does not extend is root's, and matches too. So what is said by one bank is to be
//! asked in each that answers for the register ([`measured_data::is_answering`]), and holds only if each says it. [`secure_boot`] and
//! [`firmware_version`] do so. Where the firmware extends one of these banks, they tell what it measured. Root can write a log that matches in
//! one bank and not in another: so where a register does not match in a bank other than SHA-1 that the machine has, the caller is to take no
//! answer from it.
//!
//! - [`secure_boot`]: `On` or `Off` is what the firmware measured. Root cannot turn it, but can always have it `Unknown`. A firmware that
//!   extends register 7 by nothing, against the profile, leaves the answer to root. It is the state when the firmware began to load programs:
//!   a firmware may measure SecureBoot again where keys change later in the boot, and this does not change how the boot was verified
//!   before.
//! - [`firmware_version`]: what the firmware measured first into register 0. This is its version, if it follows the profile.
//! - [`image_digest`]: each PE image that the firmware started is told, with its true digest, in order. Root can append more, and can have
//!   actions told as images. Paths are claimed. The digest is an Authenticode hash, if the firmware follows its specification; it is not the
//!   hash of a file.
//! - [`told_text`]: a text that was hashed; to be asked of each event of a register ([`RegisterEvents`]), up to the first that tells none. The
//!   kind of a GRUB command is claimed: any text of GRUB may pass as the kernel's command line. Root can append texts, and all texts of a
//!   register that the boot loader leaves empty are root's.
//! - [`may_set_ima_policy`], [`asks_to_measure`]: what a text asks of Linux, if it is Linux's command line, which is claimed. That a text asks
//!   for a policy proves neither that Linux has one nor that it measures files. That no text asks proves nothing either: no event says which
//!   boot loader made it, and a kernel gets options also from a boot loader that measures none, by its EFI stub, by kexec, by bootconfig, or
//!   built in. Root may extend register 10 under a policy too; a policy keeps only what Linux measured from being taken out.
//! - [`ima_policy`]: the first text of register 8, or else of register 12, that asks this, of those that are told.
//! - [`boot_variable`]: a variable whose value, or whose data, was hashed. Vendor and name are always claimed, also where all of the data is
//!   measured: root can set a variable to the bytes of another one. They are told up to the first event that may be a separator, which may
//!   be a BootOrder ([`may_be_separator`]); what comes after it is unknown, not absent.
//! - [`first_difference`]: how far two boots extended a register alike, by their digests alone. An event without a digest is like none.
//! - [`common_events`]: which of the next events they have in common, by their digests alone too.
//!
//! `matched` has the registers of a bank whose value is the log's. Each call goes over the log once, or for each bank once or twice;
//! [`ima_policy`] goes over it four times at most. [`common_events`] and [`ima_policy`] take memory, the others none. The crate `answer_laws`
//! has the laws that say what the answers tell of the machine.
#![tactic(auto)]

mod alike_events;
mod commands;
mod differences;
mod firmware_events;
mod ima_options;
mod policies;
mod register_events;
mod secure_boot_state;
mod versions;

pub use alike_events::{Common, MOST_COMPARED, common_events};
pub use commands::{COMMAND_REGISTERS, CommandText, STUB_REGISTER, told_text};
pub use differences::first_difference;
pub use firmware_events::{
    IMAGE_REGISTER, boot_variable, image_digest, may_be_image, may_be_separator,
};
pub use ima_options::{asks_to_measure, may_set_ima_policy};
pub use policies::{ImaPolicy, ima_policy};
pub use register_events::RegisterEvents;
pub use secure_boot_state::{SecureBoot, secure_boot};
pub use versions::{EV_S_CRTM_VERSION, firmware_version};
