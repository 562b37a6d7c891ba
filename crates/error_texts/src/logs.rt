//! What is wrong with a log or a list, or with what is converted to one, and what to do.

ghost use Rattle.std.specs.Prelude.{◌≡◌, option_map};
ghost use Rattle.error_texts.specs.Sentences.{form_sentence, list_sentence, log_sentence, replay_sentence, said, text_sentence};

use crate::table::{Sentence, row};

const FIRMWARE: &str =
    "Copy the log again. If the error persists, the machine's firmware is at fault: update it.";

const AS_TEXT: &str = "Give the kernel's ascii_runtime_measurements, unchanged.";

/// What is wrong with a firmware event log.
pub(crate) fn log_sentence(number: u32) -> Option<Sentence>
    ensures { option_map said result ≡ log_sentence number }
{
    match number {
        1 => row("it is cut short", "Copy the log again."),
        2 => row(
            "the first event is not the Specification ID Version Event of a crypto-agile log",
            "Give the kernel's binary_bios_measurements, unchanged. Kernels before 5.3 and some cloud machines have only a TPM 1.2 log: convert it with ima-agent log.",
        ),
        3 => row(
            "the header's algorithm table or vendor bytes are malformed",
            FIRMWARE,
        ),
        4 => row(
            "the header states a wrong digest size for a known algorithm",
            FIRMWARE,
        ),
        5 => row(
            "the header declares no known algorithm",
            "Enable the SHA-256, SHA-384 or SHA-512 bank of the machine's TPM, then reboot.",
        ),
        6 => row(
            "it has a digest for an algorithm that the header does not declare",
            FIRMWARE,
        ),
        7 => row("it has two digests for the same algorithm", FIRMWARE),
        8 => row("it extends a PCR but lacks the digest for a bank", FIRMWARE),
        9 => row("it extends a PCR above 23", FIRMWARE),
        _ => None,
    }
}

/// What is wrong with a measurement list.
pub(crate) fn list_sentence(number: u32) -> Option<Sentence>
    ensures { option_map said result ≡ list_sentence number }
{
    match number {
        1 => row("it is cut short", "Copy the list again."),
        2 => row(
            "it extends a PCR above 23",
            "Give the kernel's binary_runtime_measurements, unchanged. Boot a big-endian machine with ima_canonical_fmt.",
        ),
        3 => row(
            "its template is ima, but its path is longer than 255 bytes",
            "The kernel never writes such an entry: copy the list again.",
        ),
        _ => None,
    }
}

/// What is wrong with an entry that is replayed.
pub(crate) fn replay_sentence(number: u32) -> Option<Sentence>
    ensures { option_map said result ≡ replay_sentence number }
{
    match number {
        1 => row(
            "its template digest is not the SHA-1 of its data, and it is not a violation",
            "Copy the list again. If the error persists, the entry was changed: do not trust the list.",
        ),
        _ => None,
    }
}

/// What is wrong with a list as text.
pub(crate) fn text_sentence(number: u32) -> Option<Sentence>
    ensures { option_map said result ≡ text_sentence number }
{
    match number {
        1 => row(
            "it is not a measurement list entry as the kernel prints it",
            AS_TEXT,
        ),
        2 => row(
            "its template is not one of the kernel's",
            "Give binary_runtime_measurements, which has the whole entry.",
        ),
        3 => row(
            "its template digest is not the SHA-1 of its data, and it is not a violation",
            "Give binary_runtime_measurements: in the text, the kernel may have replaced spaces in the path. If its digest does not match either, the entry was changed: do not trust the list.",
        ),
        4 => row("it is longer than 1,048,576 bytes", AS_TEXT),
        _ => None,
    }
}

/// What is wrong with a log in another form. The numbers that a log has are its own.
pub(crate) fn form_sentence(number: u32) -> Option<Sentence>
    ensures { option_map said result ≡ form_sentence number }
{
    match number {
        11 => row("it is cut short", "Copy the log again."),
        12 => row("it extends a PCR above 23", FIRMWARE),
        13 => row(
            "the first bytes are not an event of a firmware log",
            "Give the kernel's binary_bios_measurements, unchanged, or the log from the ACPI table CCEL.",
        ),
        _ => log_sentence(number),
    }
}
