//! What is wrong with PCR values, known files or a checkpoint, and what to do.

ghost use Rattle.std.specs.Prelude.{◌≡◌, option_map};
ghost use Rattle.error_texts.specs.Sentences.{checkpoint_sentence, expected_sentence, known_sentence, said};

use crate::table::{Sentence, row};

const START_AGAIN: &str = "Start again with the whole list.";

/// What is wrong with PCR values.
pub(crate) fn expected_sentence(number: u32) -> Option<Sentence>
    ensures { option_map said result ≡ expected_sentence number }
{
    match number {
        1 => row(
            "it does not state a PCR and its value",
            "Write a bank, a PCR and its value in hexadecimal, without 0x. If this is tpm2-tools output, convert it unchanged with ima-agent expected.",
        ),
        2 => row(
            "it repeats a PCR of its bank",
            "State each PCR of a bank once.",
        ),
        4 => row(
            "this is tpm2_quote output, which nobody has verified",
            "Verify the quote itself, or give the output of tpm2_pcrread.",
        ),
        5 => row(
            "the signature line is missing",
            "Give the whole output of tpm2_checkquote.",
        ),
        6 => row(
            "no PCR is stated, or none of the wanted ones",
            "Read the wanted PCRs again: the tool failed or read others.",
        ),
        _ => None,
    }
}

/// What is wrong with the digests of known files.
pub(crate) fn known_sentence(number: u32) -> Option<Sentence>
    ensures { option_map said result ≡ known_sentence number }
{
    match number {
        1 => row(
            "it is a SHA-1 digest, which can be forged",
            "Give SHA-256, SHA-384 or SHA-512 digests.",
        ),
        2 => row(
            "it is not a digest and a name, as sha256sum prints them",
            "Give the output of sha256sum, sha384sum or sha512sum, unchanged.",
        ),
        _ => None,
    }
}

/// What is wrong with a checkpoint.
pub(crate) fn checkpoint_sentence(number: u32) -> Option<Sentence>
    ensures { option_map said result ≡ checkpoint_sentence number }
{
    match number {
        1 => row("The checkpoint is incomplete or was changed", START_AGAIN),
        2 => row("The checkpoint's version is not supported", START_AGAIN),
        3 => row(
            "The checkpoint is from another boot: it starts from PCR values that the log does not produce",
            START_AGAIN,
        ),
        4 => row(
            "The quote and the checkpoint are from different boots, or the checkpoint was saved without a quote",
            START_AGAIN,
        ),
        _ => None,
    }
}
