//! What is wrong with a quote or its signature, and what to do.

ghost use Rattle.std.specs.Prelude.{◌≡◌, option_map};
ghost use Rattle.error_texts.specs.Sentences.{asked_sentence, quote_sentence, signature_sentence, said};

use crate::table::{Sentence, row};

const COPY_QUOTE: &str = "Give the message as tpm2_quote wrote it.";

const ONCE: &str = "Ask the machine for a quote that names each bank once.";

const ALL_PCRS: &str = "Ask the machine for a quote with all required PCRs.";

const SIGNATURE: &str =
    "Give the signature that tpm2_quote wrote with this message, and the key that made it.";

/// What is wrong with a quote.
pub(crate) fn quote_sentence(number: u32) -> Option<Sentence>
    ensures { option_map said result ≡ quote_sentence number }
{
    match number {
        1 => row("The quote's message is cut short", COPY_QUOTE),
        2 => row(
            "The message is not a quote made by a TPM",
            "Give the message that tpm2_quote wrote, not its signature or its PCR values.",
        ),
        3 => row("The quote's clock flag is neither 0 nor 1", COPY_QUOTE),
        4 => row(
            "The quote selects PCRs in an unknown bank",
            "Ask the machine for a quote with only SHA-1, SHA-256, SHA-384 or SHA-512 banks.",
        ),
        5 => row("The quote selects a bank twice", ONCE),
        6 => row(
            "The quote has more selections than there are known banks",
            ONCE,
        ),
        7 => row(
            "The quote selects a PCR above 23",
            "Ask the machine for a quote with only PCRs from 0 to 23.",
        ),
        8 => row("The quote selects no PCR", ALL_PCRS),
        9 => row(
            "The quote's digest is not SHA-256, SHA-384 or SHA-512",
            "Ask the machine for a quote with one of these hashes.",
        ),
        10 => row("Bytes follow the quote in its message", COPY_QUOTE),
        _ => asked_sentence(number),
    }
}

// What is wrong with a quote that is not the one that was asked for.
fn asked_sentence(number: u32) -> Option<Sentence>
    ensures { option_map said result ≡ asked_sentence number }
{
    match number {
        11 => row(
            "The quote's nonce is not the one given",
            "Ask the machine for a new quote with this nonce.",
        ),
        12 => row(
            "The quote lacks a PCR in a bank where it is required",
            ALL_PCRS,
        ),
        _ => None,
    }
}

/// What is wrong with the signature of a quote, or its key.
pub(crate) fn signature_sentence(number: u32) -> Option<Sentence>
    ensures { option_map said result ≡ signature_sentence number }
{
    match number {
        1 => row("The signature is cut short", SIGNATURE),
        2 => row(
            "The signature's scheme is not RSASSA, RSAPSS or ECDSA",
            SIGNATURE,
        ),
        3 => row("The signature's hash is unknown", SIGNATURE),
        4 => row("Bytes follow the signature", SIGNATURE),
        5 => row(
            "The key does not allow the signature's scheme",
            "Give this key's signature: this one was made by another key or changed.",
        ),
        6 => row(
            "The signature's hash is SHA-1 or not the key's",
            "Sign with SHA-256, SHA-384 or SHA-512. The signature may also be another key's.",
        ),
        7 => row(
            "This key did not sign the message",
            "Give message, signature and key of the same quote. If they already are, one of them was changed: do not trust the quote.",
        ),
        8 => row(
            "The key is neither RSA with 2,048 to 4,096 bits nor ECC on P-256 or P-384",
            "Verify the signature with other software. Then leave out key and signature, and state that it was checked.",
        ),
        9 => row(
            "The PEM file has an unsupported kind of key or an unsupported form",
            "Give the key's public area as tpm2_createak -u writes it.",
        ),
        _ => None,
    }
}
