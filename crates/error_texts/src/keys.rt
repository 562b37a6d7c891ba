//! What is wrong with a TPM's key, and what to do.

ghost use Rattle.std.specs.Prelude.{◌≡◌, option_map};
ghost use Rattle.error_texts.specs.Sentences.{key_sentence, purpose_sentence, said};

use crate::table::{Sentence, row};

const AREA: &str = "Give the key's public area as tpm2_createak -u writes it, not a PEM file.";

const OTHER_KIND: &str = "Use an RSA key, or an ECC key on P-256, P-384 or P-521.";

const OTHER_KEY: &str = "Use another key, such as one that tpm2_createak makes.";

const LONGER_HASH: &str = "Use a key whose name uses SHA-256, SHA-384 or SHA-512.";

const TPM_KEY: &str =
    "Use a key that the TPM made and keeps, such as one that tpm2_createak makes.";

const ATTESTATION: &str = "Give the attestation key, not the endorsement key.";

const ENDORSEMENT: &str = "Give the endorsement key, not an attestation key.";

/// What is wrong with a key.
pub(crate) fn key_sentence(number: u32) -> Option<Sentence>
    ensures { option_map said result ≡ key_sentence number }
{
    match number {
        1 => row("The public area is cut short", AREA),
        2 => row("The key is neither RSA nor ECC", OTHER_KIND),
        3 => row("The public area names an unknown hash", LONGER_HASH),
        4 => row(
            "The key has a symmetric algorithm other than AES",
            OTHER_KEY,
        ),
        5 => row("The key's scheme is unknown", OTHER_KEY),
        6 => row("The key's exponent is not 65,537", OTHER_KEY),
        7 => row("The key's curve is not P-256, P-384 or P-521", OTHER_KIND),
        8 => row("The key has a key derivation scheme", OTHER_KEY),
        9 => row(
            "The key's size is not the stated one or not that of its curve",
            "Copy the public area again.",
        ),
        10 => row("Bytes follow the public area", AREA),
        11 => row("The key's name uses SHA-1", LONGER_HASH),
        12 => row("The key may leave its TPM", TPM_KEY),
        13 => row("The key may be moved to another parent key", TPM_KEY),
        14 => row("The key was not made by its TPM", TPM_KEY),
        15 => row(
            "The key is not restricted: its TPM signs or decrypts any data with it",
            TPM_KEY,
        ),
        16 => row(
            "The RSA key has fewer than 2,048 bits",
            "Use an RSA key with at least 2,048 bits.",
        ),
        _ => purpose_sentence(number),
    }
}

// What is wrong with the purpose of a key.
fn purpose_sentence(number: u32) -> Option<Sentence>
    ensures { option_map said result ≡ purpose_sentence number }
{
    match number {
        17 => row("The key cannot sign", ATTESTATION),
        18 => row(
            "The key can decrypt, which an attestation key must not",
            ATTESTATION,
        ),
        19 => row(
            "The key's scheme is not RSASSA, RSAPSS or ECDSA",
            "Make an attestation key with one of these schemes.",
        ),
        20 => row(
            "The key signs with SHA-1",
            "Make an attestation key that signs with SHA-256, SHA-384 or SHA-512.",
        ),
        21 => row(
            "The key can sign, which an endorsement key must not",
            ENDORSEMENT,
        ),
        22 => row("The key cannot decrypt", ENDORSEMENT),
        _ => None,
    }
}
