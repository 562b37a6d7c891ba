//! The answer to a question.

use crate::questions::{NO_BYTES, Words};
use ecdsa_signatures::verify as verify_ecdsa;
use rsa_signatures::{verify, verify_pss};
use signed_messages::{CheckFault, check_signed};
use std::alloc::{AllocError, Global};
use tpm_signatures::{Signature, SignatureNumbers, read_signature};

/// The answer to the question that a line asks, without a line feed. Fails if memory runs out.
pub(crate) fn answer(alloc: Global, line: &str) -> Result<String, AllocError> {
    let mut words = Words::of(alloc, line);
    match words.word() {
        Some("rsassa") => verdict(alloc, rsassa(&mut words)),
        Some("rsapss") => verdict(alloc, rsapss(&mut words)),
        Some("ecdsa") => verdict(alloc, ecdsa(&mut words)),
        Some("tpmt") => reading(alloc, &mut words),
        Some("signed") => checking(alloc, &mut words),
        _ => verdict(alloc, None),
    }
}

// What is printed for a signature that is valid or not, or for a line that asks nothing.
fn verdict(alloc: Global, is_valid: Option<bool>) -> Result<String, AllocError> {
    String::from_str(
        alloc,
        match is_valid {
            Some(true) => "valid",
            Some(false) => "invalid",
            None => "not a question",
        },
    )
}

// Whether a signature is valid by RSASSA-PKCS1-v1_5.
fn rsassa(words: &mut Words<'_>) -> Option<bool> {
    let hash = words.hash()?;
    let modulus = words.bytes()?;
    let message = words.bytes()?;
    let signature = words.bytes()?;
    words.end()?;
    Some(verify(
        hash,
        modulus.as_slice(),
        message.as_slice(),
        signature.as_slice(),
    ))
}

// Whether a signature is valid by RSASSA-PSS.
fn rsapss(words: &mut Words<'_>) -> Option<bool> {
    let hash = words.hash()?;
    let modulus = words.bytes()?;
    let message = words.bytes()?;
    let signature = words.bytes()?;
    words.end()?;
    Some(verify_pss(
        hash,
        modulus.as_slice(),
        message.as_slice(),
        signature.as_slice(),
    ))
}

// Whether a signature is valid by ECDSA.
fn ecdsa(words: &mut Words<'_>) -> Option<bool> {
    let curve = words.curve()?;
    let hash = words.hash()?;
    let x = words.bytes()?;
    let y = words.bytes()?;
    let message = words.bytes()?;
    let r = words.bytes()?;
    let s = words.bytes()?;
    words.end()?;
    Some(verify_ecdsa(
        curve,
        hash,
        x.as_slice(),
        y.as_slice(),
        message.as_slice(),
        r.as_slice(),
        s.as_slice(),
    ))
}

// What is printed for a signature as a TPM gives it.
fn reading(alloc: Global, words: &mut Words<'_>) -> Result<String, AllocError> {
    let Some(bytes) = words.bytes() else {
        return verdict(alloc, None);
    };
    if words.end().is_none() {
        return verdict(alloc, None);
    }
    match read_signature(bytes.as_slice()) {
        Ok(signature) => stated(alloc, signature),
        Err(fault) => format!(in alloc; "fault {}", fault.number()),
    }
}

// What a signature states.
fn stated(alloc: Global, signature: Signature<'_>) -> Result<String, AllocError> {
    let hash = signature.hash.name();
    match signature.numbers {
        SignatureNumbers::Rsassa(number) => {
            format!(in alloc; "rsassa {} {}", hash, digits(alloc, number)?.as_str())
        }
        SignatureNumbers::Rsapss(number) => {
            format!(in alloc; "rsapss {} {}", hash, digits(alloc, number)?.as_str())
        }
        SignatureNumbers::Ecdsa { r, s } => {
            format!(in alloc;
                "ecdsa {} {} {}",
                hash,
                digits(alloc, r)?.as_str(),
                digits(alloc, s)?.as_str()
            )
        }
    }
}

// The bytes in hexadecimal, or the word for none.
fn digits(alloc: Global, bytes: &[u8]) -> Result<String, AllocError> {
    if bytes.is_empty() {
        String::from_str(alloc, NO_BYTES)
    } else {
        hex::encode(alloc, bytes)
    }
}

// What is printed of a signature by the key that a text states.
fn checking(alloc: Global, words: &mut Words<'_>) -> Result<String, AllocError> {
    match checked(alloc, words) {
        None => verdict(alloc, None),
        Some(Ok(())) => verdict(alloc, Some(true)),
        Some(Err(CheckFault::Key(fault))) => format!(in alloc; "key fault {}", fault.number()),
        Some(Err(CheckFault::Signature(refusal))) => {
            format!(in alloc; "signature fault {}", refusal.number())
        }
        Some(Err(CheckFault::Memory)) => Err(AllocError),
    }
}

// Whether a message is signed by the key that a text states.
fn checked(alloc: Global, words: &mut Words<'_>) -> Option<Result<(), CheckFault>> {
    let key = words.bytes()?;
    let message = words.bytes()?;
    let signature = words.bytes()?;
    words.end()?;
    Some(check_signed(
        alloc,
        key.as_slice(),
        message.as_slice(),
        signature.as_slice(),
    ))
}
