//! The words of a question.

use ecdsa_signatures::Curve;
use signature_hashes::Hash;
use std::alloc::Global;
use std::str::Split;

/// How no bytes are written.
pub(crate) const NO_BYTES: &str = "-";

/// The words of a line that are not read yet.
#[derive(Drop)]
pub(crate) struct Words<'a> {
    alloc: Global,
    rest: Split<'a, char>,
}

impl<'a> Words<'a> {
    pub(crate) fn of(alloc: Global, line: &'a str) -> Self {
        Words {
            alloc,
            rest: line.split(' '),
        }
    }

    /// The next word.
    pub(crate) fn word(&mut self) -> Option<&'a str> {
        self.rest.next()
    }

    /// The next word, if it names a hash.
    pub(crate) fn hash(&mut self) -> Option<Hash> {
        match self.word()? {
            "sha256" => Some(Hash::Sha256),
            "sha384" => Some(Hash::Sha384),
            "sha512" => Some(Hash::Sha512),
            _ => None,
        }
    }

    /// The next word, if it names a curve.
    pub(crate) fn curve(&mut self) -> Option<Curve> {
        match self.word()? {
            "p256" => Some(Curve::P256),
            "p384" => Some(Curve::P384),
            _ => None,
        }
    }

    /// The bytes that the next word spells.
    pub(crate) fn bytes(&mut self) -> Option<Vec<u8>> {
        let word = self.word()?;
        if word == NO_BYTES {
            return Some(Vec::new(self.alloc));
        }
        hex::decode(self.alloc, word).ok()
    }

    /// Nothing, if there is no further word.
    pub(crate) fn end(&mut self) -> Option<()> {
        match self.word() {
            Some(_) => None,
            None => Some(()),
        }
    }
}
