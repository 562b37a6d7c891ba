//! Files that are known by their digests.

ghost use Rattle.std.specs.Prelude.{◌≡◌, ◌↔◌, ℕ, List, [], IsTrue, option_map};
ghost use Rattle.pcr_banks.specs.declared.alg.Alg.{Alg};
ghost use Rattle.known_files.specs.Listing.{IsListed, is_listed};
ghost use Rattle.known_files.specs.EntryFiles.{IsKnown, has_aggregate_path, is_aggregate, is_known, is_known_file, told_of};
ghost use Rattle.known_files.specs.Known.{HoldsAll, Knows, has};

use crate::listed::ListedFiles;
use crate::sorted::SortedDigests;
use boot_verdict::LIST_REGISTER;
use ima_list::{BOOT_AGGREGATE_PATH, EntryRef, file_of};
use pcr_banks::Digest;
use std::alloc::Global;

/// The digests that texts list, by which files are known.
#[derive(Drop)]
pub struct KnownFiles {
    sha256: SortedDigests<32>,
    sha384: SortedDigests<48>,
    sha512: SortedDigests<64>,
}

impl KnownFiles {
    /// No file is known.
    pub fn none(alloc: Global) -> Self
        ensures { Knows [] result }
    {
        KnownFiles::of(ListedFiles::new(alloc))
    }

    /// The files that the texts list.
    pub fn of(listed: ListedFiles) -> Self
        ensures { (texts : List (List ℕ)) → HoldsAll texts listed → Knows texts result }
    {
        let ListedFiles {
            sha256,
            sha384,
            sha512,
        } = listed;
        KnownFiles {
            sha256: SortedDigests::sorted(sha256),
            sha384: SortedDigests::sorted(sha384),
            sha512: SortedDigests::sorted(sha512),
        }
    }

    /// Whether one of the texts lists this digest, by its algorithm. No text lists one by SHA-1.
    pub fn has(&self, digest: &Digest) -> bool
        ensures value { (texts : List (List ℕ)) → Knows texts self.now → result ≡ is_listed texts digest.now }
        ensures listed { (texts : List (List ℕ)) → Knows texts self.now → IsTrue result ↔ IsListed texts digest.now }
    {
        self.finds(digest)
    }

    // The same, by the digests that there are.
    fn finds(&self, digest: &Digest) -> bool
        ensures { result ≡ has self.now digest.now }
    {
        match digest {
            Digest::Sha1(_) => false,
            Digest::Sha256(bytes) => self.sha256.has(bytes),
            Digest::Sha384(bytes) => self.sha384.has(bytes),
            Digest::Sha512(bytes) => self.sha512.has(bytes),
        }
    }

    /// Whether the entry is known: it is no violation, it is of register 10, one of the texts lists the digest of the file's content that
    /// it has, and its path is not that of the boot aggregate. The template `ima` has digests by SHA-1 alone, so none of its entries is
    /// known. That the entry is genuine is for the caller to see: of one that is not, any file may be told.
    pub fn is_known(&self, entry: &EntryRef<'_>) -> bool
        ensures value { (texts : List (List ℕ)) → Knows texts self.now → result ≡ is_known texts entry.now }
        ensures known { (texts : List (List ℕ)) → Knows texts self.now → IsTrue result ↔ IsKnown texts entry.now }
    {
        self.knows(entry)
    }

    // The same, as a test.
    fn knows(&self, entry: &EntryRef<'_>) -> bool
        ensures { (texts : List (List ℕ)) → Knows texts self.now → result ≡ is_known texts entry.now }
    {
        !entry.is_violation()
            && entry.register() == LIST_REGISTER
            && self.is_known_file(file_of(entry))
    }

    // Whether this file is known, and is not the boot aggregate.
    fn is_known_file(&self, file: Option<(Digest, &[u8])>) -> bool
        ensures { (texts : List (List ℕ)) → Knows texts self.now → result ≡ is_known_file texts (option_map told_of file.entry) }
    {
        match file {
            Some((digest, path)) => path != BOOT_AGGREGATE_PATH && self.has(&digest),
            None => false,
        }
    }
}

/// Whether the entry is one of the boot aggregate: it is no violation, and its path is `boot_aggregate`. Its digest is not looked at.
pub(crate) fn is_aggregate(entry: &EntryRef<'_>) -> bool
    ensures { result ≡ is_aggregate entry.now }
{
    if entry.is_violation() {
        return false;
    }
    has_aggregate_path(file_of(entry))
}

// Whether this is the boot aggregate's path.
fn has_aggregate_path(file: Option<(Digest, &[u8])>) -> bool
    ensures { result ≡ has_aggregate_path (option_map told_of file.entry) }
{
    match file {
        Some((_, path)) => path == BOOT_AGGREGATE_PATH,
        None => false,
    }
}
