//! The digests that texts list, as they are read.

ghost use Rattle.std.specs.Prelude.{◌≡◌, ◌⊎◌, ℕ, List, [], ◌∷◌, ◌++◌, IfErr, IsErrOf, OnOk, OnErr};
ghost use Rattle.known_files.specs.declared.listed.ListedFiles.{ListedFiles};
ghost use Rattle.pcr_banks.specs.declared.alg.Alg.{Alg};
ghost use Rattle.pcr_banks.specs.declared.alg.Alg.TheVariants as algs;
ghost use Rattle.pcr_banks.specs.declared.digest.Digest.{Digest};
ghost use Rattle.pcr_banks.specs.Names.{alg_of};
ghost use Rattle.known_files.specs.declared.fault.KnownFault.TheVariants.{Memory};
ghost use Rattle.known_files.specs.Listing.{BeginsWithGood, HasFaultOfFirst, IsFaultOfLine, IsGoodLine, IsGoodText, lines_of};
ghost use Rattle.known_files.specs.Known.{AddsDigest, AddsLines, HoldsAll, HoldsMore, HoldsSame, counts_of};

use crate::digest_line::digest_on;
use crate::fault::KnownFault;
use crate::text_lines::line_at;
use pcr_banks::Digest;
use std::alloc::Global;

/// The digests that texts list, each text as `sha256sum` and its kind print it. They take 32, 48 or 64 bytes each.
#[derive(Drop)]
pub struct ListedFiles {
    pub(crate) sha256: Vec<[u8; 32]>,
    pub(crate) sha384: Vec<[u8; 48]>,
    pub(crate) sha512: Vec<[u8; 64]>,
}

impl ListedFiles {
    /// The digests of no text.
    pub fn new(alloc: Global) -> Self
        ensures { HoldsAll [] result }
    {
        ListedFiles {
            sha256: Vec::new(alloc),
            sha384: Vec::new(alloc),
            sha512: Vec::new(alloc),
        }
    }

    /// Adds the digests of a text: each line, up to its line feed, has a backslash or none, a digest by SHA-256, SHA-384 or SHA-512 in
    /// hexadecimal digits of either case, two spaces or a space and an asterisk, and a name, which is not looked at and may be empty.
    /// The last line feed may be missing.
    ///
    /// Fails with the fault of the first wrong line, or for want of memory, which is possible only where the first line is good. Then it
    /// adds nothing.
    pub fn add(&mut self, text: &[u8]) -> Result<(), KnownFault>
        ensures texts { OnOk result ((texts : List (List ℕ)) → HoldsAll texts self.old → HoldsAll (texts ++ text.now ∷ []) self.new) }
        ensures good { OnOk result (IsGoodText text.now) }
        ensures fault { IfErr result (λ fault. (fault ≡ KnownFault.Memory) ⊎ HasFaultOfFirst text.now fault) }
        ensures memory { IsErrOf result KnownFault.Memory → BeginsWithGood text.now }
        ensures err { OnErr result (HoldsSame self.old self.new) }
    {
        let counts = self.counts();
        let done = self.read(text);
        if done.is_err() {
            self.truncate(counts);
        }
        done
    }

    // How many digests of each algorithm there are.
    fn counts(&self) -> (usize, usize, usize)
        ensures { result ≡ counts_of self.now }
    {
        (self.sha256.len(), self.sha384.len(), self.sha512.len())
    }

    // Drops the digests after the first of each algorithm, of which there were so many.
    fn truncate(&mut self, counts: (usize, usize, usize))
        ensures { (old : ListedFiles) → counts ≡ counts_of old → HoldsMore old self.old → HoldsSame old self.new }
    {
        self.sha256.truncate(counts.0);
        self.sha384.truncate(counts.1);
        self.sha512.truncate(counts.2);
    }

    // Adds the digests of a text. After a fault those of the lines before it may have been added.
    fn read(&mut self, text: &[u8]) -> Result<(), KnownFault>
        ensures ok { OnOk result (AddsLines self.old (lines_of text.now) self.new) }
        ensures good { OnOk result (IsGoodText text.now) }
        ensures fault { IfErr result (λ fault. (fault ≡ KnownFault.Memory) ⊎ HasFaultOfFirst text.now fault) }
        ensures memory { IsErrOf result KnownFault.Memory → BeginsWithGood text.now }
        ensures err { OnErr result (HoldsMore self.old self.new) }
    {
        let mut rest = text;
        let mut number = 0;
        while !rest.is_empty() {
            let (line, after) = line_at(rest);
            number += 1;
            self.take_line(number, line)?;
            rest = after;
        }
        Ok(())
    }

    // Adds the digest of the line of this number.
    fn take_line(&mut self, number: usize, line: &[u8]) -> Result<(), KnownFault>
        ensures ok { OnOk result (IsGoodLine line.now × AddsLines self.old (line.now ∷ []) self.new) }
        ensures fault { IfErr result (λ fault. (fault ≡ KnownFault.Memory) ⊎ IsFaultOfLine line.now number fault) }
        ensures memory { IsErrOf result KnownFault.Memory → IsGoodLine line.now }
        ensures err { OnErr result (HoldsSame self.old self.new) }
    {
        match digest_on(line) {
            None => Err(KnownFault::Malformed { line: number }),
            Some(Digest::Sha1(_)) => Err(KnownFault::WeakHash { line: number }),
            Some(digest) => self.push(digest),
        }
    }

    // Adds this digest, which is not by SHA-1.
    fn push(&mut self, digest: Digest) -> Result<(), KnownFault>
        requires { alg_of digest ≡ algs.Sha1 → ⊥ }
        ensures ok { OnOk result (AddsDigest self.old digest self.new) }
        ensures fault { IfErr result (λ fault. fault ≡ KnownFault.Memory) }
        ensures err { OnErr result (HoldsSame self.old self.new) }
    {
        match digest {
            Digest::Sha1(_) => unreachable!(),
            Digest::Sha256(bytes) => self.sha256.push(bytes)?,
            Digest::Sha384(bytes) => self.sha384.push(bytes)?,
            Digest::Sha512(bytes) => self.sha512.push(bytes)?,
        }
        Ok(())
    }
}
