//! Sources that are loaded and hashed: each of their reads fails in turn, or an allocation (`tests/faults/sweep.py` refuses one in each run,
//! and the same call then succeeds), or they grow and shrink while they are read.

ghost use Rattle.std.specs.Prelude.{None};

use byte_streams::{Failed, Source};
use ima_agent::{LoadFault, hash_from, load};
use pcr_banks::{Alg, Digest, hash};
use std::alloc::Global;
use std::test::Fail;
use test_kit::devices::PieceSource;
use test_kit::once_more;

/// All bytes that the source gives; once more where an allocation was refused.
fn loaded(alloc: Global, source: &PieceSource<'_>, limit: u64) -> Result<Vec<u8>, LoadFault> {
    once_more(LoadFault::Memory, || {
        let mut source = *source;
        load(alloc, &mut source, limit)
    })
}

/// The SHA-256 of all bytes that the source gives; once more where an allocation was refused.
fn hashed(alloc: Global, source: &PieceSource<'_>, limit: u64) -> Result<Digest, LoadFault> {
    once_more(LoadFault::Memory, || {
        let mut source = *source;
        hash_from(alloc, &mut source, Alg::Sha256, limit)
    })
}

/// Each read that is made fails in turn, and where none fails, all bytes are loaded, and hashed. They are taken by so many reads of so
/// many bytes at most: the last says that there are no more.
#[test]
fn each_read_of_a_source_fails(rt: HostRuntime) -> Result<(), Fail> {
    let many = [7; 20_000];
    for (bytes, most, needed) in [
        (b"".as_slice(), 1, 1),
        (b"nine byte", 1, 10),
        (b"nine byte", 3, 4),
        (b"nine byte", usize::MAX, 2),
        (&many, 4_096, 6),
        (&many, usize::MAX, 3),
    ] {
        for reads in 0..needed {
            let source = PieceSource::failing(bytes, most, reads);
            let fault = loaded(rt.alloc(), &source, 20_000).err();
            assert_eq!(rt; fault, Some(LoadFault::Source), "{reads} of {most}");
            let fault = hashed(rt.alloc(), &source, 20_000).err();
            assert_eq!(rt; fault, Some(LoadFault::Source), "{reads} of {most}");
        }
        let source = PieceSource::failing(bytes, most, needed);
        assert_eq!(rt; loaded(rt.alloc(), &source, 20_000)?.as_slice(), bytes);
        let digest = hashed(rt.alloc(), &source, 20_000)?;
        assert_eq!(rt; digest, hash(Alg::Sha256, bytes));
    }
    Ok(())
}

/// Gives these parts, one a read, and tells no bytes. An empty part says that there are no more, though others may stand after it.
#[derive(Drop)]
struct PartSource<'a> {
    parts: &'a [&'a [u8]],
    given: usize,
}

impl Source for PartSource<'_> {
    ghost state = { λ _. record { remaining = None; failures = 0 } };

    fn read(&mut self, buffer: &mut [u8]) -> Result<usize, Failed> {
        let Some(part) = self.parts.get(self.given) else {
            return Ok(0);
        };
        let count = part.len().min(buffer.len());
        buffer[..count].copy_from_slice(&part[..count]);
        self.given += 1;
        Ok(count)
    }
}

/// What a file gives at each read: more after the first, nothing and then more, or a whole piece and then hardly more; the hash
/// of the bytes that came, as `sha256sum` has it; and how many parts were asked for.
#[test]
fn file_that_grows_or_shrinks_while_it_is_read(rt: HostRuntime) -> Result<(), Fail> {
    const SEVEN: &[u8] = b"7d1a54127b222502f5b79b5fb0803061152a44f92b37e23c6527baf665d4da9a";
    const NONE: &[u8] = b"e3b0c44298fc1c149afbf4c8996fb92427ae41e4649b934ca495991b7852b855";
    const PIECE: &[u8] = b"71faf32c65b69f110aa15a9673caea8abeb647b6f4673b4f3312b4905cba27ae";
    let piece = [7; 4_096];
    for (parts, digits, given) in [
        ([b"abc".as_slice(), b"defg", b"", b"later"], SEVEN, 3),
        ([b"", b"abc", b"defg", b"later"], NONE, 1),
        ([&piece, b"ab", b"", b""], PIECE, 3),
    ] {
        let mut source = PartSource {
            parts: &parts,
            given: 0,
        };
        let answer = hash_from(rt.alloc(), &mut source, Alg::Sha256, u64::MAX)?;
        assert_eq!(rt; Some(answer), Digest::from_hex(Alg::Sha256, digits));
        assert_eq!(rt; source.given, given);
    }
    Ok(())
}

/// Four bytes and five, with a limit of four; and more than the first room holds.
#[test]
fn each_allocation_refused_in_load(rt: HostRuntime) -> Result<(), Fail> {
    let many = [7; 20_000];
    for (bytes, limit, is_loaded) in [
        (b"abcd".as_slice(), 4, true),
        (b"abcde", 4, false),
        (&many, 20_000, true),
    ] {
        let answer = loaded(rt.alloc(), &PieceSource::new(bytes, usize::MAX), limit);
        if is_loaded {
            assert_eq!(rt; answer?.as_slice(), bytes);
        } else {
            assert_eq!(rt; answer.err(), Some(LoadFault::TooLong));
        }
    }
    Ok(())
}

/// Four bytes, with a limit of four and of three; and more than the first piece holds. The hashes are those of `sha256sum`.
#[test]
fn each_allocation_refused_in_hash_from(rt: HostRuntime) {
    const FOUR: &[u8] = b"88d4266fd4e6338d13b845fcf289579d209c897823b9217da3e161936f031589";
    const MANY: &[u8] = b"4694a5cff651ca6fe86b284bd62a25430d8402d26dd64d2b104e7a97a484e806";
    let many = [7; 20_000];
    for (bytes, limit, digits) in [
        (b"abcd".as_slice(), 4, FOUR),
        (b"abcd", 3, b""),
        (&many, 20_000, MANY),
    ] {
        let answer = hashed(rt.alloc(), &PieceSource::new(bytes, usize::MAX), limit);
        let wanted = Digest::from_hex(Alg::Sha256, digits);
        assert_eq!(rt; answer, wanted.ok_or(LoadFault::TooLong));
    }
}
