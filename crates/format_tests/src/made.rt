//! Entries that are made, by templates and with signatures, and what is written, hashed, shown and copied of them.

use ima_list::{Entry, EntryFault, Sig, Template};
use pcr_banks::{Alg, hash};
use std::alloc::{AllocError, Global};
use std::process::Abort;
use std::test::Fail;
use test_kit::books::copied_sig;
use test_kit::lists::{
    LONGEST_PATH, MEASUREMENT, MEASUREMENT_LINE, OTHER_TEMPLATE, OTHER_TEMPLATE_LINE, SIGNED,
    THREE_BYTES, VIOLATION, VIOLATION_LINE, list_of, longest_sig, sig_of, spelling_of, spellings,
};
use test_kit::{copied, joined, once_more, repeated};

/// The entry of `/bin/sh`, measured with the SHA-1 of `abc` in the template `ima`.
const OF_IMA: &[u8] = b"\x0a\x00\x00\x00\
    \x30\xe3\xa8\x53\xf1\x2b\xf2\x47\xa7\x9b\x73\xe6\x1d\x54\xfd\x3b\x0d\x84\x14\x22\
    \x03\x00\x00\x00ima\
    \xa9\x99\x3e\x36\x47\x06\x81\x6a\xba\x3e\x25\x71\x78\x50\xc2\x6c\x9c\xd0\xd8\x9d\
    \x07\x00\x00\x00/bin/sh";

/// What its template digest is taken of: the file's digest, the path, and 249 zero bytes.
const HASHED_OF_IMA: &[u8] =
    b"\xa9\x99\x3e\x36\x47\x06\x81\x6a\xba\x3e\x25\x71\x78\x50\xc2\x6c\x9c\xd0\xd8\x9d\
    /bin/sh\
    \0\0\0\0\0\0\0\0\0\0\0\0\0\0\0\0\0\0\0\0\0\0\0\0\0\0\0\0\0\0\0\0\0\0\0\0\0\0\0\0\0\0\0\0\0\0\0\0\0\0\
    \0\0\0\0\0\0\0\0\0\0\0\0\0\0\0\0\0\0\0\0\0\0\0\0\0\0\0\0\0\0\0\0\0\0\0\0\0\0\0\0\0\0\0\0\0\0\0\0\0\0\
    \0\0\0\0\0\0\0\0\0\0\0\0\0\0\0\0\0\0\0\0\0\0\0\0\0\0\0\0\0\0\0\0\0\0\0\0\0\0\0\0\0\0\0\0\0\0\0\0\0\0\
    \0\0\0\0\0\0\0\0\0\0\0\0\0\0\0\0\0\0\0\0\0\0\0\0\0\0\0\0\0\0\0\0\0\0\0\0\0\0\0\0\0\0\0\0\0\0\0\0\0\0\
    \0\0\0\0\0\0\0\0\0\0\0\0\0\0\0\0\0\0\0\0\0\0\0\0\0\0\0\0\0\0\0\0\0\0\0\0\0\0\0\0\0\0\0\0\0\0\0\0\0";

/// The entry of `/bin/sh`, measured with the SHA-256 of `abc` in the template `ima-sig`, without a signature.
const UNSIGNED: &[u8] = b"\x0a\x00\x00\x00\
    \xff\xb8\xdc\x2f\x2f\x8c\x5a\xc2\xcd\x36\x7f\x14\xf9\x48\x81\xc5\xf5\xf9\x79\x7c\
    \x07\x00\x00\x00ima-sig\
    \x3c\x00\x00\x00\
    \x28\x00\x00\x00sha256:\x00\
    \xba\x78\x16\xbf\x8f\x01\xcf\xea\x41\x41\x40\xde\x5d\xae\x22\x23\
    \xb0\x03\x61\xa3\x96\x17\x7a\x9c\xb4\x10\xff\x61\xf2\x00\x15\xad\
    \x08\x00\x00\x00/bin/sh\x00\
    \x00\x00\x00\x00";

/// A violation of `/etc/x` in the template `ima`.
const VIOLATION_OF_IMA: &[u8] = b"\x0a\x00\x00\x00\
    \x00\x00\x00\x00\x00\x00\x00\x00\x00\x00\x00\x00\x00\x00\x00\x00\x00\x00\x00\x00\
    \x03\x00\x00\x00ima\
    \x00\x00\x00\x00\x00\x00\x00\x00\x00\x00\x00\x00\x00\x00\x00\x00\x00\x00\x00\x00\
    \x06\x00\x00\x00/etc/x";

/// A violation in the template `ima-sig` with SHA-256.
const VIOLATION_OF_IMA_SIG: &[u8] = b"\x0a\x00\x00\x00\
    \x00\x00\x00\x00\x00\x00\x00\x00\x00\x00\x00\x00\x00\x00\x00\x00\x00\x00\x00\x00\
    \x07\x00\x00\x00ima-sig\
    \x3b\x00\x00\x00\
    \x28\x00\x00\x00sha256:\x00\
    \x00\x00\x00\x00\x00\x00\x00\x00\x00\x00\x00\x00\x00\x00\x00\x00\
    \x00\x00\x00\x00\x00\x00\x00\x00\x00\x00\x00\x00\x00\x00\x00\x00\
    \x07\x00\x00\x00/etc/x\x00\
    \x00\x00\x00\x00";

/// An entry with no name and no payload: register 10, twenty zero bytes, and two lengths of nothing.
const EMPTY: &[u8] = b"\x0a\x00\x00\x00\
    \x00\x00\x00\x00\x00\x00\x00\x00\x00\x00\x00\x00\x00\x00\x00\x00\x00\x00\x00\x00\
    \x00\x00\x00\x00\x00\x00\x00\x00";

/// The entry of a file that was measured into PCR 10.
fn measured(
    alloc: Global,
    template: Template,
    alg: Alg,
    path: &[u8],
    sig: &Sig,
) -> Result<Entry, Fail> {
    template.check(alg, path)?;
    let file = hash(alg, b"abc");
    Ok(once_more(AllocError, || {
        Entry::measurement(alloc, 10, template, &file, path, sig)
    })?)
}

/// The entry of a violation in PCR 10.
fn violated(alloc: Global, template: Template, alg: Alg, path: &[u8]) -> Result<Entry, Fail> {
    template.check(alg, path)?;
    Ok(once_more(AllocError, || {
        Entry::violation(alloc, 10, template, alg, path)
    })?)
}

/// The one entry of a list.
pub fn entry_of(alloc: Global, bytes: &[u8]) -> Result<Entry, Fail> {
    Ok(list_of(alloc, bytes)?.pop().ok_or("no entry")?)
}

/// A wrong algorithm counts before a NUL, and a NUL before a path that is too long.
#[test]
fn templates_and_paths(rt: HostRuntime) {
    let path = [0u8; 4_096];
    for (template, alg, fault) in [
        (Template::Ima, Alg::Sha384, EntryFault::WrongHash),
        (Template::Ima, Alg::Sha1, EntryFault::NulInPath),
        (Template::ImaSig, Alg::Sha512, EntryFault::NulInPath),
    ] {
        assert_eq!(rt; template.check(alg, &path), Err(fault));
    }
}

/// A signature, which templates without one ignore.
#[test]
fn each_allocation_refused_in_measurement(rt: HostRuntime) -> Result<(), Fail> {
    let alloc = rt.alloc();
    for (template, alg, sig, spelling) in [
        (Template::Ima, Alg::Sha1, THREE_BYTES, OF_IMA),
        (Template::ImaNg, Alg::Sha256, THREE_BYTES, MEASUREMENT),
        (Template::ImaSig, Alg::Sha256, b"".as_slice(), UNSIGNED),
        (Template::ImaSig, Alg::Sha256, THREE_BYTES, SIGNED),
    ] {
        let sig = sig_of(alloc, sig)?;
        let entry = measured(alloc, template, alg, b"/bin/sh", &sig)?;
        assert_eq!(rt; spelling_of(alloc, &entry)?.as_slice(), spelling);
    }
    Ok(())
}

#[test]
fn each_allocation_refused_in_violation(rt: HostRuntime) -> Result<(), Fail> {
    let alloc = rt.alloc();
    for (template, alg, spelling) in [
        (Template::Ima, Alg::Sha1, VIOLATION_OF_IMA),
        (Template::ImaNg, Alg::Sha256, VIOLATION),
        (Template::ImaSig, Alg::Sha256, VIOLATION_OF_IMA_SIG),
    ] {
        let entry = violated(alloc, template, alg, b"/etc/x")?;
        assert_eq!(rt; spelling_of(alloc, &entry)?.as_slice(), spelling);
    }
    Ok(())
}

/// Lists of two entries, which are read and written back one after the other.
#[test]
fn each_allocation_refused_in_read_list_and_write_entry(rt: HostRuntime) -> Result<(), Fail> {
    let alloc = rt.alloc();
    for two in [[MEASUREMENT, VIOLATION], [OF_IMA, EMPTY], [EMPTY, SIGNED]] {
        let bytes = joined(alloc, &two)?;
        let entries = list_of(alloc, &bytes)?;
        assert_eq!(rt; entries.len(), 2);
        assert_eq!(rt; spellings(alloc, &entries)?.as_slice(), bytes.as_slice());
    }
    Ok(())
}

/// The lines of [`OF_IMA`], [`UNSIGNED`] and [`SIGNED`]: the digits of the template digest and of the file's, and the signature's.
const LINE_OF_IMA: &[u8] = b"10 30e3a853f12bf247a79b73e61d54fd3b0d841422 ima \
    a9993e364706816aba3e25717850c26c9cd0d89d /bin/sh\n";

const UNSIGNED_LINE: &[u8] = b"10 ffb8dc2f2f8c5ac2cd367f14f94881c5f5f9797c ima-sig \
    sha256:ba7816bf8f01cfea414140de5dae2223b00361a396177a9cb410ff61f20015ad /bin/sh \n";

const SIGNED_LINE: &[u8] = b"10 a46f5e1f6d522345537b5d5bdf6666492827b4f2 ima-sig \
    sha256:ba7816bf8f01cfea414140de5dae2223b00361a396177a9cb410ff61f20015ad /bin/sh 030204\n";

/// What an entry appends to a vector.
#[derive(Clone, Copy)]
enum Part {
    Hashed,
    Line,
}

fn append(entry: &Entry, part: Part, out: &mut Vec<u8>) -> Result<(), AllocError> {
    match part {
        Part::Hashed => entry.hashed_bytes(out),
        Part::Line => entry.line(out),
    }
}

/// What a vector has before something is appended to it.
const BEFORE: &[u8] = b"before";

/// The entry of this spelling appends these bytes to a vector, which is as before where memory was refused.
fn assert_appends(
    rt: &impl Abort,
    alloc: Global,
    spelling: &[u8],
    part: Part,
    appended: &[u8],
) -> Result<(), Fail> {
    let entry = entry_of(alloc, spelling)?;
    let mut out = copied(alloc, BEFORE)?;
    if append(&entry, part, &mut out).is_err() {
        assert_eq!(rt; out.as_slice(), BEFORE);
        append(&entry, part, &mut out)?;
    }
    assert_eq!(rt; out.strip_prefix(BEFORE), Some(appended));
    Ok(())
}

/// The payload, of which `ima` has the path filled to 256 bytes and no length.
#[test]
fn each_allocation_refused_in_hashed_bytes(rt: HostRuntime) -> Result<(), Fail> {
    for (spelling, hashed) in [
        (OF_IMA, HASHED_OF_IMA),
        (MEASUREMENT, &MEASUREMENT[38..]),
        (VIOLATION, &VIOLATION[38..]),
    ] {
        assert_appends(&rt, rt.alloc(), spelling, Part::Hashed, hashed)?;
    }
    Ok(())
}

#[test]
fn each_allocation_refused_in_line(rt: HostRuntime) -> Result<(), Fail> {
    for (spelling, line) in [
        (OF_IMA, LINE_OF_IMA),
        (MEASUREMENT, MEASUREMENT_LINE),
        (VIOLATION, VIOLATION_LINE),
        (UNSIGNED, UNSIGNED_LINE),
        (SIGNED, SIGNED_LINE),
        (OTHER_TEMPLATE, OTHER_TEMPLATE_LINE),
    ] {
        assert_appends(&rt, rt.alloc(), spelling, Part::Line, line)?;
    }
    Ok(())
}

/// The last bytes of the spelling, so many. The entry keeps them.
#[test]
fn each_allocation_refused_in_payload_copy(rt: HostRuntime) -> Result<(), Fail> {
    let alloc = rt.alloc();
    for (spelling, size) in [(MEASUREMENT, 56), (VIOLATION, 55), (SIGNED, 63), (EMPTY, 0)] {
        let entry = entry_of(alloc, spelling)?;
        let copy = once_more(AllocError, || entry.payload_copy())?;
        assert!(rt; copy.len() == size && spelling.ends_with(&copy));
        assert_eq!(rt; spelling_of(alloc, &entry)?.as_slice(), spelling);
    }
    Ok(())
}

#[test]
fn each_allocation_refused_in_copy_of_a_signature(rt: HostRuntime) -> Result<(), Fail> {
    let alloc = rt.alloc();
    for bytes in [THREE_BYTES, SIGNED] {
        let sig = sig_of(alloc, bytes)?;
        assert_eq!(rt; copied_sig(&sig)?.bytes(), bytes);
    }
    Ok(())
}

#[test]
fn longest_path_and_signature(rt: HostRuntime) -> Result<(), Fail> {
    let alloc = rt.alloc();
    let sig = copied_sig(&longest_sig(alloc)?)?;
    let entry = measured(alloc, Template::ImaSig, Alg::Sha512, LONGEST_PATH, &sig)?;
    assert_eq!(rt; spelling_of(alloc, &entry)?.len(), 69_755);
    Ok(())
}

#[test]
fn violation_with_the_longest_path(rt: HostRuntime) -> Result<(), Fail> {
    let entry = violated(rt.alloc(), Template::ImaNg, Alg::Sha512, LONGEST_PATH)?;
    assert_eq!(rt; entry.payload().len(), 4_176);
    Ok(())
}

/// A vector of a byte more is no signature, and is handed back.
#[test]
fn signature_that_is_too_long(rt: HostRuntime) -> Result<(), Fail> {
    let bytes = repeated(rt.alloc(), b"\x07", 65_537)?;
    let back = Sig::new(bytes).err().ok_or("a long signature is taken")?;
    assert_eq!(rt; back.len(), 65_537);
    Ok(())
}
