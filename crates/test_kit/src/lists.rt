//! Entries of measurement lists and their lines; lists that are read and written.

use crate::{copied, joined, once_more, repeated};
use ima_list::{Entry, ListFault, Sig, read_list, write_entry};
use std::alloc::{AllocError, Global};
use std::test::Fail;

/// The entry of `/bin/sh`, measured into PCR 10 with the SHA-256 of `abc`, in the template `ima-ng`.
pub const MEASUREMENT: &[u8] = b"\x0a\x00\x00\x00\
    \x83\xfd\xff\x31\x51\x75\x58\x71\x57\xed\x3a\xa6\x04\xe7\xf9\xec\x63\xca\x0b\x42\
    \x06\x00\x00\x00ima-ng\
    \x38\x00\x00\x00\
    \x28\x00\x00\x00sha256:\x00\
    \xba\x78\x16\xbf\x8f\x01\xcf\xea\x41\x41\x40\xde\x5d\xae\x22\x23\
    \xb0\x03\x61\xa3\x96\x17\x7a\x9c\xb4\x10\xff\x61\xf2\x00\x15\xad\
    \x08\x00\x00\x00/bin/sh\x00";

/// The line of this entry.
pub const MEASUREMENT_LINE: &[u8] = b"10 83fdff315175587157ed3aa604e7f9ec63ca0b42 ima-ng \
    sha256:ba7816bf8f01cfea414140de5dae2223b00361a396177a9cb410ff61f20015ad /bin/sh\n";

/// The entry of a violation of `/etc/x` in PCR 10, in the template `ima-ng` with SHA-256.
pub const VIOLATION: &[u8] = b"\x0a\x00\x00\x00\
    \x00\x00\x00\x00\x00\x00\x00\x00\x00\x00\x00\x00\x00\x00\x00\x00\x00\x00\x00\x00\
    \x06\x00\x00\x00ima-ng\
    \x37\x00\x00\x00\
    \x28\x00\x00\x00sha256:\x00\
    \x00\x00\x00\x00\x00\x00\x00\x00\x00\x00\x00\x00\x00\x00\x00\x00\
    \x00\x00\x00\x00\x00\x00\x00\x00\x00\x00\x00\x00\x00\x00\x00\x00\
    \x07\x00\x00\x00/etc/x\x00";

/// The line of this violation.
pub const VIOLATION_LINE: &[u8] = b"10 0000000000000000000000000000000000000000 ima-ng \
    sha256:0000000000000000000000000000000000000000000000000000000000000000 /etc/x\n";

/// The measurement with the name `ima-xx` in place of its template's: its payload has no fields that are known.
pub const OTHER_TEMPLATE: &[u8] = b"\x0a\x00\x00\x00\
    \x83\xfd\xff\x31\x51\x75\x58\x71\x57\xed\x3a\xa6\x04\xe7\xf9\xec\x63\xca\x0b\x42\
    \x06\x00\x00\x00ima-xx\
    \x38\x00\x00\x00\
    \x28\x00\x00\x00sha256:\x00\
    \xba\x78\x16\xbf\x8f\x01\xcf\xea\x41\x41\x40\xde\x5d\xae\x22\x23\
    \xb0\x03\x61\xa3\x96\x17\x7a\x9c\xb4\x10\xff\x61\xf2\x00\x15\xad\
    \x08\x00\x00\x00/bin/sh\x00";

/// The line of this entry.
pub const OTHER_TEMPLATE_LINE: &[u8] = b"10 83fdff315175587157ed3aa604e7f9ec63ca0b42 ima-xx \
    28000000736861323536\
    3a00ba7816bf8f01cfea414140de5dae2223b00361a396177a9cb410ff61f20015ad\
    080000002f62696e2f736800\n";

/// A signature.
pub const THREE_BYTES: &[u8] = b"\x03\x02\x04";

/// The entry of `/bin/sh`, measured into PCR 10 with the SHA-256 of `abc`, in the template `ima-sig` with this signature.
pub const SIGNED: &[u8] = b"\x0a\x00\x00\x00\
    \xa4\x6f\x5e\x1f\x6d\x52\x23\x45\x53\x7b\x5d\x5b\xdf\x66\x66\x49\x28\x27\xb4\xf2\
    \x07\x00\x00\x00ima-sig\
    \x3f\x00\x00\x00\
    \x28\x00\x00\x00sha256:\x00\
    \xba\x78\x16\xbf\x8f\x01\xcf\xea\x41\x41\x40\xde\x5d\xae\x22\x23\
    \xb0\x03\x61\xa3\x96\x17\x7a\x9c\xb4\x10\xff\x61\xf2\x00\x15\xad\
    \x08\x00\x00\x00/bin/sh\x00\
    \x03\x00\x00\x00\x03\x02\x04";

/// The signature of these bytes.
pub fn sig_of(alloc: Global, bytes: &[u8]) -> Result<Sig, Fail> {
    Ok(Sig::new(copied(alloc, bytes)?).ok().ok_or("no signature")?)
}

/// The longest path of `ima-ng` and of `ima-sig`.
pub const LONGEST_PATH: &[u8] = &[b'a'; 4_095];

/// A path of this length that begins with the number.
pub fn longest_path(alloc: Global, number: u32) -> Result<Vec<u8>, AllocError> {
    let name = format!(in alloc; "/{number}/")?;
    let mut path = joined(alloc, &[name.as_bytes(), LONGEST_PATH])?;
    path.truncate(LONGEST_PATH.len());
    Ok(path)
}

/// The longest signature, of 65,536 bytes.
pub fn longest_sig(alloc: Global) -> Result<Sig, Fail> {
    sig_of(alloc, &repeated(alloc, b"\xab", 65_536)?)
}

/// The list that the bytes are.
pub fn list_of(alloc: Global, bytes: &[u8]) -> Result<Vec<Entry>, ListFault> {
    once_more(ListFault::Memory, || read_list(alloc, bytes))
}

/// Appends an entry's spelling.
pub fn append_entry(entry: &Entry, out: &mut Vec<u8>) -> Result<(), AllocError> {
    once_more(AllocError, || write_entry(entry, out))
}

/// An entry's spelling.
pub fn spelling_of(alloc: Global, entry: &Entry) -> Result<Vec<u8>, AllocError> {
    let mut bytes = Vec::new(alloc);
    append_entry(entry, &mut bytes)?;
    Ok(bytes)
}

/// The spellings of the entries, joined.
pub fn spellings(alloc: Global, entries: &[Entry]) -> Result<Vec<u8>, AllocError> {
    let mut bytes = Vec::new(alloc);
    for entry in entries {
        append_entry(entry, &mut bytes)?;
    }
    Ok(bytes)
}
