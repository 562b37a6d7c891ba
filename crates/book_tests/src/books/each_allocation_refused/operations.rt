//! Operations that are done or refused one by one, and books that are not opened.

use super::exports::{OPENING, exports};
use crate::books::deeds::{Deed, Row, is_book, is_recorded, op_of, play};
use ima_list::Template;
use measure_book::{Answer, Book, BookFault, Origin};
use pcr_banks::{Alg, AlgSet, Banks};
use std::alloc::Global;
use std::process::Abort;
use std::test::Fail;
use test_kit::books::{AFTER_OPENING, AFTER_TWO, opened, origin};
use test_kit::lists::{MEASUREMENT, SIGNED, THREE_BYTES, VIOLATION};

/// The operations are done one by one on a new book, each of which becomes what its row says. Then the book has so many records, its
/// list is these spellings, and PCR 10 has the value of these digits.
pub fn assert_example(
    rt: &impl Abort,
    alloc: Global,
    origin: Origin,
    rows: &[Row],
    records: usize,
    list: &[&[u8]],
    digits: &[u8],
) -> Result<(), Fail> {
    let mut book = opened(alloc, origin)?;
    play(rt, alloc, &mut book, rows)?;
    assert!(rt; is_book(&book, records, list.len(), digits));
    assert!(rt; exports(alloc, &book, list)?);
    Ok(())
}

const VIOLATIONS: [Row; 4] = [
    (Deed::Violation(b"/etc/x"), Ok((1, Answer::Added(1)))),
    (Deed::Zeros(b"/etc/x"), Ok((2, Answer::Added(2)))),
    (Deed::Violation(b"/etc/x"), Ok((3, Answer::Added(3)))),
    (Deed::Zeros(b"/etc/x"), Ok((4, Answer::Known(2)))),
];

/// PCR 10 after the boot aggregate and a violation of `/etc/x`; then also after the measurement of this path with a digest
/// of zero bytes, and a second violation.
const AFTER_VIOLATION: &[u8] = b"f452d7d9f5e9d973174411f620ab7dace63a48de8c1cccdca0830ac7d06a0146";

const AFTER_TWO_VIOLATIONS: &[u8] =
    b"438c0bc73f9e938c832f47438e12b63e37f7520ecb0c992c71b251192b8c50d2";

/// The spelling of the measurement of `/etc/x` with a digest of zero bytes.
const ZEROS: &[u8] = b"\x0a\x00\x00\x00\
    \xec\x9d\x1f\x61\xe6\x52\x47\x87\xe9\x34\xf1\x6a\x8d\x75\xe2\xe8\x2c\x2b\xb8\x4f\
    \x06\x00\x00\x00ima-ng\
    \x37\x00\x00\x00\
    \x28\x00\x00\x00sha256:\x00\
    \x00\x00\x00\x00\x00\x00\x00\x00\x00\x00\x00\x00\x00\x00\x00\x00\
    \x00\x00\x00\x00\x00\x00\x00\x00\x00\x00\x00\x00\x00\x00\x00\x00\
    \x07\x00\x00\x00/etc/x\x00";

const OF_VIOLATIONS: [&[u8]; 4] = [OPENING, VIOLATION, ZEROS, VIOLATION];

#[test]
fn violation_then_measure(rt: HostRuntime) -> Result<(), Fail> {
    let alloc = rt.alloc();
    assert_example(&rt, alloc, origin(100), &[], 1, &[OPENING], AFTER_OPENING)?;
    let (rows, list) = (&VIOLATIONS[..1], &OF_VIOLATIONS[..2]);
    assert_example(&rt, alloc, origin(100), rows, 2, list, AFTER_VIOLATION)?;
    let (rows, list) = (&VIOLATIONS, &OF_VIOLATIONS);
    assert_example(&rt, alloc, origin(100), rows, 5, list, AFTER_TWO_VIOLATIONS)?;
    Ok(())
}

/// On a book that is full after the first of them; nothing changes after it.
const ON_A_FULL_BOOK: [Row; 8] = [
    (Deed::Measure(b"/bin/sh", b"abc"), Ok((1, Answer::Added(1)))),
    (Deed::Measure(b"/bin/sh", b"abc"), Err(BookFault::Full)),
    (Deed::Read(Alg::Sha256, 10), Err(BookFault::Full)),
    (
        Deed::Measure(b"/bin/\0sh", b"abc"),
        Err(BookFault::NulInPath),
    ),
    (Deed::Violation(b"/bin/\0sh"), Err(BookFault::NulInPath)),
    (Deed::Read(Alg::Sha384, 24), Err(BookFault::NoBank)),
    (Deed::Read(Alg::Sha256, 24), Err(BookFault::BadRegister)),
    (
        Deed::MeasureBy(Alg::Sha1, b"/bin/\0sh", b"abc"),
        Err(BookFault::WrongHash),
    ),
];

#[test]
fn full_book_and_order_of_causes(rt: HostRuntime) -> Result<(), Fail> {
    let alloc = rt.alloc();
    let list = &[OPENING, MEASUREMENT];
    assert_example(&rt, alloc, origin(2), &ON_A_FULL_BOOK, 2, list, AFTER_TWO)?;
    assert!(rt; refuses(alloc, origin(0), BookFault::Full));
    assert!(rt; refuses(alloc, of_ima(Alg::Sha256), BookFault::WrongHash));
    assert!(rt; refuses(alloc, of_ima(Alg::Sha1), BookFault::NoBank));
    Ok(())
}

/// Whether opening a book is refused for this reason.
fn refuses(alloc: Global, origin: Origin, fault: BookFault) -> bool {
    match Book::open(alloc, origin) {
        Ok(_) => false,
        Err(found) => found == fault,
    }
}

/// An origin over banks of SHA-256 alone, in the template `ima`.
fn of_ima(alg: Alg) -> Origin {
    Origin {
        template: Template::Ima,
        alg,
        ..origin(100)
    }
}

/// The spellings of a book of SHA-512: of the boot aggregate of registers at reset, the SHA-512 of 640 zero bytes, of `/bin/sh` with
/// the content `abc`, and of a violation of `/etc/x`.
const OF_SHA512: [&[u8]; 3] = [
    b"\x0a\x00\x00\x00\
    \xb9\x53\xc3\xbd\x55\x42\xeb\x78\x8e\x66\xdc\x18\x8d\xd0\xc3\xa0\x31\x8d\x53\xb9\
    \x06\x00\x00\x00ima-ng\
    \x5f\x00\x00\x00\
    \x48\x00\x00\x00sha512:\x00\
    \xaa\x79\x44\x4d\xee\x58\x10\x83\x2c\xae\x99\x35\xb8\x83\xc7\x15\
    \x57\xbe\x3d\x3b\x04\x8a\xe1\x00\x5c\x51\x04\xa4\x35\x59\x34\x5b\
    \xbe\xa9\x63\x77\x13\x75\x06\x5c\x88\x21\x0a\xb1\x2e\x14\xb2\x5b\
    \x83\x93\x0d\x9f\x75\xf9\x66\x60\x28\xaa\x1f\xd0\xdf\x7c\x22\x25\
    \x0f\x00\x00\x00boot_aggregate\x00",
    b"\x0a\x00\x00\x00\
    \x90\x2e\x8f\x84\x99\x78\x51\xeb\x2e\x2b\xf9\x20\x01\x65\x33\x40\xa7\x0a\xff\x21\
    \x06\x00\x00\x00ima-ng\
    \x58\x00\x00\x00\
    \x48\x00\x00\x00sha512:\x00\
    \xdd\xaf\x35\xa1\x93\x61\x7a\xba\xcc\x41\x73\x49\xae\x20\x41\x31\
    \x12\xe6\xfa\x4e\x89\xa9\x7e\xa2\x0a\x9e\xee\xe6\x4b\x55\xd3\x9a\
    \x21\x92\x99\x2a\x27\x4f\xc1\xa8\x36\xba\x3c\x23\xa3\xfe\xeb\xbd\
    \x45\x4d\x44\x23\x64\x3c\xe8\x0e\x2a\x9a\xc9\x4f\xa5\x4c\xa4\x9f\
    \x08\x00\x00\x00/bin/sh\x00",
    b"\x0a\x00\x00\x00\
    \x00\x00\x00\x00\x00\x00\x00\x00\x00\x00\x00\x00\x00\x00\x00\x00\x00\x00\x00\x00\
    \x06\x00\x00\x00ima-ng\
    \x57\x00\x00\x00\
    \x48\x00\x00\x00sha512:\x00\
    \x00\x00\x00\x00\x00\x00\x00\x00\x00\x00\x00\x00\x00\x00\x00\x00\
    \x00\x00\x00\x00\x00\x00\x00\x00\x00\x00\x00\x00\x00\x00\x00\x00\
    \x00\x00\x00\x00\x00\x00\x00\x00\x00\x00\x00\x00\x00\x00\x00\x00\
    \x00\x00\x00\x00\x00\x00\x00\x00\x00\x00\x00\x00\x00\x00\x00\x00\
    \x07\x00\x00\x00/etc/x\x00",
];

const BY_SHA512: [Row; 3] = [
    (
        Deed::MeasureBy(Alg::Sha512, b"/bin/sh", b"abc"),
        Ok((1, Answer::Added(1))),
    ),
    (Deed::Measure(b"/bin/ls", b"abc"), Err(BookFault::WrongHash)),
    (Deed::Violation(b"/etc/x"), Ok((2, Answer::Added(2)))),
];

/// PCR 10 of SHA-256 after these entries.
const AFTER_SHA512: &[u8] = b"524f1e3dfc54df4e186975e07f522b5bb5e4dd4c366b3de0790fa51d7674e25f";

/// An origin over banks of SHA-256 and of SHA-512, in SHA-512.
fn of_sha512(template: Template) -> Origin {
    Origin {
        start: Banks::new(AlgSet::empty().with(Alg::Sha256).with(Alg::Sha512), 0),
        template,
        alg: Alg::Sha512,
        limit: 100,
    }
}

/// The boot aggregate of registers of SHA-512 at reset.
const AGGREGATE_OF_SHA512: Deed = Deed::MeasureBy(Alg::Sha512, b"boot_aggregate", &[0; 640]);

#[test]
fn sha512_bank_in_a_book(rt: HostRuntime) -> Result<(), Fail> {
    let alloc = rt.alloc();
    assert!(rt; refuses(alloc, of_sha512(Template::Ima), BookFault::WrongHash));
    let origin = of_sha512(Template::ImaNg);
    assert_example(&rt, alloc, origin, &BY_SHA512, 3, &OF_SHA512, AFTER_SHA512)?;
    let book = opened(alloc, origin)?;
    let aggregate = op_of(alloc, &AGGREGATE_OF_SHA512)?;
    assert!(rt; is_recorded(&book, 0, &aggregate, Answer::Added(0)));
    Ok(())
}

const WITH_SIGNATURES: [Row; 4] = [
    (Deed::Measure(b"/bin/sh", b"abc"), Ok((1, Answer::Added(1)))),
    (
        Deed::Signed(b"/bin/sh", b"abc", THREE_BYTES),
        Ok((2, Answer::Added(2))),
    ),
    (Deed::Measure(b"/bin/sh", b"abc"), Ok((3, Answer::Known(1)))),
    (Deed::Violation(b"/etc/x"), Ok((4, Answer::Added(3)))),
];

/// Operations on a book whose template has no signature.
const WITHOUT_SIGNATURES: [Row; 3] = [
    (Deed::Measure(b"/bin/sh", b"abc"), Ok((1, Answer::Added(1)))),
    (
        Deed::Signed(b"/bin/sh", b"abc", THREE_BYTES),
        Ok((2, Answer::Known(1))),
    ),
    (Deed::Measure(b"/bin/sh", b"abc"), Ok((3, Answer::Known(1)))),
];

/// The spellings of a book of `ima-sig`: of the boot aggregate, of `/bin/sh` without a signature and with one, and of a violation.
const OF_IMA_SIG: [&[u8]; 4] = [
    b"\x0a\x00\x00\x00\
    \x7b\xc6\x3f\xcf\xf2\xb5\xf3\x29\xbf\x04\xb1\x82\x0c\xcb\x5e\xb5\x5c\x2b\xe6\x49\
    \x07\x00\x00\x00ima-sig\
    \x43\x00\x00\x00\
    \x28\x00\x00\x00sha256:\x00\
    \x7b\x64\x36\xb0\xc9\x8f\x62\x38\x08\x66\xd9\x43\x2c\x2a\xf0\xee\
    \x08\xce\x16\xa1\x71\xbd\xa6\x95\x1a\xec\xd9\x5e\xe1\x30\x7d\x61\
    \x0f\x00\x00\x00boot_aggregate\x00\
    \x00\x00\x00\x00",
    b"\x0a\x00\x00\x00\
    \xff\xb8\xdc\x2f\x2f\x8c\x5a\xc2\xcd\x36\x7f\x14\xf9\x48\x81\xc5\xf5\xf9\x79\x7c\
    \x07\x00\x00\x00ima-sig\
    \x3c\x00\x00\x00\
    \x28\x00\x00\x00sha256:\x00\
    \xba\x78\x16\xbf\x8f\x01\xcf\xea\x41\x41\x40\xde\x5d\xae\x22\x23\
    \xb0\x03\x61\xa3\x96\x17\x7a\x9c\xb4\x10\xff\x61\xf2\x00\x15\xad\
    \x08\x00\x00\x00/bin/sh\x00\
    \x00\x00\x00\x00",
    SIGNED,
    b"\x0a\x00\x00\x00\
    \x00\x00\x00\x00\x00\x00\x00\x00\x00\x00\x00\x00\x00\x00\x00\x00\x00\x00\x00\x00\
    \x07\x00\x00\x00ima-sig\
    \x3b\x00\x00\x00\
    \x28\x00\x00\x00sha256:\x00\
    \x00\x00\x00\x00\x00\x00\x00\x00\x00\x00\x00\x00\x00\x00\x00\x00\
    \x00\x00\x00\x00\x00\x00\x00\x00\x00\x00\x00\x00\x00\x00\x00\x00\
    \x07\x00\x00\x00/etc/x\x00\
    \x00\x00\x00\x00",
];

/// PCR 10 after these entries.
const AFTER_IMA_SIG: &[u8] = b"b019843228bf4131a3f3ae6292e0a8d11c8575b2d581918a28837569ad01d4ab";

/// A signature tells measurements apart where the template has it.
#[test]
fn signatures_in_books(rt: HostRuntime) -> Result<(), Fail> {
    let alloc = rt.alloc();
    let mut signed = origin(100);
    signed.template = Template::ImaSig;
    let rows = &WITH_SIGNATURES;
    assert_example(&rt, alloc, signed, rows, 5, &OF_IMA_SIG, AFTER_IMA_SIG)?;
    let rows = &WITHOUT_SIGNATURES;
    let list = &[OPENING, MEASUREMENT];
    assert_example(&rt, alloc, origin(100), rows, 4, list, AFTER_TWO)?;
    Ok(())
}
