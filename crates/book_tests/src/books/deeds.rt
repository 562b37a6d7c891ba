//! Operations and what becomes of them, as data; and books that they are done on.

use ima_list::Sig;
use measure_book::{Answer, Book, BookFault, GatherFault, Op, Origin, Outcome, Receipt, gather};
use pcr_banks::{Alg, Digest, hash};
use std::alloc::{AllocError, Global};
use std::process::Abort;
use test_kit::books::{applied, origin};
use test_kit::copied;

/// An operation. A file has a path and a content.
#[derive(Clone, Copy)]
pub enum Deed {
    /// A file is measured by SHA-256.
    Measure(&'static [u8], &'static [u8]),
    /// A file is measured by this algorithm.
    MeasureBy(Alg, &'static [u8], &'static [u8]),
    /// A file is measured by SHA-256 with this signature.
    Signed(&'static [u8], &'static [u8], &'static [u8]),
    /// A file of this path is measured with a digest of zero bytes.
    Zeros(&'static [u8]),
    /// The measurement of the file of this path is violated.
    Violation(&'static [u8]),
    /// A register is read.
    Read(Alg, u32),
}

/// What becomes of an operation: the place of its record and the answer, or why it is refused.
pub type End = Result<(u32, Answer), BookFault>;

pub type Row = (Deed, End);

const ZEROS: [u8; 320] = [0; 320];

/// The measurement of the boot aggregate of registers of SHA-256 at reset.
pub const AGGREGATE: Deed = Deed::Measure(b"boot_aggregate", &ZEROS);

/// `/bin/sh` is measured twice with the content `abc`, and once empty.
pub const THREE: [Row; 3] = [FIRST, SECOND, THIRD];

pub const FIRST: Row = (SHELL, Ok((1, Answer::Added(1))));

pub const SECOND: Row = (SHELL, Ok((2, Answer::Known(1))));

pub const THIRD: Row = (EMPTY_SHELL, Ok((3, Answer::Added(2))));

pub const SHELL: Deed = Deed::Measure(b"/bin/sh", b"abc");

pub const EMPTY_SHELL: Deed = Deed::Measure(b"/bin/sh", b"");

/// The operation; once more where an allocation was refused.
pub fn op_of(alloc: Global, deed: &Deed) -> Result<Op, AllocError> {
    match *deed {
        Deed::Measure(path, content) => measured(alloc, path, hash(Alg::Sha256, content), b""),
        Deed::MeasureBy(alg, path, content) => measured(alloc, path, hash(alg, content), b""),
        Deed::Signed(path, content, sig) => {
            measured(alloc, path, hash(Alg::Sha256, content), sig)
        }
        Deed::Zeros(path) => measured(alloc, path, Digest::zero(Alg::Sha256), b""),
        Deed::Violation(path) => violated(alloc, path),
        Deed::Read(alg, register) => Ok(Op::Read { alg, register }),
    }
}

pub fn measured(alloc: Global, path: &[u8], digest: Digest, sig: &[u8]) -> Result<Op, AllocError> {
    let path = copied(alloc, path)?;
    let sig = Sig::new(copied(alloc, sig)?).ok().ok_or(AllocError)?;
    Ok(Op::Measure { path, digest, sig })
}

pub fn violated(alloc: Global, path: &[u8]) -> Result<Op, AllocError> {
    let path = copied(alloc, path)?;
    Ok(Op::Violation { path })
}

/// An empty vector with this room; once more where an allocation was refused.
pub fn with_room<T: Drop>(alloc: Global, count: usize) -> Result<Vec<T>, AllocError> {
    match Vec::with_capacity(alloc, count) {
        Ok(items) => Ok(items),
        Err(AllocError) => Vec::with_capacity(alloc, count),
    }
}

pub fn ops_of(alloc: Global, rows: &[Row]) -> Result<Vec<Op>, AllocError> {
    let mut ops = with_room(alloc, rows.len())?;
    for (deed, _) in rows {
        ops.push(op_of(alloc, deed)?)?;
    }
    Ok(ops)
}

fn outcome_of(alloc: Global, row: &Row) -> Result<Outcome, AllocError> {
    let (deed, end) = row;
    match *end {
        Ok((place, answer)) => {
            let op = op_of(alloc, deed)?;
            Ok(Outcome::Done(Receipt { place, op, answer }))
        }
        Err(fault) => Ok(Outcome::Refused(fault)),
    }
}

/// What becomes of these operations.
pub fn outcomes_of(alloc: Global, rows: &[Row]) -> Result<Vec<Outcome>, AllocError> {
    let mut outcomes = with_room(alloc, rows.len())?;
    for row in rows {
        outcomes.push(outcome_of(alloc, row)?)?;
    }
    Ok(outcomes)
}

/// Gathers for the usual origin with this limit; once more where an allocation was refused.
pub fn gathered(
    alloc: Global,
    book: &Book,
    limit: u32,
    groups: &[Vec<Outcome>],
) -> Result<(), GatherFault> {
    match gather(alloc, book, &origin(limit), groups) {
        Err(GatherFault::Memory) => gather(alloc, book, &origin(limit), groups),
        answer => answer,
    }
}

/// Whether the book's record at this place is of this operation and answer.
pub fn is_recorded(book: &Book, place: u32, op: &Op, answer: Answer) -> bool {
    match book.records().get(place as usize) {
        Some(record) => record.op == *op && record.answer == answer,
        None => false,
    }
}

/// Whether the operation was refused for this reason, or its receipt and the book's record have this place, operation and answer.
pub fn is_end(book: &Book, op: &Op, outcome: &Outcome, end: &End) -> bool {
    match (outcome, end) {
        (Outcome::Done(done), Ok((place, answer))) => {
            done.place == *place
                && done.answer == *answer
                && done.op == *op
                && is_recorded(book, *place, op, *answer)
        }
        (Outcome::Refused(found), Err(fault)) => found == fault,
        _ => false,
    }
}

/// What becomes of the operation on this book. Where an allocation was refused it is done by another call.
pub fn outcome_on(book: &mut Book, op: &Op) -> Outcome {
    match applied(book, op) {
        Ok(receipt) => Outcome::Done(receipt),
        Err(fault) => Outcome::Refused(fault),
    }
}

/// Does the operations one by one, each of which becomes what its row says. Where an allocation was refused an operation is
/// done by another call.
pub fn play(
    rt: &impl Abort,
    alloc: Global,
    book: &mut Book,
    rows: &[Row],
) -> Result<(), AllocError> {
    for (number, (deed, end)) in rows.iter().enumerate() {
        let op = op_of(alloc, deed)?;
        let outcome = outcome_on(book, &op);
        assert!(rt; is_end(book, &op, &outcome, end), "row {number}");
    }
    Ok(())
}

/// Whether the book has so many records and entries, and PCR 10 of SHA-256 the value of these digits.
pub fn is_book(book: &Book, records: usize, entries: usize, digits: &[u8]) -> bool {
    let value = Digest::from_hex(Alg::Sha256, digits);
    value.is_some()
        && book.banks().read(Alg::Sha256, 10) == value
        && book.records().len() == records
        && book.entries().len() == entries
}
