//! Operations that are run on a book, all by one call.

use super::exports::{EMPTY, OPENING, exports};
use crate::books::deeds::{
    AGGREGATE, Deed, EMPTY_SHELL, End, FIRST, Row, SECOND, SHELL, THIRD, is_book, is_end,
    is_recorded, op_of, ops_of, play,
};
use measure_book::{Answer, Book, BookFault, ExportFault, Op, Outcome};
use pcr_banks::{Alg, Digest};
use std::alloc::{AllocError, Global};
use std::process::Abort;
use std::test::Fail;
use test_kit::books::{AFTER_OPENING, AFTER_TWO, opened, origin};
use test_kit::devices::ShortSink;
use test_kit::lists::MEASUREMENT;

/// PCR 10 after the boot aggregate and the measurement of `/bin/sh` with the content `abc`, and empty.
pub const AFTER_THREE: &[u8] = b"8969ed91a785f4fbb88b785dd3e6cf2d5bf6d1ba1550c61a202e9d644685bf9c";

/// The values of SHA-256 whose digits are [`AFTER_OPENING`] and [`AFTER_TWO`].
const VALUE_AFTER_OPENING: Digest = Digest::Sha256(
    *b"\
    \xbf\x0d\x85\x8e\x39\x04\x70\x4b\x36\x74\x0b\xc2\xdd\xcf\x48\x20\
    \xb9\x3a\x93\x23\xc1\x09\x83\x38\xb7\xc3\x8e\x33\x87\x35\x25\x7b",
);

const VALUE_AFTER_TWO: Digest = Digest::Sha256(
    *b"\
    \x5f\xce\xf8\x4d\x49\x0a\x16\x00\x58\xb8\xf1\xb7\xe3\x3a\xbe\xa9\
    \xf2\xdf\x32\x5f\x2b\x7c\xcb\x29\x4d\x1d\x28\xf3\x45\x9d\xb9\xd5",
);

/// What becomes of operations on a new book; then how many records the book has, its list's spellings, and PCR 10.
struct Run {
    rows: &'static [Row],
    records: usize,
    list: &'static [&'static [u8]],
    digits: &'static [u8],
}

const NO_MEMORY: End = Err(BookFault::Memory);

/// `/bin/sh` is measured twice with the content `abc`, and once empty: with ample memory; and where there is none for the first,
/// which the second then adds, for the second or for the third.
const THREE_RUNS: [Run; 4] = [
    Run {
        rows: &[FIRST, SECOND, THIRD],
        records: 4,
        list: &[OPENING, MEASUREMENT, EMPTY],
        digits: AFTER_THREE,
    },
    Run {
        rows: &[
            (SHELL, NO_MEMORY),
            (SHELL, Ok((1, Answer::Added(1)))),
            (EMPTY_SHELL, Ok((2, Answer::Added(2)))),
        ],
        records: 3,
        list: &[OPENING, MEASUREMENT, EMPTY],
        digits: AFTER_THREE,
    },
    Run {
        rows: &[
            FIRST,
            (SHELL, NO_MEMORY),
            (EMPTY_SHELL, Ok((2, Answer::Added(2)))),
        ],
        records: 3,
        list: &[OPENING, MEASUREMENT, EMPTY],
        digits: AFTER_THREE,
    },
    Run {
        rows: &[FIRST, SECOND, (EMPTY_SHELL, NO_MEMORY)],
        records: 3,
        list: &[OPENING, MEASUREMENT],
        digits: AFTER_TWO,
    },
];

const NUL_IN_PATH: Row = (Deed::Violation(b"/etc/\0x"), Err(BookFault::NulInPath));

const READ: Deed = Deed::Read(Alg::Sha256, 10);

/// A file is measured, a path has a NUL, which takes no memory to see, and PCR 10 is read: with ample memory, or with none for the
/// file, or for the reading.
const REFUSED_BETWEEN: [Run; 3] = [
    Run {
        rows: &[
            FIRST,
            NUL_IN_PATH,
            (READ, Ok((2, Answer::Value(VALUE_AFTER_TWO)))),
        ],
        records: 3,
        list: &[OPENING, MEASUREMENT],
        digits: AFTER_TWO,
    },
    Run {
        rows: &[
            (SHELL, NO_MEMORY),
            NUL_IN_PATH,
            (READ, Ok((1, Answer::Value(VALUE_AFTER_OPENING)))),
        ],
        records: 2,
        list: &[OPENING],
        digits: AFTER_OPENING,
    },
    Run {
        rows: &[FIRST, NUL_IN_PATH, (READ, NO_MEMORY)],
        records: 2,
        list: &[OPENING, MEASUREMENT],
        digits: AFTER_TWO,
    },
];

fn are_ends(book: &Book, ops: &[Op], outcomes: &[Outcome], rows: &[Row]) -> bool {
    for ((op, outcome), (_, end)) in ops.iter().zip(outcomes).zip(rows) {
        if !is_end(book, op, outcome, end) {
            return false;
        }
    }
    outcomes.len() == rows.len()
}

/// Whether the outcomes and the book are those of this run.
fn is_run(
    alloc: Global,
    book: &Book,
    ops: &[Op],
    outcomes: &[Outcome],
    run: &Run,
) -> Result<bool, Fail> {
    Ok(
        are_ends(book, ops, outcomes, run.rows)
            && is_book(book, run.records, run.list.len(), run.digits)
            && exports(alloc, book, run.list)?,
    )
}

/// A new book, and what becomes of the operations on it. If there is no memory for the outcomes nothing is done, and they are run on
/// this book once more.
fn run_on_new(rt: &impl Abort, alloc: Global, ops: &[Op]) -> Result<(Book, Vec<Outcome>), Fail> {
    let mut book = opened(alloc, origin(100))?;
    let outcomes = match book.run(ops) {
        Ok(outcomes) => outcomes,
        Err(AllocError) => {
            assert!(rt; is_book(&book, 1, 1, AFTER_OPENING));
            assert!(rt; exports(alloc, &book, &[OPENING])?);
            book.run(ops)?
        }
    };
    Ok((book, outcomes))
}

/// The book of the first run, which has ample memory. Where an operation found none the run is another one of these, and is made again
/// on another book.
fn assert_runs(rt: &impl Abort, alloc: Global, runs: &[Run]) -> Result<Book, Fail> {
    let first = runs.first().ok_or("no run")?;
    let ops = ops_of(alloc, first.rows)?;
    let (book, outcomes) = run_on_new(rt, alloc, &ops)?;
    if is_run(alloc, &book, &ops, &outcomes, first)? {
        return Ok(book);
    }
    let mut is_other = false;
    for run in runs {
        is_other = is_other || is_run(alloc, &book, &ops, &outcomes, run)?;
    }
    assert!(rt; is_other);
    let (book, outcomes) = run_on_new(rt, alloc, &ops)?;
    assert!(rt; is_run(alloc, &book, &ops, &outcomes, first)?);
    Ok(book)
}

#[test]
fn three_operations(rt: HostRuntime) -> Result<(), Fail> {
    let alloc = rt.alloc();
    let book = assert_runs(&rt, alloc, &THREE_RUNS)?;
    let aggregate = op_of(alloc, &AGGREGATE)?;
    assert!(rt; is_recorded(&book, 0, &aggregate, Answer::Added(0)));
    Ok(())
}

/// The longest path, and one that is longer.
const LONG: [u8; 4095] = [b'a'; 4095];

const LONGER: [u8; 4096] = [b'a'; 4096];

const AFTER_THE_RUN: [Row; 5] = [
    (AGGREGATE, Ok((3, Answer::Known(0)))),
    (Deed::Measure(b"", b"abc"), Ok((4, Answer::Added(2)))),
    (Deed::Measure(&LONG, b"abc"), Ok((5, Answer::Added(3)))),
    (Deed::Measure(&LONGER, b"abc"), Err(BookFault::PathTooLong)),
    (
        Deed::Read(Alg::Sha256, 0),
        Ok((6, Answer::Value(Digest::Sha256([0; 32])))),
    ),
];

#[test]
fn run_with_refusal_between(rt: HostRuntime) -> Result<(), Fail> {
    let alloc = rt.alloc();
    let mut book = assert_runs(&rt, alloc, &REFUSED_BETWEEN)?;
    play(&rt, alloc, &mut book, &AFTER_THE_RUN)?;
    assert!(rt; stops_after_a_hundred_bytes(&book));
    Ok(())
}

/// Whether a sink that fails after a hundred bytes of the export has taken these, all but the last of the first entry's.
fn stops_after_a_hundred_bytes(book: &Book) -> bool {
    let mut sink = ShortSink::new(100);
    let ended = book.export(&mut sink);
    ended == Err(ExportFault::Sink) && sink.failures() == 1 && sink.bytes() == &OPENING[..100]
}
