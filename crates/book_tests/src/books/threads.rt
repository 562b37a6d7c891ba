//! Two threads that share a book.

use crate::books::deeds::{gathered, measured, outcome_on, with_room};
use measure_book::{Answer, Book, GatherFault, Op, Outcome};
use pcr_banks::{Alg, Digest};
use std::alloc::{AllocError, Global};
use std::sync::{Mutex, Wait};
use std::test::Fail;
use std::thread;
use std::thread::Threads;
use test_kit::books::{opened, origin};
use test_kit::registers::{sha256, start};

/// How many times each of two callers measures its file and reads the register, and how many records that makes.
const ROUNDS: u8 = 50;

const LIMIT: u32 = 201;

/// Measures the caller's file, whose content is another each time, and reads the register after each measurement.
fn measured_and_read<R: Wait>(
    rt: &R,
    alloc: Global,
    book: &Mutex<Book>,
    caller: u8,
) -> Result<Vec<Outcome>, AllocError> {
    let mut outcomes = with_room(alloc, 2 * ROUNDS as usize)?;
    for round in 0..ROUNDS {
        let op = measured(alloc, &[b'/', caller], sha256(&[caller, round]), b"")?;
        outcomes.push(outcome_on(&mut book.lock(rt), &op))?;
        let op = Op::Read {
            alg: Alg::Sha256,
            register: 10,
        };
        outcomes.push(outcome_on(&mut book.lock(rt), &op))?;
    }
    Ok(outcomes)
}

/// Runs two callers on one book, each in a thread and with a file of its own, and answers the outcomes of each. Where
/// no thread can be started, they come one after the other.
fn two_callers<R: Threads + Wait + Sync>(
    rt: &R,
    alloc: Global,
    book: &Mutex<Book>,
) -> (
    Result<Vec<Outcome>, AllocError>,
    Result<Vec<Outcome>, AllocError>,
) {
    thread::scope(thread::scope_env(), rt, |scope| {
        let first = scope.spawn(|| measured_and_read(rt, alloc, book, b'1'));
        let second = scope.spawn(|| measured_and_read(rt, alloc, book, b'2'));
        let first = match first {
            Ok(handle) => handle.join(rt),
            Err(_) => measured_and_read(rt, alloc, book, b'1'),
        };
        let second = match second {
            Ok(handle) => handle.join(rt),
            Err(_) => measured_and_read(rt, alloc, book, b'2'),
        };
        (first, second)
    })
}

/// The values of PCR 10 after each entry of the book's list, from the first on.
fn values_of(alloc: Global, book: &Book) -> Result<Vec<Option<Digest>>, AllocError> {
    let mut values = with_room(alloc, book.entries().len())?;
    let mut banks = start();
    for entry in book.entries() {
        entry.replay_into(&mut banks);
        values.push(banks.read(Alg::Sha256, 10))?;
    }
    Ok(values)
}

/// Whether the register had this value after the entry at a place, or later.
fn is_value_from(values: &[Option<Digest>], place: usize, value: Digest) -> bool {
    for later in values.iter().skip(place) {
        if *later == Some(value) {
            return true;
        }
    }
    false
}

/// Whether each read of the group is answered a value that the register had after the measurement before it, or later.
fn reads_follow(values: &[Option<Digest>], outcomes: &[Outcome]) -> bool {
    let mut place = 0;
    for outcome in outcomes {
        let Outcome::Done(receipt) = outcome else {
            return false;
        };
        match receipt.answer {
            Answer::Added(own) => place = own as usize,
            Answer::Value(value) if is_value_from(values, place, value) => (),
            _ => return false,
        }
    }
    true
}

#[test]
fn gather_of_two_threads(rt: HostRuntime) -> Result<(), Fail> {
    let alloc = rt.alloc();
    let book = Mutex::new(opened(alloc, origin(LIMIT))?);
    let (first, second) = two_callers(&rt, alloc, &book);
    let both = [first?, second?];
    let book = book.into_inner();
    assert!(rt; book.records().len() == 201 && book.entries().len() == 101);
    assert!(rt; gathered(alloc, &book, LIMIT, &both).is_ok());
    let alone = gathered(alloc, &book, LIMIT, &both[..1]);
    assert!(rt; matches!(alone, Err(GatherFault::Unnamed { .. })));
    let values = values_of(alloc, &book)?;
    assert!(rt; reads_follow(&values, &both[0]) && reads_follow(&values, &both[1]));
    Ok(())
}
