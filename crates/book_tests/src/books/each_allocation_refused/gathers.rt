//! Outcomes of all callers, held against a book's records.

use crate::books::deeds::{
    AGGREGATE, Deed, FIRST, Row, SECOND, THIRD, THREE, gathered, outcomes_of, play, with_room,
};
use measure_book::{Answer, Book, BookFault, GatherFault, Outcome, gather};
use std::alloc::{AllocError, Global};
use std::process::Abort;
use std::test::Fail;
use test_kit::books::{opened, origin};

/// Outcomes of callers, the limit of the book's origin, and what comes of gathering them.
struct Account {
    limit: u32,
    groups: &'static [&'static [Row]],
    answer: Result<(), GatherFault>,
}

const SECOND_OTHERWISE: Row = (Deed::Measure(b"/bin/sh", b"abc"), Ok((2, Answer::Known(2))));

/// A receipt for the opening's record, and one for a record that there cannot be.
const OPENED: Row = (AGGREGATE, Ok((0, Answer::Added(0))));

const FAR: Row = (
    Deed::Measure(b"/bin/sh", b"abc"),
    Ok((u32::MAX, Answer::Added(1))),
);

/// The book is full, and a path has a NUL.
const FULL: Row = (Deed::Measure(b"/bin/sh", b"abc"), Err(BookFault::Full));

const NUL: Row = (Deed::Violation(b"/etc/\0x"), Err(BookFault::NulInPath));

const EACH_CAUSE: [Account; 8] = [
    Account {
        limit: 100,
        groups: &[&[FIRST, SECOND, THIRD]],
        answer: Ok(()),
    },
    Account {
        limit: 100,
        groups: &[&[THIRD], &[FIRST, SECOND]],
        answer: Ok(()),
    },
    Account {
        limit: 99,
        groups: &[&[FIRST, SECOND, THIRD]],
        answer: Err(GatherFault::ForeignBook),
    },
    Account {
        limit: 100,
        groups: &[&[FIRST, FIRST, SECOND, THIRD]],
        answer: Err(GatherFault::OutOfOrder),
    },
    Account {
        limit: 100,
        groups: &[&[FIRST, SECOND, THIRD], &[FIRST]],
        answer: Err(GatherFault::Double),
    },
    Account {
        limit: 100,
        groups: &[&[FIRST, THIRD]],
        answer: Err(GatherFault::Unnamed { place: 2 }),
    },
    Account {
        limit: 100,
        groups: &[&[FIRST, SECOND_OTHERWISE, THIRD]],
        answer: Err(GatherFault::Stranger { group: 0, index: 1 }),
    },
    Account {
        limit: 100,
        groups: &[&[FIRST, SECOND, THIRD], &[FULL]],
        answer: Err(GatherFault::FalseFull),
    },
];

const CAUSES_IN_ORDER: [Account; 8] = [
    Account {
        limit: 100,
        groups: &[&[OPENED]],
        answer: Err(GatherFault::Stranger { group: 0, index: 0 }),
    },
    Account {
        limit: 100,
        groups: &[],
        answer: Err(GatherFault::Unnamed { place: 1 }),
    },
    Account {
        limit: 100,
        groups: &[&[SECOND, FIRST]],
        answer: Err(GatherFault::OutOfOrder),
    },
    Account {
        limit: 100,
        groups: &[&[FIRST], &[FIRST]],
        answer: Err(GatherFault::Double),
    },
    Account {
        limit: 100,
        groups: &[&[SECOND, FIRST], &[FAR]],
        answer: Err(GatherFault::Stranger { group: 1, index: 0 }),
    },
    Account {
        limit: 99,
        groups: &[&[SECOND, FIRST], &[FAR]],
        answer: Err(GatherFault::ForeignBook),
    },
    Account {
        limit: 100,
        groups: &[&[FIRST, SECOND], &[FIRST, THIRD, SECOND]],
        answer: Err(GatherFault::OutOfOrder),
    },
    Account {
        limit: 100,
        groups: &[&[FIRST, SECOND, FULL]],
        answer: Err(GatherFault::Unnamed { place: 3 }),
    },
];

/// A book with room for one operation more than the opening, which is done.
const ON_A_FULL_BOOK: [Account; 1] = [Account {
    limit: 2,
    groups: &[&[FIRST, FULL, NUL]],
    answer: Ok(()),
}];

const ON_A_FRESH_BOOK: [Account; 1] = [Account {
    limit: 100,
    groups: &[],
    answer: Ok(()),
}];

fn groups_of(alloc: Global, groups: &[&[Row]]) -> Result<Vec<Vec<Outcome>>, AllocError> {
    let mut made = with_room(alloc, groups.len())?;
    for rows in groups {
        made.push(outcomes_of(alloc, rows)?)?;
    }
    Ok(made)
}

/// What comes of the account. By one call if it has a reason that is looked for before memory is taken, else by another one where an
/// allocation was refused.
fn answer_of(
    alloc: Global,
    book: &Book,
    account: &Account,
    groups: &[Vec<Outcome>],
) -> Result<(), GatherFault> {
    match account.answer {
        Err(GatherFault::ForeignBook | GatherFault::Stranger { .. } | GatherFault::OutOfOrder) => {
            gather(alloc, book, &origin(account.limit), groups)
        }
        _ => gathered(alloc, book, account.limit, groups),
    }
}

/// Each of the accounts is answered so on a new book of this limit, on which these operations are done.
fn assert_gathers(
    rt: &impl Abort,
    alloc: Global,
    limit: u32,
    rows: &[Row],
    accounts: &[Account],
) -> Result<(), BookFault> {
    let mut book = opened(alloc, origin(limit))?;
    play(rt, alloc, &mut book, rows)?;
    for (number, account) in accounts.iter().enumerate() {
        let groups = groups_of(alloc, account.groups)?;
        let found = answer_of(alloc, &book, account, &groups);
        assert!(rt; found == account.answer, "account {number}");
    }
    Ok(())
}

#[test]
fn gather_each_cause(rt: HostRuntime) -> Result<(), Fail> {
    assert_gathers(&rt, rt.alloc(), 100, &[], &ON_A_FRESH_BOOK)?;
    assert_gathers(&rt, rt.alloc(), 100, &THREE, &EACH_CAUSE)?;
    Ok(())
}

#[test]
fn gather_order_of_causes(rt: HostRuntime) -> Result<(), Fail> {
    assert_gathers(&rt, rt.alloc(), 100, &THREE, &CAUSES_IN_ORDER)?;
    assert_gathers(&rt, rt.alloc(), 2, &THREE[..1], &ON_A_FULL_BOOK)?;
    Ok(())
}
