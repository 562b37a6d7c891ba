//! Calls that want all their memory, each made once: on books of thousands of records, of the least and the greatest limit, of the
//! longest operations, and of each template and algorithm. A body that gives up without reason fails here.

use crate::books::deeds::{Deed, Row, is_book, measured, play, violated};
use ima_list::Template;
use measure_book::{Answer, Book, BookFault, Op, Origin, Outcome, gather};
use pcr_banks::{Alg, AlgSet, Banks, Digest};
use std::alloc::{AllocError, Global};
use std::process::Abort;
use std::test::Fail;
use test_kit::books::{AFTER_OPENING, measure_with, origin};
use test_kit::lists::{THREE_BYTES, longest_path, longest_sig};
use test_kit::registers::sha256;

/// Operations by their numbers.
#[derive(Clone, Copy)]
enum Series {
    /// Of each eight the first measures a file, the second measures it again, the third is its violation, and the others read
    /// a register that no entry extends.
    Mixed,
    /// Each measures another file.
    Files,
    /// These files are measured again.
    KnownFiles,
    /// Of each two that measure a file the second has a signature, and they differ in nothing else.
    Signed,
    /// These measurements are made again.
    KnownSigned,
}

fn op_at(alloc: Global, series: Series, number: u32) -> Result<Op, AllocError> {
    match series {
        Series::Mixed => mixed_at(alloc, number),
        Series::Files | Series::KnownFiles => file(alloc, number, b""),
        Series::Signed | Series::KnownSigned => signed_at(alloc, number),
    }
}

fn mixed_at(alloc: Global, number: u32) -> Result<Op, AllocError> {
    match number % 8 {
        0 | 1 => file(alloc, number / 8, b""),
        2 => violation(alloc, number / 8),
        _ => Ok(Op::Read {
            alg: Alg::Sha256,
            register: 0,
        }),
    }
}

fn signed_at(alloc: Global, number: u32) -> Result<Op, AllocError> {
    let sig = if number % 2 == 0 {
        b"".as_slice()
    } else {
        THREE_BYTES
    };
    file(alloc, number / 2, sig)
}

fn file(alloc: Global, number: u32, sig: &[u8]) -> Result<Op, AllocError> {
    let path = format!(in alloc; "/f/{number}")?;
    measured(alloc, path.as_bytes(), sha256(b"abc"), sig)
}

fn violation(alloc: Global, number: u32) -> Result<Op, AllocError> {
    let path = format!(in alloc; "/f/{number}")?;
    violated(alloc, path.as_bytes())
}

/// What an operation is answered after those of smaller numbers.
fn answer_at(series: Series, number: u32) -> Answer {
    let place = number / 8 * 2 + 1;
    match (series, number % 8) {
        (Series::Files | Series::Signed, _) => Answer::Added(number.saturating_add(1)),
        (Series::KnownFiles | Series::KnownSigned, _) => Answer::Known(number.saturating_add(1)),
        (Series::Mixed, 0) => Answer::Added(place),
        (Series::Mixed, 1) => Answer::Known(place),
        (Series::Mixed, 2) => Answer::Added(place + 1),
        (Series::Mixed, _) => Answer::Value(Digest::zero(Alg::Sha256)),
    }
}

/// Does so many operations on the book, each by one call.
fn apply_all(
    rt: &impl Abort,
    alloc: Global,
    book: &mut Book,
    series: Series,
    count: u32,
) -> Result<(), BookFault> {
    for number in 0..count {
        let op = op_at(alloc, series, number)?;
        let answer = book.apply(&op)?.answer;
        assert!(rt; answer == answer_at(series, number), "{number}");
    }
    Ok(())
}

/// A book of this template and limit, on which so many operations of each series and then these are done; how many records and entries
/// it then has, and PCR 10.
struct Large {
    template: Template,
    limit: u32,
    series: &'static [Series],
    count: u32,
    rows: &'static [Row],
    records: usize,
    entries: usize,
    digits: &'static [u8],
}

fn assert_large(rt: &impl Abort, alloc: Global, large: &Large) -> Result<(), BookFault> {
    let mut origin = origin(large.limit);
    origin.template = large.template;
    let mut book = Book::open(alloc, origin)?;
    for series in large.series {
        apply_all(rt, alloc, &mut book, *series, large.count)?;
    }
    play(rt, alloc, &mut book, large.rows)?;
    assert!(rt; is_book(&book, large.records, large.entries, large.digits));
    Ok(())
}

/// PCR 10 after five thousand mixed operations.
const AFTER_MIXED: &[u8] = b"b82a376544a3c9ad3d39a37535a83e2fb0b49e684566c5b36e51d949810149d8";

const MIXED: Large = Large {
    template: Template::ImaNg,
    limit: 5_001,
    series: &[Series::Mixed],
    count: 5_000,
    rows: &[(Deed::Read(Alg::Sha256, 0), Err(BookFault::Full))],
    records: 5_001,
    entries: 1_251,
    digits: AFTER_MIXED,
};

#[test]
fn five_thousand_are_applied(rt: HostRuntime) -> Result<(), Fail> {
    Ok(assert_large(&rt, rt.alloc(), &MIXED)?)
}

/// Of the files `/f/0` to `/f/1999` with the content `abc`, and a violation.
const TWO_THOUSAND: Large = Large {
    template: Template::ImaNg,
    limit: 5_000,
    series: &[Series::Files, Series::KnownFiles],
    count: 2_000,
    rows: &[
        (Deed::Violation(b"/f/0"), Ok((4_001, Answer::Added(2_001)))),
        (
            Deed::Measure(b"/f/0", b"abc"),
            Ok((4_002, Answer::Known(1))),
        ),
    ],
    records: 4_003,
    entries: 2_002,
    digits: b"92f024f4a01e9cf1337aa968158bc679bce5c95c17bfccc2110c76de14aa4877",
};

/// Two thousand files are added, and then each is known at its place. A violation of the first of them is added too, and the
/// file is still known where its measurement stands.
#[test]
fn index_of_two_thousand(rt: HostRuntime) -> Result<(), Fail> {
    Ok(assert_large(&rt, rt.alloc(), &TWO_THOUSAND)?)
}

/// Half of the measurements have a signature.
const SIGNED: Large = Large {
    template: Template::ImaSig,
    limit: 10_000,
    series: &[Series::Signed, Series::KnownSigned],
    count: 2_500,
    rows: &[],
    records: 5_001,
    entries: 2_501,
    digits: b"5b32ef94fefb70adbc679445c3364053ff1a7454b674a76ca2f108da459bedfa",
};

#[test]
fn thousands_are_told_apart_by_signatures(rt: HostRuntime) -> Result<(), Fail> {
    Ok(assert_large(&rt, rt.alloc(), &SIGNED)?)
}

/// The mixed operations of these numbers.
fn mixed_ops(alloc: Global, count: u32) -> Result<Vec<Op>, AllocError> {
    let mut ops = Vec::new(alloc);
    for number in 0..count {
        ops.push(mixed_at(alloc, number)?)?;
    }
    Ok(ops)
}

/// Whether the first operations, this many, are done, each with the answer of its number.
fn are_answered(outcomes: &[Outcome], count: u32) -> bool {
    for number in 0..count {
        match outcomes.get(number as usize) {
            Some(outcome) if is_answered(outcome, number) => (),
            _ => return false,
        }
    }
    true
}

fn is_answered(outcome: &Outcome, number: u32) -> bool {
    match outcome {
        Outcome::Done(receipt) => receipt.answer == answer_at(Series::Mixed, number),
        Outcome::Refused(_) => false,
    }
}

/// What becomes of five thousand mixed operations, which are run on the book.
fn run_mixed(alloc: Global, book: &mut Book) -> Result<Vec<Outcome>, AllocError> {
    let ops = mixed_ops(alloc, 5_000)?;
    book.run(&ops)
}

#[test]
fn five_thousand_are_run_and_gathered(rt: HostRuntime) -> Result<(), Fail> {
    let alloc = rt.alloc();
    let mut book = Book::open(alloc, origin(5_001))?;
    let groups = [run_mixed(alloc, &mut book)?];
    assert!(rt; groups[0].len() == 5_000 && are_answered(&groups[0], 5_000));
    assert!(rt; is_book(&book, 5_001, 1_251, AFTER_MIXED));
    assert!(rt; gather(alloc, &book, &origin(5_001), &groups).is_ok());
    Ok(())
}

/// Operations, so many: each measures a file of the longest path with the longest signature.
fn longest_ops(alloc: Global, count: u32) -> Result<Vec<Op>, Fail> {
    let sig = longest_sig(alloc)?;
    let mut ops = Vec::new(alloc);
    for number in 0..count {
        let path = longest_path(alloc, number)?;
        ops.push(measure_with(alloc, &path, sha256(b"abc"), &sig)?)?;
    }
    Ok(ops)
}

#[test]
fn longest_are_run_and_gathered(rt: HostRuntime) -> Result<(), Fail> {
    let alloc = rt.alloc();
    let mut origin = origin(21);
    origin.template = Template::ImaSig;
    let ops = longest_ops(alloc, 20)?;
    let mut book = Book::open(alloc, origin)?;
    let groups = [book.run(&ops)?];
    assert!(rt; book.records().len() == 21 && book.entries().len() == 21);
    assert!(rt; gather(alloc, &book, &origin, &groups).is_ok());
    Ok(())
}

/// The greatest limit takes no more memory than a small one.
#[test]
fn books_of_least_and_greatest_limit(rt: HostRuntime) -> Result<(), Fail> {
    let alloc = rt.alloc();
    for limit in [1, u32::MAX] {
        let book = Book::open(alloc, origin(limit))?;
        assert!(rt; is_book(&book, 1, 1, AFTER_OPENING));
    }
    Ok(())
}

/// Each template with each algorithm that it takes.
const FORMS: [(Template, Alg); 9] = [
    (Template::Ima, Alg::Sha1),
    (Template::ImaNg, Alg::Sha1),
    (Template::ImaNg, Alg::Sha256),
    (Template::ImaNg, Alg::Sha384),
    (Template::ImaNg, Alg::Sha512),
    (Template::ImaSig, Alg::Sha1),
    (Template::ImaSig, Alg::Sha256),
    (Template::ImaSig, Alg::Sha384),
    (Template::ImaSig, Alg::Sha512),
];

/// A new book of this form measures a file, knows it, notes a violation, and reads a register at reset.
fn assert_form(
    rt: &impl Abort,
    alloc: Global,
    algs: AlgSet,
    template: Template,
    alg: Alg,
) -> Result<(), BookFault> {
    let start = Banks::new(algs, 0);
    let limit = 5;
    let mut book = Book::open(
        alloc,
        Origin {
            start,
            template,
            alg,
            limit,
        },
    )?;
    let file = Deed::MeasureBy(alg, b"/bin/sh", b"abc");
    let rows = [
        (file, Ok((1, Answer::Added(1)))),
        (file, Ok((2, Answer::Known(1)))),
        (Deed::Violation(b"/etc/x"), Ok((3, Answer::Added(2)))),
        (
            Deed::Read(alg, 0),
            Ok((4, Answer::Value(Digest::zero(alg)))),
        ),
    ];
    play(rt, alloc, &mut book, &rows)?;
    Ok(())
}

#[test]
fn books_of_each_form(rt: HostRuntime) -> Result<(), Fail> {
    let all = AlgSet::empty()
        .with(Alg::Sha1)
        .with(Alg::Sha256)
        .with(Alg::Sha384)
        .with(Alg::Sha512);
    for (template, alg) in FORMS {
        assert_form(&rt, rt.alloc(), AlgSet::empty().with(alg), template, alg)?;
        assert_form(&rt, rt.alloc(), all, template, alg)?;
    }
    Ok(())
}
