//! The list of a real boot, made again by a book.

use super::real_boot::{FIRMWARE_LOG, IMA_LIST, REGISTER};
use ima_list::{Entry, Fields, Sig, Template};
use measure_book::{Answer, Book, BookFault, Op, Origin};
use pcr_banks::{Alg, Banks, REGISTERS};
use std::alloc::{AllocError, Global};
use std::process::Abort;
use std::test::Fail;
use test_kit::books::{applied, opened};
use test_kit::copied;
use test_kit::lists::list_of;
use test_kit::logs::log_of;
use test_kit::registers::sha256_of;

/// The operation that an entry with these fields comes of.
fn operation_of(alloc: Global, entry: &Entry, fields: &Fields) -> Result<Op, AllocError> {
    let path = copied(alloc, fields.path)?;
    Ok(if entry.is_violation() {
        Op::Violation { path }
    } else {
        Op::Measure {
            path,
            digest: fields.file,
            sig: Sig::empty(alloc),
        }
    })
}

/// A book that starts with these registers.
fn book_over(alloc: Global, start: Banks) -> Result<Book, BookFault> {
    let origin = Origin {
        start,
        template: Template::ImaNg,
        alg: Alg::Sha256,
        limit: 1000,
    };
    opened(alloc, origin)
}

/// The book, fed what the entry tells, makes this very entry. It makes the list's first one by itself when it is opened, and
/// refuses one whose digest is by SHA-512.
fn assert_made(
    rt: &(impl AllocGlobal + Abort),
    book: &mut Book,
    position: usize,
    entry: &Entry,
) -> Result<(), Fail> {
    let fields = entry.fields().ok_or("no fields")?;
    let op = operation_of(rt.alloc(), entry, &fields)?;
    if fields.file.alg() == Alg::Sha512 {
        assert_eq!(rt; book.apply(&op).err(), Some(BookFault::WrongHash));
        return Ok(());
    }
    if position > 0 {
        let answer = applied(book, &op)?.answer;
        assert!(rt; matches!(answer, Answer::Added(_)), "entry {position}");
    }
    let made = book.entries().last().ok_or("no entry")?;
    assert!(rt; made == entry, "entry {position}");
    Ok(())
}

/// PCR 10 after the list's entries but the one that is left out, computed apart from the list's bytes.
const REGISTER_WITHOUT: &[u8] = b"e4f516cb3b6ab7b767d11a49f5c1de007e933c3db12bd9afee3a51498abc9c3e";

/// A book that starts with the registers of the boot's log and is fed what the entries of the boot's list tell, violations as
/// violations, makes these very entries, but for one whose digest is by SHA-512. With that one put back in its place, the replay
/// gives the PCR 10 that the TPM had. All other registers are those after the log.
#[test]
fn real_boot_book(rt: HostRuntime) -> Result<(), Fail> {
    let alloc = rt.alloc();
    let start = log_of(alloc, FIRMWARE_LOG)?.registers();
    let mut book = book_over(alloc, start)?;
    let mut whole = start;
    let list = list_of(alloc, IMA_LIST)?;
    for (position, entry) in list.iter().enumerate() {
        entry.replay_into(&mut whole);
        assert_made(&rt, &mut book, position, entry)?;
    }
    assert_eq!(rt; (list.len(), book.entries().len()), (99, 98));
    let tenth = Some(sha256_of(REGISTER)?);
    assert_eq!(rt; whole.read(Alg::Sha256, 10), tenth);
    let tenth = Some(sha256_of(REGISTER_WITHOUT)?);
    for register in 0..REGISTERS {
        let other = start.read(Alg::Sha256, register);
        let wanted = if register == 10 { tenth } else { other };
        assert_eq!(rt; book.banks().read(Alg::Sha256, register), wanted);
    }
    Ok(())
}
