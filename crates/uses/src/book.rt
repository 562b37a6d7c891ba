//! A book of measurements, and receipts that account for it.

ghost use Rattle.std.specs.Prelude.{◌≡◌, ◌⊎◌, map, IfOk, IfErr};
ghost use Rattle.boot_log.specs.Names.{HasLogFault};
ghost use Rattle.measure_book.specs.Names.{book_op_of, groups_of};
ghost use Rattle.uses.specs.Faults.{IsNotRecorded};
ghost use Rattle.uses.specs.Uses.{IsOriginAfter, IsShared, measurement_op};

use crate::fault::UseFault;
use boot_log::{LogFault, read_log};
use ima_list::{Sig, Template};
use measure_book::{Book, Op, Origin, Outcome, gather};
use pcr_banks::{Alg, hash};
use std::alloc::{AllocError, Global};

/// Where a book starts that goes on from the registers of a firmware event log.
pub fn origin_after(alloc: Global, log: &[u8]) -> Result<Origin, LogFault>
    ensures origin { IfOk result (IsOriginAfter log.now) }
    ensures fault { IfErr result (λ fault. (fault ≡ LogFault.Memory) ⊎ HasLogFault log.now fault) }
{
    Ok(Origin {
        start: read_log(alloc, log)?.registers(),
        template: Template::ImaNg,
        alg: Alg::Sha256,
        limit: 1_000,
    })
}

/// The measurement of a file that has no signature.
pub fn measurement(alloc: Global, path: &[u8], content: &[u8]) -> Result<Op, AllocError>
    ensures { IfOk result (λ op. book_op_of op ≡ measurement_op path.now content.now) }
{
    Ok(Op::Measure {
        path: Vec::from_slice(alloc, path)?,
        digest: hash(Alg::Sha256, content),
        sig: Sig::empty(alloc),
    })
}

/// Opens a book on the registers of a firmware event log, for two callers that share it, and does the operations of both. `gather` makes
/// sure that what they got accounts for every record of the book.
pub fn share_book(
    alloc: Global,
    log: &[u8],
    first: &[Op],
    second: &[Op],
) -> Result<(Book, [Vec<Outcome>; 2]), UseFault>
    ensures shared { IfOk result (λ shared. IsShared log.now (map book_op_of first.now) (map book_op_of second.now)
        shared.0 (groups_of shared.1)) }
    ensures fault { IfErr result (IsNotRecorded log.now) }
{
    let origin = origin_after(alloc, log)?;
    let mut book = Book::open(alloc, origin)?;
    let groups = [book.run(first)?, book.run(second)?];
    gather(alloc, &book, &origin, &groups)?;
    Ok((book, groups))
}
