//! Operations and books, and PCR 10 after some of them.

use crate::registers::start;
use crate::{copied, once_more};
use ima_list::{Sig, Template};
use measure_book::{Book, BookFault, Op, Origin, Receipt};
use pcr_banks::{Alg, Digest};
use std::alloc::{AllocError, Global};

/// PCR 10 after the boot aggregate of registers at reset.
pub const AFTER_OPENING: &[u8] =
    b"bf0d858e3904704b36740bc2ddcf4820b93a9323c1098338b7c38e338735257b";

/// PCR 10 after this entry and the measurement of `/bin/sh` with the content `abc`.
pub const AFTER_TWO: &[u8] = b"5fcef84d490a160058b8f1b7e33abea9f2df325f2b7ccb294d1d28f3459db9d5";

/// An origin with banks of SHA-256 alone after a start from locality 0, the template `ima-ng` and SHA-256.
pub fn origin(limit: u32) -> Origin {
    Origin {
        start: start(),
        template: Template::ImaNg,
        alg: Alg::Sha256,
        limit,
    }
}

/// A copy of the signature.
pub fn copied_sig(sig: &Sig) -> Result<Sig, AllocError> {
    once_more(AllocError, || sig.copy())
}

/// The measurement of a file without a signature.
pub fn measure(alloc: Global, path: &[u8], digest: Digest) -> Result<Op, AllocError> {
    measure_with(alloc, path, digest, &Sig::empty(alloc))
}

/// The measurement of a file with this signature.
pub fn measure_with(
    alloc: Global,
    path: &[u8],
    digest: Digest,
    sig: &Sig,
) -> Result<Op, AllocError> {
    let path = copied(alloc, path)?;
    let sig = copied_sig(sig)?;
    Ok(Op::Measure { path, digest, sig })
}

/// Opens a book.
pub fn opened(alloc: Global, origin: Origin) -> Result<Book, BookFault> {
    once_more(BookFault::Memory, || Book::open(alloc, origin))
}

/// Does an operation. Where an allocation was refused the book is as it was, and it is done once more.
pub fn applied(book: &mut Book, op: &Op) -> Result<Receipt, BookFault> {
    once_more(BookFault::Memory, || book.apply(op))
}
