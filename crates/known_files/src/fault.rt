//! Why a text of digests is refused.

ghost use Rattle.std.specs.Prelude.{◌≡◌};
ghost use Rattle.known_files.specs.declared.fault.KnownFault.TheVariants.{Memory};

use std::alloc::AllocFailed;
use thiserror::Error;

/// Why a text of digests was refused: the first wrong line, counted from 1, or out of memory.
#[derive(Clone, Copy, Debug, PartialEq, Eq, Error)]
pub enum KnownFault {
    /// 1: the line says a digest by SHA-1: files with the same one are made.
    #[error("line {line}: it is a digest by SHA-1, of which collisions are made")]
    WeakHash { line: usize },
    /// 2: the line is not a digest by SHA-256, SHA-384 or SHA-512, two spaces or a space and an asterisk, and a name.
    #[error("line {line}: it is not a digest and a name, as sha256sum prints them")]
    Malformed { line: usize },
    /// Out of memory.
    #[error("out of memory")]
    Memory,
}

impl<T: Drop> From<AllocFailed<T>> for KnownFault {
    ghost from_gives = { λ _ fault. fault ≡ Memory };

    fn from(_refused: AllocFailed<T>) -> KnownFault {
        KnownFault::Memory
    }
}
