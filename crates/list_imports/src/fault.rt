//! Why a list as text is refused.

ghost use Rattle.std.specs.Prelude.{◌≡◌};
ghost use Rattle.list_imports.specs.ListImportFaults.{list_import_fault_line, list_import_fault_number};
ghost use Rattle.list_imports.specs.declared.fault.Lack.TheVariants.{Memory};

use std::alloc::AllocError;
use thiserror::Error;

/// Why a list as text was refused: its first line, counted from 1, that is not the line of an entry whose template digest is valid,
/// or out of memory.
#[derive(Clone, Copy, Debug, PartialEq, Eq, Error)]
pub enum ListImportFault {
    /// 1: it is not a line that the kernel prints of an entry.
    #[error("line {line}: it is no line of a measurement list, as the kernel prints it")]
    Malformed { line: usize },
    /// 2: it has the name of none of the kernel's templates, so what it says is not known.
    #[error("line {line}: its template is none of the kernel's")]
    UnknownTemplate { line: usize },
    /// 3: it is the line of an entry whose template digest is not the SHA-1 of what it covers, and which is no violation.
    #[error("line {line}: its template digest is not the SHA-1 of what it covers, and it is no violation")]
    WrongDigest { line: usize },
    /// 4: it is longer than 1 MiB.
    #[error("line {line}: it is longer than 1,048,576 bytes")]
    TooLong { line: usize },
    /// 5: out of memory.
    #[error("out of memory")]
    Memory,
}

impl ListImportFault {
    /// The fault's number, from 1 to 5.
    pub fn number(self) -> u32
        ensures { result ≡ list_import_fault_number self }
    {
        match self {
            ListImportFault::Malformed { .. } => 1,
            ListImportFault::UnknownTemplate { .. } => 2,
            ListImportFault::WrongDigest { .. } => 3,
            ListImportFault::TooLong { .. } => 4,
            ListImportFault::Memory => 5,
        }
    }

    /// The number of the line that the fault names, if it names one. Lines count from 1.
    pub fn line(self) -> Option<usize>
        ensures { result ≡ list_import_fault_line self }
    {
        match self {
            ListImportFault::Malformed { line }
            | ListImportFault::UnknownTemplate { line }
            | ListImportFault::WrongDigest { line }
            | ListImportFault::TooLong { line } => Some(line),
            ListImportFault::Memory => None,
        }
    }
}

/// What bytes lack to begin with the line of an entry whose template digest is valid.
#[derive(Clone, Copy, Debug, PartialEq, Eq)]
pub(crate) enum Lack {
    /// They begin with no line, as far as is known.
    Form,
    /// They begin as a line with the name of an unknown template.
    Template,
    /// They begin with the line of an entry whose template digest does not match.
    Digest,
    /// Memory ran out.
    Memory,
}

impl From<AllocError> for Lack {
    ghost from_gives = { λ _ lack. lack ≡ Memory };

    fn from(_refused: AllocError) -> Lack {
        Lack::Memory
    }
}
