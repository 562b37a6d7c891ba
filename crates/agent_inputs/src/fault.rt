//! Why the program failed.

ghost use Rattle.std.specs.Prelude.{◌≡◌, ℕ};
ghost use Rattle.agent_inputs.specs.Faults.{fault_head, head_with, fault_of_check, fault_of_expected, fault_of_known, fault_of_list, fault_of_list_text, fault_of_log, fault_of_log_form, fault_of_arguments, not_resumed_number};
ghost use Rattle.agent_inputs.specs.declared.fault.RunFault.TheVariants.{Key, Known, Memory, Quote};

use agent_plans::ArgumentsFault;
use attestations::QuoteRefusal;
use boot_log::LogFault;
use boot_verdict::{CheckpointFault, ResumeFault};
use ima_list::{ListFault, ReplayFault};
use known_files::KnownFault;
use list_imports::ListImportFault;
use log_imports::LogImportFault;
use measure_book::{BookFault, GatherFault};
use pcr_values::ExpectFault;
use signed_messages::{CheckFault, SignatureRefusal};
use std::alloc::{AllocError, AllocFailed};
use std::fmt;
use thiserror::Error;
use tpm_keys::KeyFault;

/// Why there is no going on from a checkpoint.
#[derive(Clone, Copy, Debug, PartialEq, Eq, Error)]
pub enum NotResumed {
    /// 1: the text is not a whole checkpoint, as it was saved.
    #[error("{}", CheckpointFault::Damaged)]
    Damaged,
    /// 2: the checkpoint is of another version.
    #[error("{}", CheckpointFault::Version)]
    Version,
    /// 3: the checkpoint is of another boot: the log leaves other registers than those that it began from.
    #[error("{}", ResumeFault::OtherBoot)]
    OtherBoot,
    /// 4: a quote is of another boot than the checkpoint, by the TPM's counts; or no quote confirmed the checkpoint.
    #[error("the quote is of another boot than the checkpoint: its resets or restarts are others, or the checkpoint is of no quote")]
    OtherCounts,
}

impl NotResumed {
    /// The fault's number, from 1 to 4.
    pub fn number(self) -> u32
        ensures { result ≡ not_resumed_number self }
    {
        match self {
            NotResumed::Damaged => 1,
            NotResumed::Version => 2,
            NotResumed::OtherBoot => 3,
            NotResumed::OtherCounts => 4,
        }
    }
}

/// Why the program failed.
#[derive(Debug, Drop, Error)]
pub enum RunFault {
    /// The arguments are not those of a command, they name a range of registers that is none, or 2^32 files or more are named.
    Usage,
    /// A text is not hexadecimal.
    NotHex,
    /// An input is not a firmware event log.
    Log(LogFault),
    /// An input is not a measurement list.
    List(ListFault),
    /// An entry of the list is not genuine.
    Replay(ReplayFault),
    /// An input is not a measurement list as text.
    ListText(ListImportFault),
    /// An input is not a firmware event log in a form that is converted.
    LogForm(LogImportFault),
    /// An input does not state expected registers, or was not printed by tpm2-tools as one that states some.
    Expect(ExpectFault),
    /// An input is not the quote that is asked for.
    Quote(QuoteRefusal),
    /// A message is not signed by a key, as an input says that it is.
    Signature(SignatureRefusal),
    /// An input is not the public area of a key that is asked for.
    Key(KeyFault),
    /// A text of digests, by which files are known, is refused.
    Known {
        /// The number of its file among those that are given, counted from 1.
        file: usize,
        /// Why it is refused.
        fault: KnownFault,
    },
    /// There is no going on from a checkpoint.
    Checkpoint(NotResumed),
    /// The book could not be opened.
    Book(BookFault),
    /// The book refused the file of this number; files count from 0.
    Outcome {
        /// The number of the file.
        job: u32,
        /// Why the book refused it.
        fault: BookFault,
    },
    /// The input of this name is longer than 64 MiB.
    TooLong(String),
    /// The input of this name could not be opened, or failed while it was read.
    Read(String),
    /// The file of this name could not be written.
    Write(String),
    /// The text of file names in this input is not UTF-8.
    NotUtf8(String),
    /// The workers' outcomes do not account for the book's records.
    Gather(GatherFault),
    /// Out of memory.
    Memory,
}

/// The kinds of faults. Out of memory is one kind, wherever it happens.
#[derive(Clone, Copy)]
pub enum FaultKind {
    Usage,
    NotHex,
    Log,
    List,
    Replay,
    ListText,
    LogForm,
    Expect,
    Quote,
    Signature,
    Key,
    Known,
    Checkpoint,
    Book,
    Outcome,
    TooLong,
    Read,
    Write,
    NotUtf8,
    Gather,
    Memory,
}

/// What a fault is, beside a name in it.
#[derive(Clone, Copy)]
pub struct FaultHead {
    /// Its kind.
    pub kind: FaultKind,
    /// Its number among the faults of its kind, where it has one.
    pub number: Option<u32>,
    /// The event, the entry or the line that it names; of a file that the book refused the file's number.
    pub place: Option<usize>,
}

impl RunFault {
    /// The text of known files of this number, counted from 1, is refused.
    pub fn of_known(file: usize, fault: KnownFault) -> Self
        ensures { result ≡ fault_of_known file fault }
    {
        match fault {
            KnownFault::Memory => RunFault::Memory,
            fault => RunFault::Known { file, fault },
        }
    }

    /// Its kind, number and place. Out of memory, even inside another fault, is of the kind `Memory`.
    pub fn head(&self) -> FaultHead
        ensures { result ≡ fault_head self.now }
    {
        let (kind, number, place) = match self {
            RunFault::Log(LogFault::Memory)
            | RunFault::List(ListFault::Memory)
            | RunFault::ListText(ListImportFault::Memory)
            | RunFault::LogForm(LogImportFault::Memory | LogImportFault::Log(LogFault::Memory))
            | RunFault::Expect(ExpectFault::Memory)
            | RunFault::Book(BookFault::Memory)
            | RunFault::Outcome {
                fault: BookFault::Memory,
                ..
            }
            | RunFault::Gather(GatherFault::Memory)
            | RunFault::Memory => (FaultKind::Memory, None, None),
            RunFault::Usage => (FaultKind::Usage, None, None),
            RunFault::NotHex => (FaultKind::NotHex, None, None),
            RunFault::Log(fault) => (FaultKind::Log, Some(fault.number()), fault.event()),
            RunFault::List(fault) => (FaultKind::List, Some(fault.number()), fault.entry()),
            RunFault::Replay(fault) => {
                (FaultKind::Replay, Some(fault.number()), Some(fault.entry()))
            }
            RunFault::ListText(fault) => {
                (FaultKind::ListText, Some(fault.number()), fault.line())
            }
            RunFault::LogForm(fault) => (FaultKind::LogForm, Some(fault.number()), fault.event()),
            RunFault::Expect(fault) => (FaultKind::Expect, Some(fault.number()), fault.line()),
            RunFault::Quote(refusal) => (FaultKind::Quote, Some(refusal.number()), None),
            RunFault::Signature(refusal) => (FaultKind::Signature, Some(refusal.number()), None),
            RunFault::Key(fault) => (FaultKind::Key, Some(fault.number()), None),
            RunFault::Known { fault, .. } => head_of_known(*fault),
            RunFault::Checkpoint(fault) => (FaultKind::Checkpoint, Some(fault.number()), None),
            RunFault::Book(fault) => (FaultKind::Book, Some(fault.number()), None),
            RunFault::Outcome { job, fault } => {
                (
                    FaultKind::Outcome,
                    Some(fault.number()),
                    Some(*job as usize),
                )
            }
            RunFault::TooLong(_) => (FaultKind::TooLong, None, None),
            RunFault::Read(_) => (FaultKind::Read, None, None),
            RunFault::Write(_) => (FaultKind::Write, None, None),
            RunFault::NotUtf8(_) => (FaultKind::NotUtf8, None, None),
            RunFault::Gather(fault) => (FaultKind::Gather, Some(fault.number()), None),
        };
        FaultHead {
            kind,
            number,
            place,
        }
    }
}

// The kind, number and place of what is wrong with a text of known files.
fn head_of_known(fault: KnownFault) -> (FaultKind, Option<u32>, Option<usize>)
    ensures { (file : ℕ) → head_with result.0 result.1 result.2 ≡ fault_head (Known file fault) }
{
    match fault {
        KnownFault::WeakHash { line } => (FaultKind::Known, Some(1), Some(line)),
        KnownFault::Malformed { line } => (FaultKind::Known, Some(2), Some(line)),
        KnownFault::Memory => (FaultKind::Memory, None, None),
    }
}

/// What is wrong, in words. `TooLong`, `Read`, `Write` and `NotUtf8` name their file.
impl fmt::Display for RunFault {
    fn fmt<W: fmt::Write>(&self, f: &mut fmt::Formatter<W>) -> fmt::Result {
        match self {
            RunFault::Usage => f.write_str("the arguments are not those of a command"),
            RunFault::NotHex => f.write_str("the text is not hexadecimal"),
            RunFault::Log(fault) => say_fault("", fault, f),
            RunFault::List(fault) => say_fault("", fault, f),
            RunFault::Replay(fault) => say_fault("", fault, f),
            RunFault::ListText(fault) => say_fault("", fault, f),
            RunFault::LogForm(fault) => say_fault("", fault, f),
            RunFault::Expect(fault) => say_fault("", fault, f),
            RunFault::Quote(refusal) => say_fault("", refusal, f),
            RunFault::Signature(refusal) => say_fault("", refusal, f),
            RunFault::Key(fault) => say_fault("", fault, f),
            RunFault::Known { file, fault } => say_known(*file, *fault, f),
            RunFault::Checkpoint(fault) => say_fault("", fault, f),
            RunFault::Book(fault) => say_fault("", fault, f),
            RunFault::Outcome { job, fault } => say_outcome(*job, *fault, f),
            RunFault::TooLong(name) => say_name("", name, " is longer than 64 MiB", f),
            RunFault::Read(name) => say_name("cannot read ", name, "", f),
            RunFault::Write(name) => say_name("cannot write ", name, "", f),
            RunFault::NotUtf8(name) => say_name("", name, " is not UTF-8", f),
            RunFault::Gather(fault) => {
                say_fault("the outcomes do not account for the book: ", fault, f)
            }
            RunFault::Memory => f.write_str("out of memory"),
        }
    }
}

// Words, and the fault that they introduce.
fn say_fault<D: fmt::Display, W: fmt::Write>(
    words: &str,
    fault: &D,
    f: &mut fmt::Formatter<W>,
) -> fmt::Result {
    write!(f, "{words}{fault}")
}

// That the file of this number is refused, and why.
fn say_outcome<W: fmt::Write>(
    job: u32,
    fault: BookFault,
    f: &mut fmt::Formatter<W>,
) -> fmt::Result {
    write!(f, "file {job} is refused: {fault}")
}

// That the text of known files of this number is refused, and why.
fn say_known<W: fmt::Write>(
    file: usize,
    fault: KnownFault,
    f: &mut fmt::Formatter<W>,
) -> fmt::Result {
    write!(f, "known file {file}: {fault}")
}

// A name between words.
fn say_name<W: fmt::Write>(
    before: &str,
    name: &str,
    after: &str,
    f: &mut fmt::Formatter<W>,
) -> fmt::Result {
    write!(f, "{before}{name}{after}")
}

impl From<ArgumentsFault> for RunFault {
    ghost from_gives = { λ arguments_fault fault. fault ≡ fault_of_arguments arguments_fault };

    fn from(fault: ArgumentsFault) -> Self {
        match fault {
            ArgumentsFault::Usage => RunFault::Usage,
            ArgumentsFault::Memory => RunFault::Memory,
        }
    }
}

impl From<LogFault> for RunFault {
    ghost from_gives = { λ log_fault fault. fault ≡ fault_of_log log_fault };

    fn from(fault: LogFault) -> Self {
        match fault {
            LogFault::Memory => RunFault::Memory,
            other => RunFault::Log(other),
        }
    }
}

impl From<ListFault> for RunFault {
    ghost from_gives = { λ list_fault fault. fault ≡ fault_of_list list_fault };

    fn from(fault: ListFault) -> Self {
        match fault {
            ListFault::Memory => RunFault::Memory,
            other => RunFault::List(other),
        }
    }
}

impl From<ListImportFault> for RunFault {
    ghost from_gives = { λ import_fault fault. fault ≡ fault_of_list_text import_fault };

    fn from(fault: ListImportFault) -> Self {
        match fault {
            ListImportFault::Memory => RunFault::Memory,
            other => RunFault::ListText(other),
        }
    }
}

impl From<LogImportFault> for RunFault {
    ghost from_gives = { λ import_fault fault. fault ≡ fault_of_log_form import_fault };

    fn from(fault: LogImportFault) -> Self {
        match fault {
            LogImportFault::Memory => RunFault::Memory,
            other => RunFault::LogForm(other),
        }
    }
}

impl From<ExpectFault> for RunFault {
    ghost from_gives = { λ expect_fault fault. fault ≡ fault_of_expected expect_fault };

    fn from(fault: ExpectFault) -> Self {
        match fault {
            ExpectFault::Memory => RunFault::Memory,
            other => RunFault::Expect(other),
        }
    }
}

impl From<QuoteRefusal> for RunFault {
    ghost from_gives = { λ refusal fault. fault ≡ Quote refusal };

    fn from(refusal: QuoteRefusal) -> Self {
        RunFault::Quote(refusal)
    }
}

impl From<KeyFault> for RunFault {
    ghost from_gives = { λ key_fault fault. fault ≡ Key key_fault };

    fn from(fault: KeyFault) -> Self {
        RunFault::Key(fault)
    }
}

impl From<CheckFault> for RunFault {
    ghost from_gives = { λ check_fault fault. fault ≡ fault_of_check check_fault };

    fn from(fault: CheckFault) -> Self {
        match fault {
            CheckFault::Key(fault) => RunFault::Key(fault),
            CheckFault::Signature(refusal) => RunFault::Signature(refusal),
            CheckFault::Memory => RunFault::Memory,
        }
    }
}

impl From<AllocError> for RunFault {
    ghost from_gives = { λ _ fault. fault ≡ Memory };

    fn from(_refused: AllocError) -> Self {
        RunFault::Memory
    }
}

impl<T: Drop> From<AllocFailed<T>> for RunFault {
    ghost from_gives = { λ _ fault. fault ≡ Memory };

    fn from(_refused: AllocFailed<T>) -> Self {
        RunFault::Memory
    }
}
