//! What the program's arguments request, or why they were refused.

ghost use Rattle.std.specs.Prelude.{◌≡◌};
ghost use Rattle.cells.specs.declared.writer.Form.TheVariants.{Text};
ghost use Rattle.agent_plans.specs.Plans.{IsOneOf, look_of, plain_log, task_of, whole_verdict};
ghost use Rattle.agent_plans.specs.declared.plan.Query.TheVariants as queries;
ghost use Rattle.agent_plans.specs.declared.plan.Task.TheVariants as tasks;
ghost use Rattle.agent_plans.specs.declared.plan.ArgumentsFault.TheVariants.{Memory};

use cells::Form;
use ima_list::Template;
use pcr_banks::Alg;
use std::alloc::{AllocError, AllocFailed};
use thiserror::Error;
use tpm_keys::{KeyPart, Purpose};

/// What a measurement prints.
#[derive(Clone, Copy, PartialEq, Eq)]
pub enum Print {
    /// The list as text, one line per entry.
    Ascii,
    /// The list in its binary form.
    Binary,
    /// The registers that differ from their reset values.
    Registers,
}

/// What ends each name in a text of file names.
#[derive(Clone, Copy, PartialEq, Eq)]
pub enum NameEnd {
    /// A line feed; the last name may lack it.
    LineFeed,
    /// A NUL byte; the last name may lack it.
    Nul,
}

/// What is shown of the data of a log's events.
#[derive(Clone, Copy, PartialEq, Eq)]
pub enum DataShown {
    /// How many bytes there are.
    Size,
    /// How many bytes there are, and the bytes in hexadecimal.
    Bytes,
    /// What the bytes say, and which part of them was measured.
    Meaning,
}

/// A firmware event log, and whether it tells where the machine started.
#[derive(Drop)]
pub struct LogFile {
    /// The name of the log, binary.
    pub name: String,
    /// Whether an event of type EV_EFI_HCRTM_EVENT in PCR 0 tells that PCR 0 began at 4, if no event tells a locality (TPM 2.0 Library, part 1,
    /// 34.3).
    pub hcrtm: bool,
}

impl LogFile {
    /// The log of this name, which is replayed as it stands.
    pub fn plain(name: String) -> LogFile
        ensures { result ≡ plain_log name }
    {
        LogFile { name, hcrtm: false }
    }
}

/// What a file is converted from, into the form that the other commands read.
#[derive(Clone, Copy, PartialEq, Eq)]
pub enum Conversion {
    /// A measurement list as text, as the kernel shows it, into its binary form.
    List,
    /// A firmware event log in the SHA-1 form, or with padding behind its last event, into a crypto-agile log without padding.
    Log,
}

/// Which part of a list a verdict is on.
#[derive(Clone, Copy, PartialEq, Eq)]
pub enum Scope {
    /// The whole list.
    Whole,
    /// The shortest prefix of the list that matches; if none does, the whole list.
    Prefix,
}

/// How a verdict is shown as text.
#[derive(Clone, Copy, PartialEq, Eq)]
pub enum Look {
    /// By the report.
    Plain,
    /// By the report as on a terminal: PCRs that match at their reset values come last, and are marked.
    Terminal,
    /// By one line in place of the report.
    Summary,
}

/// Which comparison it is, with the inputs and options that only it has.
#[derive(Drop)]
pub enum ComparisonKind {
    /// A log, a list and expected registers.
    Verdict {
        /// The firmware event log.
        log: LogFile,
        /// Which part of the list the verdict is on.
        scope: Scope,
        /// The name of the checkpoint to go on from, if there is one.
        resume: Option<String>,
        /// The name under which the checkpoint is saved, if it is.
        save: Option<String>,
    },
    /// Where the expected registers first have their values, in a log and a list.
    Positions {
        /// The firmware event log.
        log: LogFile,
    },
    /// A list alone and expected registers.
    ListVerdict,
}

/// What is asked of a list and expected registers.
#[derive(Drop)]
pub struct ComparisonOptions {
    /// Which comparison it is.
    pub kind: ComparisonKind,
    /// The name of the measurement list, binary; with a checkpoint, of what follows it.
    pub list: String,
    /// The name of the text of expected registers.
    pub expected: String,
    /// The text of the registers that have to be among them, as `sha256:0-10`, if there is one. It is any text here.
    pub required: Option<String>,
    /// The names of the texts of known files, if there are some: only for a verdict, and only where registers are required.
    pub known: Option<Vec<String>>,
    /// Whether the boot aggregate of a kernel before 5.8 is taken: only for a verdict on a log, and only where registers are required.
    pub old_kernel: bool,
    /// Whether standard error says what to do next even if it is no terminal.
    pub explained: bool,
    /// How the verdict is shown as text: plain, unless there is one.
    pub look: Look,
}

/// What tells that a quote's message is signed by the right key.
#[derive(Drop)]
pub enum SigningOptions {
    /// Nothing does: nobody looks at the signature.
    NotChecked,
    /// The caller says that he has verified the signature.
    ByCaller,
    /// A key and a signature, under which the message is verified.
    ByKey {
        /// The name of the key's file: its public area, or PEM.
        key: String,
        /// The name of the signature's file.
        signature: String,
    },
}

/// A quote of a log and a list, and what it must be.
#[derive(Drop)]
pub struct Quoting {
    /// The name of the measurement list, binary; with a checkpoint, of what follows it.
    pub list: String,
    /// The name of the message that the TPM signed.
    pub quote: String,
    /// The nonce that the quote must have.
    pub nonce: Vec<u8>,
    /// The text of the registers that must be quoted, as `sha256:0-10`. It is any text here.
    pub required: String,
    /// Whether a register may be required in the SHA-1 bank alone.
    pub takes_sha1: bool,
    /// Whether the boot aggregate of a kernel before 5.8 is taken.
    pub old_kernel: bool,
    /// What tells that the message is signed by the right key.
    pub signing: SigningOptions,
}

/// What is asked of a log and a list where the TPM has quoted registers.
#[derive(Drop)]
pub struct AttestOptions {
    /// The firmware event log.
    pub log: LogFile,
    /// The list and the quote.
    pub quoting: Quoting,
    /// The name of the text of expected registers, which nobody has signed, if there is one.
    pub expected: Option<String>,
    /// The names of the texts of known files, if there are some.
    pub known: Option<Vec<String>>,
    /// Which part of the list is judged.
    pub scope: Scope,
    /// The name of the checkpoint to go on from, if there is one.
    pub resume: Option<String>,
    /// The name under which the checkpoint is saved, if it is.
    pub save: Option<String>,
    /// Whether standard error says what to do next even if it is no terminal.
    pub explained: bool,
    /// How the verdict is shown as text: plain, unless there is one.
    pub look: Look,
}

/// What tells which data of a log is confirmed.
#[derive(Drop)]
pub enum ConfirmedBy {
    /// Nothing does.
    Nothing,
    /// Values that nobody has signed: those in the text of expected registers of this name.
    Expected(String),
    /// A quote, of the log and a list.
    Quote(Quoting),
}

/// A text that names further files.
#[derive(Drop)]
pub struct Names {
    /// The name of the text.
    pub text: String,
    /// What ends each name in it.
    pub ends: NameEnd,
}

/// What is measured, and how.
#[derive(Drop)]
pub struct Measurement {
    /// The algorithm of the files' digests.
    pub alg: Alg,
    /// The template of the entries.
    pub template: Template,
    /// How many workers hash at once, 1 to 8.
    pub workers: usize,
    /// The maximum number of records, at least 1.
    pub limit: u32,
    /// What to print.
    pub print: Print,
    /// The firmware event log.
    pub log: LogFile,
    /// The names of the files that are named by arguments, fewer than 2^32.
    pub files: Vec<String>,
    /// The text that names further files, if there is one.
    pub names: Option<Names>,
}

/// What is asked of a log, of a list, of a text of registers or of a key.
#[derive(Drop)]
pub enum Query {
    /// The registers after a firmware event log.
    LogRegisters {
        /// The log.
        log: LogFile,
    },
    /// The registers that a list alone makes.
    ListRegisters {
        /// The name of the measurement list, binary.
        list: String,
    },
    /// What a list is worth.
    Comparison(ComparisonOptions),
    /// Whether a quote is of a log and a list.
    Attestation(AttestOptions),
    /// The expected registers that `tpm2_pcrread` or `tpm2_checkquote` printed.
    Expected {
        /// The name of the text that one of them printed.
        printed: String,
        /// The text of the range of registers to show, as `0-10`; none for all of them. It is any text here.
        registers: Option<String>,
    },
    /// What is told of a key of a TPM, if it is one for a purpose.
    Key {
        /// The name of the file that has its public area.
        area: String,
        /// What it must be for.
        purpose: Purpose,
        /// What is shown of it.
        part: KeyPart,
    },
}

impl Query {
    /// How the answer is shown as text: plain, unless it is a verdict that is shown in another way.
    pub fn look(&self) -> Look
        ensures { result ≡ look_of self.now }
    {
        match self {
            Query::Comparison(judge) => judge.look,
            Query::Attestation(attest) => attest.look,
            Query::LogRegisters { .. }
            | Query::ListRegisters { .. }
            | Query::Expected { .. }
            | Query::Key { .. } => Look::Plain,
        }
    }
}

/// What is to be done.
#[derive(Drop)]
pub enum Task {
    /// Show the registers after a firmware event log, which is read in hexadecimal from standard input.
    Registers,
    /// Answer a question.
    Answer(Query),
    /// Measure files into the registers of a log.
    Measure(Measurement),
    /// Show the events of a firmware event log.
    Events {
        /// The firmware event log.
        log: LogFile,
        /// What to show of their data. In JSON all of it is shown, with what it says: then this is not `Meaning`.
        data: DataShown,
        /// What tells which of it is confirmed: nothing where what the data says is not shown.
        confirmed_by: ConfirmedBy,
    },
    /// Answer what the machine booted that left a firmware event log.
    Boot {
        /// The firmware event log.
        log: LogFile,
        /// What tells which of it is confirmed.
        confirmed_by: ConfirmedBy,
        /// The name of the log of an earlier boot, with which this one is compared, if there is one. It is replayed as the other one.
        before: Option<String>,
    },
    /// Give a file in the form that the other commands read.
    Convert {
        /// The name of the file.
        input: String,
        /// From which form it is.
        conversion: Conversion,
    },
    /// Show the entries of a list.
    Entries {
        /// The name of the measurement list, binary.
        list: String,
        /// Whether the entries before a fault are shown as text too; as JSON they are in any case.
        partial: bool,
    },
    /// Show this help.
    Help(String),
    /// Show the version.
    Version,
}

/// What the program's arguments request. Each but the last is a task that is shown as text, which [`Plan::into_task`] gives.
#[derive(Drop)]
pub enum Plan {
    /// Show the registers after a firmware event log, which is read in hexadecimal from standard input.
    Registers,
    /// Measure files into the registers of a log.
    Measure {
        /// The algorithm of the files' digests.
        alg: Alg,
        /// The template of the entries.
        template: Template,
        /// How many workers hash at once, 1 to 8.
        workers: usize,
        /// The maximum number of records, at least 1.
        limit: u32,
        /// What to print.
        print: Print,
        /// The name of the firmware event log, binary.
        log: String,
        /// The names of the files, fewer than 2^32.
        files: Vec<String>,
    },
    /// Replay a log and a list, and compare the registers with expected ones.
    Verify {
        /// The name of the firmware event log, binary.
        log: String,
        /// The name of the measurement list, binary.
        list: String,
        /// The name of the text of expected registers.
        expected: String,
    },
    /// Show the entries of a list as text.
    Show {
        /// The name of the measurement list, binary.
        list: String,
    },
    /// Show this help.
    Help(String),
    /// Do any other task, and show the result in this form.
    Task(Task, Form),
}

impl Plan {
    /// What is to be done, and in which form the result is shown.
    pub fn into_task(self) -> (Task, Form)
        ensures { result ≡ task_of self }
    {
        match self {
            Plan::Registers => (Task::Registers, Form::Text),
            Plan::Measure {
                alg,
                template,
                workers,
                limit,
                print,
                log,
                files,
            } => (
                Task::Measure(Measurement {
                    alg,
                    template,
                    workers,
                    limit,
                    print,
                    log: LogFile::plain(log),
                    files,
                    names: None,
                }),
                Form::Text,
            ),
            Plan::Verify {
                log,
                list,
                expected,
            } => {
                let kind = ComparisonKind::Verdict {
                    log: LogFile::plain(log),
                    scope: Scope::Whole,
                    resume: None,
                    save: None,
                };
                let judge = ComparisonOptions {
                    kind,
                    list,
                    expected,
                    required: None,
                    known: None,
                    old_kernel: false,
                    explained: false,
                    look: Look::Plain,
                };
                (Task::Answer(Query::Comparison(judge)), Form::Text)
            }
            Plan::Show { list } => (
                Task::Entries {
                    list,
                    partial: false,
                },
                Form::Text,
            ),
            Plan::Help(text) => (Task::Help(text), Form::Text),
            Plan::Task(task, form) => (task, form),
        }
    }

    /// The plan of this task, shown in this form. `Task` is the plan only of what no other plan requests.
    pub fn of(request: (Task, Form)) -> Plan
        ensures task { task_of result ≡ request }
        ensures one { IsOneOf result }
    {
        match request {
            (Task::Registers, Form::Text) => Plan::Registers,
            (Task::Measure(request), Form::Text) => measurement_plan(request),
            (Task::Answer(Query::Comparison(judge)), Form::Text) => comparison_plan(judge),
            (
                Task::Entries {
                    list,
                    partial: false,
                },
                Form::Text,
            ) => Plan::Show { list },
            (Task::Help(text), Form::Text) => Plan::Help(text),
            (task, form) => Plan::Task(task, form),
        }
    }
}

// The plan of this measurement, shown as text: `Measure`, if arguments alone name its files, and its log is replayed as it stands.
fn measurement_plan(request: Measurement) -> Plan
    ensures task { task_of result ≡ (tasks.Measure request, Text) }
    ensures one { IsOneOf result }
{
    let Measurement {
        alg,
        template,
        workers,
        limit,
        print,
        log,
        files,
        names,
    } = request;
    let LogFile { name, hcrtm } = log;
    match (names, hcrtm) {
        (None, false) => Plan::Measure {
            alg,
            template,
            workers,
            limit,
            print,
            log: name,
            files,
        },
        (names, hcrtm) => {
            let log = LogFile { name, hcrtm };
            let request = Measurement {
                alg,
                template,
                workers,
                limit,
                print,
                log,
                files,
                names,
            };
            Plan::Task(Task::Measure(request), Form::Text)
        }
    }
}

// The plan of the verdict on a whole list, and nothing more, shown as text: `Verify`, if its log is replayed as it stands.
fn verdict_plan(log: LogFile, list: String, expected: String) -> Plan
    ensures task { task_of result ≡ (tasks.Answer (queries.Comparison (whole_verdict log list expected)), Text) }
    ensures one { IsOneOf result }
{
    let LogFile { name, hcrtm } = log;
    if hcrtm {
        let log = LogFile { name, hcrtm };
        let kind = ComparisonKind::Verdict {
            log,
            scope: Scope::Whole,
            resume: None,
            save: None,
        };
        let judge = ComparisonOptions {
            kind,
            list,
            expected,
            required: None,
            known: None,
            old_kernel: false,
            explained: false,
            look: Look::Plain,
        };
        Plan::Task(Task::Answer(Query::Comparison(judge)), Form::Text)
    } else {
        Plan::Verify {
            log: name,
            list,
            expected,
        }
    }
}

// The plan of this question, shown as text: that of the verdict on a whole list, and nothing more, if it is this one.
fn comparison_plan(judge: ComparisonOptions) -> Plan
    ensures task { task_of result ≡ (tasks.Answer (queries.Comparison judge), Text) }
    ensures one { IsOneOf result }
{
    let ComparisonOptions {
        kind,
        list,
        expected,
        required,
        known,
        old_kernel,
        explained,
        look,
    } = judge;
    match (kind, required, known, old_kernel, explained, look) {
        (
            ComparisonKind::Verdict {
                log,
                scope: Scope::Whole,
                resume: None,
                save: None,
            },
            None,
            None,
            false,
            false,
            Look::Plain,
        ) => verdict_plan(log, list, expected),
        (kind, required, known, old_kernel, explained, look) => {
            let judge = ComparisonOptions {
                kind,
                list,
                expected,
                required,
                known,
                old_kernel,
                explained,
                look,
            };
            Plan::Task(Task::Answer(Query::Comparison(judge)), Form::Text)
        }
    }
}

/// Why the arguments were refused.
#[derive(Clone, Copy, Debug, PartialEq, Eq, Error)]
pub enum ArgumentsFault {
    /// 1: the arguments are not those of a command.
    #[error("the arguments are not those of a command")]
    Usage,
    /// Out of memory.
    #[error("out of memory")]
    Memory,
}

impl From<AllocError> for ArgumentsFault {
    ghost from_gives = { λ _ fault. fault ≡ Memory };

    fn from(_refused: AllocError) -> Self {
        ArgumentsFault::Memory
    }
}

impl<T: Drop> From<AllocFailed<T>> for ArgumentsFault {
    ghost from_gives = { λ _ fault. fault ≡ Memory };

    fn from(_refused: AllocFailed<T>) -> Self {
        ArgumentsFault::Memory
    }
}
