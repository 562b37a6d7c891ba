//! What a person is told of a run that failed.

ghost use Rattle.std.specs.Prelude.{◌≡◌, true, string_bytes, IfOk};
ghost use Rattle.std.specs.List.{list_all};
ghost use Rattle.hints.specs.Escaping.{is_shown};
ghost use Rattle.hints.specs.FaultLines.{Explains, IsFaultLine};

use crate::escapes::{escape_each, shown_line, shown_lines};
use crate::fault_lines::{fault_line, row_of};
use crate::selections::{REQUIRE, of_registers, of_requirement};
use crate::task_inputs::{STANDARD_INPUT, input_of, is_standard_input, quoting_of, signing_of};
use agent_inputs::RunFault;
use agent_plans::{ComparisonOptions, Query, Quoting, Task};
use attestations::{Policy, PolicyFault};
use boot_verdict::{AggregateRule, Requirement};
use command_line::refusal_of;
use run_progress::Failure;
use std::alloc::{AllocError, Global};
use std::fs::File;
use std::io::Read;
use std::rt::Files as FileSystem;
use std::{fs, io};

/// What is wrong with arguments that are within all other limits.
const TOO_MANY_FILES: &str = "error: 2^32 files or more";

/// What is wrong with an argument that the program cannot take.
const NOT_UTF8: &str = "an argument is not UTF-8: rename the file, or give a link to it";

/// What is wrong with `-` where it is no standard input.
const NO_STANDARD_INPUT: &str =
    "cannot read -: here it is the name of a file: give /dev/stdin for standard input";

/// What is wrong if the output's device fails.
const NOT_WRITTEN: &str =
    "the output could not be written: the disk is full, or the program that reads it has exited";

/// Why the run failed, in lines for a person: the input that is at fault, and what is wrong with it, in the words of the table of errors; for wrong
/// arguments what `clap` says of them. Of an input that could not be read it asks once more, to learn the system's reason. An answer explains itself.
///
/// Fails if memory runs out, and if the run failed because it did.
pub fn explanation<R: FileSystem + io::Input>(
    rt: &R,
    alloc: Global,
    failure: Failure<'_>,
) -> Result<String, AllocError>
    ensures text { IfOk result (λ text. Explains failure.entry (string_bytes text)) }
    ensures shown { IfOk result (λ text. list_all is_shown (string_bytes text) ≡ true) }
{
    match failure {
        Failure::Fault { fault, task } => of_fault(rt, alloc, fault, task),
        Failure::Refused { fault, arguments } => of_refusal(alloc, fault, arguments),
        Failure::Arguments { reason } => match reason.kind() {
            io::ErrorKind::InvalidData => shown_line(alloc, NOT_UTF8),
            _ => Err(AllocError),
        },
        Failure::Differs { .. } | Failure::Unsigned { .. } | Failure::Matches { .. } => {
            Ok(String::new(alloc))
        }
        Failure::NothingCompared | Failure::NothingToCompare { .. } => Ok(String::new(alloc)),
        Failure::Output => shown_line(alloc, NOT_WRITTEN),
    }
}

// Why this task has this fault.
fn of_fault<R: FileSystem + io::Input>(
    rt: &R,
    alloc: Global,
    fault: &RunFault,
    task: &Task,
) -> Result<String, AllocError>
    ensures text { IfOk result (λ text. IsFaultLine fault.now (string_bytes text)) }
    ensures shown { IfOk result (λ text. list_all is_shown (string_bytes text) ≡ true) }
{
    match fault {
        RunFault::Memory => Err(AllocError),
        RunFault::Usage => of_value_in(alloc, task),
        RunFault::Read(_) if is_standard_input(task, fault) => {
            of_reason(alloc, STANDARD_INPUT, read_reason(&mut rt.reader()))
        }
        RunFault::Read(name) if is_refused(rt, name, task) => {
            shown_line(
                alloc,
                &format!(in alloc; "cannot read {name}: it is not a regular file: copy it to one")?,
            )
        }
        RunFault::Read(name) if name.as_str() == "-" => shown_line(alloc, NO_STANDARD_INPUT),
        RunFault::Read(name) => of_reason(alloc, name, open_reason(rt, name)),
        RunFault::TooLong(_) if is_standard_input(task, fault) => {
            // The fault has no name to tell standard input by.
            let fault = RunFault::TooLong(String::from_str(alloc, STANDARD_INPUT)?);
            shown_line(alloc, &format!(in alloc; "{fault}")?)
        }
        _ => of_row(alloc, input_of(task, fault), fault),
    }
}

// The line of a fault of this input, if it is of one.
fn of_row(alloc: Global, input: Option<&str>, fault: &RunFault) -> Result<String, AllocError>
    ensures text { IfOk result (λ text. IsFaultLine fault.now (string_bytes text)) }
    ensures shown { IfOk result (λ text. list_all is_shown (string_bytes text) ≡ true) }
{
    let head = fault.head();
    match row_of(head) {
        Some(sentence) => fault_line(alloc, input, head, sentence),
        None => of_name(alloc, input, fault),
    }
}

// The line of a fault that the table does not have: it names its file, or is of standard input.
fn of_name(alloc: Global, input: Option<&str>, fault: &RunFault) -> Result<String, AllocError>
    ensures { IfOk result (λ text. list_all is_shown (string_bytes text) ≡ true) }
{
    match input {
        Some(input) => shown_line(alloc, &format!(in alloc; "{input}: {fault}")?),
        None => shown_line(alloc, &format!(in alloc; "{fault}")?),
    }
}

// Whether what has this name is no regular file, where a signature is verified: then no other is read, nor opened once more, since that may wait
// for ever.
fn is_refused<R: FileSystem>(rt: &R, name: &str, task: &Task) -> bool {
    if quoting_of(task).and_then(signing_of).is_none() {
        return false;
    }
    match fs::metadata(rt, name) {
        Ok(present) => !present.is_file(),
        Err(_) => false,
    }
}

// Why these arguments are refused. They are escaped before `clap` has them, so each line feed that comes of it is its own.
fn of_refusal(alloc: Global, fault: &RunFault, arguments: &[String]) -> Result<String, AllocError>
    ensures { IfOk result (λ text. list_all is_shown (string_bytes text) ≡ true) }
{
    if matches!(fault, RunFault::Memory) {
        return Err(AllocError);
    }
    let arguments = escape_each(alloc, arguments)?;
    match refusal_of(alloc, &arguments)? {
        Some(text) => shown_lines(alloc, &text),
        None => shown_line(alloc, TOO_MANY_FILES),
    }
}

// Which value of the arguments is refused that `clap` takes.
fn of_value_in(alloc: Global, task: &Task) -> Result<String, AllocError>
    ensures { IfOk result (λ text. list_all is_shown (string_bytes text) ≡ true) }
{
    if let Some(quoting) = quoting_of(task) {
        return shown_line(alloc, &of_policy(alloc, quoting)?);
    }
    let text = match task {
        Task::Answer(
            Query::Comparison(
                ComparisonOptions {
                    required: Some(text),
                    ..
                },
            ),
        ) => of_requirement(alloc, text)?,
        Task::Answer(
            Query::Expected {
                registers: Some(text),
                ..
            },
        ) => of_registers(alloc, text)?,
        _ => String::from_str(alloc, TOO_MANY_FILES)?,
    };
    shown_line(alloc, &text)
}

// Why a quote is not asked for so.
fn of_policy(alloc: Global, quoting: &Quoting) -> Result<String, AllocError> {
    let text = &quoting.required;
    let Ok(required) = Requirement::from_text(alloc, text.as_bytes()) else {
        return of_requirement(alloc, text);
    };
    let policy = Policy {
        nonce: &quoting.nonce,
        required: &required,
        takes_sha1: quoting.takes_sha1,
        rule: AggregateRule::PLAIN,
    };
    match policy.fault() {
        None => Err(AllocError),
        Some(PolicyFault::ShortNonce) => {
            let nonce = hex::encode(alloc, &quoting.nonce)?;
            format!(in alloc;
                "error: invalid value '{nonce}' for '--nonce <HEX>': a nonce has at least 16 bytes, which is 32 hexadecimal digits: give all of the nonce that was sent"
            )
        }
        Some(PolicyFault::NotRequired { register }) => format!(in alloc;
            "error: invalid value '{text}' for '{REQUIRE}': PCR {register} is not selected in any bank: a quote needs PCRs 0 to 10, as in sha256:0-10"
        ),
        Some(PolicyFault::OnlySha1 { register }) => format!(in alloc;
            "error: invalid value '{text}' for '{REQUIRE}': PCR {register} is selected only in the SHA-1 bank, which can be forged: require another bank, or add --sha1"
        ),
    }
}

// That the input could not be read, and the system's reason, if it is known.
fn of_reason(alloc: Global, input: &str, reason: Option<io::Error>) -> Result<String, AllocError>
    ensures { IfOk result (λ text. list_all is_shown (string_bytes text) ≡ true) }
{
    let Some(reason) = reason else {
        return shown_line(alloc, &format!(in alloc; "cannot read {input}")?);
    };
    let reason = format!(in alloc; "{reason}")?;
    let reason = without_number(&reason);
    shown_line(alloc, &format!(in alloc; "cannot read {input}: {reason}")?)
}

// The system's words for an error, without its number.
fn without_number(reason: &str) -> &str {
    match reason.split_once(" (os error ") {
        Some((words, _)) => words,
        None => reason,
    }
}

// Why the file of this name cannot be opened or read, if that fails now.
fn open_reason<R: FileSystem>(rt: &R, name: &str) -> Option<io::Error> {
    match File::open(rt, name) {
        Ok(mut file) => read_reason(&mut file),
        Err(reason) => Some(reason),
    }
}

// Why nothing can be read, if that fails now.
fn read_reason<R: Read>(reader: &mut R) -> Option<io::Error> {
    let mut byte = [0];
    reader.read(&mut byte).err()
}
