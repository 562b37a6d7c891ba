//! The program on files that fail at each read, and to sinks that fail at each write; and its exit codes.

use crate::commands::{COMMANDS, Command, FAULTS, FILES};
use crate::devices::{PieceFiles, answered, arguments_of};
use error_texts::sentence_of;
use hints::hint_on_failure;
use ima_agent::{Failure, FileProgress, NoProgress, Progress, exit_code, run, run_with_progress};
use std::alloc::Global;
use std::io::{Error, ErrorKind};
use std::process::{Abort, ExitCode};
use std::rt::Files as FileSystem;
use std::sync::Wait;
use std::sync::atomic::{AtomicBool, Ordering};
use std::test::Fail;
use std::thread::Threads;
use test_kit::sinks::PieceSink;

/// Whether the command reads the file of this name; without words it reads standard input.
fn reads_file(command: &Command, name: &str) -> bool {
    match command.arguments {
        [] => name == "-",
        [_command, inputs @ ..] => inputs.contains(&name),
    }
}

/// The files, of which this one gives one byte at a time and fails after so many reads.
fn failing(name: &str, reads: usize) -> PieceFiles<'_> {
    PieceFiles {
        files: &FILES,
        most: 1,
        failing: name,
        reads,
        opened: 0,
    }
}

/// The name that the line of a file that failed has.
fn failed_name(line: &[u8]) -> Option<&[u8]> {
    line.strip_prefix(b"failed: read ")?.strip_suffix(b"\n")
}

/// Each read of the file fails in turn, also the one after the last byte; and then none.
fn assert_each_read_fails(
    rt: &(impl Threads + Wait + Sync + AllocGlobal + Abort),
    command: &Command,
    name: &str,
    size: usize,
) -> Result<(), Fail> {
    let arguments = arguments_of(rt.alloc(), command.arguments)?;
    for reads in 0..=size {
        let (status, output) = answered(rt, &arguments, &mut failing(name, reads));
        assert_eq!(rt; status, 3, "{name}, {reads} reads");
        assert_eq!(rt;
            failed_name(&output),
            Some(name.as_bytes()),
            "{reads} reads"
        );
    }
    let (status, output) = answered(rt, &arguments, &mut failing(name, usize::MAX));
    assert_eq!(rt; status, command.status, "{name}");
    assert_eq!(rt; output.as_slice(), command.output, "{name}");
    Ok(())
}

/// Every command, on each of the files that it reads.
#[test]
fn each_read_of_a_file_fails(rt: HostRuntime) -> Result<(), Fail> {
    for command in &COMMANDS {
        for (name, bytes) in &FILES {
            if reads_file(command, name) {
                assert_each_read_fails(&rt, command, name, bytes.len())?;
            }
        }
    }
    Ok(())
}

/// Each write of the output fails in turn, where a write takes so many bytes at most: then nothing more is written, and the status
/// is 3.
fn assert_each_write_fails(
    rt: &(impl Threads + Wait + Sync + AllocGlobal + Abort),
    command: &Command,
    arguments: &[String],
    most: usize,
) {
    let mut is_whole = false;
    for writes in 0..=command.output.len() {
        let mut files = PieceFiles::whole(&FILES);
        let mut sink = PieceSink::failing(command.output, most, writes);
        let status = run(rt, rt.alloc(), arguments, &mut files, &mut sink);
        is_whole = sink.is_full();
        if is_whole {
            assert_eq!(rt; status, command.status);
            break;
        }
        assert!(rt; status == 3 && sink.is_cut(), "{writes} writes of {most}");
    }
    assert!(rt; is_whole);
}

/// Every command, and faults, by sinks that take one byte a write, three, or all that are offered.
#[test]
fn each_write_of_an_output_fails(rt: HostRuntime) -> Result<(), Fail> {
    for command in COMMANDS.iter().chain(&FAULTS) {
        let arguments = arguments_of(rt.alloc(), command.arguments)?;
        for most in [1, 3, usize::MAX] {
            assert_each_write_fails(&rt, command, &arguments, most);
        }
    }
    Ok(())
}

/// The exit code is the status of the run. Each input is opened once, but a list that is shown as text twice.
#[test]
fn exit_codes(rt: HostRuntime) -> Result<(), Fail> {
    let opened = [
        1, 1, 1, 2, 3, 2, 1, 2, 1, 1, 3, 3, 3, 5, 3, 3, 1, 2, 1, 1, 1, 1, 1, 3, 1, 1, 1,
    ];
    for (command, opened) in COMMANDS.iter().chain(&FAULTS).zip(opened) {
        let arguments = arguments_of(rt.alloc(), command.arguments)?;
        let mut files = PieceFiles::whole(&FILES);
        let mut sink = PieceSink::failing(command.output, usize::MAX, usize::MAX);
        let code = exit_code(
            &rt,
            rt.alloc(),
            Ok(arguments),
            &mut files,
            &mut sink,
            &NoProgress,
        );
        assert!(rt; code == ExitCode::from(command.status) && sink.is_full());
        assert_eq!(rt; files.opened, opened);
    }
    Ok(())
}

/// Looks for what to do next, in the system's files.
#[derive(Drop)]
struct SecondLook<'a, R> {
    runtime: &'a R,
    /// Whether it found something.
    has_hint: AtomicBool,
}

impl<R: FileSystem + Sync> FileProgress for SecondLook<'_, R> {
    fn done(&self, _files: u32, _all: u32) {}

    fn ended(&self) {}
}

impl<R: FileSystem + Sync> Progress for SecondLook<'_, R> {
    fn waits(&self) {}

    fn cuts(&self, _bytes: usize) {}

    fn explain(&self, alloc: Global, failure: Failure<'_>) {
        if let Ok(text) = hint_on_failure(self.runtime, alloc, failure) {
            if text.trim_end() != advice_of(failure) {
                self.has_hint.store(true, Ordering::SeqCst);
            }
        }
    }
}

/// What the table of errors advises about a fault, or nothing.
fn advice_of(failure: Failure<'_>) -> &'static str {
    let Failure::Fault { fault, .. } = failure else {
        return "";
    };
    let head = fault.head();
    match sentence_of(head.kind, head.number.unwrap_or(0)) {
        Some(sentence) => sentence.action,
        None => "",
    }
}

/// Files that cannot be read a second time give no hint beside what the table of errors advises, and the output is the same.
#[test]
fn second_look_fails(rt: HostRuntime) -> Result<(), Fail> {
    let look = SecondLook {
        runtime: &rt,
        has_hint: AtomicBool::new(false),
    };
    for command in COMMANDS.iter().chain(&FAULTS) {
        let arguments = arguments_of(rt.alloc(), command.arguments)?;
        let mut files = PieceFiles::whole(&FILES);
        let mut sink = PieceSink::failing(command.output, usize::MAX, usize::MAX);
        let status = run_with_progress(&rt, rt.alloc(), &arguments, &mut files, &mut sink, &look);
        assert!(rt; status == command.status && sink.is_full());
    }
    assert!(rt; !look.has_hint.load(Ordering::SeqCst));
    Ok(())
}

/// Without words it is that of a program that is out of memory.
#[test]
fn exit_code_without_arguments(rt: HostRuntime) {
    let arguments = Err(Error::from(ErrorKind::InvalidInput));
    let mut files = PieceFiles::whole(&[]);
    let mut sink = PieceSink::failing(b"failed: memory\n", usize::MAX, usize::MAX);
    let code = exit_code(
        &rt,
        rt.alloc(),
        arguments,
        &mut files,
        &mut sink,
        &NoProgress,
    );
    assert!(rt; code == ExitCode::from(3) && sink.is_full());
}
