//! Commands in which an allocation is refused: each answers that memory ran out, events that are explained and entries after lines of theirs, or
//! what it answers with ample memory; and then the same command answers the latter. `tests/faults/sweep.py` refuses the allocations, one in each run.

use crate::commands::{COMMANDS, Command, FAULTS, FILES};
use crate::devices::{PieceFiles, arguments_of};
use byte_streams::VecSink;
use ima_agent::run;
use std::alloc::AllocError;
use std::process::Abort;
use std::sync::Wait;
use std::test::Fail;
use std::thread::Threads;
use test_kit::once_more;

/// What the program answers and writes into a sink that has room for it.
fn ran_with_room(
    rt: &(impl Threads + Wait + Sync + AllocGlobal),
    arguments: &[String],
) -> Result<(u8, Vec<u8>), AllocError> {
    let room = once_more(AllocError, || Vec::with_capacity(rt.alloc(), 4096))?;
    let mut sink = VecSink::new(room);
    let status = run(
        rt,
        rt.alloc(),
        arguments,
        &mut PieceFiles::whole(&FILES),
        &mut sink,
    );
    Ok((status, sink.into_bytes()))
}

/// Whether the command explains events or shows entries, the lines of which are written as they are read, and its output begins so.
fn is_begun(command: &Command, before: &[u8]) -> bool {
    let explains = command.arguments.contains(&"--explain");
    let word = command.arguments.first();
    (word == Some(&"show") || word == Some(&"events") && explains)
        && command.output.strip_prefix(before).is_some()
}

/// The program answers so; or it says that memory ran out, and does so when it is asked again.
fn assert_answered(
    rt: &(impl Threads + Wait + Sync + AllocGlobal + Abort),
    command: &Command,
) -> Result<(), Fail> {
    let arguments = arguments_of(rt.alloc(), command.arguments)?;
    let mut answer = ran_with_room(rt, &arguments)?;
    if let Some(before) = answer.1.strip_suffix(b"failed: memory\n".as_slice()) {
        assert_eq!(rt; answer.0, 3);
        assert!(rt; before.is_empty() || is_begun(command, before));
        answer = ran_with_room(rt, &arguments)?;
    }
    assert_eq!(rt; answer.0, command.status);
    assert_eq!(rt; answer.1.as_slice(), command.output);
    Ok(())
}

/// Every command, and faults.
#[test]
fn each_allocation_refused_in_a_command(rt: HostRuntime) -> Result<(), Fail> {
    for command in COMMANDS.iter().chain(&FAULTS) {
        assert_answered(&rt, command)?;
    }
    Ok(())
}
