//! Who is told how far a measurement is.

use crate::commands::FILES;
use crate::devices::{PieceFiles, arguments_of};
use byte_streams::VecSink;
use ima_agent::{Failure, FileProgress, Progress, run_with_progress};
use std::alloc::Global;
use std::sync::Wait;
use std::sync::atomic::{AtomicU32, Ordering};
use std::test::Fail;
use std::thread::Threads;

/// Notes what it is told of five files.
#[derive(Drop)]
struct Notes {
    calls: AtomicU32,
    /// The bit of each number that came.
    numbers: AtomicU32,
    ends: AtomicU32,
}

impl FileProgress for Notes {
    fn done(&self, files: u32, all: u32) {
        self.calls.fetch_add(1, Ordering::SeqCst);
        if all == 5 {
            self.numbers
                .fetch_or(1_u32.wrapping_shl(files), Ordering::SeqCst);
        }
    }

    fn ended(&self) {
        self.ends.fetch_add(1, Ordering::SeqCst);
    }
}

impl Progress for Notes {
    fn waits(&self) {}

    fn cuts(&self, _bytes: usize) {}

    fn explain(&self, _alloc: Global, _failure: Failure<'_>) {}
}

/// How often somebody was told of these words, of which numbers, and how often that it has ended.
fn told(
    rt: &(impl Threads + Wait + Sync + AllocGlobal),
    arguments: &[&str],
) -> Result<(u32, u32, u32), Fail> {
    let arguments = arguments_of(rt.alloc(), arguments)?;
    let notes = Notes {
        calls: AtomicU32::new(0),
        numbers: AtomicU32::new(0),
        ends: AtomicU32::new(0),
    };
    let mut sink = VecSink::new(Vec::new(rt.alloc()));
    let mut files = PieceFiles::whole(&FILES);
    match run_with_progress(rt, rt.alloc(), &arguments, &mut files, &mut sink, &notes) {
        0 => Ok((
            notes.calls.load(Ordering::SeqCst),
            notes.numbers.load(Ordering::SeqCst),
            notes.ends.load(Ordering::SeqCst),
        )),
        _ => Err("not done".into()),
    }
}

/// Each number of files that are done comes once, whoever hashes them: 1, 2, 3, 4 and 5 of 5. Of a list that is shown nothing is
/// told.
#[test]
fn progress_is_told_of_each_file(rt: HostRuntime) -> Result<(), Fail> {
    for workers in ["1", "2", "8"] {
        let named = [
            "measure",
            "--workers",
            workers,
            "log",
            "log",
            "list",
            "entry",
            "printed",
            "log",
        ];
        assert_eq!(rt; told(&rt, &named)?, (5, 0b111110, 1), "{workers} workers");
        let listed = [
            "measure",
            "--workers",
            workers,
            "log",
            "log",
            "list",
            "--files-from",
            "names",
        ];
        assert_eq!(rt; told(&rt, &listed)?, (5, 0b111110, 1), "{workers} workers");
    }
    assert_eq!(rt; told(&rt, &["show", "list"])?, (0, 0, 0));
    Ok(())
}
