//! What is told beside the output: the progress of a measurement, why a run failed, and what to do next.

use crate::explanations::explanation;
use crate::rejudge::hint_on_failure;
use agent_inputs::FaultKind;
use error_texts::sentence_of;
use measuring::FileProgress;
use run_progress::{Failure, Listener, Progress};
use std::alloc::Global;
use std::io;
use std::rt::{Clock, Files as FileSystem};
use std::sync::atomic::{AtomicU64, Ordering};
use std::time::Instant;

/// What a person is told who has given no arguments.
const WAITING: &str =
    "reading a firmware event log in hexadecimal from standard input; ima-agent --help lists the commands\n";

/// Who is at the standard streams.
#[derive(Clone, Copy)]
pub struct Audience {
    /// Whether standard input is a terminal.
    pub types: bool,
    /// Who reads standard error.
    pub listener: Listener,
}

/// How many milliseconds pass before the first number is shown.
const DELAY: u64 = 1_000;
/// How many milliseconds pass at least from one number to the next.
const INTERVAL: u64 = 100;

/// Shows the progress on standard error, if that is a terminal: `123 of 10000 files`, after more than a second and at most ten
/// times a second, written over what was shown before. The line is erased when the measurement ends. Of a run that failed it shows
/// the [`explanation`] there, and of it or an answer the [`hint`](hint_on_failure), if there is one, as far as they are for its listener
/// ([`Failure::is_said`]). Before standard input is read, if that is a terminal, too, it says so. How much padding was cut it says to all but nobody.
/// If the clock or standard error fails, nothing is shown; this is no fault.
#[derive(Drop)]
pub struct SystemProgress<'a, R> {
    runtime: &'a R,
    audience: Audience,
    /// When the measurement began; `None` if no number is to be shown, or the clock failed.
    began: Option<Instant>,
    /// After how many milliseconds the next number may be shown; greater than `DELAY` once one was shown.
    due: AtomicU64,
}

impl<'a, R: Eprint + Clock> SystemProgress<'a, R> {
    /// Shows the progress of a measurement that begins now to this audience.
    pub fn new(runtime: &'a R, audience: Audience) -> Self {
        let began = match audience.listener {
            Listener::Terminal => Instant::now(runtime).ok(),
            Listener::Elsewhere | Listener::Nobody => None,
        };
        SystemProgress {
            runtime,
            audience,
            began,
            due: AtomicU64::new(DELAY),
        }
    }

    // Whether a number is due and this thread is to show it.
    fn takes_turn(&self) -> bool {
        let Some(began) = self.began else {
            return false;
        };
        let Ok(passed) = began.elapsed(self.runtime) else {
            return false;
        };
        let passed = u64::try_from(passed.as_millis()).unwrap_or(u64::MAX);
        let due = self.due.load(Ordering::SeqCst);
        let next = passed.saturating_add(INTERVAL);
        passed > due
            && self
                .due
                .compare_exchange(due, next, Ordering::SeqCst, Ordering::SeqCst)
                .is_ok()
    }
}

impl<R: Eprint + Clock + Sync> FileProgress for SystemProgress<'_, R> {
    fn done(&self, files: u32, all: u32) {
        if self.takes_turn() {
            // A shorter line may follow a longer one.
            let _ = eprint!(self.runtime; "\r{files} of {all} files\x1b[K");
        }
    }

    fn ended(&self) {
        if self.due.load(Ordering::SeqCst) != DELAY {
            let _ = eprint!(self.runtime; "\r\x1b[K");
        }
    }
}

impl<R: Eprint + Clock + FileSystem + io::Input + Sync> Progress for SystemProgress<'_, R> {
    fn waits(&self) {
        if self.audience.types && self.audience.listener == Listener::Terminal {
            let _ = eprint!(self.runtime; "{WAITING}");
        }
    }

    fn cuts(&self, bytes: usize) {
        if bytes != 0 && self.audience.listener != Listener::Nobody {
            let _ = eprint!(self.runtime; "padding cut: {bytes} bytes after the last event\n");
        }
    }

    fn explain(&self, alloc: Global, failure: Failure<'_>) {
        if !failure.is_said(self.audience.listener) {
            return;
        }
        match explanation(self.runtime, alloc, failure) {
            Ok(text) => {
                let _ = eprint!(self.runtime; "{text}");
            }
            Err(_) => return explain_memory(self.runtime),
        }
        if let Ok(text) = hint_on_failure(self.runtime, alloc, failure) {
            let _ = eprint!(self.runtime; "{text}");
        }
    }
}

// Says that memory ran out, which takes none.
fn explain_memory<R: Eprint>(rt: &R) {
    if let Some(sentence) = sentence_of(FaultKind::Memory, 0) {
        let _ = eprint!(rt; "{}\n{}\n", sentence.wrong, sentence.action);
    }
}
