//! Who is told of the progress of a measurement, and of failures.

ghost use Rattle.std.specs.Prelude.{◌≡◌};
ghost use Rattle.run_progress.specs.Failures.{asks_why, is_explained, is_said, is_said_elsewhere, listener_of};

use agent_inputs::RunFault;
use agent_plans::{Query, Task};
use measuring::FileProgress;
use std::alloc::Global;
use std::io;

/// What came of a run that failed, or of an answer: something differs, nobody looked at a signature, all is well, or nothing was compared.
#[derive(Clone, Copy)]
pub enum Failure<'a> {
    /// The line of a fault of a task.
    Fault {
        /// The fault.
        fault: &'a RunFault,
        /// What was to be done.
        task: &'a Task,
    },
    /// The line of a fault: the arguments are refused.
    Refused {
        /// The fault.
        fault: &'a RunFault,
        /// The program's arguments, without its name.
        arguments: &'a [String],
    },
    /// The line of a program that is out of memory: its arguments could not be obtained, for this reason.
    Arguments {
        /// The reason.
        reason: &'a io::Error,
    },
    /// The answer to a task: something differs.
    Differs {
        /// What was to be done.
        task: &'a Task,
    },
    /// The answer to a task by a quote: nobody looked at its signature.
    Unsigned {
        /// What was to be done.
        task: &'a Task,
    },
    /// The answer to a task: all is well.
    Matches {
        /// What was to be done.
        task: &'a Task,
    },
    /// The answer to a question: it is a match, and no register was compared.
    NothingCompared,
    /// The answer to a question: it is not a match, and no register was compared or looked for. `Differs` follows.
    NothingToCompare {
        /// What was asked.
        question: &'a Query,
    },
    /// A part of the output, or nothing.
    Output,
}

/// Who reads standard error.
#[derive(Clone, Copy, PartialEq, Eq)]
pub enum Listener {
    /// A person at a terminal.
    Terminal,
    /// Whoever reads a file, a pipe or a journal.
    Elsewhere,
    /// Nobody: the arguments ask for silence.
    Nobody,
}

impl Listener {
    /// Who reads it, where it is a terminal or not, and the arguments ask for silence or not.
    pub fn of(is_terminal: bool, is_quiet: bool) -> Self
        ensures { result ≡ listener_of is_terminal is_quiet }
    {
        match (is_quiet, is_terminal) {
            (true, _) => Listener::Nobody,
            (false, true) => Listener::Terminal,
            (false, false) => Listener::Elsewhere,
        }
    }
}

impl Failure<'_> {
    /// Whether it is said to this listener. Why a run failed is said to all but nobody, and so is that nothing was compared; what to do about a
    /// difference at a terminal, or if the arguments ask for it; what a match is worth only at a terminal.
    pub fn is_said(self, listener: Listener) -> bool
        ensures { result ≡ is_said listener self.entry }
    {
        match listener {
            Listener::Terminal => !matches!(self, Failure::NothingToCompare { .. }),
            Listener::Elsewhere => self.is_said_elsewhere(),
            Listener::Nobody => false,
        }
    }

    // Whether it is said where there is no terminal.
    fn is_said_elsewhere(self) -> bool
        ensures { result ≡ is_said_elsewhere self.entry }
    {
        match self {
            Failure::Differs { task } => is_explained(task),
            Failure::NothingToCompare { question } => !asks_why(question),
            Failure::Matches { .. } => false,
            Failure::Fault { .. }
            | Failure::Refused { .. }
            | Failure::Arguments { .. }
            | Failure::Unsigned { .. }
            | Failure::NothingCompared
            | Failure::Output => true,
        }
    }
}

// Whether a task asks to say what to do next.
fn is_explained(task: &Task) -> bool
    ensures { result ≡ is_explained task.now }
{
    match task {
        Task::Answer(question) => asks_why(question),
        _ => false,
    }
}

// Whether a question asks to say that.
fn asks_why(question: &Query) -> bool
    ensures { result ≡ asks_why question.now }
{
    match question {
        Query::Comparison(judge) => judge.explained,
        Query::Attestation(attest) => attest.explained,
        _ => false,
    }
}

/// Receives the progress of a run, and why it failed, or something differs, was not looked at or was not compared.
pub trait Progress: FileProgress {
    /// Standard input is about to be read.
    fn waits(&self);

    /// So many bytes of padding behind the last event of a log were left out. None are nothing to tell.
    fn cuts(&self, bytes: usize);

    /// The run failed, or something differs, was not looked at or was not compared, or all is well. The fault's line, if there is one, or the answer
    /// was sent before.
    fn explain(&self, alloc: Global, failure: Failure<'_>);
}

/// Ignores it.
#[derive(Clone, Copy)]
pub struct NoProgress;

impl FileProgress for NoProgress {
    fn done(&self, _files: u32, _all: u32) {}

    fn ended(&self) {}
}

impl Progress for NoProgress {
    fn waits(&self) {}

    fn cuts(&self, _bytes: usize) {}

    fn explain(&self, _alloc: Global, _failure: Failure<'_>) {}
}
