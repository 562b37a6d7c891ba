//! Jobs whose operations cannot be made: the first of them is reported, even if it fails later than another, and the workers stop.

use super::numbered::{Failing, Trial, answer_of};
use hash_workers::{AgentFault, JobFault, JobsFault};
use measure_book::BookFault;
use std::alloc::Global;
use std::process::Abort;
use std::sync::Wait;
use std::thread::Threads;

const NO_MEMORY: JobsFault = JobsFault::Agent(AgentFault::Memory);

/// The first eight jobs fail, the first for another reason than the others.
const EIGHT: [Failing; 8] = [
    Failing {
        job: 0,
        fault: JobFault::Source,
    },
    Failing {
        job: 1,
        fault: JobFault::TooLong,
    },
    Failing {
        job: 2,
        fault: JobFault::TooLong,
    },
    Failing {
        job: 3,
        fault: JobFault::TooLong,
    },
    Failing {
        job: 4,
        fault: JobFault::TooLong,
    },
    Failing {
        job: 5,
        fault: JobFault::TooLong,
    },
    Failing {
        job: 6,
        fault: JobFault::TooLong,
    },
    Failing {
        job: 7,
        fault: JobFault::TooLong,
    },
];

/// What is told of a trial, and how often an operation was asked for. Where jobs were held, they were released in time.
fn told_and_calls<R: Threads + Wait + Sync + Abort>(
    rt: &R,
    alloc: Global,
    trial: &Trial,
) -> (Option<JobsFault>, u32) {
    let answer = answer_of(rt, alloc, trial);
    assert!(rt; !answer.ran_out, "the turns ran out");
    (answer.batch.err(), answer.calls)
}

/// Each worker has a job, and all of them fail. All but the last one of these jobs are held until that one has failed, and
/// so no worker takes another job. The answer tells job 0.
#[test]
fn earlier_fault_that_comes_later_is_told(rt: HostRuntime) {
    let told = JobsFault::Job {
        job: 0,
        fault: JobFault::Source,
    };
    for workers in [2, 4, 8] {
        let mut trial = Trial::of(1_000, &EIGHT, workers as usize);
        trial.held = workers - 1;
        assert_eq!(rt;
            told_and_calls(&rt, rt.alloc(), &trial),
            (Some(told), workers)
        );
    }
}

/// Job 0 is held until the other one has failed, and memory runs out for one of the two.
const MEMORY_OF_TWO: [(&[Failing], JobsFault); 2] = [
    (
        &[
            Failing {
                job: 0,
                fault: JobFault::Source,
            },
            Failing {
                job: 1,
                fault: JobFault::Memory,
            },
        ],
        JobsFault::Job {
            job: 0,
            fault: JobFault::Source,
        },
    ),
    (
        &[
            Failing {
                job: 0,
                fault: JobFault::Memory,
            },
            Failing {
                job: 1,
                fault: JobFault::Source,
            },
        ],
        NO_MEMORY,
    ),
];

#[test]
fn earlier_want_of_memory_is_told(rt: HostRuntime) {
    for (failing, fault) in MEMORY_OF_TWO {
        let mut trial = Trial::of(1_000, failing, 2);
        trial.held = 1;
        let (told, _) = told_and_calls(&rt, rt.alloc(), &trial);
        assert!(rt; told == Some(fault));
    }
}

const THIRD: [Failing; 1] = [Failing {
    job: 3,
    fault: JobFault::Source,
}];

/// One worker takes no job after the one that fails. Of four, three are held at the first three jobs until the fourth has
/// failed; they may take more before the fourth worker draws the rest, but never all of them.
#[test]
fn workers_stop_after_a_fault(rt: HostRuntime) {
    let told = JobsFault::Job {
        job: 3,
        fault: JobFault::Source,
    };
    for (workers, held, most) in [(1, 0, 4), (4, 3, 99_999)] {
        let mut trial = Trial::of(100_000, &THIRD, workers);
        trial.held = held;
        let (found, calls) = told_and_calls(&rt, rt.alloc(), &trial);
        assert!(rt;
            found == Some(told) && calls >= 4 && calls <= most,
            "{calls} calls"
        );
    }
}

/// The limit of the book, the number of workers, and what is told.
const NONE_BEGINS: [(u32, usize, AgentFault); 6] = [
    (100, 0, AgentFault::Workers),
    (100, 9, AgentFault::Workers),
    (0, 0, AgentFault::Workers),
    (0, 9, AgentFault::Workers),
    (0, 1, AgentFault::Book(BookFault::Full)),
    (0, 8, AgentFault::Book(BookFault::Full)),
];

/// No operation is asked for where the number of workers is wrong, which is told first, or no book is opened.
#[test]
fn no_operation_where_no_worker_begins(rt: HostRuntime) {
    for (limit, workers, fault) in NONE_BEGINS {
        let mut trial = Trial::of(5, &THIRD, workers);
        trial.limit = limit;
        let told = Some(JobsFault::Agent(fault));
        assert!(rt; told_and_calls(&rt, rt.alloc(), &trial) == (told, 0));
    }
}
