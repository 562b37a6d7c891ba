//! Lines of faults that no command of the program shows.

use byte_streams::{Failed, VecSink};
use ima_agent::{RunFault, status_of, write_fault};
use measure_book::{BookFault, GatherFault};
use std::alloc::Global;
use std::test::Fail;
use test_kit::once_more;

/// The line of a fault.
fn line_of(alloc: Global, fault: &RunFault) -> Result<Vec<u8>, Failed> {
    once_more(Failed, || {
        let mut sink = VecSink::new(Vec::new(alloc));
        write_fault(fault, &mut sink)?;
        Ok(sink.into_bytes())
    })
}

/// By the table of fault lines of docs/cli.md.
#[test]
fn faults_of_workers(rt: HostRuntime) -> Result<(), Fail> {
    let last = RunFault::Outcome {
        job: 4_294_967_294,
        fault: BookFault::Full,
    };
    for (fault, line, status) in [
        (
            last,
            b"refused: job 4294967294 book fault 7\n".as_slice(),
            2,
        ),
        (
            RunFault::Outcome {
                job: 0,
                fault: BookFault::Memory,
            },
            b"failed: memory\n",
            3,
        ),
        (
            RunFault::Gather(GatherFault::Unnamed { place: 2 }),
            b"failed: gather fault 5\n",
            3,
        ),
        (
            RunFault::Gather(GatherFault::Memory),
            b"failed: memory\n",
            3,
        ),
    ] {
        assert_eq!(rt; line_of(rt.alloc(), &fault)?.as_slice(), line);
        assert_eq!(rt; status_of(&fault), status);
    }
    Ok(())
}
