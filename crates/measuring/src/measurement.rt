//! Measures files into the registers of a log.

ghost use Rattle.std.specs.Prelude.{◌≡◌, ◌<◌, ◌^◌, vec_len, IfOk, IfErr};
ghost use Rattle.measuring.specs.Measuring.{IsMeasured, IsMeasuringFault, IsNamesFault};
ghost use Rattle.measuring.specs.parts.{IsTextFor};

use crate::file_book::{Measured, measure_over};
use crate::name_list::names_for;
use crate::progress::FileProgress;
use agent_inputs::{AgentFiles, RunFault, load_input, load_log};
use agent_plans::Measurement;
use boot_log::LogView;
use std::alloc::Global;
use std::sync::Wait;
use std::thread::Threads;

// All bytes of an input, or why it was not loaded.
type Loaded = Result<Vec<u8>, RunFault>;

/// Measures the named files into the registers of the log, into a new book.
///
/// The log is loaded and read first, then the text of further names, if there is one. Then each worker hashes one file after
/// another, as it reads it, and records it; `progress` receives how many files are done, and when the workers have ended.
///
/// Fails, in this order:
/// - with `TooLong` or `Read` if the log cannot be loaded, and with `Log` if it is no log;
/// - with `TooLong` or `Read` if the text of further names cannot be loaded, with `NotUtf8` if it is not UTF-8, and with `Usage` if
///   there are 2^32 names or more;
/// - with `Usage` if the workers are not 1 to 8;
/// - with `TooLong` or `Read` of the first file, in the order of the names, that cannot be read;
/// - with `Book` if the book cannot be opened: each file is read first; and with `Outcome` of the first file that the book refuses.
///
/// It may also fail with `Gather`, if the workers' outcomes do not account for the book's records, and at any point with `Memory`.
pub fn measure<R: Threads + Wait + Sync, F: AgentFiles, P: FileProgress>(
    rt: &R,
    alloc: Global,
    files: &mut F,
    request: &Measurement,
    progress: &P,
) -> Result<Measured, RunFault>
    requires { vec_len request.now.files < 2 ^ 32 }
    ensures measured { IfOk result (IsMeasured (F.inputs files.old) request.now) }
    ensures fault { IfErr result (IsMeasuringFault (F.inputs files.old) request.now) }
    ensures replaced { F.replaced files.new ≡ F.replaced files.old }
{
    let bytes = load_log(alloc, files, Some(&request.log.name), request.log.hcrtm)?;
    let log = LogView::new(&bytes)?;
    let text = text_of(alloc, files, request)?;
    let names = names_for(alloc, request, &text)?;
    measure_over(rt, alloc, files.shared(), &log, request, &names, progress)
}

// All bytes of the text of further names; none if there is no such text.
fn text_of<F: AgentFiles>(alloc: Global, files: &mut F, request: &Measurement) -> Loaded
    ensures text { IfOk result (λ text. IsTextFor (F.inputs files.old) request.now text.items) }
    ensures fault { IfErr result (IsNamesFault (F.inputs files.old) request.now) }
    ensures inputs { F.inputs files.new ≡ F.inputs files.old }
    ensures replaced { F.replaced files.new ≡ F.replaced files.old }
{
    match &request.names {
        None => Ok(Vec::new(alloc)),
        Some(more) => load_input(alloc, files, Some(&more.text)),
    }
}
