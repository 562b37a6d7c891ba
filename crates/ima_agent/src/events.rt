//! The events of a log, as the program shows them.

ghost use Rattle.std.specs.Prelude.{◌≡◌, option_map};
ghost use Rattle.cells.specs.declared.writer.Form.{Form};
ghost use Rattle.agent_plans.specs.declared.plan.Task.TheVariants as tasks;
ghost use Rattle.ima_agent.specs.Program.{IsOutcome, Streams};
ghost use Rattle.ima_agent.specs.ShowingEvents.{ShowsEventsIn, ShowsPlainEventsIn, ShowsToldOf, plain_lines};

use crate::confirmed::{log_for, matched_in};
use crate::streams::{DONE, Sent, StreamFault};
use agent_inputs::{AgentFiles, RunFault};
use agent_plans::{ConfirmedBy, DataShown, Form, LogFile};
use boot_log::LogView;
use byte_streams::{Failed, Sink};
use event_lines::{EventsFault, send_events, write_events};
use measured_data::Pcr;
use std::alloc::Global;

/// Sends the header and the events of this log as it is replayed, in this form. Where what data says is told, this tells which of it is confirmed.
pub(crate) fn events_for<F: AgentFiles, S: Sink>(
    alloc: Global,
    files: &mut F,
    log: &LogFile,
    requested: DataShown,
    confirmed_by: &ConfirmedBy,
    form: Form,
    sink: &mut S,
) -> Sent
    ensures { Streams form (IsOutcome (F.inputs files.old) (tasks.Events log.now requested confirmed_by.now) form (F.replaced files.old) (F.replaced files.new))
        (S.state sink.old) (S.state sink.new) result }
{
    let bytes = match log_for(alloc, files, log, confirmed_by) {
        Ok(bytes) => bytes,
        Err(fault) => return Err(StreamFault::Run(fault)),
    };
    match plain_lines(form, requested) {
        Some(with_data) => write_log(alloc, &bytes, with_data, sink),
        None => tell_log(alloc, files, &bytes, form, confirmed_by, sink),
    }
}

// Whether plain lines have the data, where events are shown in plain lines; in others what the data says is told, as JSON in any case.
fn plain_lines(form: Form, requested: DataShown) -> Option<bool>
    ensures { result ≡ plain_lines form requested }
{
    match (form, requested) {
        (Form::Text, DataShown::Size) => Some(false),
        (Form::Text, DataShown::Bytes) => Some(true),
        (Form::Text, DataShown::Meaning) | (Form::Json, _) => None,
    }
}

// Writes the plain lines of the header and the events of the log in these bytes, which is looked through for its fault before.
fn write_log<S: Sink>(alloc: Global, bytes: &[u8], with_data: bool, sink: &mut S) -> Sent
    ensures { (form : Form) → Streams form (ShowsPlainEventsIn form with_data bytes.now) (S.state sink.old) (S.state sink.new) result }
{
    let log = match LogView::new(bytes) {
        Ok(log) => log,
        Err(fault) => return Err(StreamFault::Run(fault.into())),
    };
    match write_events(alloc, &log, with_data, sink) {
        Ok(()) => Ok(DONE),
        Err(fault) => Err(StreamFault::Sink(fault)),
    }
}

// Sends the lines that tell what the data of the log in these bytes says. If something tells which of it is confirmed, and for people, the log is
// looked through for its fault before; else the lines before a fault are sent.
fn tell_log<F: AgentFiles, S: Sink>(
    alloc: Global,
    files: &mut F,
    log: &[u8],
    form: Form,
    confirmed_by: &ConfirmedBy,
    sink: &mut S,
) -> Sent
    ensures streams { Streams form (ShowsToldOf (F.inputs files.old) form confirmed_by.now log.now) (S.state sink.old) (S.state sink.new) result }
    ensures replaced { F.replaced files.new ≡ F.replaced files.old }
{
    match matched_in(alloc, files, log, form, confirmed_by) {
        Ok(matched) => send_log(
            alloc,
            log,
            form,
            matched.places.as_deref(),
            matched.status,
            sink,
        ),
        Err(fault) => Err(StreamFault::Run(fault)),
    }
}

// Sends in this form the algorithms that the log in these bytes declares, and its events while they are read, with what the registers that
// match confirm of them, if registers were compared, and returns this status; of a damaged log those before its fault.
fn send_log<S: Sink>(
    alloc: Global,
    log: &[u8],
    form: Form,
    matched: Option<&[Pcr]>,
    status: u8,
    sink: &mut S,
) -> Sent
    ensures { Streams form (ShowsEventsIn form (option_map (λ places. places.now) matched.entry) status log.now)
        (S.state sink.old) (S.state sink.new) result }
{
    match send_events(alloc, log, form, matched, sink) {
        Ok(()) => Ok(status),
        Err(EventsFault::Sink) => Err(StreamFault::Sink(Failed)),
        Err(EventsFault::Log(fault)) => Err(StreamFault::Run(fault.into())),
        Err(EventsFault::Memory) => Err(StreamFault::Run(RunFault::Memory)),
    }
}
