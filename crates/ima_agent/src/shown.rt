//! The registers of a log and the entries of a list, as the program shows them.

ghost use Rattle.std.specs.Prelude.{◌≡◌, ◌⊎◌, Some, IfOk, IfErr, OnErr};
ghost use Rattle.cells.specs.declared.writer.Form.TheVariants.{Text};
ghost use Rattle.agent_plans.specs.declared.plan.Task.TheVariants as tasks;
ghost use Rattle.agent_inputs.specs.Faults.{fault_of_list};
ghost use Rattle.agent_inputs.specs.Loading.{Inputs, IsInputFault};
ghost use Rattle.judging.specs.Answering.{GivesInput};
ghost use Rattle.judging.specs.Inputs.Where.{FileOf};
ghost use Rattle.ima_agent.specs.Program.{IsFaultOf, IsOutcome, IsOutputFor, IsStoppedBy, Streams};
ghost use Rattle.ima_agent.specs.Showing.{IsRefusedFor, ShowsEntriesOf, ShowsHexadecimal, ShowsSoundList};

use crate::hexadecimal::decode_hexadecimal;
use crate::streams::{DONE, Prepared, Sent, StreamFault};
use agent_inputs::{
    AgentFiles, INPUT_LIMIT, LoadFault, RunFault, load_input, not_read, read_through, too_long,
};
use agent_plans::Form;
use byte_streams::{Failed, Sink, SliceSource, Source};
use entry_lines::{EntriesFault, send_entries};
use ima_list::ListFault;
use judging::{Input, Request};
use rendering::output_on;
use std::alloc::Global;

/// The registers that differ from their reset values after the log in hexadecimal on standard input, in this form.
pub(crate) fn shown_registers<F: AgentFiles>(alloc: Global, files: &mut F, form: Form) -> Prepared
    ensures shown { IfOk result (λ output. IsOutputFor (F.inputs files.old) tasks.Registers form (F.replaced files.old) (F.replaced files.new)
        output.text.items output.status) }
    ensures kept { OnErr result (F.replaced files.new ≡ F.replaced files.old) }
    ensures fault { IfErr result (IsFaultOf (F.inputs files.old) tasks.Registers form) }
{
    let text = load_input(alloc, files, None)?;
    registers_in(alloc, text, form)
}

// The registers after this log in hexadecimal.
fn registers_in(alloc: Global, text: Vec<u8>, form: Form) -> Prepared
    ensures shown { IfOk result (λ output. ShowsHexadecimal form text.items output.text.items output.status) }
    ensures refused { IfErr result (IsRefusedFor text.items) }
{
    let bytes = decode_hexadecimal(alloc, text)?;
    let request = Request::LogRegisters {
        log: Input::Bytes(&bytes),
    };
    let given = output_on(alloc, request, form)?;
    Ok(given.output)
}

/// Sends the entries of the list in the file of this name, in this form. As text a list is read through for a fault before, unless the entries before
/// one are asked for.
pub(crate) fn entries_for<F: AgentFiles, S: Sink>(
    alloc: Global,
    files: &mut F,
    list: &String,
    partial: bool,
    form: Form,
    sink: &mut S,
) -> Sent
    ensures { Streams form (IsOutcome (F.inputs files.old) (tasks.Entries list.now partial) form (F.replaced files.old) (F.replaced files.new))
        (S.state sink.old) (S.state sink.new) result }
{
    match form {
        Form::Text => send_as_text(alloc, files, list, partial, sink),
        Form::Json => send_list(alloc, files, list, Form::Json, sink),
    }
}

// Sends as text the entries of the list in the file of this name.
fn send_as_text<F: AgentFiles, S: Sink>(
    alloc: Global,
    files: &mut F,
    list: &String,
    partial: bool,
    sink: &mut S,
) -> Sent
    ensures { Streams Text (IsOutcome (F.inputs files.old) (tasks.Entries list.now partial) Text (F.replaced files.old) (F.replaced files.new))
        (S.state sink.old) (S.state sink.new) result }
{
    if partial {
        send_list(alloc, files, list, Form::Text, sink)
    } else {
        send_sound_list(alloc, files, list, sink)
    }
}

// Sends in this form the entries of the list in the file of this name while it is read; of a damaged one those before its fault.
fn send_list<F: AgentFiles, S: Sink>(
    alloc: Global,
    files: &mut F,
    list: &str,
    form: Form,
    sink: &mut S,
) -> Sent
    ensures streams { Streams form (ShowsEntriesOf form (F.inputs files.old) list.now) (S.state sink.old) (S.state sink.new) result }
    ensures replaced { F.replaced files.new ≡ F.replaced files.old }
{
    let Ok(mut source) = files.source(Some(list)) else {
        return Err(StreamFault::Run(not_read(alloc, list)));
    };
    send_lines(alloc, form, list, &mut source, sink)
}

// Sends as text the entries of the list in the file of this name, which is read through before: a fault of it comes alone. What is no regular file
// is loaded, since it may give its bytes only once.
fn send_sound_list<F: AgentFiles, S: Sink>(
    alloc: Global,
    files: &mut F,
    list: &str,
    sink: &mut S,
) -> Sent
    ensures streams { Streams Text (ShowsSoundList (F.inputs files.old) list.now) (S.state sink.old) (S.state sink.new) result }
    ensures replaced { F.replaced files.new ≡ F.replaced files.old }
{
    if files.is_regular(list) {
        send_file(alloc, files, list, sink)
    } else {
        send_loaded(alloc, files, list, sink)
    }
}

// Sends as text the entries of the list in the file of this name, which is opened twice.
fn send_file<F: AgentFiles, S: Sink>(alloc: Global, files: &mut F, list: &str, sink: &mut S) -> Sent
    ensures streams { Streams Text (ShowsSoundList (F.inputs files.old) list.now) (S.state sink.old) (S.state sink.new) result }
    ensures replaced { F.replaced files.new ≡ F.replaced files.old }
{
    let Ok(mut first) = files.source(Some(list)) else {
        return Err(StreamFault::Run(not_read(alloc, list)));
    };
    let Ok(mut second) = files.source(Some(list)) else {
        return Err(StreamFault::Run(not_read(alloc, list)));
    };
    send_read_through(alloc, list, &mut first, &mut second, sink)
}

// Sends as text the entries of the list in the file of this name, which is loaded.
fn send_loaded<F: AgentFiles, S: Sink>(
    alloc: Global,
    files: &mut F,
    list: &str,
    sink: &mut S,
) -> Sent
    ensures streams { Streams Text (ShowsSoundList (F.inputs files.old) list.now) (S.state sink.old) (S.state sink.new) result }
    ensures replaced { F.replaced files.new ≡ F.replaced files.old }
{
    match load_input(alloc, files, Some(list)) {
        Ok(bytes) => {
            let mut first = SliceSource::new(&bytes);
            let mut second = first;
            send_read_through(alloc, list, &mut first, &mut second, sink)
        }
        Err(fault) => Err(StreamFault::Run(fault)),
    }
}

// Sends as text the entries of the list of this name, which both sources give, once the first is read through without a fault.
fn send_read_through<R: Source, S: Sink>(
    alloc: Global,
    list: &str,
    first: &mut R,
    second: &mut R,
    sink: &mut S,
) -> Sent
    ensures { (inputs : Inputs) → GivesInput inputs (FileOf list.now) (R.state first.old) (R.state first.new)
        → GivesInput inputs (FileOf list.now) (R.state second.old) (R.state second.new)
        → Streams Text (ShowsSoundList inputs list.now) (S.state sink.old) (S.state sink.new) result }
{
    match send_entries(alloc, None, first, INPUT_LIMIT, sink) {
        Ok(()) => send_lines(alloc, Form::Text, list, second, sink),
        Err(EntriesFault::List(fault)) => {
            Err(StreamFault::Run(damaged(alloc, list, second, fault)))
        }
        Err(fault) => Err(stopped_by(alloc, list, fault)),
    }
}

// Sends in this form the entries of the list of this name, which the source gives; of a damaged one those before its fault.
fn send_lines<R: Source, S: Sink>(
    alloc: Global,
    form: Form,
    list: &str,
    source: &mut R,
    sink: &mut S,
) -> Sent
    ensures { (inputs : Inputs) → GivesInput inputs (FileOf list.now) (R.state source.old) (R.state source.new)
        → Streams form (ShowsEntriesOf form inputs list.now) (S.state sink.old) (S.state sink.new) result }
{
    match send_entries(alloc, Some(form), source, INPUT_LIMIT, sink) {
        Ok(()) => Ok(DONE),
        Err(fault) => Err(stopped_by(alloc, list, fault)),
    }
}

// Why no more of the list of this name was sent.
fn stopped_by(alloc: Global, list: &str, fault: EntriesFault) -> StreamFault
    ensures { IsStoppedBy list.now fault result }
{
    match fault {
        EntriesFault::Sink => StreamFault::Sink(Failed),
        EntriesFault::List(fault) => StreamFault::Run(fault.into()),
        EntriesFault::Source => StreamFault::Run(not_read(alloc, list)),
        EntriesFault::TooLong => StreamFault::Run(too_long(alloc, list)),
        EntriesFault::Memory => StreamFault::Run(RunFault::Memory),
    }
}

// Why a list of this name, which has this fault, is not shown: it may be too long, too, or be unreadable after the fault.
fn damaged<R: Source>(alloc: Global, list: &str, source: &mut R, fault: ListFault) -> RunFault
    ensures { (inputs : Inputs) → GivesInput inputs (FileOf list.now) (R.state source.old) (R.state source.new)
        → (result ≡ fault_of_list fault) ⊎ IsInputFault inputs (Some list.now) result }
{
    match read_through(alloc, source, INPUT_LIMIT) {
        Ok(()) => fault.into(),
        Err(LoadFault::TooLong) => too_long(alloc, list),
        Err(LoadFault::Source) => not_read(alloc, list),
        Err(LoadFault::Memory) => RunFault::Memory,
    }
}
