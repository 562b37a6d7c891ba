//! Runs the program.

ghost use Rattle.std.specs.Prelude.{◌≡◌, [], Ok, IfOk, IfErr, OnErr};
ghost use Rattle.std.specs.Process.{exit_status};
ghost use Rattle.agent_inputs.specs.Faults.{IsArgumentsFault};
ghost use Rattle.agent_plans.specs.Plans.{IsWithin, IsWithinLimits, IsWithinRanges, NamesKnown};
ghost use Rattle.command_line.specs.Arguments.{BeginsWithVersion, IsRequestedBy};
ghost use Rattle.cells.specs.declared.writer.Form.TheVariants.{Text};
ghost use Rattle.agent_plans.specs.declared.plan.Plan.TheVariants as plans;
ghost use Rattle.agent_plans.specs.declared.plan.Task.TheVariants as tasks;
ghost use Rattle.rendering.specs.FaultTexts.{fault_status, IsFailure};
ghost use Rattle.ima_agent.specs.Program.{Answers, IsFaultOf, IsOutcome, IsOutput, IsOutputFor, IsOutputOf, SendsOutput, SendsText, Streams, status_after};

use crate::boot::boot_for;
use crate::convert::converted_for;
use crate::events::events_for;
use crate::shown::{entries_for, shown_registers};
use crate::streams::{DONE, Prepared, Sent, StreamFault};
use crate::version::version_text;
use agent_inputs::{AgentFiles, RunFault};
use agent_plans::{Form, Measurement, Plan, Query, Task};
use byte_streams::{Failed, Sink, send};
use judging::{known_inputs, request_of, save_of};
use measuring::measure;
use rendering::{
    Output, Summary, json_fault_line, json_memory_line, output_for, print_measured, status_of,
    write_fault,
};
use run_progress::{Failure, NoProgress, Progress};
use std::alloc::{AllocError, Global};
use std::io;
use std::process::ExitCode;
use std::sync::Wait;
use std::thread::Threads;

// The exit status of an answer that something differs.
const DIFFERS: u8 = 1;

// The exit status of an answer by a quote at whose signature nobody looked.
const UNSIGNED: u8 = 4;

// The exit status if the sink failed.
const FAILED: u8 = 3;

/// Reads the program's arguments, without its name, as [`command_line::read_words`] does. Without arguments the plan is
/// `Registers`: the log on standard input. After `--version` nothing is looked at. Otherwise the first argument is the command.
///
/// Fails with `Usage` if the arguments are not those of a command, and with `Memory` if memory runs out.
pub fn read_words(alloc: Global, arguments: &[String]) -> Result<Plan, RunFault>
    // The first argument is the command, the arguments match its options and names, and these are within their ranges; or one of
    // them requests help; or the first is `--version`.
    ensures request { IfOk result (λ plan. IsRequestedBy arguments.now plan × IsWithinRanges plan) }
    ensures refused { IfErr result IsArgumentsFault }
    // Without arguments the plan is `Registers`, whatever memory there is.
    ensures none { arguments.now ≡ [] → result ≡ Ok plans.Registers }
    // After `--version` the plan is to show the version, whatever follows it.
    ensures version { BeginsWithVersion arguments.now → result ≡ Ok (plans.Task tasks.Version Text) }
{
    Ok(command_line::read_words(alloc, arguments)?)
}

/// Runs the program as [`run_with_progress`] does, and returns the process's exit code. If `arguments` is an error, the program fails
/// as it does out of memory: with the line `failed: memory` and status 3.
/// `main` returns it, so that the exit status has a contract.
pub fn exit_code<R: Threads + Wait + Sync, F: AgentFiles, S: Sink, P: Progress>(
    rt: &R,
    alloc: Global,
    arguments: io::Result<Vec<String>>,
    files: &mut F,
    sink: &mut S,
    progress: &P,
) -> ExitCode
    ensures { Answers (IsOutputOf (F.inputs files.old) arguments (F.replaced files.old) (F.replaced files.new)) (exit_status result) (S.state sink.old) (S.state sink.new) }
{
    match arguments {
        Ok(arguments) => exits_with(run_with_progress(
            rt, alloc, &arguments, files, sink, progress,
        )),
        Err(reason) => {
            let status = report_fault(alloc, Form::Text, &RunFault::Memory, sink);
            progress.explain(alloc, Failure::Arguments { reason: &reason });
            exits_with(status)
        }
    }
}

// The process's exit code for an exit status.
fn exits_with(status: u8) -> ExitCode
    ensures { exit_status result ≡ status }
{
    ExitCode::from(status)
}

/// Does what the program's arguments, without its name, request, and returns the exit status.
///
/// Without arguments: loads standard input, a firmware event log in hexadecimal, and writes the registers that differ from their
/// reset values. With arguments, as [`crate::read_words`] reads them: `measure` measures files into the registers of a log, and
/// writes the list or the registers; `verify` writes the report on a log, a list and expected registers, and `locate` where in the log
/// and the list each of these registers first has its value; `expected` writes the lines of expected registers, from what tpm2-tools
/// printed; `key` writes what is told of a TPM's key; `registers` writes the registers that differ from their reset values after a log, and `replay` those after a list alone,
/// or the report on the list alone and expected registers; `events` writes the lines of a log's events, `boot` what they answer on the boot,
/// and `show` the lines of a list's entries; `list` and `log` write a list or a log of another form in the form that these read; `--help` writes the
/// help, and `--version` the version. With `--hcrtm` a log's H-CRTM event tells where the machine started.
///
/// The whole output is prepared before its first byte is written; a fault is written as one line. But `events` looks its log through
/// for a fault, and then writes the lines of the events one after another, so that memory does not grow with them; `show` reads its list through for a
/// fault, and then writes the lines of the entries while it reads the list again, so that memory does not grow with it, unless it is no regular file.
/// `show --json` and `show --partial` write them while it reads the list for the first time, and `events --json` those of the events while it
/// reads the loaded log: a fault's line then comes after those of the entries or events before it, whatever the fault. So it does with `show` if a
/// fault is found only when the list is read again: the list has changed, cannot be read, or memory runs out. With `--expected` or
/// `--quote` the log is looked through before, and so it is with `--explain`: then only the line of a fault of memory may come after some. The status is 0 on success, 1
/// if the report does not match, a register's value was not reached, none was looked for or a required one is missing, 2 for refused
/// input, 3 if memory ran out, outcomes do not account for the book, or a device failed, and 4 for a refused quote, or one at whose signature
/// nobody looked; `events` and `boot` have the status of such a quote, if one confirms nothing. After the sink fails, nothing more is written.
///
/// A file is replaced only by `verify --save` and `attest --save` with the verdict `match`: by the checkpoint of what the report is on, before the report is
/// written. With a fault none is.
pub fn run<R: Threads + Wait + Sync, F: AgentFiles, S: Sink>(
    rt: &R,
    alloc: Global,
    arguments: &[String],
    files: &mut F,
    sink: &mut S,
) -> u8
    ensures { Answers (IsOutput (F.inputs files.old) arguments.now (F.replaced files.old) (F.replaced files.new)) result (S.state sink.old) (S.state sink.new) }
{
    run_with_progress(rt, alloc, arguments, files, sink, &NoProgress)
}

/// As [`run`]; also reports to `progress` how many files of a measurement are done, that standard input is about to be read, how much padding a
/// converted log lost, and, after the output, why the run failed, or that something differs or nothing was compared. Output and status are the same.
pub fn run_with_progress<R: Threads + Wait + Sync, F: AgentFiles, S: Sink, P: Progress>(
    rt: &R,
    alloc: Global,
    arguments: &[String],
    files: &mut F,
    sink: &mut S,
    progress: &P,
) -> u8
    ensures { Answers (IsOutput (F.inputs files.old) arguments.now (F.replaced files.old) (F.replaced files.new)) result (S.state sink.old) (S.state sink.new) }
{
    match read_words(alloc, arguments) {
        Ok(plan) => {
            let (task, form) = plan.into_task();
            run_task(rt, alloc, &task, form, files, sink, progress)
        }
        Err(fault) => {
            let status = report_fault(alloc, Form::Text, &fault, sink);
            progress.explain(
                alloc,
                Failure::Refused {
                    fault: &fault,
                    arguments,
                },
            );
            status
        }
    }
}

// Does this task, whose result is shown in this form, and returns the exit status.
fn run_task<R: Threads + Wait + Sync, F: AgentFiles, S: Sink, P: Progress>(
    rt: &R,
    alloc: Global,
    task: &Task,
    form: Form,
    files: &mut F,
    sink: &mut S,
    progress: &P,
) -> u8
    requires within { IsWithin form task.now }
    ensures { Answers (IsOutcome (F.inputs files.old) task.now form (F.replaced files.old) (F.replaced files.new)) result (S.state sink.old) (S.state sink.new) }
{
    match perform(rt, alloc, task, form, files, sink, progress) {
        Ok(status) => {
            tell_difference(alloc, task, status, progress);
            status
        }
        Err(StreamFault::Sink(Failed)) => {
            progress.explain(alloc, Failure::Output);
            FAILED
        }
        Err(StreamFault::Run(fault)) => {
            let status = report_fault(alloc, form, &fault, sink);
            progress.explain(
                alloc,
                Failure::Fault {
                    fault: &fault,
                    task,
                },
            );
            status
        }
    }
}

// Tells what an answer with this status has to tell beside the output.
fn tell_difference<P: Progress>(alloc: Global, task: &Task, status: u8, progress: &P) {
    match status {
        DIFFERS => progress.explain(alloc, Failure::Differs { task }),
        UNSIGNED => progress.explain(alloc, Failure::Unsigned { task }),
        DONE => progress.explain(alloc, Failure::Matches { task }),
        _ => {}
    }
}

// Does this task, and sends its output in this form; at a fault of the run what comes before the fault's line.
fn perform<R: Threads + Wait + Sync, F: AgentFiles, S: Sink, P: Progress>(
    rt: &R,
    alloc: Global,
    task: &Task,
    form: Form,
    files: &mut F,
    sink: &mut S,
    progress: &P,
) -> Sent
    requires within { IsWithin form task.now }
    ensures { Streams form (IsOutcome (F.inputs files.old) task.now form (F.replaced files.old) (F.replaced files.new)) (S.state sink.old) (S.state sink.new) result }
{
    match task {
        Task::Registers => {
            progress.waits();
            send_output(shown_registers(alloc, files, form), sink)
        }
        Task::Answer(question) => send_answer(alloc, question, form, files, sink, progress),
        Task::Measure(request) => {
            send_output(measure_for(rt, alloc, request, form, files, progress), sink)
        }
        Task::Events {
            log,
            data,
            confirmed_by,
        } => events_for(alloc, files, log, *data, confirmed_by, form, sink),
        Task::Boot {
            log,
            confirmed_by,
            before,
        } => send_output(
            boot_for(alloc, files, log, confirmed_by, before, form),
            sink,
        ),
        Task::Convert { input, conversion } => send_output(
            converted_for(alloc, files, input, *conversion, progress),
            sink,
        ),
        Task::Entries { list, partial } => entries_for(alloc, files, list, *partial, form, sink),
        Task::Help(text) => send_text(text.as_bytes(), DONE, sink),
        Task::Version => send_text(version_text(), DONE, sink),
    }
}

// Sends an output that was prepared whole, and returns its status. If there is none, nothing is sent.
fn send_output<S: Sink>(output: Prepared, sink: &mut S) -> Sent
    ensures { SendsOutput output (S.state sink.old) (S.state sink.new) result }
{
    match output {
        Ok(output) => send_text(&output.text, output.status, sink),
        Err(fault) => Err(StreamFault::Run(fault)),
    }
}

// Sends a text, and returns this status.
fn send_text<S: Sink>(text: &[u8], status: u8, sink: &mut S) -> Sent
    ensures { SendsText text.now status (S.state sink.old) (S.state sink.new) result }
{
    match send(text, sink) {
        Ok(()) => Ok(status),
        Err(fault) => Err(StreamFault::Sink(fault)),
    }
}

// Sends the answer to a question.
fn send_answer<F: AgentFiles, S: Sink, P: Progress>(
    alloc: Global,
    question: &Query,
    form: Form,
    files: &mut F,
    sink: &mut S,
    progress: &P,
) -> Sent
    requires { NamesKnown question.now }
    ensures { Streams form (IsOutcome (F.inputs files.old) (tasks.Answer question.now) form (F.replaced files.old) (F.replaced files.new)) (S.state sink.old) (S.state sink.new) result }
{
    match answer_for(alloc, question, form, files) {
        Ok((output, summary)) => send_told(alloc, question, output, &summary, sink, progress),
        Err(fault) => send_output(Err(fault), sink),
    }
}

// Sends the output of the answer to a question, and tells if registers could be expected and none is.
fn send_told<S: Sink, P: Progress>(
    alloc: Global,
    question: &Query,
    output: Output,
    summary: &Summary,
    sink: &mut S,
    progress: &P,
) -> Sent
    ensures { SendsOutput (Ok output) (S.state sink.old) (S.state sink.new) result }
{
    let sent = send_output(Ok(output), sink);
    if sent.is_ok() {
        tell_compared(alloc, question, summary, progress);
    }
    sent
}

// Tells if registers could be expected and none is.
fn tell_compared<P: Progress>(alloc: Global, question: &Query, summary: &Summary, progress: &P) {
    if summary.compares_nothing() {
        progress.explain(alloc, Failure::NothingCompared);
    } else if summary.compared == 0 && matches!(question, Query::Comparison(_)) {
        progress.explain(alloc, Failure::NothingToCompare { question });
    }
}

// The output of the answer to a question, and its summary.
fn answer_for<F: AgentFiles>(
    alloc: Global,
    question: &Query,
    form: Form,
    files: &mut F,
) -> Result<(Output, Summary), RunFault>
    requires { NamesKnown question.now }
    ensures shown { IfOk result (λ given. IsOutputFor (F.inputs files.old) (tasks.Answer question.now) form (F.replaced files.old) (F.replaced files.new)
        given.0.text.items given.0.status) }
    ensures kept { OnErr result (F.replaced files.new ≡ F.replaced files.old) }
    ensures fault { IfErr result (IsFaultOf (F.inputs files.old) (tasks.Answer question.now) form) }
{
    let known = known_inputs(alloc, question)?;
    output_for(
        alloc,
        files,
        request_of(question, &known),
        save_of(question),
        form,
        question.look(),
    )
}

// The output of a measurement.
fn measure_for<R: Threads + Wait + Sync, F: AgentFiles, P: Progress>(
    rt: &R,
    alloc: Global,
    request: &Measurement,
    form: Form,
    files: &mut F,
    progress: &P,
) -> Prepared
    requires { IsWithinLimits form request.now }
    ensures shown { IfOk result (λ output. IsOutputFor (F.inputs files.old) (tasks.Measure request.now) form (F.replaced files.old) (F.replaced files.new)
        output.text.items output.status) }
    ensures kept { OnErr result (F.replaced files.new ≡ F.replaced files.old) }
    ensures fault { IfErr result (IsFaultOf (F.inputs files.old) (tasks.Measure request.now) form) }
{
    let given = measure(rt, alloc, files, request, progress)?;
    Ok(print_measured(alloc, &given, request.print, form)?)
}

// Writes the line of the fault in this form, or as JSON that of `Memory` if memory runs out for it, and returns the status of what was
// written, or that of a sink that failed.
fn report_fault<S: Sink>(alloc: Global, form: Form, fault: &RunFault, sink: &mut S) -> u8
    ensures { Answers (IsFailure form fault.now) result (S.state sink.old) (S.state sink.new) }
{
    match form {
        Form::Text => status_after(write_fault(fault, sink), fault),
        Form::Json => match json_fault_line(alloc, fault) {
            Ok(line) => status_after(send(&line, sink), fault),
            Err(AllocError) => status_after(send(json_memory_line(), sink), &RunFault::Memory),
        },
    }
}

// The exit status after the line of a fault was sent with this result.
fn status_after(sent: Result<(), Failed>, fault: &RunFault) -> u8
    ensures { result ≡ status_after sent (fault_status fault.now) }
{
    match sent {
        Ok(()) => status_of(fault),
        Err(Failed) => FAILED,
    }
}
