//! Outputs of what is asked for: answers as text or JSON, and the checkpoint of what a verdict is on.

ghost use Rattle.std.specs.Prelude.{◌≡◌, option_map, IfOk, IfErr, OnErr, OnOk};
ghost use Rattle.agent_inputs.specs.Loading.{unknown};
ghost use Rattle.judging.specs.Requests.{requested_of};
ghost use Rattle.rendering.specs.Rendering.{GivesAnswer, HasSaved, IsNotSaved, IsOutputFault, IsRefusalOn, IsSummaryOn, ShowsAnswer, answer_cell, answer_status, render, rendered_in, shown_as, state_of};
ghost use Rattle.cells.specs.Cells.{ShowsMembers};
ghost use Rattle.cells.specs.declared.writer.Form.TheVariants.{Text};

use crate::no_files::NoFiles;
use crate::summary::Summary;
use crate::summary_lines::summary_line;
use agent_inputs::{AgentFiles, RunFault, not_written};
use agent_plans::Look;
use answers::{
    RowOrder, show_attestation, show_expected, show_key, show_list_report, show_positions,
    show_prefix, show_registers, show_report,
};
use byte_streams::Failed;
use cells::{CellWriter, Form, Shown, Written};
use growing_lists::{SavedState, write_checkpoint};
use judging::{Answer, Answered, Request, answer_request};
use std::alloc::{AllocError, Global};

/// A whole output, before its first byte is written.
#[derive(Drop)]
pub struct Output {
    /// The text, or a binary list.
    pub text: Vec<u8>,
    /// The exit status once all of it is written: 0; 1 for a verdict that does not match or a value that was not reached; 4 for a quote whose
    /// signature nobody verified; or that of the fault that a text of JSON lines ends with.
    pub status: u8,
}

impl Output {
    /// The output of a command that succeeded.
    pub fn done(text: Vec<u8>) -> Self
        ensures { (result.text ≡ text) × (result.status ≡ 0) }
    {
        Output { text, status: DONE }
    }
}

// The exit status of success.
const DONE: u8 = 0;

// The exit status of a report that does not match.
const DIFFERS: u8 = 1;

// The exit status of a report by a quote whose signature nobody verified.
const UNSIGNED: u8 = 4;

/// An output, where to go on, and what the output says in numbers.
#[derive(Drop)]
pub struct Rendered {
    /// The output.
    pub output: Output,
    /// The text of the checkpoint of what a verdict is on, if all is well; else no bytes.
    pub checkpoint: Vec<u8>,
    /// The summary of the answer.
    pub summary: Summary,
}

/// The output of what is asked for, in this form and with this look, and its summary. If all is well, the checkpoint of what a verdict is on is saved last, if a
/// name is given for it.
pub fn output_for<F: AgentFiles>(
    alloc: Global,
    files: &mut F,
    request: Request<'_>,
    name: Option<&str>,
    form: Form,
    look: Look,
) -> Result<(Output, Summary), RunFault>
    ensures shown { IfOk result (λ given. ShowsAnswer (F.inputs files.old) (requested_of request.entry) (option_map (λ name. name.now) name.entry) form look
        (F.replaced files.old) (F.replaced files.new) given.0.text.items given.0.status) }
    ensures summary { IfOk result (λ given. IsSummaryOn (F.inputs files.old) (requested_of request.entry) given.1) }
    ensures kept { OnErr result (F.replaced files.new ≡ F.replaced files.old) }
    ensures fault { IfErr result (IsOutputFault (F.inputs files.old) (requested_of request.entry) (option_map (λ name. name.now) name.entry)) }
{
    let given = answer_request(alloc, files, request)?;
    let output = shown_as(alloc, &given, form, look)?;
    let summary = Summary::of(&given);
    save(alloc, files, name, given.next)?;
    Ok((output, summary))
}

// Saves the checkpoint, if there is one, under this name, if there is one.
fn save<F: AgentFiles>(
    alloc: Global,
    files: &mut F,
    name: Option<&str>,
    next: Option<SavedState>,
) -> Result<(), RunFault>
    ensures saved { OnOk result (HasSaved (F.replaced files.old) (F.replaced files.new) (option_map (λ name. name.now) name.entry) next) }
    ensures kept { OnErr result (F.replaced files.new ≡ F.replaced files.old) }
    ensures fault { IfErr result (IsNotSaved (option_map (λ name. name.now) name.entry) next) }
{
    match (name, next) {
        (Some(name), Some(next)) => {
            let text = write_checkpoint(alloc, &next)?;
            match files.replace(name, &text) {
                Ok(()) => Ok(()),
                Err(Failed) => Err(not_written(alloc, name)),
            }
        }
        _ => Ok(()),
    }
}

/// The output of what is asked for of bytes in memory, in this form. There are no files: one that is asked for cannot be read.
pub fn output_on(alloc: Global, request: Request<'_>, form: Form) -> Result<Rendered, RunFault>
    ensures shown { IfOk result (λ given. GivesAnswer unknown (requested_of request.entry) form given.output.text.items given.output.status
        given.checkpoint.items given.summary) }
    ensures fault { IfErr result (IsRefusalOn unknown (requested_of request.entry)) }
{
    let given = answer_request(alloc, &mut NoFiles, request)?;
    let output = render(alloc, &given, form)?;
    let summary = Summary::of(&given);
    let checkpoint = text_of(alloc, given.next)?;
    Ok(Rendered {
        output,
        checkpoint,
        summary,
    })
}

// The text of a checkpoint and its boot, if there is one.
fn text_of(alloc: Global, next: Option<SavedState>) -> Result<Vec<u8>, AllocError>
    ensures { IfOk result (λ text. text.items ≡ state_of next) }
{
    match next {
        None => Ok(Vec::new(alloc)),
        Some(next) => write_checkpoint(alloc, &next),
    }
}

/// The output of an answer in this form: its status says whether all is well, or that nobody verified the signature of a quote.
pub fn render(alloc: Global, given: &Answered, form: Form) -> Result<Output, AllocError>
    ensures text { IfOk result (λ output. output.text.items ≡ render form given.now) }
    ensures status { IfOk result (λ output. output.status ≡ answer_status given.now.is_success given.now.answer) }
{
    Ok(Output {
        text: text_in(alloc, given, form, RowOrder::Given)?,
        status: status_of_answer(given),
    })
}

/// The output of an answer in this form, and as text with this look. The status is the same whatever the look.
pub fn shown_as(
    alloc: Global,
    given: &Answered,
    form: Form,
    look: Look,
) -> Result<Output, AllocError>
    ensures text { IfOk result (λ output. output.text.items ≡ shown_as form look given.now) }
    ensures status { IfOk result (λ output. output.status ≡ answer_status given.now.is_success given.now.answer) }
{
    match form {
        Form::Json => render(alloc, given, Form::Json),
        Form::Text => Ok(Output {
            text: text_with(alloc, given, look)?,
            status: status_of_answer(given),
        }),
    }
}

// The text of an answer with this look.
fn text_with(alloc: Global, given: &Answered, look: Look) -> Result<Vec<u8>, AllocError>
    ensures { IfOk result (λ text. text.items ≡ shown_as Text look given.now) }
{
    match look {
        Look::Plain => text_in(alloc, given, Form::Text, RowOrder::Given),
        Look::Terminal => text_in(alloc, given, Form::Text, RowOrder::ResetLast),
        Look::Summary => summary_line(alloc, &Summary::of(given)),
    }
}

// An answer in this form, with its rows in this order.
fn text_in(
    alloc: Global,
    given: &Answered,
    form: Form,
    order: RowOrder,
) -> Result<Vec<u8>, AllocError>
    ensures { IfOk result (λ text. text.items ≡ rendered_in order form given.now) }
{
    cells::render(alloc, form, &ShownAnswer { given, order })
}

/// The exit status of an answer.
pub fn status_of_answer(given: &Answered) -> u8
    ensures { result ≡ answer_status given.now.is_success given.now.answer }
{
    match (given.is_success, &given.answer) {
        (true, _) => DONE,
        (false, Answer::Attestation(report)) if !report.signature.is_signed() => UNSIGNED,
        (false, _) => DIFFERS,
    }
}

// An answer that is shown.
#[derive(Drop)]
struct ShownAnswer<'a> {
    given: &'a Answered,
    order: RowOrder,
}

impl Shown for ShownAnswer<'_> {
    ghost cell_of = { λ shown. answer_cell shown.order shown.given.now.is_success shown.given.now.requirement shown.given.now.unknown shown.given.now.answer };

    fn show(&self, alloc: Global, out: &mut CellWriter) -> Written {
        show_answer(alloc, self.given, self.order, out)
    }
}

fn show_answer(alloc: Global, given: &Answered, order: RowOrder, out: &mut CellWriter) -> Written
    ensures { ShowsMembers result out.old out.new (answer_cell order given.now.is_success given.now.requirement given.now.unknown given.now.answer) }
{
    let requirement = given.requirement.as_ref();
    let unknown = given.unknown.as_ref();
    match &given.answer {
        Answer::Attestation(report) => show_attestation(alloc, report, unknown, order, out),
        Answer::Report(report) => {
            show_report(
                alloc,
                report,
                requirement,
                unknown,
                given.is_success,
                order,
                out,
            )
        }
        Answer::Prefix(prefix) => show_prefix(alloc, prefix, requirement, unknown, order, out),
        Answer::Positions(positions) => show_positions(alloc, positions, requirement, out),
        Answer::ListReport(report) => show_list_report(
            alloc,
            report,
            requirement,
            unknown,
            order,
            out,
        ),
        Answer::Registers(banks) => show_registers(alloc, &banks.now, &banks.start, out),
        Answer::Expected(expected) => show_expected(alloc, expected, out),
        Answer::Key { report, part } => show_key(alloc, report, *part, out),
    }
}
