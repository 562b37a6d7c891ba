//! Files in the form that the other commands read.

ghost use Rattle.std.specs.Prelude.{◌≡◌, IfErr, IfOk, OnErr};
ghost use Rattle.cells.specs.declared.writer.Form.TheVariants.{Text};
ghost use Rattle.agent_plans.specs.declared.plan.Conversion.TheVariants as conversions;
ghost use Rattle.agent_plans.specs.declared.plan.Task.TheVariants as tasks;
ghost use Rattle.ima_agent.specs.Converting.{IsConverted, IsNotConverted};
ghost use Rattle.ima_agent.specs.Program.{IsFaultOf, IsOutputFor};

use crate::streams::{DONE, Prepared};
use agent_inputs::{AgentFiles, RunFault, load_input, opened_name};
use agent_plans::Conversion;
use list_imports::list_of;
use log_imports::log_of;
use rendering::Output;
use run_progress::Progress;
use std::alloc::Global;

// A file in another form, or why it is in none.
type Converted = Result<Vec<u8>, RunFault>;

/// The file of this name, or standard input for `-`, in the form that the other commands read. It is loaded. How much padding a log loses is
/// told to `progress`.
pub(crate) fn converted_for<F: AgentFiles, P: Progress>(
    alloc: Global,
    files: &mut F,
    input: &String,
    conversion: Conversion,
    progress: &P,
) -> Prepared
    ensures shown { IfOk result (λ output. IsOutputFor (F.inputs files.old) (tasks.Convert input.now conversion) Text (F.replaced files.old)
        (F.replaced files.new) output.text.items output.status) }
    ensures kept { OnErr result (F.replaced files.new ≡ F.replaced files.old) }
    ensures fault { IfErr result (IsFaultOf (F.inputs files.old) (tasks.Convert input.now conversion) Text) }
{
    let content = load_input(alloc, files, opened_name(input))?;
    let text = converted(alloc, &content, conversion, progress)?;
    Ok(Output { text, status: DONE })
}

// What these bytes are in the form that the other commands read.
fn converted<P: Progress>(
    alloc: Global,
    content: &[u8],
    conversion: Conversion,
    progress: &P,
) -> Converted
    ensures text { IfOk result (λ text. IsConverted conversion content.now text.items) }
    ensures fault { IfErr result (IsNotConverted conversion content.now) }
{
    match conversion {
        Conversion::List => list_in(alloc, content),
        Conversion::Log => log_in(alloc, content, progress),
    }
}

// The binary list that these bytes show as text.
fn list_in(alloc: Global, content: &[u8]) -> Converted
    ensures text { IfOk result (λ text. IsConverted conversions.List content.now text.items) }
    ensures fault { IfErr result (IsNotConverted conversions.List content.now) }
{
    match list_of(alloc, content) {
        Ok(list) => Ok(list),
        Err(fault) => Err(fault.into()),
    }
}

// The crypto-agile log of which these bytes are another form; how much padding they have is told.
fn log_in<P: Progress>(alloc: Global, content: &[u8], progress: &P) -> Converted
    ensures text { IfOk result (λ text. IsConverted conversions.Log content.now text.items) }
    ensures fault { IfErr result (IsNotConverted conversions.Log content.now) }
{
    match log_of(alloc, content) {
        Ok(imported) => {
            progress.cuts(imported.padding);
            Ok(imported.log)
        }
        Err(fault) => Err(fault.into()),
    }
}
