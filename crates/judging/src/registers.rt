//! The registers after a log, and after a list alone.

ghost use Rattle.std.specs.Prelude.{◌≡◌, ◌⊎◌, IfOk, IfErr};
ghost use Rattle.agent_inputs.specs.Loading.{Inputs as InputsOf};
ghost use Rattle.judging.specs.Answering.{IsAnswer, IsRefusal, GivesInput};
ghost use Rattle.judging.specs.Inputs.{IsInputFault};
ghost use Rattle.judging.specs.Requests.{ListRegistersOf, LogRegistersOf, location_of};

use crate::inputs::{Input, limit_of, load_at, refusal};
use crate::request::{Answer, Answered, Answering, Registers};
use agent_inputs::{AgentFiles, RunFault, STANDARD_INPUT, not_read};
use boot_log::LogView;
use boot_verdict::{list_start, replay_from};
use byte_streams::{Failed, SliceSource, Source};
use std::alloc::Global;

/// The registers after the log in this input, which is loaded.
#[inline(never)]
pub(crate) fn after_log<F: AgentFiles>(alloc: Global, files: &mut F, log: Input<'_>) -> Answering
    ensures answer { IfOk result (IsAnswer (F.inputs files.old) (LogRegistersOf (location_of log.entry))) }
    ensures fault { IfErr result (IsRefusal (F.inputs files.old) (LogRegistersOf (location_of log.entry))) }
    ensures inputs { F.inputs files.new ≡ F.inputs files.old }
    ensures replaced { F.replaced files.new ≡ F.replaced files.old }
{
    let log = load_at(alloc, files, log)?;
    let view = LogView::new(log.bytes())?;
    Ok(Answered::alone(Answer::Registers(Registers {
        start: view.reset_registers(),
        now: view.registers(),
    })))
}

/// The registers after the list in this input, which is replayed as it is read, without loading it.
#[inline(never)]
pub(crate) fn after_list<F: AgentFiles>(alloc: Global, files: &mut F, list: Input<'_>) -> Answering
    ensures answer { IfOk result (IsAnswer (F.inputs files.old) (ListRegistersOf (location_of list.entry))) }
    ensures fault { IfErr result (IsRefusal (F.inputs files.old) (ListRegistersOf (location_of list.entry))) }
    ensures inputs { F.inputs files.new ≡ F.inputs files.old }
    ensures replaced { F.replaced files.new ≡ F.replaced files.old }
{
    match list {
        Input::Bytes(bytes) => after_list_from(alloc, &mut SliceSource::new(bytes), list),
        Input::File(name) => match files.source(Some(name)) {
            Ok(mut source) => after_list_from(alloc, &mut source, list),
            Err(Failed) => Err(not_read(alloc, name)),
        },
        Input::StandardInput => match files.source(None) {
            Ok(mut source) => after_list_from(alloc, &mut source, list),
            Err(Failed) => Err(not_read(alloc, STANDARD_INPUT)),
        },
        Input::HcrtmLog(_) => after_loaded(alloc, files, list),
    }
}

// The registers after the list in this input, which is loaded.
#[inline(never)]
fn after_loaded<F: AgentFiles>(alloc: Global, files: &mut F, list: Input<'_>) -> Answering
    ensures answer { IfOk result (IsAnswer (F.inputs files.old) (ListRegistersOf (location_of list.entry))) }
    ensures fault { IfErr result (λ fault. IsInputFault (F.inputs files.old) (location_of list.entry) fault
        ⊎ IsRefusal (F.inputs files.old) (ListRegistersOf (location_of list.entry)) fault) }
    ensures inputs { F.inputs files.new ≡ F.inputs files.old }
    ensures replaced { F.replaced files.new ≡ F.replaced files.old }
{
    match load_at(alloc, files, list) {
        Ok(held) => after_list_from(alloc, &mut SliceSource::new(held.bytes()), list),
        Err(fault) => Err(fault),
    }
}

// The registers after the list of this source.
fn after_list_from<R: Source>(alloc: Global, source: &mut R, list: Input<'_>) -> Answering
    ensures answer { (inputs : InputsOf) → GivesInput inputs (location_of list.entry) (R.state source.old) (R.state source.new)
        → IfOk result (IsAnswer inputs (ListRegistersOf (location_of list.entry))) }
    ensures fault { (inputs : InputsOf) → GivesInput inputs (location_of list.entry) (R.state source.old) (R.state source.new)
        → IfErr result (IsRefusal inputs (ListRegistersOf (location_of list.entry))) }
{
    match replay_from(alloc, source, limit_of(list)) {
        Ok(now) => Ok(Answered::alone(Answer::Registers(Registers {
            start: list_start(),
            now,
        }))),
        Err(fault) => Err(refusal(alloc, list, fault)),
    }
}
