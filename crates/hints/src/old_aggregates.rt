//! Boot aggregates as older kernels record them.

ghost use Rattle.std.specs.Prelude.{◌≡◌, ◌↔◌, IfOk, IsTrue};
ghost use Rattle.pcr_banks.specs.Names.{value_at};
ghost use Rattle.hints.specs.OldAggregates.{BeginsWithOld, IsSaidOld, LogLeaves, registers_in};
ghost use Rattle.hints.specs.Refused.{list_of, replayed_log};
ghost use Rattle.judging.specs.Requests.{location_of};

use crate::reread::head_of;
use crate::task_inputs::{list_of, replayed_log};
use agent_inputs::{AgentFiles, RunFault};
use agent_plans::Task;
use boot_verdict::{is_of_old_kernel, recorded_by_any};
use ima_list::Entries;
use judging::{Answer, Input, Request, answer_request};
use pcr_banks::Banks;
use std::alloc::{AllocError, Global};

/// Whether the first entry of the task's list records the hash of the first registers alone after its log.
///
/// Fails if memory runs out.
pub(crate) fn is_old_aggregate<F: AgentFiles>(
    alloc: Global,
    files: &mut F,
    task: &Task,
) -> Result<bool, AllocError>
    ensures said { IfOk result (IsSaidOld (F.inputs files.old) (replayed_log task.now) (list_of task.now)) }
    ensures inputs { F.inputs files.new ≡ F.inputs files.old }
    ensures replaced { F.replaced files.new ≡ F.replaced files.old }
{
    let Some(log) = replayed_log(task) else {
        return Ok(false);
    };
    let Some(list) = list_of(task) else {
        return Ok(false);
    };
    let Some(registers) = registers_after(alloc, files, log)? else {
        return Ok(false);
    };
    match head_of(alloc, files, list)? {
        Some(head) => Ok(begins_with_old(&registers, &head)),
        None => Ok(false),
    }
}

// The registers after this log, if it is one.
fn registers_after<F: AgentFiles>(
    alloc: Global,
    files: &mut F,
    log: Input<'_>,
) -> Result<Option<Banks>, AllocError>
    ensures left { IfOk result (LogLeaves (F.inputs files.old) (location_of log.entry)) }
    ensures inputs { F.inputs files.new ≡ F.inputs files.old }
    ensures replaced { F.replaced files.new ≡ F.replaced files.old }
{
    match answer_request(alloc, files, Request::LogRegisters { log }) {
        Ok(given) => Ok(registers_in(&given.answer)),
        Err(RunFault::Memory) => Err(AllocError),
        Err(_) => Ok(None),
    }
}

// The registers of an answer, if it is of some.
fn registers_in(answer: &Answer) -> Option<Banks>
    ensures { result ≡ registers_in answer.now }
{
    match answer {
        Answer::Registers(registers) => Some(registers.now),
        _ => None,
    }
}

// Whether a list begins with an entry that records the old aggregate of these registers.
fn begins_with_old(registers: &Banks, list: &[u8]) -> bool
    ensures { IsTrue result ↔ BeginsWithOld (value_at registers.now) list.now }
{
    match Entries::new(list).next_entry(0) {
        Ok(Some(first)) => is_of_old_kernel(registers, recorded_by_any(&first)),
        Ok(None) => false,
        Err(_) => false,
    }
}
