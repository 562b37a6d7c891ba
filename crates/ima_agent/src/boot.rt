//! The answers on a machine's boot, as the program shows them.

ghost use Rattle.std.specs.Prelude.{◌≡◌, option_map, string_bytes, IfErr, IfOk, OnErr};
ghost use Rattle.agent_plans.specs.declared.plan.Task.TheVariants as tasks;
ghost use Rattle.judging.specs.Queries.{log_place};
ghost use Rattle.judging.specs.Requests.{location_of};
ghost use Rattle.ima_agent.specs.Program.{IsFaultOf, IsOutputFor};

use crate::confirmed::{confirming_by, log_for};
use crate::streams::Prepared;
use agent_inputs::AgentFiles;
use agent_plans::{ConfirmedBy, Form, LogFile};
use confirming::boot_on;
use judging::{Input, log_input};
use std::alloc::Global;

/// The answers on the boot that left this log, and how far an earlier boot extended the registers alike, if a log of it is named, which is
/// replayed as the other. They are given by the registers that match, by what tells it; if nothing does none match, and what nothing confirms is unknown.
///
/// The log is loaded; then what tells which registers match, and read; then the log is looked through for its first fault; then that of the
/// earlier boot is loaded and looked through.
pub(crate) fn boot_for<F: AgentFiles>(
    alloc: Global,
    files: &mut F,
    log: &LogFile,
    confirmed_by: &ConfirmedBy,
    before: &Option<String>,
    form: Form,
) -> Prepared
    ensures shown { IfOk result (λ output. IsOutputFor (F.inputs files.old) (tasks.Boot log.now confirmed_by.now before.now) form (F.replaced files.old)
        (F.replaced files.new) output.text.items output.status) }
    ensures kept { OnErr result (F.replaced files.new ≡ F.replaced files.old) }
    ensures fault { IfErr result (IsFaultOf (F.inputs files.old) (tasks.Boot log.now confirmed_by.now before.now) form) }
{
    let bytes = log_for(alloc, files, log, confirmed_by)?;
    let confirming = confirming_by(confirmed_by);
    let earlier = earlier_log(before, log.hcrtm);
    boot_on(alloc, files, &bytes, confirming, earlier, form)
}

// The log in the file of this name, if there is one: its H-CRTM event tells where the machine started, or it is replayed as it stands.
fn earlier_log(name: &Option<String>, hcrtm: bool) -> Option<Input<'_>>
    ensures { option_map location_of result ≡ option_map (log_place hcrtm) (option_map string_bytes name.now) }
{
    match name {
        None => None,
        Some(name) => Some(log_input(name, hcrtm)),
    }
}
