//! What is told of a key of a TPM.

ghost use Rattle.std.specs.Prelude.{◌≡◌, IfOk, IfErr};
ghost use Rattle.tpm_keys.specs.Reports.{IsKey};
ghost use Rattle.judging.specs.Answering.{IsAnswer, IsNoKey, IsRefusal};
ghost use Rattle.judging.specs.Requests.{KeyOf, location_of};

use crate::inputs::{Input, load_at};
use crate::request::{Answer, Answered, Answering};
use agent_inputs::{AgentFiles, RunFault};
use std::alloc::Global;
use tpm_keys::{KeyPart, KeyReport, Purpose, read_key};

/// What is told of the key whose public area this input has, if it is one for this purpose. The input is loaded.
pub(crate) fn told_of_key<F: AgentFiles>(
    alloc: Global,
    files: &mut F,
    area: Input<'_>,
    purpose: Purpose,
    part: KeyPart,
) -> Answering
    ensures answer { IfOk result (IsAnswer (F.inputs files.old) (KeyOf (location_of area.entry) purpose part)) }
    ensures fault { IfErr result (IsRefusal (F.inputs files.old) (KeyOf (location_of area.entry) purpose part)) }
    ensures inputs { F.inputs files.new ≡ F.inputs files.old }
    ensures replaced { F.replaced files.new ≡ F.replaced files.old }
{
    let area = load_at(alloc, files, area)?;
    let report = report_on(alloc, area.bytes(), purpose)?;
    Ok(Answered::alone(Answer::Key { report, part }))
}

// What is told of the key of this public area, if it is one for this purpose.
fn report_on(alloc: Global, bytes: &[u8], purpose: Purpose) -> Result<KeyReport, RunFault>
    ensures report { IfOk result (IsKey bytes.now purpose) }
    ensures fault { IfErr result (IsNoKey purpose bytes.now) }
{
    let area = read_key(bytes, purpose)?;
    Ok(area.report(alloc)?)
}
