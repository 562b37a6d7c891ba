//! A verdict on a firmware event log, a measurement list and expected registers.

ghost use Rattle.std.specs.Prelude.{IfOk, IfErr};
ghost use Rattle.uses.specs.Faults.{IsNoVerdict};
ghost use Rattle.uses.specs.Uses.{TellsWhetherMatch};

use crate::fault::UseFault;
use boot_verdict::verify;
use pcr_values::read_expected;
use std::alloc::Global;

/// Whether the firmware event log and the measurement list make the registers that the text states, as `sha256 4 f5a5..`, one on each
/// line.
pub fn registers_match(
    alloc: Global,
    log: &[u8],
    list: &[u8],
    expected: &[u8],
) -> Result<bool, UseFault>
    ensures verdict { IfOk result (TellsWhetherMatch log.now list.now expected.now) }
    ensures fault { IfErr result (IsNoVerdict log.now list.now expected.now) }
{
    let expected = read_expected(alloc, expected)?;
    let report = verify(alloc, log, list, &expected)?;
    Ok(report.matches())
}
