//! A register, as a firmware event log makes it.

ghost use Rattle.std.specs.Prelude.{◌≡◌, ◌⊎◌, IfOk, IfErr};
ghost use Rattle.boot_log.specs.Names.{HasLogFault};
ghost use Rattle.uses.specs.Uses.{IsRegisterAfter};

use boot_log::{LogFault, read_log};
use pcr_banks::{Alg, Digest};
use std::alloc::Global;

/// PCR 4 of the SHA-256 bank after a firmware event log, if the log has this bank. The firmware measures the boot manager into it.
pub fn boot_manager_register(alloc: Global, bytes: &[u8]) -> Result<Option<Digest>, LogFault>
    ensures value { IfOk result (IsRegisterAfter bytes.now Alg.Sha256 4) }
    ensures fault { IfErr result (λ fault. (fault ≡ LogFault.Memory) ⊎ HasLogFault bytes.now fault) }
{
    let log = read_log(alloc, bytes)?;
    let registers = log.registers();
    Ok(registers.read(Alg::Sha256, 4))
}
