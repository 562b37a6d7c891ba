//! The registers of all banks, in order.

ghost use Rattle.std.specs.Prelude.{◌≡◌, ◌<◌, get_or};
ghost use Rattle.pcr_banks.specs.declared.alg.Alg.TheVariants.{Sha1};
ghost use Rattle.pcr_values.specs.RegisterTexts.{every_register};

use pcr_banks::{Alg, REGISTERS};

/// How many registers all banks have.
pub const ALL_REGISTERS: u32 = 96;

/// The register with this number, from 0, among those of all banks: by bank in the order of [`Alg::ALL`], then by register.
pub fn register_numbered(number: u32) -> (Alg, u32)
    requires { number < 96 }
    ensures { get_or every_register number (Sha1, 0) ≡ result }
{
    let bank = (number / REGISTERS) as usize;
    (Alg::ALL[bank], number % REGISTERS)
}
