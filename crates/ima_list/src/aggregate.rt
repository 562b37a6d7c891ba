ghost use Rattle.std.specs.Prelude.{◌≡◌, option_map, is_some};
ghost use Rattle.pcr_banks.specs.Names.{digest_of, is_active, value_at};
ghost use Rattle.ima_list.specs.Aggregates.{aggregate_register_count, boot_aggregate_of, old_aggregate};

use pcr_banks::{Alg, Banks, Digest, Hasher};

/// The path of a list's first entry, which is the measurement of the boot aggregate.
pub const BOOT_AGGREGATE_PATH: &[u8] = b"boot_aggregate";

/// The boot aggregate of the algorithm's bank: the hash of PCR 0 to 7 joined for SHA-1, and of PCR 0 to 9 for any other
/// algorithm. `None` exactly where the bank is not active.
pub fn boot_aggregate(banks: &Banks, alg: Alg) -> Option<Digest>
    ensures value { result ≡ option_map (digest_of alg) (boot_aggregate_of banks.now alg) }
    ensures found { is_some result ≡ is_active banks.now alg }
{
    let mut hasher = Hasher::new(alg);
    for register in 0..aggregate_register_count(alg) {
        hasher.update(banks.read(alg, register)?.bytes());
    }
    Some(hasher.finish())
}

// How many registers, from PCR 0 on, the boot aggregate of a kernel before 5.8 covers.
const OLD_COUNT: u32 = 8;

/// The boot aggregate as kernels before 5.8 make it: the hash of PCR 0 to 7 joined, in each bank. `None` exactly where the bank is not
/// active.
pub fn old_boot_aggregate(registers: &Banks, alg: Alg) -> Option<Digest>
    ensures { result ≡ option_map (digest_of alg) (old_aggregate (value_at registers.now) alg) }
{
    let mut hasher = Hasher::new(alg);
    for register in 0..OLD_COUNT {
        hasher.update(registers.read(alg, register)?.bytes());
    }
    Some(hasher.finish())
}

// How many registers, from PCR 0 on, the boot aggregate hashes.
fn aggregate_register_count(alg: Alg) -> u32
    ensures { result ≡ aggregate_register_count alg }
{
    match alg {
        Alg::Sha1 => 8,
        _ => 10,
    }
}
