ghost use Rattle.std.specs.Prelude.{◌≡◌, ℕ, ◌<◌, ◌&&◌, ◌==◌, nat_lt, if◌then◌else◌, slice_get, option_map, Some, None, false, is_some, IsTrue, IsSome};
ghost use Rattle.pcr_banks.specs.Hashing.{same_alg, size_of};
ghost use Rattle.pcr_banks.specs.Digests.{alg_of, bytes_of, digest_of};
ghost use Rattle.pcr_banks.specs.Sets.{has_alg};
ghost use Rattle.pcr_banks.specs.declared.alg.Alg.{Alg};
ghost use Rattle.pcr_banks.specs.Registers.{register_count, IsReset, Extends, ExtendsBank, extended_value, is_active, value_at, in_bank, reset_bytes};

use crate::{Alg, AlgSet, Digest, Hasher, PerBank};

/// The number of registers in a bank, numbered from 0 (PC Client Platform TPM Profile, 'PCR Attributes').
pub const REGISTERS: u32 = 24;

// `REGISTERS` as a length.
const PLACES: usize = REGISTERS as usize;

// The registers of a bank, for an algorithm whose hashes have N bytes.
pub(crate) type Bank<const N: usize> = [[u8; N]; PLACES];

/// The register banks of a TPM: the values of PCR 0 to 23 for each active algorithm.
#[derive(Clone, Copy, PartialEq, Eq)]
pub struct Banks {
    pub(crate) sha1: Option<Bank<20>>,
    pub(crate) sha256: Option<Bank<32>>,
    pub(crate) sha384: Option<Bank<48>>,
    pub(crate) sha512: Option<Bank<64>>,
}

impl Banks {
    /// The banks of these algorithms after a TPM startup from the locality (PC Client Platform TPM Profile, 'PCR Initial and
    /// Reset Values'): the last byte of PCR 0 is the locality, PCR 17 to 22 have all bits set, and every other byte is zero.
    pub fn new(algs: AlgSet, locality: u8) -> Self
        ensures { IsReset algs locality result }
    {
        Banks {
            sha1: reset_bank(algs.has(Alg::Sha1), locality),
            sha256: reset_bank(algs.has(Alg::Sha256), locality),
            sha384: reset_bank(algs.has(Alg::Sha384), locality),
            sha512: reset_bank(algs.has(Alg::Sha512), locality),
        }
    }

    /// Whether the algorithm has a bank.
    pub fn active(&self, alg: Alg) -> bool
        ensures { result ≡ is_active self.now alg }
    {
        match alg {
            Alg::Sha1 => self.sha1.is_some(),
            Alg::Sha256 => self.sha256.is_some(),
            Alg::Sha384 => self.sha384.is_some(),
            Alg::Sha512 => self.sha512.is_some(),
        }
    }

    /// Returns the value of a register, or `None` if the bank is not active or the register is not below [`REGISTERS`].
    pub fn read(&self, alg: Alg, register: u32) -> Option<Digest>
        ensures value { result ≡ option_map (digest_of alg) (value_at self.now alg register) }
        ensures found { IsTrue (is_active self.now alg) → register < register_count → IsSome result }
    {
        let index = register as usize;
        Some(match alg {
            Alg::Sha1 => Digest::Sha1(value_in(&self.sha1, index)?),
            Alg::Sha256 => Digest::Sha256(value_in(&self.sha256, index)?),
            Alg::Sha384 => Digest::Sha384(value_in(&self.sha384, index)?),
            Alg::Sha512 => Digest::Sha512(value_in(&self.sha512, index)?),
        })
    }

    /// The banks with this value in a register, of the bank of the digest's algorithm. If that bank is not active, or the register
    /// is not below [`REGISTERS`], they are as before.
    pub fn with(mut self, register: u32, value: &Digest) -> Self
        ensures active { (a : Alg) → is_active result a ≡ is_active self a }
        ensures values { (a : Alg) (r : ℕ) → value_at result a r
            ≡ (if same_alg a (alg_of value.now) && (r == register) then option_map (λ _. bytes_of value.now) (value_at self a r)
            else value_at self a r) }
    {
        let index = register as usize;
        match value {
            Digest::Sha1(value) => set_register(&mut self.sha1, index, value),
            Digest::Sha256(value) => set_register(&mut self.sha256, index, value),
            Digest::Sha384(value) => set_register(&mut self.sha384, index, value),
            Digest::Sha512(value) => set_register(&mut self.sha512, index, value),
        }
        self
    }

    /// The banks without that of the algorithm.
    pub fn without(mut self, alg: Alg) -> Self
        ensures active { (a : Alg) → is_active result a ≡ (if same_alg a alg then false else is_active self a) }
        ensures values { (a : Alg) (r : ℕ) → value_at result a r ≡ (if same_alg a alg then None else value_at self a r) }
    {
        match alg {
            Alg::Sha1 => self.sha1 = None,
            Alg::Sha256 => self.sha256 = None,
            Alg::Sha384 => self.sha384 = None,
            Alg::Sha512 => self.sha512 = None,
        }
        self
    }

    /// The banks of these algorithms, without the others: an extend then costs none of their hashes.
    pub fn keep(self, algs: AlgSet) -> Self
        ensures active { (a : Alg) → is_active result a ≡ (has_alg algs a && is_active self a) }
        ensures values { (a : Alg) (r : ℕ) → value_at result a r ≡ (if has_alg algs a then value_at self a r else None) }
    {
        Banks {
            sha1: keep_bank(self.sha1, algs.has(Alg::Sha1)),
            sha256: keep_bank(self.sha256, algs.has(Alg::Sha256)),
            sha384: keep_bank(self.sha384, algs.has(Alg::Sha384)),
            sha512: keep_bank(self.sha512, algs.has(Alg::Sha512)),
        }
    }

    /// Extends a register in each active bank for which there is a digest: the new value is the hash of the old value followed by
    /// the digest (TPM 2.0 Library, part 1, 'Extend of a PCR'). Nothing else changes.
    pub fn extend(&mut self, register: u32, digests: &PerBank)
        requires { register < register_count }
        ensures { Extends self.old self.new register digests.now }
    {
        let index = register as usize;
        extend_bank(Alg::Sha1, &mut self.sha1, index, &digests.sha1);
        extend_bank(Alg::Sha256, &mut self.sha256, index, &digests.sha256);
        extend_bank(Alg::Sha384, &mut self.sha384, index, &digests.sha384);
        extend_bank(Alg::Sha512, &mut self.sha512, index, &digests.sha512);
    }
}

// A bank after a startup from the locality; `None` if it is not active.
fn reset_bank<const N: usize>(active: bool, locality: u8) -> Option<Bank<N>>
    requires { 0 < N }
    ensures active { is_some result ≡ active }
    ensures values { (r : ℕ) → in_bank result r
        ≡ (if active && nat_lt r register_count then Some (reset_bytes N r locality) else None) }
{
    if active {
        Some(reset_registers(locality))
    } else {
        None
    }
}

// The bank, if it is kept.
fn keep_bank<const N: usize>(bank: Option<Bank<N>>, kept: bool) -> Option<Bank<N>>
    ensures active { is_some result ≡ (kept && is_some bank.entry) }
    ensures values { (r : ℕ) → in_bank result r ≡ (if kept then in_bank bank.entry r else None) }
{
    if kept { bank } else { None }
}

// The registers of a bank after a startup from the locality.
fn reset_registers<const N: usize>(locality: u8) -> Bank<N>
    requires { 0 < N }
    ensures { (r : ℕ) → r < register_count → slice_get result r ≡ Some (reset_bytes N r locality) }
{
    let mut registers = [[0x00; N]; PLACES];
    for register in 0..PLACES {
        registers[register] = reset_register(register, locality);
    }
    registers
}

// A register after a startup from the locality.
fn reset_register<const N: usize>(register: usize, locality: u8) -> [u8; N]
    requires { 0 < N }
    ensures { result ≡ reset_bytes N register locality }
{
    match register {
        0 => {
            let mut value = [0x00; N];
            value[N - 1] = locality;
            value
        }
        17..=22 => [0xFF; N],
        _ => [0x00; N],
    }
}

// The value of a register, or `None` if the bank is not active or has no such register.
fn value_in<const N: usize>(bank: &Option<Bank<N>>, index: usize) -> Option<[u8; N]>
    ensures value { result ≡ in_bank bank.now index }
    ensures found { IsSome bank.now → index < register_count → IsSome result }
{
    match bank {
        Some(registers) => registers.get(index).copied(),
        None => None,
    }
}

// Puts a value into a register, if there are both a bank and such a register.
fn set_register<const N: usize>(bank: &mut Option<Bank<N>>, index: usize, value: &[u8; N])
    ensures active { is_some bank.new ≡ is_some bank.old }
    ensures values { (r : ℕ) → in_bank bank.new r
        ≡ (if r == index then option_map (λ _. value.now) (in_bank bank.old r) else in_bank bank.old r) }
{
    if let Some(registers) = bank
        && index < PLACES
    {
        registers[index] = *value;
    }
}

// Extends a register of the algorithm's bank if there are both a bank and a digest.
#[tactic(auto, using(crate::proofs::PlaceLaws::extends_none))]
fn extend_bank<const N: usize>(
    alg: Alg,
    bank: &mut Option<Bank<N>>,
    index: usize,
    digest: &Option<[u8; N]>,
)
    requires sized { N ≡ size_of alg }
    requires register { index < register_count }
    ensures { ExtendsBank alg bank.old bank.new index digest.now }
{
    if let (Some(registers), Some(digest)) = (bank, digest) {
        extend_registers(alg, registers, index, digest);
    }
}

// Extends a register of the algorithm's bank by a digest.
fn extend_registers<const N: usize>(
    alg: Alg,
    registers: &mut Bank<N>,
    index: usize,
    digest: &[u8; N],
)
    requires sized { N ≡ size_of alg }
    requires register { index < register_count }
    ensures { ExtendsBank alg (Some registers.old) (Some registers.new) index (Some digest.now) }
{
    extend_register(alg, &mut registers[index], digest);
}

// Extends a register by a digest.
fn extend_register<const N: usize>(alg: Alg, value: &mut [u8; N], digest: &[u8; N])
    requires { N ≡ size_of alg }
    ensures { value.new ≡ extended_value alg value.old digest.now }
{
    let mut hasher = Hasher::new(alg);
    hasher.update(value);
    hasher.update(digest);
    value.copy_from_slice(hasher.finish().bytes());
}
