//! Laws: consequences of the definitions, each the contract of a function that does nothing, or only reads.

ghost use Rattle.std.specs.Prelude.{◌≡◌, ◌↔◌, ℕ, ◌<◌, Bool, List, length, count_by, Some, is_some, IsTrue, IsSome, IfSome};
ghost use Rattle.std.specs.List.{list_all, list_any};
ghost use Rattle.std.specs.Option.{ForSome};
ghost use Rattle.hex.specs.Hex.{IsBytes};
ghost use Rattle.pcr_banks.specs.declared.alg.Alg.{Alg};
ghost use Rattle.pcr_banks.specs.declared.alg.TheConstants.Alg.{ALL};
ghost use Rattle.pcr_banks.specs.declared.sets.AlgSet.{AlgSet};
ghost use Rattle.pcr_banks.specs.declared.sets.PerBank.{PerBank};
ghost use Rattle.pcr_banks.specs.Hashing.{all_algs, same_alg, size_of};
ghost use Rattle.pcr_banks.specs.Digests.{alg_of, bytes_of};
ghost use Rattle.pcr_banks.specs.Sets.{has_alg, digest_for};
ghost use Rattle.pcr_banks.specs.Registers.{in_bank, is_active, register_count, value_at};

use crate::banks::Bank;
use crate::{Alg, Banks, Digest, REGISTERS};

/// [`Alg::ALL`](crate::Alg::ALL) is `all_algs`, which lists each algorithm once. A test passes for every algorithm if and only
/// if it passes for all of the list, and for some algorithm if and only if it passes for one of the list.
pub fn each_alg_once()
    ensures listed { ALL ≡ all_algs }
    ensures once { (alg : Alg) → count_by (same_alg alg) all_algs ≡ 1 }
    ensures every { (test : Alg → Bool) → IsTrue (list_all test all_algs) ↔ ((alg : Alg) → IsTrue (test alg)) }
    ensures some { (test : Alg → Bool) → IsTrue (list_any test all_algs) ↔ ((alg : Alg) × IsTrue (test alg)) }
{}

/// `same_alg`, which compares identifiers, is equality.
pub fn same_alg_is_equality()
    ensures { (a b : Alg) → IsTrue (same_alg a b) ↔ (a ≡ b) }
{}

/// Two [`AlgSet`](crate::AlgSet)s with the same algorithms are equal, and so are two [`PerBank`](crate::PerBank)s with the same
/// digest for each algorithm.
pub fn sets_are_what_they_have()
    ensures sets { (first second : AlgSet) → ((a : Alg) → has_alg first a ≡ has_alg second a) → first ≡ second }
    ensures digests { (first second : PerBank)
        → ((a : Alg) → digest_for first a ≡ digest_for second a) → first ≡ second }
{}

/// Two [`Banks`](crate::Banks) with the same active algorithms and the same value in each register are equal.
pub fn banks_are_what_they_hold(first: &Banks, second: &Banks)
    ensures { ((a : Alg) → is_active first.now a ≡ is_active second.now a)
        → ((a : Alg) (r : ℕ) → value_at first.now a r ≡ value_at second.now a r) → first.now ≡ second.now }
{
    bank_is_what_it_holds(&first.sha1, &second.sha1);
    bank_is_what_it_holds(&first.sha256, &second.sha256);
    bank_is_what_it_holds(&first.sha384, &second.sha384);
    bank_is_what_it_holds(&first.sha512, &second.sha512);
}

// As `banks_are_what_they_hold`, for one bank.
fn bank_is_what_it_holds<const N: usize>(first: &Option<Bank<N>>, second: &Option<Bank<N>>)
    ensures { is_some first.now ≡ is_some second.now → ((r : ℕ) → in_bank first.now r ≡ in_bank second.now r)
        → first.now ≡ second.now }
{
    if let (Some(first), Some(second)) = (first, second) {
        registers_are_what_they_hold(first, second);
    }
}

// As `banks_are_what_they_hold`, for the registers of one bank.
fn registers_are_what_they_hold<const N: usize>(first: &Bank<N>, second: &Bank<N>)
    ensures { ((r : ℕ) → in_bank (Some first.now) r ≡ in_bank (Some second.now) r) → first.now ≡ second.now }
{}

/// If a register has a value, the value is as long as a hash of its bank's algorithm.
pub fn register_has_the_size_of_a_hash(banks: &Banks, alg: Alg, register: u32)
    ensures { ForSome (value_at banks.now alg register) (λ value. length value ≡ size_of alg) }
{
    if let Some(value) = banks.read(alg, register) {
        let _ = value.bytes();
    }
}

/// Each register of an active bank has a value: bytes, as many as a hash of the bank's algorithm has.
pub fn registers_have_hashes(banks: &Banks)
    ensures whole { (alg : Alg) (register : ℕ) → IsTrue (is_active banks.now alg) → register < register_count
        → IsSome (value_at banks.now alg register) }
    ensures hashes { (alg : Alg) (register : ℕ) → IfSome (value_at banks.now alg register)
        (λ value. (length value ≡ size_of alg) × IsBytes value) }
{
    bank_has_hashes(banks, Alg::Sha1);
    bank_has_hashes(banks, Alg::Sha256);
    bank_has_hashes(banks, Alg::Sha384);
    bank_has_hashes(banks, Alg::Sha512);
}

// As `registers_have_hashes`, for one bank.
fn bank_has_hashes(banks: &Banks, alg: Alg)
    ensures whole { (register : ℕ) → register < register_count → IsTrue (is_active banks.now alg)
        → IsSome (value_at banks.now alg register) }
    ensures hashes { (register : ℕ) → IfSome (value_at banks.now alg register)
        (λ value. (length value ≡ size_of alg) × IsBytes value) }
{
    for register in 0..REGISTERS {
        register_has_a_hash(banks, alg, register);
    }
}

// As `registers_have_hashes`, for one register.
fn register_has_a_hash(banks: &Banks, alg: Alg, index: u32)
    ensures whole { IsTrue (is_active banks.now alg) → index < register_count → IsSome (value_at banks.now alg index) }
    ensures hash { IfSome (value_at banks.now alg index) (λ value. (length value ≡ size_of alg) × IsBytes value) }
{
    if let Some(value) = banks.read(alg, index) {
        digest_is_a_hash(&value);
    }
}

/// A digest has bytes, as many as a hash of its algorithm.
pub fn digest_is_a_hash(digest: &Digest)
    ensures size { length (bytes_of digest.now) ≡ size_of (alg_of digest.now) }
    ensures bytes { IsBytes (bytes_of digest.now) }
{
    are_bytes(digest.bytes());
}

// Bytes are below 256.
fn are_bytes(bytes: &[u8])
    ensures { IsBytes bytes.now }
{}
