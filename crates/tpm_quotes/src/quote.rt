//! The message of a quote.

ghost use Rattle.std.specs.Prelude.{◌≡◌, ℕ, List, map, Some, Ok, option_map, IfOk, IfErr};
ghost use Rattle.byte_fields.specs.Reading.{Reads};
ghost use Rattle.pcr_banks.specs.declared.alg.Alg.{Alg};
ghost use Rattle.pcr_banks.specs.Names.{HasTaken, bytes_of, digest_of, hash_of, value_at};
ghost use Rattle.tpm_quotes.specs.Spelling.{IsQuote, TpmQuote, digest_with, quote_of, selected, selected_in, selection_of};
ghost use Rattle.tpm_quotes.specs.Quoting.{Values, joined};
ghost use Rattle.tpm_quotes.specs.parts.Hashing.{Takes};
ghost use Rattle.tpm_quotes.specs.Reading.{clock, digest, flag, origin, quote, quote_fault, quote_in, sized, times};

use crate::fault::QuoteFault;
use crate::selection::{QuotedSelection, Selections, selections_at};
use byte_fields::{big_endian_u16_at, big_endian_u32_at, big_endian_u64_at, part_at, u8_at};
use pcr_banks::{Alg, Banks, Digest, Hasher, REGISTERS};

/// What a quote begins with: `TPM_GENERATED_VALUE`, with which a restricted key signs only what its TPM made, and
/// `TPM_ST_ATTEST_QUOTE`.
const HEAD: &[u8] = &[0xFF, 0x54, 0x43, 0x47, 0x80, 0x18];

/// A TPM's clock and its counts when it signed (TPM 2.0 Library, part 2, TPMS_CLOCK_INFO). By a key that is neither in the endorsement nor in
/// the platform hierarchy a TPM adds to resets, restarts and the version of the firmware what hides them, the same each time (part 3,
/// 'Attestation Commands'): only differences between two quotes by one key say something.
#[derive(Clone, Copy)]
pub struct Clock {
    /// For how many milliseconds the TPM has had power since it was last cleared.
    pub milliseconds: u64,
    /// How often the TPM was reset since it was last cleared: each boot is one.
    pub resets: u32,
    /// How often it was restarted or resumed since the last reset.
    pub restarts: u32,
    /// Whether the TPM never had a greater value of the clock.
    pub is_safe: bool,
}

/// What a quote states. All slices are borrowed from its bytes.
#[derive(Drop)]
pub struct Quote<'a> {
    /// The qualified name of the key that signs it.
    pub signer: &'a [u8],
    /// The verifier's nonce.
    pub nonce: &'a [u8],
    /// The TPM's clock, and its counts of resets and restarts.
    pub clock: Clock,
    /// The version of the TPM's firmware, as its maker numbers it.
    pub firmware: u64,
    /// Which registers it selects.
    pub(crate) selections: Selections<'a>,
    /// The digest of their values.
    pub digest: Digest,
}

/// Values of registers, bank by bank.
pub trait RegisterValues {
    ghost values: { Self → Values };

    /// The value of a register of the bank of this algorithm, if there is one.
    fn value_of(&self, alg: Alg, register: u32) -> Option<Digest>
        ensures { option_map bytes_of result ≡ values self.now alg register };
}

impl RegisterValues for Banks {
    ghost values = { value_at };

    fn value_of(&self, alg: Alg, register: u32) -> Option<Digest> {
        self.read(alg, register)
    }
}

/// Reads a quote: the message that a TPM signs, to its last byte. Returns the first fault from left to right.
pub fn read_quote(bytes: &[u8]) -> Result<Quote<'_>, QuoteFault>
    // `Ok` only if the bytes are a quote, and state this.
    ensures found { IfOk result (λ quote. IsQuote bytes.now (quote_of quote)) }
    // Every quote is read.
    ensures only { (quote : TpmQuote) → IsQuote bytes.now quote → Reads quote_of result (Ok quote) }
    ensures fault { IfErr result (λ fault. quote_fault bytes.now ≡ Some fault) }
{
    quote_in(bytes)
}

// Reads all of the bytes.
#[tactic(auto, unfolding(crate::specs::Reading::quote_in))]
fn quote_in(bytes: &[u8]) -> Result<Quote<'_>, QuoteFault>
    ensures { Reads quote_of result (quote_in bytes.now) }
{
    let (quote, rest) = quote_at(bytes)?;
    if !rest.is_empty() {
        return Err(QuoteFault::Trailing);
    }
    Ok(quote)
}

// Reads a quote. Returns it and the remaining bytes.
#[tactic(auto, unfolding(crate::specs::Reading::quote))]
fn quote_at(bytes: &[u8]) -> Result<(Quote<'_>, &[u8]), QuoteFault>
    ensures { Reads (λ x. (quote_of x.0, x.1.now)) result (quote.at bytes.now) }
{
    let ((signer, nonce), rest) = origin_at(bytes)?;
    let ((clock, firmware), rest) = times_at(rest)?;
    let (selections, rest) = selections_at(rest)?;
    let (digest, rest) = digest_at(rest)?;
    let quote = Quote {
        signer,
        nonce,
        clock,
        firmware,
        selections,
        digest,
    };
    Ok((quote, rest))
}

// Reads what a quote begins with, the signer and the nonce. Returns these two and the remaining bytes.
#[tactic(auto, unfolding(crate::specs::Reading::origin))]
fn origin_at(bytes: &[u8]) -> Result<((&[u8], &[u8]), &[u8]), QuoteFault>
    ensures { Reads (λ x. ((x.0.0.now, x.0.1.now), x.1.now)) result (origin.at bytes.now) }
{
    let (head, rest) = part_at(QuoteFault::Truncated, 6, bytes)?;
    if head != HEAD {
        return Err(QuoteFault::NotQuote);
    }
    let (signer, rest) = sized_at(rest)?;
    let (nonce, rest) = sized_at(rest)?;
    Ok(((signer, nonce), rest))
}

// Reads the clock and the version of the firmware. Returns them and the remaining bytes.
#[tactic(auto, unfolding(crate::specs::Reading::times))]
fn times_at(bytes: &[u8]) -> Result<((Clock, u64), &[u8]), QuoteFault>
    ensures { Reads (λ x. (x.0, x.1.now)) result (times.at bytes.now) }
{
    let (clock, rest) = clock_at(bytes)?;
    let (firmware, rest) = big_endian_u64_at(QuoteFault::Truncated, rest)?;
    Ok(((clock, firmware), rest))
}

// Reads the clock. Returns it and the remaining bytes.
#[tactic(auto, unfolding(crate::specs::Reading::clock))]
fn clock_at(bytes: &[u8]) -> Result<(Clock, &[u8]), QuoteFault>
    ensures { Reads (λ x. (x.0, x.1.now)) result (clock.at bytes.now) }
{
    let (milliseconds, rest) = big_endian_u64_at(QuoteFault::Truncated, bytes)?;
    let (resets, rest) = big_endian_u32_at(QuoteFault::Truncated, rest)?;
    let (restarts, rest) = big_endian_u32_at(QuoteFault::Truncated, rest)?;
    let (is_safe, rest) = flag_at(rest)?;
    let clock = Clock {
        milliseconds,
        resets,
        restarts,
        is_safe,
    };
    Ok((clock, rest))
}

// Reads a flag. Returns it and the remaining bytes.
#[tactic(auto, unfolding(crate::specs::Reading::flag))]
fn flag_at(bytes: &[u8]) -> Result<(bool, &[u8]), QuoteFault>
    ensures { Reads (λ x. (x.0, x.1.now)) result (flag.at bytes.now) }
{
    let (byte, rest) = u8_at(QuoteFault::Truncated, bytes)?;
    match byte {
        0 => Ok((false, rest)),
        1 => Ok((true, rest)),
        _ => Err(QuoteFault::BadClock),
    }
}

// Reads bytes whose number stands before them, in two bytes. Returns them and the remaining bytes.
#[tactic(auto, unfolding(crate::specs::Reading::sized))]
fn sized_at(bytes: &[u8]) -> Result<(&[u8], &[u8]), QuoteFault>
    ensures { Reads (λ x. (x.0.now, x.1.now)) result (sized.at bytes.now) }
{
    let (size, rest) = big_endian_u16_at(QuoteFault::Truncated, bytes)?;
    part_at(QuoteFault::Truncated, size as usize, rest)
}

// Reads the digest. Returns it and the remaining bytes.
#[tactic(auto, unfolding(crate::specs::Reading::digest))]
fn digest_at(bytes: &[u8]) -> Result<(Digest, &[u8]), QuoteFault>
    ensures { Reads (λ x. (x.0, x.1.now)) result (digest.at bytes.now) }
{
    let (bytes, rest) = sized_at(bytes)?;
    let digest = digest_with(bytes).ok_or(QuoteFault::DigestSize)?;
    Ok((digest, rest))
}

// The digest with these bytes, whose number tells its algorithm.
fn digest_with(bytes: &[u8]) -> Option<Digest>
    ensures { result ≡ digest_with bytes.now }
{
    match bytes.len() {
        32 => Digest::from_bytes(Alg::Sha256, bytes),
        48 => Digest::from_bytes(Alg::Sha384, bytes),
        64 => Digest::from_bytes(Alg::Sha512, bytes),
        _ => None,
    }
}

impl Quote<'_> {
    ghost use Rattle.tpm_quotes.specs.Spelling.{selects};
    ghost use Rattle.tpm_quotes.specs.Quoting.{confirms};

    /// The registers that it selects, bank by bank.
    pub fn selections(&self) -> &[QuotedSelection<'_>]
        ensures { map selection_of result.now ≡ (quote_of self.now).selections }
    {
        &self.selections
    }

    /// Whether it selects the register of the bank of this algorithm.
    pub fn selects(&self, alg: Alg, register: u32) -> bool
        ensures { result ≡ selects (quote_of self.now).selections alg register }
    {
        self.selections.iter().any(|selection| selection.alg.tpm_id() == alg.tpm_id()
            && selection.selects(register))
    }

    /// Whether it is of these registers: each that it selects has a value, and the hash of the values, joined in its order, is its
    /// digest.
    pub fn is_of<V: RegisterValues>(&self, registers: &V) -> bool
        ensures { result ≡ confirms (quote_of self.now) (V.values registers.now) }
    {
        match hash_of(self.digest.alg(), &self.selections, registers) {
            Some(hash) => hash.bytes() == self.digest.bytes(),
            None => false,
        }
    }
}

// The hash of the values of the selected registers. `None` where one is missing.
fn hash_of<V: RegisterValues>(
    alg: Alg,
    selections: &[QuotedSelection],
    registers: &V,
) -> Option<Digest>
    ensures { result ≡ option_map (λ bytes. digest_of alg (hash_of alg bytes))
        (joined (V.values registers.now) (selected (map selection_of selections.now))) }
{
    let mut hasher = Hasher::new(alg);
    for selection in selections {
        hash_selected(&mut hasher, selection, registers)?;
    }
    Some(hasher.finish())
}

// Hashes the values of the selected registers of a bank. `None` where one is missing.
fn hash_selected<V: RegisterValues>(
    hasher: &mut Hasher,
    selection: &QuotedSelection,
    registers: &V,
) -> Option<()>
    ensures { (alg : Alg) (taken : List ℕ) → HasTaken hasher.old alg taken
        → Takes result hasher.new alg taken (joined (V.values registers.now) (selected_in (selection_of selection.now))) }
{
    for register in 0..REGISTERS {
        if selection.selects(register) {
            hasher.update(registers.value_of(selection.alg, register)?.bytes());
        }
    }
    Some(())
}
