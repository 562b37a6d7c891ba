//! The numbers of a verdict, for a caller in C that does not read the text.

ghost use Rattle.std.specs.Prelude.{◌≡◌};
ghost use Rattle.ima_verify_c.specs.Numbers.{alg_number, bank_number, filled, numbers_if, numbers_of, outcome_number, pcr_number, reason_number};

use pcr_banks::Alg;
use rendering::{Outcome, Reason, Summary};

/// Writes the numbers of the summary if the texts fit, otherwise those of no verdict, over the caller's numbers but for the first.
pub(crate) fn fill_if(fits: bool, summary: Summary, numbers: &mut [u64])
    ensures { numbers.new ≡ numbers_if fits summary numbers.old }
{
    fill(if fits { summary } else { Summary::none() }, numbers);
}

/// Writes the numbers of the summary over the caller's numbers but for the first, and 0 over those that are further on.
pub(crate) fn fill(summary: Summary, numbers: &mut [u64])
    ensures { numbers.new ≡ filled (numbers_of summary) numbers.old }
{
    if numbers.is_empty() {
        return;
    }
    let all = numbers_of(summary);
    let end = numbers.len().min(all.len() + 1);
    numbers[1..end].copy_from_slice(&all[..end - 1]);
    numbers[end..].fill(0);
}

// The numbers of the summary, in the order of the caller's struct.
fn numbers_of(summary: Summary) -> [u64; 10]
    ensures { result ≡ numbers_of summary }
{
    [
        outcome_number(summary.verdict),
        reason_number(summary.reason),
        summary.compared as u64,
        summary.matching as u64,
        bank_number(summary.first),
        pcr_number(summary.first),
        summary.missing as u64,
        summary.entries as u64,
        summary.judged as u64,
        summary.unknown as u64,
    ]
}

fn outcome_number(verdict: Outcome) -> u64
    ensures { result ≡ outcome_number verdict }
{
    match verdict {
        Outcome::NoVerdict => 0,
        Outcome::Match => 1,
        Outcome::Differ => 2,
    }
}

fn reason_number(reason: Option<Reason>) -> u64
    ensures { result ≡ reason_number reason }
{
    match reason {
        None => 0,
        Some(Reason::SignatureNotChecked) => 1,
        Some(Reason::OtherValue) => 2,
        Some(Reason::NotExpected) => 3,
        Some(Reason::OtherQuote) => 4,
        Some(Reason::BootAggregate) => 5,
        Some(Reason::NotApart) => 6,
        Some(Reason::UnknownFile) => 7,
        Some(Reason::NothingCompared) => 8,
    }
}

// The bank of a PCR; 0 without one.
fn bank_number(pcr: Option<(Alg, u32)>) -> u64
    ensures { result ≡ bank_number pcr }
{
    match pcr {
        None => 0,
        Some((alg, _)) => alg_number(alg),
    }
}

fn alg_number(alg: Alg) -> u64
    ensures { result ≡ alg_number alg }
{
    match alg {
        Alg::Sha1 => 1,
        Alg::Sha256 => 2,
        Alg::Sha384 => 3,
        Alg::Sha512 => 4,
    }
}

// The number of a PCR; 2^64 - 1 without one.
fn pcr_number(pcr: Option<(Alg, u32)>) -> u64
    ensures { result ≡ pcr_number pcr }
{
    match pcr {
        None => u64::MAX,
        Some((_, register)) => u64::from(register),
    }
}
