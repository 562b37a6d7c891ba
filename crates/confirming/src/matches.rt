//! The registers that have their expected values after a log.

ghost use Rattle.std.specs.Prelude.{◌≡◌, ◌↔◌, List, ℕ, option_map, IfOk, IfErr};
ghost use Rattle.std.specs.List.{Contains};
ghost use Rattle.boot_verdict.specs.Names.{ReadsAsLog};
ghost use Rattle.boot_log.specs.declared.header.DeclaredAlgorithm.{DeclaredAlgorithm};
ghost use Rattle.boot_log.specs.Names.{IsLog, LogEvent, algs_in, log_bytes};
ghost use Rattle.pcr_banks.specs.Names.{value_at};
ghost use Rattle.measured_data.specs.declared.confirmed.Pcr.{Pcr};
ghost use Rattle.judging.specs.Requests.{location_of};
ghost use Rattle.confirming.specs.Matching.{AreMatched, AreNotExpected, AreNotStated, ByExpected, IsLogFaultOf, IsMatched, MatchIn, counts, has_value, is_refuted, matched_among, matched_places, place_of, refutes};

use crate::confirmation::{DONE, Matched};
use agent_inputs::{AgentFiles, RunFault};
use boot_log::LogView;
use judging::{Input, load_at};
use measured_data::Pcr;
use pcr_banks::{Alg, Banks};
use pcr_values::{Expected, read_expected};
use std::alloc::{AllocError, Global};

/// Those that have their values after the log in these bytes, of the registers that are expected by this text.
pub(crate) fn expected_in<F: AgentFiles>(
    alloc: Global,
    files: &mut F,
    log: &[u8],
    text: Input<'_>,
) -> Result<Matched, RunFault>
    ensures matched { IfOk result (λ matched. AreMatched (F.inputs files.old) (ByExpected (location_of text.entry)) log.now
        (option_map (λ places. places.items) matched.places) matched.status) }
    ensures known { IfOk result (λ _. ReadsAsLog log.now) }
    ensures fault { IfErr result (AreNotExpected (F.inputs files.old) (location_of text.entry) log.now) }
    ensures inputs { F.inputs files.new ≡ F.inputs files.old }
    ensures replaced { F.replaced files.new ≡ F.replaced files.old }
{
    let held = load_at(alloc, files, text)?;
    let places = stated_in(alloc, log, held.bytes())?;
    Ok(Matched {
        places: Some(places),
        status: DONE,
    })
}

// Those of the registers that this text states.
fn stated_in(alloc: Global, log: &[u8], text: &[u8]) -> Result<Vec<Pcr>, RunFault>
    ensures matched { IfOk result (λ places. MatchIn log.now text.now places.items) }
    ensures known { IfOk result (λ _. ReadsAsLog log.now) }
    ensures fault { IfErr result (AreNotStated log.now text.now) }
{
    let expected = read_expected(alloc, text)?;
    places_in(alloc, log, &expected)
}

// Those of the expected registers that match after the log in these bytes.
fn places_in(alloc: Global, log: &[u8], expected: &[Expected]) -> Result<Vec<Pcr>, RunFault>
    ensures matched { IfOk result (λ places. (table : List DeclaredAlgorithm) × (events : List LogEvent) × IsLog log.now table events
        × (places.items ≡ matched_places (algs_in table) events expected.now)) }
    ensures fault { IfErr result (IsLogFaultOf log.now) }
{
    let view = LogView::new(log)?;
    Ok(matched_places(alloc, &view, expected)?)
}

/// Those of the expected registers that match, in their order: after the log's events, before any list, they have their expected values,
/// and so has each bank other than SHA-1 in which a value is expected of the register. A register that no event extends has its reset
/// value; one that the log has not never matches. Fails only if memory runs out.
pub(crate) fn matched_places(
    alloc: Global,
    log: &LogView<'_>,
    expected: &[Expected],
) -> Result<Vec<Pcr>, AllocError>
    ensures places { IfOk result (λ places. (table : List DeclaredAlgorithm) (events : List LogEvent) → IsLog (log_bytes log.now) table events
        → places.items ≡ matched_places (algs_in table) events expected.now) }
    // Exactly these are among them.
    ensures each { IfOk result (λ places. (table : List DeclaredAlgorithm) (events : List LogEvent) (place : Pcr) → IsLog (log_bytes log.now) table events
        → Contains places.items place ↔ IsMatched (algs_in table) events expected.now place) }
{
    let registers = log.registers();
    let places = matched_among(alloc, &registers, expected)?;
    Ok(places)
}

// Those of the expected registers that count where these are the registers.
fn matched_among(
    alloc: Global,
    registers: &Banks,
    expected: &[Expected],
) -> Result<Vec<Pcr>, AllocError>
    ensures { IfOk result (λ places. places.items ≡ matched_among (value_at registers.now) expected.now expected.now) }
{
    let mut places = Vec::new(alloc);
    for row in expected {
        if counts(registers, expected, row) {
            places.push(place_of(row))?;
        }
    }
    Ok(places)
}

// Whether the register has its expected value in its bank, and no other bank refutes it.
fn counts(registers: &Banks, expected: &[Expected], row: &Expected) -> bool
    ensures { result ≡ counts (value_at registers.now) expected.now row.now }
{
    has_value(registers, row) && !is_refuted(registers, expected, row.register)
}

// Whether a bank other than SHA-1 has another value of the register than is expected.
fn is_refuted(registers: &Banks, expected: &[Expected], register: u32) -> bool
    ensures { result ≡ is_refuted (value_at registers.now) expected.now register }
{
    expected.iter().any(|row| refutes(registers, register, row))
}

fn refutes(registers: &Banks, register: u32, expected: &Expected) -> bool
    ensures { result ≡ refutes (value_at registers.now) register expected.now }
{
    expected.alg != Alg::Sha1 && expected.register == register && !has_value(registers, expected)
}

// Whether the register has its expected value in these banks.
fn has_value(registers: &Banks, expected: &Expected) -> bool
    ensures { result ≡ has_value (value_at registers.now) expected.now }
{
    registers.read(expected.alg, expected.register) == Some(expected.value)
}

// The register that is expected to have a value.
fn place_of(expected: &Expected) -> Pcr
    ensures { result ≡ place_of expected.now }
{
    Pcr {
        alg: expected.alg,
        register: expected.register,
    }
}
