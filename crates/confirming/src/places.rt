//! Registers of banks, one by one, as a text: written, and read back.

ghost use Rattle.std.specs.Prelude.{◌≡◌, ◌<◌, ◌⊎◌, ◌++◌, ℕ, List, decimal, option_map, IfErr, IfNone, IfOk, IfSome, OnOk};
ghost use Rattle.std.specs.Str.{bytes_eq};
ghost use Rattle.agent_inputs.specs.declared.fault.RunFault.TheVariants.{Memory, Usage};
ghost use Rattle.measured_data.specs.declared.confirmed.Pcr.{Pcr as APcr};
ghost use Rattle.pcr_banks.specs.Names.{register_count};
ghost use Rattle.confirming.specs.Places.{IsFirstPart, SpellsPlaces, matching_text, place_text};

use agent_inputs::RunFault;
use itoa::Buffer;
use measured_data::Pcr;
use pcr_banks::{Alg, REGISTERS};
use pcr_values::split_once;
use std::alloc::{AllocError, Global};

/// The text of these registers, in their order, as in `sha256:0,sha256:1,sha1:4`; no bytes for none. It selects them one by one, and
/// [`read_matching`] reads it back ([`crate::laws`]). Fails only if memory runs out.
pub fn write_matching(alloc: Global, places: &[Pcr]) -> Result<Vec<u8>, AllocError>
    ensures { IfOk result (λ text. text.items ≡ matching_text places.now) }
{
    let mut text = Vec::new(alloc);
    let [first, others @ ..] = places else {
        return Ok(text);
    };
    append_place(first, &mut text)?;
    for place in others {
        text.push(b',')?;
        append_place(place, &mut text)?;
    }
    Ok(text)
}

// Appends the text of a register.
fn append_place(place: &Pcr, text: &mut Vec<u8>) -> Result<(), AllocError>
    ensures { OnOk result (text.new.items ≡ text.old.items ++ place_text place.now) }
{
    let mut number = Buffer::new();
    text.extend_from_slice(place.alg.name().as_bytes())?;
    text.push(b':')?;
    text.extend_from_slice(number.format(place.register).as_bytes())?;
    Ok(())
}

/// The registers that the text spells, as [`write_matching`] writes them; none if it has no bytes. Each register is 0 to 23, and may come more
/// than once. Fails with [`RunFault::Usage`] if the text spells none so, and with [`RunFault::Memory`] if memory runs out.
pub fn read_matching(alloc: Global, text: &[u8]) -> Result<Vec<Pcr>, RunFault>
    ensures found { IfOk result (λ places. SpellsPlaces text.now places.items) }
    ensures fault { IfErr result (λ fault. (fault ≡ Memory)
        ⊎ ((fault ≡ Usage) × ((places : List APcr) → SpellsPlaces text.now places → ⊥))) }
{
    let mut places = Vec::new(alloc);
    if text.is_empty() {
        return Ok(places);
    }
    let mut rest = Some(text);
    while let Some(left) = rest {
        let (part, after) = part_at(left);
        let Some(place) = place_named(part) else {
            return Err(RunFault::Usage);
        };
        places.push(place)?;
        rest = after;
    }
    Ok(places)
}

// The first part, before the first comma, and the text after that, if there is one.
fn part_at(text: &[u8]) -> (&[u8], Option<&[u8]>)
    ensures { IsFirstPart text.now result.0.now (option_map (λ rest. rest.now) result.1) }
{
    match split_once(b',', text) {
        Some((part, rest)) => (part, Some(rest)),
        None => (text, None),
    }
}

// The register of a bank that this part spells.
fn place_named(text: &[u8]) -> Option<Pcr>
    ensures found { IfSome result (λ place. (place.register < register_count) × (text.now ≡ place_text place)) }
    ensures none { IfNone result ((place : APcr) → place.register < register_count → text.now ≡ place_text place → ⊥) }
{
    let Some((name, number)) = split_once(b':', text) else {
        return None;
    };
    let alg = Alg::from_name(name)?;
    let register = register_named(number)?;
    Some(Pcr { alg, register })
}

// The register whose number in decimal is this text.
fn register_named(text: &[u8]) -> Option<u32>
    ensures found { IfSome result (λ register. (register < register_count) × (text.now ≡ decimal register)) }
    ensures none { IfNone result ((register : ℕ) → register < register_count → text.now ≡ decimal register → ⊥) }
{
    for register in 0..REGISTERS {
        if is_decimal_of(register, text) {
            return Some(register);
        }
    }
    None
}

// Whether the text is this number in decimal.
fn is_decimal_of(number: u32, text: &[u8]) -> bool
    ensures { result ≡ bytes_eq (decimal number) text.now }
{
    Buffer::new().format(number).as_bytes() == text
}
