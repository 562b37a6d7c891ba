//! The lines that tpm2_pcrread prints.

ghost use Rattle.std.specs.Prelude.{◌≡◌, ◌<◌, ℕ, List, ◌++◌, option_map, IfSome, IfNone};
ghost use Rattle.std.specs.List.{list_all};
ghost use Rattle.pcr_banks.specs.Names.{name_of, register_count};
ghost use Rattle.pcr_values.specs.declared.expected.Expected.{Expected};
ghost use Rattle.pcr_values.specs.PcrReadTexts.{IsBankLine, IsValueLine, Position, Says, is_name_byte, two_columns};

use crate::expected::{Expected, LinePosition};
use crate::text_lines::{after_prefix, before_suffix, register_named};
use pcr_banks::{Alg, Digest};

/// A position between lines: in the bank of this name, or before the first bank line.
#[derive(Clone, Copy)]
pub(crate) struct InBank<'a> {
    pub(crate) name: Option<&'a [u8]>,
}

impl<'a> LinePosition<'a> for InBank<'a> {
    ghost Value = { Position };

    ghost value = { λ bank. option_map (λ name. name.now) bank.name };

    ghost says = { Says };

    fn after(self, line: &'a [u8]) -> Option<(InBank<'a>, Option<Expected>)> {
        if line.is_empty() {
            return Some((self, None));
        }
        if let Some(name) = bank_on(line) {
            return Some((InBank { name: Some(name) }, None));
        }
        let stated = match Alg::from_name(self.name?) {
            Some(alg) => Some(value_on(alg, line)?),
            None => {
                after_prefix(b"    ", line)?;
                None
            }
        };
        Some((self, stated))
    }
}

// The name of the bank that the line begins, if it begins one.
fn bank_on(line: &[u8]) -> Option<&[u8]>
    ensures found { IfSome result (λ name. IsBankLine line.now name.now) }
    ensures none { IfNone result ((name : List ℕ) → IsBankLine line.now name → ⊥) }
{
    let rest = after_prefix(b"  ", line)?;
    let name = before_suffix(b":", rest)?;
    (!name.is_empty() && is_name(name)).then_some(name)
}

// Whether all bytes are those of a bank's name.
fn is_name(text: &[u8]) -> bool
    ensures { result ≡ list_all is_name_byte text.now }
{
    text.iter()
        .all(|byte| byte.is_ascii_alphanumeric() || *byte == b'_')
}

// The register of this algorithm's bank to which the line gives a value, if it does.
fn value_on(alg: Alg, line: &[u8]) -> Option<Expected>
    ensures found { IfSome result (IsValueLine (name_of alg) line.now) }
    ensures none { IfNone result ((e : Expected) → IsValueLine (name_of alg) line.now e → ⊥) }
{
    let text = after_prefix(b"    ", line)?;
    let (register, rest) = columns_at(text)?;
    let digits = after_prefix(b": 0x", rest)?;
    let value = Digest::from_hex(alg, digits)?;
    Some(Expected {
        alg,
        register,
        value,
    })
}

// The register below 24 whose number stands in the first two columns of this text, and the text after them.
fn columns_at(text: &[u8]) -> Option<(u32, &[u8])>
    ensures found { IfSome result (λ x. (x.0 < register_count) × (text.now ≡ two_columns x.0 ++ x.1.now)) }
    ensures none { IfNone result ((register : ℕ) (rest : List ℕ)
        → register < register_count → text.now ≡ two_columns register ++ rest → ⊥) }
{
    let (number, rest) = text.split_at_checked(2)?;
    let register = register_named(before_suffix(b" ", number).unwrap_or(number))?;
    Some((register, rest))
}
