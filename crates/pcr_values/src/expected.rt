//! Expected registers, read from the lines of a text, whatever the form of the lines.

ghost use Rattle.std.specs.Prelude.{◌≡◌, ◌⊎◌, List, IfSome, IfNone, IfOk, IfErr, IsErrOf, ℕ, false, ◌∷◌, ◌++◌, [], Option, IsTrue, OnOk};
ghost use Rattle.std.specs.List.{list_any};
ghost use Rattle.pcr_values.specs.declared.expected.Expected.{Expected};
ghost use Rattle.pcr_values.specs.declared.expected.ExpectFault.TheVariants.{Memory, DoubleLine};
ghost use Rattle.pcr_values.specs.ExpectFaults.{expect_fault_number, expect_fault_line};
ghost use Rattle.pcr_values.specs.ExpectedTexts.{BeginsWithRegister, HasFirstFault, IsExpectedText, IsRegisterLine, Spells};
ghost use Rattle.pcr_values.specs.StatedRegisters.{AreStated, BeginsWithStated, HasFaultOfFirst, IsFaultOfLine, States, lines_of, same_register};
ghost use Rattle.pcr_values.specs.parts.StatedLines.{AddsStated, SaysOnce, StatesAnother};

use crate::text_lines::{line_at, register_named, split_once};
use pcr_banks::{Alg, Digest};
use std::alloc::{AllocError, AllocFailed, Global};
use thiserror::Error;

/// The value expected of one register in one bank.
#[derive(Clone, Copy, Debug, PartialEq, Eq)]
pub struct Expected {
    /// The bank.
    pub alg: Alg,
    /// The register, 0 to 23. A greater number names no register.
    pub register: u32,
    /// The value, a digest of the bank's algorithm. A digest of another algorithm never matches.
    pub value: Digest,
}

/// Why a text of expected registers was refused: the first wrong line, counted from 1, what it lacks, or out of memory. 4 to 6 are
/// faults of what tpm2-tools print alone.
#[derive(Clone, Copy, Debug, PartialEq, Eq, Error)]
pub enum ExpectFault {
    /// 1: the line is neither empty nor a register line; in what tpm2-tools print, nor one of the others that it may have.
    #[error("line {line}: it is not a register line")]
    BadLine { line: usize },
    /// 2: the line names a register of a bank that an earlier line names.
    #[error("line {line}: it names a register of a bank a second time")]
    DoubleLine { line: usize },
    /// 3: out of memory.
    #[error("out of memory")]
    Memory,
    /// 4: the text is what tpm2_quote printed on the machine, which nobody has checked.
    #[error("this is what tpm2_quote printed: its quote is not checked yet")]
    NotChecked,
    /// 5: the text begins as what tpm2_checkquote prints, and ends without the line of the signature.
    #[error("the line of the signature is missing")]
    NotSigned,
    /// 6: the text states no register.
    #[error("no register is stated, or none of those that are wanted")]
    NoRegister,
}

impl ExpectFault {
    /// The fault's number, from 1 to 6.
    pub fn number(self) -> u32
        ensures { result ≡ expect_fault_number self }
    {
        match self {
            ExpectFault::BadLine { .. } => 1,
            ExpectFault::DoubleLine { .. } => 2,
            ExpectFault::Memory => 3,
            ExpectFault::NotChecked => 4,
            ExpectFault::NotSigned => 5,
            ExpectFault::NoRegister => 6,
        }
    }

    /// The line at fault, if the fault names one: those from 3 on name none.
    pub fn line(self) -> Option<usize>
        ensures { result ≡ expect_fault_line self }
    {
        match self {
            ExpectFault::BadLine { line } | ExpectFault::DoubleLine { line } => Some(line),
            _ => None,
        }
    }
}

impl<T: Drop> From<AllocFailed<T>> for ExpectFault {
    ghost from_gives = { λ _ fault. fault ≡ Memory };

    fn from(_refused: AllocFailed<T>) -> ExpectFault {
        ExpectFault::Memory
    }
}

/// Reads expected registers, one per line: the algorithm's name, the register in decimal without leading zeros, and the value in
/// hexadecimal digits of either case, separated by single spaces, as in `sha256 4 f5a5..`.
///
/// The last line feed may be missing, one carriage return at a line's end is dropped, and empty lines are skipped.
/// [`crate::write_registers`] and [`crate::write_expected`] write lines of this form.
///
/// Fails with the fault of the first wrong line, or with [`ExpectFault::Memory`], which is possible only if the first line that
/// is not empty names a register.
pub fn read_expected(alloc: Global, text: &[u8]) -> Result<Vec<Expected>, ExpectFault>
    // The result is what the text states.
    ensures found { IfOk result (λ expected. IsExpectedText text.now expected.items) }
    // A text that states registers is read, unless memory runs out.
    ensures only { (expected : List Expected) → IsExpectedText text.now expected
        → IfErr result (λ fault. fault ≡ ExpectFault.Memory) }
    // Any other fault is that of the first wrong line.
    ensures fault { IfErr result (λ fault. (fault ≡ ExpectFault.Memory) ⊎ HasFirstFault text.now fault) }
    ensures memory { IsErrOf result ExpectFault.Memory → BeginsWithRegister text.now }
{
    match read_lines(alloc, Anywhere, text) {
        Ok((expected, _)) => Ok(expected),
        Err(fault) => Err(fault),
    }
}

// The only position of such a text: what a line says does not depend on the lines before it.
#[derive(Clone, Copy)]
struct Anywhere;

impl<'a> LinePosition<'a> for Anywhere {
    ghost Value = { Unit {0} };

    ghost value = { λ _. tt };

    ghost says = { Spells };

    fn after(self, line: &'a [u8]) -> Option<(Anywhere, Option<Expected>)> {
        if line.is_empty() {
            return Some((self, None));
        }
        Some((self, Some(register_on(line)?)))
    }
}

/// What the line expects, if it is a register line as [`read_expected`] has it, without its line end.
pub fn register_on(line: &[u8]) -> Option<Expected>
    ensures found { IfSome result (IsRegisterLine line.now) }
    ensures none { IfNone result ((e : Expected) → IsRegisterLine line.now e → ⊥) }
{
    let (name, rest) = split_once(b' ', line)?;
    let (number, digits) = split_once(b' ', rest)?;
    let alg = Alg::from_name(name)?;
    let register = register_named(number)?;
    let value = Digest::from_hex(alg, digits)?;
    Some(Expected {
        alg,
        register,
        value,
    })
}

/// A position in a text whose lines have one form: the beginning, or after a line.
pub(crate) trait LinePosition<'a>: Copy {
    // The position, as a value.
    ghost Value: { Type 0 };

    ghost value: { Self → Value };

    // What a line of this form says.
    ghost says: { Value → List ℕ → Value → Option Expected → Type 0 };

    /// The position after this line, and the register that the line states, if it may stand here.
    fn after(self, line: &'a [u8]) -> Option<(Self, Option<Expected>)>
        ensures found { IfSome result (λ said. says (value self) line.now (value said.0) said.1) }
        ensures none { IfNone result ((next : Value) (stated : Option Expected) → says (value self) line.now next stated → ⊥) };
}

/// Reads the registers that the lines of this text state, from the position where it begins to the one where it ends.
pub(crate) fn read_lines<'a, P: LinePosition<'a>>(
    alloc: Global,
    start: P,
    text: &'a [u8],
) -> Result<(Vec<Expected>, P), ExpectFault>
    ensures found { IfOk result (λ stated. AreStated P.says (P.value start) (lines_of text.now) (P.value stated.1) stated.0.items) }
    ensures only { SaysOnce P.says → (expected : List Expected) → States P.says (P.value start) text.now expected
        → IfErr result (λ fault. fault ≡ ExpectFault.Memory) }
    ensures fault { IfErr result (λ fault. (fault ≡ ExpectFault.Memory) ⊎ HasFaultOfFirst P.says (P.value start) text.now fault) }
    ensures memory { IsErrOf result ExpectFault.Memory → BeginsWithStated P.says (P.value start) text.now }
{
    let mut expected = Vec::new(alloc);
    let mut position = start;
    let mut rest = Some(text);
    let mut number = 0;
    while let Some(text) = rest {
        let (line, after) = line_at(text);
        number += 1;
        position = take_line(&mut expected, position, number, line)?;
        rest = after;
    }
    Ok((expected, position))
}

// Appends the register that this line at this position states, if it states one. `number` counts lines from 1. Returns the position after
// the line.
fn take_line<'a, P: LinePosition<'a>>(
    expected: &mut Vec<Expected>,
    position: P,
    number: usize,
    line: &'a [u8],
) -> Result<P, ExpectFault>
    ensures taken { IfOk result (λ next. AddsStated P.says (P.value position) line.now (P.value next)
        expected.old.items expected.new.items) }
    ensures fault { IfErr result (λ fault. (fault ≡ ExpectFault.Memory)
        ⊎ IsFaultOfLine P.says expected.old.items (P.value position) line.now number fault) }
    ensures memory { IsErrOf result ExpectFault.Memory → StatesAnother P.says (P.value position) line.now expected.old.items }
{
    let Some((next, stated)) = position.after(line) else {
        return Err(ExpectFault::BadLine { line: number });
    };
    if let Some(register) = stated {
        add_register(expected, number, register)?;
    }
    Ok(next)
}

// Appends this register, which the line of this number states.
fn add_register(
    expected: &mut Vec<Expected>,
    number: usize,
    register: Expected,
) -> Result<(), ExpectFault>
    ensures added { OnOk result ((list_any (λ x. same_register x register) expected.old.items ≡ false)
        × (expected.new.items ≡ expected.old.items ++ register ∷ [])) }
    ensures fault { IfErr result (λ fault. (fault ≡ ExpectFault.Memory)
        ⊎ ((fault ≡ DoubleLine number) × IsTrue (list_any (λ x. same_register x register) expected.old.items))) }
    ensures memory { IsErrOf result ExpectFault.Memory → list_any (λ x. same_register x register) expected.old.items ≡ false }
{
    if is_among(&register, expected) {
        return Err(ExpectFault::DoubleLine { line: number });
    }
    expected.push(register)?;
    Ok(())
}

// Whether `expected` already has this register of this bank.
fn is_among(register: &Expected, expected: &[Expected]) -> bool
    ensures { result ≡ list_any (λ x. same_register x register.now) expected.now }
{
    expected.iter().any(|other| other.alg == register.alg && other.register == register.register)
}
