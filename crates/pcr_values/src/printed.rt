//! The registers that tpm2-tools print, read from text.

ghost use Rattle.std.specs.Prelude.{◌≡◌, ◌<◌, ◌⊎◌, List, ℕ, [], length, true, false, None, option_map, IfSome, IfNone, IfOk, IfErr, IsErrOf};
ghost use Rattle.std.specs.Char.{is_ascii_hexdigit};
ghost use Rattle.std.specs.List.{list_all};
ghost use Rattle.pcr_values.specs.declared.expected.Expected.{Expected};
ghost use Rattle.pcr_values.specs.declared.expected.ExpectFault.TheVariants.{BadLine, NoRegister, NotChecked, NotSigned};
ghost use Rattle.pcr_values.specs.declared.printed.PrintedPart.{PrintedPart};
ghost use Rattle.pcr_values.specs.declared.printed.PrintedPart.TheVariants.{Quoted};
ghost use Rattle.pcr_values.specs.PrintedTexts.{HasPrintedFault, IsPrintedText, IsQuoteOutput, IsSignatureLine, MayEnd, PrintedPosition, Prints, PrintsRegister, Turns};

use crate::expected::{ExpectFault, Expected, LinePosition, read_lines};
use crate::pcr_read::InBank;
use crate::text_lines::after_prefix;
use std::alloc::Global;

/// Reads the registers that `tpm2_pcrread` of tpm2-tools prints, or that `tpm2_checkquote` prints of a quote.
///
/// For each bank there is a line of two spaces, the bank's name and a colon, as in `  sha256:`, and below it a line for each register,
/// as in `    4 : 0xF5A5..` or `    10: 0x15AC..`. What `tpm2_checkquote` prints has the line `pcrs:` before these, and after them one
/// of `sig: ` and hexadecimal digits, at least one. **It prints the same of a quote that it refuses**, and says so by its exit status
/// alone.
///
/// A bank's name has letters, digits and underscores. A register's line is four spaces, the register in decimal, a space if that
/// is one digit, `: 0x`, and as many hexadecimal digits, of either case, as a value of the bank has. Banks of other algorithms are
/// skipped: in these each line that begins with four spaces. A bank may have no registers. Empty lines are skipped, one carriage
/// return at a line's end is dropped, and the last line feed may be missing.
///
/// Fails with the fault of the first wrong line: [`ExpectFault::BadLine`] if it is none of these lines, or stands before the first
/// bank or after the signature and is not empty; [`ExpectFault::DoubleLine`] if an earlier line gives a value to the same register of
/// the same bank. In place of the first line's fault it is [`ExpectFault::NotChecked`] if the text begins with `quoted:`, as what
/// `tpm2_quote` prints. Without a wrong line it is [`ExpectFault::NotSigned`] if the line `pcrs:` is there and that of the signature is
/// not, or else [`ExpectFault::NoRegister`] if no line gives a register its value. Or it is [`ExpectFault::Memory`], which is possible
/// only if lines before the first wrong line state a register.
pub fn read_printed(alloc: Global, text: &[u8]) -> Result<Vec<Expected>, ExpectFault>
    // The result is what the text states.
    ensures found { IfOk result (λ expected. IsPrintedText text.now expected.items) }
    // A text that states registers is read, unless memory runs out.
    ensures only { (expected : List Expected) → IsPrintedText text.now expected
        → IfErr result (λ fault. fault ≡ ExpectFault.Memory) }
    // Any other fault is the one that the text has.
    ensures fault { IfErr result (λ fault. (fault ≡ ExpectFault.Memory) ⊎ HasPrintedFault text.now fault) }
    ensures memory { IsErrOf result ExpectFault.Memory → PrintsRegister text.now }
{
    let beginning = PartPosition {
        part: PrintedPart::Printed,
        bank: InBank { name: None },
    };
    match read_lines(alloc, beginning, text) {
        Ok((registers, end)) => whole(registers, end.part),
        Err(fault) => Err(named_fault(text, fault)),
    }
}

// The fault of the first wrong line, or the one of what tpm2_quote prints in its place.
fn named_fault(text: &[u8], fault: ExpectFault) -> ExpectFault
    ensures named { ((fault ≡ BadLine 1) × IsQuoteOutput text.now × (result ≡ NotChecked))
        ⊎ ((result ≡ fault) × (fault ≡ BadLine 1 → IsQuoteOutput text.now → ⊥)) }
{
    match fault {
        ExpectFault::BadLine { line: 1 } if after_prefix(b"quoted:", text).is_some() => {
            ExpectFault::NotChecked
        }
        fault => fault,
    }
}

// A part of a text.
#[derive(Clone, Copy, PartialEq, Eq)]
enum PrintedPart {
    /// What tpm2_pcrread prints.
    Printed,
    /// What was quoted, after the line `pcrs:`.
    Quoted,
    /// After the line of the signature.
    Signed,
}

// A position between lines: the part, and the bank that it is in.
#[derive(Clone, Copy)]
struct PartPosition<'a> {
    part: PrintedPart,
    bank: InBank<'a>,
}

impl<'a> LinePosition<'a> for PartPosition<'a> {
    ghost Value = { PrintedPosition };

    ghost value = { λ position. (position.part, option_map (λ name. name.now) position.bank.name) };

    ghost says = { Prints };

    fn after(self, line: &'a [u8]) -> Option<(PartPosition<'a>, Option<Expected>)> {
        if self.part == PrintedPart::Signed {
            return line.is_empty().then_some((self, None));
        }
        if let Some(part) = part_begun(self.part, self.bank, line) {
            let bank = InBank { name: None };
            return Some((PartPosition { part, bank }, None));
        }
        let (bank, stated) = self.bank.after(line)?;
        Some((PartPosition { bank, ..self }, stated))
    }
}

// The part that the line at this position begins, if it begins one.
fn part_begun(part: PrintedPart, bank: InBank<'_>, line: &[u8]) -> Option<PrintedPart>
    ensures found { IfSome result (Turns part (option_map (λ name. name.now) bank.entry.name) line.now) }
    ensures none { IfNone result ((next : PrintedPart) → Turns part (option_map (λ name. name.now) bank.entry.name) line.now next → ⊥) }
{
    match part {
        PrintedPart::Printed if bank.name.is_none() && line == b"pcrs:".as_slice() => Some(
            PrintedPart::Quoted,
        ),
        PrintedPart::Quoted if is_signature(line) => Some(PrintedPart::Signed),
        _ => None,
    }
}

// Whether the line is that of a signature.
fn is_signature(line: &[u8]) -> bool
    ensures line { result ≡ true → IsSignatureLine line.now }
    ensures other { result ≡ false → IsSignatureLine line.now → ⊥ }
{
    match after_prefix(b"sig: ", line) {
        Some(digits) => !digits.is_empty() && is_hexadecimal(digits),
        None => false,
    }
}

// Whether all bytes are hexadecimal digits.
fn is_hexadecimal(text: &[u8]) -> bool
    ensures { result ≡ list_all is_ascii_hexdigit text.now }
{
    text.iter().all(|byte| byte.is_ascii_hexdigit())
}

// The registers of a text that ends in this part.
fn whole(registers: Vec<Expected>, part: PrintedPart) -> Result<Vec<Expected>, ExpectFault>
    ensures found { IfOk result (λ all. MayEnd part × (0 < length all.items) × (all.items ≡ registers.items)) }
    ensures fault { IfErr result (λ fault. ((fault ≡ NotSigned) × (part ≡ Quoted))
        ⊎ ((fault ≡ NoRegister) × MayEnd part × (registers.items ≡ []))) }
{
    if part == PrintedPart::Quoted {
        return Err(ExpectFault::NotSigned);
    }
    if registers.is_empty() {
        return Err(ExpectFault::NoRegister);
    }
    Ok(registers)
}
