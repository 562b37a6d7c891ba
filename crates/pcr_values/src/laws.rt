//! Laws: consequences of the definitions, each the contract of a function that does nothing.

ghost use Rattle.std.specs.Prelude.{◌≡◌, ℕ, List};
ghost use Rattle.pcr_values.specs.declared.expected.Expected.{Expected};
ghost use Rattle.pcr_values.specs.declared.selection.RegisterRange.{RegisterRange};
ghost use Rattle.pcr_values.specs.declared.selection.BankRange.{BankRange};
ghost use Rattle.pcr_values.specs.ExpectedTexts.{IsExpectedText};
ghost use Rattle.pcr_values.specs.PrintedTexts.{IsPrintedText};
ghost use Rattle.pcr_values.specs.RegisterRanges.{IsRangeText};
ghost use Rattle.pcr_values.specs.Selections.{SpellsRanges, those_selected};
ghost use Rattle.pcr_values.specs.WrittenTexts.{expected_text};

/// A text has one reading: it states one list of registers at most, whether it is one that [`crate::read_expected`] reads
/// (`expected`) or one that tpm2-tools printed (`printed`); and it spells one range of registers (`range`) and one selection of them
/// (`selection`) at most.
pub fn texts_have_one_reading()
    ensures expected { (text : List ℕ) (first second : List Expected)
        → IsExpectedText text first → IsExpectedText text second → first ≡ second }
    ensures printed { (text : List ℕ) (first second : List Expected)
        → IsPrintedText text first → IsPrintedText text second → first ≡ second }
    ensures range { (text : List ℕ) (first second : RegisterRange)
        → IsRangeText text first → IsRangeText text second → first ≡ second }
    ensures selection { (text : List ℕ) (first second : List BankRange)
        → SpellsRanges text first → SpellsRanges text second → first ≡ second }
{}

/// What [`crate::read_printed`] read and [`crate::write_expected`] wrote, [`crate::read_expected`] reads back: if a text that
/// tpm2-tools printed states some registers, then the text written of those that are selected states these, in order, and no
/// others; and so does that of all (`all`).
pub fn expected_lines_read_back()
    ensures selected { (text : List ℕ) (expected : List Expected) (ranges : List BankRange) → IsPrintedText text expected
        → IsExpectedText (expected_text (those_selected ranges expected)) (those_selected ranges expected) }
    ensures all { (text : List ℕ) (expected : List Expected) → IsPrintedText text expected
        → IsExpectedText (expected_text expected) expected }
{}
