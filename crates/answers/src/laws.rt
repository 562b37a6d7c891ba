//! Laws: consequences of the definitions, each the contract of a function that does nothing.

ghost use Rattle.std.specs.Prelude.{◌≡◌, ◌++◌, ℕ, Bool, List, codes, flat_map, length, map, not, Option, None, IfSome};
ghost use Rattle.std.specs.List.{AllByRecursion, filter};
ghost use Rattle.json.specs.Find.{get};
ghost use Rattle.pcr_banks.specs.declared.banks.Banks.{Banks};
ghost use Rattle.pcr_values.specs.declared.expected.Expected.{Expected};
ghost use Rattle.pcr_values.specs.declared.selection.BankRange.{BankRange};
ghost use Rattle.pcr_values.specs.Names.{expected_text, registers_text};
ghost use Rattle.boot_verdict.specs.declared.steps.Located.{Located};
ghost use Rattle.boot_verdict.specs.declared.report.Row.{Row};
ghost use Rattle.boot_verdict.specs.declared.report.Unconfirmed.{Unconfirmed};
ghost use Rattle.boot_verdict.specs.Names.{ListVerdict, Verdict, matches, unconfirmed_entry};
ghost use Rattle.known_files.specs.declared.unknown.UnknownFiles.{UnknownFiles};
ghost use Rattle.attestations.specs.Reports.{AttestVerdict};
ghost use Rattle.tpm_keys.specs.declared.kinds.KeyPart.{KeyPart};
ghost use Rattle.tpm_keys.specs.declared.report.KeyReport.{KeyReport};
ghost use Rattle.tpm_keys.specs.Reports.{key_text, kind_bits};
ghost use Rattle.answers.specs.PositionTexts.{positions_text};
ghost use Rattle.answers.specs.ReportTexts.{report_text};
ghost use Rattle.cells.specs.Cells.{if_some, rendered};
ghost use Rattle.cells.specs.Values.{IsCount, IsOneLine, object_of};
ghost use Rattle.cells.specs.declared.writer.Form.TheVariants.{Text};
ghost use Rattle.answers.specs.declared.row_order.RowOrder.TheVariants.{Given, ResetLast};
ghost use Rattle.answers.specs.AttestationCells.{attestation_cell};
ghost use Rattle.answers.specs.Counted.{AreCounted, IsCountedClock, IsCountedPosition, IsCountedUnknown, IsCountedWhole};
ghost use Rattle.answers.specs.KeyCells.{key_cell};
ghost use Rattle.answers.specs.PositionCells.{positions_cell};
ghost use Rattle.answers.specs.RegisterCells.{expected_cell, registers_cell};
ghost use Rattle.answers.specs.ReportCells.{given_row, is_at_reset, list_report_cell, prefix_cell, report_cell, report_rows, reset_row};
ghost use Rattle.answers.specs.RowCells.{missing_cells};

/// The JSON of each answer is one line: its text reads back as the value, and has no line feed. Its numbers are such as code holds.
pub fn each_answer_is_one_line()
    ensures registers { (now start : Banks) → IsOneLine (object_of (registers_cell now start).json) }
    ensures expected { (expected : List Expected) → AllByRecursion (λ e. IsCount e.register) expected
        → IsOneLine (object_of (expected_cell expected).json) }
    ensures report { (required : Option (List BankRange)) (unknown : Option UnknownFiles) (is_match : Bool) (verdict : Verdict)
        → IsCount verdict.events → IsCount verdict.locality → IsCount verdict.entries → IsCount (length verdict.rows)
        → AreCounted verdict.strays → IfSome unknown IsCountedUnknown → AllByRecursion (λ row. IsCount row.expected.register) verdict.rows
        → IsOneLine (object_of (report_cell Given required unknown is_match verdict).json) }
    ensures prefix_report { (required : Option (List BankRange)) (unknown : Option UnknownFiles) (prefix : Verdict) (entries : ℕ)
        (unconfirmed : Option Unconfirmed)
        → IsCount prefix.events → IsCount prefix.locality → IsCount prefix.entries → IsCount entries
        → IfSome unconfirmed (λ fault. IfSome (unconfirmed_entry fault) IsCount) → IsCount (length prefix.rows) → AreCounted prefix.strays
        → IfSome unknown IsCountedUnknown → AllByRecursion (λ row. IsCount row.expected.register) prefix.rows
        → IsOneLine (object_of (prefix_cell Given required unknown prefix entries unconfirmed).json) }
    ensures list_report { (required : Option (List BankRange)) (unknown : Option UnknownFiles) (verdict : ListVerdict)
        → IsCount verdict.entries → IsCount (length verdict.rows) → AreCounted verdict.strays
        → IfSome unknown IsCountedUnknown → AllByRecursion (λ row. IsCount row.expected.register) verdict.rows
        → IsOneLine (object_of (list_report_cell Given required unknown verdict).json) }
    ensures attestation { (unknown : Option UnknownFiles) (report : AttestVerdict)
        → IsCountedClock report.quoted.clock → IsCount report.quoted.firmware
        → IsCount report.verdict.events → IsCount report.verdict.locality → IsCount report.verdict.entries
        → IfSome report.prefix IsCountedWhole → AreCounted report.verdict.strays → IfSome unknown IsCountedUnknown
        → AllByRecursion (λ row. IsCount row.expected.register) report.verdict.rows
        → IsOneLine (object_of (attestation_cell Given unknown report).json) }
    ensures key { (part : KeyPart) (report : KeyReport) → IsCount (kind_bits report.kind)
        → IsOneLine (object_of (key_cell part report).json) }
    ensures positions { (required : Option (List BankRange)) (located : List Located)
        → AllByRecursion (λ row. IsCount row.expected.register × IsCountedPosition row.position) located
        → IsOneLine (object_of (positions_cell required located).json) }
{}

/// No answer has a member `fault`: only faults have one (`rendering::laws`).
pub fn no_answer_has_a_fault()
    ensures registers { (now start : Banks) → get (codes "fault") (object_of (registers_cell now start).json) ≡ None }
    ensures expected { (expected : List Expected) → get (codes "fault") (object_of (expected_cell expected).json) ≡ None }
    ensures report { (required : Option (List BankRange)) (unknown : Option UnknownFiles) (is_match : Bool) (verdict : Verdict)
        → get (codes "fault") (object_of (report_cell Given required unknown is_match verdict).json) ≡ None }
    ensures prefix_report { (required : Option (List BankRange)) (unknown : Option UnknownFiles) (prefix : Verdict) (entries : ℕ)
        (unconfirmed : Option Unconfirmed)
        → get (codes "fault") (object_of (prefix_cell Given required unknown prefix entries unconfirmed).json) ≡ None }
    ensures list_report { (required : Option (List BankRange)) (unknown : Option UnknownFiles) (verdict : ListVerdict)
        → get (codes "fault") (object_of (list_report_cell Given required unknown verdict).json) ≡ None }
    ensures attestation { (unknown : Option UnknownFiles) (report : AttestVerdict)
        → get (codes "fault") (object_of (attestation_cell Given unknown report).json) ≡ None }
    ensures key { (part : KeyPart) (report : KeyReport) → get (codes "fault") (object_of (key_cell part report).json) ≡ None }
    ensures positions { (required : Option (List BankRange)) (located : List Located)
        → get (codes "fault") (object_of (positions_cell required located).json) ≡ None }
{}

/// The texts that are sent without memory, as by `answers::write_report`, are those of the cells, and so are the lines of a key.
pub fn sent_texts_are_of_cells()
    ensures report { (verdict : Verdict) → report_text verdict ≡ rendered Text (report_cell Given None None (matches verdict) verdict) }
    ensures positions { (located : List Located) → positions_text located ≡ rendered Text (positions_cell None located) }
    ensures registers { (now start : Banks) → registers_text now start ≡ rendered Text (registers_cell now start) }
    ensures expected { (expected : List Expected) → expected_text expected ≡ rendered Text (expected_cell expected) }
    ensures key { (part : KeyPart) (report : KeyReport) → key_text part report ≡ rendered Text (key_cell part report) }
{}

/// On a terminal the rows that are not at reset come first, then the required registers that are missing, and then the rows at reset, which are
/// marked. Each group is in the order in which it was.
pub fn rows_at_reset_come_last()
    ensures { (required : Option (List BankRange)) (rows : List Row) → rendered Text (report_rows ResetLast required rows)
        ≡ flat_map (λ row. (given_row row).text) (filter (λ row. not (is_at_reset row)) rows)
        ++ ((if_some required (missing_cells (codes "state") (map (λ row. row.expected) rows))).text
        ++ flat_map (λ row. (reset_row row).text) (filter is_at_reset rows)) }
{}
