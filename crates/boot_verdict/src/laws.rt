//! Laws: consequences of the definitions, each the contract of a function that does nothing.

ghost use Rattle.std.specs.Prelude.{◌≡◌, ℕ, ◌+◌, ◌<◌, ◌≤◌, Bool, List, length, true, false};
ghost use Rattle.pcr_banks.specs.declared.alg.Alg.{Alg};
ghost use Rattle.pcr_banks.specs.declared.sets.AlgSet.{AlgSet};
ghost use Rattle.pcr_values.specs.declared.expected.Expected.{Expected};
ghost use Rattle.pcr_values.specs.declared.selection.BankRange.{BankRange};
ghost use Rattle.pcr_values.specs.Names.{SpellsRanges, names};
ghost use Rattle.boot_log.specs.Names.{LogEvent};
ghost use Rattle.ima_list.specs.Names.{ListEntry};
ghost use Rattle.boot_verdict.specs.declared.aggregate_rule.AggregateRule.{AggregateRule};
ghost use Rattle.boot_verdict.specs.declared.report.Aggregate.TheVariants.{Good, Old};
ghost use Rattle.boot_verdict.specs.declared.steps.Position.TheVariants.{Nowhere};
ghost use Rattle.boot_verdict.specs.declared.report.State.TheVariants.{Match};
ghost use Rattle.boot_verdict.specs.Positions.{is_found, pcr_after, position_after, position_on, reached_after};
ghost use Rattle.boot_verdict.specs.Isolation.{IsListApart, IsLogApart, list_register};
ghost use Rattle.boot_verdict.specs.Requirements.{HasMatch, IsRequirementText, required_matches};
ghost use Rattle.boot_verdict.specs.ListVerdicts.{list_verdict_on, required_list_matches};
ghost use Rattle.boot_verdict.specs.Verdicts.{aggregate_under, is_old, pcr_after_log, pcr_after_log_and_list, recorded_aggregate, row_on, taken_by, told_aggregate, verdict_under};

/// The position of an expected register is where its value is first reached: after the steps of that position the register has the
/// value, and after no fewer steps (`first`). A register whose position is nowhere has the value after none of the steps (`nowhere`). A
/// register that has its value in the end, which is a `match` of the verdict, has a position (`found`). The steps are the log's events and
/// then the list's entries; after all of them the register is the one that the verdict compares (`all`).
pub fn position_is_where_the_value_is_first()
    ensures first { (algs : AlgSet) (events : List LogEvent) (entries : List ListEntry) (expected : Expected) (steps : ℕ)
        → position_on algs events entries expected ≡ position_after (length events) steps
        → (reached_after algs events entries expected steps ≡ true)
        × ((fewer : ℕ) → fewer < steps → reached_after algs events entries expected fewer ≡ false) }
    ensures nowhere { (algs : AlgSet) (events : List LogEvent) (entries : List ListEntry) (expected : Expected) (steps : ℕ)
        → position_on algs events entries expected ≡ Nowhere → steps ≤ length events + length entries
        → reached_after algs events entries expected steps ≡ false }
    ensures found { (algs : AlgSet) (events : List LogEvent) (entries : List ListEntry) (expected : Expected)
        → (row_on algs events entries expected).state ≡ Match → is_found (position_on algs events entries expected) ≡ true }
    ensures all { (algs : AlgSet) (events : List LogEvent) (entries : List ListEntry) (alg : Alg) (register : ℕ)
        → pcr_after algs events entries alg register (length events + length entries)
        ≡ pcr_after_log_and_list algs events entries alg register }
{}

/// A verdict by whichever rule that meets a requirement has a `match` for each register that the requirement names (`matched`), in some bank
/// for the list's register (`bound`); and it is on a log and a list that are apart (`apart`). The requirement is one that a text spells, such as
/// [`crate::Requirement::from_text`] reads.
pub fn met_requirement_is_matched()
    ensures matched { (rule : AggregateRule) (algs : AlgSet) (events : List LogEvent) (entries : List ListEntry) (expected : List Expected)
        (text : List ℕ) (ranges : List BankRange) (alg : Alg) (register : ℕ) → SpellsRanges text ranges
        → required_matches ranges (verdict_under rule algs events entries expected) ≡ true → names ranges alg register ≡ true
        → HasMatch (verdict_under rule algs events entries expected).rows alg register }
    ensures bound { (rule : AggregateRule) (algs : AlgSet) (events : List LogEvent) (entries : List ListEntry) (expected : List Expected)
        (text : List ℕ) (ranges : List BankRange) → IsRequirementText text ranges
        → required_matches ranges (verdict_under rule algs events entries expected) ≡ true
        → (alg : Alg) × HasMatch (verdict_under rule algs events entries expected).rows alg list_register }
    ensures apart { (rule : AggregateRule) (algs : AlgSet) (events : List LogEvent) (entries : List ListEntry) (expected : List Expected)
        (ranges : List BankRange) → required_matches ranges (verdict_under rule algs events entries expected) ≡ true
        → IsLogApart events × IsListApart entries }
{}

/// The state of a boot aggregate is [`crate::Aggregate::Old`] only by a rule that takes an older kernel's (`asked`), and only where the
/// aggregate is one of an older kernel (`older`). It is good by a rule that takes these only if it is good by the rule that does not (`good`):
/// none is taken silently.
pub fn older_kernel_is_never_taken_silently()
    ensures asked { (rule : AggregateRule) (algs : AlgSet) (events : List LogEvent) (entries : List ListEntry)
        → aggregate_under rule algs events entries ≡ Old → rule.old_kernel ≡ true }
    ensures older { (rule : AggregateRule) (algs : AlgSet) (events : List LogEvent) (entries : List ListEntry)
        → aggregate_under rule algs events entries ≡ Old
        → is_old (pcr_after_log algs events) (taken_by rule (recorded_aggregate entries) (told_aggregate entries)) ≡ true }
    ensures good { (wide old_kernel : Bool) (algs : AlgSet) (events : List LogEvent) (entries : List ListEntry)
        → aggregate_under (record { wide = wide; old_kernel = old_kernel }) algs events entries ≡ Good
        → aggregate_under (record { wide = wide; old_kernel = false }) algs events entries ≡ Good }
{}

/// So it is with a verdict on a list alone, each entry of which extends the list's register.
pub fn met_requirement_of_a_list_is_matched()
    ensures matched { (entries : List ListEntry) (expected : List Expected) (text : List ℕ) (ranges : List BankRange) (alg : Alg)
        (register : ℕ) → SpellsRanges text ranges → required_list_matches ranges (list_verdict_on entries expected) ≡ true
        → names ranges alg register ≡ true → HasMatch (list_verdict_on entries expected).rows alg register }
    ensures bound { (entries : List ListEntry) (expected : List Expected) (text : List ℕ) (ranges : List BankRange)
        → IsRequirementText text ranges → required_list_matches ranges (list_verdict_on entries expected) ≡ true
        → (alg : Alg) × HasMatch (list_verdict_on entries expected).rows alg list_register }
    ensures apart { (entries : List ListEntry) (expected : List Expected) (ranges : List BankRange)
        → required_list_matches ranges (list_verdict_on entries expected) ≡ true → IsListApart entries }
{}
