//! What the verdict of a report is.

ghost use Rattle.std.specs.Prelude.{◌≡◌, ◌&&◌, List, None, Some};
ghost use Rattle.pcr_values.specs.declared.selection.BankRange.{BankRange};
ghost use Rattle.boot_verdict.specs.declared.report.PrefixReport.{PrefixReport};
ghost use Rattle.boot_verdict.specs.declared.report.Report.{Report as ReportData};
ghost use Rattle.boot_verdict.specs.Names.{matches, required_matches, verdict_of};
ghost use Rattle.known_files.specs.Unknown.{has_no_unknown};
ghost use Rattle.agent_inputs.specs.Loading.{Inputs};
ghost use Rattle.judging.specs.declared.request.Answer.TheVariants.{Prefix, Report};
ghost use Rattle.judging.specs.declared.request.Answered.{Answered};
ghost use Rattle.judging.specs.Answering.{IsComparison};
ghost use Rattle.judging.specs.Requests.{Compared, Nothing};

/// All is well with a report where its own verdict is 'match', so that what a report is shown with is its verdict. `required`: where registers are
/// required, it is 'match' if all that is required holds; `plain`: where nothing is, if all that is compared matches. `prefix`: so it is on a
/// confirmed prefix. Where files have to be known, no entry is unknown besides.
pub fn report_succeeds_by_its_verdict()
    ensures required { (inputs : Inputs) (request : Compared) (given : Answered) (ranges : List BankRange) (report : ReportData)
        → IsComparison inputs request given → given.requirement ≡ Some ranges → given.answer ≡ Report report
        → given.is_success ≡ (has_no_unknown given.unknown && required_matches ranges (verdict_of report)) }
    ensures plain { (inputs : Inputs) (request : Compared) (given : Answered) (report : ReportData)
        → IsComparison inputs request given → request.required ≡ Nothing → given.requirement ≡ None → given.answer ≡ Report report
        → given.is_success ≡ (has_no_unknown given.unknown && matches (verdict_of report)) }
    ensures prefix { (inputs : Inputs) (request : Compared) (given : Answered) (ranges : List BankRange) (prefix : PrefixReport)
        → IsComparison inputs request given → given.requirement ≡ Some ranges → given.answer ≡ Prefix prefix
        → given.is_success ≡ (has_no_unknown given.unknown && required_matches ranges (verdict_of prefix.report)) }
{}
