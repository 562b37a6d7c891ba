//! What a person may do next: after an answer that something differs, and where an input is refused that is not what it should be.

ghost use Rattle.std.specs.Prelude.{◌≡◌, ◌++◌, ◌∷◌, [], codes, decimal, flat_map, take, true, string_bytes, IfOk, OnOk};
ghost use Rattle.std.specs.List.{list_all};
ghost use Rattle.pcr_banks.specs.Names.{name_of};
ghost use Rattle.hints.specs.declared.hints.Hint.TheVariants.{ByHcrtm, NothingExpected, OnlySha1};
ghost use Rattle.hints.specs.Escaping.{escape, is_shown};
ghost use Rattle.hints.specs.HintTexts.{absent_hint, entry_hint, event_hint, hint_line, hints_of_causes, is_grown, last_words, list_hint, log_hint, missing_hint, mistake_words, of_option, shown_hint, unknown_hint, values_hint};

use crate::escapes::shown_line;
use crate::reasons::{Causes, Grown, JudgedBy};
use crate::wrong_input::Mistake;
use attestations::ExpectedValues;
use boot_verdict::{Aggregate, Stray};
use itoa::Buffer;
use pcr_banks::Alg;
use pcr_values::Expected;
use std::alloc::{AllocError, Global};

/// How many lines there are at most.
const MOST_LINES: usize = 3;

/// What to do next, or where to look. None advises to expect or to require less: whoever changed log and list could wish for that.
#[derive(Clone, Copy, PartialEq, Eq)]
pub(crate) enum Hint {
    /// The values are those after so many first entries of the list, which has so many in all.
    Grown { confirmed: usize, entries: usize },
    /// The list has no entries.
    NoEntries,
    /// The boot aggregate is another.
    OtherAggregate,
    /// It is that of an older kernel.
    OldAggregate,
    /// The log has no bank for it.
    NoAggregateBank,
    /// The first entry is none.
    NoAggregate,
    /// The list's register differs in this bank.
    ListDiffers { alg: Alg },
    /// Only expected values say which register a quote refutes.
    NotExpected,
    /// The expected values are not the quoted ones.
    NotQuoted,
    /// An event extends the list's register.
    EventOfList { event: usize },
    /// An entry extends another.
    EntryOfLog { entry: usize, register: u32 },
    /// An entry extends another, and there is no log.
    EntryAside { entry: usize, register: u32 },
    /// A register of the log differs.
    LogDiffers { alg: Alg, register: u32 },
    /// It never has its value.
    LogNowhere { alg: Alg, register: u32 },
    /// It is judged without its log.
    WithoutLog { alg: Alg, register: u32 },
    /// Less differs where the H-CRTM's event tells where the machine started.
    ByHcrtm,
    /// A register is required, and not expected.
    Missing { alg: Alg, register: u32 },
    /// None is expected.
    NothingExpected,
    /// A register is required in the SHA-1 bank alone.
    OnlySha1 { register: u32 },
    /// The log has no such bank.
    Absent { alg: Alg },
    /// This is the first entry that is not known.
    Unknown { entry: usize },
}

/// What to do about these causes, or that the list grew, in three lines at most. A boot aggregate that is another may be an older kernel's.
pub(crate) fn rendered_hints(
    alloc: Global,
    causes: &Causes,
    grown: Option<Grown>,
    is_old: bool,
) -> Result<String, AllocError>
    ensures lines { IfOk result (λ text. string_bytes text ≡ flat_map shown_hint (take 3 (hints_of_causes causes.now grown is_old))) }
    ensures shown { IfOk result (λ text. list_all is_shown (string_bytes text) ≡ true) }
{
    let mut hints = hints_of_causes(alloc, causes, grown, is_old)?;
    hints.truncate(MOST_LINES);
    lines_of(alloc, &hints)
}

/// What to do after a match with which nothing was compared.
pub(crate) fn nothing_compared_hint(alloc: Global) -> Result<String, AllocError>
    ensures line { IfOk result (λ text. string_bytes text ≡ shown_hint NothingExpected) }
    ensures shown { IfOk result (λ text. list_all is_shown (string_bytes text) ≡ true) }
{
    shown_line(alloc, NOTHING_EXPECTED)
}

/// What to do where less differs if the H-CRTM's event tells where the machine started.
pub(crate) fn hcrtm_hint(alloc: Global) -> Result<String, AllocError>
    ensures line { IfOk result (λ text. string_bytes text ≡ shown_hint ByHcrtm) }
    ensures shown { IfOk result (λ text. list_all is_shown (string_bytes text) ≡ true) }
{
    shown_line(alloc, BY_HCRTM)
}

/// What a match is worth with which this register is required in the SHA-1 bank alone.
pub(crate) fn weak_hint(alloc: Global, register: u32) -> Result<String, AllocError>
    ensures line { IfOk result (λ text. string_bytes text ≡ shown_hint (OnlySha1 register)) }
    ensures shown { IfOk result (λ text. list_all is_shown (string_bytes text) ≡ true) }
{
    let line = line_of(alloc, Hint::OnlySha1 { register })?;
    shown_line(alloc, &line)
}

// The lines of these.
fn lines_of(alloc: Global, hints: &[Hint]) -> Result<String, AllocError>
    ensures lines { IfOk result (λ text. string_bytes text ≡ flat_map shown_hint hints.now) }
    ensures shown { IfOk result (λ text. list_all is_shown (string_bytes text) ≡ true) }
{
    let mut lines = String::new(alloc);
    for hint in hints {
        let line = line_of(alloc, *hint)?;
        let shown = shown_line(alloc, &line)?;
        lines.push_str(&shown)?;
    }
    Ok(lines)
}

// All that there is to say of these causes.
fn hints_of_causes(
    alloc: Global,
    causes: &Causes,
    grown: Option<Grown>,
    is_old: bool,
) -> Result<Vec<Hint>, AllocError>
    ensures { IfOk result (λ hints. hints.items ≡ hints_of_causes causes.now grown is_old) }
{
    let mut hints = Vec::new(alloc);
    push_if(&mut hints, list_hint(causes, grown, is_old))?;
    push_if(&mut hints, values_hint(causes, grown))?;
    push_if(&mut hints, event_hint(causes))?;
    push_if(&mut hints, entry_hint(causes))?;
    push_if(&mut hints, log_hint(causes))?;
    push_if(&mut hints, missing_hint(causes))?;
    push_if(&mut hints, absent_hint(causes))?;
    push_if(&mut hints, unknown_hint(causes))?;
    Ok(hints)
}

// Appends it, if there is one.
fn push_if(hints: &mut Vec<Hint>, hint: Option<Hint>) -> Result<(), AllocError>
    ensures { OnOk result (hints.new.items ≡ hints.old.items ++ of_option hint) }
{
    if let Some(hint) = hint {
        hints.push(hint)?;
    }
    Ok(())
}

// Whether the list grew: it is its register that differs, or that a quote may refute, and nothing extends a register that is not its own.
fn is_grown(causes: &Causes) -> bool
    ensures { result ≡ is_grown causes.now }
{
    causes.strays.are_none() && (causes.list.is_some() || causes.values.is_some())
}

// What is wrong with the list.
fn list_hint(causes: &Causes, grown: Option<Grown>, is_old: bool) -> Option<Hint>
    ensures { result ≡ list_hint causes.now grown is_old }
{
    if let Some(grown) = grown
        && is_grown(causes)
    {
        return Some(Hint::Grown {
            confirmed: grown.confirmed,
            entries: grown.entries,
        });
    }
    if causes.is_empty {
        return Some(Hint::NoEntries);
    }
    match (causes.aggregate, causes.list) {
        (Some(Aggregate::Wrong), _) if is_old => Some(Hint::OldAggregate),
        (Some(Aggregate::Wrong), _) => Some(Hint::OtherAggregate),
        (Some(Aggregate::NoBank), _) => Some(Hint::NoAggregateBank),
        (Some(Aggregate::Missing), _) => Some(Hint::NoAggregate),
        (Some(Aggregate::Good | Aggregate::Old) | None, Some(expected)) => {
            Some(Hint::ListDiffers { alg: expected.alg })
        }
        (Some(Aggregate::Good | Aggregate::Old) | None, None) => None,
    }
}

// What came of expected registers beside a quote.
fn values_hint(causes: &Causes, grown: Option<Grown>) -> Option<Hint>
    ensures { result ≡ values_hint causes.now grown }
{
    match (causes.values, grown) {
        (Some(ExpectedValues::NotGiven), None) => Some(Hint::NotExpected),
        (Some(ExpectedValues::Unconfirmed), _) => Some(Hint::NotQuoted),
        _ => None,
    }
}

// Which event extends the list's register.
fn event_hint(causes: &Causes) -> Option<Hint>
    ensures { result ≡ event_hint causes.now }
{
    let event = causes.strays.event?;
    Some(Hint::EventOfList { event })
}

// Which entry extends another.
fn entry_hint(causes: &Causes) -> Option<Hint>
    ensures { result ≡ entry_hint causes.now }
{
    let Stray { entry, register } = causes.strays.entry?;
    Some(match causes.judged {
        JudgedBy::ListAlone => Hint::EntryAside { entry, register },
        JudgedBy::Values | JudgedBy::Places => Hint::EntryOfLog { entry, register },
    })
}

// What is wrong with the log.
fn log_hint(causes: &Causes) -> Option<Hint>
    ensures { result ≡ log_hint causes.now }
{
    let Expected { alg, register, .. } = causes.log?;
    Some(match causes.judged {
        JudgedBy::Values => Hint::LogDiffers { alg, register },
        JudgedBy::ListAlone => Hint::WithoutLog { alg, register },
        JudgedBy::Places => Hint::LogNowhere { alg, register },
    })
}

// What is not expected.
fn missing_hint(causes: &Causes) -> Option<Hint>
    ensures { result ≡ missing_hint causes.now }
{
    match causes.missing {
        Some((alg, register)) => Some(Hint::Missing { alg, register }),
        None if causes.is_bare => Some(Hint::NothingExpected),
        None => None,
    }
}

// Which bank is not there.
fn absent_hint(causes: &Causes) -> Option<Hint>
    ensures { result ≡ absent_hint causes.now }
{
    let expected = causes.absent?;
    Some(Hint::Absent { alg: expected.alg })
}

// Which entry is not known.
fn unknown_hint(causes: &Causes) -> Option<Hint>
    ensures { result ≡ unknown_hint causes.now }
{
    let entry = causes.unknown?;
    Some(Hint::Unknown { entry })
}

// The line of a hint, without its line feed.
fn line_of(alloc: Global, hint: Hint) -> Result<String, AllocError>
    ensures { IfOk result (λ line. string_bytes line ≡ hint_line hint) }
{
    let words = last_words(hint);
    match hint {
        Hint::Grown { confirmed, entries } => grown_line(alloc, confirmed, entries, words),
        Hint::EventOfList { event } => number_line(alloc, "event ", event, words),
        Hint::Unknown { entry } => number_line(alloc, "entry ", entry, words),
        Hint::OnlySha1 { register } => number_line(alloc, "PCR ", register as usize, words),
        Hint::EntryOfLog { entry, register } | Hint::EntryAside { entry, register } => {
            entry_line(alloc, entry, register, words)
        }
        Hint::ListDiffers { alg } | Hint::Absent { alg } => bank_line(alloc, alg, words),
        Hint::LogDiffers { alg, register }
        | Hint::LogNowhere { alg, register }
        | Hint::WithoutLog { alg, register } => register_line(alloc, "", alg, register, words),
        Hint::Missing { alg, register } => {
            register_line(alloc, "EXPECTED lacks ", alg, register, words)
        }
        Hint::NoEntries
        | Hint::OtherAggregate
        | Hint::OldAggregate
        | Hint::NoAggregateBank
        | Hint::NoAggregate
        | Hint::NotExpected
        | Hint::NotQuoted
        | Hint::ByHcrtm
        | Hint::NothingExpected => String::from_str(alloc, words),
    }
}

// The words with which the line of a hint ends, after its numbers.
fn last_words(hint: Hint) -> &'static str
    ensures { result.now ≡ last_words hint }
{
    match hint {
        Hint::Grown { .. } => GROWN,
        Hint::NoEntries => NO_ENTRIES,
        Hint::OtherAggregate => OTHER_AGGREGATE,
        Hint::OldAggregate => OLD_AGGREGATE,
        Hint::NoAggregateBank => NO_AGGREGATE_BANK,
        Hint::NoAggregate => NO_AGGREGATE,
        Hint::ListDiffers { alg: Alg::Sha1 } => LIST_DIFFERS,
        Hint::ListDiffers { .. } => LIST_DIFFERS_OR_PADDED,
        Hint::NotExpected => NOT_EXPECTED,
        Hint::NotQuoted => NOT_QUOTED,
        Hint::EventOfList { .. } => EVENT_OF_LIST,
        Hint::EntryOfLog { .. } => ENTRY_OF_LOG,
        Hint::EntryAside { .. } => ENTRY_ASIDE,
        Hint::LogDiffers { .. } => LOG_DIFFERS,
        Hint::LogNowhere { .. } => LOG_NOWHERE,
        Hint::WithoutLog { .. } => WITHOUT_LOG,
        Hint::ByHcrtm => BY_HCRTM,
        Hint::Missing { .. } => ": read it with the others",
        Hint::NothingExpected => NOTHING_EXPECTED,
        Hint::OnlySha1 { .. } => ONLY_SHA1,
        Hint::Absent { .. } => ABSENT,
        Hint::Unknown { .. } => UNKNOWN,
    }
}

const GROWN: &str =
    " entries: the list grew after PCR 10 was read; collect again, or add --prefix to judge only the first ";

const NO_ENTRIES: &str =
    "LIST is empty: copy the kernel's list with cat, since the kernel reports its size as 0";

const OTHER_AGGREGATE: &str =
    "the boot aggregate does not match LOG: log and list are from different boots, or one of them was changed";

const OLD_AGGREGATE: &str =
    "the boot aggregate covers only PCRs 0 to 7, as some kernels before 5.8 record it: it does not bind PCRs 8 and 9 to the list; with --require, --old-kernel accepts it";

const NO_AGGREGATE_BANK: &str =
    "LOG has no bank for the boot aggregate, so nothing shows that log and list are from the same boot";

const NO_AGGREGATE: &str =
    "entry 0 is not a boot aggregate: the list lacks its beginning, has another template, or was changed; with --require, the boot aggregate may also have the template ima-ngv2, ima-sigv2 or ima-modsig";

const LIST_DIFFERS: &str =
    " PCR 10 differs: read it and LIST again at the same time; if it still differs, an entry is missing or was changed";

const LIST_DIFFERS_OR_PADDED: &str =
    " PCR 10 differs: read it and LIST again at the same time; if it still differs, a kernel before 5.8 extended it with zero-padded SHA-1 digests, or an entry is missing or was changed";

const NOT_EXPECTED: &str =
    "add EXPECTED, the values read with the quote: its rows show which PCR differs";

const NOT_QUOTED: &str = "EXPECTED is not what the TPM signed: give the values read with the quote";

const EVENT_OF_LIST: &str =
    " extends PCR 10, which only the list should: log and list cannot be told apart";

const ENTRY_OF_LOG: &str = ", which only the log should: log and list cannot be told apart";

const ENTRY_ASIDE: &str =
    ", as a policy rule with pcr= requests; replay accepts only lists whose entries all extend PCR 10";

const NOTHING_EXPECTED: &str =
    "EXPECTED has no PCR, so no PCR was compared: give the values read with LIST";

const UNKNOWN: &str =
    " is the first that matches no known digest: ima-agent show names its file; compare that with the file in its package";

const LOG_DIFFERS: &str =
    " differs: LOG is from another boot or was changed; ima-agent events --explain --expected shows its events";

const LOG_NOWHERE: &str =
    " never has the expected value: LOG is from another boot or was changed; ima-agent events --explain --expected shows its events";

const WITHOUT_LOG: &str = " differs: replay reads no log; ima-agent verify does";

const BY_HCRTM: &str =
    "LOG has an H-CRTM event, which means that PCR 0 started at 4: add --hcrtm, with which less differs";

const ONLY_SHA1: &str =
    " is required only in the SHA-1 bank: anyone who can make collisions can make another log or list with its value; require another bank too, if there is one";

const ABSENT: &str =
    " is not a bank of LOG, so its PCRs cannot be judged: LOG is from another machine or was changed";

// Which entries of a list a register covers, and the number of those once more after the words.
fn grown_line(
    alloc: Global,
    confirmed: usize,
    entries: usize,
    words: &str,
) -> Result<String, AllocError>
    ensures { IfOk result (λ line. string_bytes line ≡ codes "PCR 10 covers the first " ++ (decimal confirmed ++ (codes " of " ++ (decimal entries ++ (words.now ++ decimal confirmed))))) }
{
    let mut digits = Buffer::new();
    let mut last = String::from_str(alloc, words)?;
    last.push_str(digits.format(confirmed))?;
    numbers_line(
        alloc,
        "PCR 10 covers the first ",
        confirmed,
        " of ",
        entries,
        &last,
    )
}

// An entry that extends a register, and words after it.
fn entry_line(alloc: Global, entry: usize, register: u32, words: &str) -> Result<String, AllocError>
    ensures { IfOk result (λ line. string_bytes line ≡ codes "entry " ++ (decimal entry ++ (codes " extends PCR " ++ (decimal register ++ words.now)))) }
{
    numbers_line(
        alloc,
        "entry ",
        entry,
        " extends PCR ",
        register as usize,
        words,
    )
}

// Two numbers between words.
fn numbers_line(
    alloc: Global,
    before: &str,
    first: usize,
    between: &str,
    second: usize,
    after: &str,
) -> Result<String, AllocError>
    ensures { IfOk result (λ line. string_bytes line ≡ before.now ++ (decimal first ++ (between.now ++ (decimal second ++ after.now)))) }
{
    let mut digits = Buffer::new();
    let mut line = String::from_str(alloc, before)?;
    line.push_str(digits.format(first))?;
    line.push_str(between)?;
    line.push_str(digits.format(second))?;
    line.push_str(after)?;
    Ok(line)
}

// A number between words.
fn number_line(
    alloc: Global,
    before: &str,
    number: usize,
    after: &str,
) -> Result<String, AllocError>
    ensures { IfOk result (λ line. string_bytes line ≡ before.now ++ (decimal number ++ after.now)) }
{
    let mut digits = Buffer::new();
    let mut line = String::from_str(alloc, before)?;
    line.push_str(digits.format(number))?;
    line.push_str(after)?;
    Ok(line)
}

// A bank, and words after it.
fn bank_line(alloc: Global, alg: Alg, after: &str) -> Result<String, AllocError>
    ensures { IfOk result (λ line. string_bytes line ≡ name_of alg ++ after.now) }
{
    let mut line = String::from_str(alloc, alg.name())?;
    line.push_str(after)?;
    Ok(line)
}

// A register of a bank between words.
fn register_line(
    alloc: Global,
    before: &str,
    alg: Alg,
    register: u32,
    after: &str,
) -> Result<String, AllocError>
    ensures { IfOk result (λ line. string_bytes line ≡ before.now ++ (name_of alg ++ (codes " PCR " ++ (decimal register ++ after.now)))) }
{
    let mut digits = Buffer::new();
    let mut line = String::from_str(alloc, before)?;
    line.push_str(alg.name())?;
    line.push_str(" PCR ")?;
    line.push_str(digits.format(register))?;
    line.push_str(after)?;
    Ok(line)
}

/// That the input of this name is not what it should be.
pub(crate) fn rendered_mistake(
    alloc: Global,
    input: &str,
    mistake: Mistake,
) -> Result<String, AllocError>
    ensures line { IfOk result (λ text. string_bytes text ≡ escape (input.now ++ (codes ": " ++ mistake_words mistake)) ++ 10 ∷ []) }
    ensures shown { IfOk result (λ text. list_all is_shown (string_bytes text) ≡ true) }
{
    let mut line = String::from_str(alloc, input)?;
    line.push_str(": ")?;
    line.push_str(mistake_words(mistake))?;
    shown_line(alloc, &line)
}

// What an input is.
fn mistake_words(mistake: Mistake) -> &'static str
    ensures { result.now ≡ mistake_words mistake }
{
    match mistake {
        Mistake::Empty =>
            "it is empty: copy the kernel's files with cat, since the kernel reports their size as 0",
        Mistake::NothingPrinted => "it is empty: the tool printed nothing",
        Mistake::ListForLog => "it is a measurement list, not a firmware event log",
        Mistake::OldLog =>
            "it is in the SHA-1 form of TPM 1.2: ima-agent log converts it to a LOG with only the SHA-1 bank, which stops nobody who can make collisions",
        Mistake::LogForList => "it is a firmware event log, not a measurement list",
        Mistake::TextForList =>
            "it is the list as text: give binary_runtime_measurements, which is beside it, or convert the text with ima-agent list",
        Mistake::ListForText =>
            "it is the binary list, which needs no conversion: give it to the other commands",
        Mistake::PrintedForExpected =>
            "it is tpm2-tools output: convert it to EXPECTED with ima-agent expected",
        Mistake::ExpectedForPrinted =>
            "it is EXPECTED already: give it to ima-agent verify as it is",
        Mistake::Capitals => "its banks are in capital letters: write sha256, not SHA256",
        Mistake::PemForArea =>
            "it is PEM text: give the public area as tpm2_createak -u writes it, or this text to attest --key",
    }
}
