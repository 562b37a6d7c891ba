//! The report on a log, a list and expected registers, and that on the prefix of a list that these confirm.

ghost use Rattle.std.specs.Prelude.{◌≡◌, ◌++◌, IfOk, string_bytes};
ghost use Rattle.std.specs.List.{list_all};
ghost use Rattle.boot_verdict.specs.Requirements.{required_matches};
ghost use Rattle.boot_verdict.specs.Verdicts.{is_good, is_match, matches, verdict_of};
ghost use Rattle.boot_verdict.specs.Words.{aggregate_word, entry_words, unconfirmed_entry, unconfirmed_kind, unconfirmed_message, unconfirmed_number};

use crate::isolation::Strays;
use crate::requirement::Requirement;
use ima_list::{ListFault, ReplayFault};
use itoa::Buffer;
use pcr_banks::Digest;
use pcr_values::Expected;
use std::alloc::{AllocError, Global};

/// How a register compares with its expected value.
#[derive(Clone, Copy, Debug, PartialEq, Eq)]
pub enum State {
    /// It has the expected value.
    Match,
    /// It has this other value.
    Differ(Digest),
    /// The log has no such bank, or there is no such register.
    Absent,
}

/// An expected register, and how it compares.
#[derive(Clone, Copy, PartialEq, Eq)]
pub struct Row {
    /// What is expected.
    pub expected: Expected,
    /// How the register compares.
    pub state: State,
}

/// Whether the list records the boot aggregate of the log: its first entry should be a measurement of the path `boot_aggregate`,
/// with the hash of the first registers that the firmware left.
#[derive(Clone, Copy, PartialEq, Eq)]
pub enum Aggregate {
    /// The first entry records the boot aggregate of the log's registers.
    Good,
    /// It records another digest, and the log has a bank of its algorithm.
    Wrong,
    /// It records a digest of an algorithm for which the log has no bank.
    NoBank,
    /// The list is empty, or its first entry records no boot aggregate.
    Missing,
    /// It records that of PCRs 0 to 7 alone, as kernels before 5.8 make it, and the rule takes that.
    Old,
}

impl Aggregate {
    /// Whether the list records the boot aggregate of the log, as the rule takes it.
    pub fn is_good(self) -> bool
        ensures { result ≡ is_good self }
    {
        matches!(self, Aggregate::Good | Aggregate::Old)
    }
}

/// The state of a boot aggregate in one word.
pub fn aggregate_word(aggregate: Aggregate) -> &'static str
    ensures { result.now ≡ aggregate_word aggregate }
{
    match aggregate {
        Aggregate::Good => "good",
        Aggregate::Wrong => "wrong",
        Aggregate::NoBank => "nobank",
        Aggregate::Missing => "missing",
        Aggregate::Old => "old_kernel",
    }
}

/// The report on a firmware event log, a measurement list and expected registers.
#[derive(Drop)]
pub struct Report {
    /// How many events the log has after its header.
    pub events: usize,
    /// The locality from which the TPM was started.
    pub locality: u8,
    /// How many entries the list has.
    pub entries: usize,
    /// Whether the list records the log's boot aggregate.
    pub aggregate: Aggregate,
    /// What of log and list extends a register that is the other's.
    pub strays: Strays,
    /// The expected registers and how they compare, in their order.
    pub rows: Vec<Row>,
}

impl Report {
    /// Whether the boot aggregate is good, and each expected register has its value.
    pub fn matches(&self) -> bool
        ensures { result ≡ matches (verdict_of self.now) }
    {
        self.aggregate.is_good() && all_match(&self.rows)
    }

    /// Whether the report matches, nothing of log or list extends a register that is the other's, and there is a row for each required
    /// register.
    pub fn meets(&self, requirement: &Requirement) -> bool
        ensures { result ≡ required_matches requirement.now (verdict_of self.now) }
    {
        self.matches() && self.strays.are_none() && requirement.is_met_by(&self.rows)
    }
}

/// Whether each expected register has its value.
pub(crate) fn all_match(rows: &[Row]) -> bool
    ensures { result ≡ list_all is_match rows.now }
{
    rows.iter().all(|row| matches!(row.state, State::Match))
}

/// Why what follows a confirmed prefix is no list of genuine entries.
#[derive(Clone, Copy, PartialEq, Eq)]
pub enum Unconfirmed {
    /// The bytes are no list.
    List(ListFault),
    /// An entry is not genuine.
    Replay(ReplayFault),
}

impl Unconfirmed {
    /// The kind of the fault, in one word: `list` or `replay`.
    pub fn kind(self) -> &'static str
        ensures { result.now ≡ unconfirmed_kind self }
    {
        match self {
            Unconfirmed::List(_) => "list",
            Unconfirmed::Replay(_) => "replay",
        }
    }

    /// The number of the fault among those of its kind.
    pub fn number(self) -> u32
        ensures { result ≡ unconfirmed_number self }
    {
        match self {
            Unconfirmed::List(fault) => fault.number(),
            Unconfirmed::Replay(fault) => fault.number(),
        }
    }

    /// The number of the entry that the fault names, if it names one; entries count from 0.
    pub fn entry(self) -> Option<usize>
        ensures { result ≡ unconfirmed_entry self }
    {
        match self {
            Unconfirmed::List(fault) => fault.entry(),
            Unconfirmed::Replay(fault) => Some(fault.entry()),
        }
    }

    /// The fault in words, as the report on the prefix has them, without a line feed: `unconfirmed: replay fault 1 at entry 98`.
    ///
    /// Fails only if memory runs out.
    pub fn message(self, alloc: Global) -> Result<String, AllocError>
        ensures { IfOk result (λ message. string_bytes message ≡ unconfirmed_message self) }
    {
        let mut digits = Buffer::new();
        let mut message = String::from_str(alloc, "unconfirmed: ")?;
        message.push_str(self.kind())?;
        message.push_str(" fault ")?;
        message.push_str(digits.format(self.number()))?;
        with_entry(message, self.entry())
    }
}

// The words with the entry after them, if there is one.
fn with_entry(words: String, entry: Option<usize>) -> Result<String, AllocError>
    ensures { IfOk result (λ text. string_bytes text ≡ string_bytes words ++ entry_words entry) }
{
    let mut text = words;
    if let Some(entry) = entry {
        let mut digits = Buffer::new();
        text.push_str(" at entry ")?;
        text.push_str(digits.format(entry))?;
    }
    Ok(text)
}

/// The report on the shortest prefix of a list whose verdict is `match`, and what comes after it.
#[derive(Drop)]
pub struct PrefixReport {
    /// The report on the prefix.
    pub report: Report,
    /// How many entries the whole list has; if it has a fault, those before the fault.
    pub entries: usize,
    /// What is wrong after the prefix, if anything.
    pub unconfirmed: Option<Unconfirmed>,
}
