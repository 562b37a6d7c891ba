//! The confirmed prefix of a list that grows: the shortest with which log and list are as is sought.

ghost use Rattle.std.specs.Prelude.{◌≡◌, ◌<◌, ◌^◌, List, ℕ, Ok, Err, is_some, option_map, IfOk, IfErr, IfSome, IfNone, OnErr};
ghost use Rattle.byte_streams.specs.Streams.{LosesPrefix};
ghost use Rattle.pcr_banks.specs.declared.sets.AlgSet.{AlgSet};
ghost use Rattle.pcr_banks.specs.Names.{alg_of, bytes_of, value_at};
ghost use Rattle.boot_log.specs.Names.{IsFirmware, LogEvent};
ghost use Rattle.boot_verdict.specs.declared.report.Unconfirmed.{Unconfirmed};
ghost use Rattle.boot_verdict.specs.Names.{AreTracked, IsCheckpoint, IsMoreFault, ReplaysAll, aggregate_with, failures_after_list, is_good, most_after, step_of};
ghost use Rattle.growing_lists.specs.Goals.{goal_data, are_reached, is_sought, sought_data};
ghost use Rattle.growing_lists.specs.parts.Confirming.{IsConfirmingAfter, prefix_at, search_after, search_before, size_of_step};
ghost use Rattle.growing_lists.specs.parts.Searches.{IsNoListFault, Searches, WatchesSearch, fault_in, prefix_after, stray_within, whole_after, wrong_with};

use crate::session::Session;
use boot_verdict::{
    AggregateRule, Checkpoint, ListReplay, Position, Step, Stray, Tracker, Unconfirmed,
    VerifyFault, aggregate_with, is_reached,
};
use byte_streams::Source;
use pcr_banks::Banks;
use pcr_values::Expected;
use std::alloc::Global;
use tpm_quotes::Quote;

/// What is sought of a prefix, for it to be confirmed.
#[derive(Clone, Copy)]
pub struct Goal<'a> {
    /// What the registers after it must be.
    pub sought: Sought<'a>,
    /// By which rule the boot aggregate must be good.
    pub rule: AggregateRule,
}

/// What the registers after a prefix must be.
#[derive(Clone, Copy)]
pub enum Sought<'a> {
    /// Each of these has its value.
    Expected(&'a [Expected]),
    /// The quote is of them.
    Quote(&'a Quote<'a>),
}

impl Sought<'_> {
    // Whether these registers are so.
    fn is_met(&self, banks: &Banks) -> bool
        ensures { result ≡ is_sought (sought_data self.now) (value_at banks.now) }
    {
        match self {
            Sought::Expected(expected) => are_reached(expected, banks),
            Sought::Quote(quote) => quote.is_of(banks),
        }
    }
}

// Whether each expected register has its value in these banks.
fn are_reached(expected: &[Expected], banks: &Banks) -> bool
    ensures { result ≡ are_reached expected.now (value_at banks.now) }
{
    expected.iter().all(|expected| is_reached(expected, banks))
}

/// What comes with a confirmed prefix, which the session has taken.
#[derive(Clone, Copy)]
pub struct Confirmed {
    /// How many entries the whole list has, up to its fault.
    pub entries: usize,
    /// What is wrong with the list after the prefix, if anything.
    pub unconfirmed: Option<Unconfirmed>,
}

impl Session<'_> {
    ghost use Rattle.growing_lists.specs.Prefixes.{IsPrefixTaken, IsUnconfirmedFault, TakesUnconfirmed, WatchesFound};
    ghost use Rattle.growing_lists.specs.Sessions.{HasTaken};

    /// Takes what the source has left, as [`Session::more`] does, up to the confirmed prefix: the shortest prefix of the list, no shorter
    /// than what was taken so far, whose entries are genuine and with which the boot aggregate is good by the goal's rule and the registers are as is sought. Of
    /// expected registers the verdict on it is `match`. The source is read to its end all the same, or to a fault of the list.
    ///
    /// Without such a prefix all is taken, as by [`Session::more`], with its faults; the result is `None`.
    /// A source that fails, or has too many bytes, is a fault in any case. After `Err` the session is as before. What came after the prefix
    /// is not taken: the next call wants it again, from the byte of the list at which [`Session::checkpoint`] stands.
    ///
    /// `watch` takes all new entries before the first that is not genuine, those after the prefix too, and is returned.
    pub fn confirm<R: Source, W: Tracker>(
        &mut self,
        alloc: Global,
        source: &mut R,
        limit: u64,
        goal: Goal<'_>,
        watch: W,
    ) -> Result<(Option<Confirmed>, W), VerifyFault>
        // The session has taken the confirmed prefix.
        ensures prefix { IfOk result (λ found. IfSome found.0 (λ confirmed. (log list : List ℕ) → HasTaken log list self.old
            → IsPrefixTaken log list (R.state source.old).remaining (R.state source.new).remaining (most_after self.old.checkpoint limit) (goal_data goal.entry)
            self.old.checkpoint.entries self.new confirmed)) }
        // Else no prefix is confirmed.
        ensures none { IfOk result (λ found. IfNone found.0 ((log list : List ℕ) → HasTaken log list self.old
            → TakesUnconfirmed log list (R.state source.old).remaining (R.state source.new).remaining (most_after self.old.checkpoint limit) (goal_data goal.entry)
            self.old.checkpoint.entries self.new)) }
        // What had tracked the entries taken so far has tracked those of the prefix, or of the whole list.
        ensures watched { IfOk result (λ found. (start : W) (log list : List ℕ) (taken : HasTaken log list self.old)
            → AreTracked W.is_after start taken.checkpoint.entries watch
            → WatchesFound W.is_after start log list (R.state source.old).remaining (R.state source.new).remaining (most_after self.old.checkpoint limit)
            (goal_data goal.entry) self.old.checkpoint.entries self.new found.0 found.1) }
        ensures kept { OnErr result (self.new ≡ self.old) }
        // Any fault is the first reason, and the list is refused only if no prefix is confirmed.
        ensures fault { IfErr result (λ fault. (log list : List ℕ) → HasTaken log list self.old
            → IsMoreFault list (R.state source.old).remaining (R.state source.new).remaining (most_after self.old.checkpoint limit) fault) }
        ensures unconfirmed { IfErr result (λ fault. (log list : List ℕ) → HasTaken log list self.old
            → IsUnconfirmedFault log list (R.state source.old).remaining (R.state source.new).remaining (most_after self.old.checkpoint limit)
            (goal_data goal.entry) self.old.checkpoint.entries fault) }
        // In any case the source loses bytes from its start, and nothing else.
        ensures source { LosesPrefix (R.state source.old).remaining (R.state source.new).remaining }
        ensures telling { is_some (R.state source.new).remaining ≡ is_some (R.state source.old).remaining }
        ensures counts { (R.state source.new).failures ≡ failures_after_list result (R.state source.old).failures }
    {
        let mut watch = watch;
        let search = search_list(alloc, &self.checkpoint, source, limit, goal, &mut watch)?;
        let Some(prefix) = search.prefix else {
            self.checkpoint = whole_of(search.whole)?;
            return Ok((None, watch));
        };
        self.checkpoint = prefix;
        let confirmed = Confirmed {
            entries: search.entries,
            unconfirmed: wrong_with(search.whole),
        };
        Ok((Some(confirmed), watch))
    }
}

// What a search found.
#[derive(Drop)]
struct Search {
    // The checkpoint of the confirmed prefix, if there is one.
    prefix: Option<Checkpoint>,
    // How many entries the list has, up to its fault.
    entries: usize,
    // The checkpoint of the whole list, or what is wrong with it.
    whole: Result<Checkpoint, Unconfirmed>,
}

// Searches the list that goes on with all that the source has left. `watch` takes the new entries before the first that is not genuine.
fn search_list<R: Source, W: Tracker>(
    alloc: Global,
    known: &Checkpoint,
    source: &mut R,
    limit: u64,
    goal: Goal<'_>,
    watch: &mut W,
) -> Result<Search, VerifyFault>
    ensures found { IfOk result (λ search. (list : List ℕ) → IsCheckpoint list known.now
        → Searches known.now list (R.state source.old).remaining (R.state source.new).remaining (most_after known.now limit) (goal_data goal.entry) search) }
    ensures watched { IfOk result (λ search. (start : W) (list : List ℕ) (is : IsCheckpoint list known.now)
        → AreTracked W.is_after start is.entries watch.old
        → WatchesSearch W.is_after start known.now list (R.state source.old).remaining (R.state source.new).remaining (most_after known.now limit)
        (goal_data goal.entry) search watch.new) }
    ensures fault { IfErr result (λ fault. (list : List ℕ) → IsCheckpoint list known.now
        → IsMoreFault list (R.state source.old).remaining (R.state source.new).remaining (most_after known.now limit) fault) }
    ensures other { IfErr result IsNoListFault }
    ensures source { LosesPrefix (R.state source.old).remaining (R.state source.new).remaining }
    ensures telling { is_some (R.state source.new).remaining ≡ is_some (R.state source.old).remaining }
    ensures counts { (R.state source.new).failures ≡ failures_after_list result (R.state source.old).failures }
{
    let mut replay = searching(known, goal);
    let whole = match replay.replay_more(alloc, source, known.room(limit), watch) {
        Ok(_count) => Ok(whole_after(known, &replay)),
        Err(fault) => Err(unconfirmed_of(fault)?),
    };
    Ok(Search {
        prefix: prefix_in(known, &replay, goal.rule),
        entries: replay.entries,
        whole,
    })
}

// The replay of the list, searched for a prefix: its end may be one.
fn searching<'a>(known: &Checkpoint, goal: Goal<'a>) -> ListReplay<Confirming<'a>>
    ensures replays { (list : List ℕ) → IsCheckpoint list known.now → known.now.bytes < 2 ^ 64
        → ReplaysAll IsConfirmingAfter (search_before known.now goal.entry) list result }
    ensures entries { result.entries ≡ known.now.entries }
{
    ListReplay {
        tracker: Confirming::after(known, goal),
        entries: known.entries,
        recorded: known.recorded,
        told: known.told,
        stray: known.stray,
        forged: None,
    }
}

// The checkpoint of the whole list.
fn whole_after(known: &Checkpoint, replay: &ListReplay<Confirming<'_>>) -> Checkpoint
    ensures { result ≡ whole_after known.now replay.now }
{
    Checkpoint {
        before: known.before,
        after: replay.tracker.banks,
        entries: replay.entries,
        bytes: replay.tracker.bytes,
        recorded: replay.recorded,
        told: replay.told,
        stray: replay.stray,
    }
}

// The checkpoint of the prefix after which the registers are as is sought, if the boot aggregate is good by the rule.
fn prefix_in(
    known: &Checkpoint,
    replay: &ListReplay<Confirming<'_>>,
    rule: AggregateRule,
) -> Option<Checkpoint>
    ensures prefix { (algs : AlgSet) (events : List LogEvent) → IsFirmware algs events known.now.before
        → result ≡ prefix_after (is_good (aggregate_with rule algs events
        (option_map (λ digest. (alg_of digest, bytes_of digest)) replay.now.recorded)
        (option_map (λ digest. (alg_of digest, bytes_of digest)) replay.now.told))) known.now replay.now }
    ensures counted { replay.now.entries < 2 ^ 64 }
{
    let _entries = replay.entries;
    let prefix = replay.tracker.prefix?;
    if !aggregate_with(rule, &known.before, replay.recorded, replay.told).is_good() {
        return None;
    }
    Some(Checkpoint {
        before: known.before,
        after: prefix.registers,
        entries: prefix.last.saturating_add(1),
        bytes: prefix.bytes,
        recorded: replay.recorded,
        told: replay.told,
        stray: stray_within(replay.stray, prefix.last),
    })
}

// The stray entry, if it is not after the entry with this number.
fn stray_within(stray: Option<Stray>, last: usize) -> Option<Stray>
    ensures { result ≡ stray_within stray last }
{
    match stray {
        Some(first) if first.entry <= last => stray,
        _ => None,
    }
}

// What is wrong with a list that has this fault; any other fault is returned as it is.
fn unconfirmed_of(fault: VerifyFault) -> Result<Unconfirmed, VerifyFault>
    ensures wrong { IfOk result (λ wrong. fault ≡ fault_in wrong) }
    ensures same { IfErr result (λ other. fault ≡ other) }
    ensures other { IfErr result IsNoListFault }
{
    match fault {
        VerifyFault::List(fault) => Ok(Unconfirmed::List(fault)),
        VerifyFault::Replay(fault) => Ok(Unconfirmed::Replay(fault)),
        other => Err(other),
    }
}

// What is wrong with the list, if anything.
fn wrong_with(whole: Result<Checkpoint, Unconfirmed>) -> Option<Unconfirmed>
    ensures { result ≡ wrong_with whole }
{
    whole.err()
}

// The checkpoint of the whole list, or the fault with which it is refused.
fn whole_of(whole: Result<Checkpoint, Unconfirmed>) -> Result<Checkpoint, VerifyFault>
    ensures whole { IfOk result (λ known. whole ≡ Ok known) }
    ensures fault { IfErr result (λ fault. (wrong : Unconfirmed) × (whole ≡ Err wrong) × (fault ≡ fault_in wrong)) }
{
    match whole {
        Ok(whole) => Ok(whole),
        Err(Unconfirmed::List(fault)) => Err(VerifyFault::List(fault)),
        Err(Unconfirmed::Replay(fault)) => Err(VerifyFault::Replay(fault)),
    }
}

// A prefix of the list that ends with an entry.
#[derive(Clone, Copy)]
struct Prefix {
    // The registers after it.
    registers: Banks,
    // The number of its last entry.
    last: usize,
    // How many bytes it has.
    bytes: u64,
}

// Registers, and the first prefix after which they were as is sought.
#[derive(Drop)]
struct Confirming<'a> {
    // The registers.
    banks: Banks,
    // How many bytes the entries so far have.
    bytes: u64,
    // The number of the first entry that may be the last of a prefix.
    first: usize,
    // What is sought.
    goal: Goal<'a>,
    // The prefix, if there is one so far.
    prefix: Option<Prefix>,
}

impl<'a> Confirming<'a> {
    // After the list of this checkpoint: its end may be the prefix.
    fn after(known: &Checkpoint, goal: Goal<'a>) -> Self
        ensures { result ≡ search_after known.now goal.entry }
    {
        let search = Confirming {
            banks: known.after,
            bytes: known.bytes,
            first: known.entries.saturating_sub(1),
            goal,
            prefix: None,
        };
        if known.entries == 0 {
            return search;
        }
        Confirming {
            prefix: search.prefix_at(Position::Entry(search.first)),
            ..search
        }
    }

    // The prefix that ends at this position, if it is that of an entry that may be the last, and the registers are as is sought now.
    fn prefix_at(&self, position: Position) -> Option<Prefix>
        ensures { result ≡ prefix_at self.now position }
    {
        let Position::Entry(last) = position else {
            return None;
        };
        if last >= self.first && self.goal.sought.is_met(&self.banks) {
            Some(Prefix {
                registers: self.banks,
                last,
                bytes: self.bytes,
            })
        } else {
            None
        }
    }
}

impl Tracker for Confirming<'_> {
    ghost is_after = { IsConfirmingAfter };

    // Replays the step, and looks at the registers, if there is no prefix yet.
    fn step(&mut self, step: &Step<'_>, position: Position) {
        step.replay_into(&mut self.banks);
        self.bytes = self.bytes.saturating_add(size_of(step));
        if self.prefix.is_none() {
            self.prefix = self.prefix_at(position);
        }
    }
}

// How many bytes the step has in the list.
fn size_of(step: &Step<'_>) -> u64
    ensures { result ≡ size_of_step (step_of step.now) }
{
    match step {
        Step::Event(_) => 0,
        Step::Entry(entry) => entry.size() as u64,
    }
}
