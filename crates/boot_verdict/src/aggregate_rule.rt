//! By which rule a list's boot aggregate is taken.

ghost use Rattle.std.specs.Prelude.{◌≡◌, List, option_map};
ghost use Rattle.pcr_banks.specs.declared.sets.AlgSet.{AlgSet};
ghost use Rattle.pcr_banks.specs.Names.{alg_of, bytes_of, value_at};
ghost use Rattle.boot_log.specs.Names.{IsFirmware, LogEvent};
ghost use Rattle.boot_verdict.specs.Verdicts.{aggregate_with, is_old, or_old, taken_by};

use crate::report::Aggregate;
use crate::verifier::aggregate_of;
use ima_list::old_boot_aggregate;
use pcr_banks::{Banks, Digest};

/// Which boot aggregates are taken. A list's replay is the same by each rule: a rule is for what is known after it.
#[derive(Clone, Copy, Debug, PartialEq, Eq)]
pub struct AggregateRule {
    /// Whether the list's first entry may be of any template whose file is told ([`ima_list::kernel_file_of`]), such as `ima-ngv2`;
    /// otherwise it must be of one of [`ima_list::Template`].
    pub wide: bool,
    /// Whether the boot aggregate may be that of PCRs 0 to 7 alone, as kernels before 5.8 make it. Where only this rule takes it, the
    /// state is [`Aggregate::Old`].
    pub old_kernel: bool,
}

impl AggregateRule {
    /// The rule that takes the least.
    pub const PLAIN: AggregateRule = AggregateRule {
        wide: false,
        old_kernel: false,
    };

    /// What is taken of what the first entry records, and of what it is told to record by another template.
    pub(crate) fn take(self, recorded: Option<Digest>, told: Option<Digest>) -> Option<Digest>
        ensures { result ≡ taken_by self recorded told }
    {
        if self.wide {
            recorded.or(told)
        } else {
            recorded
        }
    }
}

/// The state by this rule of the boot aggregate that a list's first entry records (`recorded`), or records by another template (`told`).
/// `start` has the log's registers.
pub fn aggregate_with(
    rule: AggregateRule,
    start: &Banks,
    recorded: Option<Digest>,
    told: Option<Digest>,
) -> Aggregate
    ensures { (algs : AlgSet) (events : List LogEvent) → IsFirmware algs events start.now
        → result ≡ aggregate_with rule algs events (option_map (λ digest. (alg_of digest, bytes_of digest)) recorded)
        (option_map (λ digest. (alg_of digest, bytes_of digest)) told) }
{
    let taken = rule.take(recorded, told);
    let state = aggregate_of(start, taken);
    let is_old = is_of_old_kernel(start, taken);
    or_old(rule.old_kernel, is_old, state)
}

/// Whether what is recorded, if something is, is the aggregate of a kernel before 5.8 of these registers.
pub fn is_of_old_kernel(start: &Banks, recorded: Option<Digest>) -> bool
    ensures { result ≡ is_old (value_at start.now) (option_map (λ digest. (alg_of digest, bytes_of digest)) recorded) }
{
    match recorded {
        Some(digest) => old_boot_aggregate(start, digest.alg()) == Some(digest),
        None => false,
    }
}

// The state, where an older kernel's aggregate is taken or not, and is recorded or not.
fn or_old(takes_old: bool, is_old: bool, state: Aggregate) -> Aggregate
    ensures { result ≡ or_old takes_old is_old state }
{
    match state {
        Aggregate::Wrong if takes_old && is_old => Aggregate::Old,
        _ => state,
    }
}
