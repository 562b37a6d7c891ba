//! The line of what the told texts of both registers ask of Linux.

ghost use Rattle.std.specs.Prelude.{◌≡◌, ◌++◌, List, OnOk};
ghost use Rattle.boot_log.specs.declared.header.DeclaredAlgorithm.{DeclaredAlgorithm};
ghost use Rattle.boot_log.specs.Names.{IsLog, LogEvent, log_bytes};
ghost use Rattle.boot_answers.specs.declared.policies.ImaPolicy.{ImaPolicy as PolicyData};
ghost use Rattle.boot_answers.specs.Policies.{IsImaPolicy};
ghost use Rattle.cells.specs.Cells.{ShowsMembers, rendered};
ghost use Rattle.boot_texts.specs.AnswerCells.{policy_cell, policy_event, policy_word};

use crate::commands::show_event;
use boot_answers::{ImaPolicy, ima_policy};
use boot_log::LogView;
use cells::{CellWriter, Form, Shown, Written, append};
use measured_data::Pcr;
use std::alloc::Global;

/// Appends the line of what the told texts ask.
pub(crate) fn append_policy(
    alloc: Global,
    form: Form,
    log: &LogView<'_>,
    matched: &[Pcr],
    lines: &mut Vec<u8>,
) -> Written
    ensures { OnOk result ((table : List DeclaredAlgorithm) (events : List LogEvent) → IsLog (log_bytes log.now) table events
        → (policy : PolicyData) × IsImaPolicy matched.now events policy
        × (lines.new.items ≡ lines.old.items ++ rendered form (policy_cell policy))) }
{
    let policy = ima_policy(alloc, log, matched)?;
    append(alloc, form, &PolicyLine { policy }, lines)?;
    Ok(())
}

// The line of what the told texts ask.
#[derive(Drop)]
struct PolicyLine {
    policy: ImaPolicy,
}

impl Shown for PolicyLine {
    ghost cell_of = { λ line. policy_cell line.policy };

    fn show(&self, _alloc: Global, out: &mut CellWriter) -> Written {
        show_policy(self.policy, out)
    }
}

fn show_policy(policy: ImaPolicy, out: &mut CellWriter) -> Written
    ensures { ShowsMembers result out.old out.new (policy_cell policy) }
{
    out.word("ima_policy ", "ima_policy", policy_word(policy))?;
    show_event(policy_event(policy), out)?;
    out.text("\n")
}

// What is asked, in one word.
fn policy_word(policy: ImaPolicy) -> &'static str
    ensures { result.now ≡ policy_word policy }
{
    match policy {
        ImaPolicy::Asked(_) => "asked",
        ImaPolicy::Possible(_) => "possible",
        ImaPolicy::Unknown => "unknown",
    }
}

// The number of the event that asks.
fn policy_event(policy: ImaPolicy) -> Option<usize>
    ensures { result ≡ policy_event policy }
{
    match policy {
        ImaPolicy::Asked(event) | ImaPolicy::Possible(event) => Some(event),
        ImaPolicy::Unknown => None,
    }
}
