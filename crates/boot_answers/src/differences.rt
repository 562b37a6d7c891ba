//! Where two boots differ.

ghost use Rattle.std.specs.Prelude.{◌≡◌, ◌↔◌, List, IsTrue};
ghost use Rattle.boot_log.specs.declared.header.DeclaredAlgorithm.{DeclaredAlgorithm};
ghost use Rattle.boot_log.specs.Names.{IsLog, LogEvent, log_bytes, log_event_of};
ghost use Rattle.pcr_banks.specs.Names.{digest_in};
ghost use Rattle.boot_answers.specs.Differences.{AreOne, IsFirstDifference, IsKnown};

use crate::register_events::RegisterEvents;
use boot_log::{Event, LogView};
use pcr_banks::{Alg, Digest};

// Whether the digests are the same, or there is none in either.
fn are_same(first: Option<Digest>, other: Option<Digest>) -> bool
    ensures { IsTrue result ↔ (first ≡ other) }
{
    first == other
}

// Whether the event has a digest in the algorithm's bank.
fn has_digest(event: &Event<'_>, alg: Alg) -> bool
    ensures { IsTrue result ↔ IsKnown (digest_in event.now.digests alg) }
{
    event.digests.get(alg).is_some()
}

// Whether the events have the same digest in the algorithm's bank, or none.
fn extend_alike(event: &Event<'_>, other: &Event<'_>, alg: Alg) -> bool
    ensures { IsTrue result ↔ (digest_in event.now.digests alg ≡ digest_in other.now.digests alg) }
{
    are_same(event.digests.get(alg), other.digests.get(alg))
}

// Whether the events have one digest in the algorithm's bank.
fn extend_as_one(event: &Event<'_>, other: &Event<'_>, alg: Alg) -> bool
    ensures { IsTrue result ↔ AreOne (digest_in event.now.digests alg) (digest_in other.now.digests alg) }
{
    has_digest(event, alg) && extend_alike(event, other, alg)
}

/// How often the two logs extend the register by the same digests of the algorithm before they differ; `None` where they extend it alike. An
/// event without a digest of the algorithm is like none: logs without this bank differ at once. Two logs without events of the register are
/// alike, in whatever bank.
pub fn first_difference(
    log: &LogView<'_>,
    other: &LogView<'_>,
    alg: Alg,
    register: u32,
) -> Option<usize>
    ensures { (table rows : List DeclaredAlgorithm) (events others : List LogEvent) → IsLog (log_bytes log.now) table events
        → IsLog (log_bytes other.now) rows others → IsFirstDifference alg register events others result }
{
    let mut place: usize = 0;
    let mut events = RegisterEvents::new(log, register);
    let mut others = RegisterEvents::new(other, register);
    while let Some(event) = events.next_event() {
        let Some(other) = others.next_event() else {
            return Some(place);
        };
        if !extend_as_one(&event, &other, alg) {
            return Some(place);
        }
        let _read = events.count();
        place += 1;
    }
    match others.next_event() {
        Some(_) => Some(place),
        None => None,
    }
}
