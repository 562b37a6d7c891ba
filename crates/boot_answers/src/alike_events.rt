//! The events that two boots have in common after the first in which they differ.

ghost use Rattle.std.specs.Prelude.{◌≡◌, ◌≤◌, ◌<◌, ◌*◌, ◌+◌, ◌↔◌, ℕ, List, length, IfOk, IsTrue, None, slice_index_or};
ghost use Rattle.boot_log.specs.declared.header.DeclaredAlgorithm.{DeclaredAlgorithm};
ghost use Rattle.boot_log.specs.Names.{IsLog, LogEvent, log_bytes};
ghost use Rattle.boot_answers.specs.CommonEvents.{IsLongestCommon, compared};
ghost use Rattle.boot_answers.specs.Differences.{AreOne};
ghost use Rattle.boot_answers.specs.parts.CommonLengths.{IsFilled, IsNext};

use crate::register_events::RegisterEvents;
use boot_log::LogView;
use pcr_banks::{Alg, Digest};
use std::alloc::{AllocError, Global};

/// How many events of each log [`common_events`] compares.
pub const MOST_COMPARED: usize = 256;

// The cells of a row: one for each number of events that may be left out of account, none and all among them.
const WIDTH: usize = 257;

const CELLS: usize = WIDTH * WIDTH;

/// Which events of two lists are a longest common subsequence of them.
#[derive(Drop)]
pub struct Common {
    /// For each event of the first list whether it is one; after the last mark there is none.
    pub now: Vec<bool>,
    /// For each event of the other list.
    pub before: Vec<bool>,
}

/// Which of the events that extend the register, after the first `place` of each log, the logs have in common: a longest common subsequence of
/// the next [`MOST_COMPARED`] of each, by their digests of the algorithm. An event without such a digest is like none.
///
/// Fails only if memory runs out.
pub fn common_events(
    alloc: Global,
    log: &LogView<'_>,
    other: &LogView<'_>,
    alg: Alg,
    register: u32,
    place: usize,
) -> Result<Common, AllocError>
    ensures { IfOk result (λ common. (table rows : List DeclaredAlgorithm) (events others : List LogEvent) → IsLog (log_bytes log.now) table events
        → IsLog (log_bytes other.now) rows others
        → IsLongestCommon (compared alg register place events) (compared alg register place others) common.now.items common.before.items) }
{
    let now = digests_from(alloc, log, alg, register, place)?;
    let before = digests_from(alloc, other, alg, register, place)?;
    let common = longest_common(alloc, &now, &before)?;
    Ok(common)
}

// The digests that are compared.
fn digests_from(
    alloc: Global,
    log: &LogView<'_>,
    alg: Alg,
    register: u32,
    place: usize,
) -> Result<Vec<Option<Digest>>, AllocError>
    ensures few { IfOk result (λ digests. length digests.items ≤ 256) }
    ensures are { IfOk result (λ digests. (table : List DeclaredAlgorithm) (events : List LogEvent) → IsLog (log_bytes log.now) table events
        → digests.items ≡ compared alg register place events) }
{
    let mut digests = Vec::new(alloc);
    let mut left = place;
    let mut events = RegisterEvents::new(log, register);
    while let Some(event) = events.next_event() {
        if left > 0 {
            left -= 1;
            continue;
        }
        if digests.len() == MOST_COMPARED {
            return Ok(digests);
        }
        digests.push(event.digests.get(alg))?;
    }
    Ok(digests)
}

// A longest common subsequence of the lists.
fn longest_common(
    alloc: Global,
    now: &[Option<Digest>],
    before: &[Option<Digest>],
) -> Result<Common, AllocError>
    requires now { length now.now ≤ 256 }
    requires before { length before.now ≤ 256 }
    ensures { IfOk result (λ common. IsLongestCommon now.now before.now common.now.items common.before.items) }
{
    let cells = lengths(alloc, now, before)?;
    marked(alloc, now, before, &cells)
}

// Whether the two are one digest.
fn are_one(first: Option<Digest>, other: Option<Digest>) -> bool
    ensures { IsTrue result ↔ AreOne first other }
{
    first.is_some() && first == other
}

// Where the cell stands for what is left of the lists after so many elements of each.
fn cell_at(first: usize, other: usize) -> usize
    requires first { first ≤ 256 }
    requires other { other ≤ 256 }
    ensures place { result ≡ first * 257 + other }
    ensures within { result < 66049 }
{
    first * WIDTH + other
}

// The length in the cell.
fn length_at(cells: &[u16], first: usize, other: usize) -> u16
    requires cells { length cells.now ≡ 66049 }
    requires first { first ≤ 256 }
    requires other { other ≤ 256 }
    ensures { result ≡ slice_index_or cells.now (first * 257 + other) 0 }
{
    cells[cell_at(first, other)]
}

// The digest at this place.
fn digest_at(digests: &[Option<Digest>], place: usize) -> Option<Digest>
    requires { place < length digests.now }
    ensures { result ≡ slice_index_or digests.now place None }
{
    digests[place]
}

// How long a longest common subsequence is: of lists that begin with one element or not, if it is as long without both first elements, and
// without the first of either.
fn length_of(is_one: bool, without_both: u16, without_first: u16, without_other: u16) -> u16
    requires { without_both < 256 }
    ensures { IsNext is_one without_both without_first without_other result }
{
    if is_one {
        without_both + 1
    } else if without_first < without_other {
        without_other
    } else {
        without_first
    }
}

// Writes the cells of one row, after which all later ones are written.
fn write_row(now: &[Option<Digest>], before: &[Option<Digest>], first: usize, cells: &mut Vec<u16>)
    requires before { length before.now ≤ 256 }
    requires now { length now.now ≤ 256 }
    requires row { first < length now.now }
    requires filled { IsFilled now.now before.now ((first + 1) * 257) cells.old.items }
    ensures { IsFilled now.now before.now (first * 257) cells.new.items }
{
    let mut other = before.len();
    while other > 0 {
        other -= 1;
        let is_one = are_one(digest_at(now, first), digest_at(before, other));
        let without_both = cells[cell_at(first + 1, other + 1)];
        let without_first = cells[cell_at(first + 1, other)];
        let without_other = cells[cell_at(first, other + 1)];
        cells[cell_at(first, other)] = length_of(
            is_one,
            without_both,
            without_first,
            without_other,
        );
    }
}

// For what is left of the lists after any elements of each the length of a longest common subsequence.
fn lengths(
    alloc: Global,
    now: &[Option<Digest>],
    before: &[Option<Digest>],
) -> Result<Vec<u16>, AllocError>
    requires now { length now.now ≤ 256 }
    requires before { length before.now ≤ 256 }
    ensures { IfOk result (λ cells. IsFilled now.now before.now 0 cells.items) }
{
    let mut cells = vec![in alloc; 0; CELLS]?;
    let mut first = now.len();
    while first > 0 {
        first -= 1;
        write_row(now, before, first, &mut cells);
    }
    Ok(cells)
}

// Marks the elements of a longest common subsequence.
fn marked(
    alloc: Global,
    now: &[Option<Digest>],
    before: &[Option<Digest>],
    cells: &[u16],
) -> Result<Common, AllocError>
    requires now { length now.now ≤ 256 }
    requires before { length before.now ≤ 256 }
    requires filled { IsFilled now.now before.now 0 cells.now }
    ensures { IfOk result (λ common. IsLongestCommon now.now before.now common.now.items common.before.items) }
{
    let mut common = Common {
        now: Vec::new(alloc),
        before: Vec::new(alloc),
    };
    while common.now.len() < now.len() && common.before.len() < before.len() {
        let (first, other) = (common.now.len(), common.before.len());
        let is_one = are_one(digest_at(now, first), digest_at(before, other));
        let without_first = length_at(cells, first + 1, other);
        let without_other = length_at(cells, first, other + 1);
        if is_one {
            common.now.push(true)?;
            common.before.push(true)?;
        } else if without_other <= without_first {
            common.now.push(false)?;
        } else {
            common.before.push(false)?;
        }
    }
    Ok(common)
}
