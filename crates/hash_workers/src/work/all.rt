//! What all workers did, collected.

ghost use Rattle.std.specs.Prelude.{◌≡◌, ◌≢◌, ◌+◌, ◌<◌, ◌≤◌, ◌++◌, ◌||◌, true, false, None, length, map, vec_len, All, IfOk, IfSome, MatchBool};
ghost use Rattle.std.specs.List.{concat};
ghost use Rattle.hash_workers.specs.Claims.{HandsOutEach, IsSeat};
ghost use Rattle.hash_workers.specs.parts.Seats.{AreJoined, HandBack, HasEnd, HasNoEnd, HaveUnmade, IsEarlier, IsLeastUnmade, IsSinglePlace, draws_in, draws_of, ended_in, outcomes_of, places_in, seat_of, taken_of};
ghost use Rattle.hash_workers.specs.parts.Scattering.{items_of};
ghost use Rattle.hash_workers.specs.parts.Settling.{AreTakenBefore, IsUnmadeOf, IsMadeOf, takings_of};

use super::{End, Unmade, Work};
use crate::claims::{ClaimSeat, Claims};
use measure_book::{BookFault, Outcome};
use std::alloc::{AllocError, Global};

/// What all workers did, with one list per worker, and room for the outcome of each job.
#[derive(Drop)]
pub(crate) struct AllWork {
    /// The jobs that each worker took.
    pub(crate) takings: Vec<Vec<u32>>,
    /// The outcomes of these jobs.
    pub(crate) groups: Vec<Vec<Outcome>>,
    /// Whether a worker found that the book has another origin.
    pub(crate) foreign: bool,
    /// The first job whose operation could not be made, if a worker stopped for one.
    pub(crate) unmade: Option<Unmade>,
    /// A place for the outcome of each job; none if there is an unmade one.
    pub(crate) outcomes: Vec<Outcome>,
    /// A place for the number of each job's worker; none if there is an unmade job.
    pub(crate) by: Vec<u32>,
}

impl AllWork {
    /// Collects what these workers did, with places for `count` jobs. Joins their seats and closes the claims, which shows that
    /// each job was taken once if no worker stopped; if one stopped for a job's operation, each job before the first such one.
    ///
    /// Fails where a worker ran out of memory, or where there is none for the lists and places. Nothing else tells how a worker
    /// ended, so any other reason comes after memory.
    pub(crate) fn of(
        alloc: Global,
        claims: Claims,
        works: Vec<Work>,
        count: usize,
    ) -> Result<Self, AllocError>
        requires some { 1 ≤ claims.seats }
        requires works { HandBack claims works.items }
        ensures made { IfOk result (IsMadeOf works.items count) }
        ensures each { IfOk result (λ all. all.foreign ≡ false → all.unmade ≡ None → HandsOutEach claims.jobs (concat (takings_of all))) }
        ensures before { IfOk result (λ all. all.foreign ≡ false → IfSome all.unmade (AreTakenBefore (takings_of all))) }
    {
        if has_end(&works, End::OutOfMemory) {
            return Err(AllocError);
        }
        let foreign = has_end(&works, End::ForeignBook);
        let unmade = unmade_of(&works);
        let needed = places_needed(unmade, count);
        let outcomes = places(alloc, needed)?;
        let by = vec![in alloc; 0u32; needed]?;
        let (takings, groups, seats) = split(alloc, works)?;
        close(claims, seats);
        Ok(AllWork {
            takings,
            groups,
            foreign,
            unmade,
            outcomes,
            by,
        })
    }
}

// The first unmade job, if a worker stopped for one.
fn unmade_of(works: &[Work]) -> Option<Unmade>
    requires { HaveUnmade works.now }
    ensures { IsUnmadeOf works.now result }
{
    if has_end(works, End::NoOperation) {
        first_unmade(works)
    } else {
        None
    }
}

// The first unmade job in the order of the jobs.
fn first_unmade(works: &[Work]) -> Option<Unmade>
    ensures { IsLeastUnmade works.now (length works.now) result }
{
    let mut first = None;
    for work in works {
        first = earlier(first, work.unmade);
    }
    first
}

// The earlier of two unmade jobs, if there are any.
fn earlier(one: Option<Unmade>, other: Option<Unmade>) -> Option<Unmade>
    ensures { IsEarlier one other result }
{
    match (one, other) {
        (Some(unmade), Some(next)) => Some(if next.job < unmade.job { next } else { unmade }),
        (unmade, None) | (None, unmade) => unmade,
    }
}

// Whether some worker ended this way.
fn has_end(works: &[Work], end: End) -> bool
    ensures { MatchBool result (HasEnd works.now end) (HasNoEnd works.now end (length works.now)) }
{
    for work in works {
        if work.end == end {
            return true;
        }
    }
    false
}

// How many places there are to be for `count` jobs: none if one is unmade, since no batch comes of them then.
fn places_needed(unmade: Option<Unmade>, count: usize) -> usize
    ensures { unmade ≡ None → result ≡ count }
{
    if unmade.is_some() { 0 } else { count }
}

// A place for each job's outcome.
fn places(alloc: Global, count: usize) -> Result<Vec<Outcome>, AllocError>
    ensures { IfOk result (λ outcomes. vec_len outcomes ≡ count) }
{
    let mut outcomes = Vec::with_capacity(alloc, count)?;
    for _job in 0..count {
        outcomes.push_reserved(Outcome::Refused(BookFault::Memory));
    }
    Ok(outcomes)
}

/// The jobs that each worker took, their outcomes, and the seats.
type Parts = (Vec<Vec<u32>>, Vec<Vec<Outcome>>, Vec<ClaimSeat>);

// Splits the workers' results into jobs, outcomes and seats.
fn split(alloc: Global, works: Vec<Work>) -> Result<Parts, AllocError>
    ensures takings { IfOk result (λ lists. map items_of lists.0.items ≡ map taken_of works.items) }
    ensures groups { IfOk result (λ lists. map items_of lists.1.items ≡ map outcomes_of works.items) }
    ensures seats { IfOk result (λ lists. lists.2.items ≡ map seat_of works.items) }
{
    let mut takings = Vec::with_capacity(alloc, works.len())?;
    let mut groups = Vec::with_capacity(alloc, works.len())?;
    let mut seats = Vec::with_capacity(alloc, works.len())?;
    for work in works {
        takings.push(work.taken)?;
        groups.push(work.outcomes)?;
        seats.push(work.seat)?;
    }
    Ok((takings, groups, seats))
}

// Closes the claims with all of their seats, which have one place each. If every seat is ended, they drew each number once.
fn close(claims: Claims, seats: Vec<ClaimSeat>)
    requires some { 1 ≤ claims.seats }
    requires seats { All (IsSinglePlace claims) seats.items }
    requires all { vec_len seats ≡ claims.seats }
    ensures { All (λ seat. seat.ended ≡ true) seats.items → HandsOutEach claims.jobs (concat (map draws_of seats.items)) }
{
    if let Some(seat) = join_seats(&claims, seats) {
        claims.close(seat);
    }
}

// Joins the seats into one.
fn join_seats(claims: &Claims, seats: Vec<ClaimSeat>) -> Option<ClaimSeat>
    requires { All (IsSinglePlace claims.now) seats.items }
    ensures { AreJoined claims.now seats.items result }
{
    let mut all = None;
    for seat in seats {
        all = Some(with(claims, all, seat));
    }
    all
}

// Joins one more seat to those joined so far.
fn with(claims: &Claims, others: Option<ClaimSeat>, seat: ClaimSeat) -> ClaimSeat
    requires seat { IsSinglePlace claims.now seat }
    requires others { IfSome others (λ all. all.claims ≡ claims.now) }
    ensures { IsSeat claims.now (places_in others + 1) (draws_in others ++ seat.draws) (ended_in others || seat.ended) result }
{
    match others {
        Some(all) => claims.join(all, seat),
        None => seat,
    }
}
