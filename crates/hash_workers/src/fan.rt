//! Runs the workers in parallel.

ghost use Rattle.std.specs.Prelude.{◌≡◌, [], false, vec_len, All, IfOk};
ghost use Rattle.hash_workers.specs.Claims.{IsSeat};
ghost use Rattle.hash_workers.specs.parts.Seats.{AreWorksOf, IsNewSeat, IsWorkOf};

use crate::claims::{ClaimSeat, Claims};
use crate::gate::Gate;
use crate::jobs::Jobs;
use crate::recorder::SharedBook;
use crate::work::{Work, take_jobs};
use measure_book::{Book, Origin};
use std::alloc::{AllocError, Global};
use std::sync::{Mutex, Wait};
use std::thread;
use std::thread::Threads;

/// Runs one worker for each place of the first seat, all of them on the same book. Returns the book and what each worker did.
pub(crate) fn fan_out<R: Threads + Wait + Sync, J: Jobs + Sync, G: Gate + Sync>(
    rt: &R,
    alloc: Global,
    claims: &Claims,
    first: ClaimSeat,
    book: Book,
    origin: &Origin,
    jobs: &J,
    gate: &G,
) -> Result<(Book, Vec<Work>), AllocError>
    requires jobs { claims.now.jobs ≡ J.total jobs.now }
    requires first { IsSeat claims.now claims.now.seats [] false first }
    ensures { IfOk result (λ done. AreWorksOf origin.now (J.makes jobs.now origin.now.alg) (J.fails jobs.now) claims.now done.1.items) }
{
    let seats = seats_of(alloc, claims, first)?;
    let book = Mutex::new(book);
    let shared = &book;
    let works = thread::map_vec(
        rt,
        seats,
        &|seat: ClaimSeat| -> Work
            requires { IsNewSeat claims.now seat × (claims.now.jobs ≡ J.total jobs.now) }
            ensures { IsWorkOf origin.entry.now (J.makes jobs.entry.now origin.entry.now.alg) (J.fails jobs.entry.now) claims.entry.now result }
        {
            let mut recorder = SharedBook { rt, book: shared };
            take_jobs(alloc, &mut recorder, origin, jobs, claims, seat, gate)
        },
    )?;
    Ok((book.into_inner(), works))
}

// Splits the first seat into seats of one place, one for each worker.
fn seats_of(alloc: Global, claims: &Claims, first: ClaimSeat) -> Result<Vec<ClaimSeat>, AllocError>
    requires { IsSeat claims.now first.places [] false first }
    ensures len { IfOk result (λ seats. vec_len seats ≡ first.places) }
    ensures each { IfOk result (λ seats. All (IsNewSeat claims.now) seats.items) }
{
    let mut seats = Vec::new(alloc);
    let mut giver = first;
    loop {
        match claims.split(giver) {
            Ok((rest, seat)) => {
                giver = rest;
                seats.push(seat)?;
            }
            Err(last) => {
                seats.push(last)?;
                return Ok(seats);
            }
        }
    }
}
