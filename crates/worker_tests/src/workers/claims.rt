//! Numbers that are drawn, each once, and jobs that are claimed so.

ghost use Rattle.std.specs.Prelude.{◌≡◌, ◌≤◌, IfOk};

use super::tasks::{Task, TwoFault, by_two, job_of};
use hash_workers::{Batch, ClaimSeat, Claims, Gate, Job, measure_files};
use measure_book::Op;
use std::alloc::{AllocError, Global};
use std::process::Abort;
use std::sync::Wait;
use std::sync::atomic::{AtomicBool, Ordering};
use std::test::Fail;
use std::thread::{Threads, join};
use test_kit::books::origin;

/// How often a gate looks for another job at most.
const TURNS: u32 = 100_000_000;

/// How many numbers the two threads draw.
const NUMBERS: u32 = 1_000;

/// Claims and their first seat; once more where an allocation was refused.
pub(super) fn claims_of(
    alloc: Global,
    jobs: u32,
    seats: u32,
) -> Result<(Claims, ClaimSeat), AllocError>
    requires { (1 ≤ seats) × (seats ≤ 8) }
    ensures { IfOk result (λ made. (made.1.claims ≡ made.0) × (made.0.seats ≡ seats) × (made.1.places ≡ seats)) }
{
    match Claims::new(alloc, jobs, seats) {
        Ok(made) => Ok(made),
        Err(_) => Claims::new(alloc, jobs, seats),
    }
}

#[test]
fn claims_of_three(rt: HostRuntime) -> Result<(), Fail> {
    let alloc = rt.alloc();
    let (claims, mut first) = claims_of(alloc, 3, 2)?;
    let zero = claims.draw(&mut first);
    let Ok((mut first, mut second)) = claims.split(first) else {
        return Err("a seat of two places is not split".into());
    };
    let one = claims.draw(&mut second);
    let two = claims.draw(&mut first);
    assert!(rt; [zero, one, two] == [Some(0), Some(1), Some(2)]);
    assert!(rt; !first.ended() && !second.ended());
    let nothing = [
        claims.draw(&mut first),
        claims.draw(&mut second),
        claims.draw(&mut first),
        claims.draw(&mut second),
    ];
    assert!(rt; nothing == [None, None, None, None]);
    assert!(rt; first.ended() && second.ended());
    let second = match claims.split(second) {
        Ok(_) => return Err("a seat of one place is split".into()),
        Err(seat) => seat,
    };
    let all = claims.join(first, second);
    assert!(rt; all.places() == 2 && all.ended());
    claims.close(all);
    assert!(rt; has_no_number(alloc)?);
    Ok(())
}

/// Whether nothing is drawn of claims on no numbers.
fn has_no_number(alloc: Global) -> Result<bool, AllocError> {
    let (none, mut seat) = claims_of(alloc, 0, 1)?;
    let drawn = none.draw(&mut seat);
    let ended = seat.ended();
    none.close(seat);
    Ok(drawn.is_none() && ended)
}

/// What one thread drew, until none was left; whether there was memory to keep all of it.
#[derive(Drop)]
struct Drawn {
    seat: ClaimSeat,
    numbers: Vec<u32>,
    kept: bool,
}

fn draw_all(alloc: Global, claims: &Claims, mut seat: ClaimSeat) -> Drawn
    requires { seat.claims ≡ claims.now }
    ensures { (result.seat.claims ≡ claims.now) × (result.seat.places ≡ seat.places) }
{
    let mut numbers = Vec::new(alloc);
    let mut kept = true;
    for _draw in 0..=NUMBERS {
        let Some(number) = claims.draw(&mut seat) else {
            break;
        };
        kept = numbers.push(number).is_ok() && kept;
    }
    Drawn {
        seat,
        numbers,
        kept,
    }
}

/// The numbers that two threads drew, each by a seat of its own, and the places and the end of the seats as one.
fn drawn_by_two<R: Threads + Sync>(
    rt: &R,
    alloc: Global,
) -> Result<(Vec<u32>, Vec<u32>, u32, bool), TwoFault> {
    let Ok((claims, first)) = Claims::new(alloc, NUMBERS, 8) else {
        return Err(TwoFault::Memory);
    };
    let Ok((first, second)) = claims.split(first) else {
        return Err(TwoFault::Wrong("a seat of eight places is not split"));
    };
    let shared = &claims;
    let (one, other) = join(
        rt,
        move || -> Drawn
            requires { first.claims ≡ shared.now }
            ensures { (result.seat.claims ≡ shared.entry.now) × (result.seat.places ≡ first.places) }
        { draw_all(alloc, shared, first) },
        move || -> Drawn
            requires { second.claims ≡ shared.now }
            ensures { (result.seat.claims ≡ shared.entry.now) × (result.seat.places ≡ second.places) }
        { draw_all(alloc, shared, second) },
    );
    let all = claims.join(one.seat, other.seat);
    let (places, ended) = (all.places(), all.ended());
    claims.close(all);
    if one.kept && other.kept {
        Ok((one.numbers, other.numbers, places, ended))
    } else {
        Err(TwoFault::Memory)
    }
}

/// Counts the numbers of a list; whether each is one of those that are counted.
fn count(times: &mut [u32], list: &[u32]) -> bool {
    for number in list {
        match times.get_mut(*number as usize) {
            Some(times) => *times = times.saturating_add(1),
            None => return false,
        }
    }
    true
}

/// Whether each of the numbers is in one of the lists once, and no other is.
fn all_once(alloc: Global, one: &[u32], other: &[u32]) -> Result<bool, AllocError> {
    let mut times = match vec![in alloc; 0u32; NUMBERS as usize] {
        Ok(times) => times,
        Err(_) => vec![in alloc; 0u32; NUMBERS as usize]?,
    };
    let counted = count(&mut times, one) && count(&mut times, other);
    Ok(counted && are_ones(&times))
}

fn are_ones(times: &[u32]) -> bool {
    for time in times {
        if *time != 1 {
            return false;
        }
    }
    true
}

/// Holds job 0 until job 2 is recorded.
#[derive(Drop)]
struct FirstLast {
    last: AtomicBool,
    ran_out: AtomicBool,
}

impl FirstLast {
    fn wait(&self) {
        for _turn in 0..TURNS {
            if self.last.load(Ordering::SeqCst) {
                return;
            }
        }
        self.ran_out.store(true, Ordering::SeqCst);
    }
}

impl Gate for FirstLast {
    fn hashed(&self, job: u32, _op: Option<&Op>) {
        if job == 0 {
            self.wait();
        }
    }

    fn recorded(&self, job: u32) {
        if job == 2 {
            self.last.store(true, Ordering::SeqCst);
        }
    }
}

const FILES: [Task; 3] = [
    Task::File(b"/bin/sh", b"abc"),
    Task::File(b"/bin/ls", b""),
    Task::File(b"/bin/cp", b"one"),
];

/// Three files by two workers, the first of which is held up.
fn held_batch<R: Threads + Wait + Sync>(
    rt: &R,
    alloc: Global,
    jobs: &[Job; 3],
) -> Result<Batch, TwoFault> {
    let gate = FirstLast {
        last: AtomicBool::new(false),
        ran_out: AtomicBool::new(false),
    };
    let batch = measure_files(rt, alloc, origin(100), jobs, 2, &gate);
    by_two(batch, gate.ran_out.load(Ordering::SeqCst))
}

/// A worker that is held up at one job holds up no other job.
fn assert_held<R: Threads + Wait + Sync + Abort>(rt: &R, alloc: Global) -> Result<(), Fail> {
    let [one, two, three] = &FILES;
    let jobs = [
        job_of(alloc, one)?,
        job_of(alloc, two)?,
        job_of(alloc, three)?,
    ];
    let batch = match held_batch(rt, alloc, &jobs) {
        // An allocation may have been refused.
        Err(TwoFault::Memory | TwoFault::OneWorker) => held_batch(rt, alloc, &jobs)?,
        found => found?,
    };
    assert!(rt; batch.by.len() == 3 && batch.by.get(1) == batch.by.get(2));
    assert!(rt; batch.by.first() != batch.by.get(1));
    Ok(())
}

/// None is drawn of no numbers, also by a seat that is split from one that found none; of the most the first is drawn.
fn assert_none_and_most(rt: &impl Abort, alloc: Global) -> Result<(), Fail> {
    let (none, mut first) = claims_of(alloc, 0, 2)?;
    assert!(rt; none.draw(&mut first).is_none());
    let Ok((_first, mut second)) = none.split(first) else {
        return Err("a seat of two places is not split".into());
    };
    assert!(rt; second.ended() && none.draw(&mut second).is_none());
    let (most, mut seat) = claims_of(alloc, u32::MAX, 1)?;
    assert!(rt; most.draw(&mut seat) == Some(0));
    Ok(())
}

#[test]
fn claims_of_two_threads(rt: HostRuntime) -> Result<(), Fail> {
    let alloc = rt.alloc();
    let (one, other, places, ended) = match drawn_by_two(&rt, alloc) {
        Err(TwoFault::Memory) => drawn_by_two(&rt, alloc)?,
        drawn => drawn?,
    };
    assert!(rt; places == 8 && ended && one.len() + other.len() == NUMBERS as usize);
    assert!(rt; all_once(alloc, &one, &other)?);
    assert_none_and_most(&rt, alloc)?;
    assert_held(&rt, alloc)
}
