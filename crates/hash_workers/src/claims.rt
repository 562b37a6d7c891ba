//! Hands out numbers to several threads, each number once.

ghost use Rattle.std.specs.Prelude.{◌≡◌, ◌+◌, ◌-◌, ◌<◌, ◌≤◌, ◌||◌, [], ◌∷◌, ◌++◌, ℕ, true, false, All, IfOk, IfErr, IfSome, IfNone};
ghost use mathlib.Core.Option.{none};
ghost use Rattle.atomic_table.specs.Table.{step};
ghost use Rattle.hash_workers.specs.Claims.{DrawsMore, HandsOutEach, IsSeat};
ghost use Rattle.hash_workers.specs.parts.ClaimRule.{Draws, DrawsAll, MayDraw, MayDrawAll};

mod steps;
mod view;

use atomic_table::{Seat, Shared, Table};
use std::alloc::{AllocError, Global};
use std::marker::Model;
use steps::{ClaimRule, Cut, Draw, DrawAll, Look, Merge};
use view::{Allotment, SeatView};

/// The numbers 0 to `jobs` - 1, which the seats of these claims draw, each number once, whatever the schedule.
///
/// Drawing takes one atomic step on one word of memory. Each step is sequentially consistent, and waits for no other thread.
#[derive(Drop)]
pub struct Claims {
    table: Table<(), SeatView, Allotment, ClaimRule, Global>,
    allotment: Allotment,
}

impl Model for Claims {
    ghost use Rattle.std.specs.Prelude.{◌≡◌, ◌≤◌};
    ghost use Rattle.hash_workers.specs.Claims.{ClaimsState};

    ghost Value = { ClaimsState };

    ghost view = { λ c. record { jobs = c.allotment.jobs; seats = c.allotment.seats; word = c.table.shared.table_id } };

    ghost invariant = { λ c. (c.table.shared.table_id.words ≡ 1) × (c.table.shared.table_id.slots ≡ 0)
        × (c.table.shared.key ≡ c.allotment) × (1 ≤ c.allotment.seats) × (c.allotment.seats ≤ 8) };
}

/// One thread's right to draw numbers. Contracts know what it drew. A seat has one or more of the places of its claims.
#[derive(Drop)]
pub struct ClaimSeat {
    seat: Seat<(), SeatView>,
    places: u32,
    ended: bool,
}

impl Model for ClaimSeat {
    ghost use Rattle.std.specs.Prelude.{◌≡◌, ◌≤◌, []};
    ghost use Rattle.hash_workers.specs.Claims.{SeatState};

    ghost Value = { SeatState };

    ghost view = { λ c. record {
      claims = record { jobs = c.seat.me.0.jobs; seats = c.seat.me.0.seats; word = c.seat.table_id };
      places = c.places;
      draws = c.seat.me.0.draws;
      ended = c.ended;
    } };

    ghost invariant = { λ c. (c.seat.me.1 ≡ []) × (c.places ≡ c.seat.me.0.places) × (c.ended ≡ c.seat.me.0.ended)
        × (1 ≤ c.places) × (c.places ≤ 8) };
}

impl ClaimSeat {
    /// The number of the seat's places, 1 to 8.
    pub fn places(&self) -> u32
        ensures value { result ≡ self.now.places }
        ensures range { (1 ≤ result) × (result ≤ 8) }
    {
        self.places
    }

    /// Whether the seat draws no more: it found no number left, drew all that were left, or came from an ended seat.
    pub fn ended(&self) -> bool
        ensures { result ≡ self.now.ended }
    {
        self.ended
    }
}

impl Claims {
    /// Claims on the numbers below `jobs`, and the first seat, which has all `seats` places, 1 to 8, and has drawn nothing.
    ///
    /// Fails where memory runs out. No other call on claims or seats allocates.
    pub fn new(alloc: Global, jobs: u32, seats: u32) -> Result<(Claims, ClaimSeat), AllocError>
        requires { (1 ≤ seats) × (seats ≤ 8) }
        ensures claims { IfOk result (λ made. (made.0.jobs ≡ jobs) × (made.0.seats ≡ seats)) }
        ensures seat { IfOk result (λ made. IsSeat made.0 seats [] false made.1) }
    {
        let allotment = Allotment { jobs, seats };
        let (table, seat) = Table::of_words(alloc, &[0], &allotment)?;
        let seat = ClaimSeat {
            seat,
            places: seats,
            ended: false,
        };
        Ok((Claims { table, allotment }, seat))
    }

    /// Draws the next number, by one atomic addition. `None` where no number is left, and then the seat is ended. An ended seat
    /// takes no step.
    pub fn draw(&self, seat: &mut ClaimSeat) -> Option<u32>
        requires { seat.old.claims ≡ self.now }
        ensures same { (seat.new.claims ≡ self.now) × (seat.new.places ≡ seat.old.places) }
        // The number is below `jobs`, and above all that the seat drew before.
        ensures some { IfSome result (λ number. (number < self.now.jobs) × All (λ drawn. drawn < number) seat.old.draws
            × (seat.new.draws ≡ seat.old.draws ++ number ∷ []) × (seat.old.ended ≡ false) × (seat.new.ended ≡ false)) }
        ensures none { IfNone result ((seat.new.draws ≡ seat.old.draws) × (seat.new.ended ≡ true)) }
    {
        if seat.ended {
            return None;
        }
        let found = add_one(&self.table.shared, &mut seat.seat);
        if found < u64::from(self.allotment.jobs) {
            return Some(found as u32);
        }
        seat.ended = true;
        None
    }

    /// Draws all numbers that are left, by one atomic step, and ends the seat. No seat draws a number after that. An ended seat
    /// takes no step, and draws nothing.
    pub fn draw_rest(&self, seat: &mut ClaimSeat)
        requires { seat.old.claims ≡ self.now }
        ensures same { (seat.new.claims ≡ self.now) × (seat.new.places ≡ seat.old.places) }
        ensures ended { seat.new.ended ≡ true }
        // The numbers are below `jobs`, and above all that the seat drew before.
        ensures draws { DrawsMore self.now.jobs seat.old.draws seat.new.draws }
    {
        if seat.ended {
            return;
        }
        take_all(&self.table.shared, &mut seat.seat, self.allotment.jobs);
        seat.ended = true;
    }

    /// Moves one place to a new seat, which has drawn nothing, and is ended if the given seat is. Returns both seats, the new one
    /// second; or `Err` with the given seat, exactly where it has only one place.
    pub fn split(&self, seat: ClaimSeat) -> Result<(ClaimSeat, ClaimSeat), ClaimSeat>
        requires { seat.claims ≡ self.now }
        ensures ok { IfOk result (λ cut. (2 ≤ seat.places)
            × IsSeat self.now (seat.places - 1) seat.draws seat.ended cut.0 × IsSeat self.now 1 [] seat.ended cut.1) }
        ensures err { IfErr result (λ back. (back ≡ seat) × (seat.places ≡ 1)) }
    {
        if seat.places == 1 {
            return Err(seat);
        }
        let ClaimSeat {
            mut seat,
            places,
            ended,
        } = seat;
        let new = self.table.shared.split_seat::<Cut>(&mut seat);
        let giver = ClaimSeat {
            seat,
            places: places - 1,
            ended,
        };
        let new = ClaimSeat {
            seat: new,
            places: 1,
            ended,
        };
        Ok((giver, new))
    }

    /// Merges two seats into one, which has the places and the draws of both, and is ended if either was.
    pub fn join(&self, seat: ClaimSeat, other: ClaimSeat) -> ClaimSeat
        requires { (seat.claims ≡ self.now) × (other.claims ≡ self.now) }
        ensures { IsSeat self.now (seat.places + other.places) (seat.draws ++ other.draws) (seat.ended || other.ended) result }
    {
        let ClaimSeat {
            mut seat,
            places,
            ended,
        } = seat;
        let ClaimSeat {
            seat: other,
            places: more,
            ended: other_ended,
        } = other;
        let shared = &self.table.shared;
        shared.join_seat::<Merge>(&mut seat, other);
        // What the rule says of a seat is known only at a step on the word. This read shows that the joined seat has no more
        // places than there are in all, so the sum below cannot overflow.
        shared.load::<Look>(&mut seat, 0);
        ClaimSeat {
            seat,
            places: places + more,
            ended: ended || other_ended,
        }
    }

    /// Closes the claims, given the one seat that has all places. If it is ended, its draws are the numbers below `jobs`, each
    /// once.
    pub fn close(self, seat: ClaimSeat)
        requires { (seat.claims ≡ self) × (seat.places ≡ self.seats) }
        ensures { seat.ended ≡ true → HandsOutEach self.jobs seat.draws }
    {
        let Claims {
            table,
            allotment: _,
        } = self;
        let ClaimSeat {
            seat,
            places: _,
            ended: _,
        } = seat;
        table.close_with(seat).free();
    }
}

// Adds one to the word, for a seat that draws, and returns the old value.
//
// The word cannot wrap. Each draw beyond the jobs ends a seat, which then draws no more, so the word is at most the number of
// jobs plus the places of the ended seats, and below 2^32 + 8.
fn add_one(
    shared: &Shared<(), SeatView, Allotment, ClaimRule>,
    seat: &mut Seat<(), SeatView>,
) -> u64
    requires word { (seat.old.table_id ≡ shared.now.table_id) × (0 < shared.now.table_id.words) }
    requires draws { MayDraw shared.now.key shared.now.table_id.slots seat.old.id seat.old.me }
    ensures same { seat.new.table_id ≡ seat.old.table_id }
    ensures drawn { Draws (step shared.now.table_id.slots 0 1 0 none) seat.old.me result seat.new.me }
{
    shared.fetch_add::<Draw>(seat, 0, 1)
}

// Raises the word to the number of jobs, if it is less, for a seat that draws all that is left.
fn take_all(
    shared: &Shared<(), SeatView, Allotment, ClaimRule>,
    seat: &mut Seat<(), SeatView>,
    jobs: u32,
)
    requires word { (seat.old.table_id ≡ shared.now.table_id) × (0 < shared.now.table_id.words) }
    requires jobs { jobs ≡ shared.now.key.jobs }
    requires draws { MayDrawAll shared.now.key shared.now.table_id.slots seat.old.id seat.old.me }
    ensures same { seat.new.table_id ≡ seat.old.table_id }
    ensures drawn { (found : ℕ) × DrawsAll (step shared.now.table_id.slots 0 shared.now.key.jobs 0 none) seat.old.me found seat.new.me }
{
    shared.fetch_max::<DrawAll>(seat, 0, u64::from(jobs));
}
