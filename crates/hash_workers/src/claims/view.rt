//! What proofs know of a seat, and the size of the claims.

ghost use Rattle.std.specs.Prelude.{ℕ, List, Bool};
ghost use Rattle.std.specs.Borrow.{ftrue};

use std::marker::Model;

/// What proofs know of a seat. All fields are ghost; no value is made at run time.
pub(crate) struct SeatView {
    pub(crate) ghost jobs: { ℕ },
    pub(crate) ghost seats: { ℕ },
    pub(crate) ghost places: { ℕ },
    pub(crate) ghost draws: { List ℕ },
    pub(crate) ghost ended: { Bool },
}

impl Model for SeatView {
    ghost also_owns = { λ _. ftrue };
}

/// The number of jobs, and of places for seats.
#[derive(Clone, Copy)]
pub(crate) struct Allotment {
    pub(crate) jobs: u32,
    pub(crate) seats: u32,
}
