//! The claim rule, and the steps that keep it.

ghost use Rattle.hash_workers.specs.parts.ClaimRule.{KeepsRule, first_view, Draws, DrawsAll, Looks, giver, taker, merged, spent};

use super::view::{Allotment, SeatView};
use atomic_table::{Join, Play, Split, TableRule};

/// The invariant of the word and all views, between any two steps.
#[derive(Clone, Copy)]
pub(crate) struct ClaimRule;

impl TableRule<(), SeatView, Allotment> for ClaimRule {
    ghost holds = { KeepsRule };

    ghost first = { first_view };
}

/// A number is drawn, or none is left.
pub(crate) struct Draw;

impl Play<(), SeatView> for Draw {
    ghost then = { Draws };
}

/// All numbers that are left are drawn.
pub(crate) struct DrawAll;

impl Play<(), SeatView> for DrawAll {
    ghost then = { DrawsAll };
}

/// The word is read, and nothing changes.
pub(crate) struct Look;

impl Play<(), SeatView> for Look {
    ghost then = { Looks };
}

/// One place goes to a new seat.
pub(crate) struct Cut;

impl Split<SeatView> for Cut {
    ghost left = { giver };

    ghost right = { taker };
}

/// Two seats become one.
pub(crate) struct Merge;

impl Join<SeatView> for Merge {
    ghost both = { merged };

    ghost spent = { spent };
}
