//! The lines of a list's entries and of a log's events, by pieces: as many whole lines as there is room for, and where the next begin.
//! Nothing is kept between two pieces but a [`LineOffset`], and no more than a piece and one line is in memory.
#![tactic(auto)]

mod entry_pieces;
mod event_pieces;
pub mod laws;
mod piece;

pub use entry_pieces::entry_lines;
pub use event_pieces::event_lines;
pub use piece::{LineOffset, Piece, PieceEnd};
