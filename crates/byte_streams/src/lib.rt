//! Traits for byte sinks and sources, with implementations over memory; writers that send all bytes, and a reader that reads
//! piece by piece.
//!
//! Every sink and source counts its failures, and may make its bytes known to contracts. For every device, contracts state when
//! a call failed; where its bytes are known, they also state which bytes it took or gave.
#![tactic(auto)]

mod memory;
mod piece_reader;
mod streams;

pub use memory::{SliceSource, VecSink};
pub use piece_reader::{PieceReader, ReadFault, remove_prefix};
pub use streams::{Failed, Sink, Source, send, send_pieces};
