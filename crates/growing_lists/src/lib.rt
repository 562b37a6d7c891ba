//! The verification of a measurement list that grows: sessions, which take the list as it comes and report on what they have taken;
//! the prefix of the list that expected registers or a quote confirm; and the text of where a session stopped, from which another goes on.
#![tactic(auto)]

mod checkpoint_reader;
mod confirmation;
pub mod laws;
mod same_banks;
mod saved_state;
mod session;
mod texts;

pub use checkpoint_reader::read_checkpoint;
pub use confirmation::{Confirmed, Goal, Sought};
pub use saved_state::{Boot, SavedState};
pub use session::{Session, leaves_room};
pub use texts::write_checkpoint;
