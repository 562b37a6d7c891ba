//! What the answers on a boot tell of the machine: laws, each the contract of a function that does nothing. The log may be anyone's. The
//! machine extended a register by the hashes of some data; where its value is the log's, an answer speaks of this data.
#![tactic(auto)]

mod determined;
mod firsts;
mod images;
mod secure_boots;
mod texts;
mod versions;

pub use determined::answers_are_determined;
pub use firsts::measured_data_was_hashed_first;
pub use images::image_is_told;
pub use secure_boots::{log_tells_one_value, logs_tell_one_value, secure_boot_was_hashed};
pub use texts::text_was_hashed;
pub use versions::version_was_hashed;
