//! What the value of a register tells of what extended it, and what it does not; what it tells of measured data; what a quote tells of
//! values, and an attestation of a log and a list: laws, each the contract of a function that does nothing, or only reads.
#![tactic(auto)]

mod attested;
mod banks;
mod lists;
mod logs;
mod measured;
mod quotes;

pub use attested::attestation_tells_extends;
pub use banks::value_tells_extends;
pub use lists::{
    banks_tell_extensions, extensions_tell_genuine_digests, value_tells_extensions,
    value_tells_extensions_alone,
};
pub use logs::{firmware_value_tells_extends, firmware_value_tells_extends_alone};
pub use measured::{
    confirmed_data_was_hashed, measured_data_is_the_same, measured_data_was_hashed,
    value_tells_no_name,
};
pub use quotes::quote_tells_values;
