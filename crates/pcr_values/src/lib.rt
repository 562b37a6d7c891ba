//! Values of registers as text. Expected values are read from lines and from what tpm2-tools print, and are written as lines; so are the values
//! of banks. A text selects registers.
#![tactic(auto)]

mod all_registers;
mod expected;
pub mod laws;
mod pcr_read;
mod printed;
mod selection;
mod text_lines;
mod texts;

pub use all_registers::{ALL_REGISTERS, register_numbered};
pub use expected::{ExpectFault, Expected, read_expected, register_on};
pub use printed::read_printed;
pub use selection::{BankRange, RegisterRange, Selection, SelectionFault};
pub use text_lines::{after_prefix, split_once};
pub use texts::{digits_of, write_change, write_expected, write_registers};
