//! The texts of expected registers and of registers.

mod digits;
mod expected;
mod registers;

pub use digits::digits_of;
pub use expected::write_expected;
pub use registers::{write_change, write_registers};
