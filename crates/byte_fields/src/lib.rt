//! Readers of fields at the start of a slice: numbers and parts of a given length.
//!
//! Each reader returns the field and the remaining bytes, or the given fault if bytes are missing.
#![tactic(auto)]

mod fields;

pub use fields::{
    big_endian_u16_at, big_endian_u32_at, big_endian_u64_at, part_at, sized_at, u8_at, u16_at,
    u32_at, u64_at,
};
