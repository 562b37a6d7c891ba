//! Tests of the verdict through what its crate hands out: lists in pieces, devices that fail, refused allocations, and a real boot; and of `uses`.
#![tactic(auto)]

#[cfg(test)]
mod short_uses;
#[cfg(test)]
mod verdicts;
