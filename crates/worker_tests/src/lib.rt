//! Tests of the workers through what their crate hands out: worked examples, batches of many jobs, and what a gate is told.
#![tactic(auto)]

#[cfg(test)]
mod workers;
