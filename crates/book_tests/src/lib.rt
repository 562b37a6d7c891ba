//! Tests of the book through what its crate hands out: worked examples, and what callers gather.
#![tactic(auto)]

#[cfg(test)]
mod books;
