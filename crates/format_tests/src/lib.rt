//! Tests of what only a caller of the libraries reaches: hash values, logs and lists as a whole, lists in pieces, entries that are made and
//! written, sinks that fail, and single calls with a refused allocation. How the program reads and shows logs and lists is in `tests/cases/`.
//! Each test holds with any one allocation refused too, but those of calls that want all their memory.
#![tactic(auto)]

#[cfg(test)]
mod ample_memory;
#[cfg(test)]
mod cuts;
#[cfg(test)]
mod hashes;
#[cfg(test)]
mod logs;
#[cfg(test)]
mod made;
#[cfg(test)]
mod pieces;
#[cfg(test)]
mod sending;
#[cfg(test)]
mod signed;
