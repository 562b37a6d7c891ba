//! Worked examples. Each is also run with each of its allocations refused: a call that finds no memory says so, and is then made
//! once more.

mod exports;
mod gathers;
mod operations;
mod runs;
