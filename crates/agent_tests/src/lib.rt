//! Tests of the agent through what its crate hands out: inputs that fail, grow or shrink, devices of std, commands on devices that fail,
//! refused allocations, progress, exit codes, and lines of faults.
#![tactic(auto)]

#[cfg(test)]
mod colors;
#[cfg(test)]
mod commands;
#[cfg(test)]
mod devices;
#[cfg(test)]
mod failing_devices;
#[cfg(test)]
mod fault_lines;
#[cfg(test)]
mod progress;
#[cfg(test)]
mod refusals;
#[cfg(test)]
mod sources;
#[cfg(test)]
mod system;
