//! The agent as a library: the program, and what some of its commands show, of bytes in memory. Re-exports inputs and faults from
//! `agent_inputs`, plans and tasks from `agent_plans`, what is said of faults from `rendering`, expected registers from `pcr_values`, the
//! verdict from `boot_verdict`, and its texts from `answers`.
#![tactic(auto)]

mod boot;
mod confirmed;
mod convert;
mod events;
mod hexadecimal;
pub mod laws;
mod program;
mod shown;
mod streams;
mod version;

pub use agent_inputs::{
    AgentFiles, Files, LoadFault, NotResumed, OpenInput, ReadSource, RunFault, SharedFiles,
    SystemFiles, WriteSink, hash_from, load,
};
pub use agent_plans::{
    AttestOptions, ComparisonKind, ComparisonOptions, ConfirmedBy, Conversion, DataShown, Form,
    LogFile, Look, Measurement, NameEnd, Names, Plan, Print, Query, Quoting, Scope, SigningOptions,
    Task,
};
pub use answers::{write_positions, write_report};
pub use boot_verdict::{
    Aggregate, Located, Position, Report, Requirement, Row, State, VerifyFault, all_found,
    list_start, locate, locate_from, replay_from, required_found, verify, verify_from,
};
pub use command_line::{
    arguments_after_name, as_on_terminal, asks_quiet, color_choice, refusal_of,
};
pub use event_lines::write_events;
pub use measuring::FileProgress;
pub use pcr_values::{
    BankRange, ExpectFault, Expected, RegisterRange, Selection, SelectionFault, read_expected,
    read_printed, write_expected, write_registers,
};
pub use program::{exit_code, read_words, run, run_with_progress};
pub use rendering::{Output, json_fault_line, json_memory_line, status_of, write_fault};
pub use run_progress::{Failure, Listener, NoProgress, Progress};
