//! What the program can be asked to do: tasks, the forms of their results, and the plans that request them.
#![tactic(auto)]

mod plan;

pub use cells::Form;
pub use plan::{
    ArgumentsFault, AttestOptions, ComparisonKind, ComparisonOptions, ConfirmedBy, Conversion,
    DataShown, LogFile, Look, Measurement, NameEnd, Names, Plan, Print, Query, Quoting, Scope,
    SigningOptions, Task,
};
