//! What a match is worth.

ghost use Rattle.std.specs.Prelude.{◌≡◌, true, option_map, string_bytes, IfOk};
ghost use Rattle.std.specs.List.{list_all};
ghost use Rattle.hints.specs.Escaping.{is_shown};
ghost use Rattle.hints.specs.Matches.{TellsMatch, TellsWeak, required_of, weak_line};

use crate::hints::weak_hint;
use agent_plans::{ComparisonOptions, Query, Task};
use attestations::first_weak;
use boot_verdict::Requirement;
use pcr_values::SelectionFault;
use std::alloc::{AllocError, Global};

/// What is to be said of a match: the first register that is required in the SHA-1 bank alone, if there is one; else no text.
pub(crate) fn match_hint(alloc: Global, task: &Task) -> Result<String, AllocError>
    ensures told { IfOk result (λ text. TellsMatch task.now (string_bytes text)) }
    ensures shown { IfOk result (λ text. list_all is_shown (string_bytes text) ≡ true) }
{
    match required_of(task) {
        None => Ok(String::new(alloc)),
        Some(required) => weak_in(alloc, required),
    }
}

// That of what this text requires.
fn weak_in(alloc: Global, text: &str) -> Result<String, AllocError>
    ensures told { IfOk result (λ told. TellsWeak text.now (string_bytes told)) }
    ensures shown { IfOk result (λ told. list_all is_shown (string_bytes told) ≡ true) }
{
    match Requirement::from_text(alloc, text.as_bytes()) {
        Ok(required) => weak_line(alloc, first_weak(&required)),
        Err(SelectionFault::Memory) => Err(AllocError),
        Err(SelectionFault::Malformed { .. } | SelectionFault::LacksPcr10) => {
            Ok(String::new(alloc))
        }
    }
}

// The line of a register, if there is one.
fn weak_line(alloc: Global, register: Option<u32>) -> Result<String, AllocError>
    ensures line { IfOk result (λ text. string_bytes text ≡ weak_line register) }
    ensures shown { IfOk result (λ text. list_all is_shown (string_bytes text) ≡ true) }
{
    match register {
        None => Ok(String::new(alloc)),
        Some(register) => weak_hint(alloc, register),
    }
}

// The text of the registers that a verdict requires.
fn required_of(task: &Task) -> Option<&str>
    ensures { option_map (λ text. text.now) result ≡ required_of task.now }
{
    match task {
        Task::Answer(Query::Comparison(ComparisonOptions { required, .. })) => required.as_deref(),
        _ => None,
    }
}
