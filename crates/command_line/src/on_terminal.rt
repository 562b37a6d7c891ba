//! The arguments as on a terminal.

ghost use Rattle.std.specs.Prelude.{◌≡◌, ◌≤◌, codes, insert, map, string_bytes, vec_len, IfOk};
ghost use Rattle.std.specs.List.{list_any};
ghost use Rattle.command_line.specs.Arguments.{as_on_terminal, judges, says_look, takes_terminal};

use std::alloc::{AllocError, Global};

/// The arguments, with `--terminal` after the name of a command that judges, unless one of them says how the verdict is shown. For a program whose
/// standard output is a terminal.
#[tactic(auto, using(crate::proofs::WordLemmas::some_argument))]
pub fn as_on_terminal(alloc: Global, arguments: Vec<String>) -> Result<Vec<String>, AllocError>
    ensures { IfOk result (λ words. map string_bytes words.items ≡ as_on_terminal arguments.items) }
{
    if takes_terminal(&arguments) {
        with_terminal(alloc, arguments)
    } else {
        Ok(arguments)
    }
}

// The arguments with `--terminal` after the first.
#[tactic(auto, using(crate::proofs::WordLemmas::inserted))]
fn with_terminal(alloc: Global, mut arguments: Vec<String>) -> Result<Vec<String>, AllocError>
    requires { 1 ≤ vec_len arguments }
    ensures { IfOk result (λ words. map string_bytes words.items ≡ insert (map string_bytes arguments.items) 1 (codes "--terminal")) }
{
    arguments.insert(1, String::from_str(alloc, "--terminal")?)?;
    Ok(arguments)
}

// Whether the first argument is a command that judges, and none says how the verdict is shown.
fn takes_terminal(arguments: &[String]) -> bool
    ensures { result ≡ takes_terminal arguments.now }
{
    match arguments.first() {
        None => false,
        Some(command) => judges(command) && !say_look(arguments),
    }
}

// Whether the command judges.
fn judges(command: &String) -> bool
    ensures { result ≡ judges (string_bytes command.now) }
{
    let command = command.as_str();
    command == "verify" || command == "attest" || command == "replay"
}

// Whether some argument says how the verdict is shown.
fn say_look(arguments: &[String]) -> bool
    ensures { result ≡ list_any (λ word. says_look (string_bytes word)) arguments.now }
{
    arguments.iter().any(says_look)
}

fn says_look(word: &String) -> bool
    ensures { result ≡ says_look (string_bytes word.now) }
{
    let word = word.as_str();
    word == "--json" || word == "--summary" || word == "--terminal"
}
