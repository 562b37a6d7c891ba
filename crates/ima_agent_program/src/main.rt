//! The program `ima-agent`, which is `ima_agent::exit_code` over the system's files and streams.
#![tactic(auto)]

use hints::{Audience, SystemProgress};
use ima_agent::{
    Listener, SystemFiles, WriteSink, arguments_after_name, as_on_terminal, asks_quiet,
    color_choice, exit_code, refusal_of,
};
use std::alloc::Global;
use std::io::IsTerminal;
use std::process::ExitCode;
use std::rt::Env;
use std::{env, io};
use terminal_colors::{ColorChoice, ColorSink, is_colored};

/// The arguments after the program's name, for an output that is a terminal or is none. Fails if memory runs out, or if one is not UTF-8.
fn arguments(rt: &(impl Env + AllocGlobal), is_terminal: bool) -> io::Result<Vec<String>> {
    let arguments = arguments_after_name(rt.alloc(), env::args(rt)?)?;
    if is_terminal && are_taken(rt.alloc(), &arguments) {
        Ok(as_on_terminal(rt.alloc(), arguments)?)
    } else {
        Ok(arguments)
    }
}

// Whether these are arguments of a command: of wrong ones nothing is said that nobody gave.
fn are_taken(alloc: Global, arguments: &[String]) -> bool {
    matches!(refusal_of(alloc, arguments), Ok(None))
}

// Whether these arguments ask for silence.
fn are_quiet(arguments: &io::Result<Vec<String>>) -> bool {
    match arguments {
        Ok(arguments) => asks_quiet(arguments),
        Err(_) => false,
    }
}

// When these arguments ask for colours.
fn colors_of(arguments: &io::Result<Vec<String>>) -> ColorChoice {
    match arguments {
        Ok(arguments) => color_choice(arguments),
        Err(_) => ColorChoice::Never,
    }
}

fn main(rt: HostRuntime) -> ExitCode {
    let is_terminal = rt.stdout().is_terminal();
    let arguments = arguments(&rt, is_terminal);
    let colors = is_colored(
        colors_of(&arguments),
        is_terminal,
        &env::var(&rt, "NO_COLOR"),
        &env::var(&rt, "TERM"),
    );
    let mut output = ColorSink::new(WriteSink::new(rt.stdout()), colors);
    let audience = Audience {
        types: rt.stdin().is_terminal(),
        listener: Listener::of(rt.stderr().is_terminal(), are_quiet(&arguments)),
    };
    let progress = SystemProgress::new(&rt, audience);
    exit_code(
        &rt,
        rt.alloc(),
        arguments,
        &mut SystemFiles::new(&rt),
        &mut output,
        &progress,
    )
}
