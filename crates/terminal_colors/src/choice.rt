//! Whether a report is coloured.

ghost use Rattle.std.specs.Prelude.{◌≡◌};
ghost use Rattle.terminal_colors.specs.Choice.{asks_no_color, is_colored, names_terminal};

use std::env::VarError;

/// When a report is coloured.
#[derive(Clone, Copy, Debug, PartialEq, Eq)]
pub enum ColorChoice {
    /// On a terminal that shows colours, unless `NO_COLOR` is set.
    Auto,
    /// Always.
    Always,
    /// Never.
    Never,
}

/// Whether a report is coloured, by what is chosen, whether standard output is a terminal, and the variables `NO_COLOR`
/// (<https://no-color.org>) and `TERM`.
pub fn is_colored(
    choice: ColorChoice,
    is_terminal: bool,
    no_color: &Result<String, VarError>,
    term: &Result<String, VarError>,
) -> bool
    ensures { result ≡ is_colored choice is_terminal no_color.now term.now }
{
    match choice {
        ColorChoice::Auto => is_terminal && !asks_no_color(no_color) && names_terminal(term),
        ColorChoice::Always => true,
        ColorChoice::Never => false,
    }
}

// Whether `NO_COLOR` is set, to anything but nothing. So it is if it cannot be read.
fn asks_no_color(variable: &Result<String, VarError>) -> bool
    ensures { result ≡ asks_no_color variable.now }
{
    match variable {
        Ok(text) => !text.as_str().is_empty(),
        Err(VarError::NotPresent) => false,
        Err(_) => true,
    }
}

// Whether `TERM` names a terminal that shows colours.
fn names_terminal(variable: &Result<String, VarError>) -> bool
    ensures { result ≡ names_terminal variable.now }
{
    match variable {
        Ok(text) => !text.as_str().is_empty() && text.as_str() != "dumb",
        Err(_) => false,
    }
}
