//! Under which name an input is opened, and which bytes of a firmware event log are replayed.

ghost use Rattle.std.specs.Prelude.{◌≡◌, option_map, IfErr, IfOk};
ghost use Rattle.byte_fields.specs.Spelling.{IsBytes};
ghost use Rattle.agent_inputs.specs.Loading.{IsInputFault};
ghost use Rattle.agent_inputs.specs.Opening.{IsReplayedOf, opened_name, replayed, told};

use crate::files::{AgentFiles, Loaded, STANDARD_INPUT, load_input};
use log_imports::told_log;
use std::alloc::{AllocError, Global};

/// The name under which the input that an argument names is opened, where `-` is standard input, which has none.
pub fn opened_name(argument: &str) -> Option<&str>
    ensures { option_map (λ name. name.now) result ≡ opened_name argument.now }
{
    if argument == STANDARD_INPUT {
        None
    } else {
        Some(argument)
    }
}

/// The bytes that are replayed of the log, at most 64 MiB, in the file of this name, or in standard input without a name: its own, or if its
/// H-CRTM event tells where the machine started, the log with what that tells. A fault names the input; standard input is `-`.
pub fn load_log<F: AgentFiles>(
    alloc: Global,
    files: &mut F,
    name: Option<&str>,
    hcrtm: bool,
) -> Loaded
    ensures all { IfOk result (λ bytes. IsReplayedOf (F.inputs files.old) (option_map (λ name. name.now) name.entry) hcrtm bytes.items) }
    ensures fault { IfErr result (IsInputFault (F.inputs files.old) (option_map (λ name. name.now) name.entry)) }
    ensures inputs { F.inputs files.new ≡ F.inputs files.old }
    ensures replaced { F.replaced files.new ≡ F.replaced files.old }
{
    let log = load_input(alloc, files, name)?;
    let content = replayed(log, hcrtm)?;
    Ok(content)
}

/// The bytes that are replayed of this log: its own, or if its H-CRTM event is to tell where the machine started, the log with what that tells.
pub fn replayed(log: Vec<u8>, hcrtm: bool) -> Result<Vec<u8>, AllocError>
    ensures { IfOk result (λ content. content.items ≡ replayed hcrtm log.items) }
{
    if hcrtm { told(log) } else { Ok(log) }
}

// This log with what its H-CRTM event tells of where the machine started.
fn told(log: Vec<u8>) -> Result<Vec<u8>, AllocError>
    ensures { IfOk result (λ content. content.items ≡ told log.items) }
{
    bytes_fit(&log);
    told_log(log)
}

// Each number of a slice of bytes is a byte.
fn bytes_fit(bytes: &[u8])
    ensures { IsBytes bytes.now }
{
    let _count = bytes.len();
}
