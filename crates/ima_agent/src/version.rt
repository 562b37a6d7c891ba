//! The version of the program.

ghost use Rattle.std.specs.Prelude.{◌≡◌};
ghost use Rattle.ima_agent.specs.Showing.{version_text};

// The version, as the file VERSION at the top of the repository has it, and the logic that the proofs rest on, as the kit has it.
const VERSION: &str = "ima-agent 1.0.0\nlogic dac8208d650f15bf\n";

/// The lines of the version.
pub(crate) fn version_text() -> &'static [u8]
    ensures { result.now ≡ version_text }
{
    VERSION.as_bytes()
}
