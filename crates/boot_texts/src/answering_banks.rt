//! Whether a register is answered for.

ghost use Rattle.std.specs.Prelude.{◌≡◌, List};
ghost use Rattle.boot_log.specs.declared.header.DeclaredAlgorithm.{DeclaredAlgorithm};
ghost use Rattle.boot_log.specs.Names.{IsLog, LogEvent, log_bytes};
ghost use Rattle.boot_texts.specs.Answering.{has_events, is_answered};

use boot_answers::RegisterEvents;
use boot_log::LogView;
use measured_data::{Pcr, has_answer};

/// Whether an event of the log is extended into the register.
pub(crate) fn has_events(log: &LogView<'_>, register: u32) -> bool
    ensures { (table : List DeclaredAlgorithm) (events : List LogEvent) → IsLog (log_bytes log.now) table events → result ≡ has_events register events }
{
    match RegisterEvents::new(log, register).next_event() {
        Some(_) => true,
        None => false,
    }
}

/// Whether some bank answers for the register, and the log extends it.
pub(crate) fn is_answered(log: &LogView<'_>, matched: &[Pcr], register: u32) -> bool
    ensures { (table : List DeclaredAlgorithm) (events : List LogEvent) → IsLog (log_bytes log.now) table events
        → result ≡ is_answered matched.now register events }
{
    has_answer(matched, register) && has_events(log, register)
}
