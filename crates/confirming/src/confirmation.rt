//! What tells which registers match after a log.

ghost use Rattle.std.specs.Prelude.{◌≡◌, option_map, IfOk, IfErr};
ghost use Rattle.confirming.specs.Matching.{AreMatched, AreNotMatched, IsComparedLog, confirmation_of};

use crate::matches::expected_in;
use crate::quoted::quoted_in;
use agent_inputs::{AgentFiles, RunFault};
use judging::{AttestRequest, Input};
use measured_data::Pcr;
use std::alloc::Global;

/// What tells which registers match after a log.
#[derive(Clone, Copy)]
pub enum Confirming<'a> {
    /// Nothing does: none are compared.
    Nothing,
    /// Values that nobody has signed: those in this text of expected registers.
    Expected(Input<'a>),
    /// A quote of the log and a list. It is asked of the bytes of the log, and of a whole list from its beginning, whatever log, part of the list and
    /// checkpoint the request has.
    Quote(AttestRequest<'a>),
}

/// What matches after a log.
#[derive(Drop)]
pub struct Matched {
    /// The registers that match; `None` where none are compared.
    pub places: Option<Vec<Pcr>>,
    /// The exit status once all is told: of a quote that of its answer, else 0.
    pub status: u8,
}

/// The exit status of success.
pub(crate) const DONE: u8 = 0;

/// The registers that match after the log in these bytes, by what tells it; by expected registers, those that have their values; by a quote of
/// the log and a list, those that are required of it, but for the list's, if the answer to it is well. If nothing tells it, none are compared. What
/// tells it is loaded and read before the log is looked through, for its first fault; where nothing does, the log is not looked at.
pub fn matching_in<F: AgentFiles>(
    alloc: Global,
    files: &mut F,
    log: &[u8],
    confirming: Confirming<'_>,
) -> Result<Matched, RunFault>
    ensures matched { IfOk result (λ matched. AreMatched (F.inputs files.old) (confirmation_of confirming.entry) log.now
        (option_map (λ places. places.items) matched.places) matched.status) }
    ensures compared { IfOk result (λ _. IsComparedLog (confirmation_of confirming.entry) log.now) }
    ensures fault { IfErr result (AreNotMatched (F.inputs files.old) (confirmation_of confirming.entry) log.now) }
    ensures inputs { F.inputs files.new ≡ F.inputs files.old }
    ensures replaced { F.replaced files.new ≡ F.replaced files.old }
{
    match confirming {
        Confirming::Nothing => Ok(Matched {
            places: None,
            status: DONE,
        }),
        Confirming::Expected(text) => expected_in(alloc, files, log, text),
        Confirming::Quote(asked) => quoted_in(alloc, files, log, asked),
    }
}
