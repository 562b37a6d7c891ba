//! Verdicts on a log and a whole list, from which nobody goes on.

ghost use Rattle.std.specs.Prelude.{◌≡◌, IfSome};
ghost use Rattle.attestations.specs.Kept.{algs_of};
ghost use Rattle.judging.specs.Answering.{FindsFrom, evidence_of};
ghost use Rattle.judging.specs.Requests.{WholeVerdictOf, location_of};
ghost use Rattle.judging.specs.Inputs.{Where};

use crate::answers::{Evidence, Finding};
use crate::inputs::{Input, limit_of, refusal};
use crate::request::{Found, ScopedReport};
use attestations::quoted_algs;
use boot_verdict::verify_watched;
use byte_streams::Source;
use known_files::UnknownEntries;
use pcr_banks::AlgSet;
use std::alloc::Global;

impl Evidence<'_> {
    /// The verdict on the whole list of this source. Only the banks that are compared are replayed: where to go on is not told.
    #[inline(never)]
    pub(crate) fn whole_verdict_from<R: Source>(
        &self,
        alloc: Global,
        source: &mut R,
        list: Input<'_>,
    ) -> Finding
        ensures { (log : Where) → FindsFrom (WholeVerdictOf log) (location_of list.entry) (evidence_of self.now)
            (R.state source.old) (R.state source.new) result }
    {
        let watch = UnknownEntries::new(alloc, self.known_files.as_ref(), 0);
        let log = self.log.bytes();
        let algs = self.algs_quoted();
        let limit = limit_of(list);
        match verify_watched(
            alloc,
            log,
            source,
            limit,
            &self.expected,
            self.rule,
            algs,
            watch,
        ) {
            Ok((replayed, watch)) => {
                let registers = replayed.registers;
                let unknown = watch.within(replayed.report.entries)?;
                let judged = ScopedReport::Whole(replayed.report);
                let answer = self.answer_on(alloc, judged, &registers)?;
                Ok(Found {
                    answer,
                    next: None,
                    unknown,
                })
            }
            Err(fault) => Err(refusal(alloc, list, fault)),
        }
    }

    // The algorithms of the banks from which the quote selects, if there is one.
    fn algs_quoted(&self) -> AlgSet
        ensures { IfSome (evidence_of self.now).quote (λ quote. result ≡ algs_of quote.selections) }
    {
        match self.quote {
            Some(quote) => quoted_algs(quote),
            None => AlgSet::empty(),
        }
    }
}
