//! The answers on a machine's boot, by the registers that match.

ghost use Rattle.std.specs.Prelude.{◌≡◌, ◌⊎◌, ℕ, List, ◌++◌, Some, option_map, IfErr, IfOk, OnErr, OnOk};
ghost use Rattle.agent_inputs.specs.declared.fault.RunFault.TheVariants.{Memory};
ghost use Rattle.agent_inputs.specs.Faults.{HasLogFault};
ghost use Rattle.boot_log.specs.declared.header.DeclaredAlgorithm.{DeclaredAlgorithm};
ghost use Rattle.boot_log.specs.Names.{IsLog, LogEvent, log_bytes};
ghost use Rattle.boot_texts.specs.Differences.{AreDifferenceLines};
ghost use Rattle.judging.specs.Requests.{location_of};
ghost use Rattle.confirming.specs.Matching.{confirmation_of};
ghost use Rattle.confirming.specs.Boot.{AreCompared, IsNoBoot, IsNoEarlierLog, ShowsBoot, places_of};

use crate::confirmation::{Confirming, matching_in};
use agent_inputs::{AgentFiles, RunFault};
use boot_log::LogView;
use boot_texts::{append_boot, append_differences};
use cells::Form;
use judging::{Input, load_at};
use measured_data::Pcr;
use rendering::Output;
use std::alloc::Global;

/// The answers on the boot that left the log in these bytes, and how far an earlier boot extended the registers alike, if there is a log of it.
/// They are given by the registers that match, by what tells it, and what nothing confirms is unknown; if nothing tells it, they are what the
/// log's events claim, each marked so.
///
/// What tells which registers match is loaded and read; then the log is looked through for its first fault; then that of the earlier boot is
/// loaded and looked through.
pub fn boot_on<F: AgentFiles>(
    alloc: Global,
    files: &mut F,
    log: &[u8],
    confirming: Confirming<'_>,
    before: Option<Input<'_>>,
    form: Form,
) -> Result<Output, RunFault>
    ensures shown { IfOk result (λ output. ShowsBoot (F.inputs files.old) form (confirmation_of confirming.entry) (option_map location_of before.entry)
        log.now output.text.items output.status) }
    ensures fault { IfErr result (IsNoBoot (F.inputs files.old) (confirmation_of confirming.entry) (option_map location_of before.entry) log.now) }
    ensures inputs { F.inputs files.new ≡ F.inputs files.old }
    ensures replaced { F.replaced files.new ≡ F.replaced files.old }
{
    let matched = matching_in(alloc, files, log, confirming)?;
    let places = places_of(&matched.places);
    let view = LogView::new(log)?;
    let mut text = Vec::new(alloc);
    append_boot(alloc, &view, matched.places.as_deref(), form, &mut text)?;
    append_compared(alloc, files, &view, places, form, before, &mut text)?;
    Ok(Output {
        text,
        status: matched.status,
    })
}

// The registers that match; none where none were compared.
fn places_of(matched: &Option<Vec<Pcr>>) -> &[Pcr]
    ensures { result.now ≡ places_of (option_map (λ places. places.items) matched.now) }
{
    match matched {
        Some(places) => places,
        None => &[],
    }
}

// Appends the lines of the comparison with the boot that left the log in this input, if there is one.
fn append_compared<F: AgentFiles>(
    alloc: Global,
    files: &mut F,
    view: &LogView<'_>,
    matched: &[Pcr],
    form: Form,
    before: Option<Input<'_>>,
    lines: &mut Vec<u8>,
) -> Result<(), RunFault>
    ensures lines { OnOk result ((table : List DeclaredAlgorithm) (events : List LogEvent) → IsLog (log_bytes view.now) table events
        → (text : List ℕ) × AreCompared (F.inputs files.old) form matched.now events (option_map location_of before.entry) text
        × (lines.new.items ≡ lines.old.items ++ text)) }
    ensures fault { IfErr result (λ fault. IsNoEarlierLog (F.inputs files.old) (option_map location_of before.entry) fault
        ⊎ (fault ≡ Memory)) }
    ensures inputs { F.inputs files.new ≡ F.inputs files.old }
    ensures replaced { F.replaced files.new ≡ F.replaced files.old }
{
    match before {
        None => Ok(()),
        Some(earlier) => append_earlier(alloc, files, view, earlier, matched, form, lines),
    }
}

// Appends those of the comparison with the boot that left the log in this input.
fn append_earlier<F: AgentFiles>(
    alloc: Global,
    files: &mut F,
    view: &LogView<'_>,
    earlier: Input<'_>,
    matched: &[Pcr],
    form: Form,
    lines: &mut Vec<u8>,
) -> Result<(), RunFault>
    ensures lines { OnOk result ((table : List DeclaredAlgorithm) (events : List LogEvent) → IsLog (log_bytes view.now) table events
        → (text : List ℕ) × AreCompared (F.inputs files.old) form matched.now events (Some (location_of earlier.entry)) text
        × (lines.new.items ≡ lines.old.items ++ text)) }
    ensures fault { IfErr result (λ fault. IsNoEarlierLog (F.inputs files.old) (Some (location_of earlier.entry)) fault ⊎ (fault ≡ Memory)) }
    ensures inputs { F.inputs files.new ≡ F.inputs files.old }
    ensures replaced { F.replaced files.new ≡ F.replaced files.old }
{
    let held = load_at(alloc, files, earlier)?;
    append_since(alloc, view, held.bytes(), matched, form, lines)
}

// Appends those of the comparison with the boot that left the log in these bytes.
fn append_since(
    alloc: Global,
    view: &LogView<'_>,
    earlier: &[u8],
    matched: &[Pcr],
    form: Form,
    lines: &mut Vec<u8>,
) -> Result<(), RunFault>
    ensures lines { OnOk result ((table : List DeclaredAlgorithm) (events : List LogEvent) → IsLog (log_bytes view.now) table events
        → (text : List ℕ) × ((rows : List DeclaredAlgorithm) × (others : List LogEvent) × IsLog earlier.now rows others
        × AreDifferenceLines form matched.now events others text) × (lines.new.items ≡ lines.old.items ++ text)) }
    ensures fault { IfErr result (λ fault. HasLogFault earlier.now fault ⊎ (fault ≡ Memory)) }
{
    let before = LogView::new(earlier)?;
    append_differences(alloc, view, &before, matched, form, lines)?;
    Ok(())
}
