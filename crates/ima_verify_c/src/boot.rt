//! What was booted, and which of a log's data is confirmed: calls for the PCRs that match, for a boot, and for events.

ghost use Rattle.std.specs.Prelude.{◌≡◌, ◌⊎◌, None, option_map, pos, IfErr, IfOk};
ghost use Rattle.agent_inputs.specs.declared.fault.RunFault.TheVariants.{Memory};
ghost use Rattle.agent_inputs.specs.Loading.{unknown};
ghost use Rattle.agent_inputs.specs.Opening.{replayed};
ghost use Rattle.cells.specs.declared.writer.Form.TheVariants.{Json};
ghost use Rattle.confirming.specs.Boot.{IsNoBoot, ShowsBoot, places_of};
ghost use Rattle.confirming.specs.Matching.{AreNotMatched, confirmation_of};
ghost use Rattle.judging.specs.Requests.{location_of};
ghost use Rattle.ima_verify_c.specs.Answers.{Answers, GivesEvents, info_of};
ghost use Rattle.ima_verify_c.specs.Boot.{AnswersTo, AreGivenPlaces, AreNoPlaces, GivesOutput, IsBootAnswer, IsMatching, IsMatchingAnswer, asked_of_boot, asked_of_matching, earlier_in};
ghost use Rattle.ima_verify_c.specs.Requests.{form_of};

use crate::evidence::{Evidence, confirming_in, earlier_in, some_confirming_in, with_nonce};
use crate::nonce::nonce_in;
use crate::replayed::replayed_in;
use crate::replies::{MISUSED, answer_of_status, give_fault, give_lines, put};
use crate::requests::form_of;
use crate::text_info::TextInfo;
use agent_inputs::RunFault;
use agent_plans::Form;
use confirming::{Confirming, boot_on, matching_in, read_matching, write_matching};
use judging::Input;
use line_chunks::{LineOffset, event_lines};
use measured_data::Pcr;
use rendering::{NoFiles, Output};
use std::alloc::Global;

/// The PCRs that match after a firmware event log, one by one, as in `sha256:0,sha256:1,sha1:4`: [`ima_verify_raw_events`](crate::ima_verify_raw_events)
/// takes this text. With `by` 1 they are those that have their values after the log, of the text of expected PCRs; with `by` 2 those that the quote is
/// of, which the log alone extends, if the answer of [`ima_verify_raw_attest`](crate::ima_verify_raw_attest) to it is 0. If that is 1, so is this, and
/// there are none. The line of an error is JSON, as those of events are.
///
/// 6 if `by` is neither, if anything is given that does not belong to it, or if what is given of a quote does not belong together: nothing is then read
/// or written.
#[unsafe(no_mangle)]
pub extern "C" fn ima_verify_raw_matching<'a>(
    alloc: Global,
    log: &'a [u8],
    hcrtm: bool,
    old_kernel: bool,
    by: u32,
    expected: &'a [u8],
    list: &'a [u8],
    message: &'a [u8],
    key: &'a [u8],
    signature: &'a [u8],
    nonce: &'a [u8],
    nonce_hex: &'a [u8],
    require: &'a [u8],
    allow_sha1: bool,
    signature_checked: bool,
    out: &mut [u8],
    info: &mut TextInfo,
) -> i32
    ensures { AnswersTo (asked_of_matching (record {
      by = by;
      expected = expected.now;
      list = list.now;
      message = message.now;
      key = key.now;
      signature = signature.now;
      nonce = nonce.now;
      nonce_hex = nonce_hex.now;
      require = require.now;
      allow_sha1 = allow_sha1;
      old_kernel = old_kernel;
      signature_checked = signature_checked;
    })) Json (IsMatchingAnswer (replayed hcrtm log.now)) result info.new out.old out.new }
{
    let given = Evidence {
        by,
        expected,
        list,
        message,
        key,
        signature,
        nonce,
        nonce_hex,
        require,
        allow_sha1,
        old_kernel,
        signature_checked,
    };
    let Some(confirming) = some_confirming_in(given) else {
        return give_misuse(info);
    };
    let nonce = match nonce_in(alloc, nonce, nonce_hex) {
        Ok(Some(nonce)) => nonce,
        Ok(None) => return give_misuse(info),
        Err(fault) => return give_fault(alloc, Form::Json, &fault, out, info),
    };
    let made = matching_on(alloc, log, hcrtm, with_nonce(confirming, nonce.bytes()));
    give_output(alloc, Form::Json, made, out, info)
}

/// What was booted, as `boot` writes it, by the PCRs that match, which [`ima_verify_raw_matching`] gives; with `by` 0 none match, and what nothing
/// confirms is unknown. With `compares` it also has how far the boot that left the log `before` extended the PCRs alike. 1 if the answer to the quote
/// is not 0: then none match.
///
/// 6 as in [`ima_verify_raw_matching`], but not for `by` 0.
#[unsafe(no_mangle)]
pub extern "C" fn ima_verify_raw_boot<'a>(
    alloc: Global,
    log: &'a [u8],
    hcrtm: bool,
    old_kernel: bool,
    before: &'a [u8],
    compares: bool,
    by: u32,
    expected: &'a [u8],
    list: &'a [u8],
    message: &'a [u8],
    key: &'a [u8],
    signature: &'a [u8],
    nonce: &'a [u8],
    nonce_hex: &'a [u8],
    require: &'a [u8],
    allow_sha1: bool,
    signature_checked: bool,
    json: bool,
    out: &mut [u8],
    info: &mut TextInfo,
) -> i32
    ensures { AnswersTo (asked_of_boot (record {
      by = by;
      expected = expected.now;
      list = list.now;
      message = message.now;
      key = key.now;
      signature = signature.now;
      nonce = nonce.now;
      nonce_hex = nonce_hex.now;
      require = require.now;
      allow_sha1 = allow_sha1;
      old_kernel = old_kernel;
      signature_checked = signature_checked;
    })) (form_of json) (IsBootAnswer (form_of json) (earlier_in compares before.now) (replayed hcrtm log.now))
        result info.new out.old out.new }
{
    let given = Evidence {
        by,
        expected,
        list,
        message,
        key,
        signature,
        nonce,
        nonce_hex,
        require,
        allow_sha1,
        old_kernel,
        signature_checked,
    };
    let Some(confirming) = confirming_in(given) else {
        return give_misuse(info);
    };
    let form = form_of(json);
    let nonce = match nonce_in(alloc, nonce, nonce_hex) {
        Ok(Some(nonce)) => nonce,
        Ok(None) => return give_misuse(info),
        Err(fault) => return give_fault(alloc, form, &fault, out, info),
    };
    let confirming = with_nonce(confirming, nonce.bytes());
    let earlier = earlier_in(compares, before);
    let made = booted(alloc, log, hcrtm, confirming, earlier, form);
    give_output(alloc, form, made, out, info)
}

// What was booted, where this log is replayed.
fn booted(
    alloc: Global,
    log: &[u8],
    hcrtm: bool,
    confirming: Confirming<'_>,
    earlier: Option<Input<'_>>,
    form: Form,
) -> Result<Output, RunFault>
    ensures shown { IfOk result (λ output. ShowsBoot unknown form (confirmation_of confirming.entry) (option_map location_of earlier.entry)
        (replayed hcrtm log.now) output.text.items output.status) }
    ensures fault { IfErr result (λ fault. IsNoBoot unknown (confirmation_of confirming.entry) (option_map location_of earlier.entry)
        (replayed hcrtm log.now) fault ⊎ (fault ≡ Memory)) }
{
    let log = replayed_in(alloc, log, hcrtm)?;
    boot_on(alloc, &mut NoFiles, log.bytes(), confirming, earlier, form)
}

// The text of the PCRs that match, where this log is replayed.
fn matching_on(
    alloc: Global,
    log: &[u8],
    hcrtm: bool,
    confirming: Confirming<'_>,
) -> Result<Output, RunFault>
    ensures matching { IfOk result (λ output. IsMatching (replayed hcrtm log.now) (confirmation_of confirming.entry) output.text.items output.status) }
    ensures fault { IfErr result (λ fault. AreNotMatched unknown (confirmation_of confirming.entry) (replayed hcrtm log.now) fault ⊎ (fault ≡ Memory)) }
{
    let log = replayed_in(alloc, log, hcrtm)?;
    let matched = matching_in(alloc, &mut NoFiles, log.bytes(), confirming)?;
    let text = write_matching(alloc, places_of(&matched.places))?;
    Ok(Output {
        text,
        status: matched.status,
    })
}

// The PCRs that match; none where none were compared.
fn places_of(matched: &Option<Vec<Pcr>>) -> &[Pcr]
    ensures { result.now ≡ places_of (option_map (λ places. places.items) matched.now) }
{
    match matched {
        Some(places) => places,
        None => &[],
    }
}

// Gives an output, or the line of a fault.
fn give_output(
    alloc: Global,
    form: Form,
    made: Result<Output, RunFault>,
    out: &mut [u8],
    info: &mut TextInfo,
) -> i32
    ensures { GivesOutput form made result info.new out.old out.new }
{
    match made {
        Ok(output) => put(
            &output.text,
            answer_of_status(output.status),
            None,
            out,
            info,
        ),
        Err(fault) => give_fault(alloc, form, &fault, out, info),
    }
}

/// Gives nothing, where nothing can be asked for so.
pub(crate) fn give_misuse(info: &mut TextInfo) -> i32
    ensures answer { result ≡ pos 6 }
    ensures info { info.new ≡ info_of 0 None }
{
    *info = TextInfo::of(0, None);
    MISUSED
}

/// The PCRs that the text spells, if it is given.
pub(crate) fn given_places(
    alloc: Global,
    given: bool,
    matching: &[u8],
) -> Result<Option<Vec<Pcr>>, RunFault>
    ensures places { IfOk result (λ matched. AreGivenPlaces given matching.now (option_map (λ places. places.items) matched)) }
    ensures fault { IfErr result (AreNoPlaces given matching.now) }
{
    if given {
        Ok(Some(read_matching(alloc, matching)?))
    } else {
        Ok(None)
    }
}

/// Gives as many lines of events as there is capacity for, with what the PCRs that match confirm of them, and sets the position to where the next begin.
pub(crate) fn give_events(
    alloc: Global,
    log: &[u8],
    matched: Option<&[Pcr]>,
    offset: &mut usize,
    number: &mut usize,
    out: &mut [u8],
    info: &mut TextInfo,
) -> i32
    ensures { GivesEvents (option_map (λ places. places.now) matched.entry) log.now (record { offset = offset.old; number = number.old })
        (record { offset = offset.new; number = number.new }) result info.new out.old out.new }
{
    let position = LineOffset {
        offset: *offset,
        number: *number,
    };
    let found = event_lines(alloc, log, matched, position, out.len());
    give_lines(alloc, Form::Json, found, offset, number, out, info)
}
