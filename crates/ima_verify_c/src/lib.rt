//! The verifier for callers in C: verdicts, positions, expected registers, registers, keys of a TPM, and by pieces entries and events, from bytes in
//! the caller's memory to a text in the caller's buffer. `bindings/c/ima_verify.h` says it to C, and has the functions that call these.
//!
//! Each call returns a number: 0 or 1 as the command of the same name exits, with its output in the buffer; 2 if an input is refused, or 3 if
//! memory ran out, with the line of the error in the buffer; 4 if its capacity is too small, and the buffer is then as it was; for lines 5 if there
//! are more; and 6 if the position is none, or nothing can be asked for so. In any case `info` has the size of the text, and the error if the text is
//! the line of one. With `json` the text is that of the command with `--json`.
//!
//! With `hcrtm` an event of a log of type EV_EFI_HCRTM_EVENT in PCR 0 tells that PCR 0 began at 4, if no event tells a locality (TPM 2.0 Library,
//! part 1, 34.3). With `old_kernel` a boot aggregate over PCRs 0 to 7 is taken, as kernels before 5.8 make it: beside PCRs that `require` names, and by
//! a quote; beside the word `none` it counts for nothing.
//!
//! `require` names PCRs that must be among the expected ones, such as `sha256:0-10`; the word `none` names none, but where nothing is compared the
//! verdict is `differ`. `known` lists known files, as a FILE of `--known`; a caller joins the texts of several, each of whole lines. It counts if
//! `checks_known`, even without bytes: then no file is known. It is given only where `require` names PCRs. `numbers` are what the text says of the
//! verdict, as [`numbers`] has them: the first is left as it is; after 2, 3 and 4 they are those of no verdict, and after 6 all are as they were.
#![tactic(auto)]

mod boot;
mod convert;
pub mod error_text;
mod evidence;
pub mod laws;
mod nonce;
mod numbers;
mod replayed;
mod replies;
mod requests;
mod text_info;

ghost use Rattle.std.specs.Prelude.{◌≡◌, ◌&&◌, not};
ghost use Rattle.agent_inputs.specs.Opening.{replayed};
ghost use Rattle.judging.specs.Requests.{Attests, ExpectedOf, attested_of};
ghost use Rattle.judging.specs.Inputs.{BytesOf};
ghost use Rattle.ima_verify_c.specs.Answers.{Answers, AnswersAsked, AnswersCounted, AnswersMore, GivesEntries, IsAnswerAndNext, IsAnswerTo, IsAnswerWith, interface_version};
ghost use Rattle.ima_verify_c.specs.Boot.{GivesEventsBy};
ghost use Rattle.ima_verify_c.specs.Requests.{requested_of_attestation, requested_of_key, requested_of_list, requested_of_more, requested_of_positions, requested_of_registers, requested_of_verdict, form_of, given_bytes, known_in};

use crate::boot::{give_events, give_misuse, given_places};
use crate::nonce::nonce_in;
use crate::replayed::replayed_in;
use crate::replies::{
    give, give_both, give_counted, give_fault, give_lines, give_no_report, give_no_verdict,
    give_nothing,
};
use crate::requests::{
    form_of, given_bytes, key_in, known_in, looks_for_hcrtm, registers_on, requested_by, resume_of,
    scope_of, signing_in, verdict_of,
};
use agent_plans::Form;
pub use boot::{ima_verify_raw_boot, ima_verify_raw_matching};
pub use convert::ima_verify_raw_convert;
use judging::{AttestRequest, Input, ReportKind, Request};
use line_chunks::{LineOffset, entry_lines};
use std::alloc::Global;
pub use text_info::TextInfo;

/// The version of this interface: 1. A later version may have more functions; what these do stays as it is.
#[unsafe(no_mangle)]
pub extern "C" fn ima_verify_version() -> u32
    ensures { result ≡ interface_version }
{
    1
}

/// The verdict on a firmware event log, a measurement list and expected registers, as `verify` writes it: 0 if it is `match`, 1 if it
/// is `differ`.
#[unsafe(no_mangle)]
pub extern "C" fn ima_verify_raw_verdict<'a>(
    alloc: Global,
    log: &'a [u8],
    hcrtm: bool,
    old_kernel: bool,
    list: &'a [u8],
    expected: &'a [u8],
    require: &'a [u8],
    known: &'a [u8],
    checks_known: bool,
    json: bool,
    numbers: &mut [u64],
    out: &mut [u8],
    info: &mut TextInfo,
) -> i32
    ensures { AnswersCounted (IsAnswerWith
        (requested_of_verdict (replayed hcrtm log.now) old_kernel list.now expected.now require.now (known_in checks_known known.now)) (form_of json))
        result info.new out.old out.new numbers.old numbers.new }
{
    let form = form_of(json);
    let log = match replayed_in(alloc, log, hcrtm) {
        Ok(log) => log,
        Err(fault) => return give_no_verdict(alloc, form, &fault, numbers, out, info),
    };
    let log = Input::Bytes(log.bytes());
    let verdict = ReportKind::WholeVerdict { log };
    let texts = [Input::Bytes(known)];
    let known = known_in(checks_known, &texts);
    let request = requested_by(verdict, old_kernel, list, expected, require, known);
    give_counted(alloc, request, form, numbers, out, info)
}

/// Where expected registers first have their values in a firmware event log and a measurement list, as `locate` writes it: 0 if some
/// register is expected, each value was reached and none is missing, else 1.
#[unsafe(no_mangle)]
pub extern "C" fn ima_verify_raw_locate<'a>(
    alloc: Global,
    log: &'a [u8],
    hcrtm: bool,
    list: &'a [u8],
    expected: &'a [u8],
    require: &'a [u8],
    json: bool,
    out: &mut [u8],
    info: &mut TextInfo,
) -> i32
    ensures { Answers (IsAnswerTo (requested_of_positions (replayed hcrtm log.now) list.now expected.now require.now) (form_of json)) result info.new
        out.old out.new }
{
    let form = form_of(json);
    let log = match replayed_in(alloc, log, hcrtm) {
        Ok(log) => log,
        Err(fault) => return give_fault(alloc, form, &fault, out, info),
    };
    let positions = ReportKind::Positions {
        log: Input::Bytes(log.bytes()),
    };
    let request = requested_by(positions, false, list, expected, require, &[]);
    give(alloc, request, form, out, info)
}

/// The verdict on a measurement list without a log, as `replay` writes it with expected registers: 0 if it is `match`, 1 if it is `differ`.
#[unsafe(no_mangle)]
pub extern "C" fn ima_verify_raw_replay<'a>(
    alloc: Global,
    list: &'a [u8],
    expected: &'a [u8],
    require: &'a [u8],
    known: &'a [u8],
    checks_known: bool,
    json: bool,
    numbers: &mut [u64],
    out: &mut [u8],
    info: &mut TextInfo,
) -> i32
    ensures { AnswersCounted (IsAnswerWith
        (requested_of_list list.now expected.now require.now (known_in checks_known known.now)) (form_of json)) result
        info.new out.old out.new numbers.old numbers.new }
{
    let alone = ReportKind::ListVerdict;
    let texts = [Input::Bytes(known)];
    let known = known_in(checks_known, &texts);
    let request = requested_by(alone, false, list, expected, require, known);
    give_counted(alloc, request, form_of(json), numbers, out, info)
}

/// The verdict on a list that grows, as `verify` writes it with `--prefix` and `--resume`, and in `next` the checkpoint that it saves with
/// `--save`. `state` is the text of the checkpoint to go on from, and `more` are the list's bytes from there on; without `state`, all of
/// them. With `prefix` the report is on the confirmed prefix, if there is
/// one. There is a checkpoint with a verdict `match` alone: else `next_size` is 0.
#[unsafe(no_mangle)]
pub extern "C" fn ima_verify_raw_more<'a>(
    alloc: Global,
    log: &'a [u8],
    hcrtm: bool,
    old_kernel: bool,
    state: &'a [u8],
    more: &'a [u8],
    expected: &'a [u8],
    require: &'a [u8],
    known: &'a [u8],
    checks_known: bool,
    prefix: bool,
    json: bool,
    numbers: &mut [u64],
    next: &mut [u8],
    next_size: &mut usize,
    out: &mut [u8],
    info: &mut TextInfo,
) -> i32
    ensures { AnswersMore (IsAnswerAndNext
        (requested_of_more (replayed hcrtm log.now) old_kernel state.now more.now expected.now require.now (known_in checks_known known.now) prefix)
        (form_of json)) result info.new out.old out.new numbers.old numbers.new next_size.new next.old next.new }
{
    let form = form_of(json);
    let log = match replayed_in(alloc, log, hcrtm) {
        Ok(log) => log,
        Err(fault) => return give_no_report(alloc, form, &fault, numbers, next_size, out, info),
    };
    let verdict = verdict_of(log.bytes(), state, prefix);
    let texts = [Input::Bytes(known)];
    let known = known_in(checks_known, &texts);
    let request = requested_by(verdict, old_kernel, more, expected, require, known);
    give_both(alloc, request, form, numbers, next, next_size, out, info)
}

/// Whether the message of a quote is of a firmware event log and a measurement list that grows: 0 if they are attested by it, else 1. `state`,
/// `more`, `prefix` and `next` are as those of [`ima_verify_raw_more`]; the checkpoint that is gone on from must be of the quote's boot, by the
/// TPM's counts of resets and restarts. The message must have this nonce, of at least 16 bytes, and select each PCR that `require` names: in any
/// case 0 to 10, and none in the SHA-1 bank alone unless `allow_sha1`. The nonce is given as bytes, or in `nonce_hex` as hexadecimal digits of either
/// case, with at most one line feed at their end.
///
/// `key` is the machine's attestation key, its public area or the PEM that [`ima_verify_raw_key`] gives of it, and `signature` the signature of the
/// message, which must be by this key. Without bytes in both nothing is attested unless `signature_checked` says that the caller has verified the
/// signature by the machine's attestation key, which must be a restricted one. 6 if one of both has bytes alone, if `signature_checked` is set beside
/// them, or if both `nonce` and `nonce_hex` have bytes: nothing is then read or written.
#[unsafe(no_mangle)]
pub extern "C" fn ima_verify_raw_attest<'a>(
    alloc: Global,
    log: &'a [u8],
    hcrtm: bool,
    old_kernel: bool,
    state: &'a [u8],
    more: &'a [u8],
    message: &'a [u8],
    key: &'a [u8],
    signature: &'a [u8],
    nonce: &'a [u8],
    nonce_hex: &'a [u8],
    require: &'a [u8],
    known: &'a [u8],
    checks_known: bool,
    allow_sha1: bool,
    signature_checked: bool,
    prefix: bool,
    json: bool,
    numbers: &mut [u64],
    next: &mut [u8],
    next_size: &mut usize,
    out: &mut [u8],
    info: &mut TextInfo,
) -> i32
    ensures { AnswersAsked (requested_of_attestation (replayed hcrtm log.now) old_kernel state.now more.now message.now key.now signature.now
        nonce.now nonce_hex.now require.now (known_in checks_known known.now) allow_sha1 signature_checked prefix) (form_of json) result info.new out.old
        out.new numbers.old numbers.new next_size.new next.old next.new }
{
    let Some(signing) = signing_in(key, signature, signature_checked) else {
        return give_nothing(next_size, info);
    };
    let form = form_of(json);
    let nonce = match nonce_in(alloc, nonce, nonce_hex) {
        Ok(Some(nonce)) => nonce,
        Ok(None) => return give_nothing(next_size, info),
        Err(fault) => return give_no_report(alloc, form, &fault, numbers, next_size, out, info),
    };
    let texts = [Input::Bytes(known)];
    let asked = AttestRequest {
        log: Input::Bytes(b""),
        list: Input::Bytes(more),
        message: Input::Bytes(message),
        nonce: nonce.bytes(),
        required: require,
        known: known_in(checks_known, &texts),
        takes_sha1: allow_sha1,
        old_kernel,
        signing,
        expected: None,
        scope: scope_of(prefix),
        resume: resume_of(state),
        saves: true,
    };
    give_attested(
        alloc, log, hcrtm, asked, form, numbers, next, next_size, out, info,
    )
}

// Gives the answer to what is asked of a quote, where this log is replayed.
fn give_attested<'a>(
    alloc: Global,
    log: &'a [u8],
    hcrtm: bool,
    asked: AttestRequest<'a>,
    form: Form,
    numbers: &mut [u64],
    next: &mut [u8],
    next_size: &mut usize,
    out: &mut [u8],
    info: &mut TextInfo,
) -> i32
    ensures { AnswersMore (IsAnswerAndNext (Attests (record (attested_of asked.entry) { log = BytesOf (replayed hcrtm log.now) })) form) result info.new
        out.old out.new numbers.old numbers.new next_size.new next.old next.new }
{
    let log = match replayed_in(alloc, log, hcrtm) {
        Ok(log) => log,
        Err(fault) => return give_no_report(alloc, form, &fault, numbers, next_size, out, info),
    };
    let request = Request::Attestation(AttestRequest {
        log: Input::Bytes(log.bytes()),
        ..asked
    });
    give_both(alloc, request, form, numbers, next, next_size, out, info)
}

/// The expected registers that a text which tpm2_pcrread or tpm2_checkquote printed states, of those that a selection such as `sha256:0-10`
/// names, or all if that is empty, as `expected` writes them.
#[unsafe(no_mangle)]
pub extern "C" fn ima_verify_raw_expected(
    alloc: Global,
    printed: &[u8],
    registers: &[u8],
    json: bool,
    out: &mut [u8],
    info: &mut TextInfo,
) -> i32
    ensures { Answers (IsAnswerTo (ExpectedOf (BytesOf printed.now) (given_bytes registers.now)) (form_of json)) result info.new out.old out.new }
{
    let request = Request::Expected {
        printed: Input::Bytes(printed),
        registers: given_bytes(registers),
    };
    give(alloc, request, form_of(json), out, info)
}

/// The registers that differ from their reset values after a firmware event log, as `registers` writes them, or after a measurement list
/// alone, as `replay` does.
#[unsafe(no_mangle)]
pub extern "C" fn ima_verify_raw_registers(
    alloc: Global,
    bytes: &[u8],
    of_list: bool,
    hcrtm: bool,
    json: bool,
    out: &mut [u8],
    info: &mut TextInfo,
) -> i32
    ensures { Answers (IsAnswerTo (requested_of_registers of_list (replayed (hcrtm && not of_list) bytes.now)) (form_of json)) result info.new out.old
        out.new }
{
    let form = form_of(json);
    let bytes = match replayed_in(alloc, bytes, looks_for_hcrtm(of_list, hcrtm)) {
        Ok(bytes) => bytes,
        Err(fault) => return give_fault(alloc, form, &fault, out, info),
    };
    let request = registers_on(of_list, bytes.bytes());
    give(alloc, request, form, out, info)
}

/// What the area says of the key of a TPM whose public area this is (TPM2B_PUBLIC or TPMT_PUBLIC), as `key` writes it, if the TPM signs with it only what
/// it made; with `endorsement`, if the TPM only decrypts with it, what is meant for it.
#[unsafe(no_mangle)]
pub extern "C" fn ima_verify_raw_key(
    alloc: Global,
    area: &[u8],
    endorsement: bool,
    json: bool,
    out: &mut [u8],
    info: &mut TextInfo,
) -> i32
    ensures { Answers (IsAnswerTo (requested_of_key area.now endorsement) (form_of json)) result info.new out.old out.new }
{
    let request = key_in(area, endorsement);
    give(alloc, request, form_of(json), out, info)
}

/// The algorithms and the events of a firmware event log, as `events --json` writes them, from a position on: as many whole lines as there is
/// capacity for. The position is set to where the next call goes on. With `matching_given` they have what is confirmed by the PCRs of the text
/// `matching`, which [`ima_verify_raw_matching`] gives; it has to be the same in each call.
#[unsafe(no_mangle)]
pub extern "C" fn ima_verify_raw_events(
    alloc: Global,
    log: &[u8],
    matching: &[u8],
    matching_given: bool,
    offset: &mut usize,
    number: &mut usize,
    out: &mut [u8],
    info: &mut TextInfo,
) -> i32
    ensures { GivesEventsBy matching_given matching.now log.now (record { offset = offset.old; number = number.old })
        (record { offset = offset.new; number = number.new }) result info.new out.old out.new }
{
    let position = LineOffset {
        offset: *offset,
        number: *number,
    };
    if !position.is_within(log.len()) {
        return give_misuse(info);
    }
    match given_places(alloc, matching_given, matching) {
        Ok(matched) => give_events(alloc, log, matched.as_deref(), offset, number, out, info),
        Err(fault) => give_fault(alloc, Form::Json, &fault, out, info),
    }
}

/// The entries of a measurement list, as `show` writes them, from a position on, as [`ima_verify_raw_events`] gives events.
#[unsafe(no_mangle)]
pub extern "C" fn ima_verify_raw_entries(
    alloc: Global,
    list: &[u8],
    offset: &mut usize,
    number: &mut usize,
    json: bool,
    out: &mut [u8],
    info: &mut TextInfo,
) -> i32
    ensures { GivesEntries (form_of json) list.now (record { offset = offset.old; number = number.old })
        (record { offset = offset.new; number = number.new }) result info.new out.old out.new }
{
    let position = LineOffset {
        offset: *offset,
        number: *number,
    };
    let form = form_of(json);
    let found = entry_lines(alloc, list, position, form, out.len());
    give_lines(alloc, form, found, offset, number, out, info)
}
