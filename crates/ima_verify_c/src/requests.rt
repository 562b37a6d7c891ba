//! What a call with these bytes asks for.

ghost use Rattle.std.specs.Prelude.{◌≡◌, ◌&&◌, not, [], if◌then◌else◌, map, option_map};
ghost use Rattle.judging.specs.Requests.{requested_of, judgement_of, location_of, requires_of, signing_of};
ghost use Rattle.ima_verify_c.specs.Requests.{requested_by, requested_of_key, requested_of_registers, form_of, given_bytes, purpose_of, required_by, resume_of, scope_of, signing_in, verdict_of};

use agent_plans::{Form, Scope};
use judging::{Comparison, Input, ReportKind, Request, Required, Signing};
use tpm_keys::{KeyPart, Purpose};

/// JSON, or lines of text.
pub(crate) fn form_of(json: bool) -> Form
    ensures { result ≡ form_of json }
{
    if json { Form::Json } else { Form::Text }
}

/// These bytes, if there are any.
pub(crate) fn given_bytes(bytes: &[u8]) -> Option<&[u8]>
    ensures { option_map (λ bytes. bytes.now) result ≡ given_bytes bytes.now }
{
    if bytes.is_empty() { None } else { Some(bytes) }
}

/// The whole list, or its confirmed prefix.
pub(crate) fn scope_of(prefix: bool) -> Scope
    ensures { result ≡ scope_of prefix }
{
    if prefix { Scope::Prefix } else { Scope::Whole }
}

/// The checkpoint to go on from, if it has bytes.
pub(crate) fn resume_of(state: &[u8]) -> Option<Input<'_>>
    ensures { option_map location_of result ≡ resume_of state.now }
{
    match given_bytes(state) {
        Some(state) => Some(Input::Bytes(state)),
        None => None,
    }
}

/// The verdict on a log and a list, or on its confirmed prefix, from a checkpoint on, if there is one.
pub(crate) fn verdict_of<'a>(log: &'a [u8], state: &'a [u8], prefix: bool) -> ReportKind<'a>
    ensures { judgement_of result ≡ verdict_of log.now state.now prefix }
{
    ReportKind::Verdict {
        log: Input::Bytes(log),
        scope: scope_of(prefix),
        resume: resume_of(state),
    }
}

/// By what a message is known to be signed: by the key and the signature, if they have bytes, or by the word of the caller. Nothing, if one of them
/// has bytes alone, or he gives his word beside them.
pub(crate) fn signing_in<'a>(
    key: &'a [u8],
    signature: &'a [u8],
    signature_checked: bool,
) -> Option<Signing<'a>>
    ensures { option_map signing_of result ≡ signing_in key.now signature.now signature_checked }
{
    match (given_bytes(key), given_bytes(signature)) {
        (None, None) if signature_checked => Some(Signing::ByCaller),
        (None, None) => Some(Signing::NotChecked),
        (Some(key), Some(signature)) if !signature_checked => Some(Signing::ByKey {
            key: Input::Bytes(key),
            signature: Input::Bytes(signature),
        }),
        _ => None,
    }
}

/// These texts of known files, if they are given.
pub(crate) fn known_in<'a>(given: bool, texts: &'a [Input<'a>]) -> &'a [Input<'a>]
    ensures { map location_of result.now ≡ (if given then map location_of texts.now else []) }
{
    if given { texts } else { &[] }
}

/// What a list is worth against expected PCRs, with these texts of known files; whether an older kernel's boot aggregate is taken.
pub(crate) fn requested_by<'a>(
    wanted: ReportKind<'a>,
    old_kernel: bool,
    list: &'a [u8],
    expected: &'a [u8],
    require: &'a [u8],
    known: &'a [Input<'a>],
) -> Request<'a>
    ensures { requested_of result ≡ requested_by (judgement_of wanted.entry) old_kernel list.now expected.now require.now
        (map location_of known.now) }
{
    Request::Comparison(Comparison {
        wanted,
        list: Input::Bytes(list),
        expected: Input::Bytes(expected),
        required: required_by(require),
        old_kernel,
        known,
    })
}

// What has to be among the expected PCRs: those that the text spells; any, if it is the word `none`.
fn required_by(require: &[u8]) -> Required<'_>
    ensures { requires_of result ≡ required_by require.now }
{
    if require == b"none".as_slice() {
        Required::Any
    } else {
        Required::These(require)
    }
}

/// Whether the event of an H-CRTM is looked for, which no list has.
pub(crate) fn looks_for_hcrtm(of_list: bool, hcrtm: bool) -> bool
    ensures { result ≡ (hcrtm && not of_list) }
{
    hcrtm && !of_list
}

/// The registers after a list alone, or after a log.
pub(crate) fn registers_on(of_list: bool, bytes: &[u8]) -> Request<'_>
    ensures { requested_of result ≡ requested_of_registers of_list bytes.now }
{
    if of_list {
        Request::ListRegisters {
            list: Input::Bytes(bytes),
        }
    } else {
        Request::LogRegisters {
            log: Input::Bytes(bytes),
        }
    }
}

/// All that is reported of the key of this public area, if it is an endorsement key, or an attestation key.
pub(crate) fn key_in(area: &[u8], endorsement: bool) -> Request<'_>
    ensures { requested_of result ≡ requested_of_key area.now endorsement }
{
    Request::Key {
        area: Input::Bytes(area),
        purpose: purpose_of(endorsement),
        part: KeyPart::All,
    }
}

// What the key must be for.
fn purpose_of(endorsement: bool) -> Purpose
    ensures { result ≡ purpose_of endorsement }
{
    if endorsement {
        Purpose::Endorsement
    } else {
        Purpose::Attestation
    }
}
