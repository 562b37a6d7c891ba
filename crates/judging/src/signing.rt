//! What tells that a quote's message is signed by the right key.

ghost use Rattle.std.specs.Prelude.{◌≡◌, IfOk, IfErr};
ghost use Rattle.judging.specs.Answering.{IsNotSigned, IsNotVouched, IsSignedByInputs, IsVouched};
ghost use Rattle.judging.specs.Inputs.{Holds, IsInputFault};
ghost use Rattle.judging.specs.Requests.{attested_of, held_bytes, location_of, signing_of};

use crate::inputs::{Held, Input, load_at};
use crate::request::{AttestRequest, Signing};
use agent_inputs::{AgentFiles, RunFault};
use attestations::SignatureState;
use signed_messages::check_signed;
use std::alloc::Global;

/// All bytes of the message. Where its signature is verified here, no input is read from now on but regular files, since no other may keep waiting
/// whoever verifies it.
pub(crate) fn message_in<'a, F: AgentFiles>(
    alloc: Global,
    files: &mut F,
    request: AttestRequest<'a>,
) -> Result<Held<'a>, RunFault>
    ensures all { IfOk result (λ held. Holds (F.inputs files.old) (attested_of request.entry).message (held_bytes held)) }
    ensures fault { IfErr result (IsInputFault (F.inputs files.old) (attested_of request.entry).message) }
    ensures inputs { F.inputs files.new ≡ F.inputs files.old }
    ensures replaced { F.replaced files.new ≡ F.replaced files.old }
{
    if let Signing::ByKey { .. } = request.signing {
        files.take_only_regular_files();
    }
    load_at(alloc, files, request.message)
}

/// What is then known of the signature of this message. Where it is verified here, the key is loaded, and then the signature.
pub(crate) fn vouch_for<F: AgentFiles>(
    alloc: Global,
    files: &mut F,
    message: &[u8],
    signing: Signing<'_>,
) -> Result<SignatureState, RunFault>
    ensures vouched { IfOk result (IsVouched (F.inputs files.old) (signing_of signing.entry) message.now) }
    ensures fault { IfErr result (IsNotVouched (F.inputs files.old) (signing_of signing.entry) message.now) }
    ensures inputs { F.inputs files.new ≡ F.inputs files.old }
    ensures replaced { F.replaced files.new ≡ F.replaced files.old }
{
    match signing {
        Signing::NotChecked => Ok(SignatureState::NotChecked),
        Signing::ByCaller => Ok(SignatureState::Checked),
        Signing::ByKey { key, signature } => {
            check_by_key(alloc, files, message, key, signature)?;
            Ok(SignatureState::Valid)
        }
    }
}

// Checks that these inputs have a key, and a signature of the message by it.
fn check_by_key<F: AgentFiles>(
    alloc: Global,
    files: &mut F,
    message: &[u8],
    key: Input<'_>,
    signature: Input<'_>,
) -> Result<(), RunFault>
    ensures signed { IfOk result (λ _. IsSignedByInputs (F.inputs files.old) (location_of key.entry) (location_of signature.entry) message.now) }
    ensures fault { IfErr result (IsNotSigned (F.inputs files.old) (location_of key.entry) (location_of signature.entry) message.now) }
    ensures inputs { F.inputs files.new ≡ F.inputs files.old }
    ensures replaced { F.replaced files.new ≡ F.replaced files.old }
{
    let key = load_at(alloc, files, key)?;
    let signature = load_at(alloc, files, signature)?;
    let key_bytes = key.bytes();
    let signature_bytes = signature.bytes();
    check_signed(alloc, key_bytes, message, signature_bytes)?;
    Ok(())
}
