//! Where inputs are: loads them, also the texts of the digests of known files, and makes the faults that name one.

ghost use Rattle.std.specs.Prelude.{◌≡◌, IfOk, IfErr, List, ℕ, map, OnOk};
ghost use Rattle.known_files.specs.declared.listed.ListedFiles.{ListedFiles};
ghost use Rattle.judging.specs.Requests.{held_bytes, location_of};
ghost use Rattle.judging.specs.Inputs.{Holds, IsFaultAt, IsInputFault, limit_of};
ghost use Rattle.judging.specs.Answering.{AreKnownFiles, IsFirstNotKnown, IsTextRefused, ListsAlso};

use agent_inputs::{
    AgentFiles, INPUT_LIMIT, RunFault, STANDARD_INPUT, load_input, load_log, not_read, too_long,
};
use boot_verdict::VerifyFault;
use known_files::{KnownFiles, ListedFiles};
use std::alloc::Global;

/// The most bytes that there can be in memory.
const MOST_BYTES: u64 = (1 << 63) - 1;

/// Where an input is.
#[derive(Clone, Copy)]
pub enum Input<'a> {
    /// In the file of this name.
    File(&'a str),
    /// Standard input.
    StandardInput,
    /// The log in the file of this name, whose H-CRTM event tells where the machine started: what is replayed of it is its bytes with what that
    /// tells.
    HcrtmLog(&'a str),
    /// In memory: these are all of its bytes.
    Bytes(&'a [u8]),
}

/// All bytes of an input.
#[derive(Drop)]
pub enum Held<'a> {
    /// Those of a file or of standard input.
    File(Vec<u8>),
    /// Those of a caller.
    Bytes(&'a [u8]),
}

impl Held<'_> {
    /// The bytes.
    pub fn bytes(&self) -> &[u8]
        ensures { result.now ≡ held_bytes self.now }
    {
        match self {
            Held::File(bytes) => bytes,
            Held::Bytes(bytes) => bytes,
        }
    }
}

/// All bytes of an input: of a file or of standard input at most 64 MiB. A fault names the file; standard input is `-`.
pub fn load_at<'a, F: AgentFiles>(
    alloc: Global,
    files: &mut F,
    input: Input<'a>,
) -> Result<Held<'a>, RunFault>
    ensures all { IfOk result (λ held. Holds (F.inputs files.old) (location_of input.entry) (held_bytes held)) }
    ensures fault { IfErr result (IsInputFault (F.inputs files.old) (location_of input.entry)) }
    ensures inputs { F.inputs files.new ≡ F.inputs files.old }
    ensures replaced { F.replaced files.new ≡ F.replaced files.old }
{
    match input {
        Input::Bytes(bytes) => Ok(Held::Bytes(bytes)),
        Input::File(name) => Ok(Held::File(load_input(alloc, files, Some(name))?)),
        Input::StandardInput => Ok(Held::File(load_input(alloc, files, None)?)),
        Input::HcrtmLog(name) => {
            let log = load_log(alloc, files, Some(name), true)?;
            Ok(Held::File(log))
        }
    }
}

/// The most bytes that the input may have.
pub(crate) fn limit_of(input: Input<'_>) -> u64
    ensures { result ≡ limit_of (location_of input.entry) }
{
    match input {
        Input::File(_) | Input::StandardInput => INPUT_LIMIT,
        Input::HcrtmLog(_) | Input::Bytes(_) => MOST_BYTES,
    }
}

/// The fault for a verifier's fault of the list in this input. Of bytes in memory, or that are loaded before, no source fails, and none are too
/// many.
pub(crate) fn refusal(alloc: Global, list: Input<'_>, fault: VerifyFault) -> RunFault
    ensures { IsFaultAt (location_of list.entry) fault result }
{
    match (fault, list) {
        (VerifyFault::Log(fault), _) => fault.into(),
        (VerifyFault::List(fault), _) => fault.into(),
        (VerifyFault::Replay(fault), _) => RunFault::Replay(fault),
        (VerifyFault::Source, Input::File(name)) => not_read(alloc, name),
        (VerifyFault::TooLong, Input::File(name)) => too_long(alloc, name),
        (VerifyFault::Source, Input::StandardInput) => not_read(alloc, STANDARD_INPUT),
        (VerifyFault::TooLong, Input::StandardInput) => too_long(alloc, STANDARD_INPUT),
        (VerifyFault::Source | VerifyFault::TooLong, Input::HcrtmLog(_) | Input::Bytes(_)) => {
            RunFault::Memory
        }
        (VerifyFault::Memory, _) => RunFault::Memory,
    }
}

/// The files whose digests the texts of these inputs list; `None` without an input. The texts are loaded in order.
pub(crate) fn known_in<F: AgentFiles>(
    alloc: Global,
    files: &mut F,
    inputs: &[Input<'_>],
) -> Result<Option<KnownFiles>, RunFault>
    ensures found { IfOk result (AreKnownFiles (F.inputs files.old) (map location_of inputs.now)) }
    ensures fault { IfErr result (IsFirstNotKnown (F.inputs files.old) (map location_of inputs.now)) }
    ensures inputs { F.inputs files.new ≡ F.inputs files.old }
    ensures replaced { F.replaced files.new ≡ F.replaced files.old }
{
    if inputs.is_empty() {
        return Ok(None);
    }
    let mut listed = ListedFiles::new(alloc);
    for index in 0..inputs.len() {
        add_text(alloc, files, inputs[index], index + 1, &mut listed)?;
    }
    Ok(Some(KnownFiles::of(listed)))
}

// Adds the digests of this input, the file of this number.
fn add_text<F: AgentFiles>(
    alloc: Global,
    files: &mut F,
    input: Input<'_>,
    file: usize,
    listed: &mut ListedFiles,
) -> Result<(), RunFault>
    ensures added { OnOk result (ListsAlso (F.inputs files.old) (location_of input.entry) listed.old listed.new) }
    ensures fault { IfErr result (IsTextRefused (F.inputs files.old) (location_of input.entry) file) }
    ensures inputs { F.inputs files.new ≡ F.inputs files.old }
    ensures replaced { F.replaced files.new ≡ F.replaced files.old }
{
    let text = load_at(alloc, files, input)?;
    match listed.add(text.bytes()) {
        Ok(()) => Ok(()),
        Err(fault) => Err(RunFault::of_known(file, fault)),
    }
}
