//! Where the program's inputs come from. All bytes of a source or an input are loaded here, and the faults made that name one.

ghost use Rattle.std.specs.Prelude.{◌≡◌, ◌<◌, length, List, ℕ, None, Some, Option, option_map, IfOk, IfSome, IsErr, IsErrOf, IsTrue, OnErr, OnOk, ⊤, ◌≤◌, ◌⊎◌, vec_len, IfErr};
ghost use Rattle.agent_inputs.specs.Loading.{IsHashOfAll, GivesAll, HasFailed, HasReplaced, Inputs, ReplacedFiles, unknown, Drains, Holds, IsInputFault, IsNotRead, IsNotUtf8, IsNotWritten, IsTooLong, fault_of_reading, input_limit};
ghost use Rattle.agent_inputs.specs.declared.fault.RunFault.{RunFault};
ghost use Rattle.agent_inputs.specs.declared.files.LoadFault.TheVariants.{Memory, Source};

use crate::fault::RunFault;
use byte_streams::{Failed, PieceReader, ReadFault, Source};
use pcr_banks::{Alg, Digest};
use std::alloc::{AllocError, Global};
use thiserror::Error;

/// Where the program's inputs come from.
///
/// An implementation may make the bytes of its inputs known, and which may fail (`inputs`): a source then gives exactly those bytes, and no
/// other fails. It may also make known which files were replaced (`replaced`).
pub trait Files {
    /// The source of one input's bytes.
    type Src: Source;

    // What the inputs hold, and which of them may fail.
    ghost inputs: { Self → Inputs } = { λ _. unknown };

    // Which files were replaced so far.
    ghost replaced: { Self → ReplacedFiles } = { λ _. None };

    /// The source of the file of this name, or of standard input without a name. Fails if it cannot be opened.
    fn source(&mut self, name: Option<&str>) -> Result<Self::Src, Failed>
        ensures gives { IfOk result (λ source.
            GivesAll ((inputs self.old).held (option_map (λ name. name.now) name.entry)) (Self.Src.state source)) }
        ensures refused { IsErr result → IsTrue ((inputs self.old).may_fail (option_map (λ name. name.now) name.entry)) }
        ensures failing { IfOk result (λ source. (later : Self.Src) → HasFailed (Self.Src.state source) (Self.Src.state later)
            → IsTrue ((inputs self.old).may_fail (option_map (λ name. name.now) name.entry))) }
        ensures inputs { inputs self.new ≡ inputs self.old }
        ensures replaced { replaced self.new ≡ replaced self.old };
}

/// Files whose sources can be let go, of which several threads read some at once, and of which one may be replaced: what a run of the
/// program asks for.
pub trait AgentFiles: Files<Src: Drop> {
    /// These files, shared by several threads.
    type Shared: SharedFiles + Sync;

    /// Has the file of this name be exactly these bytes. They are written to a new file beside it and synced, and then that is renamed: so
    /// whoever opens the file gets all it held before, or all of these bytes. Nothing else that is there is changed. Fails if the system
    /// refuses any of this, and if what has the name is no regular file.
    fn replace(&mut self, name: &str, bytes: &[u8]) -> Result<(), Failed>
        ensures replaced { OnOk result (HasReplaced (Self.replaced self.old) (Self.replaced self.new)
            (record { name = name.now; bytes = bytes.now })) }
        ensures kept { OnErr result (Self.replaced self.new ≡ Self.replaced self.old) }
        ensures inputs { Self.inputs self.new ≡ Self.inputs self.old };

    /// From now on `source` with a name opens regular files alone, and links to such files: it fails for whatever else has the name, without
    /// waiting for it, as the other end of a pipe might be waited for.
    fn take_only_regular_files(&mut self)
        ensures inputs { Self.inputs self.new ≡ Self.inputs self.old }
        ensures replaced { Self.replaced self.new ≡ Self.replaced self.old };

    /// Whether the file of this name is a regular one: it can be opened again, and then gives its bytes once more. A pipe or a device does not.
    fn is_regular(&self, name: &str) -> bool;

    /// These files, for several threads at once.
    fn shared(&self) -> &Self::Shared
        ensures held { (name : List ℕ) → Self.Shared.held result.now name ≡ (Self.inputs self.now).held (Some name) }
        ensures fails { (name : List ℕ) → Self.Shared.fails result.now name
            → IsTrue ((Self.inputs self.now).may_fail (Some name)) };
}

/// Files that several threads read at once.
///
/// An implementation may make the bytes of a file known (`held`): its hash is then that of exactly those.
pub trait SharedFiles {
    // All bytes of the file of this name; `None` if they are not known.
    ghost held: { Self → List ℕ → Option (List ℕ) } = { λ _ _. None };

    // That the file of this name cannot be opened, or fails while it is read; `⊤` if this is not known.
    ghost fails: { Self → List ℕ → Type 0 } = { λ _ _. ⊤ };

    /// The hash, by this algorithm, of all bytes of the file of this name. They are hashed as they are read.
    ///
    /// Fails with `TooLong` if the file has more than `limit` bytes, and with `Source` if it cannot be opened, or fails while it
    /// is read.
    fn hash(&self, alloc: Global, name: &str, alg: Alg, limit: u64) -> Result<Digest, LoadFault>
        ensures hashed { IfOk result (IsHashOfAll (held self.now name.now) alg limit) }
        ensures too_long { IsErrOf result LoadFault.TooLong → IfSome (held self.now name.now) (λ all. limit < length all) }
        ensures source { IsErrOf result LoadFault.Source → fails self.now name.now };
}

/// Why a source was not loaded.
#[derive(Clone, Copy, Debug, PartialEq, Eq, Error)]
pub enum LoadFault {
    /// More bytes came than the limit allows.
    #[error("too many bytes")]
    TooLong,
    /// The source failed.
    #[error("the source failed")]
    Source,
    /// Out of memory.
    #[error("out of memory")]
    Memory,
}

impl From<ReadFault> for LoadFault {
    ghost from_gives = { λ read_fault fault. fault ≡ fault_of_reading read_fault };

    fn from(fault: ReadFault) -> Self {
        match fault {
            ReadFault::Source => LoadFault::Source,
            ReadFault::Memory => LoadFault::Memory,
        }
    }
}

impl From<Failed> for LoadFault {
    ghost from_gives = { λ _ fault. fault ≡ Source };

    fn from(_fault: Failed) -> Self {
        LoadFault::Source
    }
}

impl From<AllocError> for LoadFault {
    ghost from_gives = { λ _ fault. fault ≡ Memory };

    fn from(_refused: AllocError) -> Self {
        LoadFault::Memory
    }
}

/// All bytes that a source has left, at most `limit`.
///
/// Fails with `TooLong` if more than `limit` bytes come, and with `Source` if the source fails during this call. The bytes read
/// before a fault are lost.
pub fn load<R: Source>(alloc: Global, source: &mut R, limit: u64) -> Result<Vec<u8>, LoadFault>
    ensures all { IfOk result (λ bytes. IfSome (R.state source.old).remaining (λ left. bytes.items ≡ left)) }
    ensures within { IfOk result (λ bytes. vec_len bytes ≤ limit) }
    ensures more { IsErrOf result LoadFault.TooLong → IfSome (R.state source.old).remaining (λ left. limit < length left) }
    ensures drains { Drains limit (R.state source.old) (R.state source.new) result }
{
    let mut pieces = PieceReader::new(alloc);
    let mut bytes = Vec::new(alloc);
    loop {
        let count = pieces.read(source, &mut bytes)?;
        if count == 0 {
            return Ok(bytes);
        }
        if bytes.len() as u64 > limit {
            return Err(LoadFault::TooLong);
        }
    }
}

/// Reads all bytes that a source has left, at most `limit`, and keeps none.
///
/// Fails as [`load`] does.
pub fn read_through<R: Source>(alloc: Global, source: &mut R, limit: u64) -> Result<(), LoadFault>
    ensures more { IsErrOf result LoadFault.TooLong → IfSome (R.state source.old).remaining (λ left. limit < length left) }
    ensures drains { Drains limit (R.state source.old) (R.state source.new) result }
{
    let mut pieces = PieceReader::new(alloc);
    let mut piece = Vec::new(alloc);
    let mut room = limit;
    loop {
        let count = pieces.read(source, &mut piece)? as u64;
        if count == 0 {
            return Ok(());
        }
        if count > room {
            return Err(LoadFault::TooLong);
        }
        room -= count;
        piece.clear();
    }
}

/// The most bytes that an input may have: 64 MiB.
pub const INPUT_LIMIT: u64 = 64 * 1024 * 1024;

/// The name of standard input in faults.
pub const STANDARD_INPUT: &str = "-";

// All bytes of an input, or why it was not loaded.
pub(crate) type Loaded = Result<Vec<u8>, RunFault>;

/// All bytes, at most 64 MiB, of the file of this name, or of standard input without a name. A fault names the input; standard
/// input is `-`.
pub fn load_input<F: AgentFiles>(alloc: Global, files: &mut F, name: Option<&str>) -> Loaded
    ensures all { IfOk result (λ bytes. Holds (F.inputs files.old) (option_map (λ name. name.now) name.entry) bytes.items) }
    ensures within { IfOk result (λ bytes. vec_len bytes ≤ input_limit) }
    ensures fault { IfErr result (IsInputFault (F.inputs files.old) (option_map (λ name. name.now) name.entry)) }
    ensures inputs { F.inputs files.new ≡ F.inputs files.old }
    ensures replaced { F.replaced files.new ≡ F.replaced files.old }
{
    let input = name.unwrap_or(STANDARD_INPUT);
    let Ok(mut source) = files.source(name) else {
        return Err(not_read(alloc, input));
    };
    match load(alloc, &mut source, INPUT_LIMIT) {
        Ok(bytes) => Ok(bytes),
        Err(LoadFault::TooLong) => Err(too_long(alloc, input)),
        Err(LoadFault::Source) => Err(not_read(alloc, input)),
        Err(LoadFault::Memory) => Err(RunFault::Memory),
    }
}

/// The fault that this input could not be opened or read; `Memory` if its name cannot be copied.
pub fn not_read(alloc: Global, input: &str) -> RunFault
    ensures { IsNotRead input.now result ⊎ (result ≡ RunFault.Memory) }
{
    String::from_str(alloc, input).map_or(RunFault::Memory, RunFault::Read)
}

/// The fault that the file of this name could not be written; `Memory` if its name cannot be copied.
pub fn not_written(alloc: Global, name: &str) -> RunFault
    ensures { IsNotWritten name.now result ⊎ (result ≡ RunFault.Memory) }
{
    String::from_str(alloc, name).map_or(RunFault::Memory, RunFault::Write)
}

/// The fault that this input is too long; `Memory` if its name cannot be copied.
pub fn too_long(alloc: Global, input: &str) -> RunFault
    ensures { IsTooLong input.now result ⊎ (result ≡ RunFault.Memory) }
{
    String::from_str(alloc, input).map_or(RunFault::Memory, RunFault::TooLong)
}

/// The fault that the text of names in this input is not UTF-8; `Memory` if the input's name cannot be copied.
pub fn not_utf8(alloc: Global, input: &str) -> RunFault
    ensures { IsNotUtf8 input.now result ⊎ (result ≡ RunFault.Memory) }
{
    String::from_str(alloc, input).map_or(RunFault::Memory, RunFault::NotUtf8)
}
