//! Files that are read again, after a run.

ghost use Rattle.std.specs.Prelude.{◌≡◌, option_map, IfOk, IfSome, IsErrOf};
ghost use Rattle.byte_streams.specs.declared.piece_reader.ReadFault.{ReadFault};
ghost use Rattle.agent_inputs.specs.Loading.{HasFailed};
ghost use Rattle.hints.specs.Heads.{IsHead, IsLookedAt};

use agent_inputs::{AgentFiles, Files, LoadFault, ReadSource, SharedFiles, is_regular};
use byte_streams::{Failed, PieceReader, ReadFault, Source};
use pcr_banks::{Alg, Digest};
use std::alloc::{AllocError, Global};
use std::fs::File;
use std::rt::Files as FileSystem;

/// The files of a runtime, which are only read: none is replaced, and none is hashed. There is no standard input, and no file that is not a
/// regular one: reading it again might wait for ever, or give other bytes.
#[derive(Drop)]
pub(crate) struct FilesAgain<'a, R> {
    runtime: &'a R,
}

impl<'a, R: FileSystem> FilesAgain<'a, R> {
    /// The files of this runtime.
    pub(crate) fn new(runtime: &'a R) -> Self {
        FilesAgain { runtime }
    }
}

impl<R: FileSystem> Files for FilesAgain<'_, R> {
    type Src = ReadSource<R::File>;

    fn source(&mut self, name: Option<&str>) -> Result<ReadSource<R::File>, Failed> {
        let Some(name) = name else {
            return Err(Failed);
        };
        if !is_regular(self.runtime, name) {
            return Err(Failed);
        }
        match File::open(self.runtime, name) {
            Ok(file) => Ok(ReadSource::new(file)),
            Err(_) => Err(Failed),
        }
    }
}

impl<R: FileSystem> AgentFiles for FilesAgain<'_, R> {
    type Shared = NoneShared;

    fn replace(&mut self, _name: &str, _bytes: &[u8]) -> Result<(), Failed> {
        Err(Failed)
    }

    /// No other are taken before.
    fn take_only_regular_files(&mut self) {}

    fn is_regular(&self, name: &str) -> bool {
        is_regular(self.runtime, name)
    }

    fn shared(&self) -> &NoneShared {
        &NoneShared
    }
}

/// No files.
pub(crate) struct NoneShared;

impl SharedFiles for NoneShared {
    fn hash(
        &self,
        _alloc: Global,
        _name: &str,
        _alg: Alg,
        _limit: u64,
    ) -> Result<Digest, LoadFault> {
        Err(LoadFault::Source)
    }
}

/// As many bytes of a file are looked at, unless it has fewer.
const HEAD_SIZE: usize = 4096;

/// The first bytes of the file of this name, if it can be read.
pub(crate) fn head_of<F: AgentFiles>(
    alloc: Global,
    files: &mut F,
    name: &str,
) -> Result<Option<Vec<u8>>, AllocError>
    ensures head { IfOk result (λ head. IsLookedAt (F.inputs files.old) name.now (option_map (λ bytes. bytes.items) head)) }
    ensures inputs { F.inputs files.new ≡ F.inputs files.old }
    ensures replaced { F.replaced files.new ≡ F.replaced files.old }
{
    let Ok(mut source) = files.source(Some(name)) else {
        return Ok(None);
    };
    match first_bytes(alloc, &mut source) {
        Ok(head) => Ok(Some(head)),
        Err(ReadFault::Source) => Ok(None),
        Err(ReadFault::Memory) => Err(AllocError),
    }
}

// The first bytes that a source gives.
fn first_bytes<R: Source>(alloc: Global, source: &mut R) -> Result<Vec<u8>, ReadFault>
    ensures head { IfOk result (λ bytes. IfSome (R.state source.old).remaining (IsHead bytes.items)) }
    ensures failing { IsErrOf result ReadFault.Source → HasFailed (R.state source.old) (R.state source.new) }
{
    let mut pieces = PieceReader::new(alloc);
    let mut bytes = Vec::new(alloc);
    while bytes.len() < HEAD_SIZE {
        let count = pieces.read(source, &mut bytes)?;
        if count == 0 {
            return Ok(bytes);
        }
    }
    Ok(bytes)
}
