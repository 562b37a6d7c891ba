//! Files in memory that come in pieces and fail, and what the program makes of them.

ghost use Rattle.std.specs.Prelude.{◌≡◌, None, Some, IfNone, IfSome, IsTrue, cond, is_none, is_some, option_map, unwrap_or};
ghost use Rattle.byte_streams.specs.Memory.{slice_source_rest, slice_source_state};
ghost use Rattle.ima_agent.specs.Loading.{input_name};
ghost use Rattle.agent_tests.specs.Devices.{held};

use byte_streams::{Failed, SliceSource, Source, VecSink};
use ima_agent::{AgentFiles, Files, LoadFault, SharedFiles, hash_from, run};
use pcr_banks::{Alg, Digest};
use std::alloc::{AllocError, Global};
use std::sync::Wait;
use std::thread::Threads;
use test_kit::devices::PieceSource;
use test_kit::once_more;

/// Gives what the device gives, if there is one, which may fail; else the whole bytes, and never fails.
#[derive(Drop)]
pub struct FileSource<'a, D> {
    whole: SliceSource<'a>,
    device: Option<D>,
}

impl<D: Source> Source for FileSource<'_, D> {
    ghost state = { λ source. unwrap_or (option_map D.state source.device) (slice_source_state source.whole) };

    fn read(&mut self, buffer: &mut [u8]) -> Result<usize, Failed> {
        match &mut self.device {
            Some(device) => device.read(buffer),
            None => self.whole.read(buffer),
        }
    }
}

/// The source of a file in memory.
pub type MemorySource<'a> = FileSource<'a, PieceSource<'a>>;

/// Files with these names and these bytes; the name of standard input is `-`. One of them gives so many bytes a read at most, and
/// fails after some reads; a read of any other gives all.
#[derive(Drop)]
pub struct PieceFiles<'a> {
    pub files: &'a [(&'a str, &'a [u8])],
    pub most: usize,
    pub failing: &'a str,
    pub reads: usize,
    /// How many inputs were opened; files that are measured are none.
    pub opened: u32,
}

impl<'a> PieceFiles<'a> {
    /// None fails.
    pub fn whole(files: &'a [(&'a str, &'a [u8])]) -> Self {
        PieceFiles {
            files,
            most: usize::MAX,
            failing: "",
            reads: usize::MAX,
            opened: 0,
        }
    }

    fn open(&self, name: &str) -> Option<MemorySource<'a>>
        ensures some { IfSome result (λ source.
            cond (is_some source.device) None (Some (slice_source_rest source.whole)) ≡ held self.now.files.now self.now.failing.now name.now) }
        ensures none { IfNone result (held self.now.files.now self.now.failing.now name.now ≡ None) }
    {
        let file = self.files.iter().find(|file| file.0 == name)?;
        let device = if name == self.failing {
            Some(PieceSource::failing(file.1, self.most, self.reads))
        } else {
            None
        };
        Some(FileSource {
            whole: SliceSource::new(file.1),
            device,
        })
    }
}

impl<'a> Files for PieceFiles<'a> {
    type Src = MemorySource<'a>;

    // The bytes of each file but the one that is to fail. That one may, and a file that is none of these.
    ghost inputs = { λ files. record {
      held = λ name. held files.files.now files.failing.now (input_name name);
      may_fail = λ name. is_none (held files.files.now files.failing.now (input_name name));
    } };

    fn source(&mut self, name: Option<&str>) -> Result<MemorySource<'a>, Failed> {
        self.opened = self.opened.saturating_add(1);
        self.open(name.unwrap_or("-")).ok_or(Failed)
    }
}

impl AgentFiles for PieceFiles<'_> {
    type Shared = Self;

    /// Takes the bytes, and keeps none.
    fn replace(&mut self, _name: &str, _bytes: &[u8]) -> Result<(), Failed> {
        Ok(())
    }

    fn take_only_regular_files(&mut self) {}

    /// Each gives its bytes again.
    fn is_regular(&self, _name: &str) -> bool {
        true
    }

    fn shared(&self) -> &Self {
        self
    }
}

impl SharedFiles for PieceFiles<'_> {
    ghost held = { λ files name. held files.files.now files.failing.now name };

    ghost fails = { λ files name. IsTrue (is_none (held files.files.now files.failing.now name)) };

    fn hash(&self, alloc: Global, name: &str, alg: Alg, limit: u64) -> Result<Digest, LoadFault> {
        let mut source = self.open(name).ok_or(LoadFault::Source)?;
        hash_from(alloc, &mut source, alg, limit)
    }
}

/// The words of a command.
pub fn arguments_of(alloc: Global, arguments: &[&str]) -> Result<Vec<String>, AllocError> {
    once_more(AllocError, || {
        let mut owned = Vec::new(alloc);
        for word in arguments {
            owned.push(String::from_str(alloc, word)?)?;
        }
        Ok(owned)
    })
}

/// What the program answers and writes.
pub fn ran<R: Threads + Wait + Sync + AllocGlobal, F: AgentFiles>(
    rt: &R,
    arguments: &[String],
    files: &mut F,
) -> (u8, Vec<u8>) {
    let mut sink = VecSink::new(Vec::new(rt.alloc()));
    let status = run(rt, rt.alloc(), arguments, files, &mut sink);
    (status, sink.into_bytes())
}

/// The status and the output; once more where an allocation was refused, which shows as the status 3 without the whole line of an input that could
/// not be taken.
pub fn answered<R: Threads + Wait + Sync + AllocGlobal, F: AgentFiles>(
    rt: &R,
    arguments: &[String],
    files: &mut F,
) -> (u8, Vec<u8>) {
    let first = ran(rt, arguments, files);
    let is_told = first.1.starts_with(b"failed: read ") && first.1.ends_with(b"\n");
    if first.0 == 3 && !is_told {
        return ran(rt, arguments, files);
    }
    first
}
