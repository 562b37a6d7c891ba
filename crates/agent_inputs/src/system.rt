//! The system's files and streams, as sources and sinks.

ghost use Rattle.std.specs.Prelude.{◌≡◌, ◌<◌, ◌≤◌, length, None, is_some, option_map, IfOk, IsErr, IsNone, IsOk, IsTrue};
ghost use Rattle.std.specs.Io.KnownBytes.{ReadConsumes, WriteAppends};
ghost use Rattle.byte_streams.specs.Streams.{failures_after};
ghost use Rattle.agent_inputs.specs.Loading.{GivesAll, HasFailed, unknown};
ghost use Rattle.agent_inputs.specs.System.{reader_of, writer_of, read_source_state, write_sink_state, runtime_of, is_file, remaining_bytes};

use crate::files::{AgentFiles, Files, LoadFault, SharedFiles};
use crate::source_hash::hash_from;
use arrayvec::ArrayString;
use byte_streams::{Failed, Sink, Source};
use pcr_banks::{Alg, Digest};
use std::alloc::Global;
use std::fmt::Write as _;
use std::fs::{File, OpenFile};
use std::io::{Read, Write};
use std::os::unix::fs::{OpenOptionsExt, PermissionsExt};
use std::rt::Files as FileSystem;
use std::{fs, io};

// How many names there are for a file beside one that is replaced.
const MOST_BESIDE: u32 = 100;

// A path, at most as long as a system takes it (Linux, `PATH_MAX`).
type Path = ArrayString<4096>;

// The mode of a file that its user alone reads and writes.
const PRIVATE: u32 = 0o600;

/// A source over a `std` reader.
///
/// Its bytes are not known. Each error of the reader, an interrupted call included, counts as a failure.
#[derive(Drop)]
pub struct ReadSource<R> {
    reader: R,
    failures: u64,
}

impl<R: Read> ReadSource<R> {
    /// A source that gives the reader's bytes, with no failures so far.
    pub fn new(reader: R) -> Self
        ensures reader { reader_of result ≡ reader }
        ensures failures { (read_source_state result).failures ≡ 0 }
    {
        ReadSource {
            reader,
            failures: 0,
        }
    }
}

impl<R: Read> Source for ReadSource<R> {
    ghost state = { read_source_state };

    /// Reads once from the reader.
    fn read(&mut self, buffer: &mut [u8]) -> Result<usize, Failed>
        ensures within { IfOk result (λ n. n ≤ length buffer.old) }
        ensures reads { ReadConsumes (R.remaining (reader_of self.old)) (R.remaining (reader_of self.new)) result buffer.new }
        ensures counts { (read_source_state self.new).failures ≡ failures_after result (read_source_state self.old).failures }
    {
        match self.reader.read(buffer) {
            Ok(count) => Ok(count),
            Err(_) => {
                self.failures = self.failures.saturating_add(1);
                Err(Failed)
            }
        }
    }
}

/// A sink over a `std` writer.
///
/// Its bytes are not known. Each error of the writer, an interrupted call included, counts as a failure, and so does a write that
/// takes none of the bytes offered.
#[derive(Drop)]
pub struct WriteSink<W> {
    writer: W,
    failures: u64,
}

impl<W: Write> WriteSink<W> {
    /// A sink that hands bytes to the writer, with no failures so far.
    pub fn new(writer: W) -> Self
        ensures writer { writer_of result ≡ writer }
        ensures failures { (write_sink_state result).failures ≡ 0 }
    {
        WriteSink {
            writer,
            failures: 0,
        }
    }
}

impl<W: Write> Sink for WriteSink<W> {
    ghost state = { write_sink_state };

    /// Writes once to the writer.
    fn write(&mut self, bytes: &[u8]) -> Result<usize, Failed>
        ensures within { IfOk result (λ n. n ≤ length bytes.now) }
        ensures advances { IfOk result (λ n. 0 < length bytes.now → 0 < n) }
        ensures writes { WriteAppends (W.contents (writer_of self.old)) (W.contents (writer_of self.new)) result bytes.now }
        ensures counts { (write_sink_state self.new).failures ≡ failures_after result (write_sink_state self.old).failures }
    {
        match self.writer.write(bytes) {
            Ok(count) if count > 0 || bytes.is_empty() => Ok(count),
            _ => {
                self.failures = self.failures.saturating_add(1);
                Err(Failed)
            }
        }
    }
}

/// Where the bytes of an input come from.
#[derive(Drop)]
pub enum OpenInput<F, I> {
    /// A file.
    File(F),
    /// Standard input.
    StandardInput(I),
}

impl<F: Read, I: Read> Read for OpenInput<F, I> {
    ghost remaining = { λ input. remaining_bytes F.remaining I.remaining input };

    fn read(&mut self, buffer: &mut [u8]) -> io::Result<usize> {
        match self {
            OpenInput::File(file) => file.read(buffer),
            OpenInput::StandardInput(stream) => stream.read(buffer),
        }
    }
}

/// The files and the standard input of a runtime.
///
/// A name is a path, relative to the working directory. The name `-` is that of a file.
#[derive(Drop)]
pub struct SystemFiles<'a, R> {
    runtime: &'a R,
    takes_only_regular: bool,
}

impl<'a, R: FileSystem + io::Input> SystemFiles<'a, R> {
    /// The files and the standard input of this runtime.
    pub fn new(runtime: &'a R) -> Self
        ensures { runtime_of result ≡ runtime.now }
    {
        SystemFiles {
            runtime,
            takes_only_regular: false,
        }
    }
}

impl<R: FileSystem + io::Input + Sync> Files for SystemFiles<'_, R> {
    type Src = ReadSource<OpenInput<R::File, R::Reader>>;

    // Nothing is known of the system's files.
    ghost inputs = { λ _. unknown };

    /// Opens the file of this name, or standard input.
    fn source(&mut self, name: Option<&str>) -> Result<Self::Src, Failed>
        ensures origin { IfOk result (λ source. is_file (reader_of source) ≡ is_some name.entry) }
        ensures standard_input { IsNone name.entry → IsOk result }
        ensures failures { IfOk result (λ source. (read_source_state source).failures ≡ 0) }
        ensures gives { IfOk result (λ source. GivesAll None (read_source_state source)) }
        ensures refused { IsErr result → IsTrue (unknown.may_fail (option_map (λ name. name.now) name.entry)) }
        ensures failing { IfOk result (λ source. (later : ReadSource (OpenInput R.File R.Reader)) → HasFailed (read_source_state source) (read_source_state later)
            → IsTrue (unknown.may_fail (option_map (λ name. name.now) name.entry))) }
    {
        let input = match name {
            None => OpenInput::StandardInput(self.runtime.reader()),
            Some(name) => OpenInput::File(open(self.runtime, name, self.takes_only_regular)?),
        };
        Ok(ReadSource::new(input))
    }
}

impl<R: FileSystem + io::Input + Sync> AgentFiles for SystemFiles<'_, R> {
    type Shared = Self;

    /// Writes and syncs a new file beside it, and renames that.
    fn replace(&mut self, name: &str, bytes: &[u8]) -> Result<(), Failed> {
        replace_file(self.runtime, name, bytes).map_err(|_| Failed)
    }

    fn take_only_regular_files(&mut self) {
        self.takes_only_regular = true;
    }

    fn is_regular(&self, name: &str) -> bool {
        is_regular(self.runtime, name)
    }

    /// These files.
    fn shared(&self) -> &Self
        ensures { result.now ≡ self.now }
    {
        self
    }
}

// Opens the file of this name. If only regular files are taken, fails for whatever else has the name: what has it is looked at before, since to
// open a pipe may wait for ever, and what was opened is looked at after, since the name may be another's by then.
fn open<R: FileSystem>(rt: &R, name: &str, only_regular: bool) -> Result<R::File, Failed> {
    if only_regular && !is_regular(rt, name) {
        return Err(Failed);
    }
    let file = File::open(rt, name).map_err(|_| Failed)?;
    if only_regular && !is_regular_file(&file) {
        return Err(Failed);
    }
    Ok(file)
}

// Whether the open file is a regular one.
fn is_regular_file<F: OpenFile>(file: &F) -> bool {
    match file.metadata() {
        Ok(present) => present.is_file(),
        Err(_) => false,
    }
}

/// Whether the file of this name is a regular one, or a link to such a file.
pub fn is_regular<R: FileSystem>(rt: &R, name: &str) -> bool {
    match fs::metadata(rt, name) {
        Ok(present) => present.is_file(),
        Err(_) => false,
    }
}

// Has the file of this name be these bytes, by way of a new file beside it. That is removed if this fails.
fn replace_file<R: FileSystem>(rt: &R, name: &str, bytes: &[u8]) -> io::Result<()> {
    let mode = mode_in_place_of(rt, name)?;
    let (mut file, beside) = create_beside(rt, name, mode)?;
    let renamed = write_file(&mut file, bytes).and_then(|()| fs::rename(rt, beside.as_str(), name));
    if renamed.is_err() {
        let _ = fs::remove_file(rt, beside.as_str());
    }
    renamed
}

// The mode of the file that takes the place of what has this name: its user alone reads and writes it, if that one allows it. Fails if that
// is no regular file.
fn mode_in_place_of<R: FileSystem>(rt: &R, name: &str) -> io::Result<u32> {
    match fs::symlink_metadata(rt, name) {
        Ok(present) if present.is_file() => Ok(PRIVATE & present.permissions().mode()),
        Ok(_) => Err(io::Error::from(io::ErrorKind::InvalidInput)),
        Err(fault) if fault.kind() == io::ErrorKind::NotFound => Ok(PRIVATE),
        Err(fault) => Err(fault),
    }
}

// Creates a file of this mode beside that of the name, under the first of the names for it that nothing has. Returns it with its name.
fn create_beside<R: FileSystem>(rt: &R, name: &str, mode: u32) -> io::Result<(R::File, Path)> {
    let mut options = File::options();
    options.write(true).create_new(true).mode(mode);
    for number in 0..MOST_BESIDE {
        let beside = name_beside(name, number)?;
        match options.open(rt, beside.as_str()) {
            Ok(file) => return Ok((file, beside)),
            Err(fault) if fault.kind() == io::ErrorKind::AlreadyExists => {}
            Err(fault) => return Err(fault),
        }
    }
    Err(io::Error::from(io::ErrorKind::AlreadyExists))
}

// The name of a file beside that of the name, for this number.
fn name_beside(name: &str, number: u32) -> io::Result<Path> {
    let mut beside = ArrayString::new();
    write!(beside, "{name}.{number}.new").map_err(|_| io::ErrorKind::InvalidFilename)?;
    Ok(beside)
}

// Writes the bytes to the file, and syncs it.
fn write_file<F: Write + OpenFile>(file: &mut F, bytes: &[u8]) -> io::Result<()> {
    file.write_all(bytes)?;
    file.sync_all()
}

impl<R: FileSystem> SharedFiles for SystemFiles<'_, R> {
    // The contents of files are not known.
    ghost held = { λ _ _. None };

    /// Opens and hashes the file of this name.
    fn hash(&self, alloc: Global, name: &str, alg: Alg, limit: u64) -> Result<Digest, LoadFault> {
        let file = File::open(self.runtime, name).map_err(|_| LoadFault::Source)?;
        hash_from(alloc, &mut ReadSource::new(file), alg, limit)
    }
}
