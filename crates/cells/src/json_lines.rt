//! Lines in a vector, and on their way to a sink.

ghost use Rattle.std.specs.Prelude.{◌≡◌, [], ◌++◌, length, codes, IsOk, OnOk, OnErr};
ghost use Rattle.std.specs.Str.{IsUtf8};
ghost use Rattle.byte_streams.specs.Streams.{Sends};
ghost use Rattle.json.specs.Print.{print};

use crate::writer::Written;
use byte_streams::{Failed, Sink, send};
use json::Writer;
use std::alloc::Global;
use std::mem;

/// Sends all bytes of the vector, and empties it; it keeps its room for the next line. After `Err` the sink has taken a prefix of
/// them, and the vector is empty too.
pub fn send_line<S: Sink>(line: &mut Vec<u8>, sink: &mut S) -> Result<(), Failed>
    ensures sent { Sends (S.state sink.old) (S.state sink.new) result line.old.items }
    ensures emptied { line.new.items ≡ [] }
{
    let sent = send(line, sink);
    line.clear();
    sent
}

/// A writer that goes on after the vector's bytes, and has its room; and their number.
pub fn begin_line(alloc: Global, line: &mut Vec<u8>) -> (Writer, usize)
    ensures before { result.0.before ≡ line.old.items }
    ensures tokens { result.0.tokens ≡ [] }
    ensures start { result.1 ≡ length line.old.items }
{
    let start = line.len();
    (Writer::new(mem::replace(line, Vec::new(alloc))), start)
}

/// Gives the vector the bytes of a writer that began after `from` bytes, and a line feed; without what the writer added, if
/// that was refused or the line feed is.
///
/// Fails if `written` did, or if memory runs out for the line feed.
#[tactic(auto, using(crate::proofs::WrittenLaws::with_line_feed))]
pub fn end_line(written: Written, writer: Writer, from: usize, line: &mut Vec<u8>) -> Written
    requires { from ≡ length writer.before }
    ensures written { OnOk result (IsOk written) }
    ensures ok { OnOk result (line.new.items ≡ writer.before ++ (print writer.tokens ++ codes "\n")) }
    ensures utf8 { OnOk result (IsUtf8 (print writer.tokens ++ codes "\n")) }
    ensures err { OnErr result (line.new.items ≡ writer.before) }
{
    *line = writer.into_inner();
    let ended = end(written, line);
    if ended.is_err() {
        line.truncate(from);
    }
    ended
}

// Appends the line feed, if the line was written.
fn end(written: Written, line: &mut Vec<u8>) -> Written
    ensures written { OnOk result (IsOk written) }
    ensures ok { OnOk result (line.new.items ≡ line.old.items ++ codes "\n") }
    ensures err { OnErr result (line.new.items ≡ line.old.items) }
{
    written?;
    line.push(b'\n')?;
    Ok(())
}
