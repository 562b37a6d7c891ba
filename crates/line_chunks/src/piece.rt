//! A piece of lines, and how it is filled.

ghost use Rattle.std.specs.Prelude.{◌≡◌, ℕ, ◌<◌, ◌≤◌, ◌⊎◌, ◌==◌, if◌then◌else◌, List, [], length, take, IfOk, IfErr};
ghost use Rattle.agent_inputs.specs.declared.fault.RunFault.TheVariants.{Memory};
ghost use Rattle.line_chunks.specs.declared.piece.PieceEnd.TheVariants.{Longer, More};
ghost use Rattle.line_chunks.specs.Pieces.{Appends, IsPiece, IsWithin, is_within};

use agent_inputs::RunFault;
use std::alloc::Global;

/// Where lines go on: how many bytes come before, and how many entries or events. Lines begin at `LineOffset::START`.
#[derive(Clone, Copy, Debug, PartialEq, Eq)]
pub struct LineOffset {
    /// How many bytes come before it; behind the line of how many entries a list has, one more than the list has.
    pub offset: usize,
    /// How many entries or events come before it.
    pub number: usize,
}

impl LineOffset {
    /// Whether so many entries or events may be before it, in as many bytes.
    pub fn is_within(self, size: usize) -> bool
        ensures { result ≡ is_within self size }
    {
        self.number <= self.offset && self.offset <= size
    }
}

/// Why a piece ends.
#[derive(Clone, Copy, Debug, PartialEq, Eq)]
pub enum PieceEnd {
    /// There are no more lines.
    Last,
    /// There are more: the next line has no more room, or a fault comes next.
    More,
    /// The next line alone, which has so many bytes, has no room: no line was given.
    Longer(usize),
}

/// Whole lines, and where the next begin.
#[derive(Debug, Drop)]
pub struct Piece {
    /// The lines.
    pub text: Vec<u8>,
    /// Where the next begin.
    pub next: LineOffset,
    /// Why there are no more of them.
    pub end: PieceEnd,
}

/// The position after a line that was appended; or `None`, if there are no more lines.
pub(crate) type Appended = Result<Option<LineOffset>, RunFault>;

/// Lines, each at a position.
pub(crate) trait Lines {
    ghost use Rattle.line_chunks.specs.Pieces.{Series};

    // The lines one after another.
    ghost series: { Self → Series };

    // How many bytes the lines are of.
    ghost size: { Self → ℕ };

    /// Appends the line at this position.
    fn append(&self, alloc: Global, position: LineOffset, text: &mut Vec<u8>) -> Appended
        requires { IsWithin position (size self.now) }
        ensures { Appends (series self.now) (size self.now) position text.old.items text.new.items result };
}

/// As many lines from this position on as there is room for.
pub(crate) fn fill<L: Lines>(
    alloc: Global,
    lines: &L,
    start: LineOffset,
    capacity: usize,
) -> Result<Piece, RunFault>
    requires { IsWithin start (L.size lines.now) }
    ensures piece { IfOk result (λ piece. (before : List ℕ) → (L.series lines.now).AreBefore start before
        → IsPiece (L.series lines.now) capacity before piece) }
    ensures fits { IfOk result (λ piece. length piece.text.items ≤ capacity) }
    ensures fault { IfErr result (λ fault. (fault ≡ Memory)
        ⊎ ((before : List ℕ) → (L.series lines.now).AreBefore start before → (L.series lines.now).FailsAfter before fault)) }
{
    let mut text = Vec::new(alloc);
    let mut next = start;
    loop {
        let kept = text.len();
        let after = match lines.append(alloc, next, &mut text) {
            Ok(Some(after)) => after,
            Ok(None) => {
                return Ok(Piece {
                    text,
                    next,
                    end: PieceEnd::Last,
                });
            }
            Err(fault) => return stop(fault, text, next),
        };
        if text.len() > capacity {
            return Ok(cut(text, kept, next));
        }
        next = after;
    }
}

// The piece with the lines before this fault, if there are some. If memory ran out there is none.
fn stop(fault: RunFault, text: Vec<u8>, next: LineOffset) -> Result<Piece, RunFault>
    ensures ok { IfOk result (λ piece. (piece ≡ record { text = text; next = next; end = More }) × (0 < length text.items)
        × (fault ≡ Memory → ⊥)) }
    ensures err { IfErr result (λ reason. (reason ≡ fault) × ((text.items ≡ []) ⊎ (fault ≡ Memory))) }
{
    if text.is_empty() || matches!(&fault, RunFault::Memory) {
        return Err(fault);
    }
    Ok(Piece {
        text,
        next,
        end: PieceEnd::More,
    })
}

// The piece with so many bytes of this text, of which the last line has no room.
fn cut(text: Vec<u8>, kept: usize, next: LineOffset) -> Piece
    requires { kept ≤ length text.items }
    ensures text { result.text.items ≡ take kept text.items }
    ensures next { result.next ≡ next }
    ensures end { result.end ≡ (if kept == 0 then Longer (length text.items) else More) }
{
    let mut text = text;
    let size = text.len();
    text.truncate(kept);
    let end = if kept == 0 {
        PieceEnd::Longer(size)
    } else {
        PieceEnd::More
    };
    Piece { text, next, end }
}
