//! Gives an answer to the caller: a text in the caller's buffer, what is reported of it, and a number.

ghost use Rattle.std.specs.Prelude.{◌≡◌, ◌≤◌, ◌⊎◌, ◌&&◌, ℕ, List, None, length, nat_le, option_map, pos, IfOk, IfSome};
ghost use Rattle.agent_inputs.specs.declared.fault.RunFault.TheVariants.{Memory};
ghost use Rattle.judging.specs.Requests.{Requested, requested_of};
ghost use Rattle.ima_verify_c.specs.Answers.{Answers, AnswersCounted, AnswersMore, AreGiven, answer_of_status, fault_answer, GivesFound, HasNoAnswerOn, GivesPiece, IsAnswerAndNext, IsAnswerTo, IsAnswerWith, IsGiven, IsLineOf, IsNoReport, IsRefusal, info_of};
ghost use Rattle.ima_verify_c.specs.Numbers.{numbers_if};

use crate::numbers::fill_if;
use crate::text_info::TextInfo;
use agent_inputs::{FaultKind, RunFault};
use agent_plans::Form;
use byte_streams::{Failed, VecSink};
use judging::Request;
use line_chunks::{LineOffset, Piece, PieceEnd};
use rendering::{
    Rendered, Summary, json_fault_line, json_memory_line, memory_line, output_on, status_of,
    write_fault,
};
use std::alloc::{AllocError, Global};

/// What a call returns if all is well.
pub(crate) const DONE: u8 = 0;

/// What a call returns if not all is well.
const DIFFERS: u8 = 1;

/// What a call returns if an input is refused.
const REFUSED: u8 = 2;

/// What a call returns if memory ran out.
pub(crate) const OUT_OF_MEMORY: u8 = 3;

/// What a call returns if the capacity is too small.
const TOO_SHORT: i32 = 4;

/// What a call returns if there are more lines.
const MORE: u8 = 5;

/// What a call returns if a position is none, or nothing can be asked for so.
pub(crate) const MISUSED: i32 = 6;

/// Gives the answer to what is asked of bytes in memory, or the line of a fault, in this form.
pub(crate) fn give(
    alloc: Global,
    request: Request<'_>,
    form: Form,
    out: &mut [u8],
    info: &mut TextInfo,
) -> i32
    ensures { Answers (IsAnswerTo (requested_of request.entry) form) result info.new out.old out.new }
{
    match output_on(alloc, request, form) {
        Ok(given) => put(
            &given.output.text,
            answer_of_status(given.output.status),
            None,
            out,
            info,
        ),
        Err(fault) => give_fault(alloc, form, &fault, out, info),
    }
}

/// What a call returns for an answer with this exit status.
pub(crate) fn answer_of_status(status: u8) -> u8
    ensures { result ≡ answer_of_status status }
{
    if status == 0 { DONE } else { DIFFERS }
}

/// Gives the answer and its numbers; or the line of a fault, and no verdict's numbers.
pub(crate) fn give_counted(
    alloc: Global,
    request: Request<'_>,
    form: Form,
    numbers: &mut [u64],
    out: &mut [u8],
    info: &mut TextInfo,
) -> i32
    ensures { AnswersCounted (IsAnswerWith (requested_of request.entry) form) result info.new out.old out.new numbers.old numbers.new }
{
    match output_on(alloc, request, form) {
        Ok(given) => put_counted(&given, numbers, out, info),
        Err(fault) => give_no_verdict(alloc, form, &fault, numbers, out, info),
    }
}

/// Gives the line of a fault, and no verdict's numbers.
pub(crate) fn give_no_verdict(
    alloc: Global,
    form: Form,
    fault: &RunFault,
    numbers: &mut [u64],
    out: &mut [u8],
    info: &mut TextInfo,
) -> i32
    ensures { (request : Requested) → HasNoAnswerOn request fault.now → AnswersCounted (IsAnswerWith request form) result info.new out.old out.new
        numbers.old numbers.new }
{
    fill_if(false, Summary::none(), numbers);
    give_fault(alloc, form, fault, out, info)
}

/// Gives the answer, its numbers, and the text of the checkpoint of what it is on; or the line of a fault, no verdict's numbers, and no checkpoint.
pub(crate) fn give_both(
    alloc: Global,
    request: Request<'_>,
    form: Form,
    numbers: &mut [u64],
    next: &mut [u8],
    next_size: &mut usize,
    out: &mut [u8],
    info: &mut TextInfo,
) -> i32
    ensures { AnswersMore (IsAnswerAndNext (requested_of request.entry) form) result info.new out.old out.new numbers.old numbers.new next_size.new
        next.old next.new }
{
    match output_on(alloc, request, form) {
        Ok(given) => put_both(&given, numbers, next, next_size, out, info),
        Err(fault) => give_no_report(alloc, form, &fault, numbers, next_size, out, info),
    }
}

/// Gives the line of a fault, no verdict's numbers, and no checkpoint.
pub(crate) fn give_no_report(
    alloc: Global,
    form: Form,
    fault: &RunFault,
    numbers: &mut [u64],
    next_size: &mut usize,
    out: &mut [u8],
    info: &mut TextInfo,
) -> i32
    ensures { (next : List ℕ) → AnswersMore (IsNoReport (λ reason. (reason ≡ fault.now) ⊎ (reason ≡ Memory)) form) result info.new out.old out.new
        numbers.old numbers.new next_size.new next next }
{
    *next_size = 0;
    fill_if(false, Summary::none(), numbers);
    give_fault(alloc, form, fault, out, info)
}

/// Gives nothing, and no checkpoint, where nothing can be asked for so.
pub(crate) fn give_nothing(next_size: &mut usize, info: &mut TextInfo) -> i32
    ensures answer { result ≡ pos 6 }
    ensures info { info.new ≡ info_of 0 None }
    ensures size { next_size.new ≡ 0 }
{
    *next_size = 0;
    *info = TextInfo::of(0, None);
    MISUSED
}

/// Gives a piece of lines, and sets the position to where the next begin; nothing, if there is no piece since the position is none; or the
/// line of a fault.
pub(crate) fn give_lines(
    alloc: Global,
    form: Form,
    found: Result<Option<Piece>, RunFault>,
    offset: &mut usize,
    number: &mut usize,
    out: &mut [u8],
    info: &mut TextInfo,
) -> i32
    requires { IfOk found (λ piece. IfSome piece (λ piece. length piece.text.items ≤ length out.old)) }
    ensures { GivesFound form found (record { offset = offset.old; number = number.old }) (record { offset = offset.new; number = number.new })
        result info.new out.old out.new }
{
    match found {
        Ok(Some(piece)) => give_piece(&piece, offset, number, out, info),
        Ok(None) => {
            *info = TextInfo::of(0, None);
            MISUSED
        }
        Err(fault) => give_fault(alloc, form, &fault, out, info),
    }
}

fn give_piece(
    piece: &Piece,
    offset: &mut usize,
    number: &mut usize,
    out: &mut [u8],
    info: &mut TextInfo,
) -> i32
    requires { length piece.now.text.items ≤ length out.now }
    ensures { GivesPiece piece.now (record { offset = offset.old; number = number.old }) (record { offset = offset.new; number = number.new })
        result info.new out.old out.new }
{
    let status = match piece.end {
        PieceEnd::Last => 0,
        PieceEnd::More => MORE,
        PieceEnd::Longer(size) => {
            *info = TextInfo::of(size, None);
            return TOO_SHORT;
        }
    };
    *offset = piece.next.offset;
    *number = piece.next.number;
    put(&piece.text, status, None, out, info)
}

/// Gives the line of a fault in this form; that of `Memory`, if there is no memory for it.
pub(crate) fn give_fault(
    alloc: Global,
    form: Form,
    fault: &RunFault,
    out: &mut [u8],
    info: &mut TextInfo,
) -> i32
    ensures { Answers (IsRefusal (λ reason. (reason ≡ fault.now) ⊎ (reason ≡ Memory)) form) result info.new out.old out.new }
{
    match line_in(alloc, form, fault) {
        Ok(line) => put(&line, answer_after(fault), Some(fault), out, info),
        Err(AllocError) => {
            let fault = RunFault::Memory;
            put(memory_line_in(form), OUT_OF_MEMORY, Some(&fault), out, info)
        }
    }
}

// What a call returns after a fault: the program's exit status, but that of a refused quote or signature, which would say that the capacity is too
// small.
fn answer_after(fault: &RunFault) -> u8
    ensures { result ≡ fault_answer fault.now }
{
    match fault.head().kind {
        FaultKind::Quote | FaultKind::Signature => REFUSED,
        _ => status_of(fault),
    }
}

// The line of a fault, in this form.
fn line_in(alloc: Global, form: Form, fault: &RunFault) -> Result<Vec<u8>, AllocError>
    ensures { IfOk result (λ line. IsLineOf form fault.now line.items (fault_answer fault.now)) }
{
    if let Form::Json = form {
        return json_fault_line(alloc, fault);
    }
    let mut line = VecSink::new(Vec::new(alloc));
    match write_fault(fault, &mut line) {
        Ok(()) => Ok(line.into_bytes()),
        Err(Failed) => Err(AllocError),
    }
}

// That of `Memory`, which takes no memory.
fn memory_line_in(form: Form) -> &'static [u8]
    ensures { IsLineOf form Memory result.now 3 }
{
    match form {
        Form::Text => memory_line(),
        Form::Json => json_memory_line(),
    }
}

/// Writes a text at the start of the caller's buffer, if it fits, and reports its size and the fault that it is the line of.
pub(crate) fn put(
    text: &[u8],
    status: u8,
    fault: Option<&RunFault>,
    out: &mut [u8],
    info: &mut TextInfo,
) -> i32
    ensures { IsGiven text.now status (option_map (λ fault. fault.now) fault.entry) result info.new out.old out.new }
{
    if out.len() < text.len() {
        *info = TextInfo::of(text.len(), None);
        return TOO_SHORT;
    }
    out[..text.len()].copy_from_slice(text);
    *info = TextInfo::of(text.len(), fault);
    i32::from(status)
}

// Writes an answer at the start of the caller's buffer, and its numbers, if it fits.
fn put_counted(given: &Rendered, numbers: &mut [u64], out: &mut [u8], info: &mut TextInfo) -> i32
    ensures given { IsGiven given.now.output.text.items (answer_of_status given.now.output.status) None result info.new out.old out.new }
    ensures numbers { numbers.new ≡ numbers_if (nat_le (length given.now.output.text.items) (length out.old)) given.now.summary numbers.old }
{
    let text = &given.output.text;
    fill_if(text.len() <= out.len(), given.summary, numbers);
    let answer = answer_of_status(given.output.status);
    put(text, answer, None, out, info)
}

// Writes an answer and the text of a checkpoint each at the start of its buffer, and the numbers, if both fit.
fn put_both(
    given: &Rendered,
    numbers: &mut [u64],
    next: &mut [u8],
    next_size: &mut usize,
    out: &mut [u8],
    info: &mut TextInfo,
) -> i32
    ensures given { AreGiven given.now.output.text.items (answer_of_status given.now.output.status) None given.now.checkpoint.items result info.new
        out.old out.new next_size.new next.old next.new }
    ensures numbers { numbers.new ≡ numbers_if (nat_le (length given.now.output.text.items) (length out.old)
        && nat_le (length given.now.checkpoint.items) (length next.old)) given.now.summary numbers.old }
{
    let text = &given.output.text;
    let state = &given.checkpoint;
    let fits = text.len() <= out.len() && state.len() <= next.len();
    *next_size = state.len();
    fill_if(fits, given.summary, numbers);
    if fits {
        next[..state.len()].copy_from_slice(state);
        let answer = answer_of_status(given.output.status);
        return put(text, answer, None, out, info);
    }
    *info = TextInfo::of(text.len(), None);
    TOO_SHORT
}
