//! What is reported to a caller in C of a text: its size, and the error that it is the line of.

ghost use Rattle.std.specs.Prelude.{◌≡◌, option_map};
ghost use Rattle.ima_verify_c.specs.Answers.{head_info, info_of, info_with};

use agent_inputs::{FaultHead, FaultKind, RunFault};

/// The size of a text, and the error that it is the line of, as `struct ima_verify_info`.
#[repr(C)]
#[derive(Clone, Copy)]
pub struct TextInfo {
    /// The size of the text in bytes.
    pub size: usize,
    /// The kind of the error; 0 if there is none.
    pub error_kind: u32,
    /// Its number among the errors of its kind; 0 where they have none.
    pub error_number: u32,
    /// The event, the entry or the line that it names; or 2^64 - 1.
    pub error_place: u64,
}

impl TextInfo {
    /// That the text has this size, and is the line of this fault, if there is one.
    pub(crate) fn of(size: usize, fault: Option<&RunFault>) -> Self
        ensures { result ≡ info_of size (option_map (λ fault. fault.now) fault.entry) }
    {
        match fault {
            Some(fault) => TextInfo::of_head(size, fault.head()),
            None => TextInfo::with(size, 0, None, None),
        }
    }

    fn of_head(size: usize, head: FaultHead) -> Self
        ensures { result ≡ head_info size head.kind head.number head.place }
    {
        let kind = match head.kind {
            FaultKind::Usage => 1,
            FaultKind::Log => 2,
            FaultKind::List => 3,
            FaultKind::Replay => 4,
            FaultKind::Expect => 5,
            FaultKind::Checkpoint => 6,
            FaultKind::Memory => 7,
            FaultKind::Quote => 8,
            FaultKind::Key => 9,
            FaultKind::Known => 10,
            FaultKind::Signature => 11,
            FaultKind::ListText => 12,
            FaultKind::LogForm => 13,
            _ => return TextInfo::with(size, 0, None, None),
        };
        TextInfo::with(size, kind, head.number, head.place)
    }

    fn with(size: usize, kind: u32, number: Option<u32>, place: Option<usize>) -> Self
        ensures { result ≡ info_with size kind number place }
    {
        TextInfo {
            size,
            error_kind: kind,
            error_number: number.unwrap_or(0),
            error_place: place.unwrap_or(usize::MAX) as u64,
        }
    }
}
