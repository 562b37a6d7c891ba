//! That a log and a list extend different registers.

ghost use Rattle.std.specs.Prelude.{◌≡◌, List, [], ◌∷◌, ◌++◌, length};
ghost use Rattle.boot_log.specs.declared.header.DeclaredAlgorithm.{DeclaredAlgorithm};
ghost use Rattle.boot_log.specs.Names.{IsLog, LogEvent, log_bytes};
ghost use Rattle.ima_list.specs.Names.{ListEntry};
ghost use Rattle.boot_verdict.specs.Isolation.{are_none, first_extending, first_stray};

use boot_log::LogView;
use ima_list::EntryRef;

/// The register that IMA extends, and nothing else does.
pub const LIST_REGISTER: u32 = 10;

/// An entry of a list that extends another register than [`LIST_REGISTER`].
#[derive(Clone, Copy, PartialEq, Eq)]
pub struct Stray {
    /// Its number, counted from 0.
    pub entry: usize,
    /// The register.
    pub register: u32,
}

/// What of a log and a list extends a register that is the other's: its value then tells nothing of one of them alone.
#[derive(Clone, Copy, PartialEq, Eq)]
pub struct Strays {
    /// The number of the log's first event that extends [`LIST_REGISTER`], counted from 1.
    pub event: Option<usize>,
    /// The list's first entry that extends another.
    pub entry: Option<Stray>,
}

impl Strays {
    /// Whether nothing does.
    pub fn are_none(&self) -> bool
        ensures { result ≡ are_none self.now }
    {
        self.event.is_none() && self.entry.is_none()
    }
}

/// The number of the first event of the log that extends the list's register, if one does. Events count from 1.
pub fn first_extending(log: &LogView<'_>) -> Option<usize>
    ensures { (table : List DeclaredAlgorithm) (events : List LogEvent) → IsLog (log_bytes log.now) table events → result ≡ first_extending events }
{
    let mut events = log.events();
    while let Some(event) = events.next_event() {
        if event.is_extended_into(LIST_REGISTER) {
            return Some(events.count());
        }
    }
    None
}

/// The first stray entry up to this one, which has this number; `stray` is that of the entries before it.
pub(crate) fn stray_with(stray: Option<Stray>, number: usize, entry: &EntryRef<'_>) -> Option<Stray>
    ensures { (entries : List ListEntry) → number ≡ length entries → stray ≡ first_stray entries
        → result ≡ first_stray (entries ++ entry.now ∷ []) }
{
    match stray {
        Some(_) => stray,
        None if entry.register() != LIST_REGISTER => Some(Stray {
            entry: number,
            register: entry.register(),
        }),
        None => None,
    }
}
