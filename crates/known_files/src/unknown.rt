//! The entries of a list that are not known.

ghost use Rattle.std.specs.Prelude.{◌≡◌, ◌≤◌, ℕ, false, true, nat_lt, List, [], ◌∷◌, ◌++◌, length, take, Option, None, Some, option_copied, option_map, IfOk, IfErr};
ghost use Rattle.std.specs.List.{filter};
ghost use Rattle.std.specs.Option.{IsSomeAnd};
ghost use Rattle.ima_list.specs.Names.{ListEntry};
ghost use Rattle.boot_verdict.specs.Names.{AreTracked};
ghost use Rattle.known_files.specs.declared.known.KnownFiles.{KnownFiles};
ghost use Rattle.known_files.specs.declared.unknown.UnknownEntries.{UnknownEntries};
ghost use Rattle.known_files.specs.Known.{Knows};
ghost use Rattle.known_files.specs.Unknown.{AreUnknown, HasAdded, IsFresh, IsLookedAfter, IsSomeUnknown, files_of, is_passed, is_told, has_no_unknown};

use crate::known::{KnownFiles, is_aggregate};
use boot_verdict::{Position, Step, Tracker};
use ima_list::EntryRef;
use std::alloc::{AllocError, Global};

/// The entries whose files are not known, of those from number `first` on. Entries count from 0. Entry 0 is not among them if it is one of the boot
/// aggregate.
#[derive(Drop)]
pub struct UnknownFiles {
    /// The number of the first entry that was looked at.
    pub first: usize,
    /// The numbers of those that are not known, in order.
    pub numbers: Vec<usize>,
}

/// Whether no entry is told unknown; so it is where no files are known.
pub fn has_no_unknown(unknown: Option<&UnknownFiles>) -> bool
    ensures { result ≡ has_no_unknown (option_copied unknown.entry) }
{
    match unknown {
        Some(unknown) => unknown.numbers.is_empty(),
        None => true,
    }
}

/// Looks at the entries of a list one after another, and collects the numbers of those that are not known.
#[derive(Drop)]
pub struct UnknownEntries<'a> {
    known: Option<&'a KnownFiles>,
    first: usize,
    numbers: Vec<usize>,
    failed: bool,
}

impl<'a> UnknownEntries<'a> {
    /// Looks at the entries from number `first` on; at none without known files.
    pub fn new(alloc: Global, known: Option<&'a KnownFiles>, first: usize) -> Self
        ensures fresh { IsFresh (option_map (λ files. files.now) known.entry) first result }
        // The entries before these count as looked at.
        ensures begins { (entries : List ListEntry) → length entries ≤ first → AreTracked IsLookedAfter result entries result }
    {
        UnknownEntries {
            known,
            first,
            numbers: Vec::new(alloc),
            failed: false,
        }
    }

    /// The entries that are not known, among the first `count` of the list; `None` without known files. Fails if memory ran out at an
    /// unknown entry, which may be a later one.
    pub fn within(self, count: usize) -> Result<Option<UnknownFiles>, AllocError>
        ensures unknown { IfOk result (λ unknown. (files : KnownFiles) (first : ℕ) (start : UnknownEntries) (entries : List ListEntry)
            → IsFresh (Some files) first start → AreTracked IsLookedAfter start entries self.entry
            → IsSomeAnd unknown (λ unknown. (unknown.first ≡ first)
            × ((texts : List (List ℕ)) → Knows texts files → AreUnknown texts first (take count entries) unknown.numbers.items))) }
        ensures none { IfOk result (λ unknown. (first : ℕ) (start : UnknownEntries) (entries : List ListEntry) → IsFresh None first start
            → AreTracked IsLookedAfter start entries self.entry → unknown ≡ None) }
        ensures memory { IfErr result (λ refused. (files : KnownFiles) (first : ℕ) (start : UnknownEntries) (entries : List ListEntry)
            → IsFresh (Some files) first start → AreTracked IsLookedAfter start entries self.entry
            → (texts : List (List ℕ)) → Knows texts files → IsSomeUnknown texts first entries) }
        ensures idle { IfErr result (λ refused. (first : ℕ) (start : UnknownEntries) (entries : List ListEntry) → IsFresh None first start
            → AreTracked IsLookedAfter start entries self.entry → ⊥) }
    {
        if self.failed {
            return Err(AllocError);
        }
        match self.known {
            Some(_known) => Ok(Some(UnknownFiles {
                first: self.first,
                numbers: numbers_below(self.numbers, count),
            })),
            None => Ok(None),
        }
    }

    // Whether the entry of this number is looked at, and is unknown.
    fn is_unknown(&self, number: usize, entry: &EntryRef<'_>) -> bool
        ensures told { (texts : List (List ℕ)) (files : KnownFiles) → files_of self.now ≡ Some files → Knows texts files
            → result ≡ is_told texts self.now.first number entry.now }
        ensures idle { files_of self.now ≡ None → result ≡ false }
    {
        match self.known {
            Some(known) => {
                number >= self.first && !is_passed(number, entry) && !known.is_known(entry)
            }
            None => false,
        }
    }

    // Adds this number, unless memory runs out.
    fn tell(&mut self, number: usize)
        ensures added { HasAdded self.old (number ∷ []) self.new }
        ensures known { self.new.known ≡ self.old.known }
        ensures first { self.new.first ≡ self.old.first }
    {
        if self.numbers.push(number).is_err() {
            self.failed = true;
        }
    }
}

impl Tracker for UnknownEntries<'_> {
    ghost is_after = { IsLookedAfter };

    fn step(&mut self, step: &Step<'_>, position: Position) {
        let Step::Entry(entry) = step else {
            return;
        };
        let Position::Entry(number) = position else {
            return;
        };
        if self.is_unknown(number, entry) {
            self.tell(number);
        }
    }
}

// Whether the entry of this number is the first, and one of the boot aggregate.
fn is_passed(number: usize, entry: &EntryRef<'_>) -> bool
    ensures { result ≡ is_passed number entry.now }
{
    number == 0 && is_aggregate(entry)
}

// Those of the numbers that are less than `count`.
fn numbers_below(numbers: Vec<usize>, count: usize) -> Vec<usize>
    ensures { result.items ≡ filter (λ number. nat_lt number count) numbers.items }
{
    let mut below = numbers;
    below.retain(|number| *number < count);
    below
}
