//! The boot aggregate that a list's first entry records by a template that is none of [`ima_list::Template`].

ghost use Rattle.std.specs.Prelude.{◌≡◌, [], ◌∷◌, ◌++◌, List, length, option_map};
ghost use Rattle.pcr_banks.specs.Names.{alg_of, bytes_of};
ghost use Rattle.ima_list.specs.Names.{ListEntry};
ghost use Rattle.boot_verdict.specs.Verdicts.{recorded_by_any, told_aggregate, told_in};

use crate::list_replay::recorded_in;
use ima_list::{BOOT_AGGREGATE_PATH, EntryRef, kernel_file_of};
use pcr_banks::Digest;

/// The boot aggregate that a list's first entry records by another template, up to this entry; `told` is that of the entries before it.
pub(crate) fn told_with(
    told: Option<Digest>,
    position: usize,
    entry: &EntryRef<'_>,
) -> Option<Digest>
    ensures { (before : List ListEntry) → position ≡ length before
        → option_map (λ digest. (alg_of digest, bytes_of digest)) told ≡ told_aggregate before
        → option_map (λ digest. (alg_of digest, bytes_of digest)) result ≡ told_aggregate (before ++ entry.now ∷ []) }
{
    if position == 0 { told_in(entry) } else { told }
}

/// The boot aggregate that this entry, of a template that is none of [`ima_list::Template`], records as the first of a list, if any.
pub fn told_in(entry: &EntryRef<'_>) -> Option<Digest>
    ensures { option_map (λ digest. (alg_of digest, bytes_of digest)) result ≡ told_in entry.now }
{
    if entry.is_violation() {
        return None;
    }
    let (digest, path) = kernel_file_of(entry)?;
    (path == BOOT_AGGREGATE_PATH).then_some(digest)
}

/// The boot aggregate that this entry records as the first of a list by its template, whichever of the kernel's that is, if any.
pub fn recorded_by_any(entry: &EntryRef<'_>) -> Option<Digest>
    ensures { option_map (λ digest. (alg_of digest, bytes_of digest)) result ≡ recorded_by_any entry.now }
{
    match recorded_in(entry) {
        Some(digest) => Some(digest),
        None => told_in(entry),
    }
}
