//! The hash of all bytes of a source.

ghost use Rattle.std.specs.Prelude.{◌<◌, length, IfOk, IfSome, IsErrOf};
ghost use Rattle.agent_inputs.specs.Loading.{IsHashOfAll, Drains};

use crate::files::LoadFault;
use byte_streams::Source;
use pcr_banks::{Alg, Digest, Hasher};
use std::alloc::Global;

/// The most bytes per read: 64 KiB.
const PIECE: usize = 65_536;
/// The most bytes per read until one read gives as many: 4 KiB, so that a small file costs little.
const FIRST_PIECE: usize = 4_096;

// The hash of all bytes of a source, or why there is none.
type Hashed = Result<Digest, LoadFault>;

/// The hash, by this algorithm, of all bytes that a source has left. They are hashed as they are read; at most 64 KiB are in
/// memory at once.
///
/// Fails with `TooLong` if more than `limit` bytes come, and with `Source` if the source fails during this call. The bytes read
/// before a fault are lost.
pub fn hash_from<R: Source>(alloc: Global, source: &mut R, alg: Alg, limit: u64) -> Hashed
    ensures hashed { IfOk result (IsHashOfAll (R.state source.old).remaining alg limit) }
    ensures more { IsErrOf result LoadFault.TooLong → IfSome (R.state source.old).remaining (λ left. limit < length left) }
    ensures drains { Drains limit (R.state source.old) (R.state source.new) result }
{
    let mut hasher = Hasher::new(alg);
    let mut piece = Vec::new(alloc);
    let mut size = FIRST_PIECE;
    let mut room = limit;
    loop {
        piece.resize(size, 0)?;
        let count = source.read(&mut piece)?;
        if count == 0 {
            return Ok(hasher.finish());
        }
        if count as u64 > room {
            return Err(LoadFault::TooLong);
        }
        hasher.update(&piece[..count]);
        room -= count as u64;
        size = if count == size { PIECE } else { size };
    }
}
