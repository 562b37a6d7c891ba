//! Laws: consequences of the definitions, each the contract of a function that does nothing.

ghost use Rattle.std.specs.Prelude.{ℕ, List, IfSome};
ghost use Rattle.pcr_banks.specs.Names.{alg_of, bytes_of};
ghost use Rattle.boot_verdict.specs.declared.checkpoint.Checkpoint.{Checkpoint};
ghost use Rattle.boot_verdict.specs.Names.{IsCheckpoint};
ghost use Rattle.growing_lists.specs.CheckpointData.{HaveValues, IsCounted, IsHash, IsPossible, LeavesRoom, SameData};
ghost use Rattle.growing_lists.specs.Sessions.{IsOfBoot};

use boot_verdict::Checkpoint;
use pcr_banks::laws::{digest_is_a_hash, registers_have_hashes};
use pcr_banks::{Banks, Digest};

/// A checkpoint whose data fit together is one that [`crate::read_checkpoint`] reads from its text; and so do those of a list, if it
/// [`crate::leaves_room`].
pub fn counted_checkpoint_is_possible(checkpoint: &Checkpoint)
    ensures possible { IsCounted checkpoint.now → IsPossible checkpoint.now }
    ensures counted { (list : List ℕ) → IsCheckpoint list checkpoint.now → LeavesRoom checkpoint.now → IsCounted checkpoint.now }
{
    banks_have_values(&checkpoint.before);
    banks_have_values(&checkpoint.after);
    aggregate_is_a_hash(&checkpoint.recorded);
    aggregate_is_a_hash(&checkpoint.told);
}

// A boot aggregate, if there is one, is as long as a hash of its algorithm.
fn aggregate_is_a_hash(recorded: &Option<Digest>)
    ensures { IfSome recorded.now (λ digest. IsHash (alg_of digest) (bytes_of digest)) }
{
    if let Some(digest) = recorded {
        digest_is_a_hash(digest);
    }
}

/// Each register of an active bank has a value, which is as long as a hash of the bank's algorithm.
pub(crate) fn banks_have_values(banks: &Banks)
    ensures { HaveValues banks.now }
{
    registers_have_hashes(banks);
}

/// Possible checkpoints with the same data are those of the same lists, and of the same boots. By [`crate::read_checkpoint`] all of one text
/// have the same data: so the text of a list's checkpoint tells on which list, and in which boot, a verification goes on.
pub fn same_data_is_of_the_same_lists()
    ensures lists { (first second : Checkpoint) → IsPossible first → IsPossible second → SameData first second
        → (list : List ℕ) → IsCheckpoint list first → IsCheckpoint list second }
    ensures boots { (first second : Checkpoint) → IsPossible first → IsPossible second → SameData first second
        → (log : List ℕ) → IsOfBoot log first → IsOfBoot log second }
{}
