//! What is saved of a verification, so that another goes on from it.

ghost use Rattle.std.specs.Prelude.{◌≡◌, ◌↔◌, IfSome, IsTrue, Some};
ghost use Rattle.tpm_quotes.specs.Spelling.{quote_of};
ghost use Rattle.growing_lists.specs.CheckpointData.{IsBoot, boot_of};

use boot_verdict::Checkpoint;
use tpm_quotes::Quote;

/// A boot of a machine, by the counts of its TPM, which every quote states: while the boot lasts, they stay as they are.
#[derive(Clone, Copy, PartialEq, Eq)]
pub struct Boot {
    /// How often the TPM was reset since it was last cleared.
    pub resets: u32,
    /// How often it was restarted or resumed since the last reset.
    pub restarts: u32,
}

/// Where a verification stopped, and in which boot.
#[derive(Clone, Copy)]
pub struct SavedState {
    /// What is known of the list.
    pub checkpoint: Checkpoint,
    /// The boot, if a quote confirmed what is known.
    pub boot: Option<Boot>,
}

impl Boot {
    /// The boot in which the TPM made this quote.
    pub fn of(quote: &Quote<'_>) -> Self
        ensures { result ≡ boot_of (quote_of quote.now) }
    {
        Boot {
            resets: quote.clock.resets,
            restarts: quote.clock.restarts,
        }
    }
}

impl SavedState {
    /// Whether a quote confirmed it, and the boot was this one.
    pub fn is_of(&self, boot: Boot) -> bool
        ensures { IsTrue result ↔ (self.now.boot ≡ Some boot) }
    {
        match self.boot {
            None => false,
            Some(own) => own.resets == boot.resets && own.restarts == boot.restarts,
        }
    }
}

/// The counts fit 32 bits.
pub(crate) fn boots_have_counts(boot: Option<Boot>)
    ensures { IfSome boot IsBoot }
{
    if let Some(boot) = boot {
        let _resets = boot.resets;
        let _restarts = boot.restarts;
    }
}
