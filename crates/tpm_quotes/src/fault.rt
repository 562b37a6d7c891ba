ghost use Rattle.std.specs.Prelude.{◌≡◌};

use thiserror::Error;

/// Why bytes are not a quote that is taken: the first fault from left to right.
#[derive(Clone, Copy, Debug, PartialEq, Eq, Error)]
pub enum QuoteFault {
    /// 1: the message is cut short.
    #[error("the message is cut short")]
    Truncated,
    /// 2: it does not begin as a quote does that a TPM made.
    #[error("the message is not a quote that a TPM made")]
    NotQuote,
    /// 3: the flag of its clock is neither 0 nor 1.
    #[error("the flag of the quote's clock is neither 0 nor 1")]
    BadClock,
    /// 4: it selects registers of a bank that is not known.
    #[error("the quote selects registers of a bank that is not known")]
    UnknownBank,
    /// 5: it selects registers of a bank twice.
    #[error("the quote selects registers of a bank twice")]
    BankTwice,
    /// 6: it has more selections than there are known banks.
    #[error("the quote has more selections than there are known banks")]
    ManyBanks,
    /// 7: it selects a register of 24 or more.
    #[error("the quote selects a register of 24 or more")]
    BadRegister,
    /// 8: it selects no register.
    #[error("the quote selects no register")]
    NothingSelected,
    /// 9: its digest is not by SHA-256, SHA-384 or SHA-512.
    #[error("the quote's digest is not by SHA-256, SHA-384 or SHA-512")]
    DigestSize,
    /// 10: bytes follow the quote.
    #[error("the message goes on after the quote")]
    Trailing,
}

impl QuoteFault {
    ghost use Rattle.tpm_quotes.specs.Faults.{quote_fault_number};

    /// The fault's number, 1 to 10.
    pub fn number(self) -> u32
        ensures { result ≡ quote_fault_number self }
    {
        match self {
            QuoteFault::Truncated => 1,
            QuoteFault::NotQuote => 2,
            QuoteFault::BadClock => 3,
            QuoteFault::UnknownBank => 4,
            QuoteFault::BankTwice => 5,
            QuoteFault::ManyBanks => 6,
            QuoteFault::BadRegister => 7,
            QuoteFault::NothingSelected => 8,
            QuoteFault::DigestSize => 9,
            QuoteFault::Trailing => 10,
        }
    }
}
