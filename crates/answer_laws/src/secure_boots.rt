//! What the answer on Secure Boot tells.

ghost use Rattle.std.specs.Prelude.{◌≡◌, ◌⊎◌, ℕ, List};
ghost use Rattle.pcr_banks.specs.declared.alg.Alg.{Alg};
ghost use Rattle.boot_log.specs.Names.{LogEvent, firmware_value};
ghost use Rattle.measured_data.specs.declared.confirmed.Pcr.{Pcr};
ghost use Rattle.measured_data.specs.Confirming.{IsAnswering};
ghost use Rattle.boot_answers.specs.SecureBoot.{IsTold, TellsSecureBoot, policy_register};
ghost use Rattle.answer_laws.specs.Hashed.{HasHashed, HashIsBroken};
ghost use Rattle.answer_laws.specs.HashedAnswers.{HashedDecision, HashedFirst, LogsBreak};

/// A log tells one value of SecureBoot, whichever registers match: it is never both on and off.
pub fn log_tells_one_value()
    ensures { (matched others : List Pcr) (events : List LogEvent) (value other : ℕ) → IsTold matched events value
        → IsTold others events other → value ≡ other }
{}

/// Where the firmware hashed SecureBoot or a separator for register 7 of a bank, whatever digests were extended after that, and a log that
/// gives the register's value tells a value of SecureBoot in this bank: then the firmware hashed SecureBoot with this value, before any other
/// SecureBoot and before any separator; or the hash is broken. So root, which can only append to what the firmware hashed, cannot have a log
/// tell anything else. The answer is so told in each bank that answers: if the firmware extended one of them, the answer is true, whatever
/// root extended the others by.
pub fn secure_boot_was_hashed()
    ensures bank { (alg : Alg) (locality value : ℕ) (events : List LogEvent) (hashed later : List (List ℕ)) → HashedDecision hashed
        → TellsSecureBoot alg events value → HasHashed alg policy_register locality hashed later events
        → HashedFirst hashed value ⊎ HashIsBroken alg policy_register locality hashed later events }
    ensures answer { (matched : List Pcr) (alg : Alg) (locality value : ℕ) (events : List LogEvent) (hashed later : List (List ℕ))
        → IsTold matched events value → IsAnswering matched alg policy_register → HashedDecision hashed
        → HasHashed alg policy_register locality hashed later events
        → HashedFirst hashed value ⊎ HashIsBroken alg policy_register locality hashed later events }
{}

/// Two logs that give register 7 of a bank one value do not tell two of SecureBoot there, or the hash is broken.
pub fn logs_tell_one_value()
    ensures { (alg : Alg) (events others : List LogEvent) (value other : ℕ)
        → firmware_value events alg policy_register ≡ firmware_value others alg policy_register
        → TellsSecureBoot alg events value → TellsSecureBoot alg others other
        → (value ≡ other) ⊎ LogsBreak alg policy_register events others }
{}
