//! What the answer on the firmware's version tells.

ghost use Rattle.std.specs.Prelude.{◌≡◌, ◌⊎◌, ℕ, List, ◌∷◌};
ghost use Rattle.pcr_banks.specs.declared.alg.Alg.{Alg};
ghost use Rattle.boot_log.specs.Names.{LogEvent};
ghost use Rattle.event_data.specs.Names.{Content, Says};
ghost use Rattle.measured_data.specs.declared.confirmed.Pcr.{Pcr};
ghost use Rattle.measured_data.specs.Confirming.{IsAnswering};
ghost use Rattle.boot_answers.specs.FirmwareVersion.{IsFirmwareVersion, TellsVersion, firmware_register, version_type};
ghost use Rattle.answer_laws.specs.Hashed.{HasHashed, HashIsBroken};

/// Where a log tells a version in a bank, the machine's register 0 of this bank is the log's, and the firmware hashed anything for the
/// register, then what it hashed first says this version; or the hash is broken. The answer is so told in each bank that answers.
pub fn version_was_hashed()
    ensures bank { (alg : Alg) (locality : ℕ) (events : List LogEvent) (content : Content) (first : List ℕ) (hashed later : List (List ℕ))
        → TellsVersion alg events content → HasHashed alg firmware_register locality (first ∷ hashed) later events
        → Says version_type first content ⊎ HashIsBroken alg firmware_register locality (first ∷ hashed) later events }
    ensures answer { (matched : List Pcr) (alg : Alg) (locality : ℕ) (events : List LogEvent) (content : Content) (first : List ℕ)
        (hashed later : List (List ℕ)) → IsFirmwareVersion matched events content → IsAnswering matched alg firmware_register
        → HasHashed alg firmware_register locality (first ∷ hashed) later events
        → Says version_type first content ⊎ HashIsBroken alg firmware_register locality (first ∷ hashed) later events }
{}
