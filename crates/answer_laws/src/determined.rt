//! There is one answer.

ghost use Rattle.std.specs.Prelude.{◌≡◌, List, Option};
ghost use Rattle.boot_log.specs.Names.{LogEvent};
ghost use Rattle.event_data.specs.Names.{Content};
ghost use Rattle.measured_data.specs.declared.confirmed.Pcr.{Pcr};
ghost use Rattle.boot_answers.specs.declared.secure_boot_state.SecureBoot.{SecureBoot};
ghost use Rattle.boot_answers.specs.FirmwareVersion.{IsFirmwareVersion, IsOfVersion};
ghost use Rattle.boot_answers.specs.SecureBoot.{IsSecureBoot};

/// Registers that match and a log have one answer on Secure Boot, and one on the firmware's version.
pub fn answers_are_determined()
    ensures secure_boot { (matched : List Pcr) (events : List LogEvent) (answer other : SecureBoot) → IsSecureBoot matched events answer
        → IsSecureBoot matched events other → answer ≡ other }
    ensures version { (matched : List Pcr) (events : List LogEvent) (answer other : Option Content)
        → IsOfVersion (IsFirmwareVersion matched events) answer → IsOfVersion (IsFirmwareVersion matched events) other → answer ≡ other }
{}
