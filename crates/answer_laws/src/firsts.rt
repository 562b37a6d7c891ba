//! What a register's value tells of measured data with nothing unmeasured before it.

ghost use Rattle.std.specs.Prelude.{◌≡◌, ◌⊎◌, ℕ, List, ◌++◌};
ghost use Rattle.std.specs.List.{AllByRecursion};
ghost use Rattle.pcr_banks.specs.declared.alg.Alg.{Alg};
ghost use Rattle.boot_log.specs.Names.{LogEvent};
ghost use Rattle.boot_answers.specs.Extending.{extended_events};
ghost use Rattle.answer_laws.specs.Hashed.{HasHashed, HashIsBroken, IsWhole, StartAlike, data_of};

/// Where the first events of a register are all measured whole, and the machine's value of the register is the log's, their data is what
/// the machine hashed first for the register, in this order, as far as both go; or the hash is broken. What was extended after that by
/// digests of no data that is known, as root may, changes nothing.
pub fn measured_data_was_hashed_first()
    ensures { (alg : Alg) (register locality : ℕ) (events shown rest : List LogEvent) (hashed later : List (List ℕ))
        → extended_events register events ≡ shown ++ rest → AllByRecursion (IsWhole alg) shown
        → HasHashed alg register locality hashed later events
        → StartAlike hashed (data_of shown) ⊎ HashIsBroken alg register locality hashed later events }
{}
