//! What a value tells of measured data.

ghost use Rattle.std.specs.Prelude.{◌≡◌, ◌⊎◌, ℕ, List, ◌∷◌, ◌++◌, length};
ghost use Rattle.std.specs.List.{Contains};
ghost use Rattle.pcr_banks.specs.declared.alg.Alg.{Alg};
ghost use Rattle.pcr_banks.specs.Names.{extended_by_all, hash_of, reset_value};
ghost use Rattle.boot_log.specs.Names.{LogEvent, digests_for, firmware_value, no_action};
ghost use Rattle.event_data.specs.Names.{CommandData, IsCommand, IsVariable, VariableData, hashed_text};
ghost use Rattle.measured_data.specs.declared.measured.Part.{Part};
ghost use Rattle.measured_data.specs.declared.confirmed.Pcr.{Pcr};
ghost use Rattle.measured_data.specs.Confirming.{IsConfirmed};
ghost use Rattle.measured_data.specs.Measuring.{IsMeasured, grub_register, settings_register};
ghost use Rattle.binding_laws.specs.LogBinding.{LogsBreakHash};
ghost use Rattle.binding_laws.specs.MeasuredBinding.{Collide, Extensions, HasHashAfter, Matches, MeasuresAfter, WasHashed};

/// What a register's value tells of measured data. Whatever digests the machine extended the register by, and whatever was extended after
/// the log's (`later`, as by a measurement list): if they give the same value, then at the place of a measured event it extended by the
/// hash of what the log shows as measured, or the extends break the hash (`place`). Whatever bytes it hashed there are these bytes, or
/// they collide with them (`hashed`).
pub fn measured_data_was_hashed()
    ensures place { (alg : Alg) (register locality : ℕ) (events before : List LogEvent) (bytes : List ℕ) (digests later : List (List ℕ))
        → MeasuresAfter alg register events before bytes
        → extended_by_all alg (reset_value alg register locality) digests
        ≡ extended_by_all alg (firmware_value events alg register) later
        → HasHashAfter alg register locality events before bytes digests later }
    ensures hashed { (alg : Alg) (hashed bytes : List ℕ) → hash_of alg hashed ≡ hash_of alg bytes
        → (hashed ≡ bytes) ⊎ Collide alg hashed bytes }
{}

/// What a confirmed part tells: if the machine's registers have the values that the log gives them, in each place of `matched`, then in every
/// bank other than SHA-1 whose register of the event is among them, and there is one, the machine extended by the hash of this part of the
/// event's data, at the event's place, or the extends of this register break the hash.
pub fn confirmed_data_was_hashed()
    ensures { (matched : List Pcr) (events before after : List LogEvent) (event : LogEvent) (part : Part) (machine : Extensions)
        → events ≡ before ++ event ∷ after → IsConfirmed matched event part
        → ((place : Pcr) → Contains matched place → Matches events machine place)
        → WasHashed matched events before event part machine }
{}

/// Two logs that give a register the same value: where both have a measured event at the same place among those that are extended into it,
/// what was measured is the same in both; or the hash is broken. So no other data can be shown as measured there.
pub fn measured_data_is_the_same()
    ensures { (alg : Alg) (register : ℕ) (events others before prefix : List LogEvent) (bytes other : List ℕ)
        → firmware_value events alg register ≡ firmware_value others alg register
        → length (digests_for alg register before) ≡ length (digests_for alg register prefix)
        → MeasuresAfter alg register events before bytes → MeasuresAfter alg register others prefix other
        → (bytes ≡ other) ⊎ (Collide alg bytes other ⊎ LogsBreakHash alg register events others) }
{}

/// What it does not tell. An event stays measured whatever its type is said to be (`kind`); one of which the value of a variable is
/// measured, whatever the variable's GUID and name are said to be (`name`); and one of which the text of a command is measured, whatever its
/// kind is said to be (`command`): the command line of the kernel can be shown as that of a module. In register 1, data that is measured as
/// a whole can be shown as the value of any variable (`wrapped`). In other registers it cannot: a value is measured in register 1 alone
/// (`value_elsewhere`), and a command in register 8 alone (`command_elsewhere`). The other way round, a measured value or text can be shown
/// as all of the data of an event (`bare`).
pub fn value_tells_no_name()
    ensures kind { (alg : Alg) (event : LogEvent) (part : Part) (kind : ℕ) → (kind ≡ no_action → ⊥) → IsMeasured alg event part
        → IsMeasured alg (record event { kind = kind }) part }
    ensures name { (alg : Alg) (event : LogEvent) (measured : IsMeasured alg event Part.Value) (renamed : VariableData) (payload : List ℕ)
        → IsVariable payload renamed → renamed.value ≡ measured.bytes
        → IsMeasured alg (record event { payload = payload }) Part.Value }
    ensures command { (alg : Alg) (event : LogEvent) (measured : IsMeasured alg event Part.Command) (other : CommandData) (payload : List ℕ)
        → IsCommand payload other → hashed_text other ≡ measured.bytes
        → IsMeasured alg (record event { payload = payload }) Part.Command }
    ensures wrapped { (alg : Alg) (event : LogEvent) (variable : VariableData) (payload : List ℕ) → event.register ≡ settings_register
        → IsMeasured alg event Part.Whole → IsVariable payload variable → variable.value ≡ event.payload
        → IsMeasured alg (record event { payload = payload }) Part.Value }
    ensures bare { (alg : Alg) (event : LogEvent) (part : Part) (measured : IsMeasured alg event part)
        → IsMeasured alg (record event { payload = measured.bytes }) Part.Whole }
    ensures value_elsewhere { (alg : Alg) (event : LogEvent) → (event.register ≡ settings_register → ⊥)
        → IsMeasured alg event Part.Value → ⊥ }
    ensures command_elsewhere { (alg : Alg) (event : LogEvent) → (event.register ≡ grub_register → ⊥)
        → IsMeasured alg event Part.Command → ⊥ }
{}
