//! Laws: what the functions on events give is what the relations say.

ghost use Rattle.std.specs.Prelude.{List};
ghost use Rattle.pcr_banks.specs.declared.alg.Alg.{Alg};
ghost use Rattle.byte_fields.specs.Spelling.{IsBytes};
ghost use Rattle.boot_log.specs.Names.{LogEvent};
ghost use Rattle.measured_data.specs.declared.confirmed.Pcr.{Pcr};
ghost use Rattle.measured_data.specs.Confirming.{IsConfirmed, confirmed_part};
ghost use Rattle.measured_data.specs.Measuring.{IsFirstPart, IsMeasured, measured_part};

/// The part that is told of an event as measured, or as confirmed, is the first one that is: no part that comes before it is, and where none
/// is told, none is.
pub fn parts_are_the_first()
    ensures measured { (alg : Alg) (event : LogEvent) → IsBytes event.payload
        → IsFirstPart (IsMeasured alg event) (measured_part alg event) }
    ensures confirmed { (matched : List Pcr) (event : LogEvent) → IsBytes event.payload
        → IsFirstPart (IsConfirmed matched event) (confirmed_part matched event) }
{}
