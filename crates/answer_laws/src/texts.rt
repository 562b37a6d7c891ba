//! What a told text tells.

ghost use Rattle.std.specs.Prelude.{◌⊎◌, ℕ, List};
ghost use Rattle.pcr_banks.specs.declared.alg.Alg.{Alg};
ghost use Rattle.boot_log.specs.Names.{LogEvent};
ghost use Rattle.measured_data.specs.declared.confirmed.Pcr.{Pcr};
ghost use Rattle.measured_data.specs.Confirming.{IsAnswering};
ghost use Rattle.boot_answers.specs.Commands.{CommandSaid};
ghost use Rattle.answer_laws.specs.HashedTexts.{ExtendsBreak, HasExtended, HasHashOf, TellsText};

use measured_data::parts_are_the_first;

/// A text that is told of an event was hashed: in each bank that answers for the event's register the machine extended the register by the
/// text's hash, if its value is the log's; or the hash is broken. Such a text is in each line `command` with a number, and in the event that
/// `ima_policy` names. Who extended the register, and what the text was for, is claimed.
pub fn text_was_hashed()
    ensures { (matched : List Pcr) (alg : Alg) (register locality : ℕ) (events : List LogEvent) (text : CommandSaid) (digests : List (List ℕ))
        → TellsText matched register events text → IsAnswering matched alg register → HasExtended alg register locality digests events
        → HasHashOf alg text digests ⊎ ExtendsBreak alg register locality digests events }
{
    parts_are_the_first();
}
