//! Laws: consequences of the definitions, each the contract of a function that does nothing.

ghost use Rattle.std.specs.Prelude.{◌≡◌, ℕ, List, [], ◌∷◌, None, Some, true};
ghost use Rattle.byte_fields.specs.Spelling.{IsBytes};
ghost use Rattle.hex.specs.Hex.{IsBytes as AreBytes};
ghost use Rattle.pcr_banks.specs.declared.alg.Alg.{Alg};
ghost use Rattle.boot_log.specs.Names.{LogEvent};
ghost use Rattle.event_data.specs.Names.{VariableData, content_in};
ghost use Rattle.measured_data.specs.declared.confirmed.Pcr.{Pcr};
ghost use Rattle.measured_data.specs.Measuring.{settings_register};
ghost use Rattle.boot_answers.specs.declared.policies.ImaPolicy.TheVariants.{Asked, Possible};
ghost use Rattle.boot_answers.specs.Commands.{CommandSaid, told_text};
ghost use Rattle.boot_answers.specs.FirmwareVersion.{version_type};
ghost use Rattle.cells.specs.Values.{IsCount, IsOneLine, object_of};
ghost use Rattle.boot_texts.specs.AnswerCells.{command_cell, image_cell, policy_cell, text_member, unknown_command_cell, variable_cell, version_cell, word_cell};
ghost use Rattle.boot_texts.specs.Boots.{is_boot_variable};
ghost use Rattle.boot_texts.specs.Claims.{claim_cell};
ghost use Rattle.boot_texts.specs.declared.claims.Claim.{Claim};
ghost use Rattle.boot_texts.specs.declared.difference_lines.ComparedBoot.{ComparedBoot};
ghost use Rattle.boot_texts.specs.Differences.{alike_cell, apart_cell, event_cell};
ghost use Rattle.boot_texts.specs.EachBank.{TellText, TellVariable};
ghost use Rattle.boot_texts.specs.Telling.{is_told_variable};

use measured_data::parts_are_the_first;

/// The text that is told of an event is one that each bank tells which answers for the event's register, and there is such a bank.
pub fn each_bank_tells_the_text()
    ensures { (matched : List Pcr) (event : LogEvent) (text : CommandSaid) → IsBytes event.payload → told_text matched event ≡ Some text
        → TellText matched event text }
{
    parts_are_the_first();
}

/// The boot variable that is told of an event is one that each bank tells which answers for the register of settings.
pub fn each_bank_tells_the_variable()
    ensures { (matched : List Pcr) (event : LogEvent) → IsBytes event.payload → is_told_variable matched event ≡ true
        → (variable : VariableData) × (is_boot_variable variable ≡ true) × TellVariable matched settings_register event variable }
{}

/// Each line as JSON is one value: its text reads back as the value, and has no line feed. Its numbers are such as code holds (`IsCount`), and
/// an event's data is bytes.
pub fn each_line_is_one_value()
    ensures word { (name word : List ℕ) → IsOneLine (object_of (word_cell name word).json) }
    ensures version { (bytes : List ℕ) → AreBytes bytes → IsOneLine (object_of (version_cell (Some (content_in version_type bytes))).json) }
    ensures image { (matched : List Pcr) (number : ℕ) (event : LogEvent) → IsCount number → AreBytes event.payload
        → IsOneLine (object_of (image_cell matched number event).json) }
    ensures command { (register number : ℕ) (text : CommandSaid) → IsCount register → IsCount number
        → IsOneLine (object_of (command_cell register number text).json) }
    ensures text { (text : CommandSaid) → IsOneLine (object_of (text_member text ∷ [])) }
    ensures unknown_command { (register number : ℕ) → IsCount register → IsCount number
        → IsOneLine (object_of (unknown_command_cell register (Some number)).json) }
    ensures unanswered { (register : ℕ) → IsCount register → IsOneLine (object_of (unknown_command_cell register None).json) }
    ensures asked { (number : ℕ) → IsCount number → IsOneLine (object_of (policy_cell (Asked number)).json) }
    ensures possible { (number : ℕ) → IsCount number → IsOneLine (object_of (policy_cell (Possible number)).json) }
    ensures variable { (number : ℕ) (event : LogEvent) → IsCount number → AreBytes event.payload
        → IsOneLine (object_of (variable_cell number event).json) }
    ensures claim { (number : ℕ) (event : LogEvent) (claim : Claim) → IsCount number → IsCount event.register → AreBytes event.payload
        → IsOneLine (object_of (claim_cell number event claim).json) }
    ensures alike { (register : ℕ) (word : List ℕ) → IsCount register → IsOneLine (object_of (alike_cell register word).json) }
    ensures apart { (register : ℕ) (alg : Alg) (place : ℕ) → IsCount register → IsCount place
        → IsOneLine (object_of (apart_cell register alg place).json) }
    ensures event { (boot : ComparedBoot) (register : ℕ) (alg : Alg) (number : ℕ) (event : LogEvent) → IsCount register → IsCount number
        → AreBytes event.payload → IsOneLine (object_of (event_cell boot register alg number event).json) }
{}
