//! Laws: consequences of the definitions, each the contract of a function that does nothing, or only reads.

ghost use Rattle.std.specs.Prelude.{◌≡◌, ℕ, true, List, chars, codes, length, Option, None, IfSome};
ghost use Rattle.std.specs.List.{AllByRecursion, list_all};
ghost use Rattle.std.specs.Str.{IsUtf8};
ghost use Rattle.hex.specs.Hex.{IsBytes};
ghost use Rattle.boot_log.specs.declared.header.DeclaredAlgorithm.{DeclaredAlgorithm};
ghost use Rattle.boot_log.specs.Names.{IsRow, IsSpecification, LogEvent, SpecificationData};
ghost use Rattle.event_data.specs.Names.{content_in};
ghost use Rattle.measured_data.specs.declared.confirmed.Pcr.{Pcr};
ghost use Rattle.json.specs.Find.{get};
ghost use Rattle.cells.specs.Values.{IsCount, IsOneLine};
ghost use Rattle.event_lines.specs.BriefJson.{brief_content_json};
ghost use Rattle.event_lines.specs.ContentJson.{content_json};
ghost use Rattle.event_lines.specs.EventJson.{event_json, header_json};
ghost use Rattle.event_lines.specs.SteeringTexts.{is_plain, unsteered};

/// The line of each event, that of the header, and what the data of an event says, also briefly, are each one line: its text reads back as the
/// value, and has no line feed. Numbers are such as code holds (`IsCount`), and an event's data is bytes.
pub fn each_value_is_one_line()
    ensures event { (matched : Option (List Pcr)) (number : ℕ) (event : LogEvent)
        → IsCount number → IsCount event.register → IsCount event.kind → IsBytes event.payload
        → IsOneLine (event_json matched number event) }
    ensures content { (kind : ℕ) (bytes : List ℕ) → IsBytes bytes → IsOneLine (content_json kind (content_in kind bytes)) }
    ensures brief { (kind : ℕ) (bytes : List ℕ) → IsBytes bytes → IsCount (length bytes)
        → IsOneLine (brief_content_json kind (content_in kind bytes)) }
    ensures header { (said : Option SpecificationData) (rows : List DeclaredAlgorithm)
        → IfSome said IsSpecification → AllByRecursion IsRow rows → IsOneLine (header_json said rows) }
{}

/// No line of an event, and not that of the header, has a member `fault`: only faults have one (`rendering::laws`).
pub fn no_line_has_a_fault()
    ensures event { (matched : Option (List Pcr)) (number : ℕ) (event : LogEvent)
        → get (codes "fault") (event_json matched number event) ≡ None }
    ensures header { (said : Option SpecificationData) (rows : List DeclaredAlgorithm) → get (codes "fault") (header_json said rows) ≡ None }
{}

/// In what the data of an explained event says no character steers what shows it. A text in which none does stays as it is.
pub fn no_character_steers()
    ensures plain { (text : List ℕ) → IsUtf8 text → list_all is_plain (chars (unsteered text)) ≡ true }
    ensures stays { (text : List ℕ) → IsUtf8 text → list_all is_plain (chars text) ≡ true → unsteered text ≡ text }
{}
