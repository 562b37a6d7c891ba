//! Laws of what events and variables' values say.

ghost use Rattle.std.specs.Prelude.{◌≡◌, ℕ, ◌*◌, List, length};
ghost use Rattle.byte_fields.specs.Spelling.{IsBytes};
ghost use Rattle.event_data.specs.EventForms.{Content, Says};
ghost use Rattle.event_data.specs.Forms.{VariableData};
ghost use Rattle.event_data.specs.HandoffReading.{tables_of};
ghost use Rattle.event_data.specs.Handoffs.{AreTables, HandoffData};
ghost use Rattle.event_data.specs.ValueForms.{AreSignatures, IsSignatureList, ListData};
ghost use Rattle.event_data.specs.ValueReading.{signatures_of};
ghost use Rattle.event_data.specs.Values.{SaysValue, ValueSays};

/// The data of an event of one type says one thing.
pub fn says_one_thing()
    ensures { (kind : ℕ) (bytes : List ℕ) (content other : Content) → Says kind bytes content → Says kind bytes other → content ≡ other }
{}

/// The value of a variable says one thing, in events of one type.
pub fn value_says_one_thing()
    ensures { (kind : ℕ) (variable : VariableData) (says other : ValueSays) → IsBytes variable.value → SaysValue kind variable says
        → SaysValue kind variable other → says ≡ other }
{}

/// The signatures that a list lends are its bytes' signatures, one after another, and all of them.
pub fn list_is_its_signatures()
    ensures { (bytes : List ℕ) (list : ListData) → IsBytes bytes → IsSignatureList bytes list
        → AreSignatures list.signature_size list.signatures (signatures_of list) }
{}

/// The tables that firmware hands over are what its pointers point to, one after another, and all of them.
pub fn handoff_is_its_tables()
    ensures { (handoff : HandoffData) (count : ℕ) → IsBytes handoff.pointers → length handoff.pointers ≡ 24 * count
        → AreTables handoff.pointers (tables_of handoff) × (length (tables_of handoff) ≡ count) }
{}
