//! The table of errors by kind.

ghost use Rattle.std.specs.Prelude.{◌≡◌, None, option_map};
ghost use Rattle.error_texts.specs.Sentences.{argument_sentence, memory_sentence, row, said, sentence_of, without_number};

use crate::keys::key_sentence;
use crate::logs::{form_sentence, list_sentence, log_sentence, replay_sentence, text_sentence};
use crate::measuring::{book_sentence, gather_sentence};
use crate::quotes::{quote_sentence, signature_sentence};
use crate::values::{checkpoint_sentence, expected_sentence, known_sentence};
use agent_inputs::FaultKind;

/// What is wrong, and what to do.
#[derive(Clone, Copy)]
pub struct Sentence {
    /// What is wrong, in words that no period ends. Where the text begins with a place, such as an entry, these words say what is wrong there.
    pub wrong: &'static str,
    /// What to do: one sentence or more.
    pub action: &'static str,
}

/// The sentence of an error of this kind with this number, which is 0 where the kind has no numbers; nothing for a number that the kind
/// does not have, and for a kind whose errors name a file.
pub fn sentence_of(kind: FaultKind, number: u32) -> Option<Sentence>
    ensures { option_map said result ≡ sentence_of kind number }
{
    match kind {
        FaultKind::Usage => without_number(number, argument_sentence()),
        FaultKind::Memory => without_number(number, memory_sentence()),
        FaultKind::Log => log_sentence(number),
        FaultKind::List => list_sentence(number),
        FaultKind::Replay => replay_sentence(number),
        FaultKind::ListText => text_sentence(number),
        FaultKind::LogForm => form_sentence(number),
        FaultKind::Expect => expected_sentence(number),
        FaultKind::Known => known_sentence(number),
        FaultKind::Checkpoint => checkpoint_sentence(number),
        FaultKind::Quote => quote_sentence(number),
        FaultKind::Signature => signature_sentence(number),
        FaultKind::Key => key_sentence(number),
        FaultKind::Book | FaultKind::Outcome => book_sentence(number),
        FaultKind::Gather => gather_sentence(number),
        FaultKind::NotHex
        | FaultKind::TooLong
        | FaultKind::Read
        | FaultKind::Write
        | FaultKind::NotUtf8 => None,
    }
}

/// A row of the table.
pub(crate) fn row(wrong: &'static str, action: &'static str) -> Option<Sentence>
    ensures { option_map said result ≡ row wrong.now action.now }
{
    Some(Sentence { wrong, action })
}

// The sentence of a kind that has no numbers.
fn without_number(number: u32, sentence: Option<Sentence>) -> Option<Sentence>
    ensures { option_map said result ≡ without_number number (option_map said sentence) }
{
    if number == 0 { sentence } else { None }
}

// What is wrong with an argument.
fn argument_sentence() -> Option<Sentence>
    ensures { option_map said result ≡ argument_sentence }
{
    row(
        "An argument is wrong",
        "Write PCRs as in sha256:0-10. Require at least PCR 10; with a quote, require PCRs 0 to 10, and not only in the SHA-1 bank. A nonce has at least 16 bytes. Known files need required PCRs.",
    )
}

// What is wrong if there is too little memory.
fn memory_sentence() -> Option<Sentence>
    ensures { option_map said result ≡ memory_sentence }
{
    row("Memory ran out", "Try again with more memory.")
}
