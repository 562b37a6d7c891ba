//! The writer of cells: to text, or to tokens of JSON.

ghost use Rattle.std.specs.Prelude.{◌≡◌, [], ◌∷◌, IfOk};
ghost use Rattle.std.specs.Str.{IsUtf8};
ghost use Rattle.json.specs.Token.{Token};
ghost use Rattle.json.specs.Token as tokens;
ghost use Rattle.cells.specs.Cells.{Cell, HasShown, ShowsItems, ShowsMembers, ShowsTokens, bare, nothing, printed};
ghost use Rattle.cells.specs.Cells as cells;
ghost use Rattle.cells.specs.declared.writer.Form.TheVariants as forms;
ghost use Rattle.cells.specs.declared.writer.Form.{Form};

use itoa::Buffer;
use json::Writer;
use std::alloc::{AllocError, Global};

/// What a call gives that writes: it fails only if memory runs out.
pub type Written = Result<(), AllocError>;

// The bytes that hold most lines of an event or of a result, so that none of them is moved as it grows.
const LINE_ROOM: usize = 1024;

/// In which form a result is shown.
#[derive(Clone, Copy, Debug, PartialEq, Eq)]
pub enum Form {
    /// As lines of text.
    Text,
    /// As JSON: one line, or a line for each entry or event.
    Json,
}

/// A writer of cells in one form.
#[derive(Drop)]
pub enum CellWriter {
    /// Lines of text.
    Text(Vec<u8>),
    /// Tokens of JSON.
    Json(Writer),
}

impl CellWriter {
    /// A writer that holds nothing yet, and has room for a line. Fails only if memory runs out.
    pub fn new(alloc: Global, form: Form) -> Result<CellWriter, AllocError>
        ensures { IfOk result (λ out. HasShown form out nothing) }
    {
        let room = Vec::with_capacity(alloc, LINE_ROOM)?;
        Ok(match form {
            Form::Text => CellWriter::Text(room),
            Form::Json => CellWriter::Json(Writer::new(room)),
        })
    }

    /// What was written; JSON as one line, in UTF-8. Fails only if memory runs out.
    pub fn into_bytes(self) -> Result<Vec<u8>, AllocError>
        ensures bytes { IfOk result (λ bytes. (form : Form) (shown : Cell Token) → HasShown form self shown → bytes.items ≡ printed form shown) }
        ensures utf8 { IfOk result (λ bytes. (shown : Cell Token) → HasShown forms.Json self shown → IsUtf8 bytes.items) }
    {
        match self {
            CellWriter::Text(text) => Ok(text),
            CellWriter::Json(writer) => {
                let mut line = writer.into_inner();
                line.push(b'\n')?;
                Ok(line)
            }
        }
    }

    /// Text that JSON lacks.
    pub fn text(&mut self, text: &str) -> Written
        ensures { ShowsMembers result self.old self.new (cells.text text.now) }
    {
        match self {
            CellWriter::Text(shown) => shown.extend_from_slice(text.as_bytes()),
            CellWriter::Json(_) => Ok(()),
        }
    }

    /// A number that JSON lacks, after these words.
    pub fn count(&mut self, before: &str, number: usize) -> Written
        ensures { ShowsMembers result self.old self.new (cells.count before.now number) }
    {
        match self {
            CellWriter::Text(shown) => {
                let mut digits = Buffer::new();
                shown.extend_from_slice(before.as_bytes())?;
                shown.extend_from_slice(digits.format(number).as_bytes())
            }
            CellWriter::Json(_) => Ok(()),
        }
    }

    /// A number: in text after these words, in JSON the member of this name.
    pub fn number(&mut self, before: &str, key: &str, number: u64) -> Written
        ensures { ShowsMembers result self.old self.new (cells.number before.now key.now number) }
    {
        match self {
            CellWriter::Text(shown) => {
                let mut digits = Buffer::new();
                shown.extend_from_slice(before.as_bytes())?;
                shown.extend_from_slice(digits.format(number).as_bytes())
            }
            CellWriter::Json(writer) => {
                writer.key(key)?;
                writer.u64(number)
            }
        }
    }

    /// A word: in text after these words, in JSON the member of this name.
    pub fn word(&mut self, before: &str, key: &str, word: &str) -> Written
        ensures { ShowsMembers result self.old self.new (cells.word before.now key.now word.now) }
    {
        match self {
            CellWriter::Text(shown) => {
                shown.extend_from_slice(before.as_bytes())?;
                shown.extend_from_slice(word.as_bytes())
            }
            CellWriter::Json(writer) => {
                writer.key(key)?;
                writer.string(word)
            }
        }
    }

    /// Bytes in hexadecimal: in text after these words, in JSON the member of this name.
    pub fn hex(&mut self, alloc: Global, before: &str, key: &str, bytes: &[u8]) -> Written
        ensures { ShowsMembers result self.old self.new (cells.hex before.now key.now bytes.now) }
    {
        let digits = hex::encode(alloc, bytes)?;
        self.word(before, key, &digits)
    }

    /// A member with a number, which text lacks.
    pub fn number_member(&mut self, key: &str, number: u64) -> Written
        ensures { ShowsMembers result self.old self.new (cells.number_member key.now number) }
    {
        match self {
            CellWriter::Text(_) => Ok(()),
            CellWriter::Json(writer) => {
                writer.key(key)?;
                writer.u64(number)
            }
        }
    }

    /// A member with a string, which text lacks.
    pub fn word_member(&mut self, key: &str, word: &str) -> Written
        ensures { ShowsMembers result self.old self.new (cells.word_member key.now word.now) }
    {
        match self {
            CellWriter::Text(_) => Ok(()),
            CellWriter::Json(writer) => {
                writer.key(key)?;
                writer.string(word)
            }
        }
    }

    /// A member with bytes in hexadecimal, which text lacks.
    pub fn hex_member(&mut self, alloc: Global, key: &str, bytes: &[u8]) -> Written
        ensures { ShowsMembers result self.old self.new (cells.hex_member key.now bytes.now) }
    {
        let digits = hex::encode(alloc, bytes)?;
        self.word_member(key, &digits)
    }

    /// A member with a truth value, which text lacks.
    pub fn flag_member(&mut self, key: &str, flag: bool) -> Written
        ensures { ShowsMembers result self.old self.new (cells.flag_member key.now flag) }
    {
        match self {
            CellWriter::Text(_) => Ok(()),
            CellWriter::Json(writer) => {
                writer.key(key)?;
                writer.boolean(flag)
            }
        }
    }

    /// A number in an array: in text between these words.
    pub fn item_number(&mut self, before: &str, number: u64, after: &str) -> Written
        ensures { ShowsItems result self.old self.new (cells.item_number before.now number after.now) }
    {
        match self {
            CellWriter::Text(shown) => {
                let mut digits = Buffer::new();
                shown.extend_from_slice(before.as_bytes())?;
                shown.extend_from_slice(digits.format(number).as_bytes())?;
                shown.extend_from_slice(after.as_bytes())
            }
            CellWriter::Json(writer) => writer.u64(number),
        }
    }

    /// The start of an object, which text lacks.
    pub fn begin(&mut self) -> Written
        ensures { ShowsTokens result self.old self.new (bare (tokens.begin_object ∷ [])) }
    {
        match self {
            CellWriter::Text(_) => Ok(()),
            CellWriter::Json(writer) => writer.begin_object(),
        }
    }

    /// The start of an object under this key, which text lacks.
    pub fn object(&mut self, key: &str) -> Written
        ensures { ShowsTokens result self.old self.new (bare (tokens.key key.now ∷ tokens.begin_object ∷ [])) }
    {
        match self {
            CellWriter::Text(_) => Ok(()),
            CellWriter::Json(writer) => {
                writer.key(key)?;
                writer.begin_object()
            }
        }
    }

    /// The end of an object.
    pub fn end(&mut self) -> Written
        ensures { ShowsTokens result self.old self.new (bare (tokens.end_object ∷ [])) }
    {
        match self {
            CellWriter::Text(_) => Ok(()),
            CellWriter::Json(writer) => writer.end_object(),
        }
    }

    /// The start of an array under this key, which text lacks.
    pub fn list(&mut self, key: &str) -> Written
        ensures { ShowsTokens result self.old self.new (bare (tokens.key key.now ∷ tokens.begin_array ∷ [])) }
    {
        match self {
            CellWriter::Text(_) => Ok(()),
            CellWriter::Json(writer) => {
                writer.key(key)?;
                writer.begin_array()
            }
        }
    }

    /// The end of an array.
    pub fn end_list(&mut self) -> Written
        ensures { ShowsTokens result self.old self.new (bare (tokens.end_array ∷ [])) }
    {
        match self {
            CellWriter::Text(_) => Ok(()),
            CellWriter::Json(writer) => writer.end_array(),
        }
    }
}
