//! The lines of a text.

ghost use Rattle.std.specs.Prelude.{◌≡◌, ◌<◌, ◌∷◌, [], length};
ghost use Rattle.known_files.specs.Listing.{lines_of};

use pcr_values::split_once;

/// The first line, without its line feed, and the text after it.
pub(crate) fn line_at(text: &[u8]) -> (&[u8], &[u8])
    requires { text.now ≡ [] → ⊥ }
    ensures line { lines_of text.now ≡ result.0.now ∷ lines_of result.1.now }
    ensures shorter { length result.1.now < length text.now }
{
    match split_once(b'\n', text) {
        Some(parts) => parts,
        None => (text, &[]),
    }
}
