//! The digest that a line says.

ghost use Rattle.std.specs.Prelude.{◌≡◌, ◌↔◌, slice_get, Some};
ghost use Rattle.std.specs.List.{filter_map};
ghost use Rattle.pcr_banks.specs.Names.{all_algs};
ghost use Rattle.pcr_banks.specs.declared.digest.Digest.{Digest};
ghost use Rattle.known_files.specs.DigestLines.{IsDigestLine, begins_with_mark, digest_by, digest_on, without_escape};

use pcr_banks::{Alg, Digest};

/// The digest that this line says, without its line feed, as `sha1sum`, `sha256sum`, `sha384sum` and `sha512sum` print it. The name is
/// not looked at.
pub fn digest_on(line: &[u8]) -> Option<Digest>
    ensures value { result ≡ digest_on line.now }
    ensures says { (digest : Digest) → (result ≡ Some digest) ↔ IsDigestLine line.now digest }
{
    first_digest(without_escape(line))
}

// The line without a backslash at its start.
fn without_escape(line: &[u8]) -> &[u8]
    ensures { result.now ≡ without_escape line.now }
{
    match line {
        [b'\\', rest @ ..] => rest,
        _ => line,
    }
}

// The digest at the start of a line without its escape, by the first algorithm that fits it.
fn first_digest(line: &[u8]) -> Option<Digest>
    ensures { result ≡ slice_get (filter_map (λ alg. digest_by alg line.now) all_algs) 0 }
{
    for alg in &Alg::ALL {
        let digest = digest_by(*alg, line);
        if digest.is_some() {
            return digest;
        }
    }
    None
}

// The digest by this algorithm at the start of the bytes, with a mark after it.
#[tactic(auto, unfolding(crate::specs::DigestLines::digest_by))]
fn digest_by(alg: Alg, bytes: &[u8]) -> Option<Digest>
    ensures { result ≡ digest_by alg bytes.now }
{
    let (digits, after) = bytes.split_at_checked(2 * alg.size())?;
    if begins_with_mark(after) {
        Digest::from_hex(alg, digits)
    } else {
        None
    }
}

// Whether the bytes begin with what stands between a digest and a name.
fn begins_with_mark(bytes: &[u8]) -> bool
    ensures { result ≡ begins_with_mark bytes.now }
{
    match bytes {
        [b' ', second, ..] => *second == b' ' || *second == b'*',
        _ => false,
    }
}
