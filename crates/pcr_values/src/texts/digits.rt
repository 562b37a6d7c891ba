//! Digests in hexadecimal.

ghost use Rattle.std.specs.Prelude.{◌≡◌};
ghost use Rattle.hex.specs.Hex.{encode_lower};
ghost use Rattle.pcr_banks.specs.Names.{bytes_of};

use pcr_banks::{Digest, MOST_DIGITS};

/// The digest in lower case hexadecimal, written into `room`.
pub fn digits_of<'a>(value: &Digest, room: &'a mut [u8; MOST_DIGITS]) -> &'a [u8]
    ensures { result.now ≡ encode_lower (bytes_of value.now) }
{
    let count = value.hex_into(room);
    &room[..count]
}
