//! Data of a few fields: a GUID, the locality of the startup command, what a host says, a tagged event, a blob of firmware that was measured,
//! and an image that the firmware loaded.

ghost use Rattle.std.specs.Prelude.{◌≡◌, length, ℕ, List, Some, IfSome, option_and_then, option_map};
ghost use Rattle.byte_fields.specs.Reading.{Reads};
ghost use Rattle.event_data.specs.Blobs.{IsGuid, IsLocality, IsTechnology, reserved, TaggedData, IsTagged, tagged_of, BlobData, IsPlainBlob, IsDescribedBlob, blob_of};
ghost use Rattle.event_data.specs.Results.{before_in, guid_in, locality_in, one_byte, technology_in};
ghost use Rattle.event_data.specs.BlobReading.{tagged, tagged_in, place, plain_blob, described_blob, plain_blob_in, described_blob_in};
ghost use Rattle.event_data.specs.Forms.{ImageData, IsFollowed, IsImage, image_of};
ghost use Rattle.event_data.specs.Reading.{image, image_in, image_then};

use crate::content::Mismatch;
use crate::text::{after_prefix, before_suffix};
use byte_fields::{part_at, sized_at, u8_at, u32_at, u64_at};

/// A GUID, 16 bytes (UEFI 2.10, appendix A).
#[derive(Clone, Copy)]
pub struct Guid<'a> {
    /// The bytes, as they stand in the data.
    pub bytes: &'a [u8],
    ghost size: { length bytes.now ≡ 16 },
}

/// The GUID that the bytes are, 16 of them; `None` where they are none.
pub fn read_guid(bytes: &[u8]) -> Option<Guid<'_>>
    ensures value { option_map (λ guid. guid.bytes.now) result ≡ guid_in bytes.now }
    ensures found { IfSome result (λ guid. IsGuid bytes.now guid.bytes.now) }
    ensures only { (value : List ℕ) → IsGuid bytes.now value → option_map (λ guid. guid.bytes.now) result ≡ Some value }
{
    if bytes.len() != 16 {
        return None;
    }
    Some(Guid { bytes })
}

/// The locality that the bytes tell, from which the TPM was started (PC Client Platform Firmware Profile,
/// `TCG_EfiStartupLocalityEvent`); `None` where they tell none.
pub fn read_locality(bytes: &[u8]) -> Option<u8>
    ensures value { result ≡ locality_in bytes.now }
    ensures found { IfSome result (IsLocality bytes.now) }
    ensures only { (value : ℕ) → IsLocality bytes.now value → result ≡ Some value }
{
    match after_prefix(b"StartupLocality\0", bytes) {
        Some([locality]) => Some(*locality),
        _ => None,
    }
}

// The byte before reserved bytes.
fn before_reserved(bytes: &[u8]) -> Option<u8>
    ensures { result ≡ option_and_then one_byte (before_in reserved bytes.now) }
{
    match before_suffix(b"\0\0\0\0\0\0\0\0\0\0\0\0\0\0\0", bytes) {
        Some([technology]) => Some(*technology),
        _ => None,
    }
}

/// How a host of Google keeps its guests apart, as the bytes tell (go-eventlog, `ParseGCENonHostInfo`): 0 for nothing, 1 for AMD SEV, 2 for
/// AMD SEV-ES, 3 for Intel TDX, 4 for AMD SEV-SNP; `None` where they tell none.
pub fn read_technology(bytes: &[u8]) -> Option<u8>
    ensures value { result ≡ technology_in bytes.now }
    ensures found { IfSome result (IsTechnology bytes.now) }
    ensures only { (value : ℕ) → IsTechnology bytes.now value → result ≡ Some value }
{
    match after_prefix(b"GCE NonHostInfo\0", bytes) {
        Some(rest) => before_reserved(rest),
        None => None,
    }
}

/// A tagged event (PC Client Platform Firmware Profile, `TCG_PCClientTaggedEvent`).
#[derive(Clone, Copy)]
pub struct Tagged<'a> {
    /// The tag: what kind of data it is.
    pub id: u32,
    /// The data.
    pub payload: &'a [u8],
}

// Reads the tagged event at the start of the bytes. Returns it and the remaining bytes.
#[tactic(auto, unfolding(crate::specs::BlobReading::tagged))]
fn tagged_at(bytes: &[u8]) -> Result<(Tagged<'_>, &[u8]), Mismatch>
    ensures { Reads (λ x. (tagged_of x.0, x.1.now)) result (tagged.at bytes.now) }
{
    let (id, rest) = u32_at(Mismatch::Form, bytes)?;
    let (payload, rest) = sized_at(Mismatch::Form, rest)?;
    Ok((Tagged { id, payload }, rest))
}

/// The tagged event that the bytes are; `None` where they are none.
pub fn read_tagged(bytes: &[u8]) -> Option<Tagged<'_>>
    ensures value { option_map tagged_of result ≡ tagged_in bytes.now }
    ensures found { IfSome result (λ found. IsTagged bytes.now (tagged_of found)) }
    ensures only { (value : TaggedData) → IsTagged bytes.now value → option_map tagged_of result ≡ Some value }
{
    match tagged_at(bytes) {
        Ok((tagged, rest)) if rest.is_empty() => Some(tagged),
        _ => None,
    }
}

/// A blob of firmware that was measured (PC Client Platform Firmware Profile, `UEFI_PLATFORM_FIRMWARE_BLOB` and
/// `UEFI_PLATFORM_FIRMWARE_BLOB2`).
#[derive(Clone, Copy)]
pub struct Blob<'a> {
    /// What the firmware calls the blob: at most 255 bytes, without the byte of their number. `None` in the form that has no such part.
    pub description: Option<&'a [u8]>,
    /// Where the blob was in memory.
    pub base: u64,
    /// The number of its bytes.
    pub size: u64,
}

// Reads where a blob was in memory, and the number of its bytes. Returns both and the remaining bytes.
fn place_at(bytes: &[u8]) -> Result<((u64, u64), &[u8]), Mismatch>
    ensures { Reads (λ x. (x.0, x.1.now)) result (place.at bytes.now) }
{
    let (base, rest) = u64_at(Mismatch::Form, bytes)?;
    let (size, rest) = u64_at(Mismatch::Form, rest)?;
    Ok(((base, size), rest))
}

// Reads the blob without a description at the start of the bytes. Returns it and the remaining bytes.
#[tactic(auto, unfolding(crate::specs::BlobReading::plain_blob))]
fn plain_blob_at(bytes: &[u8]) -> Result<(Blob<'_>, &[u8]), Mismatch>
    ensures { Reads (λ x. (blob_of x.0, x.1.now)) result (plain_blob.at bytes.now) }
{
    let ((base, size), rest) = place_at(bytes)?;
    let blob = Blob {
        description: None,
        base,
        size,
    };
    Ok((blob, rest))
}

// Reads the blob with a description at the start of the bytes. Returns it and the remaining bytes.
#[tactic(auto, unfolding(crate::specs::BlobReading::described_blob))]
fn described_blob_at(bytes: &[u8]) -> Result<(Blob<'_>, &[u8]), Mismatch>
    ensures { Reads (λ x. (blob_of x.0, x.1.now)) result (described_blob.at bytes.now) }
{
    let (count, rest) = u8_at(Mismatch::Form, bytes)?;
    let (description, rest) = part_at(Mismatch::Form, count as usize, rest)?;
    let ((base, size), rest) = place_at(rest)?;
    let blob = Blob {
        description: Some(description),
        base,
        size,
    };
    Ok((blob, rest))
}

/// The blob without a description that the bytes are, 16 of them; `None` where they are none.
pub fn read_plain_blob(bytes: &[u8]) -> Option<Blob<'_>>
    ensures value { option_map blob_of result ≡ plain_blob_in bytes.now }
    ensures found { IfSome result (λ found. IsPlainBlob bytes.now (blob_of found)) }
    ensures only { (value : BlobData) → IsPlainBlob bytes.now value → option_map blob_of result ≡ Some value }
{
    match plain_blob_at(bytes) {
        Ok((blob, rest)) if rest.is_empty() => Some(blob),
        _ => None,
    }
}

/// The blob with a description that the bytes are; `None` where they are none.
pub fn read_described_blob(bytes: &[u8]) -> Option<Blob<'_>>
    ensures value { option_map blob_of result ≡ described_blob_in bytes.now }
    ensures found { IfSome result (λ found. IsDescribedBlob bytes.now (blob_of found)) }
    ensures only { (value : BlobData) → IsDescribedBlob bytes.now value → option_map blob_of result ≡ Some value }
{
    match described_blob_at(bytes) {
        Ok((blob, rest)) if rest.is_empty() => Some(blob),
        _ => None,
    }
}

/// An image that the firmware loaded (PC Client Platform Firmware Profile, `UEFI_IMAGE_LOAD_EVENT`).
#[derive(Clone, Copy)]
pub struct Image<'a> {
    /// Where it was loaded in memory.
    pub location: u64,
    /// Its length in memory.
    pub size: u64,
    /// The address that it was linked for.
    pub link_address: u64,
    /// The device path that it was loaded from: nodes, one after another. It may be empty.
    pub path: &'a [u8],
}

// Reads the image at the start of the bytes. Returns it and the remaining bytes.
#[tactic(auto, unfolding(crate::specs::Reading::image))]
fn image_at(bytes: &[u8]) -> Result<(Image<'_>, &[u8]), Mismatch>
    ensures { Reads (λ x. (image_of x.0, x.1.now)) result (image.at bytes.now) }
{
    let (location, rest) = u64_at(Mismatch::Form, bytes)?;
    let (size, rest) = u64_at(Mismatch::Form, rest)?;
    let (link_address, rest) = u64_at(Mismatch::Form, rest)?;
    let (count, rest) = u64_at(Mismatch::Form, rest)?;
    let (path, rest) = part_at(Mismatch::Form, count as usize, rest)?;
    let image = Image {
        location,
        size,
        link_address,
        path,
    };
    Ok((image, rest))
}

/// The image that the bytes are; `None` where they are none.
pub fn read_image(bytes: &[u8]) -> Option<Image<'_>>
    ensures value { option_map image_of result ≡ image_in bytes.now }
    ensures found { IfSome result (λ found. IsImage bytes.now (image_of found)) }
    ensures only { (value : ImageData) → IsImage bytes.now value → option_map image_of result ≡ Some value }
{
    match image_at(bytes) {
        Ok((image, rest)) if rest.is_empty() => Some(image),
        _ => None,
    }
}

/// The image at the start of the bytes, and the bytes behind it; `None` where they begin with none.
pub fn read_image_then(bytes: &[u8]) -> Option<(Image<'_>, &[u8])>
    ensures value { option_map (λ x. (image_of x.0, x.1.now)) result ≡ image_then bytes.now }
    ensures found { IfSome result (λ x. IsFollowed IsImage bytes.now (image_of x.0) x.1.now) }
    ensures only { (value : ImageData) (rest : List ℕ) → IsFollowed IsImage bytes.now value rest
        → option_map {U = ImageData × List ℕ} (λ x. (image_of x.0, x.1.now)) result ≡ Some (value, rest) }
{
    match image_at(bytes) {
        Ok((image, rest)) => Some((image, rest)),
        Err(_) => None,
    }
}
