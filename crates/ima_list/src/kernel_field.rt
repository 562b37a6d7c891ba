//! The fields of the kernel's other templates: entries with them are read, and never made.

ghost use Rattle.std.specs.Prelude.{◌≡◌, option_map};
ghost use Rattle.pcr_banks.specs.Names.{alg_of, bytes_of};
ghost use Rattle.ima_list.specs.KernelFields.{is_content, kernel_row, typed_digest_in, typed_digest_by, type_prefix};

use crate::field_kind::{digest_in_field, path_in_field};
use pcr_banks::Digest;

/// A kind of field (Linux kernel documentation, 'IMA Template Management Mechanism', 'Supported Template Fields and Descriptors').
#[derive(Clone, Copy, PartialEq, Eq)]
pub enum KernelField {
    /// `d-ng`: the name of an algorithm, a colon and a NUL, and the digest.
    NamedDigest,
    /// `d-ngv2`: the type of the digest and a colon, and then what `d-ng` has.
    TypedDigest,
    /// `n-ng`: a path and a NUL.
    Path,
    /// `sig`: the file's signature.
    Signature,
    /// `d-modsig`: as `d-ng`, the digest of the file without the signature appended to it; empty where it has none.
    ModsigDigest,
    /// `modsig`: the signature appended to the file.
    Modsig,
    /// `buf`: the bytes that were measured.
    Buffer,
    /// `evmsig`: the portable signature of EVM.
    EvmSignature,
    /// `xattrnames`: the names of extended attributes, joined by `|`, and a NUL.
    XattrNames,
    /// `xattrlengths`: the lengths of their values, four bytes each, little endian.
    XattrLengths,
    /// `xattrvalues`: their values, one after another.
    XattrValues,
    /// `iuid`: the user of the inode, four bytes, little endian; empty where the kernel had no inode.
    User,
    /// `igid`: its group, as the user.
    Group,
    /// `imode`: its mode, two bytes, little endian; empty where the kernel had no inode.
    Mode,
}

/// What the digest of a field `d-ngv2` is of.
#[derive(Clone, Copy, PartialEq, Eq)]
pub enum DigestType {
    /// `ima`: the file's content.
    Ima,
    /// `verity`: the file's Merkle tree (fs-verity).
    Verity,
}

impl DigestType {
    /// The name, as the kernel writes it.
    pub fn name(self) -> &'static str
        ensures { result.now ≡ type_prefix self }
    {
        match self {
            DigestType::Ima => "ima",
            DigestType::Verity => "verity",
        }
    }
}

/// The kinds of the fields of the kernel's template with this name, in order; `None` where it has none that is told here. Those of
/// [`crate::Template`] are not among them.
pub(crate) fn kernel_row(name: &[u8]) -> Option<&'static [KernelField]>
    ensures { option_map (λ row. row.now) result ≡ kernel_row name.now }
{
    use KernelField::{
        Buffer, EvmSignature, Group, Mode, Modsig, ModsigDigest, NamedDigest, Path, Signature,
        TypedDigest, User, XattrLengths, XattrNames, XattrValues,
    };
    if name == "ima-ngv2".as_bytes() {
        Some(&[TypedDigest, Path])
    } else if name == "ima-sigv2".as_bytes() {
        Some(&[TypedDigest, Path, Signature])
    } else if name == "ima-buf".as_bytes() {
        Some(&[NamedDigest, Path, Buffer])
    } else if name == "ima-modsig".as_bytes() {
        Some(&[NamedDigest, Path, Signature, ModsigDigest, Modsig])
    } else if name == "evm-sig".as_bytes() {
        Some(&[
            NamedDigest,
            Path,
            EvmSignature,
            XattrNames,
            XattrLengths,
            XattrValues,
            User,
            Group,
            Mode,
        ])
    } else {
        None
    }
}

impl KernelField {
    /// Whether a field of this kind has such a content.
    pub(crate) fn is_content(self, content: &[u8]) -> bool
        ensures { result ≡ is_content self content.now }
    {
        match self {
            KernelField::NamedDigest => digest_in_field(content).is_some(),
            KernelField::TypedDigest => typed_digest_in_field(content).is_some(),
            KernelField::Path => path_in_field(content).is_some(),
            KernelField::ModsigDigest => {
                content.is_empty() || digest_in_field(content).is_some()
            }
            KernelField::XattrLengths => content.len() % 4 == 0,
            KernelField::User | KernelField::Group => content.is_empty() || content.len() == 4,
            KernelField::Mode => content.is_empty() || content.len() == 2,
            KernelField::Signature
            | KernelField::Modsig
            | KernelField::Buffer
            | KernelField::EvmSignature
            | KernelField::XattrNames
            | KernelField::XattrValues => true,
        }
    }
}

// The digest in the content of a `d-ngv2` field of this type.
fn typed_digest_by(of: DigestType, field: &[u8]) -> Option<Digest>
    ensures { option_map (λ digest. (alg_of digest, bytes_of digest)) result ≡ typed_digest_by of field.now }
{
    let field = field.strip_prefix(of.name().as_bytes())?;
    digest_in_field(field.strip_prefix(b":")?)
}

/// The type and the digest in the content of a `d-ngv2` field; `None` where it is none.
pub fn typed_digest_in_field(field: &[u8]) -> Option<(DigestType, Digest)>
    ensures { option_map (λ x. (x.0, (alg_of x.1, bytes_of x.1))) result ≡ typed_digest_in field.now }
{
    if let Some(digest) = typed_digest_by(DigestType::Ima, field) {
        return Some((DigestType::Ima, digest));
    }
    let digest = typed_digest_by(DigestType::Verity, field)?;
    Some((DigestType::Verity, digest))
}
