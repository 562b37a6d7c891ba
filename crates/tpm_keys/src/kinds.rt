//! What a key is for, and its schemes and curves.

ghost use Rattle.std.specs.Prelude.{◌≡◌};
ghost use Rattle.tpm_keys.specs.Kinds.{coordinate_size, curve_bits, curve_with, has_hash, is_signing, scheme_name, scheme_with, type_with};

/// What a key is for.
#[derive(Clone, Copy, PartialEq, Eq)]
pub enum Purpose {
    /// With an attestation key a TPM signs only what it made, such as quotes.
    Attestation,
    /// With an endorsement key a TPM decrypts only what is meant for it: a secret that only a key of its own gets.
    Endorsement,
}

/// What is shown of a key.
#[derive(Clone, Copy, PartialEq, Eq)]
pub enum KeyPart {
    /// All: its name, its kind, its scheme and its PEM.
    All,
    /// Its name alone.
    Name,
    /// Its PEM alone.
    Pem,
}

/// The type of a key.
#[derive(Clone, Copy)]
pub(crate) enum KeyType {
    Rsa,
    Ecc,
}

impl KeyType {
    // The type with this `TPM_ALG_ID`.
    pub(crate) fn with(id: u16) -> Option<KeyType>
        ensures { result ≡ type_with id }
    {
        match id {
            0x0001 => Some(KeyType::Rsa),
            0x0023 => Some(KeyType::Ecc),
            _ => None,
        }
    }
}

/// How a key signs or decrypts.
#[derive(Clone, Copy)]
pub enum SchemeKind {
    /// Nothing is fixed.
    Unset,
    /// RSA decryption by PKCS #1 version 1.5.
    Rsaes,
    /// RSA signatures by PKCS #1 version 1.5.
    Rsassa,
    /// RSA signatures with PSS.
    Rsapss,
    /// RSA decryption with OAEP.
    Oaep,
    /// Signatures of an elliptic curve.
    Ecdsa,
    /// Secrets shared by an elliptic curve.
    Ecdh,
}

impl SchemeKind {
    // The scheme of a key of this type with this `TPM_ALG_ID`.
    pub(crate) fn with(key: KeyType, id: u16) -> Option<SchemeKind>
        ensures { result ≡ scheme_with key id }
    {
        match (key, id) {
            (_, 0x0010) => Some(SchemeKind::Unset),
            (KeyType::Rsa, 0x0014) => Some(SchemeKind::Rsassa),
            (KeyType::Rsa, 0x0015) => Some(SchemeKind::Rsaes),
            (KeyType::Rsa, 0x0016) => Some(SchemeKind::Rsapss),
            (KeyType::Rsa, 0x0017) => Some(SchemeKind::Oaep),
            (KeyType::Ecc, 0x0018) => Some(SchemeKind::Ecdsa),
            (KeyType::Ecc, 0x0019) => Some(SchemeKind::Ecdh),
            _ => None,
        }
    }

    // Whether a hash belongs to it.
    pub(crate) fn has_hash(self) -> bool
        ensures { result ≡ has_hash self }
    {
        !matches!(self, SchemeKind::Unset | SchemeKind::Rsaes)
    }

    // Whether keys sign by it.
    pub(crate) fn is_signing(self) -> bool
        ensures { result ≡ is_signing self }
    {
        matches!(
            self,
            SchemeKind::Rsassa | SchemeKind::Rsapss | SchemeKind::Ecdsa
        )
    }

    /// The name in lower case, as tpm2-tools have it; `none` where nothing is fixed.
    pub fn name(self) -> &'static str
        ensures { result.now ≡ scheme_name self }
    {
        match self {
            SchemeKind::Unset => "none",
            SchemeKind::Rsaes => "rsaes",
            SchemeKind::Rsassa => "rsassa",
            SchemeKind::Rsapss => "rsapss",
            SchemeKind::Oaep => "oaep",
            SchemeKind::Ecdsa => "ecdsa",
            SchemeKind::Ecdh => "ecdh",
        }
    }
}

/// An elliptic curve (TCG Algorithm Registry, 'TPM_ECC_CURVE').
#[derive(Clone, Copy)]
pub enum Curve {
    /// P-256.
    P256,
    /// P-384.
    P384,
    /// P-521.
    P521,
}

impl Curve {
    // The curve with this `TPM_ECC_CURVE`.
    pub(crate) fn with(id: u16) -> Option<Curve>
        ensures { result ≡ curve_with id }
    {
        match id {
            0x0003 => Some(Curve::P256),
            0x0004 => Some(Curve::P384),
            0x0005 => Some(Curve::P521),
            _ => None,
        }
    }

    /// How many bits a coordinate has.
    pub fn bits(self) -> usize
        ensures { result ≡ curve_bits self }
    {
        match self {
            Curve::P256 => 256,
            Curve::P384 => 384,
            Curve::P521 => 521,
        }
    }

    // How many bytes a coordinate has.
    pub(crate) fn coordinate_size(self) -> usize
        ensures { result ≡ coordinate_size self }
    {
        match self {
            Curve::P256 => 32,
            Curve::P384 => 48,
            Curve::P521 => 66,
        }
    }
}
