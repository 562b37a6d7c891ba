ghost use Rattle.std.specs.Prelude.{◌≡◌, ◌≢◌, ◌≤◌, ◌↔◌, true, false, IfSome, IfNone, IsTrue};
ghost use Rattle.pcr_banks.specs.declared.alg.Alg.{Alg};
ghost use Rattle.pcr_banks.specs.Hashing.{algorithm_with, size_of, tpm_id_of, name_of};

/// A hash algorithm that a register bank may use. The variants are in the order of [`Alg::ALL`].
#[derive(Clone, Copy, Debug, PartialEq, Eq)]
pub enum Alg {
    /// SHA-1, 20 bytes (FIPS 180-4, section 6.1).
    Sha1,
    /// SHA-256, 32 bytes (FIPS 180-4, section 6.2).
    Sha256,
    /// SHA-384, 48 bytes (FIPS 180-4, section 6.5).
    Sha384,
    /// SHA-512, 64 bytes (FIPS 180-4, section 6.4).
    Sha512,
}

impl Alg {
    /// All algorithms, each once, in order. Crates that handle every algorithm iterate over it and keep no list of their own.
    pub const ALL: [Alg; 4] = [Alg::Sha1, Alg::Sha256, Alg::Sha384, Alg::Sha512];

    // The algorithm's row of the table.
    fn row(self) -> Row
        ensures size { result.size ≡ size_of self }
        ensures tpm_id { result.tpm_id ≡ tpm_id_of self }
        ensures name { result.name.now ≡ name_of self }
    {
        let (size, tpm_id, name) = match self {
            Alg::Sha1 => (20, 0x0004, "sha1"),
            Alg::Sha256 => (32, 0x000B, "sha256"),
            Alg::Sha384 => (48, 0x000C, "sha384"),
            Alg::Sha512 => (64, 0x000D, "sha512"),
        };
        Row { size, tpm_id, name }
    }

    /// The size of a digest in bytes.
    pub fn size(self) -> usize
        ensures value { result ≡ size_of self }
        ensures most { result ≤ 64 }
    {
        self.row().size
    }

    /// The `TPM_ALG_ID` (TCG Algorithm Registry).
    pub fn tpm_id(self) -> u16
        ensures { result ≡ tpm_id_of self }
    {
        self.row().tpm_id
    }

    /// The name in lowercase, as the Linux kernel writes it.
    pub fn name(self) -> &'static str
        ensures { result.now ≡ name_of self }
    {
        self.row().name
    }

    /// The algorithm with this `TPM_ALG_ID`, or `None` if no known algorithm has it.
    pub fn from_id(id: u16) -> Option<Self>
        ensures value { result ≡ algorithm_with id }
        ensures found { IfSome result (λ alg. tpm_id_of alg ≡ id) }
        ensures unknown { IfNone result ((alg : Alg) → tpm_id_of alg ≢ id) }
    {
        for alg in Alg::ALL {
            if alg.tpm_id() == id {
                return Some(alg);
            }
        }
        None
    }

    /// The algorithm with this lowercase name, or `None` if no known algorithm has it.
    pub fn from_name(name: &[u8]) -> Option<Self>
        ensures found { IfSome result (λ alg. name_of alg ≡ name.now) }
        ensures unknown { IfNone result ((alg : Alg) → name_of alg ≢ name.now) }
    {
        for alg in Alg::ALL {
            if alg.has_name(name) {
                return Some(alg);
            }
        }
        None
    }

    // Whether this is the algorithm's name.
    fn has_name(self, name: &[u8]) -> bool
        ensures { IsTrue result ↔ (name_of self ≡ name.now) }
    {
        self.name().as_bytes() == name
    }
}

// A row of the table of algorithms: digest size in bytes, `TPM_ALG_ID`, and name.
#[derive(Drop)]
struct Row {
    size: usize,
    tpm_id: u16,
    name: &'static str,
}
