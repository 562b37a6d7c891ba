//! A UEFI variable that was measured, and the lists of signatures that some have as values, lent one after another.

ghost use Rattle.std.specs.Prelude.{◌≡◌, length, ◌≤◌, ◌<◌, [], ◌∷◌, ◌++◌, ℕ, List, IfSome, IfNone, ◌%◌};
ghost use Rattle.byte_fields.specs.Items.{BeginsWithNoItem};
ghost use Rattle.byte_fields.specs.Spelling.{IsBytes};
ghost use Rattle.event_data.specs.ValueReading.{signatures_in, lists_in};

use crate::value_reader::{list_at, signature_at};

/// A UEFI variable that was measured (PC Client Platform Firmware Profile, `UEFI_VARIABLE_DATA`).
#[derive(Clone, Copy)]
pub struct Variable<'a> {
    /// The vendor's GUID, 16 bytes.
    pub guid: &'a [u8],
    /// The name: units of UTF-16, little endian, with no NUL at the end.
    pub name: &'a [u8],
    /// The variable's value.
    pub value: &'a [u8],
    ghost guid_size: { length guid.now ≡ 16 },
}

/// A signature (UEFI 2.10, section 32.4.1, `EFI_SIGNATURE_DATA`): a hash, a certificate or a key, by its list's type.
#[derive(Clone, Copy)]
pub struct Signature<'a> {
    /// The GUID of who added it, 16 bytes.
    pub owner: &'a [u8],
    /// The hash, the certificate or the key.
    pub payload: &'a [u8],
    ghost owner_size: { length owner.now ≡ 16 },
}

/// Signatures of one size, which are lent one after another.
#[derive(Clone, Copy)]
pub struct Signatures<'a> {
    size: usize,
    rest: &'a [u8],
    ghost least_size: { 16 ≤ size },
    ghost fits: { IsBytes rest.now },
}

impl<'a> Signatures<'a> {
    ghost use Rattle.event_data.specs.ValueForms.{IsSignatureOf};
    ghost use Rattle.event_data.specs.ValueReading.{signatures_in};
    ghost use Rattle.event_data.specs.ValueViews.{signature_of};
    ghost use Rattle.event_data.specs.ValueRests.{signatures_left, size_of};

    /// The signatures of this size with these bytes, of which none was lent yet.
    pub(crate) fn new(size: usize, bytes: &'a [u8]) -> Self
        requires { 16 ≤ size }
        ensures left { signatures_left result ≡ bytes.now }
        ensures size { size_of result ≡ size }
    {
        Signatures { size, rest: bytes }
    }

    /// The next signature, or `None` after the last.
    pub fn next_signature(&mut self) -> Option<Signature<'a>>
        ensures signature { IfSome result (λ found. (prefix : List ℕ) × (signatures_left self.old ≡ prefix ++ signatures_left self.new)
            × IsSignatureOf (size_of self.old) prefix (signature_of found)) }
        ensures none { IfNone result (BeginsWithNoItem (IsSignatureOf (size_of self.old)) (signatures_left self.old) × (self.new ≡ self.old)) }
        // The signatures that are left are this one, and those that are left then.
        ensures more { IfSome result (λ found. signatures_in (size_of self.old) (signatures_left self.old)
            ≡ (
              signature_of found ∷ (signatures_in (size_of self.new) (signatures_left self.new)).0,
              (signatures_in (size_of self.new) (signatures_left self.new)).1,
            )) }
        ensures last { IfNone result (signatures_in (size_of self.old) (signatures_left self.old) ≡ ([], signatures_left self.old)) }
        ensures size { size_of self.new ≡ size_of self.old }
        ensures shorter { IfSome result (λ _. length (signatures_left self.new) < length (signatures_left self.old)) }
    {
        match signature_at(self.size, self.rest) {
            Ok((signature, rest)) => {
                self.rest = rest;
                Some(signature)
            }
            Err(_) => None,
        }
    }
}

/// A list of signatures of one type (UEFI 2.10, section 32.4.1, `EFI_SIGNATURE_LIST`).
#[derive(Clone, Copy)]
pub struct SignatureList<'a> {
    /// The GUID of the signatures' type, 16 bytes.
    pub kind: &'a [u8],
    /// The size of each signature, at least 16 bytes.
    pub signature_size: u32,
    /// The header, which depends on the type. It is mostly empty.
    pub header: &'a [u8],
    /// The bytes of the signatures, one after another.
    pub signatures: &'a [u8],
    ghost kind_size: { length kind.now ≡ 16 },
    ghost least_size: { 16 ≤ signature_size },
    ghost filled: { length signatures.now % signature_size ≡ 0 },
}

// How many signatures of this size the bytes are.
fn count_of(size: usize, bytes: &[u8]) -> usize
    requires least { 16 ≤ size }
    requires filled { length bytes.now % size ≡ 0 }
    ensures { result ≡ length (signatures_in size bytes.now).0 }
{
    bytes.len() / size
}

impl<'a> SignatureList<'a> {
    ghost use Rattle.event_data.specs.ValueReading.{signatures_of};
    ghost use Rattle.event_data.specs.ValueRests.{signatures_left, size_of};
    ghost use Rattle.event_data.specs.ValueViews.{list_of};

    /// How many signatures there are.
    pub fn count(&self) -> usize
        ensures { result ≡ length (signatures_of (list_of self.now)) }
    {
        count_of(self.signature_size as usize, self.signatures)
    }

    /// The signatures, of which none was lent yet.
    pub fn signatures(&self) -> Signatures<'a>
        ensures left { signatures_left result ≡ (list_of self.now).signatures }
        ensures size { size_of result ≡ (list_of self.now).signature_size }
    {
        Signatures::new(self.signature_size as usize, self.signatures)
    }
}

/// Lists of signatures, which are lent one after another.
#[derive(Clone, Copy)]
pub struct SignatureLists<'a> {
    rest: &'a [u8],
    ghost fits: { IsBytes rest.now },
}

impl<'a> SignatureLists<'a> {
    ghost use Rattle.event_data.specs.ValueForms.{IsSignatureList};
    ghost use Rattle.event_data.specs.ValueViews.{list_of};
    ghost use Rattle.event_data.specs.ValueRests.{lists_left};

    /// The lists with these bytes, of which none was lent yet.
    pub fn new(bytes: &'a [u8]) -> Self
        ensures { lists_left result ≡ bytes.now }
    {
        SignatureLists { rest: bytes }
    }

    /// The bytes that were not lent yet. After the last list they are empty, unless the bytes are no lists.
    pub fn rest(&self) -> &'a [u8]
        ensures { result.now ≡ lists_left self.now }
    {
        self.rest
    }

    /// The next list, or `None` where what is left begins with none.
    pub fn next_list(&mut self) -> Option<SignatureList<'a>>
        ensures list { IfSome result (λ found. (prefix : List ℕ) × (lists_left self.old ≡ prefix ++ lists_left self.new)
            × IsSignatureList prefix (list_of found)) }
        ensures none { IfNone result (BeginsWithNoItem IsSignatureList (lists_left self.old) × (self.new ≡ self.old)) }
        // The lists that are left are this one, and those that are left then.
        ensures more { IfSome result (λ found. lists_in (lists_left self.old)
            ≡ (list_of found ∷ (lists_in (lists_left self.new)).0, (lists_in (lists_left self.new)).1)) }
        ensures last { IfNone result (lists_in (lists_left self.old) ≡ ([], lists_left self.old)) }
        ensures shorter { IfSome result (λ _. length (lists_left self.new) < length (lists_left self.old)) }
    {
        match list_at(self.rest) {
            Ok((list, rest)) => {
                self.rest = rest;
                Some(list)
            }
            Err(_) => None,
        }
    }
}
