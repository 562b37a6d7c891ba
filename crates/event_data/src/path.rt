//! Device paths and their nodes.

ghost use Rattle.std.specs.Prelude.{◌≡◌, ◌<◌, [], ◌∷◌, ◌++◌, ℕ, List, length, IfSome, IfNone};
ghost use Rattle.byte_fields.specs.Reading.{Reads};
ghost use Rattle.byte_fields.specs.Items.{BeginsWithNoItem};
ghost use Rattle.byte_fields.specs.Spelling.{IsBytes};
ghost use Rattle.event_data.specs.PathNodes.{node_of};
ghost use Rattle.event_data.specs.Reading.{node, nodes_in};
ghost use Rattle.event_data.specs.Forms.{IsNode};

use crate::content::Mismatch;
use byte_fields::{part_at, u8_at, u16_at};

/// A node of a device path (UEFI 2.10, section 10.2, `EFI_DEVICE_PATH_PROTOCOL`).
#[derive(Clone, Copy)]
pub struct PathNode<'a> {
    /// The node's type.
    pub kind: u8,
    /// The node's sub-type.
    pub subtype: u8,
    /// What follows the four bytes of type, sub-type and length.
    pub payload: &'a [u8],
}

/// Reads the node at the start of the bytes. Returns it and the remaining bytes.
#[tactic(auto, unfolding(crate::specs::Reading::node))]
pub(crate) fn node_at(bytes: &[u8]) -> Result<(PathNode<'_>, &[u8]), Mismatch>
    ensures { Reads (λ x. (node_of x.0, x.1.now)) result (node.at bytes.now) }
{
    let (kind, rest) = u8_at(Mismatch::Form, bytes)?;
    let (subtype, rest) = u8_at(Mismatch::Form, rest)?;
    let (size, rest) = u16_at(Mismatch::Form, rest)?;
    if size < 4 {
        return Err(Mismatch::Form);
    }
    let (payload, rest) = part_at(Mismatch::Form, size as usize - 4, rest)?;
    let node = PathNode {
        kind,
        subtype,
        payload,
    };
    Ok((node, rest))
}

/// A device path, whose nodes are lent one after another.
#[derive(Drop)]
pub struct DevicePath<'a> {
    rest: &'a [u8],
    ghost fits: { IsBytes rest.now },
}

impl<'a> DevicePath<'a> {
    ghost use Rattle.event_data.specs.Paths.{left_of};

    /// The path with these bytes, of which no node was lent yet.
    pub fn new(bytes: &'a [u8]) -> Self
        ensures { left_of result ≡ bytes.now }
    {
        DevicePath { rest: bytes }
    }

    /// The bytes that were not lent yet. After the last node they are empty, unless the bytes are no path.
    pub fn rest(&self) -> &'a [u8]
        ensures { result.now ≡ left_of self.now }
    {
        self.rest
    }

    /// The next node, or `None` where what is left begins with none.
    pub fn next_node(&mut self) -> Option<PathNode<'a>>
        ensures node { IfSome result (λ found. (prefix : List ℕ) × (left_of self.old ≡ prefix ++ left_of self.new) × IsNode prefix (node_of found)) }
        ensures none { IfNone result (BeginsWithNoItem IsNode (left_of self.old) × (self.new ≡ self.old)) }
        // The nodes that are left are this one, and those that are left then.
        ensures more { IfSome result (λ found. nodes_in (left_of self.old)
            ≡ (node_of found ∷ (nodes_in (left_of self.new)).0, (nodes_in (left_of self.new)).1)) }
        ensures last { IfNone result (nodes_in (left_of self.old) ≡ ([], left_of self.old)) }
        ensures shorter { IfSome result (λ _. length (left_of self.new) < length (left_of self.old)) }
    {
        match node_at(self.rest) {
            Ok((node, rest)) => {
                self.rest = rest;
                Some(node)
            }
            Err(_) => None,
        }
    }
}
