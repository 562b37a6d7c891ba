ghost use Rattle.std.specs.Prelude.{◌≡◌, ◌⊎◌, not, Ok, IfOk, IfErr, IsErr};
ghost use Rattle.agent_inputs.specs.declared.fault.RunFault.TheVariants.{Memory, NotHex};
ghost use Rattle.hex.specs.Hex.{decode_of};
ghost use Rattle.ima_agent.specs.Showing.{is_white_space, without_white_space};

use agent_inputs::RunFault;
use hex::FromHexError;
use std::alloc::Global;

/// Whether a byte of a hexadecimal text is kept: all but space, tab, carriage return and line feed.
fn is_kept(byte: u8) -> bool
    ensures { result ≡ not (is_white_space byte) }
{
    !matches!(byte, b' ' | b'\t' | b'\r' | b'\n')
}

// Removes white space from the text, in place.
fn drop_white_space(text: &mut Vec<u8>)
    ensures { text.new.items ≡ without_white_space text.old.items }
{
    text.retain(|byte| is_kept(*byte));
}

/// Decodes a text of two hexadecimal digits of either case per byte, with white space anywhere. The digits are not copied.
pub(crate) fn decode_hexadecimal(alloc: Global, text: Vec<u8>) -> Result<Vec<u8>, RunFault>
    ensures ok { IfOk result (λ bytes. decode_of (without_white_space text.items) ≡ Ok bytes.items) }
    ensures fault { IfErr result (λ fault. ((fault ≡ NotHex) × IsErr (decode_of (without_white_space text.items))) ⊎ (fault ≡ Memory)) }
{
    let mut digits = text;
    drop_white_space(&mut digits);
    match hex::decode(alloc, digits) {
        Ok(bytes) => Ok(bytes),
        Err(FromHexError::OutOfMemory) => Err(RunFault::Memory),
        Err(_) => Err(RunFault::NotHex),
    }
}
