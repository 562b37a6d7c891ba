//! The names of files in arguments and in a text.

ghost use Rattle.std.specs.Prelude.{◌≡◌, ◌<◌, ◌⊎◌, ◌++◌, ◌^◌, length, map, string_bytes, vec_len, IfOk, IfErr, OnOk};
ghost use Rattle.agent_inputs.specs.declared.fault.RunFault.TheVariants.{Memory};
ghost use Rattle.agent_inputs.specs.Loading.{Inputs};
ghost use Rattle.measuring.specs.Measuring.{AreNames, IsNamesFault, byte_of, names_of};
ghost use Rattle.measuring.specs.parts.{IsTextFor, names_borrowed};

use agent_inputs::{RunFault, not_utf8};
use agent_plans::{Measurement, NameEnd};
use std::alloc::{AllocError, Global};

// Names that are borrowed, or why there are none.
type Listed<'a> = Result<Vec<&'a str>, RunFault>;

/// The names of all files to be measured, borrowed: those in the arguments, and then, if there is a text of further names, those in it,
/// where it holds these bytes. Fails with `NotUtf8` if they are not UTF-8, and with `Usage` if there are 2^32 names or more.
pub(crate) fn names_for<'a>(alloc: Global, request: &'a Measurement, text: &'a [u8]) -> Listed<'a>
    requires { vec_len request.now.files < 2 ^ 32 }
    ensures names { IfOk result (λ names. (inputs : Inputs) → IsTextFor inputs request.now text.now
        → AreNames inputs request.now (names_borrowed names.items)) }
    ensures small { IfOk result (λ names. vec_len names < 2 ^ 32) }
    ensures fault { IfErr result (λ fault. (inputs : Inputs) → IsTextFor inputs request.now text.now
        → IsNamesFault inputs request.now fault ⊎ (fault ≡ Memory)) }
{
    let mut names = borrow_names(alloc, &request.files)?;
    if let Some(more) = &request.names {
        let Ok(text) = str::from_utf8(text) else {
            return Err(not_utf8(alloc, &more.text));
        };
        names_in(text, more.ends, &mut names)?;
        if names.len() > u32::MAX as usize {
            return Err(RunFault::Usage);
        }
    }
    Ok(names)
}

// These names, borrowed.
fn borrow_names<'a>(alloc: Global, names: &'a [String]) -> Result<Vec<&'a str>, AllocError>
    ensures names { IfOk result (λ borrowed. names_borrowed borrowed.items ≡ map string_bytes names.now) }
    ensures count { IfOk result (λ borrowed. vec_len borrowed ≡ length names.now) }
{
    let mut borrowed = Vec::with_capacity(alloc, names.len())?;
    for name in names {
        borrowed.push(name.as_str())?;
    }
    Ok(borrowed)
}

// Appends each name of the text to `names`, in order, each borrowed from the text. The text is split at each byte that ends a
// name, and at no other; the last name may lack it. Empty names are skipped. After a fault some of the names were appended.
fn names_in<'a>(text: &'a str, ends: NameEnd, names: &mut Vec<&'a str>) -> Result<(), AllocError>
    ensures names { OnOk result (names_borrowed names.new.items ≡ names_borrowed names.old.items ++ names_of ends text.now) }
{
    for name in text.split(end_char(ends)) {
        if !name.is_empty() {
            names.push(name)?;
        }
    }
    Ok(())
}

// The character that ends each name.
fn end_char(ends: NameEnd) -> char
    ensures byte { result ≡ byte_of ends }
    ensures ascii { result < 128 }
{
    match ends {
        NameEnd::LineFeed => '\n',
        NameEnd::Nul => '\0',
    }
}
