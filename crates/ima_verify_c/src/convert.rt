//! Inputs in other forms, turned into the form that the other calls read.

ghost use Rattle.std.specs.Prelude.{◌≡◌, IfErr, IfOk};
ghost use Rattle.agent_inputs.specs.Faults.{fault_of_list_text, fault_of_log_form};
ghost use Rattle.agent_plans.specs.declared.plan.Conversion.TheVariants as conversions;
ghost use Rattle.ima_verify_c.specs.Converting.{GivesConverted, IsConverted, IsNotConverted, conversion_of};

use crate::boot::give_misuse;
use crate::replies::{DONE, give_fault, put};
use crate::text_info::TextInfo;
use agent_inputs::RunFault;
use agent_plans::{Conversion, Form};
use list_imports::list_of;
use log_imports::log_of;
use std::alloc::Global;

/// The input in the form that the other calls read. With `conversion` 1 it is a measurement list as text, and the text that is given its binary
/// list; with 2 a firmware event log in the SHA-1 form, or with padding behind its last event, and what is given a crypto-agile log without that.
/// 0, or 2 if the input is refused, with the line of the error. `padding` is set to how many bytes of padding were left out; to 0 in any other
/// case.
///
/// 6 if there is no such conversion: nothing is then read or written.
#[unsafe(no_mangle)]
pub extern "C" fn ima_verify_raw_convert(
    alloc: Global,
    bytes: &[u8],
    conversion: u32,
    padding: &mut usize,
    out: &mut [u8],
    info: &mut TextInfo,
) -> i32
    ensures { GivesConverted (conversion_of conversion) bytes.now padding.new result info.new out.old out.new }
{
    *padding = 0;
    let Some(conversion) = conversion_of(conversion) else {
        return give_misuse(info);
    };
    match converted(alloc, bytes, conversion) {
        Ok(made) => {
            *padding = made.padding;
            put(&made.input, DONE, None, out, info)
        }
        Err(fault) => give_fault(alloc, Form::Text, &fault, out, info),
    }
}

// The conversion that has this number, if one has it.
fn conversion_of(number: u32) -> Option<Conversion>
    ensures { result ≡ conversion_of number }
{
    match number {
        1 => Some(Conversion::List),
        2 => Some(Conversion::Log),
        _ => None,
    }
}

/// An input in the form that the other calls read, and how many bytes of padding it lost.
#[derive(Drop)]
struct MadeInput {
    input: Vec<u8>,
    padding: usize,
}

fn converted(alloc: Global, bytes: &[u8], conversion: Conversion) -> Result<MadeInput, RunFault>
    ensures converted { IfOk result (λ made. IsConverted conversion bytes.now made.input.items made.padding) }
    ensures fault { IfErr result (IsNotConverted conversion bytes.now) }
{
    match conversion {
        Conversion::List => converted_list(alloc, bytes),
        Conversion::Log => converted_log(alloc, bytes),
    }
}

fn converted_list(alloc: Global, text: &[u8]) -> Result<MadeInput, RunFault>
    ensures converted { IfOk result (λ made. IsConverted conversions.List text.now made.input.items made.padding) }
    ensures fault { IfErr result (IsNotConverted conversions.List text.now) }
{
    match list_of(alloc, text) {
        Ok(input) => Ok(MadeInput { input, padding: 0 }),
        Err(fault) => Err(fault.into()),
    }
}

fn converted_log(alloc: Global, bytes: &[u8]) -> Result<MadeInput, RunFault>
    ensures converted { IfOk result (λ made. IsConverted conversions.Log bytes.now made.input.items made.padding) }
    ensures fault { IfErr result (IsNotConverted conversions.Log bytes.now) }
{
    match log_of(alloc, bytes) {
        Ok(imported) => Ok(MadeInput {
            input: imported.log,
            padding: imported.padding,
        }),
        Err(fault) => Err(fault.into()),
    }
}
