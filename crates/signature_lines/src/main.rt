//! The program that the tests of signatures ask. It reads a question from each line of standard input, and prints a line for each.
//!
//! | Question | Answer |
//! |---|---|
//! | `rsassa HASH MODULUS MESSAGE SIGNATURE` | `valid` or `invalid` |
//! | `rsapss HASH MODULUS MESSAGE SIGNATURE` | `valid` or `invalid` |
//! | `ecdsa CURVE HASH X Y MESSAGE R S` | `valid` or `invalid` |
//! | `tpmt SIGNATURE` | the scheme, the hash and the numbers, or `fault` and the number of the first fault |
//! | `signed KEY MESSAGE SIGNATURE` | `valid`, or `key fault` or `signature fault` and a number; KEY is a public area or PEM |
//!
//! HASH is `sha256`, `sha384` or `sha512`, CURVE is `p256` or `p384`. All else is bytes in hexadecimal, or `-` for none. Any other line is answered by
//! `not a question`. A line is forgotten before the next one is read.
#![tactic(auto)]

mod answers;
mod questions;

use answers::answer;
use std::io;
use std::io::{BufRead, BufReader, BufWriter, Write};

fn main(rt: HostRuntime) -> io::Result<()> {
    let input = BufReader::new(rt.alloc(), rt.reader())?;
    let mut output = BufWriter::new(rt.alloc(), io::writer(&rt))?;
    for line in input.lines(rt.alloc()) {
        let said = answer(rt.alloc(), line?.as_str())?;
        writeln!(output, "{}", said.as_str())?;
    }
    output.flush()
}
