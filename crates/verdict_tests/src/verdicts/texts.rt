//! Verdicts on the samples, the book that makes their list, and the texts of all this.

use answers::{write_positions, write_report};
use boot_verdict::{Located, Report, VerifyFault, locate, verify};
use byte_streams::{Failed, Sink, VecSink};
use measure_book::{Book, ExportFault};
use pcr_banks::Banks;
use pcr_values::{ExpectFault, Expected, read_expected, write_expected, write_registers};
use std::alloc::Global;
use std::test::Fail;
use test_kit::books::{applied, measure, opened, origin};
use test_kit::logs::log_of;
use test_kit::once_more;
use test_kit::registers::sha256;
use test_kit::samples::{EXPECTED, LIST, LOG};

/// What has a text.
#[derive(Drop)]
pub enum Text<'a> {
    Expected(&'a Vec<Expected>),
    List(&'a Book),
    Positions(&'a Vec<Located>),
    Registers(&'a Banks, &'a Banks),
    Report(&'a Report),
}

impl Text<'_> {
    /// Sends the text.
    pub fn send<S: Sink>(&self, sink: &mut S) -> Result<(), Failed> {
        match self {
            Text::Expected(expected) => write_expected(expected, sink),
            Text::List(book) => match book.export(sink) {
                Ok(()) => Ok(()),
                Err(ExportFault::Sink) => Err(Failed),
            },
            Text::Positions(located) => write_positions(located, sink),
            Text::Registers(now, start) => write_registers(now, start, sink),
            Text::Report(report) => write_report(report, sink),
        }
    }

    /// The text; once more where an allocation was refused.
    pub fn written(&self, alloc: Global) -> Result<Vec<u8>, Failed> {
        once_more(Failed, || {
            let mut sink = VecSink::new(Vec::new(alloc));
            self.send(&mut sink)?;
            Ok(sink.into_bytes())
        })
    }
}

/// The expected registers; once more where an allocation was refused.
pub fn expected(alloc: Global) -> Result<Vec<Expected>, ExpectFault> {
    once_more(ExpectFault::Memory, || read_expected(alloc, EXPECTED))
}

/// The report on the samples; once more where an allocation was refused.
pub fn report(alloc: Global, expected: &[Expected]) -> Result<Report, VerifyFault> {
    once_more(VerifyFault::Memory, || verify(alloc, LOG, LIST, expected))
}

/// The positions in the samples; once more where an allocation was refused.
pub fn positions(alloc: Global, expected: &[Expected]) -> Result<Vec<Located>, VerifyFault> {
    once_more(VerifyFault::Memory, || locate(alloc, LOG, LIST, expected))
}

/// A book that starts with the registers after the log, and makes the list.
pub fn book(alloc: Global) -> Result<Book, Fail> {
    let mut origin = origin(100);
    origin.start = log_of(alloc, LOG)?.registers();
    let mut book = opened(alloc, origin)?;
    for content in [b"abc".as_slice(), b""] {
        let op = measure(alloc, b"/bin/sh", sha256(content))?;
        applied(&mut book, &op)?;
    }
    Ok(book)
}
