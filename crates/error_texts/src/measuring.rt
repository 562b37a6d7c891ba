//! Why files cannot be measured, and what to do.

ghost use Rattle.std.specs.Prelude.{◌≡◌, option_map};
ghost use Rattle.error_texts.specs.Sentences.{book_sentence, gather_sentence, said};

use crate::table::{Sentence, row};

const REPORT: &str = "This is a bug in the program: report it.";

/// What is wrong with a book of records, or a file that it refuses.
pub(crate) fn book_sentence(number: u32) -> Option<Sentence>
    ensures { option_map said result ≡ book_sentence number }
{
    match number {
        1 => row(
            "the template or the book does not accept digests of this algorithm",
            "Choose another hash, or another template: ima accepts only SHA-1.",
        ),
        2 => row(
            "there is no bank for this algorithm",
            "Choose a hash for which the log has a bank.",
        ),
        3 => row("there is no such PCR", "Choose a PCR from 0 to 23."),
        4 => row("the path contains a NUL byte", "Rename the file."),
        5 => row(
            "the path is longer than the template allows",
            "Use a shorter path, or a template other than ima.",
        ),
        6 => row(
            "the template digest is all zeros, which would mark a violation",
            "Leave the file out.",
        ),
        7 => row(
            "the limit on the number of records is reached",
            "Raise the limit, or measure fewer files.",
        ),
        _ => None,
    }
}

/// What is wrong with the workers' receipts.
pub(crate) fn gather_sentence(number: u32) -> Option<Sentence>
    ensures { option_map said result ≡ gather_sentence number }
{
    match number {
        1 => row("the book has another origin", REPORT),
        2 => row("a receipt is for no record", REPORT),
        3 => row("the receipts of a group are out of order", REPORT),
        4 => row("two groups have a receipt for the same record", REPORT),
        5 => row("a record has no receipt", REPORT),
        6 => row(
            "an operation was refused because the book is full, but it is not",
            REPORT,
        ),
        _ => None,
    }
}
