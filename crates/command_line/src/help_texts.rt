//! The help of the program: what the commands do, the ends of the commands' help, and the help of their arguments.

/// A text of these literals, and of what the commands do that are named. Each stands here once.
macro_rules! with_abouts {
    ($($begun:literal)*;) => {
        concat!($($begun),*)
    };
    ($($begun:literal)*; verify $($more:tt)*) => {
        with_abouts!($($begun)* "Replays log and list, and compares the PCRs with expected values"; $($more)*)
    };
    ($($begun:literal)*; attest $($more:tt)*) => {
        with_abouts!($($begun)* "Replays log and list, and compares the PCRs with a TPM's quote"; $($more)*)
    };
    ($($begun:literal)*; replay $($more:tt)*) => {
        with_abouts!($($begun)* "Replays a list without its log, and prints or compares the PCRs"; $($more)*)
    };
    ($($begun:literal)*; locate $($more:tt)*) => {
        with_abouts!($($begun)* "Prints which event or entry first gives each PCR its expected value"; $($more)*)
    };
    ($($begun:literal)*; boot $($more:tt)*) => {
        with_abouts!($($begun)* "Prints what the machine booted, as far as PCRs confirm the log"; $($more)*)
    };
    ($($begun:literal)*; events $($more:tt)*) => {
        with_abouts!($($begun)* "Prints the events of a log"; $($more)*)
    };
    ($($begun:literal)*; show $($more:tt)*) => {
        with_abouts!($($begun)* "Prints the entries of a list"; $($more)*)
    };
    ($($begun:literal)*; registers $($more:tt)*) => {
        with_abouts!($($begun)* "Prints the PCRs that a log changes"; $($more)*)
    };
    ($($begun:literal)*; expected $($more:tt)*) => {
        with_abouts!($($begun)* "Converts the output of tpm2-tools to expected PCRs"; $($more)*)
    };
    ($($begun:literal)*; key $($more:tt)*) => {
        with_abouts!($($begun)* "Checks that a TPM's key is restricted, and prints its name and PEM"; $($more)*)
    };
    ($($begun:literal)*; list $($more:tt)*) => {
        with_abouts!($($begun)* "Converts a list from the kernel's text form to binary"; $($more)*)
    };
    ($($begun:literal)*; log $($more:tt)*) => {
        with_abouts!($($begun)* "Converts a log in the SHA-1 form, or with padding, to a crypto-agile log"; $($more)*)
    };
    ($($begun:literal)*; measure $($more:tt)*) => {
        with_abouts!($($begun)* "Measures files as IMA does, starting from a log's PCRs, without a TPM"; $($more)*)
    };
    ($($begun:literal)*; $text:literal $($more:tt)*) => {
        with_abouts!($($begun)* $text; $($more)*)
    };
}

pub(crate) use with_abouts;

/// How the program is called.
pub(crate) const PROGRAM_USAGE: &str = "ima-agent [COMMAND]";

/// The help of the program.
pub(crate) const PROGRAM_HELP: &str = with_abouts!(;
    "\
Checks a machine's firmware log and IMA list against the PCRs of its TPM.

Usage: ima-agent [COMMAND]

Commands that judge:
"
    "  verify     " verify "\n"
    "  attest     " attest "\n"
    "  replay     " replay "\n"
    "  locate     " locate "\n"
    "  boot       " boot "\n"
    "
Commands that read:
"
    "  events     " events "\n"
    "  show       " show "\n"
    "  registers  " registers "\n"
    "  expected   " expected "\n"
    "  key        " key "\n"
    "
Commands that prepare:
"
    "  list       " list "\n"
    "  log        " log "\n"
    "  measure    " measure "\n"
    "
Options:
  -V, --version  Print version
  -h, --help     Print help; after a command, its arguments and an example

Copy a log from /sys/kernel/security/tpm0/binary_bios_measurements, and a list from
/sys/kernel/security/ima/binary_runtime_measurements. An input has at most 64 MiB.
Without a command: reads a hexadecimal log from standard input, and prints its PCRs.

Exit status:
  0  success; if there is a verdict, it is `match`
  1  the verdict is `differ`, or `locate` ends in `not located`
  2  the arguments or an input are refused
  3  an input cannot be read, an output cannot be written, or memory ran out
  4  a quote, its key or its signature is refused, or the signature was not verified

`man ima-agent` describes the commands. In share/doc/ima-agent, below the prefix of the
installation, reports.txt explains each line of a report, and errors.txt each error."
);

/// The end of a command's help: an example, the exit statuses that the command has, and its errors that have numbers.
macro_rules! help_end {
    (
        $example:literal;
        0 $done:literal $(1 $differs:literal)? $(4 $unquoted:literal)?;
        $errors:literal
    ) => {
        concat!(
            "Example:\n  ",
            $example,
            "\n\nExit status:\n  0  ",
            $done,
            $("\n  1  ", $differs,)?
            "
  2  the arguments or an input are refused
  3  an input cannot be read, an output cannot be written, or memory ran out",
            $("\n  4  ", $unquoted,)?
            "\n\nNumbered errors (share/doc/ima-agent/errors.txt): ",
            $errors
        )
    };
}

/// The end of the help of the command of this name.
pub(crate) fn help_end_of<'a>(command: &str) -> &'a str {
    match command {
        "verify" => help_end!(
            "ima-agent verify --require sha256:0-10 firmware.log ima.list expected.txt";
            0 "the verdict is `match`: all expected PCRs and the boot aggregate match"
            1 "the verdict is `differ`: one does not match, or --require or --known is not met";
            "log, list, replay, expected, checkpoint, known"
        ),
        "attest" => help_end!(
            "\
ima-agent attest --key ../keys/machine/machine.pub --signature quote.sig \\
      --nonce \"$nonce\" --require sha256:0-10 firmware.log ima.list quote.msg";
            0 "the verdict is `match`: the quote and the boot aggregate match"
            1 "the verdict is `differ`: one does not, log and list share a PCR, or --known fails"
            4 "QUOTE, KEY or SIG is refused, or --key and --signature are missing";
            "key, signature, quote, log, list, replay, expected, checkpoint, known"
        ),
        "replay" => help_end!(
            "ima-agent replay --require sha256:10 ima.list expected.txt";
            0 "the verdict is `match`; without EXPECTED, all output was written"
            1 "the verdict is `differ`: a PCR does not match, or --require or --known is not met";
            "list, replay, expected, known"
        ),
        "locate" => help_end!(
            "ima-agent locate firmware.log ima.list expected.txt";
            0 "every expected value is located; this is not a verdict"
            1 "a value is not located, a required PCR is missing, or EXPECTED has no PCR";
            "log, list, replay, expected"
        ),
        "boot" => help_end!(
            "ima-agent boot --expected expected.txt firmware.log";
            0 "all output was written; with --quote, the verdict of `attest` is `match`"
            1 "with --quote: the verdict is `differ`, and nothing is confirmed"
            4 "QUOTE, KEY or SIG is refused, or --key and --signature are missing";
            "log, expected, key, signature, quote, list, replay"
        ),
        "events" => help_end!(
            "ima-agent events --explain --expected expected.txt firmware.log";
            0 "all output was written; with --quote, the verdict of `attest` is `match`"
            1 "with --quote: the verdict is `differ`, and nothing is confirmed"
            4 "QUOTE, KEY or SIG is refused, or --key and --signature are missing";
            "log, expected, key, signature, quote, list, replay"
        ),
        _ => help_end_of_other(command),
    }
}

// The end of the help of a command that gives no verdict.
fn help_end_of_other<'a>(command: &str) -> &'a str {
    match command {
        "show" => help_end!("ima-agent show ima.list"; 0 "all output was written"; "list"),
        "registers" =>
            help_end!("ima-agent registers firmware.log"; 0 "all output was written"; "log"),
        "expected" => help_end!(
            "ima-agent expected --registers sha256:0-10 pcrread.txt > expected.txt";
            0 "all output was written";
            "expected"
        ),
        "list" => help_end!(
            "ima-agent list ascii_runtime_measurements > ima.list";
            0 "all output was written";
            "text list"
        ),
        "log" => help_end!(
            "ima-agent log binary_bios_measurements > firmware.log";
            0 "all output was written; standard error says how much padding was cut";
            "log form"
        ),
        "key" =>
            help_end!("ima-agent key --print pem ak.pub > ak.pem"; 0 "all output was written"; "key"),
        _ => help_end!(
            "ima-agent measure --print registers firmware.log /bin/sh /bin/ls";
            0 "all output was written";
            "log, book, gather (an internal error)"
        ),
    }
}

/// The help of a selection of PCRs: which these are, with examples; the grammar of selections; and what else is to be said of it.
macro_rules! selection_help {
    ($which:literal $(, $more:literal)?) => {
        concat!(
            $which,
            "\
Items, separated by , or +: [BANK:]PCR,
[BANK:]FIRST-LAST or [BANK:]all. An item without BANK
uses the previous item's"
            $(, $more)?
        )
    };
}

/// The help of the argument of this name, of the command of this name.
pub(crate) fn help_of<'a>(command: &str, id: &str) -> &'a str {
    match id {
        "LOG" => help_of_log(command),
        "LIST" => "Measurement list, binary",
        "EXPECTED" => help_of_expected(command),
        "require" => help_of_require(command),
        "known" => help_of_known(command),
        "hcrtm" => "Start PCR 0 at 4 if LOG has an H-CRTM event",
        "explain" => help_of_explain(command),
        "color" => "When the verdict and states have colours\n",
        "summary" => help_of_summary(command),
        "terminal" => "Print PCRs at reset last, and marked, as on a terminal",
        "partial" => "Print the entries before an error, as --json does",
        "json" => help_of_json(command),
        "quiet" => "Print nothing on standard error",
        "nonce" => "The quote's nonce in hexadecimal, at least 16 bytes",
        "sha1" => "Accept PCRs required only in SHA-1, which has collisions",
        "old-kernel" => help_of_old_kernel(command),
        "key" => "The machine's key: public area, or PEM (`ima-agent key`)",
        "signature" => "Signature of QUOTE, as `tpm2_quote -s` writes it",
        "signature-checked" => "Instead of these: you verified the signature yourself",
        _ => match command {
            "verify" | "attest" => help_of_verdict(command, id),
            "measure" => help_of_measure(id),
            "events" | "boot" => help_of_events(id),
            "list" | "log" => help_of_form(command),
            _ => help_of_other(id),
        },
    }
}

// The help of LOG.
fn help_of_log<'a>(command: &str) -> &'a str {
    match command {
        "events" | "boot" => "Firmware event log, binary, or - for standard input",
        _ => "Firmware event log, binary",
    }
}

// The help of FILE that is converted.
fn help_of_form<'a>(command: &str) -> &'a str {
    match command {
        "list" => "\
The kernel's ascii_runtime_measurements, or - for standard
input",
        _ => "\
Firmware event log in the SHA-1 form of TPM 1.2, or with
padding after its last event, or - for standard input.
With SHA-1 collisions, another log can have the same PCRs",
    }
}

// The help of EXPECTED.
fn help_of_expected<'a>(command: &str) -> &'a str {
    match command {
        "attest" => "Expected PCRs, for rows in the report; they change no verdict",
        "replay" => "Expected PCRs; without them, the list's PCRs are printed",
        _ => "Expected PCRs, as `ima-agent expected` prints them",
    }
}

// The help of --require.
fn help_of_require<'a>(command: &str) -> &'a str {
    match command {
        "attest" | "events" | "boot" => "PCRs that must be quoted, at least 0 to 10: sha256:0-10",
        "replay" => selection_help!(
            "\
PCRs that EXPECTED must have, including PCR 10, such as
sha256:10 or sha256:10+sha1:10. Only with EXPECTED.
"
        ),
        _ => selection_help!(
            "\
PCRs that EXPECTED must have, including PCR 10, such as
sha256:0-10 or sha256:0-7,10+sha1:10.
"
        ),
    }
}

// The help of --known.
fn help_of_known<'a>(command: &str) -> &'a str {
    match command {
        "attest" => "sha256sum file that new entries must match; several times",
        _ => "\
sha256sum file that new entries must match; several
times, only with --require",
    }
}

// The help of --explain.
fn help_of_explain<'a>(command: &str) -> &'a str {
    match command {
        "events" => "\
Print what each event's data says, and which part of it
was measured; not with --data or --json",
        "replay" => "\
After a difference, say what to do, even off a terminal.
Only with EXPECTED",
        _ => "After a difference, say what to do, even off a terminal",
    }
}

// The help of --summary.
fn help_of_summary<'a>(command: &str) -> &'a str {
    match command {
        "replay" => "\
Print one line: verdict, first reason and counts. Only with
EXPECTED",
        _ => "Print one line: verdict, first reason and counts",
    }
}

// The help of --json.
fn help_of_json<'a>(command: &str) -> &'a str {
    match command {
        "measure" => "\
Print JSON, one object per line for each entry, or one
for all PCRs; not with --print binary",
        "events" => "\
Print JSON, one object per line: each event with its
data, and what the data says",
        "boot" | "show" => "Print JSON, one object per line",
        _ => "Print JSON, one object on one line",
    }
}

// The help of what only `verify` and `attest` have.
fn help_of_verdict<'a>(command: &str, id: &str) -> &'a str {
    match (command, id) {
        (_, "QUOTE") => "Message that the TPM signed, as `tpm2_quote -m` writes it",
        ("attest", "prefix") => "Judge the shortest prefix of LIST that QUOTE confirms",
        (_, "prefix") => "Judge the shortest prefix of LIST that matches",
        (_, "save") => "If the verdict is `match`, write a checkpoint to FILE",
        ("attest", _) => "LIST continues your own checkpoint of this boot in FILE",
        _ => "LIST continues your own checkpoint in FILE",
    }
}

// The help of the arguments of `measure`.
fn help_of_measure<'a>(id: &str) -> &'a str {
    match id {
        "alg" => "Hash algorithm for the files' digests\n",
        "template" => "Template of the entries\n",
        "workers" => "\
Number of threads that hash files, 1 to 8. Only 1 keeps
the order of FILE, so that each run prints the same list
",
        "limit" => "\
Maximum number of records, 1 to 4294967295: one for each
FILE, and one for the boot aggregate
",
        "print" => "Print the list as text or as IMA's binary, or the PCRs\n",
        "files-from" => "File that names more files to measure, one per line",
        "null" => "Names in NAMES end with NUL, as from `find -print0`",
        _ => "Files to measure, named in the list as given here",
    }
}

// The help of the arguments of `events` and `boot`.
fn help_of_events<'a>(id: &str) -> &'a str {
    match id {
        "data" => "Print each event's data in hexadecimal",
        "expected" => "Expected PCRs; those that match confirm what LOG says",
        "quote" => "\
Message that the TPM signed, instead of EXPECTED; needs
--list, --nonce and --require",
        "list" => "Binary measurement list that was quoted with LOG",
        _ => "Firmware event log of an earlier boot, to compare with",
    }
}

// The help of the arguments of `expected` and `key`.
fn help_of_other<'a>(id: &str) -> &'a str {
    match id {
        "registers" => selection_help!(
            "\
Only these PCRs, such as 0-10 or sha256:0-7,10+sha1:10.
",
            ";\na first item without BANK means every bank"
        ),
        "PCRREAD" => "\
Output of tpm2_pcrread or tpm2_checkquote, or - for
standard input; it does not show that a quote is valid",
        "endorsement" => "Require an endorsement key, not an attestation key",
        "print" => "All (name, type, scheme, PEM), or only the name or PEM\n",
        _ => "\
Public area, as `tpm2_createak -u` writes it or without
its size field, or - for standard input",
    }
}

// The help of `--old-kernel`.
fn help_of_old_kernel<'a>(command: &str) -> &'a str {
    match command {
        "verify" => "\
Accept a boot aggregate over PCRs 0 to 7 (Linux < 5.8);
only with --require",
        _ => "Accept a boot aggregate over PCRs 0 to 7 (Linux < 5.8)",
    }
}
