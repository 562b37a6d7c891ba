//! The commands and their arguments, as rows of a table, and as `clap` takes them.

ghost use Rattle.std.specs.Prelude.{◌≡◌, IfOk};
ghost use Rattle.std.specs.List.{fold};
ghost use Rattle.clap.specs.Words.{app_of, new_app};
ghost use Rattle.command_line.specs.parts.Commands.{IsArgument, IsCommand, app_of_row, parser_of_values, rule_of_form, with_row};
ghost use Rattle.command_line.specs.declared.command_table.KnownNames.{KnownNames};
ghost use Rattle.command_line.specs.Arguments.{Parsers, commands, program_app};

use crate::help_texts::{PROGRAM_HELP, PROGRAM_USAGE, help_end_of, help_of, with_abouts};
use clap::builder::ValueParser;
use clap::{Arg, ArgAction, Command};
use std::alloc::{AllocError, Global};

/// A command. The help of its arguments and the end of its help are no fields (`help_of` and `help_end_of` have them): a static that is
/// borrowed stands in the borrow checker's part of a proof with all its texts, and these are long.
pub(crate) struct CommandRow<'a> {
    /// Its name, which is the first argument of the command line.
    pub(crate) name: &'a str,
    /// What it does.
    pub(crate) about: &'a str,
    /// Its arguments, in the order of the help.
    pub(crate) arguments: &'a [ArgumentRow<'a>],
}

/// An argument of a command.
pub(crate) struct ArgumentRow<'a> {
    /// Its name: that of an option after the two hyphens, or what the help calls an argument that is no option.
    pub(crate) id: &'a str,
    /// How it is given.
    pub(crate) form: ArgumentForm<'a>,
}

/// How an argument is given. The first text of an option with a value is what the help calls the value.
pub(crate) enum ArgumentForm<'a> {
    /// By one value, which has to be there.
    Required,
    /// By one value, or not at all.
    Omittable,
    /// By any number of values.
    Repeated,
    /// As a flag.
    Flag,
    /// As a flag that has this letter, too.
    ShortFlag(char),
    /// As a flag, and only beside this argument.
    FlagBeside(&'a str),
    /// As a flag that has this letter, too, and only beside this option.
    ShortFlagBeside(char, &'a str),
    /// As an option with a value, which has to be there.
    RequiredOption(&'a str),
    /// As an option with a value, or not at all.
    Optional(&'a str),
    /// As an option with a value, or not at all, and only beside this argument, which is the second text.
    OptionalBeside(&'a str, &'a str),
    /// As an option with a value, any number of times.
    Several(&'a str),
    /// As an option with one of these values; without it, the value is the second text.
    Defaulted(&'a str, &'a str, Values<'a>),
}

/// The values that an option takes.
#[derive(Clone, Copy)]
pub(crate) enum Values<'a> {
    /// The names of the algorithms.
    Algs,
    /// The names of the templates.
    Templates,
    /// Those that this parser of `clap` takes.
    Parsed(ValueParser<'a>),
}

/// The greatest number of workers.
pub(crate) const MOST_WORKERS: u64 = 8;

/// The greatest number of records.
pub(crate) const MOST_RECORDS: u64 = u32::MAX as u64;

/// The row of an argument: its name, and how it is given.
macro_rules! row {
    ($id:literal; $form:expr) => {
        ArgumentRow {
            id: $id,
            form: $form,
        }
    };
}

/// A firmware event log.
const LOG: ArgumentRow<'static> = row!("LOG"; ArgumentForm::Required);

/// A measurement list.
const LIST: ArgumentRow<'static> = row!("LIST"; ArgumentForm::Required);

/// A file of another form.
const FILE: ArgumentRow<'static> = row!("FILE"; ArgumentForm::Required);

/// Expected PCRs.
const EXPECTED: ArgumentRow<'static> = row!("EXPECTED"; ArgumentForm::Required);

/// Expected PCRs, or none.
const EXPECTED_IF_GIVEN: ArgumentRow<'static> = row!("EXPECTED"; ArgumentForm::Omittable);

/// Expected PCRs, which say what part of a log is confirmed.
const CONFIRMED: ArgumentRow<'static> = row!("expected"; ArgumentForm::Optional("EXPECTED"));

/// A quote, which says what part of a log is confirmed, the list that it also covers, and its nonce.
const QUOTE: ArgumentRow<'static> = row!("quote"; ArgumentForm::Optional("QUOTE"));

const QUOTED_LIST: ArgumentRow<'static> = row!("list"; ArgumentForm::Optional("LIST"));

const NONCE: ArgumentRow<'static> = row!("nonce"; ArgumentForm::Optional("HEX"));

/// Whether PCRs that are required only in the SHA-1 bank are accepted.
const SHA1: ArgumentRow<'static> = row!("sha1"; ArgumentForm::Flag);

/// Whether the boot aggregate of an older kernel is taken.
const OLD_KERNEL: ArgumentRow<'static> = row!("old-kernel"; ArgumentForm::Flag);

/// The key that signed the quote, and its signature.
const KEY: ArgumentRow<'static> = row!("key"; ArgumentForm::Optional("KEY"));

const SIGNATURE: ArgumentRow<'static> = row!("signature"; ArgumentForm::Optional("SIG"));

/// Whether the caller has verified the quote's signature.
const SIGNATURE_CHECKED: ArgumentRow<'static> = row!("signature-checked"; ArgumentForm::Flag);

/// PCRs that have to be expected, or quoted.
const REQUIRE: ArgumentRow<'static> = row!("require"; ArgumentForm::Optional("SELECTION"));

/// The files that are known.
const KNOWN: ArgumentRow<'static> = row!("known"; ArgumentForm::Several("FILE"));

/// Whether the verdict is on the shortest prefix that matches.
const PREFIX: ArgumentRow<'static> = row!("prefix"; ArgumentForm::Flag);

/// Where the checkpoint is saved.
const SAVE: ArgumentRow<'static> = row!("save"; ArgumentForm::Optional("FILE"));

/// The checkpoint to continue from.
const RESUME: ArgumentRow<'static> = row!("resume"; ArgumentForm::Optional("FILE"));

/// Whether standard error says what to do next even if it is no terminal.
const EXPLAIN: ArgumentRow<'static> = row!("explain"; ArgumentForm::Flag);

/// Whether one line is printed in place of the report.
const SUMMARY: ArgumentRow<'static> = row!("summary"; ArgumentForm::Flag);

/// Whether the report is printed as on a terminal.
const TERMINAL: ArgumentRow<'static> = row!("terminal"; ArgumentForm::Flag);

/// Whether the H-CRTM's event says where the machine started.
const HCRTM: ArgumentRow<'static> = row!("hcrtm"; ArgumentForm::Flag);

/// When the result is coloured.
const COLOR: ArgumentRow<'static> =
    row!("color"; ArgumentForm::Defaulted("WHEN", "auto", Values::Parsed(ValueParser::Names(&["auto", "always", "never"]))));

/// Whether the result is printed as JSON.
const JSON: ArgumentRow<'static> = row!("json"; ArgumentForm::Flag);

/// Whether nothing is said on standard error.
const QUIET: ArgumentRow<'static> = row!("quiet"; ArgumentForm::ShortFlag('q'));

// The commands, in the order of the help. `table` of specs/Arguments.antt has the same.
static COMMANDS: [CommandRow; 13] = [
    CommandRow {
        name: "verify",
        about: with_abouts!(; verify),
        arguments: &[
            REQUIRE, OLD_KERNEL, KNOWN, PREFIX, SAVE, RESUME, HCRTM, EXPLAIN, SUMMARY, TERMINAL,
            COLOR, JSON, QUIET, LOG, LIST, EXPECTED,
        ],
    },
    CommandRow {
        name: "attest",
        about: with_abouts!(; attest),
        arguments: &[
            row!("nonce"; ArgumentForm::RequiredOption("HEX")),
            row!("require"; ArgumentForm::RequiredOption("SELECTION")),
            KNOWN,
            SHA1,
            OLD_KERNEL,
            KEY,
            SIGNATURE,
            SIGNATURE_CHECKED,
            PREFIX,
            SAVE,
            RESUME,
            HCRTM,
            EXPLAIN,
            SUMMARY,
            TERMINAL,
            COLOR,
            JSON,
            QUIET,
            LOG,
            LIST,
            row!("QUOTE"; ArgumentForm::Required),
            EXPECTED_IF_GIVEN,
        ],
    },
    CommandRow {
        name: "replay",
        about: with_abouts!(; replay),
        arguments: &[
            row!("require"; ArgumentForm::OptionalBeside("SELECTION", "EXPECTED")),
            KNOWN,
            row!("explain"; ArgumentForm::FlagBeside("EXPECTED")),
            row!("summary"; ArgumentForm::FlagBeside("EXPECTED")),
            TERMINAL,
            COLOR,
            JSON,
            QUIET,
            LIST,
            EXPECTED_IF_GIVEN,
        ],
    },
    CommandRow {
        name: "locate",
        about: with_abouts!(; locate),
        arguments: &[
            REQUIRE, HCRTM, EXPLAIN, COLOR, JSON, QUIET, LOG, LIST, EXPECTED,
        ],
    },
    CommandRow {
        name: "boot",
        about: with_abouts!(; boot),
        arguments: &[
            CONFIRMED,
            QUOTE,
            QUOTED_LIST,
            NONCE,
            REQUIRE,
            SHA1,
            OLD_KERNEL,
            KEY,
            SIGNATURE,
            SIGNATURE_CHECKED,
            row!("before"; ArgumentForm::Optional("OLD_LOG")),
            HCRTM,
            JSON,
            QUIET,
            LOG,
        ],
    },
    CommandRow {
        name: "events",
        about: with_abouts!(; events),
        arguments: &[
            row!("data"; ArgumentForm::Flag),
            row!("explain"; ArgumentForm::Flag),
            CONFIRMED,
            QUOTE,
            QUOTED_LIST,
            NONCE,
            REQUIRE,
            SHA1,
            OLD_KERNEL,
            KEY,
            SIGNATURE,
            SIGNATURE_CHECKED,
            HCRTM,
            JSON,
            QUIET,
            LOG,
        ],
    },
    CommandRow {
        name: "show",
        about: with_abouts!(; show),
        arguments: &[row!("partial"; ArgumentForm::Flag), JSON, QUIET, LIST],
    },
    CommandRow {
        name: "registers",
        about: with_abouts!(; registers),
        arguments: &[HCRTM, JSON, QUIET, LOG],
    },
    CommandRow {
        name: "expected",
        about: with_abouts!(; expected),
        arguments: &[
            row!("registers"; ArgumentForm::Optional("SELECTION")),
            JSON,
            QUIET,
            row!("PCRREAD"; ArgumentForm::Required),
        ],
    },
    CommandRow {
        name: "key",
        about: with_abouts!(; key),
        arguments: &[
            row!("endorsement"; ArgumentForm::Flag),
            row!("print"; ArgumentForm::Defaulted("PART", "all", Values::Parsed(ValueParser::Names(&["all", "name", "pem"])))),
            JSON,
            QUIET,
            FILE,
        ],
    },
    CommandRow {
        name: "list",
        about: with_abouts!(; list),
        arguments: &[QUIET, FILE],
    },
    CommandRow {
        name: "log",
        about: with_abouts!(; log),
        arguments: &[QUIET, FILE],
    },
    CommandRow {
        name: "measure",
        about: with_abouts!(; measure),
        arguments: &[
            row!("alg"; ArgumentForm::Defaulted("HASH", "sha256", Values::Algs)),
            row!("template"; ArgumentForm::Defaulted("TEMPLATE", "ima-ng", Values::Templates)),
            row!("workers"; ArgumentForm::Defaulted("THREADS", "2", Values::Parsed(ValueParser::Unsigned(1, MOST_WORKERS)))),
            row!("limit"; ArgumentForm::Defaulted("RECORDS", "100000", Values::Parsed(ValueParser::Unsigned(1, MOST_RECORDS)))),
            row!("print"; ArgumentForm::Defaulted("OUTPUT", "ascii", Values::Parsed(ValueParser::Names(&["ascii", "binary", "registers"])))),
            row!("files-from"; ArgumentForm::Optional("NAMES")),
            row!("null"; ArgumentForm::ShortFlagBeside('0', "files-from")),
            HCRTM,
            JSON,
            QUIET,
            LOG,
            row!("FILE"; ArgumentForm::Repeated),
        ],
    },
];

/// The names that options take as values. They come from the crates below, so the table has no room for them.
#[derive(Clone, Copy)]
pub(crate) struct KnownNames<'a> {
    /// The algorithms.
    pub(crate) algs: &'a [&'a str],
    /// The templates.
    pub(crate) templates: &'a [&'a str],
}

type Built<'a> = Result<Command<'a>, AllocError>;

// The program with all commands.
#[tactic(auto, using(crate::proofs::CommandLemmas::one_row_more, crate::proofs::CommandLemmas::one_command_more))]
pub(crate) fn all_commands<'a>(alloc: Global, known: KnownNames<'a>) -> Built<'a>
    ensures { IfOk result (λ program. (parsers : Parsers) × IsCommand (commands parsers) program) }
{
    let rows = rows();
    let mut program = program(alloc)?;
    for row in rows {
        program = program.subcommand(command(alloc, row, known)?)?;
    }
    Ok(program)
}

// The rows of all commands. It is a function of its own, since a static that is borrowed makes a proof expensive.
fn rows<'a>() -> &'a [CommandRow<'a>]
    ensures { (known : KnownNames) → (parsers : Parsers) × (fold (with_row known) program_app result.now ≡ commands parsers) }
{
    &COMMANDS
}

// The program, without its commands. `read_words` looks for `--version` and `-V` itself.
fn program<'a>(alloc: Global) -> Built<'a>
    ensures { IfOk result (IsCommand program_app) }
{
    let version = Arg::new(alloc, "version")
        .short('V')
        .long("version")
        .action(ArgAction::Version);
    Command::new(alloc, "ima-agent")
        .override_help(PROGRAM_HELP)
        .override_usage(PROGRAM_USAGE)
        .no_binary_name(true)
        .disable_help_subcommand(true)
        .subcommand_required(true)
        .bin_name("ima-agent")?
        .arg(version)
}

// The command of this row.
#[tactic(auto, using(crate::proofs::CommandLemmas::one_row_more, crate::proofs::CommandLemmas::one_rule_more))]
fn command<'a>(alloc: Global, row: &'a CommandRow<'a>, known: KnownNames<'a>) -> Built<'a>
    ensures { IfOk result (IsCommand (app_of_row known.entry row.now)) }
{
    let mut command = Command::new(alloc, row.name)
        .about(row.about)
        .after_help(help_end_of(row.name));
    for argument_row in row.arguments {
        let help = help_of(row.name, argument_row.id);
        command = command.arg(argument(alloc, argument_row, help, known)?)?;
    }
    Ok(command)
}

// The argument of this row, with this help.
fn argument<'a>(
    alloc: Global,
    row: &ArgumentRow<'a>,
    help: &'a str,
    known: KnownNames<'a>,
) -> Result<Arg<'a>, AllocError>
    ensures { IfOk result (IsArgument (rule_of_form known.entry row.now.id.now row.now.form)) }
{
    let arg = Arg::new(alloc, row.id).help(help);
    match row.form {
        ArgumentForm::Required => Ok(arg.required(true)),
        ArgumentForm::Omittable => Ok(arg),
        ArgumentForm::Repeated => Ok(arg.action(ArgAction::Append).num_args(0..)),
        ArgumentForm::Flag => Ok(arg.long(row.id).action(ArgAction::SetTrue)),
        ArgumentForm::ShortFlag(letter) => Ok(
            arg.short(letter).long(row.id).action(ArgAction::SetTrue),
        ),
        ArgumentForm::FlagBeside(argument) => arg
            .long(row.id)
            .action(ArgAction::SetTrue)
            .requires_arg(argument),
        ArgumentForm::ShortFlagBeside(letter, option) => arg
            .short(letter)
            .long(row.id)
            .action(ArgAction::SetTrue)
            .requires_arg(option),
        ArgumentForm::RequiredOption(value) => Ok(
            arg.long(row.id).value_name(value).required(true),
        ),
        ArgumentForm::Optional(value) => Ok(arg.long(row.id).value_name(value)),
        ArgumentForm::OptionalBeside(value, argument) => {
            arg.long(row.id).value_name(value).requires_arg(argument)
        }
        ArgumentForm::Several(value) => Ok(
            arg.long(row.id).value_name(value).action(ArgAction::Append),
        ),
        ArgumentForm::Defaulted(value, default, values) => Ok(
            arg.long(row.id)
                .value_name(value)
                .value_parser(parser_of(values, known))
                .default_value(default),
        ),
    }
}

// clap's parser of these values.
fn parser_of<'a>(values: Values<'a>, known: KnownNames<'a>) -> ValueParser<'a>
    ensures { result ≡ parser_of_values known.entry values.entry }
{
    match values {
        Values::Algs => ValueParser::Names(known.algs),
        Values::Templates => ValueParser::Names(known.templates),
        Values::Parsed(parser) => parser,
    }
}
