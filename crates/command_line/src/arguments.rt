//! Reads the command line.

ghost use Rattle.std.specs.Prelude.{◌≡◌, ◌<◌, ◌==◌, ◌||◌, [], None, Ok, codes, drop, find, length, option_map, position, string_bytes, IfOk, IfSome};
ghost use Rattle.clap.specs.Values.{kind_of};
ghost use Rattle.clap.specs.Words.{Text as Words, found_of, rows_of, subcommand_rows_of};
ghost use Rattle.std.specs.Vec.Iter.{into_iter_items};
ghost use Rattle.agent_plans.specs.Plans.{HasLook, IsWithinRanges, IsWithin, NamesKnown, TakesKnown, look_of};
ghost use Rattle.command_line.specs.Arguments.{BeginsWithVersion, HasHelpWord, HasComparison, HasQuery, HasValues, HasValuesIn, IsRequestedBy, IsHelp, IsPlanOrHelp, IsShownAs, asks_first, asks_help, asks_json, asks_quiet, asks_version, begins_with, choice_asked, choice_at, choice_by, choice_next, choice_of, color_choice, ends_options, help_options, is_color_word, is_json_word, is_quiet_word, may_color, reports};
ghost use Rattle.std.specs.List.{list_any};
ghost use Rattle.cells.specs.declared.writer.Form.TheVariants.{Text};
ghost use Rattle.agent_plans.specs.declared.plan.Plan.TheVariants as plans;
ghost use Rattle.agent_plans.specs.declared.plan.Query.TheVariants as queries;
ghost use Rattle.agent_plans.specs.declared.plan.Task.TheVariants.{Version};

use crate::command_table::{KnownNames, all_commands};
use crate::values::{
    attest_of, boot_of, conversion_of, events_of, flag_of, key_of, known_of, log_of, look_for,
    look_of, measurement_of, name_of, old_kernel_of, text_if_given,
};
use agent_plans::{
    ArgumentsFault, ComparisonKind, ComparisonOptions, Conversion, Form, Look, Plan, Query, Scope,
    Task,
};
use clap::error::ErrorKind;
use clap::{ArgMatches, Error};
use hex::FromHexError;
use ima_list::Template;
use pcr_banks::Alg;
use std::alloc::{AllocError, Global};
use std::env::Args;
use terminal_colors::ColorChoice;

// What is wrong with `--print binary` beside `--json`.
const NO_JSON_OF_BYTES: &str =
    "error: the argument '--print binary' cannot be used with '--json'\n";

// What is wrong with `--summary` and `--terminal` beside `--json` and each other.
const SUMMARY_AS_JSON: &str = "error: the argument '--summary' cannot be used with '--json'\n";

const TERMINAL_AS_JSON: &str = "error: the argument '--terminal' cannot be used with '--json'\n";

const SUMMARY_BESIDE_TERMINAL: &str =
    "error: the argument '--summary' cannot be used with '--terminal'\n";

// What is wrong with `--known` where no PCRs are required.
const KNOWN_WITHOUT_REQUIRED: &str =
    "error: the argument '--known <FILE>' cannot be used without '--require', such as --require sha256:0-10\n";

// What is wrong with `--old-kernel` there.
const OLD_KERNEL_WITHOUT_REQUIRED: &str =
    "error: the argument '--old-kernel' cannot be used without '--require', such as --require sha256:0-10\n";

// What is wrong with `--explain` beside `--data`, and beside `--json`.
const EXPLAINED_AS_BYTES: &str = "error: the argument '--explain' cannot be used with '--data'\n";

const EXPLAINED_AS_JSON: &str = "error: the argument '--explain' cannot be used with '--json'\n";

// What is wrong with `--expected` and `--quote` where what data says is not shown.
const EXPECTED_OF_NOTHING: &str =
    "error: the argument '--expected <EXPECTED>' cannot be used without '--explain' or '--json'\n";

const QUOTE_OF_NOTHING: &str =
    "error: the argument '--quote <QUOTE>' cannot be used without '--explain' or '--json'\n";

// What is wrong with `--expected` beside `--quote`.
const EXPECTED_BESIDE_QUOTE: &str =
    "error: the argument '--expected <EXPECTED>' cannot be used with '--quote <QUOTE>'\n";

// What is wrong with `-` twice, and as the log of an earlier boot.
const STANDARD_INPUT_TWICE: &str =
    "error: '<LOG>' and '--expected <EXPECTED>' cannot both be '-'\n";

const STANDARD_INPUT_EARLIER: &str =
    "error: invalid value '-' for '--before <OLD_LOG>': it must be a file\n";

// What is wrong with `--quote` without what is asked of a quote.
const QUOTE_WITHOUT_CRITERIA: &str =
    "error: the argument '--quote <QUOTE>' cannot be used without '--list', '--nonce' and '--require'\n";

// What is wrong with that without `--quote`.
const LIST_WITHOUT_QUOTE: &str =
    "error: the argument '--list <LIST>' cannot be used without '--quote'\n";

const NONCE_WITHOUT_QUOTE: &str =
    "error: the argument '--nonce <HEX>' cannot be used without '--quote'\n";

const REQUIRED_WITHOUT_QUOTE: &str =
    "error: the argument '--require <SELECTION>' cannot be used without '--quote'\n";

const SHA1_WITHOUT_QUOTE: &str = "error: the argument '--sha1' cannot be used without '--quote'\n";

const OLD_KERNEL_WITHOUT_QUOTE: &str =
    "error: the argument '--old-kernel' cannot be used without '--quote'\n";

const KEY_WITHOUT_QUOTE: &str =
    "error: the argument '--key <KEY>' cannot be used without '--quote'\n";

const SIGNATURE_WITHOUT_QUOTE: &str =
    "error: the argument '--signature <SIG>' cannot be used without '--quote'\n";

const CHECKED_WITHOUT_QUOTE: &str =
    "error: the argument '--signature-checked' cannot be used without '--quote'\n";

// What is wrong with a key without a signature, or a signature without a key, and with a key beside `--signature-checked`.
const KEY_WITHOUT_SIGNATURE: &str =
    "error: the argument '--key <KEY>' cannot be used without '--signature'\n";

const SIGNATURE_WITHOUT_KEY: &str =
    "error: the argument '--signature <SIG>' cannot be used without '--key'\n";

const KEY_BESIDE_CHECKED: &str =
    "error: the argument '--key <KEY>' cannot be used with '--signature-checked'\n";

/// Reads the program's arguments, without its name. Without arguments the plan is `Registers`: the log on standard input. After
/// `--version` or `-V` nothing is looked at. Otherwise the first argument is the command, and the rest are its options and names, by
/// `clap`'s own definition.
///
/// Fails with `Usage` if the arguments are not those of a command, and with `Memory` if memory runs out.
pub fn read_words(alloc: Global, arguments: &[String]) -> Result<Plan, ArgumentsFault>
    // The first argument is the command, the arguments match its options and names, and these are within their ranges; or they are not
    // taken, and one of them requests help; or the first requests the version.
    ensures request { IfOk result (λ plan. IsRequestedBy arguments.now plan × IsWithinRanges plan) }
    // Without arguments the plan is `Registers`, whatever memory there is.
    ensures none { arguments.now ≡ [] → result ≡ Ok plans.Registers }
    // After `--version` or `-V` the plan is to show the version, whatever follows it.
    ensures version { BeginsWithVersion arguments.now → result ≡ Ok (plans.Task Version Text) }
{
    match arguments.first() {
        None => Ok(Plan::Registers),
        Some(word) if asks_version(word) => Ok(Plan::Task(Task::Version, Form::Text)),
        Some(command) => plan_in(alloc, arguments, command),
    }
}

/// What is wrong with arguments that are refused: lines for a person, which may have any bytes of the arguments. If `clap` refuses them, this is
/// its message. Otherwise options that do not go together, or a nonce that is not hexadecimal, are named. `None` if nothing is wrong. For
/// `--help` and `--version` it is what `clap` shows.
pub fn refusal_of(alloc: Global, arguments: &[String]) -> Result<Option<String>, AllocError>
    // Without arguments nothing is refused.
    ensures none { arguments.now ≡ [] → result ≡ Ok None }
{
    if arguments.is_empty() {
        return Ok(None);
    }
    let known = KnownNames {
        algs: &Alg::ALL.map(Alg::name),
        templates: &Template::ALL.map(Template::name),
    };
    match all_commands(alloc, known)?.try_get_matches_from(arguments) {
        Ok(matches) => match wrong_pair(&matches) {
            Some(text) => Ok(Some(String::from_str(alloc, text)?)),
            None => nonce_refusal(alloc, &matches),
        },
        Err(error) => refusal_text(alloc, &error),
    }
}

// What is wrong with a nonce that is not hexadecimal, which `clap` takes.
fn nonce_refusal(alloc: Global, matches: &ArgMatches) -> Result<Option<String>, AllocError> {
    let Some(nonce) = nonce_in(matches) else {
        return Ok(None);
    };
    match hex::decode(alloc, nonce) {
        Ok(_) => Ok(None),
        Err(FromHexError::OutOfMemory) => Err(AllocError),
        Err(_) => Ok(Some(format!(in alloc;
            "error: invalid value '{nonce}' for '--nonce <HEX>': it must be hexadecimal, two digits per byte\n"
        )?)),
    }
}

// The nonce that is given, if there is one.
fn nonce_in<'a>(matches: &ArgMatches<'a>) -> Option<&'a str> {
    for command in ["attest", "events", "boot"] {
        if let Some(matches) = matches.subcommand_matches(command) {
            return matches.get_str("nonce");
        }
    }
    None
}

// What is wrong with options or names that do not go together, and which `clap` takes.
fn wrong_pair(matches: &ArgMatches) -> Option<&'static str> {
    if let Some(matches) = matches.subcommand_matches("measure") {
        return wrong_pair_of_measure(matches);
    }
    if let Some(matches) = matches.subcommand_matches("events") {
        return wrong_pair_of_events(matches).or(wrong_standard_input(matches));
    }
    if let Some(matches) = matches.subcommand_matches("boot") {
        return wrong_pair_of_quote(matches).or(wrong_standard_input(matches));
    }
    if let Some(matches) = matches.subcommand_matches("attest") {
        return wrong_pair_of_signing(matches).or(wrong_pair_of_look(matches));
    }
    if let Some(matches) = matches.subcommand_matches("verify") {
        return wrong_pair_of_known(matches)
            .or(wrong_pair_of_old_kernel(matches))
            .or(wrong_pair_of_look(matches));
    }
    let matches = matches.subcommand_matches("replay")?;
    wrong_pair_of_known(matches).or(wrong_pair_of_look(matches))
}

// Whether a verdict is to be shown in two ways.
fn wrong_pair_of_look(matches: &ArgMatches) -> Option<&'static str> {
    let is_summary = is_set(matches, "summary");
    let is_terminal = is_set(matches, "terminal");
    let is_json = is_set(matches, "json");
    if is_summary && is_json {
        Some(SUMMARY_AS_JSON)
    } else if is_terminal && is_json {
        Some(TERMINAL_AS_JSON)
    } else if is_summary && is_terminal {
        Some(SUMMARY_BESIDE_TERMINAL)
    } else {
        None
    }
}

// Whether an older kernel's boot aggregate is to be taken where no PCRs are required.
fn wrong_pair_of_old_kernel(matches: &ArgMatches) -> Option<&'static str> {
    (is_set(matches, "old-kernel") && !matches.contains_id("require")).then_some(
        OLD_KERNEL_WITHOUT_REQUIRED,
    )
}

// Whether known files are named where no PCRs are required.
fn wrong_pair_of_known(matches: &ArgMatches) -> Option<&'static str> {
    (matches.contains_id("known") && !matches.contains_id("require")).then_some(
        KNOWN_WITHOUT_REQUIRED,
    )
}

// Whether a measurement is to print the binary list as JSON.
fn wrong_pair_of_measure(matches: &ArgMatches) -> Option<&'static str> {
    (matches.get_str("print") == Some("binary") && is_set(matches, "json")).then_some(
        NO_JSON_OF_BYTES,
    )
}

// Whether events are to be explained in a form that has no room for it, or expected PCRs or a quote are given to one; or what is wrong
// with the quote.
fn wrong_pair_of_events(matches: &ArgMatches) -> Option<&'static str> {
    let explains = is_set(matches, "explain");
    if explains && is_set(matches, "data") {
        Some(EXPLAINED_AS_BYTES)
    } else if explains && is_set(matches, "json") {
        Some(EXPLAINED_AS_JSON)
    } else if explains || is_set(matches, "json") {
        wrong_pair_of_quote(matches)
    } else if matches.contains_id("expected") {
        Some(EXPECTED_OF_NOTHING)
    } else if matches.contains_id("quote") {
        Some(QUOTE_OF_NOTHING)
    } else {
        without_quote(matches)
    }
}

// Whether log and expected PCRs are both standard input, or the log of an earlier boot is.
fn wrong_standard_input(matches: &ArgMatches) -> Option<&'static str> {
    if is_dash(matches, "LOG") && is_dash(matches, "expected") {
        Some(STANDARD_INPUT_TWICE)
    } else if is_dash(matches, "before") {
        Some(STANDARD_INPUT_EARLIER)
    } else {
        None
    }
}

// Whether a quote is given beside expected PCRs, or lacks something that is asked of it, or this is given without one.
fn wrong_pair_of_quote(matches: &ArgMatches) -> Option<&'static str> {
    if !matches.contains_id("quote") {
        without_quote(matches)
    } else if matches.contains_id("expected") {
        Some(EXPECTED_BESIDE_QUOTE)
    } else if !(matches.contains_id("list")
        && matches.contains_id("nonce")
        && matches.contains_id("require"))
    {
        Some(QUOTE_WITHOUT_CRITERIA)
    } else {
        wrong_pair_of_signing(matches)
    }
}

// Whether a key or a signature is given without the other, or beside `--signature-checked`.
fn wrong_pair_of_signing(matches: &ArgMatches) -> Option<&'static str> {
    let is_checked = is_set(matches, "signature-checked");
    match (matches.contains_id("key"), matches.contains_id("signature")) {
        (false, false) => None,
        (false, true) => Some(SIGNATURE_WITHOUT_KEY),
        (true, false) => Some(KEY_WITHOUT_SIGNATURE),
        (true, true) => is_checked.then_some(KEY_BESIDE_CHECKED),
    }
}

// What there is without a quote that only goes with one.
fn without_quote(matches: &ArgMatches) -> Option<&'static str> {
    if matches.contains_id("list") {
        Some(LIST_WITHOUT_QUOTE)
    } else if matches.contains_id("nonce") {
        Some(NONCE_WITHOUT_QUOTE)
    } else if matches.contains_id("require") {
        Some(REQUIRED_WITHOUT_QUOTE)
    } else if is_set(matches, "sha1") {
        Some(SHA1_WITHOUT_QUOTE)
    } else if is_set(matches, "old-kernel") {
        Some(OLD_KERNEL_WITHOUT_QUOTE)
    } else if matches.contains_id("key") {
        Some(KEY_WITHOUT_QUOTE)
    } else if matches.contains_id("signature") {
        Some(SIGNATURE_WITHOUT_QUOTE)
    } else if is_set(matches, "signature-checked") {
        Some(CHECKED_WITHOUT_QUOTE)
    } else {
        None
    }
}

// Whether this argument is standard input.
fn is_dash(matches: &ArgMatches, id: &str) -> bool {
    matches.get_str(id) == Some("-")
}

// Whether this flag is present.
fn is_set(matches: &ArgMatches, id: &str) -> bool {
    matches.get_str(id) == Some("true")
}

// The text of an error of clap's, unless memory ran out.
fn refusal_text(alloc: Global, error: &Error) -> Result<Option<String>, AllocError> {
    match error.kind() {
        ErrorKind::OutOfMemory => Err(AllocError),
        _ => Ok(Some(format!(in alloc; "{error}")?)),
    }
}

/// The arguments after the first, which is the program's name.
pub fn arguments_after_name(alloc: Global, arguments: Args) -> Result<Vec<String>, AllocError>
    ensures { IfOk result (λ rest. rest.items ≡ drop 1 (into_iter_items arguments)) }
{
    arguments.skip(1).collect(alloc)
}

// The plan of the command of this name, or the help that the arguments request.
fn plan_in(alloc: Global, arguments: &[String], command: &str) -> Result<Plan, ArgumentsFault>
    ensures { IfOk result (λ plan. IsPlanOrHelp arguments.now command.now plan × IsWithinRanges plan) }
{
    let known = KnownNames {
        algs: &Alg::ALL.map(Alg::name),
        templates: &Template::ALL.map(Template::name),
    };
    match all_commands(alloc, known)?.try_get_matches_from(arguments) {
        Ok(matches) => Ok(Plan::of(requested_of(alloc, command, &matches)?)),
        Err(error) => help_of(alloc, arguments, &error),
    }
}

// The task of the command, and its form, from clap's matches.
fn requested_of(
    alloc: Global,
    command: &str,
    matches: &ArgMatches,
) -> Result<(Task, Form), ArgumentsFault>
    ensures { IfOk result (λ request. HasValuesIn command.now (subcommand_rows_of matches.now) request × IsWithin request.1 request.0) }
{
    let Some(matches) = matches.subcommand_matches(command) else {
        return Err(ArgumentsFault::Usage);
    };
    let form = form_of(command, matches)?;
    Ok((task_of(alloc, command, matches, form)?, form))
}

// The form in which the command of this name shows its result. A command that converts has no `--json`.
fn form_of(command: &str, matches: &ArgMatches) -> Result<Form, ArgumentsFault>
    ensures { IfOk result (IsShownAs command.now (rows_of (found_of matches.now))) }
{
    match command {
        "list" => Ok(Form::Text),
        "log" => Ok(Form::Text),
        _ => flag_of(matches, "json", Form::Text, Form::Json),
    }
}

// The task of the command of this name, whose result is shown in this form.
fn task_of(
    alloc: Global,
    command: &str,
    matches: &ArgMatches,
    form: Form,
) -> Result<Task, ArgumentsFault>
    ensures { IfOk result (λ task. HasValues command.now (rows_of (found_of matches.now)) task × IsWithin form task) }
{
    match command {
        "measure" => Ok(Task::Measure(measurement_of(alloc, matches, form)?)),
        "events" => events_of(alloc, matches, form),
        "boot" => boot_of(alloc, matches),
        "list" => conversion_of(alloc, matches, Conversion::List, form),
        "log" => conversion_of(alloc, matches, Conversion::Log, form),
        "show" => Ok(Task::Entries {
            list: name_of(alloc, matches, "LIST")?,
            partial: flag_of(matches, "partial", false, true)?,
        }),
        _ => Ok(Task::Answer(question_of(alloc, command, matches, form)?)),
    }
}

// What the command of this name asks, whose answer is shown in this form.
fn question_of(
    alloc: Global,
    command: &str,
    matches: &ArgMatches,
    form: Form,
) -> Result<Query, ArgumentsFault>
    ensures values { IfOk result (HasQuery command.now (rows_of (found_of matches.now))) }
    ensures known { IfOk result NamesKnown }
    ensures look { IfOk result (λ question. HasLook form (look_of question)) }
{
    match command {
        "verify" => {
            let kind = ComparisonKind::Verdict {
                log: log_of(alloc, matches)?,
                scope: flag_of(matches, "prefix", Scope::Whole, Scope::Prefix)?,
                resume: text_if_given(alloc, matches, "resume")?,
                save: text_if_given(alloc, matches, "save")?,
            };
            Ok(Query::Comparison(comparison_of(alloc, matches, kind, form)?))
        }
        "locate" => {
            let log = log_of(alloc, matches)?;
            let kind = ComparisonKind::Positions { log };
            Ok(Query::Comparison(comparison_of(alloc, matches, kind, form)?))
        }
        "expected" => Ok(Query::Expected {
            printed: name_of(alloc, matches, "PCRREAD")?,
            registers: text_if_given(alloc, matches, "registers")?,
        }),
        "key" => key_of(alloc, matches),
        "registers" => Ok(Query::LogRegisters {
            log: log_of(alloc, matches)?,
        }),
        "replay" => replay_of(alloc, matches, form),
        "attest" => Ok(Query::Attestation(attest_of(alloc, matches, form)?)),
        _ => Err(ArgumentsFault::Usage),
    }
}

// What is asked of a list and expected PCRs, if this is judged.
fn comparison_of(
    alloc: Global,
    matches: &ArgMatches,
    kind: ComparisonKind,
    form: Form,
) -> Result<ComparisonOptions, ArgumentsFault>
    ensures values { IfOk result (λ judge. (command : Words) → HasComparison command (rows_of (found_of matches.now)) kind
        → HasQuery command (rows_of (found_of matches.now)) (queries.Comparison judge)) }
    ensures known { IfOk result (λ judge. NamesKnown (queries.Comparison judge)) }
    ensures look { IfOk result (λ judge. HasLook form judge.look) }
{
    let required = text_if_given(alloc, matches, "require")?;
    Ok(ComparisonOptions {
        list: name_of(alloc, matches, "LIST")?,
        expected: name_of(alloc, matches, "EXPECTED")?,
        known: known_of(alloc, matches, &kind, &required)?,
        old_kernel: old_kernel_of(matches, &kind, &required)?,
        look: look_for(matches, &kind, form)?,
        kind,
        required,
        explained: flag_of(matches, "explain", false, true)?,
    })
}

// What `replay` asks. Refuses `--require`, `--explain` and `--summary` without EXPECTED, and `--known` without `--require`.
fn replay_of(alloc: Global, matches: &ArgMatches, form: Form) -> Result<Query, ArgumentsFault>
    ensures values { IfOk result (HasQuery (codes "replay") (rows_of (found_of matches.now))) }
    ensures known { IfOk result NamesKnown }
    ensures look { IfOk result (λ question. HasLook form (look_of question)) }
{
    let list = name_of(alloc, matches, "LIST")?;
    let expected = text_if_given(alloc, matches, "EXPECTED")?;
    let required = text_if_given(alloc, matches, "require")?;
    let kind = ComparisonKind::ListVerdict;
    let known = known_of(alloc, matches, &kind, &required)?;
    let explained = flag_of(matches, "explain", false, true)?;
    let look = look_of(matches, form)?;
    match (expected, required, known, explained, look) {
        (Some(expected), required, known, explained, look) => Ok(Query::Comparison(
            ComparisonOptions {
                kind,
                list,
                expected,
                required,
                known,
                old_kernel: false,
                explained,
                look,
            },
        )),
        (None, None, None, false, Look::Plain | Look::Terminal) => Ok(Query::ListRegisters {
            list,
        }),
        (None, _, _, _, _) => Err(ArgumentsFault::Usage),
    }
}

// Whether some argument requests help.
fn has_help_word(arguments: &[String]) -> bool
    ensures { result ≡ list_any (λ word. asks_help (string_bytes word)) arguments.now }
{
    arguments.iter().any(asks_help)
}

// Short options that request help.
const HELP_OPTIONS: [&[u8]; 5] = [b"-h", b"-0h", b"-qh", b"-0qh", b"-q0h"];

// Whether this argument requests help: it is `--help`, or short options of which `h` is the first, or follows no others than `0` and `q`.
fn asks_help(word: &String) -> bool
    ensures { result ≡ asks_help (string_bytes word.now) }
{
    word.as_str() == "--help" || begins_any(&HELP_OPTIONS, word.as_bytes())
}

// Whether the argument begins with one of these.
fn begins_any(options: &[&[u8]], word: &[u8]) -> bool
    ensures { result ≡ list_any (λ option. begins_with option.now word.now) options.now }
{
    options.iter().any(|option| word.starts_with(option))
}

/// Whether the arguments ask for silence on standard error: one after the command is `-q` or `--quiet`, and none before it is `--`. It does not
/// matter whether they are those of a command.
pub fn asks_quiet(arguments: &[String]) -> bool
    ensures { result ≡ asks_quiet arguments.now }
{
    1 <= arguments.len() && asks_first(&arguments[1..])
}

// Whether these arguments ask for it.
fn asks_first(words: &[String]) -> bool
    ensures { result ≡ asks_first words.now }
{
    match first_of_quiet(words) {
        None => false,
        Some(word) => is_quiet_word(word),
    }
}

// The first of these arguments that asks for silence, or after which there are no options.
fn first_of_quiet(words: &[String]) -> Option<&String>
    ensures { option_map (λ word. word.now) result ≡ find (λ word. ends_options (string_bytes word) || is_quiet_word (string_bytes word)) words.now }
{
    words
        .iter()
        .find(|word| ends_options(word) || is_quiet_word(word))
}

// Whether no option follows this argument.
fn ends_options(word: &String) -> bool
    ensures { result ≡ ends_options (string_bytes word.now) }
{
    word.as_str() == "--"
}

// Whether this argument is `--quiet`, or short options of which one is `q`.
fn is_quiet_word(word: &String) -> bool
    ensures { result ≡ is_quiet_word (string_bytes word.now) }
{
    let bytes = word.as_bytes();
    word.as_str() == "--quiet"
        || bytes.starts_with(b"-") && !bytes.starts_with(b"--") && has_letter_q(bytes)
}

// Whether one of these letters is `q`.
fn has_letter_q(letters: &[u8]) -> bool
    ensures { result ≡ list_any (λ letter. letter == 113) letters.now }
{
    letters.iter().any(|letter| *letter == b'q')
}

/// When the output has colours: as the first `--color` says that follows no `--`, for a report that is no JSON; otherwise never. It does not
/// matter whether the arguments are those of a command.
pub fn color_choice(arguments: &[String]) -> ColorChoice
    ensures { result ≡ color_choice arguments.now }
{
    if reports(arguments) && !asks_json(arguments) {
        choice_asked(arguments)
    } else {
        ColorChoice::Never
    }
}

// Whether the arguments are those of a command whose report may have colours.
fn reports(arguments: &[String]) -> bool
    ensures { result ≡ reports arguments.now }
{
    match arguments.first() {
        None => false,
        Some(command) => may_color(command),
    }
}

// Whether the command of this name judges.
fn may_color(command: &String) -> bool
    ensures { result ≡ may_color (string_bytes command.now) }
{
    let name = command.as_str();
    name == "verify" || name == "attest" || name == "replay" || name == "locate"
}

// Whether these arguments ask for JSON.
fn asks_json(words: &[String]) -> bool
    ensures { result ≡ asks_json words.now }
{
    match first_of_json(words) {
        None => false,
        Some(word) => is_json_word(word),
    }
}

// The first of these arguments that is `--json`, or after which there are no options.
fn first_of_json(words: &[String]) -> Option<&String>
    ensures { option_map (λ word. word.now) result ≡ find (λ word. ends_options (string_bytes word) || is_json_word (string_bytes word)) words.now }
{
    words
        .iter()
        .find(|word| ends_options(word) || is_json_word(word))
}

// Whether this argument is `--json`.
fn is_json_word(word: &String) -> bool
    ensures { result ≡ is_json_word (string_bytes word.now) }
{
    word.as_str() == "--json"
}

// What the first `--color` says, unless `--` comes before it.
fn choice_asked(words: &[String]) -> ColorChoice
    ensures { result ≡ choice_asked words.now }
{
    match color_place(words) {
        None => ColorChoice::Auto,
        Some(place) => choice_at(words.split_at(place).1),
    }
}

// The place of the first of these arguments that asks for colours, or after which there are no options.
fn color_place(words: &[String]) -> Option<usize>
    ensures value { result ≡ position (λ word. ends_options (string_bytes word) || is_color_word (string_bytes word)) words.now }
    ensures within { IfSome result (λ place. place < length words.now) }
{
    words
        .iter()
        .position(|word| ends_options(word) || is_color_word(word))
}

// Whether this argument is `--color`, alone or with its value.
fn is_color_word(word: &String) -> bool
    ensures { result ≡ is_color_word (string_bytes word.now) }
{
    word.as_str() == "--color" || word.as_bytes().starts_with(b"--color=")
}

// What the first of these arguments says of colours.
fn choice_at(words: &[String]) -> ColorChoice
    ensures { result ≡ choice_at words.now }
{
    match words.split_first() {
        None => ColorChoice::Auto,
        Some((word, rest)) => choice_by(word, rest),
    }
}

// What this argument says of colours, before these.
fn choice_by(word: &String, rest: &[String]) -> ColorChoice
    ensures { result ≡ choice_by (string_bytes word.now) rest.now }
{
    match word.as_str() {
        "--color=always" => ColorChoice::Always,
        "--color=never" => ColorChoice::Never,
        "--color" => choice_next(rest),
        _ => ColorChoice::Auto,
    }
}

// What follows `--color`.
fn choice_next(words: &[String]) -> ColorChoice
    ensures { result ≡ choice_next words.now }
{
    match words.first() {
        None => ColorChoice::Auto,
        Some(word) => choice_of(word),
    }
}

// The choice of this name. (`read_words` refuses others.)
fn choice_of(name: &String) -> ColorChoice
    ensures { result ≡ choice_of (string_bytes name.now) }
{
    match name.as_str() {
        "always" => ColorChoice::Always,
        "never" => ColorChoice::Never,
        _ => ColorChoice::Auto,
    }
}

// Whether this argument requests the version: it is `--version`, or short options that begin with `-V`.
fn asks_version(word: &String) -> bool
    ensures { result ≡ asks_version (string_bytes word.now) }
{
    word.as_str() == "--version" || word.as_bytes().starts_with(b"-V")
}

// The help, if it was requested; else `Usage`, or `Memory` if memory ran out.
fn help_of(alloc: Global, arguments: &[String], error: &Error) -> Result<Plan, ArgumentsFault>
    ensures { IfOk result (λ plan. HasHelpWord arguments.now × IsHelp plan × (kind_of error.now ≡ ErrorKind.DisplayHelp)) }
{
    match error.kind() {
        ErrorKind::DisplayHelp if has_help_word(arguments) => {
            Ok(Plan::Help(format!(in alloc; "{error}")?))
        }
        ErrorKind::OutOfMemory => Err(ArgumentsFault::Memory),
        _ => Err(ArgumentsFault::Usage),
    }
}
