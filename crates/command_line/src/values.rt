//! The values of arguments, from clap's matches.

ghost use Rattle.std.specs.Prelude.{◌≡◌, ◌<◌, ◌≤◌, ◌^◌, [], false, true, Some, codes, map, string_bytes, unwrap_or, vec_len, IfOk};
ghost use Rattle.clap.specs.Words.{all_of, first_of, found_of, rows_of};
ghost use Rattle.agent_plans.specs.Plans.{HasForm, HasLook, IsWithin, IsWithinLimits, TakesKnown};
ghost use Rattle.command_line.specs.Arguments.{AreFurtherNames, AreGivenAs, HasAttestOptions, HasBytes, HasLog, HasMeasure, HasNoQuoting, HasNumber, HasQuery, HasQuoting, HasValues, IsConfirmedBy, IsDataShown, IsFlag, IsGivenAs, IsLook, IsSignedAs, TakesLook, TakesOld, conversion_name, is_dash, part_name, print_name, reads_earlier, reads_twice};

use crate::command_table::{MOST_RECORDS, MOST_WORKERS};
use agent_plans::{
    ArgumentsFault, AttestOptions, ComparisonKind, ConfirmedBy, Conversion, DataShown, Form,
    LogFile, Look, Measurement, NameEnd, Names, Print, Query, Quoting, Scope, SigningOptions, Task,
};
use clap::ArgMatches;
use hex::FromHexError;
use ima_list::Template;
use pcr_banks::Alg;
use std::alloc::{AllocError, Global};
use tpm_keys::{KeyPart, Purpose};

/// The options and names of `measure`. Refuses the binary list as JSON.
pub(crate) fn measurement_of(
    alloc: Global,
    matches: &ArgMatches,
    form: Form,
) -> Result<Measurement, ArgumentsFault>
    ensures values { IfOk result (HasMeasure (rows_of (found_of matches.now))) }
    ensures within { IfOk result (IsWithinLimits form) }
{
    Ok(Measurement {
        alg: Alg::from_name(text_of(matches, "alg")?.as_bytes()).ok_or(ArgumentsFault::Usage)?,
        template: Template::from_name(text_of(matches, "template")?.as_bytes()).ok_or(
            ArgumentsFault::Usage,
        )?,
        workers: number_of(matches, "workers", MOST_WORKERS)? as usize,
        limit: number_of(matches, "limit", MOST_RECORDS)? as u32,
        print: print_of(matches, form)?,
        log: log_of(alloc, matches)?,
        files: files_of(alloc, matches)?,
        names: further_names_of(alloc, matches)?,
    })
}

/// What `events` shows in this form. Refuses `--explain` with JSON, `--expected` and `--quote` where what data says is not shown, and standard
/// input for both log and expected PCRs.
pub(crate) fn events_of(
    alloc: Global,
    matches: &ArgMatches,
    form: Form,
) -> Result<Task, ArgumentsFault>
    ensures values { IfOk result (HasValues (codes "events") (rows_of (found_of matches.now))) }
    ensures within { IfOk result (IsWithin form) }
{
    let log = log_of(alloc, matches)?;
    let data = data_of(matches)?;
    let confirmed_by = confirmed_by_of(alloc, matches)?;
    if reads_twice(&log, &confirmed_by) {
        return Err(ArgumentsFault::Usage);
    }
    match (form, data, &confirmed_by) {
        (Form::Json, DataShown::Size | DataShown::Bytes, _)
        | (Form::Text, DataShown::Meaning, _)
        | (Form::Text, _, ConfirmedBy::Nothing) => Ok(Task::Events {
            log,
            data,
            confirmed_by,
        }),
        _ => Err(ArgumentsFault::Usage),
    }
}

/// What `boot` asks. Refuses standard input for both log and expected PCRs, and for the log of an earlier boot.
pub(crate) fn boot_of(alloc: Global, matches: &ArgMatches) -> Result<Task, ArgumentsFault>
    ensures values { IfOk result (HasValues (codes "boot") (rows_of (found_of matches.now))) }
    ensures within { (form : Form) → IfOk result (IsWithin form) }
{
    let log = log_of(alloc, matches)?;
    let confirmed_by = confirmed_by_of(alloc, matches)?;
    let before = text_if_given(alloc, matches, "before")?;
    if reads_twice(&log, &confirmed_by) || reads_earlier(&before) {
        return Err(ArgumentsFault::Usage);
    }
    Ok(Task::Boot {
        log,
        confirmed_by,
        before,
    })
}

// Whether log and expected PCRs are both standard input.
fn reads_twice(log: &LogFile, confirmed_by: &ConfirmedBy) -> bool
    ensures { result ≡ reads_twice log.now confirmed_by.now }
{
    match confirmed_by {
        ConfirmedBy::Expected(name) => is_dash(&log.name) && is_dash(name),
        ConfirmedBy::Nothing | ConfirmedBy::Quote(_) => false,
    }
}

// Whether the log of an earlier boot is standard input.
fn reads_earlier(before: &Option<String>) -> bool
    ensures { result ≡ reads_earlier before.now }
{
    match before {
        None => false,
        Some(name) => is_dash(name),
    }
}

// Whether this argument is standard input, where a command takes it.
fn is_dash(argument: &String) -> bool
    ensures { result ≡ is_dash argument.now }
{
    argument.as_str() == "-"
}

/// The file that is converted from this form. There is no JSON of it.
pub(crate) fn conversion_of(
    alloc: Global,
    matches: &ArgMatches,
    conversion: Conversion,
    form: Form,
) -> Result<Task, ArgumentsFault>
    ensures values { IfOk result (HasValues (conversion_name conversion) (rows_of (found_of matches.now))) }
    ensures within { IfOk result (IsWithin form) }
{
    match form {
        Form::Text => Ok(Task::Convert {
            input: name_of(alloc, matches, "FILE")?,
            conversion,
        }),
        Form::Json => Err(ArgumentsFault::Usage),
    }
}

// What says which data is confirmed. Refuses `--quote` beside `--expected`, and a quote's options without `--quote`.
fn confirmed_by_of(alloc: Global, matches: &ArgMatches) -> Result<ConfirmedBy, ArgumentsFault>
    ensures { IfOk result (IsConfirmedBy (rows_of (found_of matches.now))) }
{
    let expected = text_if_given(alloc, matches, "expected")?;
    let quote = text_if_given(alloc, matches, "quote")?;
    match (expected, quote) {
        (Some(_), Some(_)) => Err(ArgumentsFault::Usage),
        (None, Some(quote)) => Ok(ConfirmedBy::Quote(quoting_of(alloc, matches, quote, "list")?)),
        (expected, None) => {
            has_no_quoting(alloc, matches)?;
            Ok(match expected {
                None => ConfirmedBy::Nothing,
                Some(name) => ConfirmedBy::Expected(name),
            })
        }
    }
}

// The quote in the file of this name, with the list that the argument of this other name has. Refuses a nonce that is not hexadecimal.
fn quoting_of(
    alloc: Global,
    matches: &ArgMatches,
    quote: String,
    list: &str,
) -> Result<Quoting, ArgumentsFault>
    ensures { IfOk result (HasQuoting list.now (rows_of (found_of matches.now)) quote) }
{
    Ok(Quoting {
        list: name_of(alloc, matches, list)?,
        quote,
        nonce: bytes_of(alloc, matches, "nonce")?,
        required: name_of(alloc, matches, "require")?,
        takes_sha1: flag_of(matches, "sha1", false, true)?,
        old_kernel: flag_of(matches, "old-kernel", false, true)?,
        signing: signing_of(alloc, matches)?,
    })
}

// What says that the message is signed. Refuses a key or a signature without the other, and either with `--signature-checked`.
fn signing_of(alloc: Global, matches: &ArgMatches) -> Result<SigningOptions, ArgumentsFault>
    ensures { IfOk result (IsSignedAs (rows_of (found_of matches.now))) }
{
    let key = text_if_given(alloc, matches, "key")?;
    let signature = text_if_given(alloc, matches, "signature")?;
    let is_checked = flag_of(matches, "signature-checked", false, true)?;
    match (key, signature, is_checked) {
        (None, None, false) => Ok(SigningOptions::NotChecked),
        (None, None, true) => Ok(SigningOptions::ByCaller),
        (Some(key), Some(signature), false) => Ok(SigningOptions::ByKey { key, signature }),
        _ => Err(ArgumentsFault::Usage),
    }
}

// Refuses the options of a quote.
fn has_no_quoting(alloc: Global, matches: &ArgMatches) -> Result<(), ArgumentsFault>
    ensures { IfOk result (λ _. HasNoQuoting (rows_of (found_of matches.now))) }
{
    let list = text_if_given(alloc, matches, "list")?;
    let nonce = text_if_given(alloc, matches, "nonce")?;
    let required = text_if_given(alloc, matches, "require")?;
    has_no_quoting_flags(matches)?;
    let signing = signing_of(alloc, matches)?;
    match (list, nonce, required, signing) {
        (None, None, None, SigningOptions::NotChecked) => Ok(()),
        _ => Err(ArgumentsFault::Usage),
    }
}

// Refuses the flags of a quote, except `--signature-checked`.
fn has_no_quoting_flags(matches: &ArgMatches) -> Result<(), ArgumentsFault>
    ensures sha1 { IfOk result (λ _. IsFlag (codes "sha1") (rows_of (found_of matches.now)) false true false) }
    ensures old_kernel { IfOk result (λ _. IsFlag (codes "old-kernel") (rows_of (found_of matches.now)) false true false) }
{
    let takes_sha1 = flag_of(matches, "sha1", false, true)?;
    let old_kernel = flag_of(matches, "old-kernel", false, true)?;
    match (takes_sha1, old_kernel) {
        (false, false) => Ok(()),
        _ => Err(ArgumentsFault::Usage),
    }
}

// What is shown of the data of events. Refuses `--explain` with `--data`.
fn data_of(matches: &ArgMatches) -> Result<DataShown, ArgumentsFault>
    ensures { IfOk result (IsDataShown (rows_of (found_of matches.now))) }
{
    let has_bytes = flag_of(matches, "data", false, true)?;
    let explains = flag_of(matches, "explain", false, true)?;
    match (has_bytes, explains) {
        (false, false) => Ok(DataShown::Size),
        (true, false) => Ok(DataShown::Bytes),
        (false, true) => Ok(DataShown::Meaning),
        (true, true) => Err(ArgumentsFault::Usage),
    }
}

/// The options and names of `attest`. Refuses a nonce that is not hexadecimal.
pub(crate) fn attest_of(
    alloc: Global,
    matches: &ArgMatches,
    form: Form,
) -> Result<AttestOptions, ArgumentsFault>
    ensures values { IfOk result (HasAttestOptions (rows_of (found_of matches.now))) }
    ensures look { IfOk result (λ attest. HasLook form attest.look) }
{
    let quote = name_of(alloc, matches, "QUOTE")?;
    Ok(AttestOptions {
        log: log_of(alloc, matches)?,
        quoting: quoting_of(alloc, matches, quote, "LIST")?,
        expected: text_if_given(alloc, matches, "EXPECTED")?,
        known: names_if_given(alloc, matches, "known")?,
        scope: flag_of(matches, "prefix", Scope::Whole, Scope::Prefix)?,
        resume: text_if_given(alloc, matches, "resume")?,
        save: text_if_given(alloc, matches, "save")?,
        explained: flag_of(matches, "explain", false, true)?,
        look: look_of(matches, form)?,
    })
}

/// How a comparison of this kind is shown in this form: positions only as they are.
pub(crate) fn look_for(
    matches: &ArgMatches,
    kind: &ComparisonKind,
    form: Form,
) -> Result<Look, ArgumentsFault>
    ensures flags { IfOk result (TakesLook (rows_of (found_of matches.now)) kind.now) }
    ensures form { IfOk result (HasLook form) }
{
    match kind {
        ComparisonKind::Positions { .. } => Ok(Look::Plain),
        ComparisonKind::Verdict { .. } | ComparisonKind::ListVerdict => look_of(matches, form),
    }
}

/// How a verdict is shown in this form. Refuses `--terminal` with `--summary`, and either with JSON.
pub(crate) fn look_of(matches: &ArgMatches, form: Form) -> Result<Look, ArgumentsFault>
    ensures flags { IfOk result (IsLook (rows_of (found_of matches.now))) }
    ensures form { IfOk result (HasLook form) }
{
    let is_terminal = flag_of(matches, "terminal", false, true)?;
    let is_summary = flag_of(matches, "summary", false, true)?;
    match (is_terminal, is_summary, form) {
        (false, false, _) => Ok(Look::Plain),
        (true, false, Form::Text) => Ok(Look::Terminal),
        (false, true, Form::Text) => Ok(Look::Summary),
        _ => Err(ArgumentsFault::Usage),
    }
}

/// What `key` asks.
pub(crate) fn key_of(alloc: Global, matches: &ArgMatches) -> Result<Query, ArgumentsFault>
    ensures { IfOk result (HasQuery (codes "key") (rows_of (found_of matches.now))) }
{
    Ok(Query::Key {
        area: name_of(alloc, matches, "FILE")?,
        purpose: flag_of(
            matches,
            "endorsement",
            Purpose::Attestation,
            Purpose::Endorsement,
        )?,
        part: part_of(matches)?,
    })
}

// What is shown of a key.
fn part_of(matches: &ArgMatches) -> Result<KeyPart, ArgumentsFault>
    ensures { IfOk result (λ part. first_of (codes "print") (rows_of (found_of matches.now)) ≡ Some (part_name part)) }
{
    match text_of(matches, "print")? {
        "all" => Ok(KeyPart::All),
        "name" => Ok(KeyPart::Name),
        "pem" => Ok(KeyPart::Pem),
        _ => Err(ArgumentsFault::Usage),
    }
}

// The bytes that the first value of this argument spells, two hexadecimal digits of either case for each.
fn bytes_of(alloc: Global, matches: &ArgMatches, id: &str) -> Result<Vec<u8>, ArgumentsFault>
    ensures { IfOk result (λ bytes. HasBytes id.now (rows_of (found_of matches.now)) bytes.items) }
{
    match hex::decode(alloc, text_of(matches, id)?) {
        Ok(bytes) => Ok(bytes),
        Err(FromHexError::OutOfMemory) => Err(ArgumentsFault::Memory),
        Err(_) => Err(ArgumentsFault::Usage),
    }
}

// The text of further names, if there is one. Refuses `--null` without `--files-from`.
fn further_names_of(alloc: Global, matches: &ArgMatches) -> Result<Option<Names>, ArgumentsFault>
    ensures { IfOk result (AreFurtherNames (rows_of (found_of matches.now))) }
{
    let ends = flag_of(matches, "null", NameEnd::LineFeed, NameEnd::Nul)?;
    match (text_if_given(alloc, matches, "files-from")?, ends) {
        (Some(text), ends) => Ok(Some(Names { text, ends })),
        (None, NameEnd::LineFeed) => Ok(None),
        (None, NameEnd::Nul) => Err(ArgumentsFault::Usage),
    }
}

// What is printed. There is no JSON of the binary list.
fn print_of(matches: &ArgMatches, form: Form) -> Result<Print, ArgumentsFault>
    ensures print { IfOk result (λ print. first_of (codes "print") (rows_of (found_of matches.now)) ≡ Some (print_name print)) }
    ensures shown { IfOk result (HasForm form) }
{
    match (text_of(matches, "print")?, form) {
        ("ascii", _) => Ok(Print::Ascii),
        ("binary", Form::Text) => Ok(Print::Binary),
        ("registers", _) => Ok(Print::Registers),
        _ => Err(ArgumentsFault::Usage),
    }
}

// The number that an option has, 1 to `most`.
fn number_of(matches: &ArgMatches, id: &str, most: u64) -> Result<u64, ArgumentsFault>
    ensures { IfOk result (λ number. HasNumber id.now (rows_of (found_of matches.now)) number × (1 ≤ number) × (number ≤ most)) }
{
    match text_of(matches, id)?.parse() {
        Ok(number) if number != 0 && number <= most => Ok(number),
        _ => Err(ArgumentsFault::Usage),
    }
}

// The names of the files, fewer than 2^32.
fn files_of(alloc: Global, matches: &ArgMatches) -> Result<Vec<String>, ArgumentsFault>
    ensures names { IfOk result (λ names. unwrap_or (all_of (codes "FILE") (rows_of (found_of matches.now))) [] ≡ map string_bytes names.items) }
    ensures few { IfOk result (λ names. vec_len names < 2 ^ 32) }
{
    let names = names_of(alloc, matches.get_strs("FILE").unwrap_or(&[]))?;
    if names.len() > u32::MAX as usize {
        return Err(ArgumentsFault::Usage);
    }
    Ok(names)
}

/// The names of the texts of known files, if there are some. Refuses them unless this is a verdict, and PCRs are required.
pub(crate) fn known_of(
    alloc: Global,
    matches: &ArgMatches,
    kind: &ComparisonKind,
    required: &Option<String>,
) -> Result<Option<Vec<String>>, ArgumentsFault>
    ensures names { IfOk result (AreGivenAs (codes "known") (rows_of (found_of matches.now))) }
    ensures takes { IfOk result (TakesKnown kind.now required.now) }
{
    match (names_if_given(alloc, matches, "known")?, kind, required) {
        (None, _, _) => Ok(None),
        (Some(_), ComparisonKind::Positions { .. }, _) | (Some(_), _, None) => Err(
            ArgumentsFault::Usage,
        ),
        (known, _, _) => Ok(known),
    }
}

/// Whether an older kernel's boot aggregate is taken in this comparison, where this text is required. Refuses `--old-kernel` without
/// `--require`.
pub(crate) fn old_kernel_of(
    matches: &ArgMatches,
    kind: &ComparisonKind,
    required: &Option<String>,
) -> Result<bool, ArgumentsFault>
    ensures { IfOk result (TakesOld (rows_of (found_of matches.now)) kind.now required.now) }
{
    match kind {
        ComparisonKind::Verdict { .. } => {
            let old_kernel = flag_of(matches, "old-kernel", false, true)?;
            match (required, old_kernel) {
                (None, true) => Err(ArgumentsFault::Usage),
                (None, false) => Ok(false),
                (Some(_), old_kernel) => Ok(old_kernel),
            }
        }
        ComparisonKind::Positions { .. } | ComparisonKind::ListVerdict => Ok(false),
    }
}

// Copies of the values of this argument, if it is present.
fn names_if_given(
    alloc: Global,
    matches: &ArgMatches,
    id: &str,
) -> Result<Option<Vec<String>>, ArgumentsFault>
    ensures { IfOk result (AreGivenAs id.now (rows_of (found_of matches.now))) }
{
    match matches.get_strs(id) {
        None => Ok(None),
        Some(words) => Ok(Some(names_of(alloc, words)?)),
    }
}

// Copies of these words.
fn names_of(alloc: Global, words: &[&str]) -> Result<Vec<String>, AllocError>
    ensures { IfOk result (λ names. map string_bytes names.items ≡ map (λ word. word.now) words.now) }
{
    let mut names = Vec::new(alloc);
    for word in words {
        names.push(String::from_str(alloc, word)?)?;
    }
    Ok(names)
}

/// What this flag says: `present`, or else `absent`. `clap` gives it the value `true` if it is present, else `false`.
pub(crate) fn flag_of<T: Copy>(
    matches: &ArgMatches,
    id: &str,
    absent: T,
    present: T,
) -> Result<T, ArgumentsFault>
    ensures { IfOk result (IsFlag id.now (rows_of (found_of matches.now)) absent present) }
{
    match text_of(matches, id)? {
        "true" => Ok(present),
        "false" => Ok(absent),
        _ => Err(ArgumentsFault::Usage),
    }
}

// The first value of this argument.
fn text_of<'a>(matches: &ArgMatches<'a>, id: &str) -> Result<&'a str, ArgumentsFault>
    ensures { IfOk result (λ text. first_of id.now (rows_of (found_of matches.now)) ≡ Some text.now) }
{
    matches.get_str(id).ok_or(ArgumentsFault::Usage)
}

/// The log that is named, and whether the H-CRTM's event says where the machine started.
pub(crate) fn log_of(alloc: Global, matches: &ArgMatches) -> Result<LogFile, ArgumentsFault>
    ensures { IfOk result (HasLog (rows_of (found_of matches.now))) }
{
    Ok(LogFile {
        name: name_of(alloc, matches, "LOG")?,
        hcrtm: flag_of(matches, "hcrtm", false, true)?,
    })
}

/// A copy of the first value of this argument.
pub(crate) fn name_of(
    alloc: Global,
    matches: &ArgMatches,
    id: &str,
) -> Result<String, ArgumentsFault>
    ensures { IfOk result (λ name. IsGivenAs id.now (rows_of (found_of matches.now)) (Some name)) }
{
    Ok(String::from_str(alloc, text_of(matches, id)?)?)
}

/// A copy of the first value of this argument, if it is present.
#[tactic(auto, using(crate::proofs::ReadLemmas::no_values))]
pub(crate) fn text_if_given(
    alloc: Global,
    matches: &ArgMatches,
    id: &str,
) -> Result<Option<String>, ArgumentsFault>
    ensures { IfOk result (λ text. IsGivenAs id.now (rows_of (found_of matches.now)) text) }
{
    if matches.contains_id(id) {
        return Ok(Some(name_of(alloc, matches, id)?));
    }
    Ok(None)
}
