//! Whether a command line may ask for one of IMA's own policies, and whether it asks Linux to measure files.

ghost use Rattle.std.specs.Prelude.{◌≡◌, ◌↔◌, IsTrue, nat_eq, true, ◌⊎◌, codes};
ghost use Rattle.std.specs.List.{list_any, starts_with};
ghost use Rattle.boot_answers.specs.ImaPolicy.{MaySetImaPolicy, begins_option, is_between};
ghost use Rattle.boot_answers.specs.ImaMeasuring.{AsksToMeasure, BeginsMeasuring, stops};

/// How options that ask for a policy begin.
const POLICY_OPTIONS: [&[u8]; 8] = [
    b"ima_policy=",
    b"ima-policy=",
    b"ima_tcb",
    b"ima-tcb",
    b"ima_appraise_tcb",
    b"ima-appraise-tcb",
    b"ima_appraise-tcb",
    b"ima-appraise_tcb",
];

// Whether the bytes begin with one of these.
fn begins_any(options: &[&[u8]], bytes: &[u8]) -> bool
    ensures { result ≡ list_any (λ option. starts_with nat_eq bytes.now option.now) options.now }
{
    options.iter().any(|option| bytes.starts_with(option))
}

// Whether the bytes begin with such an option.
fn begins_option(bytes: &[u8]) -> bool
    ensures { result ≡ begins_option bytes.now }
{
    begins_any(&POLICY_OPTIONS, bytes)
}

// Whether the byte stands between words.
fn is_between(byte: u8) -> bool
    ensures { result ≡ is_between byte }
{
    (byte >= 9 && byte <= 13) || byte == 0x20 || byte == 0xA0 || byte == 0x22
}

// Whether a word begins here, and is such an option.
fn is_option(starts: bool, rest: &[u8]) -> bool
    ensures { IsTrue result ↔ ((starts ≡ true) × (begins_option rest.now ≡ true)) }
{
    starts && begins_option(rest)
}

/// Whether a word of the text begins with `ima_policy=`, `ima_tcb` or `ima_appraise_tcb`, with `-` for `_` or not. Words are divided by white
/// space and quotes. If none does and the text is Linux's command line, Linux was given no policy by it. If one does nothing is known: a policy
/// need not measure files, as `ima_policy=fail_securely`, and a value that Linux does not know is none. A text in units of two bytes must be
/// converted first; one that is no UTF-16 is unknown, and so is one that is no ASCII, since a stub may cut its units to bytes.
pub fn may_set_ima_policy(text: &str) -> bool
    ensures { IsTrue result ↔ MaySetImaPolicy text.now }
{
    let mut rest = text.as_bytes();
    let mut starts = true;
    while let Some((first, after)) = rest.split_first() {
        if is_option(starts, rest) {
            return true;
        }
        starts = is_between(*first);
        rest = after;
    }
    false
}

/// How options that ask to measure begin, with what ends a word or a value.
const MEASURING_OPTIONS: [&[u8]; 3] = [b"ima_tcb ", b"ima_policy=tcb ", b"ima_policy=tcb|"];

/// What nothing is read after.
const STOPPING: [&[u8]; 2] = [b"\"", b"--"];

// Whether nothing is read from here on.
fn stops(bytes: &[u8]) -> bool
    ensures { result ≡ stops bytes.now }
{
    begins_any(&STOPPING, bytes)
}

// Whether the bytes are an option that asks to measure.
fn is_measuring_option(bytes: &[u8]) -> bool
    ensures { IsTrue result ↔ ((bytes.now ≡ codes "ima_tcb") ⊎ (bytes.now ≡ codes "ima_policy=tcb")) }
{
    bytes == b"ima_tcb".as_slice() || bytes == b"ima_policy=tcb".as_slice()
}

// Whether the bytes begin with an option that asks to measure, or are one.
fn begins_measuring(bytes: &[u8]) -> bool
    ensures { IsTrue result ↔ BeginsMeasuring bytes.now }
{
    begins_any(&MEASURING_OPTIONS, bytes) || is_measuring_option(bytes)
}

// Whether a word begins here, and is such an option.
fn is_measuring(starts: bool, rest: &[u8]) -> bool
    ensures { IsTrue result ↔ ((starts ≡ true) × BeginsMeasuring rest.now) }
{
    starts && begins_measuring(rest)
}

/// Whether a word of the text is `ima_tcb`, or `ima_policy=` with `tcb` as its only or first value. Words are divided by spaces; from a quote
/// or `--` on none counts. A Linux with IMA whose command line is this text has a policy that measures files. That the text is its command line
/// is claimed. Where none does nothing is known: Linux reads more texts so.
pub fn asks_to_measure(text: &str) -> bool
    ensures { IsTrue result ↔ AsksToMeasure text.now }
{
    let mut rest = text.as_bytes();
    let mut starts = true;
    while let Some((first, after)) = rest.split_first() {
        if stops(rest) {
            return false;
        }
        if is_measuring(starts, rest) {
            return true;
        }
        starts = *first == 0x20;
        rest = after;
    }
    false
}
