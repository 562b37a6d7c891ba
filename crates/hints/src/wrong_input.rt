//! What a refused input is in place of what it should be, by its first bytes.

ghost use Rattle.std.specs.Prelude.{◌≡◌, ◌≤◌, length, nat_eq, drop};
ghost use Rattle.std.specs.List.{list_any, starts_with};
ghost use Rattle.hints.specs.Mistakes.{expected_beginnings, capital_beginnings, has_at, has_capitals, is_expected, is_list, is_log, is_old_event, is_old_log, is_pem, is_printed, is_text_list, mistake_in, printed_beginnings};

/// What an input should be that is refused.
#[derive(Clone, Copy, PartialEq, Eq)]
pub(crate) enum ExpectedInput {
    /// A firmware event log.
    Log,
    /// A measurement list.
    List,
    /// A list as text.
    Text,
    /// A log in any form.
    Form,
    /// A text of expected registers.
    Expected,
    /// What tpm2-tools printed.
    Printed,
    /// The public area of a key.
    Area,
}

/// What such an input is.
#[derive(Clone, Copy, PartialEq, Eq)]
pub(crate) enum Mistake {
    /// A file without bytes, not one of the kernel's.
    Empty,
    /// A text without bytes, which no tool printed.
    NothingPrinted,
    /// A measurement list, not a log.
    ListForLog,
    /// A log in the form of TPM 1.2, with SHA-1 alone.
    OldLog,
    /// A log, not a measurement list.
    LogForList,
    /// The list as text.
    TextForList,
    /// The binary list, not as text.
    ListForText,
    /// What tpm2-tools printed, not expected registers.
    PrintedForExpected,
    /// Expected registers, not what tpm2-tools printed.
    ExpectedForPrinted,
    /// Expected registers with banks in capital letters.
    Capitals,
    /// A PEM, not a public area.
    PemForArea,
}

/// What begins a text that tpm2_pcrread or tpm2_checkquote printed, and no text of expected registers.
const PRINTED: [&[u8]; 7] = [
    b"  sha", b"  sm3", b"pcrs:", b"sha1:", b"sha256:", b"sha384:", b"sha512:",
];

/// What begins a text of expected registers.
const EXPECTED: [&[u8]; 4] = [b"sha1 ", b"sha256 ", b"sha384 ", b"sha512 "];

/// What begins one with banks in capital letters.
const EXPECTED_IN_CAPITALS: [&[u8]; 4] = [b"SHA1 ", b"SHA256 ", b"SHA384 ", b"SHA512 "];

/// What an input with these first bytes is in place of what is wanted, if that can be told.
pub(crate) fn mistake_in(wanted: ExpectedInput, head: &[u8]) -> Option<Mistake>
    ensures { result ≡ mistake_in wanted head.now }
{
    match wanted {
        ExpectedInput::Log | ExpectedInput::List | ExpectedInput::Text | ExpectedInput::Form
            if head.is_empty() => Some(Mistake::Empty),
        ExpectedInput::Area => is_pem(head).then_some(Mistake::PemForArea),
        ExpectedInput::Expected | ExpectedInput::Printed if head.is_empty() => Some(
            Mistake::NothingPrinted,
        ),
        ExpectedInput::Log | ExpectedInput::Form if is_list(head) => Some(Mistake::ListForLog),
        ExpectedInput::Log if is_old_log(head) => Some(Mistake::OldLog),
        ExpectedInput::Text if is_list(head) => Some(Mistake::ListForText),
        ExpectedInput::List | ExpectedInput::Text if is_log(head) => Some(Mistake::LogForList),
        ExpectedInput::List if is_text_list(head) => Some(Mistake::TextForList),
        ExpectedInput::Expected if is_printed(head) => Some(Mistake::PrintedForExpected),
        ExpectedInput::Expected if has_capitals(head) => Some(Mistake::Capitals),
        ExpectedInput::Printed if is_expected(head) => Some(Mistake::ExpectedForPrinted),
        _ => None,
    }
}

// Whether a measurement list begins so: the name of the first entry's template comes after the register, the digest and the name's length.
fn is_list(head: &[u8]) -> bool
    ensures { result ≡ is_list head.now }
{
    has_at(head, 28, b"ima")
}

// Whether the log of a TPM 2.0 begins so: its signature is the first event's data.
fn is_log(head: &[u8]) -> bool
    ensures { result ≡ is_log head.now }
{
    has_at(head, 32, b"Spec ID Event03\0")
}

// Whether the log of a TPM 1.2 begins so: by a signature of its own, or by an event that is extended. The event's numbers are small: the register,
// the type and the size of the data.
fn is_old_log(head: &[u8]) -> bool
    ensures { result ≡ is_old_log head.now }
{
    has_at(head, 32, b"Spec ID Event00\0")
        || has_at(head, 32, b"Spec ID Event02\0")
        || is_old_event(head)
}

// Whether such an event begins so: its type is neither 0 nor that of an event that is not extended.
fn is_old_event(head: &[u8]) -> bool
    ensures { result ≡ is_old_event head.now }
{
    has_at(head, 1, &[0; 3])
        && !has_at(head, 4, &[0])
        && !has_at(head, 4, &[3])
        && has_at(head, 5, &[0; 3])
        && has_at(head, 30, &[0; 2])
}

// Whether the kernel's text of a list begins so: the register, a digest of SHA-1 and a template.
fn is_text_list(head: &[u8]) -> bool
    ensures { result ≡ is_text_list head.now }
{
    has_at(head, 0, b"10 ") && has_at(head, 43, b" ima")
}

// Whether what tpm2-tools print begins so.
fn is_printed(head: &[u8]) -> bool
    ensures { result ≡ is_printed head.now }
{
    begins_any(&PRINTED, head)
}

// Whether expected registers begin so.
fn is_expected(head: &[u8]) -> bool
    ensures { result ≡ is_expected head.now }
{
    begins_any(&EXPECTED, head)
}

// Whether expected registers begin so, but with a bank in capital letters.
fn has_capitals(head: &[u8]) -> bool
    ensures { result ≡ has_capitals head.now }
{
    begins_any(&EXPECTED_IN_CAPITALS, head)
}

// Whether a PEM begins so.
fn is_pem(head: &[u8]) -> bool
    ensures { result ≡ is_pem head.now }
{
    has_at(head, 0, b"-----BEGIN ")
}

// Whether the bytes begin with one of these.
fn begins_any(beginnings: &[&[u8]], head: &[u8]) -> bool
    ensures { result ≡ list_any (λ beginning. starts_with nat_eq head.now beginning.now) beginnings.now }
{
    beginnings
        .iter()
        .any(|beginning| head.starts_with(beginning))
}

// Whether these bytes are at this place.
fn has_at(head: &[u8], at: usize, bytes: &[u8]) -> bool
    ensures { result ≡ has_at head.now at bytes.now }
{
    at <= head.len() && head[at..].starts_with(bytes)
}
