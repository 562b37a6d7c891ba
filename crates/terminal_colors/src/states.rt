//! The words that are coloured, and their colours.

ghost use Rattle.std.specs.Prelude.{◌≡◌, ◌<◌, ◌==◌, find, length};
ghost use Rattle.std.specs.List.{starts_with};
ghost use Rattle.terminal_colors.specs.States.{all_states, sequence_of, state_at, style_of, text_of};

/// A word or words of a line that say how a comparison, an input or the run ended.
#[derive(Clone, Copy, Debug, PartialEq, Eq)]
pub enum State {
    /// `verdict match`, `quote match`, and a PCR that matches.
    Match,
    /// A PCR that matches, and that nothing extended.
    MatchAtReset,
    /// `verdict differ` and `quote differ`.
    Differ,
    /// A PCR that differs, before its value.
    DiffersFrom,
    /// A PCR that the log or the bank lacks.
    Absent,
    /// A PCR that is required and not expected, or a boot aggregate that is not there.
    Missing,
    /// `boot_aggregate good`.
    Good,
    /// `boot_aggregate old_kernel`.
    OldKernel,
    /// `boot_aggregate wrong`.
    Wrong,
    /// `boot_aggregate nobank`.
    NoBank,
    /// `expected confirmed`.
    Confirmed,
    /// `expected unconfirmed`.
    Unconfirmed,
    /// `unconfirmed:`, before the first error after a prefix.
    UnconfirmedFrom,
    /// An event or an entry that extends a PCR which it should not.
    Extends,
    /// `unknown entry`.
    Unknown,
    /// `signature valid`.
    Valid,
    /// `signature not checked`.
    NotChecked,
    /// The place of a PCR's value, which nothing extended.
    AtReset,
    /// The place of a PCR's value that is never reached.
    Nowhere,
    /// `not located`.
    NotLocated,
    /// `match:`, in a summary.
    MatchInShort,
    /// `differ:`, in a summary.
    DifferInShort,
    /// `no verdict:`, in a summary.
    NoVerdict,
    /// `refused:`, before what is refused.
    Refused,
    /// `failed:`, before what failed.
    Failed,
}

impl State {
    /// All states, each once.
    pub const ALL: [State; 25] = [
        State::Match,
        State::MatchAtReset,
        State::Differ,
        State::DiffersFrom,
        State::Absent,
        State::Missing,
        State::Good,
        State::OldKernel,
        State::Wrong,
        State::NoBank,
        State::Confirmed,
        State::Unconfirmed,
        State::UnconfirmedFrom,
        State::Extends,
        State::Unknown,
        State::Valid,
        State::NotChecked,
        State::AtReset,
        State::Nowhere,
        State::NotLocated,
        State::MatchInShort,
        State::DifferInShort,
        State::NoVerdict,
        State::Refused,
        State::Failed,
    ];

    /// The words, and the byte after them: the line's end, or a space.
    pub fn text(self) -> &'static [u8]
        ensures value { result.now ≡ text_of self }
        ensures some { 0 < length result.now }
    {
        match self {
            State::Match => b"match\n",
            State::MatchAtReset => b"match at reset\n",
            State::Differ => b"differ\n",
            State::DiffersFrom => b"differ ",
            State::Absent => b"absent\n",
            State::Missing => b"missing\n",
            State::Good => b"good\n",
            State::OldKernel => b"old_kernel\n",
            State::Wrong => b"wrong\n",
            State::NoBank => b"nobank\n",
            State::Confirmed => b"confirmed\n",
            State::Unconfirmed => b"unconfirmed\n",
            State::UnconfirmedFrom => b"unconfirmed: ",
            State::Extends => b"extends ",
            State::Unknown => b"unknown ",
            State::Valid => b"valid\n",
            State::NotChecked => b"not checked\n",
            State::AtReset => b"at reset\n",
            State::Nowhere => b"nowhere\n",
            State::NotLocated => b"not located\n",
            State::MatchInShort => b"match: ",
            State::DifferInShort => b"differ: ",
            State::NoVerdict => b"no verdict: ",
            State::Refused => b"refused: ",
            State::Failed => b"failed: ",
        }
    }

    // How the words are shown: green if this holds, red if the comparison or the run ends by it, yellow if it decides nothing
    // alone, and faint if it confirms nothing.
    fn style(self) -> Style
        ensures { result ≡ style_of self }
    {
        match self {
            State::Match | State::Good | State::Confirmed | State::Valid | State::MatchInShort =>
                Style::Green,
            State::OldKernel | State::Unconfirmed | State::UnconfirmedFrom => Style::Yellow,
            State::MatchAtReset | State::AtReset => Style::Faint,
            _ => Style::Red,
        }
    }

    /// The sequence that begins the words' colour.
    pub(crate) fn sequence<'a>(self) -> &'a [u8]
        ensures { result.now ≡ sequence_of (style_of self) }
    {
        self.style().sequence()
    }
}

/// How words are shown.
#[derive(Clone, Copy, Debug, PartialEq, Eq)]
pub(crate) enum Style {
    /// In green.
    Green,
    /// In red.
    Red,
    /// In yellow.
    Yellow,
    /// Fainter than the other words.
    Faint,
}

impl Style {
    // The sequence that begins it.
    fn sequence<'a>(self) -> &'a [u8]
        ensures { result.now ≡ sequence_of self }
    {
        match self {
            Style::Green => b"\x1b[32m",
            Style::Red => b"\x1b[31m",
            Style::Yellow => b"\x1b[33m",
            Style::Faint => b"\x1b[2m",
        }
    }
}

/// The state at the start of this text, if there is one.
pub(crate) fn state_at(text: &[u8]) -> Option<State>
    ensures { result ≡ state_at text.now }
{
    state_among(&State::ALL, text)
}

// The first of these states that is at the start of this text.
fn state_among(states: &[State], text: &[u8]) -> Option<State>
    ensures { result ≡ find (λ state. starts_with (λ a b. a == b) text.now (text_of state)) states.now }
{
    states
        .iter()
        .find(|state| text.starts_with(state.text()))
        .copied()
}
