//! The search for the end of a string or of a block comment.

ghost use Rattle.std.specs.Prelude.{MatchOption, false, length, ◌<◌, ◌≡◌, ⊤};
ghost use Rattle.regent_lex.specs.Search.{next_step, search};
ghost use Rattle.regent_lex.specs.Strings.{is_escape};

/// What is looked for.
#[derive(Clone, Copy)]
pub enum Wanted {
    /// The closing quote of a string, before a line feed.
    ClosingQuote,
    /// The first byte of a string that may not stand there, before the closing quote.
    BadContent,
    /// The second bracket of the first `]]`.
    Brackets,
}

/// What a byte means to a search.
#[derive(Clone, Copy)]
enum Step {
    /// The search goes on in this state.
    On(bool),
    Found,
    Missing,
}

/// Whether the byte may stand behind a backslash in a string.
pub fn is_escape(byte: u8) -> bool
    ensures { result ≡ is_escape byte }
{
    matches!(byte, b'n' | b't' | b'"' | b'\\')
}

/// What a byte means to the search. The state of the first two is that a backslash takes this byte
/// along, that of the third that the byte before it is a bracket.
fn next_step(wanted: Wanted, state: bool, byte: u8) -> Step
    ensures { result ≡ next_step wanted state byte }
{
    match wanted {
        Wanted::ClosingQuote => {
            if byte == b'\n' {
                Step::Missing
            } else if state {
                Step::On(false)
            } else if byte == b'"' {
                Step::Found
            } else {
                Step::On(byte == b'\\')
            }
        }
        Wanted::BadContent => {
            if state {
                if is_escape(byte) {
                    Step::On(false)
                } else {
                    Step::Found
                }
            } else if byte == b'"' {
                Step::Missing
            } else if byte < 32 {
                Step::Found
            } else {
                Step::On(byte == b'\\')
            }
        }
        Wanted::Brackets => {
            if state && byte == b']' {
                Step::Found
            } else {
                Step::On(byte == b']')
            }
        }
    }
}

/// The place of the byte at which the search finds what is wanted.
pub fn search(wanted: Wanted, bytes: &[u8]) -> Option<usize>
    ensures found { result ≡ search wanted false bytes.now }
    ensures within { MatchOption result ⊤ (λ n. n < length bytes.now) }
{
    let mut state = false;
    for (at, byte) in bytes.iter().enumerate() {
        match next_step(wanted, state, *byte) {
            Step::On(next) => state = next,
            Step::Found => return Some(at),
            Step::Missing => return None,
        }
    }
    None
}
