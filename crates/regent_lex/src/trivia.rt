//! Comments.

ghost use Rattle.std.specs.Prelude.{drop, length, ◌<◌, ◌^◌, ◌≡◌};
ghost use Rattle.regent_lex.specs.Bytes.{next_are};
ghost use Rattle.regent_lex.specs.Scan.{block_with, comment_at};
ghost use Rattle.regent_lex.specs.Search.{search};

use crate::bytes::{begins_with_brackets, rest_of_line};
use crate::fault::LexKind;
use crate::input_element::InputElement;
use crate::search::{Wanted, search};

/// The comment whose `--` stands right before the bytes.
#[tactic(auto, unfolding(crate::specs::Scan::comment_at))]
pub fn comment(bytes: &[u8]) -> InputElement
    requires { length bytes.now < 2 ^ 60 }
    ensures { result ≡ comment_at bytes.now }
{
    if !begins_with_brackets(bytes) {
        return InputElement::Trivia(rest_of_line(bytes) + 2);
    }
    match search(Wanted::Brackets, &bytes[2..]) {
        None => InputElement::Fault(LexKind::Unclosed, 0),
        Some(n) => InputElement::Trivia(n + 5),
    }
}
