//! What stands at the front of a text.

use crate::fault::LexKind;
use crate::token::TokenKind;

/// What stands at the front of a text, and how many bytes it takes; a fault is told at the byte
/// behind so many.
#[derive(Clone, Copy)]
pub enum InputElement {
    /// A blank or a comment.
    Trivia(usize),
    Token(TokenKind, usize),
    Fault(LexKind, usize),
}
