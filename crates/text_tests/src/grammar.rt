//! Texts and their terminals. What is expected is taken from the language's tables, by hand.

use lane_kernels::Width;
use regent_grammar::{Mark, Symbol, Terminal, Word, first_too_deep, terminals};
use regent_lex::{LexFault, tokens};
use std::alloc::{AllocError, Global};

/// The terminals of the text, which is cut where it is too long.
fn terminals_of(alloc: Global, text: &[u8]) -> Result<Vec<Terminal>, LexFault> {
    let text = &text[..text.len().min(1_048_576)];
    let tokens = tokens(alloc, text)?;
    Ok(terminals(alloc, text, tokens.as_slice())?)
}

/// What a terminal is.
#[derive(Clone, Copy)]
enum Kind {
    Word(Word),
    Mark(Mark),
    Number(i64, Width),
    Name,
    Text,
}

/// Whether a symbol is of this kind, with these bytes where it has some.
fn is_symbol(symbol: &Symbol, kind: Kind, bytes: &str) -> bool {
    match (symbol, kind) {
        (Symbol::Word(found), Kind::Word(word)) => *found == word,
        (Symbol::Mark(found), Kind::Mark(mark)) => *found == mark,
        (Symbol::Number { value, width }, Kind::Number(number, told)) => {
            (*value, *width) == (number, told)
        }
        (Symbol::Name(name), Kind::Name) => name.as_slice() == bytes.as_bytes(),
        (Symbol::Text(text), Kind::Text) => text.as_slice() == bytes.as_bytes(),
        _ => false,
    }
}

/// Whether the text is this one terminal, on line 2.
fn is_one(alloc: Global, text: &str, kind: Kind, bytes: &str) -> Result<bool, LexFault> {
    let found = terminals_of(alloc, text.as_bytes())?;
    Ok(match found.as_slice() {
        [one] => one.line == 2 && is_symbol(&one.symbol, kind, bytes),
        _ => false,
    })
}

/// Texts of one terminal each, and the bytes of names and strings.
static TEXTS: [(&str, Kind, &str); 10] = [
    ("\n__demand", Kind::Word(Word::Demand), ""),
    ("\nelseif", Kind::Word(Word::Elseif), ""),
    ("\nwrites", Kind::Word(Word::Writes), ""),
    ("\n~=", Kind::Mark(Mark::NotEqual), ""),
    ("\n|", Kind::Mark(Mark::Bar), ""),
    ("\n2147483647", Kind::Number(2_147_483_647, Width::W32), ""),
    (
        "\n2147483647LL",
        Kind::Number(2_147_483_647, Width::W64),
        "",
    ),
    ("\n2147483648", Kind::Number(2_147_483_648, Width::W64), ""),
    ("\nprintf", Kind::Name, "printf"),
    ("\n\"a\\n\"", Kind::Text, "a\n"),
];

#[test]
fn texts_of_one_terminal(rt: HostRuntime) -> Result<(), LexFault> {
    for (text, kind, bytes) in &TEXTS {
        assert!(rt; is_one(rt.alloc(), text, *kind, bytes)?, "{text}");
    }
    Ok(())
}

/// How many terminals a text that was made has, and the line of the last one.
fn counted(
    alloc: Global,
    text: Result<String, AllocError>,
) -> Result<Option<(usize, u32)>, LexFault> {
    let text = text?;
    let found = terminals_of(alloc, text.as_bytes())?;
    Ok(match found.last() {
        Some(last) => Some((found.len(), last.line)),
        None => None,
    })
}

#[test]
fn a_large_text(rt: HostRuntime) -> Result<(), LexFault> {
    let alloc = rt.alloc();
    let text = "if x1 <= 27 \"\\n\"\n".repeat(alloc, 8192);
    assert_eq!(rt; counted(alloc, text)?, Some((40960, 8192)));
    Ok(())
}

/// The word, as often as told, on the lines from 0.
fn repeated(alloc: Global, word: Word, times: u32) -> Result<Vec<Terminal>, AllocError> {
    let mut found = Vec::new(alloc);
    for line in 0..times {
        let symbol = Symbol::Word(word);
        found.push(Terminal { symbol, line })?;
    }
    Ok(found)
}

/// The line of the first of these that is too deep.
fn too_deep(found: Result<Vec<Terminal>, AllocError>) -> Result<Option<u32>, AllocError> {
    let found = found?;
    Ok(first_too_deep(found.as_slice()))
}

#[test]
fn sixty_five_are_too_deep(rt: HostRuntime) -> Result<(), AllocError> {
    let alloc = rt.alloc();
    let found = [
        too_deep(repeated(alloc, Word::Do, 64))?,
        too_deep(repeated(alloc, Word::Do, 66))?,
    ];
    assert_eq!(rt; found, [None, Some(64)]);
    Ok(())
}
