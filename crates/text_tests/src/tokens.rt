//! Texts and their tokens. What is expected is taken from the language's table, by hand.

ghost use Rattle.std.specs.Prelude.{IfOk, length, vec_len, ◌≡◌, ◌≤◌};

use regent_lex::{
    LexFault, LexKind, Token, TokenKind, has_suffix, number_value, quoted_bytes, spelling, tokens,
};
use std::alloc::{AllocError, Global};

/// The most bytes of a text.
const MOST: usize = 1_048_576;

/// The tokens of a text, which is cut where it is too long.
fn lexed(alloc: Global, text: &[u8]) -> Result<Vec<Token>, LexFault> {
    let end = text.len().min(MOST);
    tokens(alloc, &text[..end])
}

/// A token's kind, start, end and line.
type Row = (TokenKind, u32, u32, u32);

/// Whether a text has these tokens.
fn has_tokens(alloc: Global, text: &[u8], wanted: &[Row]) -> Result<bool, LexFault> {
    let found = lexed(alloc, text)?;
    let mut are_well = found.len() == wanted.len();
    for (token, want) in found.iter().zip(wanted) {
        are_well = are_well && (token.kind, token.start, token.end, token.line) == *want;
    }
    Ok(are_well)
}

/// Texts and their tokens. The longest token is taken, and a block comment ends at its first
/// brackets.
static TEXTS: [(&[u8], &[Row]); 5] = [
    (b"", &[]),
    (b" \t\r\n", &[]),
    (
        b"x1 min= 3",
        &[
            (TokenKind::Name, 0, 2, 1),
            (TokenKind::Word, 3, 6, 1),
            (TokenKind::Sign, 6, 7, 1),
            (TokenKind::Number, 8, 9, 1),
        ],
    ),
    (
        b"task--[[\n]\n]] \t\r_m1 \"a\\\"\"--\xff]]\nend_ <= 7LL",
        &[
            (TokenKind::Word, 0, 4, 1),
            (TokenKind::Name, 16, 19, 3),
            (TokenKind::Quoted, 20, 25, 3),
            (TokenKind::Name, 31, 35, 4),
            (TokenKind::Sign, 36, 38, 4),
            (TokenKind::Number, 39, 42, 4),
        ],
    ),
    (
        b"<==~= 1LL2 1.x\n--[\n--[[]]]\n",
        &[
            (TokenKind::Sign, 0, 2, 1),
            (TokenKind::Sign, 2, 3, 1),
            (TokenKind::Sign, 3, 5, 1),
            (TokenKind::Number, 6, 9, 1),
            (TokenKind::Number, 9, 10, 1),
            (TokenKind::Number, 11, 12, 1),
            (TokenKind::Sign, 12, 13, 1),
            (TokenKind::Name, 13, 14, 1),
            (TokenKind::Sign, 25, 26, 3),
        ],
    ),
];

#[test]
fn every_kind_of_token(rt: HostRuntime) -> Result<(), LexFault> {
    for (text, wanted) in &TEXTS {
        assert!(rt; has_tokens(rt.alloc(), text, wanted)?, "{text:?}");
    }
    Ok(())
}

/// Texts with blanks between them, each of which is one token of the kind.
static KINDS: [(TokenKind, &str); 4] = [
    (
        TokenKind::Sign,
        "( ) [ ] { } , ; : . = == ~= < <= > >= + - * / % += *= & |",
    ),
    (
        TokenKind::Word,
        "__demand __index_launch aliased and bool disjoint do dynamic_cast else elseif end \
     equal false fill for fspace if image import in int int1d int32 int64 isnull ispace \
     local max min not null or partition preimage ptr reads reduces regentlib region \
     return task then true var where while wild writes",
    ),
    (
        TokenKind::Name,
        "End ends en _ _end c printf int8 double Z9 \
     nnnnnnnnnnnnnnnnnnnnnnnnnnnnnnnnnnnnnnnnnnnnnnnnnnnnnnnnnnnnnnnn",
    ),
    (
        TokenKind::Number,
        "9223372036854775807 9223372036854775807LL 00000000000000000000000000000001",
    ),
];

/// The first of some texts that isn't one token of the kind.
fn first_unlike<'a>(
    alloc: Global,
    texts: &'a str,
    kind: TokenKind,
) -> Result<Option<&'a str>, LexFault> {
    for text in texts.split_whitespace() {
        let end = u32::try_from(text.len()).unwrap_or(0);
        if !has_tokens(alloc, text.as_bytes(), &[(kind, 0, end, 1)])? {
            return Ok(Some(text));
        }
    }
    Ok(None)
}

#[test]
fn texts_of_one_token(rt: HostRuntime) -> Result<(), LexFault> {
    for (kind, texts) in &KINDS {
        assert_eq!(rt; first_unlike(rt.alloc(), texts, *kind)?, None);
    }
    Ok(())
}

/// Texts with their first fault and its line. A number that is too large is told before the byte
/// after it.
static FAULTS: [(&[u8], LexKind, u32); 38] = [
    (b"1.5", LexKind::BadByte, 1),
    (b"1a", LexKind::BadByte, 1),
    (b"1_", LexKind::BadByte, 1),
    (b"1L", LexKind::BadByte, 1),
    (b"1LLL", LexKind::BadByte, 1),
    (b"1LL.5", LexKind::BadByte, 1),
    (b"\n\n ~ =", LexKind::BadByte, 3),
    (b"!", LexKind::BadByte, 1),
    (b"#", LexKind::BadByte, 1),
    (b"'a'", LexKind::BadByte, 1),
    (b"\\", LexKind::BadByte, 1),
    (b"\x00", LexKind::BadByte, 1),
    (b"\x0b", LexKind::BadByte, 1),
    (b"\x7f", LexKind::BadByte, 1),
    (b"x\xc3\xa4", LexKind::BadByte, 1),
    (b"\"\t\"", LexKind::BadByte, 1),
    (b"\n\"\x1f\\q\"", LexKind::BadByte, 2),
    (b"\"\\q\"", LexKind::BadByte, 1),
    (b"\"\\\x01\"", LexKind::BadByte, 1),
    (b"--[[\n\n]] $", LexKind::BadByte, 3),
    (b"--\n--[ [\n?", LexKind::BadByte, 3),
    (b"@ \"abc", LexKind::BadByte, 1),
    (b"\"", LexKind::Unclosed, 1),
    (b"\n\n\"abc", LexKind::Unclosed, 3),
    (b"\"abc\n\"", LexKind::Unclosed, 1),
    (b"\"abc\\\"", LexKind::Unclosed, 1),
    (b"\"abc\\", LexKind::Unclosed, 1),
    (b"\"abc\\\n\"", LexKind::Unclosed, 1),
    (b"\"\x01\\q\n\"\"", LexKind::Unclosed, 1),
    (b"--[[", LexKind::Unclosed, 1),
    (b"x\n--[[\n\n]\n] ~", LexKind::Unclosed, 2),
    (b"\"\"\"", LexKind::Unclosed, 1),
    (
        b"nnnnnnnnnnnnnnnnnnnnnnnnnnnnnnnnnnnnnnnnnnnnnnnnnnnnnnnnnnnnnnnnn",
        LexKind::NameTooLong,
        1,
    ),
    (b"9223372036854775808", LexKind::NumberTooLarge, 1),
    (b"9223372036854775808LL", LexKind::NumberTooLarge, 1),
    (b"18446744073709551617", LexKind::NumberTooLarge, 1),
    (b"9223372036854775808y", LexKind::NumberTooLarge, 1),
    (b"9223372036854775808.5", LexKind::NumberTooLarge, 1),
];

/// Whether the first fault of a text is this one.
fn has_fault(alloc: Global, text: &[u8], kind: LexKind, line: u32) -> bool {
    match lexed(alloc, text) {
        Err(LexFault::At { kind: k, line: l }) => k == kind && l == line,
        _ => false,
    }
}

#[test]
fn first_faults(rt: HostRuntime) {
    for (text, kind, line) in &FAULTS {
        assert!(rt; has_fault(rt.alloc(), text, *kind, *line), "{text:?}");
    }
}

/// Adds the values of the numbers of a text, doubled where they have `LL`, and the bytes of its
/// strings; none where it is too long.
fn values(
    alloc: Global,
    text: &[u8],
    numbers: &mut Vec<u64>,
    bytes: &mut Vec<u8>,
) -> Result<(), LexFault> {
    if text.len() > 1048576 {
        return Ok(());
    }
    let found = tokens(alloc, text)?;
    for t in found.iter() {
        let spelt = spelling(text, *t);
        match t.kind {
            TokenKind::Number => {
                let value = number_value(spelt);
                numbers.push(if has_suffix(spelt) { value * 2 } else { value })?;
            }
            TokenKind::Quoted => {
                let string = quoted_bytes(alloc, spelt)?;
                bytes.extend_from_slice(string.as_slice())?;
            }
            _ => {}
        }
    }
    Ok(())
}

/// Whether the numbers of a text have these values, and its strings these bytes.
fn values_are(alloc: Global, text: &[u8], numbers: &[u64], bytes: &[u8]) -> Result<bool, LexFault> {
    let mut found = Vec::new(alloc);
    let mut read = Vec::new(alloc);
    values(alloc, text, &mut found, &mut read)?;
    Ok(found.as_slice() == numbers && read.as_slice() == bytes)
}

#[test]
fn values_of_numbers_and_strings(rt: HostRuntime) -> Result<(), LexFault> {
    let text =
        b"0 7 042 10LL 9223372036854775807 \"\" \"a\\n\\t\\\"\\\\n\xff\" 4611686018427387904LL";
    let want = [0, 7, 42, 20, 9223372036854775807, 9223372036854775808];
    let bytes = b"a\n\t\"\\n\xff";
    assert!(rt; values_are(rt.alloc(), text.as_slice(), &want, bytes.as_slice())?);
    Ok(())
}

/// A text of 1 MiB that begins and ends with these bytes, and repeats a byte between them.
fn filled(alloc: Global, first: &[u8], byte: u8, last: &[u8]) -> Result<Vec<u8>, AllocError>
    requires first { length first.now ≤ 4 }
    requires last { length last.now ≤ 4 }
    ensures { IfOk result (λ text. vec_len text ≡ 1048576) }
{
    let mut text = Vec::from_slice(alloc, first)?;
    let middle = vec![in alloc; byte; 1048576 - first.len() - last.len()]?;
    text.extend_from_slice(middle.as_slice())?;
    text.extend_from_slice(last)?;
    Ok(text)
}

/// Such a text, where neither end is longer than four bytes.
fn long(alloc: Global, first: &str, byte: u8, last: &str) -> Result<Vec<u8>, AllocError> {
    if first.len() > 4 || last.len() > 4 {
        return Err(AllocError);
    }
    filled(alloc, first.as_bytes(), byte, last.as_bytes())
}

/// How many tokens a text that was made has.
fn counted(alloc: Global, text: Result<Vec<u8>, AllocError>) -> Result<usize, LexFault> {
    let text = text?;
    let found = lexed(alloc, text.as_slice())?;
    Ok(found.len())
}

/// The ends of long texts and the byte between, and how many tokens they have.
static LONG: [(&str, u8, &str, usize); 8] = [
    ("", b' ', "", 0),
    ("", b'\n', "", 0),
    ("--", b'x', "", 0),
    ("--[[", b'[', "]]", 0),
    ("\"", b'x', "\"", 1),
    ("\"", b'\\', "\"", 1),
    ("", b'(', "", 1048576),
    ("", b'"', "", 524288),
];

#[test]
fn long_texts(rt: HostRuntime) -> Result<(), LexFault> {
    let alloc = rt.alloc();
    for (first, byte, last, count) in &LONG {
        let text = long(alloc, first, *byte, last);
        assert_eq!(rt; counted(alloc, text)?, *count, "{first} {byte} {last}");
    }
    Ok(())
}

/// Whether a text that was made is one string of these bytes.
fn is_string(
    alloc: Global,
    text: Result<Vec<u8>, AllocError>,
    bytes: Result<Vec<u8>, AllocError>,
) -> Result<bool, LexFault> {
    let text = text?;
    let bytes = bytes?;
    values_are(alloc, text.as_slice(), &[], bytes.as_slice())
}

#[test]
fn a_long_string(rt: HostRuntime) -> Result<(), LexFault> {
    let alloc = rt.alloc();
    let bytes = vec![in alloc; b'x'; 1048574];
    assert!(rt; is_string(alloc, long(alloc, "\"", b'x', "\""), bytes)?);
    Ok(())
}

/// Whether the first fault of a text that was made is of this kind, on the first line.
fn has_long_fault(
    alloc: Global,
    text: Result<Vec<u8>, AllocError>,
    kind: LexKind,
) -> Result<bool, AllocError> {
    let text = text?;
    Ok(has_fault(alloc, text.as_slice(), kind, 1))
}

#[test]
fn long_faults(rt: HostRuntime) -> Result<(), AllocError> {
    let alloc = rt.alloc();
    for (first, byte, kind) in [
        ("\"", b'x', LexKind::Unclosed),
        ("--[[", b'\n', LexKind::Unclosed),
        ("", b'a', LexKind::NameTooLong),
        ("", b'1', LexKind::NumberTooLarge),
    ] {
        let text = long(alloc, first, byte, "");
        assert!(rt; has_long_fault(alloc, text, kind)?, "{first} {byte}");
    }
    Ok(())
}

#[test]
fn texts_of_faults(rt: HostRuntime) -> Result<(), AllocError> {
    let alloc = rt.alloc();
    for (kind, want) in [
        (LexKind::BadByte, "line 7: a byte that may not stand there"),
        (
            LexKind::Unclosed,
            "line 7: a string or a comment without an end",
        ),
        (
            LexKind::NumberTooLarge,
            "line 7: a number that is too large",
        ),
        (LexKind::NameTooLong, "line 7: a name that is too long"),
    ] {
        let text = format!(in alloc; "{}", LexFault::At { kind, line: 7 })?;
        assert_eq!(rt; text.as_str(), want);
    }
    Ok(())
}
