//! The reserved words and the signs.

ghost use Rattle.std.specs.Prelude.{bytes_eq, map, ◌≡◌};
ghost use Rattle.std.specs.Map.{lookup};
ghost use Rattle.regent_lex.specs.Tables.{mark_of, word_of};

/// The reserved words.
#[derive(Clone, Copy, Debug, PartialEq, Eq)]
pub enum Word {
    Demand,
    IndexLaunch,
    Aliased,
    And,
    Bool,
    Disjoint,
    Do,
    DynamicCast,
    Else,
    Elseif,
    End,
    Equal,
    False,
    Fill,
    For,
    Fspace,
    If,
    Image,
    Import,
    In,
    Int,
    Int1d,
    Int32,
    Int64,
    Isnull,
    Ispace,
    Local,
    Max,
    Min,
    Not,
    Null,
    Or,
    Partition,
    Preimage,
    Ptr,
    Reads,
    Reduces,
    Regentlib,
    Region,
    Return,
    Task,
    Then,
    True,
    Var,
    Where,
    While,
    Wild,
    Writes,
}

/// The signs.
#[derive(Clone, Copy, Debug, PartialEq, Eq)]
pub enum Mark {
    Open,
    Close,
    OpenSquare,
    CloseSquare,
    OpenBrace,
    CloseBrace,
    Comma,
    Semicolon,
    Colon,
    Dot,
    Assign,
    Equal,
    NotEqual,
    Less,
    AtMost,
    Greater,
    AtLeast,
    Plus,
    Minus,
    Star,
    Slash,
    Percent,
    PlusAssign,
    StarAssign,
    Ampersand,
    Bar,
}

const WORDS: [(&[u8], Word); 48] = [
    (b"__demand", Word::Demand),
    (b"__index_launch", Word::IndexLaunch),
    (b"aliased", Word::Aliased),
    (b"and", Word::And),
    (b"bool", Word::Bool),
    (b"disjoint", Word::Disjoint),
    (b"do", Word::Do),
    (b"dynamic_cast", Word::DynamicCast),
    (b"else", Word::Else),
    (b"elseif", Word::Elseif),
    (b"end", Word::End),
    (b"equal", Word::Equal),
    (b"false", Word::False),
    (b"fill", Word::Fill),
    (b"for", Word::For),
    (b"fspace", Word::Fspace),
    (b"if", Word::If),
    (b"image", Word::Image),
    (b"import", Word::Import),
    (b"in", Word::In),
    (b"int", Word::Int),
    (b"int1d", Word::Int1d),
    (b"int32", Word::Int32),
    (b"int64", Word::Int64),
    (b"isnull", Word::Isnull),
    (b"ispace", Word::Ispace),
    (b"local", Word::Local),
    (b"max", Word::Max),
    (b"min", Word::Min),
    (b"not", Word::Not),
    (b"null", Word::Null),
    (b"or", Word::Or),
    (b"partition", Word::Partition),
    (b"preimage", Word::Preimage),
    (b"ptr", Word::Ptr),
    (b"reads", Word::Reads),
    (b"reduces", Word::Reduces),
    (b"regentlib", Word::Regentlib),
    (b"region", Word::Region),
    (b"return", Word::Return),
    (b"task", Word::Task),
    (b"then", Word::Then),
    (b"true", Word::True),
    (b"var", Word::Var),
    (b"where", Word::Where),
    (b"while", Word::While),
    (b"wild", Word::Wild),
    (b"writes", Word::Writes),
];

const MARKS: [(&[u8], Mark); 26] = [
    (b"(", Mark::Open),
    (b")", Mark::Close),
    (b"[", Mark::OpenSquare),
    (b"]", Mark::CloseSquare),
    (b"{", Mark::OpenBrace),
    (b"}", Mark::CloseBrace),
    (b",", Mark::Comma),
    (b";", Mark::Semicolon),
    (b":", Mark::Colon),
    (b".", Mark::Dot),
    (b"=", Mark::Assign),
    (b"==", Mark::Equal),
    (b"~=", Mark::NotEqual),
    (b"<", Mark::Less),
    (b"<=", Mark::AtMost),
    (b">", Mark::Greater),
    (b">=", Mark::AtLeast),
    (b"+", Mark::Plus),
    (b"-", Mark::Minus),
    (b"*", Mark::Star),
    (b"/", Mark::Slash),
    (b"%", Mark::Percent),
    (b"+=", Mark::PlusAssign),
    (b"*=", Mark::StarAssign),
    (b"&", Mark::Ampersand),
    (b"|", Mark::Bar),
];

/// What stands beside the bytes in a table.
fn looked_up<T: Copy>(mut table: &[(&[u8], T)], bytes: &[u8]) -> Option<T>
    ensures { result ≡ lookup (bytes_eq bytes.now) (map (λ row. (row.0.now, row.1)) table.entry.now) }
{
    while let [row, rest @ ..] = table {
        if bytes == row.0 {
            return Some(row.1);
        }
        table = rest;
    }
    None
}

/// The reserved word of these bytes.
pub fn word_of(bytes: &[u8]) -> Option<Word>
    ensures { result ≡ word_of bytes.now }
{
    looked_up(&WORDS, bytes)
}

/// The sign of these bytes.
pub fn mark_of(bytes: &[u8]) -> Option<Mark>
    ensures { result ≡ mark_of bytes.now }
{
    looked_up(&MARKS, bytes)
}
