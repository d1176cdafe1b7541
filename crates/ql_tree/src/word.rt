use crate::tree::AggregateOp;
use op_base::{Span, Text};

/// What a word means in the grammar, in any ASCII letter case. `Unused` are the reserved words that
/// no tree spells, `Unreserved` is a word that isn't reserved.
#[derive(Clone, Copy, Debug, PartialEq, Eq)]
pub enum Keyword {
    And,
    Or,
    Unless,
    On,
    Ignoring,
    By,
    Without,
    Bool,
    Offset,
    GroupLeft,
    GroupRight,
    Aggregate(AggregateOp),
    Unused,
    Unreserved,
}

/// A token as the grammar sees it, with its value: the number, the length of the duration, the word
/// as it stands, the text that the string writes, or the symbol.
#[derive(Clone, Debug, PartialEq, Eq, Drop)]
pub enum Word {
    Number(i64),
    Duration(Span),
    Name(Keyword, Text),
    Quoted(Text),
    Plus,
    Minus,
    Star,
    Slash,
    Percent,
    Equal,
    NotEqual,
    Greater,
    Less,
    GreaterEqual,
    LessEqual,
    Assign,
    Match,
    NotMatch,
    Open,
    Close,
    OpenBrace,
    CloseBrace,
    OpenSquare,
    CloseSquare,
    Comma,
}
