//! Lexemes: tokens by what the grammar knows them as.
ghost use Rattle.std.specs.Prelude.{◌≡◌, IfOk};

use holders::Text;
use label_set::PatternId;
use promql_ast::QueryRefusal;
use promql_lex::Word;
use std::alloc::AllocError;
use ticks::Ms;
use xfrac::XFrac;

/// The signs of the grammar, by the names of Prometheus' lexer.
#[derive(Clone, Copy, Debug, PartialEq, Eq)]
pub enum Sign {
    /// `(`
    LeftParen,
    /// `)`
    RightParen,
    /// `{`
    LeftBrace,
    /// `}`
    RightBrace,
    /// `[`
    LeftBracket,
    /// `]`
    RightBracket,
    /// `,`
    Comma,
    /// `:`
    Colon,
    /// `+`
    Plus,
    /// `-`
    Minus,
    /// `*`
    Star,
    /// `/`
    Slash,
    /// `%`
    Percent,
    /// `^`
    Caret,
    /// `=`
    Equal,
    /// `==`
    EqualTwice,
    /// `!=`
    Unequal,
    /// `=~`
    Matches,
    /// `!~`
    Unmatched,
    /// `<`
    Less,
    /// `<=`
    LessEqual,
    /// `>`
    Greater,
    /// `>=`
    GreaterEqual,
    /// `@`
    AtSign,
}

/// What a lexeme is.
#[derive(Debug, Drop, PartialEq, Eq)]
pub enum LexemeKind {
    Sign(Sign),
    /// A word, as it is spelled.
    Word(Word, Text),
    Name(Text),
    Number(XFrac),
    Duration(Ms),
    /// A string, by what it stands for.
    Quoted(Text),
    /// A string right behind `=~` or `!~`: the number of its pattern, and whether that passes the empty text.
    Pattern(PatternId, bool),
    /// A spelling or a pattern that is refused. It is the last lexeme.
    Bad(QueryRefusal),
}

/// A lexeme, and the place of its first byte in the text, counted from 0.
#[derive(Debug, Drop, PartialEq, Eq)]
pub struct Lexeme {
    pub at: u32,
    pub kind: LexemeKind,
}
