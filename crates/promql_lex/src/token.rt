//! Tokens.
ghost use Rattle.std.specs.Prelude.{◌≡◌, IfOk};

use holders::Text;
use promql_ast::QueryRefusal;
use std::alloc::AllocError;
use ticks::Ms;
use xfrac::XFrac;

/// What a token is. Names, words and signs are known by their spans. `Quoted` has what a string stands for.
#[derive(Debug, PartialEq, Eq, Drop)]
pub enum TokenKind {
    Name,
    Word,
    Number(XFrac),
    Duration(Ms),
    Quoted(Text),
    Sign,
    Bad(QueryRefusal),
}

impl TokenKind {
    /// An equal kind, on the allocator of this one. The only error is want of memory.
    pub fn copy(&self) -> Result<TokenKind, AllocError>
        ensures { IfOk result (λ kind. kind ≡ self.now) }
    {
        Ok(match self {
            TokenKind::Name => TokenKind::Name,
            TokenKind::Word => TokenKind::Word,
            TokenKind::Number(value) => TokenKind::Number(*value),
            TokenKind::Duration(duration) => TokenKind::Duration(*duration),
            TokenKind::Quoted(text) => TokenKind::Quoted(text.copy()?),
            TokenKind::Sign => TokenKind::Sign,
            TokenKind::Bad(refusal) => TokenKind::Bad(refusal.copy()?),
        })
    }
}

/// A token, from its first byte up to the byte behind its last, counted from 0.
#[derive(Debug, PartialEq, Eq, Drop)]
pub struct Token {
    pub at: u32,
    pub end: u32,
    pub kind: TokenKind,
}

impl Token {
    /// An equal token, on the allocator of this one. The only error is want of memory.
    pub fn copy(&self) -> Result<Token, AllocError>
        ensures { IfOk result (λ token. token ≡ self.now) }
    {
        Ok(Token {
            at: self.at,
            end: self.end,
            kind: self.kind.copy()?,
        })
    }
}

impl Clone for Token {
    ghost is_clone = { λ s t. t ≡ s };

    fn clone(&self) -> Result<Token, AllocError> {
        self.copy()
    }
}
