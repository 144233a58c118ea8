//! Strings in the tree of a query.
use std::marker::Model;

/// A string with the place of its first byte, counted from 0. Contracts see the pair of both.
#[derive(Drop)]
pub struct Literal<'a> {
    pub at: u32,
    pub text: &'a str,
}

impl<'a> Model for Literal<'a> {
    ghost use Rattle.std.specs.Prelude.{ℕ, List};

    ghost Value = { ℕ × List ℕ };

    ghost view = { λ l. (l.at, l.text.now) };
}
