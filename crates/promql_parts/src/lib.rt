//! The parts of a query's grammar in which nothing nests: lexemes, labels, groupings, rules of selectors, durations,
//! modifiers, operators and how their sides are matched.
//! Its rows of tests stand in `language_tests`.
#![tactic(auto)]

mod cut;
mod labels;
mod laws;
mod lexeme;
mod operator;
mod pattern;
mod reads;
mod selector;
mod span;
mod taken;

pub use labels::{grouping_at, grouping_begun, grouping_behind};
pub use laws::{
    each_part_is_read, lexemes_are_refused_as_their_tokens, parts_lie_within_limits,
    parts_stop_where_they_can_go_on, refusals_of_parts_stand, what_is_read_is_a_part,
};
pub use lexeme::{Lexeme, LexemeKind, Sign};
pub use operator::{BinaryOp, Matching, matching_at, op_at};
pub use pattern::lexemes_of;
pub use promql_lex::Word;
pub use reads::{Read, after, begins, is_sign, item_behind, refused, refused_at};
pub use selector::{braces_at, named_rules};
pub use span::{Brackets, brackets_at, offset_at, when_at};
