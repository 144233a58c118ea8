//! The words of the grammar.
ghost use Rattle.frac_text.specs.Readings.{is_word};
ghost use Rattle.promql_lex.specs.Words.{word_of};
ghost use Rattle.std.specs.Char.{to_ascii_lowercase};
ghost use Rattle.std.specs.Map.{lookup};
ghost use Rattle.std.specs.Prelude.{◌≡◌, map};

use func_table::Aggregate;

/// The words of the grammar, which may be written in any case.
#[derive(Clone, Copy, Debug, PartialEq, Eq)]
pub enum Word {
    And,
    Or,
    Unless,
    By,
    Without,
    On,
    Ignoring,
    GroupLeft,
    GroupRight,
    Bool,
    Offset,
    Start,
    End,
    Atan2,
    /// An aggregation.
    Over(Aggregate),
}

/// Each word beside its spelling in small letters.
const WORDS: [(&str, Word); 25] = [
    ("and", Word::And),
    ("or", Word::Or),
    ("unless", Word::Unless),
    ("by", Word::By),
    ("without", Word::Without),
    ("on", Word::On),
    ("ignoring", Word::Ignoring),
    ("group_left", Word::GroupLeft),
    ("group_right", Word::GroupRight),
    ("bool", Word::Bool),
    ("offset", Word::Offset),
    ("start", Word::Start),
    ("end", Word::End),
    ("atan2", Word::Atan2),
    ("sum", Word::Over(Aggregate::Sum)),
    ("avg", Word::Over(Aggregate::Avg)),
    ("min", Word::Over(Aggregate::Min)),
    ("max", Word::Over(Aggregate::Max)),
    ("count", Word::Over(Aggregate::Count)),
    ("group", Word::Over(Aggregate::Group)),
    ("stdvar", Word::Over(Aggregate::Stdvar)),
    ("topk", Word::Over(Aggregate::TopK)),
    ("bottomk", Word::Over(Aggregate::BottomK)),
    ("quantile", Word::Over(Aggregate::Quantile)),
    ("count_values", Word::Over(Aggregate::CountValues)),
];

/// Whether the text is the word, in any case.
pub fn is_word(text: &[u8], word: &[u8]) -> bool
    ensures { result ≡ is_word text.now (map to_ascii_lowercase word.now) }
{
    text.eq_ignore_ascii_case(word)
}

fn word_in(table: &[(&str, Word)], spelling: &[u8]) -> Option<Word>
    ensures { result ≡ lookup (λ other. is_word spelling.now (map to_ascii_lowercase other.now)) table.now }
{
    for (other, word) in table {
        if is_word(spelling, other.as_bytes()) {
            return Some(*word);
        }
    }
    None
}

/// The word that a spelling is, in any case.
pub fn word_of(spelling: &[u8]) -> Option<Word>
    ensures { result ≡ word_of spelling.now }
{
    word_in(&WORDS, spelling)
}
