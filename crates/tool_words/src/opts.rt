//! The optimisers that a list asks for.
ghost use Rattle.std.specs.List.{list_all};
ghost use Rattle.std.specs.Prelude.{◌≡◌};
ghost use Rattle.tool_words.specs.Opts.{is_optimiser, optimisers_listed, opts_named, uniform, words_listed};
ghost use Rattle.tool_words.specs.Said.{is_among};

use crate::asked::Optimisers;

/// All optimisers, or none.
pub fn uniform(chosen: bool) -> Optimisers
    ensures { result ≡ uniform chosen }
{
    Optimisers {
        sort: chosen,
        propagate: chosen,
        merge: chosen,
        trim: chosen,
        avg: chosen,
        remote: chosen,
    }
}

fn is_optimiser(word: &str) -> bool
    ensures { result ≡ is_optimiser word.now }
{
    match word {
        "sort" | "propagate" | "merge" | "trim" | "avg" | "remote" => true,
        _ => false,
    }
}

/// Whether each word of a list is an optimiser's name.
fn lists_optimisers(list: &str) -> bool
    ensures { result ≡ list_all is_optimiser (words_listed list.now) }
{
    list.split(',').all(|word| is_optimiser(word))
}

/// Whether a name is among the words of a list.
fn is_listed(list: &str, name: &str) -> bool
    ensures { result ≡ is_among (words_listed list.now) name.now }
{
    list.split(',').any(|word| word == name)
}

/// The optimisers of a list, where it lists nothing else.
fn optimisers_in(list: &str) -> Option<Optimisers>
    ensures { result ≡ optimisers_listed (words_listed list.now) }
{
    if !lists_optimisers(list) {
        return None;
    }
    Some(Optimisers {
        sort: is_listed(list, "sort"),
        propagate: is_listed(list, "propagate"),
        merge: is_listed(list, "merge"),
        trim: is_listed(list, "trim"),
        avg: is_listed(list, "avg"),
        remote: is_listed(list, "remote"),
    })
}

/// The optimisers by a value of `--opts`.
pub fn opts_by(value: &str) -> Option<Optimisers>
    ensures { result ≡ opts_named value.now }
{
    match value {
        "all" => Some(uniform(true)),
        "none" => Some(uniform(false)),
        list => optimisers_in(list),
    }
}
