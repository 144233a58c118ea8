//! What the words of a command say, as `clap` reads them.
ghost use Rattle.std.specs.Option.{option_copied};
ghost use Rattle.std.specs.Prelude.{◌≡◌, IfOk, List, drop, false, map, option_map, string_bytes};
ghost use Rattle.std.specs.Str.{bytes_eq};
ghost use Rattle.tool_words.specs.Commands.{place_id};
ghost use Rattle.tool_words.specs.Said.{Item, is_among, places_of, said, value_of};
ghost use Rattle.tool_words.specs.Tells.{Holds, Tells, if_any};

use crate::build::{PLACE, command};
use clap::ArgMatches;
use clap::error::ErrorKind;
use std::alloc::{AllocError, Global};

/// The matches of the words behind the command's name, where they follow the rules. The only error is want of memory.
pub fn matches_in<'a>(
    alloc: Global,
    name: &'a str,
    options: &[&'a str],
    words: &'a [String],
) -> Result<Option<ArgMatches<'a>>, AllocError>
    requires { is_among (map (λ o. o.now) options.now) place_id ≡ false }
    ensures { IfOk result (λ o. Tells o (said (map (λ o. o.now) options.now) (drop 1 (map string_bytes words.entry.now)))) }
{
    let command = command(alloc, name, options)?;
    match command.try_get_matches_from(words) {
        Ok(matches) => Ok(Some(matches)),
        Err(error) if error.kind() == ErrorKind::OutOfMemory => Err(AllocError),
        Err(_) => Ok(None),
    }
}

/// The words that stand for themselves, if there are any.
pub fn places_in<'m, 'a>(matches: &'m ArgMatches<'a>) -> Option<&'m [&'a str]>
    ensures { (items : List Item) → Holds matches.now items → option_map (λ words. map (λ w. w.now) words.now) result ≡ if_any (places_of items) }
{
    matches.get_raw(PLACE)
}

/// The value of an option.
pub fn value_in<'a>(matches: &ArgMatches<'a>, name: &str) -> Option<&'a str>
    ensures { (items : List Item) → Holds matches.now items → bytes_eq place_id name.now ≡ false → option_copied result ≡ value_of name.now items }
{
    matches.get_str(name)
}
