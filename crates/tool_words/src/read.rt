//! What the words of the program ask for.
ghost use Rattle.std.specs.Prelude.{◌≡◌, IfOk, IfSome, List, codes, drop, map, option_and_then, option_map, string_bytes};
ghost use Rattle.tool_words.specs.Asked.{asked, batch_in, choices_in, edges_in, edges_named, engines_in, explain_of, explain_options, explain_worded, format_of, format_options, format_worded, moments_of, opts_in, query_of, query_options, query_worded, test_of, test_options, workload_of, workload_worded};
ghost use Rattle.tool_words.specs.Said.{Item, said, value_of};
ghost use Rattle.tool_words.specs.Tells.{Holds};
ghost use Rattle.tool_words.specs.Views.{HasBatch, HasEngines, HasFiles, HasSeries, IsOneInstant, moments_seen, wish_of};

use crate::asked::{Asked, Choices, Optimisers};
use crate::engines::engines_by;
use crate::instants::{Instants, instants_by};
use crate::matches::{matches_in, places_in, value_in};
use crate::number::number_in;
use crate::opts::{opts_by, uniform};
use clap::ArgMatches;
use holders::{Items, Text};
use label_set::Labels;
use std::alloc::{AllocError, Global};

/// The options of `promqltest` and `workload`, and those of other commands.
static TEST_OPTIONS: [&str; 4] = ["edges", "batch", "opts", "engines"];

static QUERY_OPTIONS: [&str; 8] = [
    "edges", "batch", "opts", "engines", "at", "from", "to", "step",
];

static FORMAT_OPTIONS: [&str; 0] = [];

static EXPLAIN_OPTIONS: [&str; 2] = ["opts", "engines"];

/// No workload has more series than this.
const MOST_SERIES: u32 = 20_000;

/// No batch has more instants than this, and without the option it has so many.
const MOST_AT_ONCE: u32 = 1_024;

const USUAL_AT_ONCE: u32 = 64;

/// The words as texts.
fn texts_of(alloc: Global, words: &[&str]) -> Result<Items<Text>, AllocError>
    ensures { IfOk result (λ texts. texts ≡ map (λ w. w.now) words.now) }
{
    let mut texts = Items::new(alloc);
    for word in words {
        texts.push(Text::of(alloc, word)?)?;
    }
    Ok(texts)
}

/// Whether windows are closed on the left, by a value of `--edges`.
fn edges_by(value: &str) -> Option<bool>
    ensures { result ≡ edges_named value.now }
{
    match value {
        "v3" => Some(false),
        "v2" => Some(true),
        _ => None,
    }
}

/// Whether windows are closed on the left; without the option they are open.
fn edges_given(matches: &ArgMatches<'_>) -> Option<bool>
    ensures { (items : List Item) → Holds matches.now items → result ≡ edges_in items }
{
    match value_in(matches, "edges") {
        None => Some(false),
        Some(value) => edges_by(value),
    }
}

/// The most instants that are computed at once.
fn batch_given(matches: &ArgMatches<'_>) -> Option<u32>
    ensures { (items : List Item) → Holds matches.now items → result ≡ batch_in items }
{
    match value_in(matches, "batch") {
        None => Some(USUAL_AT_ONCE),
        Some(value) => number_in(value.as_bytes(), MOST_AT_ONCE),
    }
}

/// The rewrites that a plan goes through; without the option all of them.
fn opts_given(matches: &ArgMatches<'_>) -> Option<Optimisers>
    ensures { (items : List Item) → Holds matches.now items → result ≡ opts_in items }
{
    match value_in(matches, "opts") {
        None => Some(uniform(true)),
        Some(value) => opts_by(value),
    }
}

/// What the options choose for all evaluations.
fn choices_given(matches: &ArgMatches<'_>) -> Option<Choices>
    ensures { (items : List Item) → Holds matches.now items → result ≡ choices_in items }
{
    match (
        edges_given(matches),
        batch_given(matches),
        opts_given(matches),
    ) {
        (Some(closed), Some(batch), Some(optimisers)) => Some(Choices {
            closed,
            batch,
            optimisers,
        }),
        _ => None,
    }
}

/// The engines that are declared to so many boxes; without the option none. The only error is want of memory.
fn engines_given(
    alloc: Global,
    matches: &ArgMatches<'_>,
    boxes: u32,
) -> Result<Option<Items<Labels>>, AllocError>
    ensures { (items : List Item) → Holds matches.now items → IfOk result (λ engines. engines ≡ engines_in boxes items) }
{
    match value_in(matches, "engines") {
        None => Ok(Some(Items::new(alloc))),
        Some(value) => engines_by(alloc, value, boxes),
    }
}

/// The files to judge, of which there is at least one.
fn judge_test(
    alloc: Global,
    matches: &ArgMatches<'_>,
    boxes: u32,
) -> Result<Option<Asked>, AllocError>
    ensures { (items : List Item) → Holds matches.now items → IfOk result (λ asked. option_map wish_of asked ≡ test_of boxes items) }
{
    let Some(choices) = choices_given(matches) else {
        return Ok(None);
    };
    let Some(engines) = engines_given(alloc, matches, boxes)? else {
        return Ok(None);
    };
    match places_in(matches) {
        None => Ok(None),
        Some(words) => Ok(Some(Asked::Test {
            choices,
            engines,
            files: texts_of(alloc, words)?,
        })),
    }
}

/// The instants that the options give.
fn instants_given(matches: &ArgMatches<'_>) -> Option<Instants>
    ensures { (items : List Item) → Holds matches.now items → option_map moments_seen result
        ≡ moments_of (value_of (codes "at") items) (value_of (codes "from") items) (value_of (codes "to") items) (value_of (codes "step") items) }
{
    instants_by(
        value_in(matches, "at"),
        value_in(matches, "from"),
        value_in(matches, "to"),
        value_in(matches, "step"),
    )
}

/// A query at these instants, of the script and the expression that the words name.
fn query_in(
    alloc: Global,
    choices: Choices,
    engines: Items<Labels>,
    instants: Instants,
    words: &[&str],
) -> Result<Option<Asked>, AllocError>
    ensures { IfOk result (λ asked. option_map wish_of asked ≡ query_worded choices engines (moments_seen instants) (map (λ w. w.now) words.now)) }
{
    let [file, expr] = words else {
        return Ok(None);
    };
    Ok(Some(Asked::Query {
        choices,
        engines,
        grid: instants.grid,
        instant: instants.instant,
        file: Text::of(alloc, file)?,
        expr: Text::of(alloc, expr)?,
    }))
}

/// The query that the options and the words ask for.
fn judge_query(
    alloc: Global,
    matches: &ArgMatches<'_>,
    boxes: u32,
) -> Result<Option<Asked>, AllocError>
    ensures { (items : List Item) → Holds matches.now items → IfOk result (λ asked. option_map wish_of asked ≡ query_of boxes items) }
{
    let Some(choices) = choices_given(matches) else {
        return Ok(None);
    };
    let Some(engines) = engines_given(alloc, matches, boxes)? else {
        return Ok(None);
    };
    let Some(instants) = instants_given(matches) else {
        return Ok(None);
    };
    match places_in(matches) {
        None => Ok(None),
        Some(words) => query_in(alloc, choices, engines, instants, words),
    }
}

/// A workload of the series that the words number.
fn workload_in(choices: Choices, engines: Items<Labels>, words: &[&str]) -> Option<Asked>
    ensures { option_map wish_of result ≡ workload_worded choices engines (map (λ w. w.now) words.now) }
{
    match words {
        [count] => match number_in(count.as_bytes(), MOST_SERIES) {
            Some(count) => Some(Asked::Workload {
                choices,
                engines,
                count,
            }),
            None => None,
        },
        _ => None,
    }
}

/// The workload that the options and the words ask for.
fn judge_workload(
    alloc: Global,
    matches: &ArgMatches<'_>,
    boxes: u32,
) -> Result<Option<Asked>, AllocError>
    ensures { (items : List Item) → Holds matches.now items → IfOk result (λ asked. option_map wish_of asked ≡ workload_of boxes items) }
{
    let Some(choices) = choices_given(matches) else {
        return Ok(None);
    };
    let Some(engines) = engines_given(alloc, matches, boxes)? else {
        return Ok(None);
    };
    match places_in(matches) {
        None => Ok(None),
        Some(words) => Ok(workload_in(choices, engines, words)),
    }
}

/// The expression that the words give.
fn format_in(alloc: Global, words: &[&str]) -> Result<Option<Asked>, AllocError>
    ensures { IfOk result (λ asked. option_map wish_of asked ≡ format_worded (map (λ w. w.now) words.now)) }
{
    let [expr] = words else {
        return Ok(None);
    };
    Ok(Some(Asked::Format {
        expr: Text::of(alloc, expr)?,
    }))
}

fn judge_format(alloc: Global, matches: &ArgMatches<'_>) -> Result<Option<Asked>, AllocError>
    ensures { (items : List Item) → Holds matches.now items → IfOk result (λ asked. option_map wish_of asked ≡ format_of items) }
{
    match places_in(matches) {
        None => Ok(None),
        Some(words) => format_in(alloc, words),
    }
}

/// The expression that the words give, whose plan goes through these rewrites, over these engines.
fn explain_in(
    alloc: Global,
    optimisers: Optimisers,
    engines: Items<Labels>,
    words: &[&str],
) -> Result<Option<Asked>, AllocError>
    ensures { IfOk result (λ asked. option_map wish_of asked ≡ explain_worded optimisers engines (map (λ w. w.now) words.now)) }
{
    let [expr] = words else {
        return Ok(None);
    };
    Ok(Some(Asked::Explain {
        optimisers,
        engines,
        expr: Text::of(alloc, expr)?,
    }))
}

fn judge_explain(
    alloc: Global,
    matches: &ArgMatches<'_>,
    boxes: u32,
) -> Result<Option<Asked>, AllocError>
    ensures { (items : List Item) → Holds matches.now items → IfOk result (λ asked. option_map wish_of asked ≡ explain_of boxes items) }
{
    let Some(optimisers) = opts_given(matches) else {
        return Ok(None);
    };
    let Some(engines) = engines_given(alloc, matches, boxes)? else {
        return Ok(None);
    };
    match places_in(matches) {
        None => Ok(None),
        Some(words) => explain_in(alloc, optimisers, engines, words),
    }
}

/// `promqltest [--edges E] [--batch B] [--opts O] [--engines S] FILE..`
fn read_test(alloc: Global, words: &[String], boxes: u32) -> Result<Option<Asked>, AllocError>
    ensures { IfOk result (λ asked. option_map wish_of asked ≡ option_and_then (test_of boxes) (said test_options (drop 1 (map string_bytes words.now)))) }
{
    match matches_in(alloc, "promqltest", &TEST_OPTIONS, words)? {
        Some(matches) => judge_test(alloc, &matches, boxes),
        None => Ok(None),
    }
}

/// `query [--edges E] [--batch B] [--opts O] [--engines S] [--at T | --from A --to B --step D] FILE EXPR`
fn read_query(alloc: Global, words: &[String], boxes: u32) -> Result<Option<Asked>, AllocError>
    ensures { IfOk result (λ asked. option_map wish_of asked ≡ option_and_then (query_of boxes) (said query_options (drop 1 (map string_bytes words.now)))) }
{
    match matches_in(alloc, "query", &QUERY_OPTIONS, words)? {
        Some(matches) => judge_query(alloc, &matches, boxes),
        None => Ok(None),
    }
}

/// `workload [--edges E] [--batch B] [--opts O] [--engines S] N`
fn read_workload(alloc: Global, words: &[String], boxes: u32) -> Result<Option<Asked>, AllocError>
    ensures { IfOk result (λ asked. option_map wish_of asked ≡ option_and_then (workload_of boxes) (said test_options (drop 1 (map string_bytes words.now)))) }
{
    match matches_in(alloc, "workload", &TEST_OPTIONS, words)? {
        Some(matches) => judge_workload(alloc, &matches, boxes),
        None => Ok(None),
    }
}

/// `format EXPR`
fn read_format(alloc: Global, words: &[String]) -> Result<Option<Asked>, AllocError>
    ensures { IfOk result (λ asked. option_map wish_of asked ≡ option_and_then format_of (said format_options (drop 1 (map string_bytes words.now)))) }
{
    match matches_in(alloc, "format", &FORMAT_OPTIONS, words)? {
        Some(matches) => judge_format(alloc, &matches),
        None => Ok(None),
    }
}

/// `explain [--opts O] [--engines S] EXPR`
fn read_explain(alloc: Global, words: &[String], boxes: u32) -> Result<Option<Asked>, AllocError>
    ensures { IfOk result (λ asked. option_map wish_of asked ≡ option_and_then (explain_of boxes) (said explain_options (drop 1 (map string_bytes words.now)))) }
{
    match matches_in(alloc, "explain", &EXPLAIN_OPTIONS, words)? {
        Some(matches) => judge_explain(alloc, &matches, boxes),
        None => Ok(None),
    }
}

/// What the words behind the program's name ask for, where they follow the rules: `promqltest FILE..`,
/// `query [--at T | --from A --to B --step D] FILE EXPR`, or `workload N` with N from 1 to 20,000; each takes `--edges v3`,
/// which is what holds without it, or `--edges v2` too, `--batch B` with B from 1 to 1,024, which is 64 without it,
/// `--opts O`, where O is `all`, as without it, `none`, or names among sort, propagate, merge, trim, avg and remote, parted by
/// commas, and `--engines S`, where S is what `engines_by` reads for so many boxes of engines: with no box the option is refused,
/// and without it no engine is declared. Or `format EXPR`, which takes no option, or `explain EXPR`, which takes `--opts` and
/// `--engines`. Numbers are decimal digits without a leading zero. Each option stands at most once, in
/// any place before a word `--`, as `--name value` or `--name=value`. The only error is want of memory.
pub fn read_words(alloc: Global, words: &[String], boxes: u32) -> Result<Option<Asked>, AllocError>
    ensures wish { IfOk result (λ wanted. option_map wish_of wanted ≡ asked boxes (map string_bytes words.now)) }
    ensures files { IfOk result (λ wanted. IfSome wanted HasFiles) }
    ensures alone { IfOk result (λ wanted. IfSome wanted IsOneInstant) }
    ensures series { IfOk result (λ wanted. IfSome wanted HasSeries) }
    ensures batch { IfOk result (λ wanted. IfSome wanted HasBatch) }
    ensures engines { IfOk result (λ wanted. IfSome wanted (HasEngines boxes)) }
{
    let Some(command) = words.first() else {
        return Ok(None);
    };
    match command.as_str() {
        "promqltest" => read_test(alloc, words, boxes),
        "query" => read_query(alloc, words, boxes),
        "workload" => read_workload(alloc, words, boxes),
        "format" => read_format(alloc, words),
        "explain" => read_explain(alloc, words, boxes),
        _ => Ok(None),
    }
}
