//! Reading a script from the bytes of a file.
ghost use Rattle.label_set.specs.Labels.{labels_cmp};
ghost use Rattle.match_rule.specs.Gains.{Gains};
ghost use Rattle.script_read.specs.Expects.{Gathers, GrowsBy, RefusesOnLine, RefusesPattern, mode_wants, search_on};
ghost use Rattle.script_read.specs.Lines.{has_no_text, lines_of, words_behind};
ghost use Rattle.script_read.specs.Outcomes.{Gives, GivesWith, Makes, MakesWith, Says, then_give};
ghost use Rattle.script_read.specs.Reading.{body_line, command_of, commands_in, commands_of, eval_of, expected_after, is_clear, items_spelled, line_with, load_of, reading, series_lines, series_worded, text_read};
ghost use Rattle.script_read.specs.Refusals.{at_line};
ghost use Rattle.script_read.specs.Results.{AreSeen, result_added, rows_in, rows_with, scalar_added};
ghost use Rattle.script_read.specs.Views.{AddsCommands, block_of, deed_of, instruction, moments_asked, numbered, script_seen};
ghost use Rattle.std.specs.BTreeSet.{contains};
ghost use Rattle.std.specs.List.{slice_split};
ghost use Rattle.std.specs.Prelude.{◌≡◌, ◌∷◌, ◌<◌, ◌^◌, None, length, map, IfErr, IfOk};

use crate::command::{Evaluation, Heading, heading_of};
use crate::cut::{broken_line, lines_in};
use crate::expectation::{add_expectation, expected_by, is_expectation};
use crate::fault::{LineFault, ReadFault};
use crate::item::read_item;
use crate::line::{Line, words_behind, words_in};
use crate::quote::{has_histogram, without_comment};
use crate::rows::{begins_series, instant_points, number_alone, range_points};
use crate::script::{
    Command, Expectations, Expected, Script, ScriptRefusal, SeriesItem, SeriesLine, What,
};
use crate::series::{SeriesRead, read_series};
use label_set::{Items, Labels, Text};
use match_rule::Patterns;
use promql_meaning::ResultSeries;
use std::alloc::{AllocError, Global};
use std::collections::BTreeSet;
use ticks::Ms;
use xfrac::XFrac;

/// The most bytes of a file.
pub const FILE_LIMIT: usize = 4_194_304;

/// What a line says, or its refusal with its number.
fn at_line<T>(line: u32, said: Result<T, LineFault>) -> Result<T, ReadFault>
    ensures { result ≡ at_line line said }
{
    match said {
        Ok(value) => Ok(value),
        Err(fault) => Err(fault.at(line)),
    }
}

// ---- the lines behind `load`

/// The items of words. There is one or more.
fn read_items(alloc: Global, words: &[&[u8]]) -> Result<Items<SeriesItem>, LineFault>
    ensures { Says result (items_spelled (map (λ word. word.now) words.now)) }
{
    // The toolchain's borrow checker is told of the numbers in items where their type is named.
    let _none: Option<XFrac> = None;
    if words.is_empty() {
        return Err(LineFault::Malformed);
    }
    let mut items = Items::with_capacity(alloc, words.len())?;
    for word in words {
        items.push(read_item(word)?)?;
    }
    Ok(items)
}

fn series_in(alloc: Global, line: u32, text: &[u8]) -> Result<SeriesLine, LineFault>
    requires { length text.now < 2 ^ 32 }
    ensures { Says result (series_worded line text.now) }
{
    let text = without_comment(text);
    if has_histogram(text) {
        return Err(LineFault::NativeHistogram);
    }
    let SeriesRead { labels, behind } = read_series(alloc, text)?;
    line_with(alloc, line, labels, behind)
}

/// The items behind a series, one or more.
fn items_behind(alloc: Global, behind: &[u8]) -> Result<Items<SeriesItem>, LineFault>
    ensures { Says result (items_spelled (words_behind behind.now)) }
{
    let words = words_behind(alloc, behind)?;
    read_items(alloc, &words)
}

/// The line of a series that has a label, with the items behind it.
fn line_with(
    alloc: Global,
    line: u32,
    labels: Labels,
    behind: &[u8],
) -> Result<SeriesLine, LineFault>
    ensures { Says result (line_with line labels behind.now) }
{
    if labels.len() == 0 {
        return Err(LineFault::Malformed);
    }
    let items = items_behind(alloc, behind)?;
    Ok(SeriesLine {
        line,
        labels,
        items,
    })
}

fn series_lines(alloc: Global, body: &[Line<'_>]) -> Result<Items<SeriesLine>, ReadFault>
    ensures { Gives result (series_lines (map numbered body.now)) }
{
    let mut lines = Items::new(alloc);
    for line in body {
        lines.push(at_line(line.number, series_in(alloc, line.number, line.text))?)?;
    }
    Ok(lines)
}

fn read_load(
    alloc: Global,
    line: u32,
    interval: Ms,
    body: &[Line<'_>],
) -> Result<Command, ReadFault>
    ensures { Gives (then_give result instruction) (load_of line interval (map numbered body.now)) }
{
    let lines = series_lines(alloc, body)?;
    Ok(Command {
        line,
        what: What::Load { interval, lines },
    })
}

// ---- the lines behind `eval`

/// Makes a result that of a scalar line. It is the only line of the result of an instant.
fn add_scalar(
    alloc: Global,
    stated: &mut Expected,
    instant: bool,
    text: &[u8],
) -> Result<(), LineFault>
    ensures { Makes result stated.new (scalar_added instant stated.old text.now) }
{
    match stated {
        Expected::Rows(rows) if instant && rows.as_slice().is_empty() => {
            let words = words_in(alloc, text)?;
            *stated = Expected::Scalar(number_alone(&words)?);
            Ok(())
        }
        _ => Err(LineFault::Malformed),
    }
}

/// Adds a series to a result, in which no labels stand twice.
fn add_row(
    alloc: Global,
    rows: &mut Items<ResultSeries>,
    seen: &mut BTreeSet<Labels>,
    asked: &Evaluation<'_>,
    text: &[u8],
) -> Result<(), LineFault>
    requires short { length text.now < 2 ^ 32 }
    requires seen { AreSeen (contains labels_cmp seen.old) rows.old }
    ensures added { Makes result rows.new (rows_with (moments_asked asked.now) rows.old text.now) }
    ensures seen { IfOk result (λ _. AreSeen (contains labels_cmp seen.new) rows.new) }
{
    let series = read_series(alloc, text)?;
    if !seen.insert(series.labels.copy()?)? {
        return Err(LineFault::Malformed);
    }
    let points = if asked.instant {
        instant_points(alloc, &asked.grid, series.behind)?
    } else {
        range_points(alloc, &asked.grid, series.behind)?
    };
    rows.push(ResultSeries {
        labels: series.labels,
        points,
    })?;
    Ok(())
}

/// Adds a line of a result, which stands beside no expected failure.
fn add_result(
    alloc: Global,
    expected: &mut Expectations,
    seen: &mut BTreeSet<Labels>,
    asked: &Evaluation<'_>,
    text: &[u8],
) -> Result<(), LineFault>
    requires short { length text.now < 2 ^ 32 }
    requires seen { AreSeen (contains labels_cmp seen.old) (rows_in expected.old.result) }
    ensures added { Makes result expected.new (result_added (moments_asked asked.now) expected.old text.now) }
    ensures seen { IfOk result (λ _. AreSeen (contains labels_cmp seen.new) (rows_in expected.new.result)) }
{
    if !expected.fail.as_slice().is_empty() {
        return Err(LineFault::Malformed);
    }
    if !begins_series(text) {
        return add_scalar(alloc, &mut expected.result, asked.instant, text);
    }
    match &mut expected.result {
        Expected::Scalar(_) => Err(LineFault::Malformed),
        Expected::Rows(rows) => add_row(alloc, rows, seen, asked, text),
    }
}

/// Adds what a line behind an evaluation says.
fn add_line(
    alloc: Global,
    expected: &mut Expectations,
    seen: &mut BTreeSet<Labels>,
    asked: &Evaluation<'_>,
    text: &[u8],
    searches: &mut Patterns,
) -> Result<(), LineFault>
    requires short { length text.now < 2 ^ 32 }
    requires seen { AreSeen (contains labels_cmp seen.old) (rows_in expected.old.result) }
    ensures added { MakesWith result expected.new searches.new (λ kept. body_line kept (moments_asked asked.now) expected.old text.now) }
    ensures refused { IfErr result (RefusesPattern searches.new (search_on text.now)) }
    ensures seen { IfOk result (λ _. AreSeen (contains labels_cmp seen.new) (rows_in expected.new.result)) }
    ensures grows { GrowsBy (search_on text.now) searches.old searches.new }
{
    if is_expectation(text) {
        add_expectation(alloc, expected, asked.instant, text, searches)
    } else {
        add_result(alloc, expected, seen, asked, text)
    }
}

/// What the lines behind an evaluation expect of it.
fn expectations(
    alloc: Global,
    asked: &Evaluation<'_>,
    body: &[Line<'_>],
    searches: &mut Patterns,
) -> Result<Expectations, ReadFault>
    ensures said { GivesWith result searches.new (λ kept. expected_after kept (moments_asked asked.now) (mode_wants asked.now.mode) (map numbered body.now)) }
    ensures refused { IfErr result (RefusesOnLine searches.new (map numbered body.now)) }
    ensures grows { Gathers (map numbered body.now) searches.old searches.new }
{
    let mut expected = expected_by(alloc, asked.mode)?;
    let mut seen = BTreeSet::new(alloc);
    for line in body {
        at_line(
            line.number,
            add_line(alloc, &mut expected, &mut seen, asked, line.text, searches),
        )?;
    }
    Ok(expected)
}

fn read_eval(
    alloc: Global,
    line: u32,
    asked: &Evaluation<'_>,
    body: &[Line<'_>],
    searches: &mut Patterns,
) -> Result<Command, ReadFault>
    ensures said { GivesWith (then_give result instruction) searches.new (λ kept. eval_of kept line asked.now.mode (moments_asked asked.now) asked.now.text.now (map numbered body.now)) }
    ensures refused { IfErr result (RefusesOnLine searches.new (map numbered body.now)) }
    ensures grows { Gathers (map numbered body.now) searches.old searches.new }
{
    let expected = expectations(alloc, asked, body, searches)?;
    let text = Text::of(alloc, asked.text)?;
    Ok(Command {
        line,
        what: What::Eval {
            grid: asked.grid,
            instant: asked.instant,
            text,
            expected,
        },
    })
}

// ---- commands

/// The command of a line, with the lines behind it.
fn command_of(
    alloc: Global,
    line: Line<'_>,
    body: &[Line<'_>],
    searches: &mut Patterns,
) -> Result<Command, ReadFault>
    ensures said { GivesWith (then_give result instruction) searches.new (λ kept. command_of kept (numbered line.entry) (map numbered body.now)) }
    ensures refused { IfErr result (RefusesOnLine searches.new (numbered line.entry ∷ map numbered body.now)) }
    ensures grows { Gathers (numbered line.entry ∷ map numbered body.now) searches.old searches.new }
{
    match at_line(line.number, heading_of(line.text))? {
        Heading::Clear => Ok(Command {
            line: line.number,
            what: What::Clear,
        }),
        Heading::Load(interval) => read_load(alloc, line.number, interval, body),
        Heading::Eval(asked) => read_eval(alloc, line.number, &asked, body, searches),
    }
}

fn is_clear(what: &What) -> bool
    ensures { result ≡ is_clear (deed_of what.now) }
{
    match what {
        What::Clear => true,
        What::Load { .. } => false,
        What::Eval { .. } => false,
    }
}

/// Adds the commands of the lines between two empty ones. The lines behind a `clear` say commands; those behind another
/// command are its own.
fn read_block(
    alloc: Global,
    block: &[Line<'_>],
    commands: &mut Items<Command>,
    searches: &mut Patterns,
) -> Result<(), ReadFault>
    ensures added { AddsCommands result commands.old commands.new searches.new (λ kept. commands_in kept (map numbered block.now)) }
    ensures refused { IfErr result (RefusesOnLine searches.new (map numbered block.now)) }
    ensures grows { Gathers (map numbered block.now) searches.old searches.new }
{
    let mut rest = block;
    while let [line, body @ ..] = rest {
        let command = command_of(alloc, *line, body, searches)?;
        let goes_on = is_clear(&command.what);
        commands.push(command)?;
        if !goes_on {
            return Ok(());
        }
        rest = body;
    }
    Ok(())
}

/// The blocks of lines between empty ones.
fn blocks_in<'a, 'b>(
    alloc: Global,
    lines: &'a [Line<'b>],
) -> Result<Vec<&'a [Line<'b>]>, AllocError>
    ensures { IfOk result (λ blocks. map block_of blocks.items ≡ slice_split has_no_text (map numbered lines.now)) }
{
    lines.split(|line| line.text.is_empty()).collect(alloc)
}

fn read_lines(
    alloc: Global,
    lines: &[Line<'_>],
    searches: &mut Patterns,
) -> Result<Script, ReadFault>
    ensures said { GivesWith (then_give result script_seen) searches.new (λ kept. commands_of kept (slice_split has_no_text (map numbered lines.now))) }
    ensures refused { IfErr result (RefusesOnLine searches.new (map numbered lines.now)) }
    ensures grows { Gathers (map numbered lines.now) searches.old searches.new }
{
    let blocks = blocks_in(alloc, lines)?;
    let mut commands = Items::new(alloc);
    for block in &blocks {
        read_block(alloc, block, &mut commands, searches)?;
    }
    Ok(Script { commands })
}

// ---- files

fn read_text(alloc: Global, bytes: &[u8], searches: &mut Patterns) -> Result<Script, ReadFault>
    requires { length bytes.now < 2 ^ 31 }
    ensures said { GivesWith (then_give result script_seen) searches.new (λ kept. text_read kept None bytes.now) }
    ensures refused { IfErr result (RefusesOnLine searches.new (lines_of bytes.now)) }
    ensures grows { Gathers (lines_of bytes.now) searches.old searches.new }
{
    let lines = lines_in(alloc, bytes)?;
    read_lines(alloc, &lines, searches)
}

/// The script that a file holds; its search patterns are kept in `searches`, which are new for each script. `Refused` comes
/// exactly where the file isn't a script, with the first refusal; the only other error is want of memory. After an error
/// `searches` may have gained patterns.
pub fn read(alloc: Global, bytes: &[u8], searches: &mut Patterns) -> Result<Script, ReadFault>
    ensures said { GivesWith (then_give result script_seen) searches.new (λ kept. reading kept bytes.now) }
    ensures refused { IfErr result (RefusesOnLine searches.new (lines_of bytes.now)) }
    ensures grows { Gathers (lines_of bytes.now) searches.old searches.new }
    ensures gains { Gains searches.old searches.new }
    ensures few { IfOk result (λ script. length script.commands < 2 ^ 32) }
{
    if bytes.len() > FILE_LIMIT {
        return Err(ReadFault::Refused(ScriptRefusal::TooLarge));
    }
    match broken_line(bytes) {
        Some(line) => Err(ReadFault::Refused(ScriptRefusal::NotUtf8(line))),
        None => read_text(alloc, bytes, searches),
    }
}
