//! Runs of words over boxes of engines: what is printed depends neither on who is pulled next, nor on how many instants are computed at once.
ghost use Rattle.promql_tool.specs.Boxes.{AreFresh, IsFresh};
ghost use Rattle.std.specs.Prelude.{◌≡◌, ◌+◌, length, map, OnOk};

use crate::rows::rows_hold;
use crate::shelf::{push_lines, shelf_of};
use edge_io::MemSink;
use engine_local::LocalEngine;
use holders::Items;
use promql_tool::{Status, run_tool};
use remote_api::{Courier, Engine, InOrder, Listed, Turns};
use std::alloc::{AllocError, Global};
use std::marker::Brand;
use std::sync::ledger::{Blank, Ledger};
use std::test::Fail;
use ticks::Work;

/// Each row is the path of a file, and behind a `|` its script, whose line feeds are written `|`.
const FILES: &str = r##"
sums.test|load 1m|x{i="1",region="eu"} 5e29|x{i="2",region="eu"} -5e29|x{region="us"} 1|
great.test|load 1m|x{region="eu"} 6e29|x{region="us"} -6e29|
two.test|load 1m|x{i="1",region="eu"} 1 2 3|x{i="2",region="us"} 4 5 6||eval instant at 1m x|x{i="1",region="eu"} 2|x{i="2",region="us"} 5|
eu.test|load 1m|x{region="eu"} 1||eval instant at 0 x|x{region="eu"} 1|
none.test|eval instant at 0 x|
p.test|load 1m|x 1||eval instant at 0 x|x 1|
gaps.test|load 1m|x{region="eu"} 1|y{region="ap"} _x3||eval instant at 0 x|x{region="eu"} 1|
again.test|load 1m|x{region="eu"} 1||eval instant at 0 x|x{region="eu"} 1||clear||load 1m|x{region="us"} 2||eval instant at 0 x|x{region="us"} 2|
order.test|load 1m|x{region="eu"} 1|x{region="eu"} 2|y 1|
jobs.test|load 1m|h{job="api",instance="0",region="eu",code="200"} 0+90x60|h{job="api",instance="1",region="eu",code="200"} 0+90x60|h{job="api",instance="2",region="us",code="200"} 0+90x60|h{job="api",instance="0",region="eu",code="500"} 0+10x60|h{job="api",instance="1",region="eu",code="500"} 0+10x60|h{job="api",instance="2",region="us",code="500"} 0+10x60|h{job="web",instance="0",region="eu",code="200"} 0+90x60|h{job="web",instance="2",region="us",code="200"} 0+90x60|h{job="web",instance="0",region="eu",code="500"} 0+10x60|h{job="web",instance="2",region="us",code="500"} 0+10x60||eval range from 0 to 1h step 5m sum by (job) (rate(h{code=~"5.."}[5m])) / sum by (job) (rate(h[5m]))|{job="api"} _ 0.1x11|{job="web"} _ 0.1x11|
"##;

/// Each row is the number of boxes, a status, a text with its line feeds written `;`, and the words with two blanks between them, of which
/// `REGIONS` stands for the two regions, over the files of `FILES`.
const RUNS: &str = r##"
2|1|FAILED at 0 overflow;|query  --engines  REGIONS  sums.test  sum(x)
2|0|{region="eu"} 0@0;{region="us"} 1@0;|query  --engines  REGIONS  sums.test  sum by (region) (x)
2|1|FAILED at 0 overflow;|query  --engines  REGIONS  great.test  sum(x)
2|1|FAILED at 0 overflow;|query  --engines  REGIONS  great.test  avg(x)
4|0|PASS two.test:5;passed 1 failed 0;|promqltest  --engines  REGIONS  two.test
2|0|x{i="1",region="eu"} 1@0 2@60000 3@120000;x{i="2",region="us"} 4@0 5@60000 6@120000;|query  --engines  REGIONS  --from  0  --to  2m  --step  1m  two.test  x
2|0|{} 2@0;|query  --engines  REGIONS  two.test  count(x)
2|0|{} 2.5@0;|query  --engines  REGIONS  two.test  avg(x)
2|0|{} 4@0;|query  --engines  REGIONS  two.test  max(x)
2|0|x{i="2",region="us"} 4@0;|query  --engines  REGIONS  two.test  topk(1, x)
2|0|{} 5@0 7@60000 9@120000;|query  --engines  REGIONS  --from  0  --to  2m  --step  1m  two.test  sum(x)
2|0|{i="1",region="eu"} 3@120000;{i="2",region="us"} 6@120000;|query  --engines  REGIONS  --at  2m  two.test  max_over_time(x[2m:1m])
2|0|x{i="1",region="eu"} 2@0;x{i="2",region="us"} 5@0;|query  --engines  REGIONS  two.test  x @ 60
2|0|{i="1",region="eu"} 2@120000;{i="2",region="us"} 2@120000;|query  --engines  REGIONS  --at  2m  two.test  count_over_time(x[2m])
2|0|{i="1",region="eu"} 3@120000;{i="2",region="us"} 3@120000;|query  --engines  REGIONS  --edges  v2  --at  2m  two.test  count_over_time(x[2m])
2|0|{i="1",region="eu"} 3@60000;|query  --engines  REGIONS  --at  1m  two.test  sum without (i) (x{i="2"}) * 0 + on() group_right x{i="1"} + 1
2|0|empty;|query  --engines  REGIONS  two.test  y
2|0|scalar 3@0;|query  --engines  REGIONS  two.test  1 + 2
2|1|REFUSED Expected at 3;|query  --engines  REGIONS  two.test  1 +
2|0|PASS jobs.test:13;passed 1 failed 0;|promqltest  --engines  REGIONS  jobs.test
4|0|PASS jobs.test:13;passed 1 failed 0;|promqltest  --engines  instance=0;instance=1;instance=2  jobs.test
1|0|PASS eu.test:4;passed 1 failed 0;|promqltest  --engines  region=eu  eu.test
2|0|PASS eu.test:4;PASS none.test:1;passed 2 failed 0;|promqltest  --engines  REGIONS  eu.test  none.test
2|0|PASS again.test:4;PASS again.test:12;passed 2 failed 0;|promqltest  --engines  REGIONS  again.test
2|0|empty;|query  --engines  REGIONS  none.test  x
1|6|REFUSED p.test:2 Unplaced;|promqltest  --engines  region=eu  p.test
2|6|REFUSED p.test:2 Unplaced;|query  --engines  REGIONS  p.test  x
2|6|REFUSED gaps.test:3 Unplaced;|promqltest  --engines  REGIONS  gaps.test
2|6|REFUSED order.test:3 Conflict;|promqltest  --engines  REGIONS  order.test
2|6|PASS eu.test:4;REFUSED p.test:2 Unplaced;|promqltest  --engines  REGIONS  eu.test  p.test  none.test
2|3|PASS eu.test:4;FAULT read b.test;|promqltest  --engines  REGIONS  eu.test  b.test
4|0|series 2000 samples 122000;PASS workload:2003;PASS workload:2006;PASS workload:2012;passed 3 failed 0;|workload  2000  --engines  g=0;g=1;g=2;g=3
4|0|series 5 samples 305;PASS workload:8;PASS workload:11;PASS workload:17;passed 3 failed 0;|workload  5  --engines  g=0;g=1;g=2;g=3
2|6|series 5 samples 305;REFUSED workload:2 Unplaced;|workload  5  --engines  REGIONS
"##;

/// The same, of words that need no engine, or that are no command.
const OTHERS: &str = r##"
4|0|series 2000 samples 122000;PASS workload:2003;PASS workload:2006;PASS workload:2012;passed 3 failed 0;|workload  2000
2|0|gather rows from 1,2: x;|explain  --engines  REGIONS  x
2|0|call rate;  gather windows from 1,2: x[5m];|explain  --engines  REGIONS  rate(x[5m])
2|0|select x;|explain  x
2|1|REFUSED Expected at 3;|explain  --engines  REGIONS  1 +
2|0|x;|format  x
2|2|usage: promqltest [options] FILE.. or query [options] FILE EXPR;|format  --engines  REGIONS  x
1|2|usage: promqltest [options] FILE.. or query [options] FILE EXPR;|promqltest  --engines  REGIONS  two.test
0|2|usage: promqltest [options] FILE.. or query [options] FILE EXPR;|promqltest  --engines  region=eu  eu.test
4|2|usage: promqltest [options] FILE.. or query [options] FILE EXPR;|promqltest  --engines=  eu.test
4|2|usage: promqltest [options] FILE.. or query [options] FILE EXPR;|promqltest  --engines  ;  eu.test
4|2|usage: promqltest [options] FILE.. or query [options] FILE EXPR;|promqltest  --engines  region=eu;  eu.test
4|2|usage: promqltest [options] FILE.. or query [options] FILE EXPR;|promqltest  --engines  region=eu,  eu.test
4|2|usage: promqltest [options] FILE.. or query [options] FILE EXPR;|promqltest  --engines  ,region=eu  eu.test
4|2|usage: promqltest [options] FILE.. or query [options] FILE EXPR;|promqltest  --engines  region  eu.test
4|2|usage: promqltest [options] FILE.. or query [options] FILE EXPR;|promqltest  --engines  region=  eu.test
4|2|usage: promqltest [options] FILE.. or query [options] FILE EXPR;|promqltest  --engines  =eu  eu.test
4|2|usage: promqltest [options] FILE.. or query [options] FILE EXPR;|promqltest  --engines  region=eu,region=us  eu.test
4|2|usage: promqltest [options] FILE.. or query [options] FILE EXPR;|promqltest  --engines  region=eu;region=eu  eu.test
4|2|usage: promqltest [options] FILE.. or query [options] FILE EXPR;|promqltest  --engines  region=eu;zone=a  eu.test
4|2|usage: promqltest [options] FILE.. or query [options] FILE EXPR;|query  --engines  __name__=x  eu.test  x
4|2|usage: promqltest [options] FILE.. or query [options] FILE EXPR;|query  --engines  region=eu;region=eu,zone=a  eu.test  x
4|2|usage: promqltest [options] FILE.. or query [options] FILE EXPR;|workload  --engines  g=0  --engines  g=0  5
"##;

/// The words of a line, the first with a batch behind it, if one is chosen.
fn words_of(alloc: Global, line: &str, batch: &str) -> Result<Vec<String>, AllocError> {
    let mut words = Vec::new(alloc);
    for word in line.split("  ") {
        let word = if word == "REGIONS" {
            "region=eu;region=us"
        } else {
            word
        };
        words.push(String::from_str(alloc, word)?)?;
        if words.len() == 1 && !batch.is_empty() {
            words.push(String::from_str(alloc, batch)?)?;
        }
    }
    Ok(words)
}

/// Adds a box to others, to none of which anything was done.
fn add(engines: &mut Vec<Box<dyn Engine>>, one: Box<dyn Engine>) -> Result<(), AllocError>
    requires before { AreFresh (map (λ b. seen b) engines.old.items) }
    requires one { IsFresh (seen one) }
    ensures fresh { OnOk result (AreFresh (map (λ b. seen b) engines.new.items)) }
    ensures many { OnOk result (length engines.new.items ≡ length engines.old.items + 1) }
{
    engines.push(one)?;
    Ok(())
}

/// Runs words over so many boxes of engines, with counters of their own.
fn run_counted<W: Ledger, C: Courier>(
    alloc: Global,
    blank: Blank,
    words: &[String],
    boxes: u32,
    courier: &mut C,
    out: &mut MemSink,
) -> Result<Status, AllocError>
    requires name { blank.name ≡ W.name }
    requires parts { blank.parts ≡ W.parts }
    requires three { blank.parts ≡ 3 }
{
    let mut library = shelf_of(FILES, 0);
    let mut engines: Vec<Box<dyn Engine>> = Vec::new(alloc);
    for _ in 0..boxes {
        add(&mut engines, Box::new(alloc, LocalEngine::new(alloc))?)?;
    }
    let mut work = Work::<W>::new(blank);
    Ok(run_tool(
        alloc,
        words,
        &mut library,
        out,
        &mut engines,
        courier,
        &mut work,
    ))
}

/// What a row says.
#[derive(Clone, Copy)]
struct Row<'a> {
    boxes: u32,
    status: u32,
    printed: &'a str,
    line: &'a str,
}

fn row_of(row: &str) -> Option<Row<'_>> {
    let (boxes, rest) = row.split_once('|')?;
    let (status, rest) = rest.split_once('|')?;
    let (printed, line) = rest.split_once('|')?;
    Some(Row {
        boxes: boxes.parse::<u32>().unwrap_or(0),
        status: status.parse::<u32>().unwrap_or(0),
        printed,
        line,
    })
}

/// Whether a row is so under one courier and one batch.
fn runs_so<C: Courier>(
    alloc: Global,
    row: Row<'_>,
    batch: &str,
    courier: &mut C,
) -> Result<bool, AllocError> {
    let words = words_of(alloc, row.line, batch)?;
    let mut out = MemSink::of(alloc, Items::new(alloc));
    let got = run_counted::<Brand, C>(alloc, Blank::new(3), &words, row.boxes, courier, &mut out)?;
    let mut printed = Vec::new(alloc);
    push_lines(&mut printed, row.printed, b';')?;
    Ok(out.written() == printed.as_slice() && u32::from(got.0) == row.status)
}

/// Picks of a list, with numbers beyond the engines among them.
fn picks(alloc: Global) -> Result<Listed, AllocError> {
    let mut numbers = Items::new(alloc);
    for number in [1, 1, 0, 5, 0, 1, 3, 2] {
        numbers.push(number)?;
    }
    Ok(Listed::of(numbers))
}

/// Whether a row is so under each courier.
fn runs_under_all(alloc: Global, row: Row<'_>, batch: &str) -> Result<bool, AllocError> {
    Ok(
        runs_so(alloc, row, batch, &mut InOrder::new())?
            && runs_so(alloc, row, batch, &mut Turns::new())?
            && runs_so(alloc, row, batch, &mut picks(alloc)?)?,
    )
}

/// Whether a row is so under each courier and with batches of several sizes.
fn row_runs_so(alloc: Global, row: &str) -> Result<bool, Fail> {
    let row = row_of(row).ok_or("a row without its fields")?;
    for batch in ["--batch=1", "--batch=3", "--batch=64"] {
        if !runs_under_all(alloc, row, batch)? {
            return Ok(false);
        }
    }
    Ok(true)
}

/// The same without a batch.
fn other_runs_so(alloc: Global, row: &str) -> Result<bool, Fail> {
    let row = row_of(row).ok_or("a row without its fields")?;
    Ok(runs_under_all(alloc, row, "")?)
}

#[test]
fn words_are_run_over_engines(rt: HostRuntime) -> Result<(), Fail> {
    rows_hold(rt.alloc(), RUNS, 34, row_runs_so)
}

#[test]
fn words_need_no_engine(rt: HostRuntime) -> Result<(), Fail> {
    rows_hold(rt.alloc(), OTHERS, 23, other_runs_so)
}
