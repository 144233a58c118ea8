use crate::rows::rows_hold;
use holders::{Items, Text};
use label_set::Labels;
use std::alloc::{AllocError, Global};
use std::test::Fail;
use ticks::Grid;
use tool_words::{
    Asked, Choices, Optimisers, batches_are_asked_for, commands_are_simple, edges_are_asked_for,
    read_words, words_say_what_they_spell,
};

// Each line is what is asked for, and then the words, each behind a `|`. Times are in milliseconds. There are no boxes of engines.
const ROWS: &str = "refused
refused|
refused|--
refused|--help
refused|-h
refused|help
refused|load|1
refused|workload
refused|workload|
refused|workload|0
refused|workload|01
refused|workload|20001
refused|workload|-1
refused|workload|--|-1
refused|workload|+7
refused|workload|1e3
refused|workload|1.0
refused|workload| 7
refused|workload|٣
refused|workload|4294967297
refused|workload|99999999999999999999999999
refused|workload|1|2
refused|workload|--at|1|100
refused|workload|--help
workload 1|workload|1
workload 100|workload|100
workload 20000|workload|--|20000
refused|PromQLTest|a
refused|promqltest
refused|promqltest|--
refused|promqltest|--help
refused|promqltest|-h
refused|promqltest|a|--help
refused|promqltest|a|-h
refused|promqltest|a|--help|--
refused|promqltest|-V|a
refused|promqltest|-x
refused|promqltest|-x|a
refused|promqltest|a|-b
refused|promqltest|-1|a
refused|promqltest|-é|a
refused|promqltest|---|a
refused|promqltest|--=a|a
refused|promqltest|--=|a
test <a>|promqltest|--opts|all|a
test <a>|promqltest|--opts=all|a
refused|promqltest|--engines=r=eu|a
refused|promqltest|--at|1|a
test <a.test>|promqltest|a.test
test <a.test> <b.test>|promqltest|a.test|b.test
test <b> <a> <b>|promqltest|b|a|b
test <query> <promqltest>|promqltest|query|promqltest
test <größe.test> <日>|promqltest|größe.test|日
test <at=1> <=> <a b>|promqltest|at=1|=|a b
test <->|promqltest|-
test <>|promqltest|
test <a> <> <b>|promqltest|a||b
test <a>|promqltest|--|a
test <a>|promqltest|a|--
test <-x>|promqltest|--|-x
test <a> <-h> <--help>|promqltest|a|--|-h|--help
test <--> <--opts>|promqltest|--|--|--opts
refused|query
refused|query|f
refused|query|f|--
refused|query|f|e|g
refused|query|f|e|--|g
refused|query|--|f|e|--at|1
refused|query|f|-1
refused|query|f|e|-h
refused|query|--help|f|e
without sort,propagate,merge,trim,avg,remote query 0 to 0 by 1 at once: <f> <e>|query|--opts|none|f|e
refused|query|--engines|r=eu|f|e
query 0 to 0 by 1 at once: <f> <e>|query|f|e
query 0 to 0 by 1 at once: <f> <sum by (a) (x{b='ü'})>|query|f|sum by (a) (x{b='ü'})
query 0 to 0 by 1 at once: <f> <-1>|query|f|--|-1
query 0 to 0 by 1 at once: <f> <-1>|query|--|f|-1
query 0 to 0 by 1 at once: <--at> <1>|query|--|--at|1
query 0 to 0 by 1 at once: <-> <->|query|-|-
query 0 to 0 by 1 at once: <> <>|query||
query 60000 to 60000 by 1 at once: <f> <e>|query|--at|1m|f|e
query 60000 to 60000 by 1 at once: <f> <e>|query|f|--at|+1m|e
query 5400000 to 5400000 by 1 at once: <f> <e>|query|f|e|--at=1h30m
query -60000 to -60000 by 1 at once: <f> <e>|query|f|e|--at=-1m
query 1500 to 1500 by 1 at once: <f> <->|query|f|--at|1.5|--|-
query 100000000000000 to 100000000000000 by 1 at once: <f> <e>|query|--at|100000000000|f|e
query -100000000000000 to -100000000000000 by 1 at once: <f> <e>|query|--at=-100000000000|f|e
refused|query|--at|100000000000.001|f|e
refused|query|--at|-1m|f|e
refused|query|--at|-|f|e
refused|query|--at||f|e
refused|query|--at=|f|e
refused|query|--at==1|f|e
refused|query|--at=1=2|f|e
refused|query|--at|1x|f|e
refused|query|--at|0.0001|f|e
refused|query|--at|NaN|f|e
refused|query|--at|101y|f|e
refused|query|f|e|--at
refused|query|--at|--|f|e
refused|query|--at|--from|f|e
refused|query|--at|1|--at|1|f|e
refused|query|--at=1|--at=1|f|e
refused|query|--at|1|f|--at=1|e
refused|query|--at=1|f|e|--at|1
refused|query|--a|1|f|e
refused|query|--a=1|f|e
refused|query|--att|1|f|e
refused|query|--AT|1|f|e
refused|query|-at|1|f|e
refused|query|---at|1|f|e
refused|query|--at |1|f|e
refused|query|--at|0|--from|0|f|e
refused|query|--at=0|--to=0|f|e
refused|query|--step=1|--at=0|f|e
refused|query|--at|0|--from|0|--to|1|--step|1|f|e
refused|query|--from|0|f|e
refused|query|--from|0|--to|1|f|e
refused|query|--from|0|--step|1|f|e
refused|query|--to|1|--step|1|f|e
query 0 to 60000 by 30000: <f> <e>|query|--from|0|--to|1m|--step|30s|f|e
query -60000 to 120000 by 60000: <f> <e>|query|--step=1m|f|--to=2m|e|--from=-1m
query 0 to 10999000 by 1000: <f> <1>|query|--from|0|--to|10999|--step|1|f|1
query 5 to 5 by 7: <f> <-e>|query|f|--from=5ms|--to=0.005|--step|7ms|--|-e
query -100000000000000 to 100000000000000 by 100000000000000: <f> <e>|query|--from=-100000000000|--to=100000000000|--step=100000000000|f|e
refused|query|--from|0|--to|11000|--step|1|f|e
refused|query|--from|0|--to|11000ms|--step|1ms|f|e
refused|query|--from|1|--to|0|--step|1|f|e
refused|query|--from|0|--to|1|--step|0|f|e
refused|query|--from|0|--to|1|--step=-1|f|e
refused|query|--from|0|--to|1|--step=|f|e
refused|query|--from|0|--to|100000000000.001|--step|100000000000|f|e
refused|query|--from=-100000000000.001|--to|0|--step|100000000000|f|e
refused|query|--from|0|--to|1|--step|1|--from|0|f|e
refused|query|--from|0|--to|1|--step|1|--to=1|f|e
refused|query|f|e|--from|0|--to|1|--step
closed test <a>|promqltest|--edges|v2|a
closed test <a> <b>|promqltest|a|--edges=v2|b
closed test <-x>|promqltest|--edges=v2|--|-x
test <a>|promqltest|--edges|v3|a
test <a>|promqltest|a|--edges=v3
test <--edges> <v2>|promqltest|--|--edges|v2
refused|promqltest|--edges|v4|a
refused|promqltest|--edges=v4|a
refused|promqltest|--edges||a
refused|promqltest|--edges=|a
refused|promqltest|--edges|V2|a
refused|promqltest|--edges|v2 |a
refused|promqltest|--edges=v|a
refused|promqltest|--edges=v22|a
refused|promqltest|--edges|2|a
refused|promqltest|--edges|v2|--edges|v2|a
refused|promqltest|--edges=v2|a|--edges=v3
refused|promqltest|--edges|v2
refused|promqltest|a|--edges
refused|promqltest|--edge|v2|a
closed query 0 to 0 by 1 at once: <f> <e>|query|--edges|v2|f|e
closed query 60000 to 60000 by 1 at once: <f> <e>|query|f|--at|1m|e|--edges=v2
closed query 0 to 60000 by 30000: <f> <e>|query|--from|0|--to|1m|--edges=v2|--step|30s|f|e
query 0 to 0 by 1 at once: <f> <e>|query|f|e|--edges=v3
query 0 to 0 by 1 at once: <f> <--edges=v2>|query|f|--|--edges=v2
refused|query|--edges|v4|f|e
refused|query|--edges=|f|e
refused|query|--edges||f|e
refused|query|--edges|v2|f|e|--edges|v2
refused|query|--edges|v2|--at|1|--from|0|f|e
closed workload 7|workload|--edges|v2|7
closed workload 7|workload|7|--edges=v2
workload 7|workload|--edges=v3|7
refused|workload|--edges=v4|7
refused|workload|--edges=|7
refused|workload|--edges=v2|--edges=v2|7
refused|workload|--edges|v2
by 1 test <a>|promqltest|--batch|1|a
by 3 test <a> <b>|promqltest|a|--batch=3|b
by 10 test <-x>|promqltest|--batch=10|--|-x
by 1024 test <a>|promqltest|a|--batch|1024
test <a>|promqltest|--batch=64|a
closed by 7 test <a>|promqltest|--batch|7|--edges|v2|a
test <--batch> <3>|promqltest|--|--batch|3
test <3> <a>|promqltest|3|a
refused|promqltest|--batch|0|a
refused|promqltest|--batch|00|a
refused|promqltest|--batch|01|a
refused|promqltest|--batch=064|a
refused|promqltest|--batch|1025|a
refused|promqltest|--batch|2000|a
refused|promqltest|--batch|10000|a
refused|promqltest|--batch|4294967299|a
refused|promqltest|--batch|18446744073709551619|a
refused|promqltest|--batch|99999999999999999999999999|a
refused|promqltest|--batch|x|a
refused|promqltest|--batch|3x|a
refused|promqltest|--batch|0x3|a
refused|promqltest|--batch| 3|a
refused|promqltest|--batch|3 |a
refused|promqltest|--batch|+3|a
refused|promqltest|--batch=-3|a
refused|promqltest|--batch|1e2|a
refused|promqltest|--batch|3.0|a
refused|promqltest|--batch|1_0|a
refused|promqltest|--batch|٣|a
refused|promqltest|--batch||a
refused|promqltest|--batch=|a
refused|promqltest|--batch==3|a
refused|promqltest|--batch|3|--batch|3|a
refused|promqltest|--batch=3|a|--batch=64
refused|promqltest|--batch|3
refused|promqltest|a|--batch
refused|promqltest|--batch|--|3|a
refused|promqltest|--Batch|3|a
refused|promqltest|--batches|3|a
refused|promqltest|-batch|3|a
by 3 query 0 to 0 by 1 at once: <f> <e>|query|--batch|3|f|e
by 1 query 60000 to 60000 by 1 at once: <f> <e>|query|f|--at|1m|e|--batch=1
closed by 1024 query 0 to 60000 by 30000: <f> <e>|query|--from|0|--batch=1024|--to|1m|--edges=v2|--step|30s|f|e
query 0 to 0 by 1 at once: <f> <e>|query|f|e|--batch|64
query 0 to 0 by 1 at once: <f> <--batch=3>|query|f|--|--batch=3
refused|query|--batch|0|f|e
refused|query|--batch=01|f|e
refused|query|--batch|1025|f|e
refused|query|--batch|x|f|e
refused|query|--batch=|f|e
refused|query|--batch|3|f|e|--batch|3
refused|query|--batch|3|--edges|v4|f|e
refused|query|--batch|3|--at|1|--from|0|f|e
refused|query|--batch|3|f
by 3 workload 7|workload|--batch|3|7
closed by 1 workload 7|workload|7|--edges=v2|--batch=1
workload 7|workload|--batch=64|7
workload 1|workload|--|1
refused|workload|--batch=0|7
refused|workload|--batch=01|7
refused|workload|--batch|1025|7
refused|workload|--batch|x|7
refused|workload|--batch=3|--batch=3|7
refused|workload|--batch|7
format <x>|format|x
format <x>|format|--|x
format <x>|format|x|--
format <>|format|
format <->|format|-
format <-1>|format|--|-1
format <--help>|format|--|--help
format <sum by (a) (x{b='ü'})>|format|sum by (a) (x{b='ü'})
refused|format
refused|format|--
refused|format|x|y
refused|format|x|--|y
refused|format|--|x|y
refused|format|-1
refused|format|--help
refused|format|x|-h
refused|format|--edges|v2|x
refused|format|--edges=v2|x
refused|format|--batch|1|x
refused|format|x|--batch=1
refused|format|--at=1|x
refused|Format|x
refused|formats|x
refused|format|--opts|all|x
refused|format|--opts=none|x
without sort,propagate,merge,trim,avg,remote test <a> <b>|promqltest|a|--opts=none|b
without propagate,merge,trim,avg,remote test <a>|promqltest|--opts|sort|a
without sort,merge,trim,avg,remote test <a>|promqltest|--opts|propagate|a
without sort,propagate,trim,avg,remote test <a>|promqltest|--opts|merge|a
without sort,propagate,merge,avg,remote test <a>|promqltest|--opts|trim|a
without sort,propagate,merge,trim,remote test <a>|promqltest|--opts|avg|a
without sort,propagate,merge,trim,avg test <a>|promqltest|--opts|remote|a
test <a>|promqltest|--opts|remote,avg,trim,merge,propagate,sort|a
without sort,propagate,avg,remote test <a>|promqltest|--opts=trim,merge,trim,trim|a
closed by 3 without sort,propagate,merge,trim,avg,remote test <a>|promqltest|--opts|none|--edges|v2|--batch|3|a
without sort,propagate,merge,trim,remote workload 7|workload|--opts=avg|7
by 3 without sort,propagate,merge,trim,remote query 60000 to 60000 by 1 at once: <f> <e>|query|--at|1m|--opts|avg|f|--batch=3|e
test <--opts=none>|promqltest|--|--opts=none
refused|promqltest|--opts||a
refused|promqltest|--opts=|a
refused|promqltest|--opts|All|a
refused|promqltest|--opts|NONE|a
refused|promqltest|--opts|sorts|a
refused|promqltest|--opts|sort |a
refused|promqltest|--opts| sort|a
refused|promqltest|--opts|sort, avg|a
refused|promqltest|--opts|sort,|a
refused|promqltest|--opts|,sort|a
refused|promqltest|--opts|sort,,avg|a
refused|promqltest|--opts|,|a
refused|promqltest|--opts|sort;avg|a
refused|promqltest|--opts|all,sort|a
refused|promqltest|--opts|sort,none|a
refused|promqltest|--opts|all,all|a
refused|promqltest|--opts|pass|a
refused|promqltest|--opts|sort|--opts|avg|a
refused|promqltest|--opts=sort|a|--opts=sort
refused|promqltest|--opts|none
refused|promqltest|a|--opts
refused|promqltest|--opt|none|a
refused|query|--opts|x|f|e
refused|workload|--opts|x|7
explain <x>|explain|x
explain <x>|explain|--opts|all|x
without sort,propagate,merge,trim,avg,remote explain <x>|explain|x|--opts=none
without sort,merge,trim,remote explain <-x>|explain|--opts|avg,propagate|--|-x
explain <>|explain|
explain <--opts>|explain|--|--opts
refused|explain
refused|explain|--opts|none
refused|explain|x|y
refused|explain|-1
refused|explain|--help
refused|explain|--opts|x|x
refused|explain|--opts=all|--opts=all|x
refused|explain|--edges|v2|x
refused|explain|--batch=1|x
refused|explain|--at=1|x
refused|Explain|x
refused|workload|--engines=g=0|7
refused|explain|--engines|r=eu|x
refused|format|--engines=r=eu|x
refused|promqltest|--engines|a=1|--opts|none|a";

// The same, where there are two boxes of engines.
const TWO_BOXES: &str = "over region=eu test <a>|promqltest|--engines|region=eu|a
over region=eu;region=us test <a> <b>|promqltest|a|--engines=region=eu;region=us|b
over a=1,b=2;a=1,b=3 test <a>|promqltest|--engines|b=2,a=1;a=1,b=3|a
over a=x=y test <a>|promqltest|--engines|a=x=y|a
over a==1 test <a>|promqltest|--engines=a==1|a
over a = 1 test <a>|promqltest|--engines|a = 1|a
over a=-1 test <-x>|promqltest|--engines|a=-1|--|-x
over -a=1 test <a>|promqltest|--engines=-a=1|a
over größe=日 test <a>|promqltest|--engines|größe=日|a
closed by 3 without sort,propagate,merge,trim,avg,remote over a=1;a=2 test <a>|promqltest|--opts|none|--edges|v2|--engines|a=1;a=2|--batch|3|a
test <a>|promqltest|a
test <a=1>|promqltest|a=1
test <--engines=a=1>|promqltest|--|--engines=a=1
refused|promqltest|--engines|a=1;a=2;a=3|a
refused|promqltest|--engines|a=1;a=1;a=1|a
refused|promqltest|--engines|a=1;a=1|a
refused|promqltest|--engines|a=1,b=2;b=2,a=1|a
refused|promqltest|--engines|a=1;b=1|a
refused|promqltest|--engines|a=1;a=1,b=2|a
refused|promqltest|--engines||a
refused|promqltest|--engines=|a
refused|promqltest|--engines|;|a
refused|promqltest|--engines|a=1;|a
refused|promqltest|--engines|;a=1|a
refused|promqltest|--engines|a=1,|a
refused|promqltest|--engines|,a=1|a
refused|promqltest|--engines|a|a
refused|promqltest|--engines|a=|a
refused|promqltest|--engines|=1|a
refused|promqltest|--engines==1|a
refused|promqltest|--engines|a=1,a=2|a
refused|promqltest|--engines|__name__=x|a
refused|promqltest|--engines|a=1,__name__=x|a
refused|promqltest|--engines|-a=1|a
refused|promqltest|--engines|a=1|--engines|a=1|a
refused|promqltest|--engines=a=1|a|--engines=a=2
refused|promqltest|--engines|a=1|--opts|x|a
refused|promqltest|--engines|a=1
refused|promqltest|a|--engines
refused|promqltest|--engine|a=1|a
refused|promqltest|--Engines|a=1|a
over r=eu query 0 to 0 by 1 at once: <f> <e>|query|--engines|r=eu|f|e
over r=eu;r=us query 0 to 60000 by 30000: <f> <e>|query|--from|0|--to|1m|--engines=r=eu;r=us|--step|30s|f|e
query 0 to 0 by 1 at once: <f> <e>|query|f|e
query 0 to 0 by 1 at once: <f> <--engines=a=1>|query|f|--|--engines=a=1
refused|query|--engines|a=1;a=2;a=3|f|e
refused|query|--engines|a=1;a=1|f|e
refused|query|--engines=|f|e
refused|query|--engines|a=1|f|e|--engines|a=1
refused|query|--engines|a=1|--at|1|--from|0|f|e
refused|query|--engines|a=1|f
over g=0;g=1 workload 7|workload|--engines|g=0;g=1|7
over g=0 workload 7|workload|7|--engines=g=0
workload 7|workload|7
refused|workload|--engines|g=0;g=1;g=2|7
refused|workload|--engines|g=0;g=0|7
refused|workload|--engines|g=0|0
refused|workload|--engines|7
over r=eu;r=us explain <x>|explain|--engines|r=eu;r=us|x
without sort,merge,trim,remote over r=eu explain <x>|explain|x|--engines=r=eu|--opts|avg,propagate
explain <x>|explain|x
explain <--engines>|explain|--|--engines
refused|explain|--engines|r=eu;r=us;r=ap|x
refused|explain|--engines|r|x
refused|explain|--engines|r=eu
format <x>|format|x
refused|format|--engines|r=eu|x
refused|format|--engines=r=eu|x";

/// The optimisers that aren't chosen.
fn left_out(alloc: Global, optimisers: Optimisers) -> Result<String, AllocError> {
    let mut text = String::new(alloc);
    for (chosen, name) in [
        (optimisers.sort, "sort"),
        (optimisers.propagate, "propagate"),
        (optimisers.merge, "merge"),
        (optimisers.trim, "trim"),
        (optimisers.avg, "avg"),
        (optimisers.remote, "remote"),
    ] {
        if !chosen {
            text.push_str(if text.is_empty() { "without " } else { "," })?;
            text.push_str(name)?;
        }
    }
    if !text.is_empty() {
        text.push_str(" ")?;
    }
    Ok(text)
}

/// What is chosen is told, but for what holds without an option.
fn chosen(alloc: Global, choices: Choices) -> Result<String, AllocError> {
    let edge = if choices.closed { "closed " } else { "" };
    let without = left_out(alloc, choices.optimisers)?;
    let without = without.as_str();
    match choices.batch {
        64 => format!(in alloc; "{edge}{without}"),
        batch => format!(in alloc; "{edge}by {batch} {without}"),
    }
}

/// The labels of an engine, as a set of `--engines`.
fn set_told(alloc: Global, labels: &Labels) -> Result<String, AllocError> {
    let mut text = String::new(alloc);
    for i in 0..labels.len() {
        let (name, value) = labels.pair(i);
        let comma = if i == 0 { "" } else { "," };
        text.push_str(format!(in alloc; "{comma}{name}={value}")?.as_str())?;
    }
    Ok(text)
}

/// The engines that are declared, if there are any.
fn over(alloc: Global, engines: Items<Labels>) -> Result<String, AllocError> {
    let mut text = String::new(alloc);
    for labels in engines.as_slice() {
        text.push_str(if text.is_empty() { "over " } else { ";" })?;
        text.push_str(set_told(alloc, labels)?.as_str())?;
    }
    if !text.is_empty() {
        text.push_str(" ")?;
    }
    Ok(text)
}

/// What is chosen for evaluations, and the engines that they are over.
fn front(alloc: Global, choices: Choices, engines: Items<Labels>) -> Result<String, AllocError> {
    let (chosen, over) = (chosen(alloc, choices)?, over(alloc, engines)?);
    format!(in alloc; "{chosen}{over}")
}

fn files_told(alloc: Global, front: String, files: Items<Text>) -> Result<String, AllocError> {
    let mut text = front;
    text.push_str("test")?;
    for file in files.as_slice() {
        let file = file.as_str();
        text.push_str(format!(in alloc; " <{file}>")?.as_str())?;
    }
    Ok(text)
}

fn instants_told(alloc: Global, grid: Grid, instant: bool) -> Result<String, AllocError> {
    let kind = if instant { " at once" } else { "" };
    let (start, end, step) = (grid.start.0, grid.end.0, grid.step.0);
    format!(in alloc; "{start} to {end} by {step}{kind}")
}

fn explain_told(
    alloc: Global,
    optimisers: Optimisers,
    engines: Items<Labels>,
    expr: Text,
) -> Result<String, AllocError> {
    let (without, over) = (left_out(alloc, optimisers)?, over(alloc, engines)?);
    let expr = expr.as_str();
    format!(in alloc; "{without}{over}explain <{expr}>")
}

fn told(alloc: Global, asked: Asked) -> Result<String, AllocError> {
    match asked {
        Asked::Test {
            choices,
            engines,
            files,
        } => files_told(alloc, front(alloc, choices, engines)?, files),
        Asked::Query {
            choices,
            engines,
            grid,
            instant,
            file,
            expr,
        } => {
            let front = front(alloc, choices, engines)?;
            let instants = instants_told(alloc, grid, instant)?;
            let (file, expr) = (file.as_str(), expr.as_str());
            format!(in alloc; "{front}query {instants}: <{file}> <{expr}>")
        }
        Asked::Workload {
            choices,
            engines,
            count,
        } => {
            let front = front(alloc, choices, engines)?;
            format!(in alloc; "{front}workload {count}")
        }
        Asked::Format { expr } => {
            let expr = expr.as_str();
            format!(in alloc; "format <{expr}>")
        }
        Asked::Explain {
            optimisers,
            engines,
            expr,
        } => explain_told(alloc, optimisers, engines, expr),
    }
}

fn words_of(alloc: Global, listed: &str) -> Result<Vec<String>, AllocError> {
    let mut words = Vec::new(alloc);
    for word in listed.split('|').skip(1) {
        words.push(String::from_str(alloc, word)?)?;
    }
    Ok(words)
}

/// Whether the words of a row ask for what it says, where there are so many boxes.
fn asks(alloc: Global, row: &str, boxes: u32) -> Result<bool, Fail> {
    let words = words_of(alloc, row)?;
    let text = match read_words(alloc, &words, boxes)? {
        Some(asked) => told(alloc, asked)?,
        None => String::from_str(alloc, "refused")?,
    };
    Ok(Some(text.as_str()) == row.split('|').next())
}

fn asks_without_boxes(alloc: Global, row: &str) -> Result<bool, Fail> {
    asks(alloc, row, 0)
}

fn asks_over_two(alloc: Global, row: &str) -> Result<bool, Fail> {
    asks(alloc, row, 2)
}

#[test]
fn words_ask(rt: HostRuntime) -> Result<(), Fail> {
    commands_are_simple();
    words_say_what_they_spell();
    edges_are_asked_for();
    batches_are_asked_for();
    rows_hold(rt.alloc(), ROWS, 320, asks_without_boxes)?;
    rows_hold(rt.alloc(), TWO_BOXES, 68, asks_over_two)
}
