use crate::rows::{field, rows_hold, text_is};
use label_set::*;
use std::alloc::Global;
use std::test::Fail;

// Labels, and how Prometheus prints them.
const PRINTED: &str = "a=;b=>{}
__name__=up>up
job=api;__name__=up;env=prod>up{env=\"prod\",job=\"api\"}
job=api>{job=\"api\"}
__name__=job:up:sum;b:c=1>job:up:sum{\"b:c\"=\"1\"}
__name__=2xx>{\"2xx\"}
__name__=a.b;_c9=d;9c=d>{\"a.b\",\"9c\"=\"d\",_c9=\"d\"}
a=\\;b=say \"hi\">{a=\"\\\\\",b=\"say \\\"hi\\\"\"}
é=Größe;__name__=übel;Z=\t>{\"übel\",Z=\"\t\",\"é\"=\"Größe\"}";

// Labels, names, the labels with those names, the others, and the others without the metric's name.
const CHOSEN: &str = "__name__=up;env=prod;job=api>env;zone>env=prod>__name__=up;job=api>job=api
__name__=up;a=1;b=2;c=3>c;a;c;zz>a=1;c=3>__name__=up;b=2>b=2
__name__=up;a=1>__name__>__name__=up>a=1>a=1
__name__=up;a=1>>>__name__=up;a=1>a=1
b=1;bb=2;c=3>c;bb;b>b=1;bb=2;c=3>>
>a>>>";

// Calls one after another on one set of labels, and their answers; 4096 and 4097 stand for so many letters.
const CALLS: &str = "put>job>api>taken
put>>4097>EmptyName
set>>4097>EmptyName
put>4097>x>TooLong
set>4097>x>TooLong
put>job>4097>TooLong
set>job>4097>TooLong
put>job>web>Duplicate
set>job>web>taken
put>env>>taken
set>env>>taken
put>4096>4096>taken
set>4096>4096>taken";

// Labels in rising order.
const RISING: &str = "
a=1
a=1;b=1
a=2
ab=1
b=1
env=prod
env=prod;job=api
job=api";

/// The labels of `name=value` pairs.
fn labels_of(alloc: Global, pairs: &str) -> Result<Labels, Fail> {
    let mut labels = Labels::empty(alloc);
    for pair in pairs.split(';') {
        if let Some((name, value)) = pair.split_once('=') {
            labels.put(name, value)?;
        }
    }
    Ok(labels)
}

fn names_of(alloc: Global, words: &str) -> Result<Items<Text>, Memory> {
    let mut names = Items::new(alloc);
    for word in words.split(';') {
        names.push(Text::of(alloc, word)?)?;
    }
    Ok(names)
}

fn is_printed(alloc: Global, row: &str) -> Result<bool, Fail> {
    let labels = labels_of(alloc, field(row, '>', 0))?;
    let mut out = Vec::new(alloc);
    labels.write(&mut out)?;
    Ok(out.as_slice() == field(row, '>', 1).as_bytes())
}

#[test]
fn labels_are_printed(rt: HostRuntime) -> Result<(), Fail> {
    rows_hold(rt.alloc(), PRINTED, '\n', is_printed)
}

/// Whether labels are those of pairs.
fn are(labels: &Labels, alloc: Global, pairs: &str) -> Result<bool, Fail> {
    Ok(*labels == labels_of(alloc, pairs)?)
}

/// Whether the labels with names are those of a row, the others, and the others without the metric's name.
fn chooses(labels: &Labels, names: &Items<Text>, alloc: Global, row: &str) -> Result<bool, Fail> {
    let is_kept = are(&labels.keep(names)?, alloc, field(row, '>', 2))?;
    let is_on = are(&labels.signature(true, names)?, alloc, field(row, '>', 2))?;
    let are_others = are(&labels.without(names)?, alloc, field(row, '>', 3))?;
    let is_ignoring = are(&labels.signature(false, names)?, alloc, field(row, '>', 4))?;
    Ok(is_kept && is_on && are_others && is_ignoring)
}

fn is_chosen(alloc: Global, row: &str) -> Result<bool, Fail> {
    let labels = labels_of(alloc, field(row, '>', 0))?;
    let names = names_of(alloc, field(row, '>', 1))?;
    let is_copied = labels.copy()?.is_same(&labels);
    Ok(is_copied && chooses(&labels, &names, alloc, row)?)
}

#[test]
fn labels_are_chosen(rt: HostRuntime) -> Result<(), Fail> {
    rows_hold(rt.alloc(), CHOSEN, '\n', is_chosen)
}

fn letters(alloc: Global, word: &str) -> Result<String, Memory> {
    match word {
        "4096" => "a".repeat(alloc, 4096),
        "4097" => "a".repeat(alloc, 4097),
        _ => String::from_str(alloc, word),
    }
}

fn answer_of(answer: Result<(), LabelRefusal>) -> &'static str {
    match answer {
        Ok(()) => "taken",
        Err(LabelRefusal::EmptyName) => "EmptyName",
        Err(LabelRefusal::Duplicate) => "Duplicate",
        Err(LabelRefusal::TooMany) => "TooMany",
        Err(LabelRefusal::TooLong) => "TooLong",
        Err(LabelRefusal::Memory) => "Memory",
    }
}

/// Whether a row's call on labels has its answer.
fn is_answered(labels: &mut Labels, alloc: Global, row: &str) -> Result<bool, Fail> {
    let name = letters(alloc, field(row, '>', 1))?;
    let value = letters(alloc, field(row, '>', 2))?;
    let answer = if field(row, '>', 0) == "put" {
        labels.put(name.as_str(), value.as_str())
    } else {
        labels.set(name.as_str(), value.as_str())
    };
    Ok(answer_of(answer) == field(row, '>', 3))
}

/// Makes the calls of rows on labels, and fails with the first row of another answer.
fn call(labels: &mut Labels, alloc: Global, rows: &str) -> Result<(), Fail> {
    for row in rows.split('\n') {
        if !is_answered(labels, alloc, row)? {
            return Err(Fail::new(row));
        }
    }
    Ok(())
}

fn told(labels: &Labels, alloc: Global) -> Result<String, Memory> {
    let long = letters(alloc, "4096")?;
    let (count, job, env) = (labels.len(), labels.get("job"), labels.get("env"));
    let length = labels.get(long.as_str()).len();
    format!(in alloc; "{count} {job} {env} {length}")
}

#[test]
fn pairs_are_refused_in_order(rt: HostRuntime) -> Result<(), Fail> {
    let mut labels = Labels::empty(rt.alloc());
    call(&mut labels, rt.alloc(), CALLS)?;
    text_is(told(&labels, rt.alloc())?.as_str(), "2 web  4096")
}

/// 64 labels, of two lines each.
fn full(alloc: Global) -> Result<Labels, Fail> {
    let mut labels = Labels::empty(alloc);
    for i in 0..64u32 {
        let name = format!(in alloc; "l{i}")?;
        labels.put(name.as_str(), "1\n2")?;
    }
    Ok(labels)
}

// Further pairs while there are 64 labels, and then one less.
const FURTHER: &str = "put>a>x>TooMany
set>a>x>TooMany
set>a>>taken
set>l9>y>taken
set>l10>>taken
put>a>x>taken";

fn names_in(labels: &Labels, alloc: Global) -> Result<String, Memory> {
    let mut names = String::new(alloc);
    for place in 0..labels.len() {
        names.push_str(labels.pair(place).0)?;
        names.push(' ')?;
    }
    Ok(names)
}

#[test]
fn there_are_64_pairs_in_order(rt: HostRuntime) -> Result<(), Fail> {
    let mut labels = full(rt.alloc())?;
    call(&mut labels, rt.alloc(), FURTHER)?;
    let names = names_in(&labels, rt.alloc())?;
    let names = names.as_str();
    assert!(rt;
        names.starts_with("a l0 l1 l11 l12 ")
            && names.ends_with(" l7 l8 l9 ")
            && labels.get("l9") == "y",
        "{names}"
    );
    Ok(())
}

/// Whether labels come before those that stand at the places behind theirs, behind those before, and are their own.
fn is_in_order(alloc: Global, left: &Labels, place: usize) -> Result<bool, Fail> {
    for (other, pairs) in RISING.split('\n').enumerate() {
        let right = labels_of(alloc, pairs)?;
        let order = left.cmp(&right);
        if order != place.cmp(&other) || left.is_same(&right) != order.is_eq() {
            return Ok(false);
        }
    }
    Ok(true)
}

#[test]
fn labels_are_ordered(rt: HostRuntime) -> Result<(), Fail> {
    for (place, pairs) in RISING.split('\n').enumerate() {
        let labels = labels_of(rt.alloc(), pairs)?;
        if !is_in_order(rt.alloc(), &labels, place)? {
            return Err(Fail::new(pairs));
        }
    }
    Ok(())
}

fn rule(alloc: Global, kind: RuleKind) -> Result<Rule, Memory> {
    let label = Text::of(alloc, "job")?;
    Ok(Rule { label, kind })
}

fn rule_is_copied(alloc: Global) -> Result<bool, Memory> {
    let rule = rule(alloc, RuleKind::Re(PatternId(0)))?;
    Ok(rule.copy()?.is_same(&rule) && !rule.kind.is_same(&RuleKind::Nre(PatternId(0))))
}

fn grouping_is_copied(alloc: Global) -> Result<bool, Memory> {
    let names = names_of(alloc, "env;zone")?;
    let without = true;
    let grouping = Grouping { without, names };
    Ok(grouping.copy()?.is_same(&grouping))
}

fn pairing_is_copied(alloc: Global) -> Result<bool, Memory> {
    let names = names_of(alloc, "env;zone")?;
    let extra = names_of(alloc, "")?;
    let (on, card) = (true, Card::GroupLeft);
    let pairing = Pairing {
        on,
        names,
        card,
        extra,
    };
    Ok(pairing.copy()?.is_same(&pairing))
}

#[test]
fn rules_are_copied(rt: HostRuntime) -> Result<(), Fail> {
    let rule = rule_is_copied(rt.alloc())?;
    let grouping = grouping_is_copied(rt.alloc())?;
    let pairing = pairing_is_copied(rt.alloc())?;
    assert!(rt; rule && grouping && pairing);
    Ok(())
}

fn join(alloc: Global) -> Result<Relabel, Memory> {
    let target = Text::of(alloc, "job")?;
    let separator = Text::of(alloc, "-")?;
    let sources = names_of(alloc, "")?;
    Ok(Relabel::Join {
        target,
        separator,
        sources,
    })
}

fn replacement(alloc: Global) -> Result<Relabel, Memory> {
    let target = Text::of(alloc, "a")?;
    let template = Text::of(alloc, "$1")?;
    let source = Text::of(alloc, "b")?;
    let pattern = PatternId(2);
    Ok(Relabel::Replace {
        target,
        template,
        source,
        pattern,
    })
}

fn filter(alloc: Global) -> Result<Relabel, Memory> {
    let mut rules = Items::new(alloc);
    rules.push(rule(alloc, RuleKind::Ne(Text::of(alloc, "")?))?)?;
    Ok(Relabel::Filter(rules))
}

fn relabel_is_copied(change: &Relabel) -> Result<bool, Memory> {
    Ok(change.copy()? == *change)
}

#[test]
fn relabels_are_copied(rt: HostRuntime) -> Result<(), Fail> {
    let join = relabel_is_copied(&join(rt.alloc())?)?;
    let replacement = replacement(rt.alloc())?;
    let filter = filter(rt.alloc())?;
    let replaced = relabel_is_copied(&replacement)?;
    let filtered = relabel_is_copied(&filter)?;
    assert!(rt; join && replaced && filtered && filter != replacement);
    Ok(())
}
