ghost use Rattle.match_rule.specs.Patterns.{HasItsPattern, IsWholeId};
ghost use Rattle.std.specs.Prelude.{◌≡◌, IfOk};

use crate::rows::{field, rows_hold};
use label_set::{Items, Labels, PatternId, Rule, RuleKind, Text};
use match_rule::*;
use std::alloc::Global;
use std::test::Fail;

// Rows are parted by `;`, and their fields by a blank: a pattern, a value, whether the pattern passes it as a whole and
// whether it is found in it, and what the groups span. `''` is the empty text. Told by hand from the rules of Prometheus.
const ROWS: &str =
    "'' '' yes yes 0-0;'' a no yes none;a|b| b yes yes 0-1;a|b| '' yes yes 0-0;a|b| ab no yes none;| '' yes yes 0-0;| | no yes none;api apis no yes none;b|c abd no yes none;é|x é yes yes 0-2;a.b axb yes yes 0-3;a.b a\nb yes no 0-3;a.b xaxb no yes none;.* '' yes yes 0-0;.* one\ntwo yes yes 0-7;(?i)x X yes yes 0-1;(?i)x xx no yes none;a|^b$ b yes yes 0-1;^a$ ba no no none;x+|y xxy no yes none;[0-9]{2} 1 no no none;(.*) 7 yes yes 0-1,0-1;(a)?(b) b yes yes 0-1,-,0-1;(a)|x(b+) xbb yes yes 0-3,-,1-3;(a)(b) b no no none";

fn unquoted(text: &str) -> &str {
    if text == "''" { "" } else { text }
}

fn said(passes: bool) -> &'static str {
    if passes { "yes" } else { "no" }
}

/// What a group spans, as a text.
fn span_text(alloc: Global, span: Option<(usize, usize)>) -> Result<String, Memory> {
    match span {
        None => String::from_str(alloc, "-"),
        Some((start, end)) => format!(in alloc; "{start}-{end}"),
    }
}

fn span_texts(alloc: Global, spans: &Spans) -> Result<String, Memory> {
    let mut text = String::new(alloc);
    for i in 0..spans.len() {
        if i > 0 {
            text.push(',')?;
        }
        text.push_str(span_text(alloc, spans.get(i))?.as_str())?;
    }
    Ok(text)
}

/// What the groups of a pattern span in a value, as a text.
fn spans_of(
    alloc: Global,
    patterns: &mut Patterns,
    id: PatternId,
    value: &str,
) -> Result<String, Memory>
    requires { IsWholeId patterns.old id.0 }
{
    let mut spans = Spans::new(alloc);
    if !patterns.groups(id, value, &mut spans)? {
        return String::from_str(alloc, "none");
    }
    span_texts(alloc, &spans)
}

/// A row's answers, as its line has them.
fn answers(alloc: Global, pattern: &str, value: &str) -> Result<String, PatternRefusal> {
    let mut room = PatternRoom::new(alloc)?;
    let mut patterns = Patterns::new(alloc, &mut room);
    let id = patterns.whole(pattern)?;
    let whole = said(patterns.matches(id, value)?);
    let spans = spans_of(alloc, &mut patterns, id, value)?;
    let part = patterns.search(pattern)?;
    let found = said(patterns.matches(part, value)?);
    Ok(format!(in alloc; "{whole} {found} {spans}")?)
}

fn value_passes(alloc: Global, row: &str) -> Result<bool, Fail> {
    let mut fields = row.splitn(3, ' ');
    let pattern = unquoted(fields.next().unwrap_or(""));
    let value = unquoted(fields.next().unwrap_or(""));
    Ok(answers(alloc, pattern, value)?.as_str() == fields.next().unwrap_or(""))
}

#[test]
fn patterns_pass_values(rt: HostRuntime) -> Result<(), Fail> {
    rows_hold(rt.alloc(), ROWS, ';', value_passes)
}

// Calls one after another on one set of patterns, and their answers: the pattern's number, or why it's refused.
const KEPT: &str =
    "whole ( bad;search ( bad;whole [a bad;search [a bad;whole * bad;search * bad;whole a{2,1} bad;search a{2,1} bad;whole (?P<n> bad;search (?P<n> bad;whole a.b 0;search a.b 1;whole a.b 0;whole a0 2;whole a1 3;whole a2 4;whole a3 5;whole a4 6;whole a5 7;whole a6 8;whole a7 9;whole a8 10;whole a9 11;whole a10 12;whole a11 13;whole a12 14;whole a13 15;whole a14 16;whole a15 17;whole a16 18;whole a17 19;whole a18 20;whole a19 21;whole a20 22;whole a21 23;whole a22 24;whole a23 25;whole a24 26;whole a25 27;whole a26 28;whole a27 29;whole a28 30;whole a29 31;whole a29 31;search a29 full;whole x.y full;whole ( bad";

fn kept(patterns: &mut Patterns, call: &str) -> Result<PatternId, PatternRefusal> {
    let text = field(call, ' ', 1);
    match field(call, ' ', 0) {
        "whole" => patterns.whole(text),
        _ => patterns.search(text),
    }
}

/// Whether a call on patterns is answered as it says.
fn is_kept(patterns: &mut Patterns, call: &str) -> Result<bool, Fail> {
    let answer = kept(patterns, call);
    match field(call, ' ', 2) {
        "bad" => Ok(answer == Err(PatternRefusal::BadPattern)),
        "full" => Ok(answer == Err(PatternRefusal::TooManyPatterns)),
        id => Ok(answer == Ok(PatternId(id.parse()?))),
    }
}

#[test]
fn there_are_32_patterns(rt: HostRuntime) -> Result<(), Fail> {
    let mut room = PatternRoom::new(rt.alloc())?;
    let mut patterns = Patterns::new(rt.alloc(), &mut room);
    for call in KEPT.split(';') {
        if !is_kept(&mut patterns, call)? {
            return Err(Fail::new(call));
        }
    }
    Ok(())
}

fn rule_on_env(alloc: Global, kind: RuleKind) -> Result<Rule, Memory>
    ensures { IfOk result (λ rule. rule.kind ≡ kind) }
{
    Ok(Rule {
        label: Text::of(alloc, "env")?,
        kind,
    })
}

/// Whether labels pass one rule on `env`, by each of the ways to ask.
fn pass_both_ways(
    alloc: Global,
    kind: RuleKind,
    patterns: &mut Patterns,
    labels: &Labels,
) -> Result<(bool, bool), Memory>
    requires { HasItsPattern patterns.old kind }
    ensures { patterns.new ≡ patterns.old }
{
    let rule = rule_on_env(alloc, kind)?;
    let first = passes(&rule, patterns, labels.get("env"))?;
    let mut rules = Items::new(alloc);
    rules.push(rule)?;
    let second = labels_pass(rules.as_slice(), patterns, labels)?;
    Ok((first, second))
}

/// Whether a pattern's rule passes, and the rule against it.
fn pattern_passes(
    alloc: Global,
    text: &str,
    labels: &Labels,
) -> Result<((bool, bool), (bool, bool)), PatternRefusal> {
    let mut room = PatternRoom::new(alloc)?;
    let mut patterns = Patterns::new(alloc, &mut room);
    let id = patterns.whole(text)?;
    let matching = pass_both_ways(alloc, RuleKind::Re(id), &mut patterns, labels)?;
    let unmatching = pass_both_ways(alloc, RuleKind::Nre(id), &mut patterns, labels)?;
    Ok((matching, unmatching))
}

// Each row is the value of `env`, a pattern, and whether the pattern's rule passes.
const PATTERN_RULES: &str = "prod p.* yes;prod dev| no;prod prod|dev yes;'' dev| yes;'' .+ no";

fn env(alloc: Global, value: &str) -> Result<Labels, Fail> {
    let mut labels = Labels::empty(alloc);
    labels.put("env", value)?;
    Ok(labels)
}

fn pattern_holds(alloc: Global, row: &str) -> Result<bool, Fail> {
    let labels = env(alloc, unquoted(field(row, ' ', 0)))?;
    let got = pattern_passes(alloc, field(row, ' ', 1), &labels)?;
    let on = field(row, ' ', 2) == "yes";
    Ok(got == ((on, on), (!on, !on)))
}

#[test]
fn labels_pass_rules(rt: HostRuntime) -> Result<(), Fail> {
    rows_hold(rt.alloc(), PATTERN_RULES, ';', pattern_holds)
}

/// Whether the text of an equality passes where `env` is `prod`, and the rule against it.
fn equality_passes(alloc: Global, text: &str) -> Result<((bool, bool), (bool, bool)), Fail> {
    let labels = env(alloc, "prod")?;
    let mut room = PatternRoom::new(alloc)?;
    let mut patterns = Patterns::new(alloc, &mut room);
    let equal = RuleKind::Eq(Text::of(alloc, text)?);
    let matching = pass_both_ways(alloc, equal, &mut patterns, &labels)?;
    let unequal = RuleKind::Ne(Text::of(alloc, text)?);
    let unmatching = pass_both_ways(alloc, unequal, &mut patterns, &labels)?;
    Ok((matching, unmatching))
}

fn equality_holds(alloc: Global, row: &str) -> Result<bool, Fail> {
    let got = equality_passes(alloc, unquoted(field(row, ' ', 0)))?;
    let on = field(row, ' ', 1) == "yes";
    Ok(got == ((on, on), (!on, !on)))
}

#[test]
fn equality_takes_the_whole_text(rt: HostRuntime) -> Result<(), Fail> {
    rows_hold(rt.alloc(), "prod yes;'' no", ';', equality_holds)
}

#[test]
fn a_pattern_keeps_its_text(rt: HostRuntime) -> Result<(), Fail> {
    let mut room = PatternRoom::new(rt.alloc())?;
    let mut patterns = Patterns::new(rt.alloc(), &mut room);
    let id = patterns.search("(?i)up|x")?;
    assert_eq!(rt; patterns.text(id), "(?i)up|x");
    Ok(())
}
