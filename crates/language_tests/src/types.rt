//! The types of trees that no text has, or that are asked for what no query tells.
use crate::rows::rows_hold;
use func_table::Aggregate;
use holders::Items;
use label_set::{Card, Grouping, Pairing, PatternId};
use match_rule::{PatternRoom, Patterns};
use promql_ast::{Expr, Node, QueryRefusal};
use promql_parse::parse;
use promql_type::{TypeFault, Typed, check};
use std::alloc::Global;
use std::test::Fail;

const AGGREGATIONS: &str = "sum
avg
min
max
count
group
stdvar
topk
bottomk
quantile
count_values";

const TYPES: &str = "1 => scalar
x => vector
scalar(x) => scalar
vector(1) => vector";

/// The tree of a text, with patterns that nobody reads.
pub fn tree(alloc: Global, text: &str) -> Result<Expr, Fail> {
    let mut room = PatternRoom::new(alloc)?;
    match parse(alloc, text, &mut Patterns::new(alloc, &mut room)) {
        Ok(e) => Ok(e),
        Err(_) => Err(Fail::from("no tree")),
    }
}

/// An aggregation of nothing, as the grammar has none.
fn of_nothing(alloc: Global, f: Aggregate) -> Expr {
    let grouping = Grouping {
        without: false,
        names: Items::new(alloc),
    };
    Expr {
        at: 7,
        node: Node::Aggregate(f, grouping, Items::new(alloc)),
    }
}

/// Whether an aggregation of nothing is refused, at its place.
fn is_refused(alloc: Global, f: Aggregate) -> Result<bool, Fail> {
    let mut room = PatternRoom::new(alloc)?;
    let mut patterns = Patterns::new(alloc, &mut room);
    match check(alloc, of_nothing(alloc, f), &mut patterns) {
        Err(TypeFault::Refused(refusal)) => Ok(refusal == QueryRefusal::WrongArity(7)),
        _ => Ok(false),
    }
}

fn aggregation(name: &str) -> Option<Aggregate> {
    match name {
        "sum" => Some(Aggregate::Sum),
        "avg" => Some(Aggregate::Avg),
        "min" => Some(Aggregate::Min),
        "max" => Some(Aggregate::Max),
        "count" => Some(Aggregate::Count),
        "group" => Some(Aggregate::Group),
        "stdvar" => Some(Aggregate::Stdvar),
        "topk" => Some(Aggregate::TopK),
        "bottomk" => Some(Aggregate::BottomK),
        "quantile" => Some(Aggregate::Quantile),
        "count_values" => Some(Aggregate::CountValues),
        _ => None,
    }
}

fn is_name_refused(alloc: Global, name: &str) -> Result<bool, Fail> {
    match aggregation(name) {
        Some(f) => is_refused(alloc, f),
        None => Ok(false),
    }
}

#[test]
fn aggregations_take_arguments(rt: HostRuntime) -> Result<(), Fail> {
    rows_hold(rt.alloc(), AGGREGATIONS, 11, is_name_refused)
}

/// Whether a text's tree is a scalar or a vector, as its row tells.
fn is_of_type(alloc: Global, row: &str) -> Result<bool, Fail> {
    let (text, wanted) = row.split_once(" => ").ok_or("a row without its type")?;
    let mut room = PatternRoom::new(alloc)?;
    let mut patterns = Patterns::new(alloc, &mut room);
    let typed = check(alloc, tree(alloc, text)?, &mut patterns)?;
    Ok(typed.is_scalar() == (wanted == "scalar"))
}

#[test]
fn trees_are_scalars_or_vectors(rt: HostRuntime) -> Result<(), Fail> {
    rows_hold(rt.alloc(), TYPES, 4, is_of_type)
}

const REPLACED: &str = "-label_replace(x, \"a\", \"$1\", \"b\", \"p.*\") + on() group_left(c) 1";

/// Whether a typed tree's copy is equal to it.
fn is_copied(typed: &Typed) -> Result<bool, Fail> {
    let copy = typed.copy()?;
    Ok(copy == *typed)
}

/// Whether the tree of an operator has no words to match by.
fn has_no_pairing(alloc: Global, typed: &Typed) -> Result<bool, Fail> {
    let none = Pairing {
        on: false,
        names: Items::new(alloc),
        card: Card::OneToOne,
        extra: Items::new(alloc),
    };
    match &typed.expr().node {
        Node::Pair(_, _, _, kept) => Ok(*kept == none),
        _ => Ok(false),
    }
}

/// The numbers of the patterns at places 1 and 0, whether a copy is equal, and whether the operator has no words to match by.
fn told_typed(alloc: Global, typed: &Typed) -> Result<String, Fail> {
    let (first, other) = (typed.pattern(1), typed.pattern(0));
    let copied = is_copied(typed)?;
    let bare = has_no_pairing(alloc, typed)?;
    Ok(format!(in alloc; "{first:?} {other:?} {copied} {bare}")?)
}

fn told_replaced(alloc: Global, patterns: &mut Patterns) -> Result<String, Fail> {
    let e = tree(alloc, REPLACED)?;
    let typed = check(alloc, e, patterns)?;
    told_typed(alloc, &typed)
}

#[test]
fn typed_trees(rt: HostRuntime) -> Result<(), Fail> {
    let mut room = PatternRoom::new(rt.alloc())?;
    let mut patterns = Patterns::new(rt.alloc(), &mut room);
    patterns.whole("first.*")?;
    let told = told_replaced(rt.alloc(), &mut patterns)?;
    assert_eq!(rt; told.as_str(), "Some(PatternId(1)) None true true");
    assert_eq!(rt; patterns.whole("p.*"), Ok(PatternId(1)));
    Ok(())
}

#[test]
fn faults_are_copied(_rt: HostRuntime) -> Result<(), Fail> {
    let fault = TypeFault::Refused(QueryRefusal::WrongType(3));
    if fault.copy()? == fault {
        Ok(())
    } else {
        Err(Fail::from("another fault"))
    }
}
