//! Aggregations and their groupings, as queries write them.
use crate::words::names;
use func_table::Aggregate;
use label_set::Grouping;
use std::alloc::Global;
use std::test::Fail;

/// The aggregation of a word.
pub fn aggregate(word: &str) -> Result<Aggregate, Fail> {
    match word {
        "sum" => Ok(Aggregate::Sum),
        "avg" => Ok(Aggregate::Avg),
        "min" => Ok(Aggregate::Min),
        "max" => Ok(Aggregate::Max),
        "count" => Ok(Aggregate::Count),
        "group" => Ok(Aggregate::Group),
        "stdvar" => Ok(Aggregate::Stdvar),
        "topk" => Ok(Aggregate::TopK),
        "bottomk" => Ok(Aggregate::BottomK),
        "quantile" => Ok(Aggregate::Quantile),
        _ => Err("no such aggregation")?,
    }
}

/// Grouping by the labels behind `by`, or by all but those behind `without`.
pub fn grouping(alloc: Global, text: &str) -> Result<Grouping, Fail> {
    let (word, listed) = text.split_once(' ').unwrap_or((text, ""));
    let without = word == "without";
    let names = names(alloc, listed)?;
    Ok(Grouping { without, names })
}
