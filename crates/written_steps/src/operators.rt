use std::test::Fail;
use xfrac::{ArithOp, CompareOp, PairOp};

fn arithmetic(word: &str) -> Option<ArithOp> {
    match word {
        "+" => Some(ArithOp::Add),
        "-" => Some(ArithOp::Sub),
        "*" => Some(ArithOp::Mul),
        "/" => Some(ArithOp::Div),
        "%" => Some(ArithOp::Rem),
        "^" => Some(ArithOp::Pow),
        _ => None,
    }
}

fn comparison(word: &str) -> Option<CompareOp> {
    match word {
        "==" => Some(CompareOp::Eq),
        "!=" => Some(CompareOp::Ne),
        "<" => Some(CompareOp::Lt),
        "<=" => Some(CompareOp::Le),
        ">" => Some(CompareOp::Gt),
        ">=" => Some(CompareOp::Ge),
        _ => None,
    }
}

/// An operator, as queries write it; `bool` stands right behind a comparison that gives 0 or 1.
pub fn operator(word: &str) -> Result<PairOp, Fail> {
    if let Some(op) = arithmetic(word) {
        return Ok(PairOp::Arith(op));
    }
    if let Some(op) = comparison(word) {
        return Ok(PairOp::Filter(op));
    }
    let flag = word.strip_suffix("bool").ok_or("no such operator")?;
    Ok(PairOp::Flag(comparison(flag).ok_or("no such comparison")?))
}
