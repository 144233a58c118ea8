//! The texts of operators, of what stands behind them, and of groupings.
ghost use Rattle.promql_print.specs.Operators.{arithmetic_sign, comparison_sign, group_words, grouping_words, is_empty, is_grouped, matching_words, pair_words, pairing_words, set_word, tells_grouping, word_with};
ghost use Rattle.std.specs.Prelude.{◌≡◌, ◌++◌, OnOk};

use crate::labels::append_labels;
use func_table::SetOp;
use holders::{Items, Text};
use label_set::{Card, Grouping, Pairing};
use std::alloc::AllocError;
use xfrac::{ArithOp, CompareOp, PairOp};

const fn arithmetic_sign(op: ArithOp) -> &'static str
    ensures { result.now ≡ arithmetic_sign op }
{
    match op {
        ArithOp::Add => "+",
        ArithOp::Sub => "-",
        ArithOp::Mul => "*",
        ArithOp::Div => "/",
        ArithOp::Rem => "%",
        ArithOp::Pow => "^",
    }
}

const fn comparison_sign(op: CompareOp) -> &'static str
    ensures { result.now ≡ comparison_sign op }
{
    match op {
        CompareOp::Eq => "==",
        CompareOp::Ne => "!=",
        CompareOp::Lt => "<",
        CompareOp::Le => "<=",
        CompareOp::Gt => ">",
        CompareOp::Ge => ">=",
    }
}

const fn set_word(op: SetOp) -> &'static str
    ensures { result.now ≡ set_word op }
{
    match op {
        SetOp::And => "and",
        SetOp::Unless => "unless",
        SetOp::Or => "or",
    }
}

fn is_empty(labels: &Items<Text>) -> bool
    ensures { result ≡ is_empty labels.now }
{
    labels.as_slice().is_empty()
}

fn is_grouped(card: Card) -> bool
    ensures { result ≡ is_grouped card }
{
    match card {
        Card::OneToOne => false,
        Card::GroupLeft | Card::GroupRight => true,
    }
}

fn append_word(word: &[u8], labels: &Items<Text>, into: &mut Vec<u8>) -> Result<(), AllocError>
    ensures { OnOk result (into.new.items ≡ into.old.items ++ word_with word.now labels.now) }
{
    into.extend_from_slice(word)?;
    append_labels(labels, into)
}

fn append_matching(pairing: &Pairing, into: &mut Vec<u8>) -> Result<(), AllocError>
    ensures { OnOk result (into.new.items ≡ into.old.items ++ matching_words pairing.now) }
{
    if pairing.on {
        append_word(b" on ", &pairing.names, into)
    } else if !is_empty(&pairing.names) || is_grouped(pairing.card) {
        append_word(b" ignoring ", &pairing.names, into)
    } else {
        Ok(())
    }
}

fn append_group(card: Card, extra: &Items<Text>, into: &mut Vec<u8>) -> Result<(), AllocError>
    ensures { OnOk result (into.new.items ≡ into.old.items ++ group_words card extra.now) }
{
    match card {
        Card::OneToOne => Ok(()),
        Card::GroupLeft => append_word(b" group_left ", extra, into),
        Card::GroupRight => append_word(b" group_right ", extra, into),
    }
}

fn append_pairing(pairing: &Pairing, into: &mut Vec<u8>) -> Result<(), AllocError>
    ensures { OnOk result (into.new.items ≡ into.old.items ++ pairing_words pairing.now) }
{
    append_matching(pairing, into)?;
    append_group(pairing.card, &pairing.extra, into)
}

fn append_pair_sign(op: PairOp, into: &mut Vec<u8>) -> Result<(), AllocError>
    ensures { OnOk result (into.new.items ≡ into.old.items ++ pair_words op) }
{
    match op {
        PairOp::Arith(op) => into.extend_from_slice(arithmetic_sign(op).as_bytes()),
        PairOp::Filter(op) => into.extend_from_slice(comparison_sign(op).as_bytes()),
        PairOp::Flag(op) => {
            into.extend_from_slice(comparison_sign(op).as_bytes())?;
            into.extend_from_slice(b" bool")
        }
    }
}

/// Appends an arithmetic operator or a comparison, and the words behind it. The only error is want of memory; then a part may be
/// appended.
pub fn append_pair_operator(
    op: PairOp,
    pairing: &Pairing,
    into: &mut Vec<u8>,
) -> Result<(), AllocError>
    ensures { OnOk result (into.new.items ≡ into.old.items ++ (pair_words op ++ pairing_words pairing.now)) }
{
    append_pair_sign(op, into)?;
    append_pairing(pairing, into)
}

/// Appends a set operator, and the words behind it. The only error is want of memory; then a part may be appended.
pub fn append_set_operator(
    op: SetOp,
    pairing: &Pairing,
    into: &mut Vec<u8>,
) -> Result<(), AllocError>
    ensures { OnOk result (into.new.items ≡ into.old.items ++ (set_word op ++ pairing_words pairing.now)) }
{
    into.extend_from_slice(set_word(op).as_bytes())?;
    append_pairing(pairing, into)
}

/// Whether a grouping is told: by default all rows are one group.
pub(crate) fn tells_grouping(grouping: &Grouping) -> bool
    ensures { result ≡ tells_grouping grouping.now }
{
    grouping.without || !is_empty(&grouping.names)
}

/// Appends a grouping behind a blank; where all rows are one group, nothing. The only error is want of memory; then a part may be
/// appended.
pub fn append_grouping(grouping: &Grouping, into: &mut Vec<u8>) -> Result<(), AllocError>
    ensures { OnOk result (into.new.items ≡ into.old.items ++ grouping_words grouping.now) }
{
    if grouping.without {
        append_word(b" without ", &grouping.names, into)
    } else if is_empty(&grouping.names) {
        Ok(())
    } else {
        append_word(b" by ", &grouping.names, into)
    }
}
