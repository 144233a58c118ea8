//! The texts of numbers, durations and moments, and of selectors at their moments.
ghost use Rattle.promql_print.specs.Canonical.{duration_text, fixed_text, moment_text, number_text, offset_text, range_text, seconds_text, select_text, steps_text};
ghost use Rattle.std.specs.Prelude.{◌≡◌, ◌++◌, OnOk};
ghost use Rattle.xfrac.specs.Forming.{formed};

use crate::labels::append_rules;
use frac_text::write_number;
use label_set::Rule;
use match_rule::Patterns;
use promql_ast::{Fixed, Moment};
use std::alloc::AllocError;
use ticks::{Ms, write_duration};
use xfrac::{XFrac, of};

/// Appends a number, `Inf` without a sign. The only error is want of memory; then a part may be appended.
pub fn append_number(value: &XFrac, into: &mut Vec<u8>) -> Result<(), AllocError>
    ensures { OnOk result (into.new.items ≡ into.old.items ++ number_text value.now) }
{
    match value {
        XFrac::PosInf => into.extend_from_slice(b"Inf"),
        _ => write_number(value, into),
    }
}

fn append_duration(duration: Ms, into: &mut Vec<u8>) -> Result<(), AllocError>
    ensures { OnOk result (into.new.items ≡ into.old.items ++ duration_text duration) }
{
    write_duration(duration, into)
}

/// A time in seconds, which each time has.
#[tactic(auto, using(crate::proofs::Seconds::taken))]
fn in_seconds(time: Ms) -> Option<XFrac>
    ensures { result ≡ formed time.0 1000 }
{
    of(time.0 as i128, 1000).ok()
}

fn append_seconds(time: Ms, into: &mut Vec<u8>) -> Result<(), AllocError>
    ensures { OnOk result (into.new.items ≡ into.old.items ++ seconds_text time) }
{
    match in_seconds(time) {
        Some(seconds) => write_number(&seconds, into),
        None => Ok(()),
    }
}

fn append_fixed(fixed: Option<Fixed>, into: &mut Vec<u8>) -> Result<(), AllocError>
    ensures { OnOk result (into.new.items ≡ into.old.items ++ fixed_text fixed) }
{
    match fixed {
        None => Ok(()),
        Some(Fixed::At(time)) => {
            into.extend_from_slice(b" @ ")?;
            append_seconds(time, into)
        }
        Some(Fixed::Start) => into.extend_from_slice(b" @ start()"),
        Some(Fixed::End) => into.extend_from_slice(b" @ end()"),
    }
}

#[tactic(auto, using(crate::proofs::Seconds::told))]
fn append_offset(offset: Ms, into: &mut Vec<u8>) -> Result<(), AllocError>
    ensures { OnOk result (into.new.items ≡ into.old.items ++ offset_text offset.0) }
{
    let milliseconds = offset.0;
    if milliseconds == 0 {
        return Ok(());
    }
    into.extend_from_slice(b" offset ")?;
    write_duration(offset, into)
}

fn append_moment(moment: &Moment, into: &mut Vec<u8>) -> Result<(), AllocError>
    ensures { OnOk result (into.new.items ≡ into.old.items ++ moment_text moment.now) }
{
    append_fixed(moment.fixed, into)?;
    append_offset(moment.offset, into)
}

/// Appends an instant selector. The only error is want of memory; then a part may be appended.
pub fn append_select(
    rules: &[Rule],
    moment: &Moment,
    patterns: &Patterns<'_>,
    into: &mut Vec<u8>,
) -> Result<(), AllocError>
    ensures { OnOk result (into.new.items ≡ into.old.items ++ select_text patterns.now rules.now moment.now) }
{
    append_rules(rules, patterns, into)?;
    append_moment(moment, into)
}

/// Appends a range selector. The only error is want of memory; then a part may be appended.
pub fn append_range(
    rules: &[Rule],
    range: Ms,
    moment: &Moment,
    patterns: &Patterns<'_>,
    into: &mut Vec<u8>,
) -> Result<(), AllocError>
    ensures { OnOk result (into.new.items ≡ into.old.items ++ range_text patterns.now rules.now range moment.now) }
{
    append_rules(rules, patterns, into)?;
    into.push(b'[')?;
    append_duration(range, into)?;
    into.push(b']')?;
    append_moment(moment, into)
}

/// Appends the brackets of a subquery, with its step, and its moment. The only error is want of memory; then a part may be
/// appended.
pub fn append_steps(
    range: Ms,
    step: Ms,
    moment: &Moment,
    into: &mut Vec<u8>,
) -> Result<(), AllocError>
    ensures { OnOk result (into.new.items ≡ into.old.items ++ steps_text range step moment.now) }
{
    into.push(b'[')?;
    append_duration(range, into)?;
    into.push(b':')?;
    append_duration(step, into)?;
    into.push(b']')?;
    append_moment(moment, into)
}
