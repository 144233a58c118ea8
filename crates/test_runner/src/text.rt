//! The lines of verdicts.
ghost use Rattle.label_set.specs.LabelText.{labels_text};
ghost use Rattle.test_runner.specs.Lines.{line_of, reason_text, time_text, value_text, values_text};
ghost use Rattle.std.specs.Fmt.{signed_decimal};
ghost use Rattle.std.specs.Prelude.{◌≡◌, ◌++◌, codes, string_bytes, IfOk, OnOk, Some};

use frac_text::write_number;
use label_set::Labels;
use script_check::{Reason, Verdict, append_both, append_labelled};
use std::alloc::{AllocError, Global};
use ticks::Ms;
use xfrac::XFrac;

/// Appends a value, or that there is none.
fn append_value(value: Option<XFrac>, into: &mut Vec<u8>) -> Result<(), AllocError>
    ensures { OnOk result (into.new.items ≡ into.old.items ++ value_text value) }
{
    match value {
        Some(value) => write_number(&value, into),
        None => into.extend_from_slice(b"nothing"),
    }
}

/// Appends which value was expected, and which is there instead.
fn append_values(
    wanted: Option<XFrac>,
    got: Option<XFrac>,
    into: &mut Vec<u8>,
) -> Result<(), AllocError>
    ensures { OnOk result (into.new.items ≡ into.old.items ++ values_text wanted got) }
{
    into.extend_from_slice(b" expected ")?;
    append_value(wanted, into)?;
    into.extend_from_slice(b" got ")?;
    append_value(got, into)
}

fn moment_text(alloc: Global, at: i64) -> Result<String, AllocError>
    ensures { IfOk result (λ text. string_bytes text ≡ codes " at " ++ signed_decimal at) }
{
    format!(in alloc; " at {at}")
}

/// Appends the time of a value, which isn't told at an instant.
fn append_time(alloc: Global, instant: bool, at: Ms, into: &mut Vec<u8>) -> Result<(), AllocError>
    ensures { OnOk result (into.new.items ≡ into.old.items ++ time_text instant at) }
{
    if instant {
        return Ok(());
    }
    let text = moment_text(alloc, at.0)?;
    into.extend_from_slice(text.as_bytes())
}

/// Appends the reason of a value that isn't near the expected one.
fn append_differing(
    alloc: Global,
    instant: bool,
    labels: &Labels,
    at: Ms,
    wanted: Option<XFrac>,
    got: Option<XFrac>,
    into: &mut Vec<u8>,
) -> Result<(), AllocError>
    ensures { OnOk result (into.new.items ≡ into.old.items ++ (labels_text labels.now ++ (time_text instant at ++ values_text wanted got))) }
{
    labels.write(into)?;
    append_time(alloc, instant, at, into)?;
    append_values(wanted, got, into)
}

fn append_scalar_differing(
    wanted: XFrac,
    got: Option<XFrac>,
    into: &mut Vec<u8>,
) -> Result<(), AllocError>
    ensures { OnOk result (into.new.items ≡ into.old.items ++ (codes "scalar" ++ values_text (Some wanted) got)) }
{
    into.extend_from_slice(b"scalar")?;
    append_values(Some(wanted), got, into)
}

/// Appends a reason; the text of the outcome stands in those where there is no answer.
fn append_reason(
    alloc: Global,
    instant: bool,
    outcome: &[u8],
    reason: &Reason,
    into: &mut Vec<u8>,
) -> Result<(), AllocError>
    ensures { OnOk result (into.new.items ≡ into.old.items ++ reason_text instant outcome.now reason.now) }
{
    match reason {
        Reason::NoFailure => into.extend_from_slice(b"expected a failure"),
        Reason::Unexpected => append_both("unexpected ", outcome, into),
        Reason::FailureText => append_both("failure text ", outcome, into),
        Reason::NoWarning => into.extend_from_slice(b"expected a warning"),
        Reason::Warned => into.extend_from_slice(b"expected no warning"),
        Reason::NoInfo => into.extend_from_slice(b"expected an info"),
        Reason::Informed => into.extend_from_slice(b"expected no info"),
        Reason::NotScalar => into.extend_from_slice(b"expected a scalar"),
        Reason::NotVector => into.extend_from_slice(b"expected a vector"),
        Reason::Missing(labels) => append_labelled("missing ", labels, into),
        Reason::Extra(labels) => append_labelled("unexpected series ", labels, into),
        Reason::Differs {
            labels,
            at,
            wanted,
            got,
        } => append_differing(alloc, instant, labels, *at, *wanted, *got, into),
        Reason::ScalarDiffers { wanted, got } => append_scalar_differing(*wanted, *got, into),
        Reason::Order(labels) => append_labelled("order at ", labels, into),
    }
}

/// The line of a verdict, with its line feed; the text of the outcome stands where that is no answer.
pub fn verdict_line(
    alloc: Global,
    path: &str,
    line: u32,
    instant: bool,
    outcome: &[u8],
    verdict: &Verdict,
) -> Result<Vec<u8>, AllocError>
    ensures { IfOk result (λ text. text.items ≡ line_of path.now line instant outcome.now verdict.now) }
{
    match verdict {
        Verdict::Pass => Ok(format!(in alloc; "PASS {path}:{line}\n")?.into_bytes()),
        Verdict::Fail(reason) => {
            let mut text = format!(in alloc; "FAIL {path}:{line} ")?.into_bytes();
            append_reason(alloc, instant, outcome, reason, &mut text)?;
            text.extend_from_slice(b"\n")?;
            Ok(text)
        }
    }
}
