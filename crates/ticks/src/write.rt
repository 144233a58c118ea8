ghost use Rattle.std.specs.Prelude.{◌≡◌, ◌++◌, decimal, string_bytes, unsigned_abs, IfOk, OnOk, OnErr};
ghost use Rattle.ticks.specs.Spellings.{part, parts, sign, spelling};
ghost use Rattle.ticks.specs.Units.{name_of};

use crate::Ms;
use crate::unit::{LONGEST_FIRST, Unit};
use std::alloc::{AllocError, Global};

/// Writes the one spelling of a duration at the end of a list: `-` if it is negative, then each unit from `y` to `ms`
/// with its greatest count, left out where that is 0; `0s` for none. The only error is want of memory; then the list is
/// as it was.
pub fn write_duration(d: Ms, into: &mut Vec<u8>) -> Result<(), AllocError>
    ensures ok { OnOk result (into.new.items ≡ into.old.items ++ spelling d.0) }
    ensures err { OnErr result (into.new.items ≡ into.old.items) }
{
    let text = spelled(*into.allocator(), d.0)?;
    into.extend_from_slice(text.as_bytes())
}

fn spelled(alloc: Global, milliseconds: i64) -> Result<String, AllocError>
    ensures { IfOk result (λ text. string_bytes text ≡ spelling milliseconds) }
{
    if milliseconds == 0 {
        return String::from_str(alloc, "0s");
    }
    let mut text = String::from_str(alloc, sign_of(milliseconds))?;
    add_parts(
        alloc,
        &mut text,
        &LONGEST_FIRST,
        milliseconds.unsigned_abs(),
    )?;
    Ok(text)
}

fn sign_of(milliseconds: i64) -> &'static str
    ensures { result.now ≡ sign milliseconds }
{
    if milliseconds < 0 { "-" } else { "" }
}

fn add_parts(
    alloc: Global,
    text: &mut String,
    units: &[Unit],
    milliseconds: u64,
) -> Result<(), AllocError>
    ensures { OnOk result (string_bytes text.new ≡ string_bytes text.old ++ parts units.now milliseconds) }
{
    let mut left = milliseconds;
    for unit in units {
        let one = part_text(alloc, *unit, left)?;
        text.push_str(one.as_str())?;
        left %= unit.milliseconds();
    }
    Ok(())
}

fn part_text(alloc: Global, unit: Unit, milliseconds: u64) -> Result<String, AllocError>
    ensures { IfOk result (λ text. string_bytes text ≡ part unit milliseconds) }
{
    let length = unit.milliseconds();
    if milliseconds < length {
        return Ok(String::new(alloc));
    }
    let count = milliseconds / length;
    let name = unit.name();
    format!(in alloc; "{count}{name}")
}
