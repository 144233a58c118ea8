//! Texts of numbers in rows.
use std::test::Fail;
use xfrac::{XFrac, of};

fn fraction(text: &str) -> Result<XFrac, Fail> {
    let (n, d) = text.split_once('/').ok_or("no fraction")?;
    let n: i128 = n.parse()?;
    let d: i128 = d.parse()?;
    if d <= 0 {
        return Err("no denominator")?;
    }
    Ok(of(n, d)?)
}

/// A fraction n/d, `inf`, `-inf` or `nan`.
pub fn read(text: &str) -> Result<XFrac, Fail> {
    match text {
        "inf" => Ok(XFrac::PosInf),
        "-inf" => Ok(XFrac::NegInf),
        "nan" => Ok(XFrac::NaN),
        _ => fraction(text),
    }
}

/// A field of a row, from 0 on, whose fields are parted by blanks.
pub fn field(row: &str, place: usize) -> Result<&str, Fail> {
    Ok(row.split(' ').nth(place).ok_or("a row without a field")?)
}

/// The number in a field of a row.
pub fn number(row: &str, place: usize) -> Result<XFrac, Fail> {
    read(field(row, place)?)
}

/// Fails, with the row, at the first row that doesn't hold, or where there are more or fewer rows than `count`.
pub fn rows_hold<F: Fn(&str) -> Result<bool, Fail>>(
    rows: &str,
    count: usize,
    holds: F,
) -> Result<(), Fail>
    requires { F.IsAlwaysCallable holds }
{
    if rows.lines().count() != count {
        return Err("another number of rows")?;
    }
    for row in rows.lines() {
        if !holds(row)? {
            return Err(Fail::new(row));
        }
    }
    Ok(())
}
