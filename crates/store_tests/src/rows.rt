//! The loop over the rows of a table, and how a test fails.
use std::alloc::Global;
use std::test::Fail;

/// Fails, with the row, at the first row that doesn't hold.
pub fn rows_hold<F: Fn(Global, &str) -> Result<bool, Fail>>(
    alloc: Global,
    rows: &str,
    apart: char,
    holds: F,
) -> Result<(), Fail>
    requires { F.IsAlwaysCallable holds }
{
    for row in rows.split(apart) {
        if !holds(alloc, row)? {
            return Err(Fail::new(row));
        }
    }
    Ok(())
}

/// Fails, with what was got, where that is another text.
pub fn text_is(got: &str, wanted: &str) -> Result<(), Fail> {
    if got == wanted {
        return Ok(());
    }
    Err(Fail::new(got))
}

/// A field of a row, from 0 on; one that isn't there is empty.
pub fn field(row: &str, apart: char, place: usize) -> &str {
    row.split(apart).nth(place).unwrap_or("")
}
