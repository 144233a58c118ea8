//! The loop over the rows of a table.
use std::alloc::Global;
use std::test::Fail;

/// Fails, with the row, at the first row that doesn't hold, and where there are more or fewer rows than so many. An empty line is none.
pub fn rows_hold<F: Fn(Global, &str) -> Result<bool, Fail>>(
    alloc: Global,
    rows: &str,
    count: u32,
    holds: F,
) -> Result<(), Fail>
    requires { F.IsAlwaysCallable holds }
{
    let mut tried = 0u32;
    for row in rows.lines() {
        if row.is_empty() {
            continue;
        }
        if !holds(alloc, row)? {
            return Err(Fail::new(row));
        }
        tried = tried.saturating_add(1);
    }
    if tried == count {
        Ok(())
    } else {
        Err(Fail::from("another number of rows"))
    }
}
