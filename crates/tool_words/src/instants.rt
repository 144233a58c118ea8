//! The instants that a query is asked for.
ghost use Rattle.std.specs.Option.{option_copied};
ghost use Rattle.std.specs.Prelude.{◌≡◌, option_map};
ghost use Rattle.tool_words.specs.Asked.{if_grid, moment_at, moments_of, range_of, time_of};
ghost use Rattle.tool_words.specs.Views.{moments_seen};

use frac_text::read_time;
use ticks::{Grid, Ms};

/// The instants of a grid, or its only one.
#[derive(Clone, Copy)]
pub struct Instants {
    pub grid: Grid,
    pub instant: bool,
}

/// The time that a text spells.
fn time_in(text: &str) -> Option<Ms>
    ensures { result ≡ time_of text.now }
{
    read_time(text).ok()
}

/// The grid with these times, where it is one.
fn grid_in(start: Ms, end: Ms, step: Ms, instant: bool) -> Option<Instants>
    ensures { option_map moments_seen result ≡ if_grid (record { start = start; end = end; step = step; instant = instant }) }
{
    match Grid::of(start, end, step) {
        Ok(grid) => Some(Instants { grid, instant }),
        Err(_) => None,
    }
}

/// One instant.
fn moment_at(time: Ms) -> Option<Instants>
    ensures { option_map moments_seen result ≡ moment_at time }
{
    grid_in(time, time, Ms(1), true)
}

/// The instants of a grid whose times are spelled.
fn range_in(from: &str, to: &str, step: &str) -> Option<Instants>
    ensures { option_map moments_seen result ≡ range_of (time_of from.now) (time_of to.now) (time_of step.now) }
{
    match (time_in(from), time_in(to), time_in(step)) {
        (Some(start), Some(end), Some(step)) => grid_in(start, end, step, false),
        _ => None,
    }
}

/// The instants by the values of `--at`, `--from`, `--to` and `--step`.
pub fn instants_by(
    at: Option<&str>,
    from: Option<&str>,
    to: Option<&str>,
    step: Option<&str>,
) -> Option<Instants>
    ensures { option_map moments_seen result
        ≡ moments_of (option_copied at.entry) (option_copied from.entry) (option_copied to.entry) (option_copied step.entry) }
{
    match (at, from, to, step) {
        (None, None, None, None) => moment_at(Ms(0)),
        (Some(at), None, None, None) => match time_in(at) {
            Some(time) => moment_at(time),
            None => None,
        },
        (None, Some(from), Some(to), Some(step)) => range_in(from, to, step),
        _ => None,
    }
}
